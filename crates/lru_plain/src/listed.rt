ghost use Rattle.std.specs.Prelude.{◌≡◌, ℕ};
ghost use Rattle.lru_plain.specs.Lists.{free_block};

/// What a set lists: a block, alone or with what is known of it.
pub trait Listed: Copy {
    ghost block_in: { Self → ℕ };

    /// The block.
    fn block(&self) -> u32
        ensures { result ≡ block_in self.now };

    /// What stands in a place that is free. Its number is that of no block.
    fn free() -> Self
        ensures { block_in result ≡ free_block };
}

impl Listed for u32 {
    ghost block_in = { λ block. block };

    #[inline]
    fn block(&self) -> u32 {
        *self
    }

    #[inline]
    fn free() -> u32 {
        u32::MAX
    }
}
