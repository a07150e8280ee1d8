ghost use Rattle.recency_record.specs.declared.entry.Entry.{Entry};

use lru_plain::Listed;

/// A block and the time of its last use: the number of references before it.
#[derive(Clone, Copy, Debug, PartialEq, Eq, Default)]
pub struct Entry {
    pub block: u32,
    pub time: u64,
}

impl Listed for Entry {
    ghost block_in = { λ entry. entry.block };

    #[inline]
    fn block(&self) -> u32 {
        self.block
    }

    #[inline]
    fn free() -> Entry {
        Entry {
            block: u32::MAX,
            time: 0,
        }
    }
}
