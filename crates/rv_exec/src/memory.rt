ghost use Rattle.std.specs.Prelude.{◌≡◌, ◌%◌, ℕ, Bool, IsSome, is_some, if◌then◌else◌};
ghost use Rattle.rv_exec.specs.Memory.{Words, Buffers, word_at, stored, passes};

/// A memory of words of four bytes, each at an address that is a multiple of 4.
///
/// It may hold the words of some addresses only. Its value is the finite map `words` from addresses
/// to words, and `buffers`, which tells what `covers` answers. `sound` is what an implementation
/// keeps true of itself.
pub trait Memory {
    ghost words: { Self → Words };

    ghost buffers: { Self → Buffers };

    ghost sound: { Self → Type 0 };

    /// The word at an address, `None` exactly where it is not held. Words are held at multiples of 4
    /// alone.
    fn load_word(&self, addr: u32) -> Option<u32>
        requires { sound self.now }
        ensures value { result ≡ word_at (words self.now) addr }
        ensures aligned { IsSome result → addr % 4 ≡ 0 };

    /// Changes a word, and tells whether it is held. Where it is not, nothing changes.
    fn store_word(&mut self, addr: u32, value: u32) -> bool
        requires { sound self.old }
        ensures held { result ≡ is_some (word_at (words self.old) addr) }
        ensures words { words self.new
            ≡ (if result then stored (words self.old) addr value else words self.old) }
        ensures buffers { buffers self.new ≡ buffers self.old }
        ensures sound { sound self.new };

    /// Whether a write call may use these bytes.
    fn covers(&self, addr: u32, len: u32) -> bool
        requires { sound self.now }
        ensures { result ≡ passes (buffers self.now) addr len };
}
