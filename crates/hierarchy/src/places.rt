ghost use Rattle.std.specs.Prelude.{◌≡◌};

/// Something for each cache and TLB of a processor.
#[derive(Debug, Drop, PartialEq, Eq)]
pub struct Places<T: Drop> {
    /// The first cache of instructions, and that of data.
    pub l1i: T,
    pub l1d: T,
    /// The second cache, of both.
    pub l2: T,
    /// The TLB of instructions, and that of data.
    pub itlb: T,
    pub dtlb: T,
}

impl<T: Copy> Places<T> {
    /// The same once more.
    pub fn copied(&self) -> Places<T>
        ensures { result ≡ self.now }
    {
        Places {
            l1i: self.l1i,
            l1d: self.l1d,
            l2: self.l2,
            itlb: self.itlb,
            dtlb: self.dtlb,
        }
    }
}
