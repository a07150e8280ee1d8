ghost use Rattle.std.specs.Prelude.{◌≡◌, ◌%◌, slice_index};

/// The registers of a machine, without its memory.
#[derive(Clone, Copy, Debug)]
pub struct Core {
    /// Where the next instruction stands.
    pub pc: u32,
    pub regs: [u32; 32],
    /// The end of the heap.
    pub brk: u32,
    /// Where the heap begins.
    pub heap_low: u32,
    /// The code with which the program has exited.
    pub exit: Option<u32>,
    pub ghost zero: { slice_index regs 0 ≡ 0 },
    pub ghost aligned: { pc % 4 ≡ 0 },
}
