ghost use Rattle.std.specs.Prelude.{◌≡◌, ◌<◌, length, List};
ghost use Rattle.std.specs.List.{slice_get};
ghost use Rattle.hierarchy.specs.declared.marked.Marked.{Marked as Marking};

use hierarchy::Marked;

/// A list of marked instructions in program order.
pub trait Trace {
    ghost items: { Self → List Marking };

    fn len(&self) -> usize
        ensures { result ≡ length (items self.now) };

    /// The instruction at a place, counted from 0.
    fn at(&self, i: usize) -> Marked
        requires { i < length (items self.now) }
        ensures { slice_get (items self.now) i ≡ Some result };
}

/// The trace in a slice.
#[derive(Clone, Copy, Debug)]
pub struct SliceTrace<'a> {
    pub items: &'a [Marked],
}

impl<'a> Trace for SliceTrace<'a> {
    ghost items = { λ trace. trace.items.now };

    fn len(&self) -> usize {
        self.items.len()
    }

    fn at(&self, i: usize) -> Marked {
        self.items[i]
    }
}
