ghost use Rattle.std.specs.Prelude.{◌≡◌, ◌%◌, Some};
ghost use Rattle.rv_exec.specs.declared.event.Event.{Event as EventValue};

use crate::event::Event;

/// An observer of steps: each step that is done shows it what it did.
pub trait Watch {
    /// What it may be after an event, from what it was before.
    ghost sees: { Self → EventValue → Self → Type 0 };

    /// What it keeps true of itself.
    ghost sound: { Self → Type 0 };

    fn see(&mut self, event: &Event)
        requires sound { sound self.old }
        requires pc { event.now.pc % 4 ≡ 0 }
        requires next { event.now.next % 4 ≡ 0 }
        ensures sees { sees self.old event.now self.new }
        ensures sound { sound self.new };
}

/// Sees nothing.
#[derive(Clone, Copy, Debug)]
pub struct Nobody {}

impl Watch for Nobody {
    ghost sees = { λ before event after. after ≡ before };

    ghost sound = { λ nobody. Unit {0} };

    #[inline(always)]
    fn see(&mut self, _event: &Event) {}
}

/// Keeps the latest event.
#[derive(Clone, Copy, Debug)]
pub struct Latest {
    pub event: Option<Event>,
}

impl Watch for Latest {
    ghost sees = { λ before event after. after.event ≡ Some event };

    ghost sound = { λ latest. Unit {0} };

    #[inline(always)]
    fn see(&mut self, event: &Event) {
        self.event = Some(*event);
    }
}
