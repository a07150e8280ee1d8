ghost use Rattle.std.specs.Prelude.{◌≡◌, ◌%◌, not};
ghost use Rattle.predictor.specs.Rules.{is_taken, same_direction, counter_for, after_branch, pushed_if, is_top, popped, holds_jump, target_for, after_jump, is_mispredicted, observed};

use crate::direction::{counted, lengthened, low_bits, mixed};
use crate::image::PredictorImage;
use crate::kind::PredictorKind;
use crate::stack;
use rv_exec::{Event, Flow};

impl PredictorImage {
    /// Learns from a branch, and tells whether its direction was mispredicted.
    fn branch(&mut self, pc: u32, taken: bool) -> bool
        ensures missed { result ≡ not (same_direction (is_taken (counter_for self.old pc)) taken) }
        ensures tables { self.new ≡ after_branch self.old pc taken }
    {
        let PredictorKind { scheme, bits, .. } = self.kind;
        let place = low_bits(mixed(scheme, pc / 4, self.history), bits);
        let counter = &mut self.counters[place as usize];
        let before = *counter;
        *counter = counted(before, taken);
        self.history = lengthened(scheme, bits, self.history, taken);
        (before >= 2) != taken
    }

    /// Puts the address behind a call on the stack, if it is one.
    fn push_if(&mut self, push: bool, pc: u32)
        requires { pc % 4 ≡ 0 }
        ensures { self.new ≡ pushed_if push self.old pc }
    {
        if push {
            let depth = usize::from(self.kind.depth);
            stack::push(&mut self.stack, depth, pc.wrapping_add(4));
        }
    }

    /// Takes the top of the stack, and tells whether a return to this address was mispredicted.
    fn pop(&mut self, next: u32) -> bool
        ensures missed { result ≡ not (is_top self.old.stack next) }
        ensures tables { self.new ≡ popped self.old }
    {
        self.stack.pop() != Some(next)
    }

    /// Learns from an indirect jump that is no return, and tells whether it was mispredicted.
    fn jump(&mut self, pc: u32, next: u32) -> bool
        requires pc { pc % 4 ≡ 0 }
        requires next { next % 4 ≡ 0 }
        ensures missed { result ≡ not (holds_jump (target_for self.old pc) pc next) }
        ensures tables { self.new ≡ after_jump self.old pc next }
    {
        let place = low_bits(pc / 4, self.kind.target_log);
        let entry = &mut self.targets[place as usize];
        let before = *entry;
        *entry = (pc, next);
        before != (pc, next)
    }

    /// Learns from an event, and tells whether it was mispredicted.
    #[inline(always)]
    pub(crate) fn observe(&mut self, event: &Event) -> bool
        requires pc { event.now.pc % 4 ≡ 0 }
        requires next { event.now.next % 4 ≡ 0 }
        ensures missed { result ≡ is_mispredicted self.old event.now }
        ensures tables { self.new ≡ observed self.old event.now }
    {
        match event.control {
            Flow::Straight => false,
            Flow::Branch { taken } => self.branch(event.pc, taken),
            Flow::Jal { push } => {
                self.push_if(push, event.pc);
                false
            }
            Flow::Jalr { pop, push } => {
                let missed = if pop {
                    self.pop(event.next)
                } else {
                    self.jump(event.pc, event.next)
                };
                self.push_if(push, event.pc);
                missed
            }
        }
    }
}
