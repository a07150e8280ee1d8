ghost use Rattle.std.specs.Prelude.{◌≡◌, None, IfOk, OnErr};
ghost use Rattle.rv_isa.specs.Table.{IsEncodable};
ghost use Rattle.rv_exec.specs.Action.{action_of};
ghost use Rattle.rv_exec.specs.Event.{IsWellFormed};
ghost use Rattle.rv_exec.specs.Machine.{state, LeadsShown, Follows, FollowsShown};
ghost use Rattle.rv_exec.specs.Next as meaning;

use crate::action::{Action, read_action};
use crate::calls::call;
use crate::data::{load, store};
use crate::event::{Buffer, Event, Trap, TrapKind};
use crate::finish::{branch, compute, go_on, jump};
use crate::memory::Memory;
use crate::state::Core;
use crate::watch::{Latest, Watch};
use rv_isa::{Decoded, Decoder, decode};

/// Executes the instruction at `core.pc`.
///
/// On a trap the core and the memory are as they were. A misaligned address is told before a
/// missing word.
#[inline(always)]
pub fn step<M: Memory>(core: &mut Core, memory: &mut M) -> Result<Event, Trap>
    requires running { core.old.exit ≡ None }
    requires sound { M.sound memory.old }
    ensures next { Follows (meaning.next (state core.old (M.words memory.old) (M.buffers memory.old)))
        (state core.old (M.words memory.old) (M.buffers memory.old))
        result (state core.new (M.words memory.new) (M.buffers memory.new)) }
    ensures sound { M.sound memory.new }
    ensures unchanged { OnErr result ((core.new ≡ core.old) × (memory.new ≡ memory.old)) }
    ensures well_formed { IfOk result IsWellFormed }
{
    let pc = core.pc;
    let mut latest = Latest { event: None };
    match fetch_and_perform(core, memory, &mut latest) {
        Ok(_) => Ok(latest.event.unwrap()),
        Err(kind) => Err(Trap { kind, pc }),
    }
}

/// The same, for many steps: the decoder saves decoding the same word again.
#[inline(always)]
pub fn step_with<M: Memory>(
    decoder: &mut Decoder,
    core: &mut Core,
    memory: &mut M,
) -> Result<Event, Trap>
    requires running { core.old.exit ≡ None }
    requires sound { M.sound memory.old }
    ensures next { Follows (meaning.next (state core.old (M.words memory.old) (M.buffers memory.old)))
        (state core.old (M.words memory.old) (M.buffers memory.old))
        result (state core.new (M.words memory.new) (M.buffers memory.new)) }
    ensures sound { M.sound memory.new }
    ensures unchanged { OnErr result ((core.new ≡ core.old) × (memory.new ≡ memory.old)) }
    ensures well_formed { IfOk result IsWellFormed }
{
    let mut latest = Latest { event: None };
    match step_watched(decoder, core, memory, &mut latest) {
        Ok(_) => Ok(latest.event.unwrap()),
        Err(trap) => Err(trap),
    }
}

/// The same, where an observer is shown the event: what it doesn't use of the event is not made. Tells the
/// event's output.
#[inline(always)]
pub fn step_watched<M: Memory, W: Watch>(
    decoder: &mut Decoder,
    core: &mut Core,
    memory: &mut M,
    watch: &mut W,
) -> Result<Option<Buffer>, Trap>
    requires running { core.old.exit ≡ None }
    requires sound { M.sound memory.old }
    requires watch { W.sound watch.old }
    ensures next { FollowsShown (meaning.next (state core.old (M.words memory.old) (M.buffers memory.old)))
        (state core.old (M.words memory.old) (M.buffers memory.old))
        result (state core.new (M.words memory.new) (M.buffers memory.new))
        (λ e. W.sees watch.old e watch.new) }
    ensures sound { M.sound memory.new }
    ensures watch { W.sound watch.new }
    ensures unchanged { OnErr result ((core.new ≡ core.old) × (memory.new ≡ memory.old) × (watch.new ≡ watch.old)) }
{
    let pc = core.pc;
    match look_up_and_perform(decoder, core, memory, watch) {
        Ok(wrote) => Ok(wrote),
        Err(kind) => Err(Trap { kind, pc }),
    }
}

#[tactic(auto, unfolding(crate::specs::Next::next))]
#[inline(always)]
fn fetch_and_perform<M: Memory, W: Watch>(
    core: &mut Core,
    memory: &mut M,
    watch: &mut W,
) -> Result<Option<Buffer>, TrapKind>
    requires sound { M.sound memory.old }
    requires watch { W.sound watch.old }
    ensures next { LeadsShown (meaning.next (state core.old (M.words memory.old) (M.buffers memory.old)))
        result (state core.new (M.words memory.new) (M.buffers memory.new))
        (λ e. W.sees watch.old e watch.new) }
    ensures sound { M.sound memory.new }
    ensures watch { W.sound watch.new }
    ensures unchanged { OnErr result ((core.new ≡ core.old) × (memory.new ≡ memory.old) × (watch.new ≡ watch.old)) }
{
    let Some(word) = memory.load_word(core.pc) else {
        return Err(TrapKind::Missing);
    };
    let Some(inst) = decode(word) else {
        return Err(TrapKind::Illegal);
    };
    perform(core, memory, watch, word, &Decoded::of(inst))
}

#[tactic(auto, unfolding(crate::specs::Next::next))]
#[inline(always)]
fn look_up_and_perform<M: Memory, W: Watch>(
    decoder: &mut Decoder,
    core: &mut Core,
    memory: &mut M,
    watch: &mut W,
) -> Result<Option<Buffer>, TrapKind>
    requires sound { M.sound memory.old }
    requires watch { W.sound watch.old }
    ensures next { LeadsShown (meaning.next (state core.old (M.words memory.old) (M.buffers memory.old)))
        result (state core.new (M.words memory.new) (M.buffers memory.new))
        (λ e. W.sees watch.old e watch.new) }
    ensures sound { M.sound memory.new }
    ensures watch { W.sound watch.new }
    ensures unchanged { OnErr result ((core.new ≡ core.old) × (memory.new ≡ memory.old) × (watch.new ≡ watch.old)) }
{
    let Some(word) = memory.load_word(core.pc) else {
        return Err(TrapKind::Missing);
    };
    let Some(decoded) = decoder.decode(core.pc, word) else {
        return Err(TrapKind::Illegal);
    };
    perform(core, memory, watch, word, &decoded)
}

#[inline(always)]
fn perform<M: Memory, W: Watch>(
    core: &mut Core,
    memory: &mut M,
    watch: &mut W,
    word: u32,
    decoded: &Decoded,
) -> Result<Option<Buffer>, TrapKind>
    requires sound { M.sound memory.old }
    requires watch { W.sound watch.old }
    requires encodable { IsEncodable decoded.now.inst }
    ensures next { LeadsShown
        (meaning.perform (state core.old (M.words memory.old) (M.buffers memory.old)) word
        decoded.now.inst (action_of core.old.pc core.old.regs decoded.now.inst))
        result (state core.new (M.words memory.new) (M.buffers memory.new))
        (λ e. W.sees watch.old e watch.new) }
    ensures sound { M.sound memory.new }
    ensures watch { W.sound watch.new }
    ensures unchanged { OnErr result ((core.new ≡ core.old) × (memory.new ≡ memory.old) × (watch.new ≡ watch.old)) }
{
    match read_action(core, &decoded.inst) {
        Action::Compute { rd, value } => {
            compute(core, watch, word, decoded, rd, value, None, None);
            Ok(None)
        }
        Action::Load {
            rd,
            addr,
            size,
            signed,
        } => load(core, memory, watch, word, decoded, rd, addr, size, signed),
        Action::Store { addr, size, value } => {
            store(core, memory, watch, word, decoded, addr, size, value)
        }
        Action::Branch { taken, target } => branch(core, watch, word, decoded, taken, target),
        Action::Jump {
            rd,
            target,
            control,
        } => jump(core, watch, word, decoded, rd, target, control),
        Action::Pass => {
            go_on(core, watch, word, decoded, None, None);
            Ok(None)
        }
        Action::Call => call(core, memory, watch, word, decoded),
        Action::Break => Err(TrapKind::Break),
    }
}
