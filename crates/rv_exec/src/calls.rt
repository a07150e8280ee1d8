ghost use Rattle.std.specs.Prelude.{◌≡◌, OnErr};
ghost use Rattle.rv_exec.specs.Memory.{Words, Buffers};
ghost use Rattle.rv_exec.specs.Machine.{state, Shows, LeadsShown};
ghost use Rattle.rv_exec.specs.Calls as meaning;

use crate::action::read;
use crate::event::{Buffer, TrapKind};
use crate::finish::{compute, go_on};
use crate::memory::Memory;
use crate::state::Core;
use crate::watch::Watch;
use rv_isa::Decoded;

/// How far the heap may grow.
const HEAP_LIMIT: u32 = 0x0400_0000;

/// An environment call: its number is in register 17, its arguments in 10 to 12, its answer goes
/// to 10.
#[tactic(auto, unfolding(crate::specs::Calls::calls))]
pub fn call<M: Memory, W: Watch>(
    core: &mut Core,
    memory: &M,
    watch: &mut W,
    word: u32,
    decoded: &Decoded,
) -> Result<Option<Buffer>, TrapKind>
    requires sound { M.sound memory.now }
    requires watch { W.sound watch.old }
    ensures leads { LeadsShown
        (meaning.calls (state core.old (M.words memory.now) (M.buffers memory.now)) word
        decoded.now.inst)
        result (state core.new (M.words memory.now) (M.buffers memory.now))
        (λ e. W.sees watch.old e watch.new) }
    ensures watch { W.sound watch.new }
    ensures unchanged { OnErr result ((core.new ≡ core.old) × (watch.new ≡ watch.old)) }
{
    match read(&core.regs, 17) {
        64 => write(core, memory, watch, word, decoded),
        93 | 94 => Ok(exit(core, watch, word, decoded)),
        214 => Ok(set_break(core, watch, word, decoded)),
        _ => Ok(answer(core, watch, word, decoded, 38u32.wrapping_neg(), None)),
    }
}

fn answer<W: Watch>(
    core: &mut Core,
    watch: &mut W,
    word: u32,
    decoded: &Decoded,
    value: u32,
    wrote: Option<Buffer>,
) -> Option<Buffer>
    requires { W.sound watch.old }
    ensures shows { (m : Words) (b : Buffers)
        → Shows (meaning.answers (state core.old m b) word decoded.now.inst value wrote)
        (state core.new m b) result (λ e. W.sees watch.old e watch.new) }
    ensures sound { W.sound watch.new }
{
    compute(core, watch, word, decoded, 10, value, None, wrote);
    wrote
}

#[tactic(auto, unfolding(crate::specs::Calls::writes))]
fn write<M: Memory, W: Watch>(
    core: &mut Core,
    memory: &M,
    watch: &mut W,
    word: u32,
    decoded: &Decoded,
) -> Result<Option<Buffer>, TrapKind>
    requires sound { M.sound memory.now }
    requires watch { W.sound watch.old }
    ensures leads { LeadsShown
        (meaning.writes (state core.old (M.words memory.now) (M.buffers memory.now)) word
        decoded.now.inst)
        result (state core.new (M.words memory.now) (M.buffers memory.now))
        (λ e. W.sees watch.old e watch.new) }
    ensures watch { W.sound watch.new }
    ensures unchanged { OnErr result ((core.new ≡ core.old) × (watch.new ≡ watch.old)) }
{
    let descriptor = read(&core.regs, 10);
    let addr = read(&core.regs, 11);
    let len = read(&core.regs, 12);
    if descriptor != 1 && descriptor != 2 {
        return Ok(answer(core, watch, word, decoded, 9u32.wrapping_neg(), None));
    }
    if len == 0 {
        return Ok(answer(core, watch, word, decoded, 0, None));
    }
    if !memory.covers(addr, len) {
        return Err(TrapKind::BadBuffer);
    }
    Ok(answer(core, watch, word, decoded, len, Some(Buffer { addr, len })))
}

#[tactic(auto, unfolding(crate::specs::Calls::exits))]
fn exit<W: Watch>(core: &mut Core, watch: &mut W, word: u32, decoded: &Decoded) -> Option<Buffer>
    requires { W.sound watch.old }
    ensures shows { (m : Words) (b : Buffers)
        → Shows (meaning.exits (state core.old m b) word decoded.now.inst)
        (state core.new m b) result (λ e. W.sees watch.old e watch.new) }
    ensures sound { W.sound watch.new }
{
    core.exit = Some(read(&core.regs, 10));
    go_on(core, watch, word, decoded, None, None);
    None
}

#[tactic(auto, unfolding(crate::specs::Calls::sets_break))]
fn set_break<W: Watch>(
    core: &mut Core,
    watch: &mut W,
    word: u32,
    decoded: &Decoded,
) -> Option<Buffer>
    requires { W.sound watch.old }
    ensures shows { (m : Words) (b : Buffers)
        → Shows (meaning.sets_break (state core.old m b) word decoded.now.inst)
        (state core.new m b) result (λ e. W.sees watch.old e watch.new) }
    ensures sound { W.sound watch.new }
{
    let value = read(&core.regs, 10);
    if core.heap_low <= value && value - core.heap_low <= HEAP_LIMIT {
        core.brk = value;
        return answer(core, watch, word, decoded, value, None);
    }
    let brk = core.brk;
    answer(core, watch, word, decoded, brk, None)
}
