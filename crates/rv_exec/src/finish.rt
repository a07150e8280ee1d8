ghost use Rattle.std.specs.Prelude.{◌≡◌, ◌<◌, ◌%◌, OnErr};
ghost use Rattle.rv_exec.specs.Word as words;
ghost use Rattle.rv_exec.specs.Memory.{Words, Buffers};
ghost use Rattle.rv_exec.specs.Machine as machine;
ghost use Rattle.rv_exec.specs.Machine.{state, Shows, LeadsShown};
ghost use Rattle.rv_exec.specs.Finish as meaning;

use crate::event::{Buffer, DataRef, Event, Flow, TrapKind};
use crate::state::Core;
use crate::watch::Watch;
use rv_isa::Decoded;

// `inline(always)` stands on all that a step calls, so that what an observer doesn't use of an event, a record
// of some 60 bytes, is never made: that would cost more than the instruction itself.

/// The address of the instruction behind the one at `pc`.
#[inline(always)]
pub fn following(pc: u32) -> u32
    ensures { result ≡ words.following pc }
{
    pc.wrapping_add(4)
}

#[inline(always)]
pub fn set_register(core: &mut Core, rd: u8, value: u32)
    requires { rd < 32 }
    ensures regs { core.new.regs ≡ machine.write core.old.regs rd value }
    ensures pc { core.new.pc ≡ core.old.pc }
    ensures brk { core.new.brk ≡ core.old.brk }
    ensures heap_low { core.new.heap_low ≡ core.old.heap_low }
    ensures exit { core.new.exit ≡ core.old.exit }
{
    if rd != 0 {
        core.regs[usize::from(rd)] = value;
    }
}

/// Ends an instruction that is done but for its pc, and shows what it did.
#[tactic(auto, unfolding(crate::specs::Finish::completes))]
#[inline(always)]
pub fn complete<W: Watch>(
    core: &mut Core,
    watch: &mut W,
    word: u32,
    decoded: &Decoded,
    access: Option<DataRef>,
    control: Flow,
    next: u32,
    wrote: Option<Buffer>,
)
    requires sound { W.sound watch.old }
    requires next { next % 4 ≡ 0 }
    ensures shows { (m : Words) (b : Buffers)
        → Shows (meaning.completes (state core.old m b) word decoded.now.inst access control next wrote)
        (state core.new m b) wrote (λ e. W.sees watch.old e watch.new) }
    ensures sound { W.sound watch.new }
{
    let event = Event {
        pc: core.pc,
        fetched: word,
        class: decoded.class,
        first: decoded.first,
        second: decoded.second,
        dest: decoded.dest,
        access,
        control,
        next,
        wrote,
    };
    core.pc = next;
    watch.see(&event);
}

/// The same, where the instruction behind it comes next.
#[tactic(auto, unfolding(crate::specs::Finish::goes_on))]
#[inline(always)]
pub fn go_on<W: Watch>(
    core: &mut Core,
    watch: &mut W,
    word: u32,
    decoded: &Decoded,
    access: Option<DataRef>,
    wrote: Option<Buffer>,
)
    requires { W.sound watch.old }
    ensures shows { (m : Words) (b : Buffers)
        → Shows (meaning.goes_on (state core.old m b) word decoded.now.inst access wrote)
        (state core.new m b) wrote (λ e. W.sees watch.old e watch.new) }
    ensures sound { W.sound watch.new }
{
    let next = following(core.pc);
    complete(
        core,
        watch,
        word,
        decoded,
        access,
        Flow::Straight,
        next,
        wrote,
    );
}

/// The same, with a value for a register.
#[tactic(auto, unfolding(crate::specs::Finish::computes))]
#[inline(always)]
pub fn compute<W: Watch>(
    core: &mut Core,
    watch: &mut W,
    word: u32,
    decoded: &Decoded,
    rd: u8,
    value: u32,
    access: Option<DataRef>,
    wrote: Option<Buffer>,
)
    requires sound { W.sound watch.old }
    requires register { rd < 32 }
    ensures shows { (m : Words) (b : Buffers)
        → Shows (meaning.computes (state core.old m b) word decoded.now.inst rd value access wrote)
        (state core.new m b) wrote (λ e. W.sees watch.old e watch.new) }
    ensures sound { W.sound watch.new }
{
    set_register(core, rd, value);
    go_on(core, watch, word, decoded, access, wrote);
}

#[tactic(auto, unfolding(crate::specs::Finish::branches))]
#[inline(always)]
pub fn branch<W: Watch>(
    core: &mut Core,
    watch: &mut W,
    word: u32,
    decoded: &Decoded,
    taken: bool,
    target: u32,
) -> Result<Option<Buffer>, TrapKind>
    requires { W.sound watch.old }
    ensures leads { (m : Words) (b : Buffers)
        → LeadsShown (meaning.branches (state core.old m b) word decoded.now.inst taken target)
        result (state core.new m b) (λ e. W.sees watch.old e watch.new) }
    ensures sound { W.sound watch.new }
    ensures unchanged { OnErr result ((core.new ≡ core.old) × (watch.new ≡ watch.old)) }
{
    let next = if taken { target } else { following(core.pc) };
    if next % 4 != 0 {
        return Err(TrapKind::BadTarget);
    }
    complete(
        core,
        watch,
        word,
        decoded,
        None,
        Flow::Branch { taken },
        next,
        None,
    );
    Ok(None)
}

#[tactic(auto, unfolding(crate::specs::Finish::jumps))]
#[inline(always)]
pub fn jump<W: Watch>(
    core: &mut Core,
    watch: &mut W,
    word: u32,
    decoded: &Decoded,
    rd: u8,
    target: u32,
    control: Flow,
) -> Result<Option<Buffer>, TrapKind>
    requires sound { W.sound watch.old }
    requires register { rd < 32 }
    ensures leads { (m : Words) (b : Buffers)
        → LeadsShown (meaning.jumps (state core.old m b) word decoded.now.inst rd target control)
        result (state core.new m b) (λ e. W.sees watch.old e watch.new) }
    ensures sound { W.sound watch.new }
    ensures unchanged { OnErr result ((core.new ≡ core.old) × (watch.new ≡ watch.old)) }
{
    if target % 4 != 0 {
        return Err(TrapKind::BadTarget);
    }
    let link = following(core.pc);
    set_register(core, rd, link);
    complete(core, watch, word, decoded, None, control, target, None);
    Ok(None)
}
