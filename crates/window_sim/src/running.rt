ghost use Rattle.std.specs.Prelude.{◌≡◌, ◌*◌, ◌+◌, ◌<◌, ◌++◌, ◌∷◌, [], ℕ, List, Ok, Err, length, All, IfOk, IfErr, MatchResult};
ghost use Rattle.hierarchy.specs.declared.marked.Marked.{Marked as Mark};
ghost use Rattle.hierarchy.specs.declared.state.State.{State as Warm};
ghost use Rattle.hierarchy.specs.Config.{IsConfig};
ghost use Rattle.hierarchy.specs.Marked.{IsMarked};
ghost use Rattle.hierarchy.specs.Trace.{trace, IsAnnotated};
ghost use Rattle.rv_exec.specs.Machine.{state, State as Machine};
ghost use Rattle.unit_answers.specs.Answers.{kind_of};
ghost use Rattle.window_sim.specs.Built.{IsBuilt};
ghost use Rattle.window_sim.specs.Marks.{marks_in, or_fault};

use crate::marks::pack;
use confidence::{PointFault, PointKind};
use hierarchy::{Config, Marked, State};
use rv_exec::{Core, Memory, TrapKind, step_with};
use rv_isa::Decoder;

fn kind_of(kind: TrapKind) -> PointKind
    ensures { result ≡ kind_of kind }
{
    match kind {
        TrapKind::Illegal => PointKind::Illegal,
        TrapKind::BadTarget => PointKind::BadTarget,
        TrapKind::MisalignedLoad => PointKind::MisalignedLoad,
        TrapKind::MisalignedStore => PointKind::MisalignedStore,
        TrapKind::Missing => PointKind::Missing,
        TrapKind::Break => PointKind::Break,
        TrapKind::BadBuffer => PointKind::BadBuffer,
    }
}

/// One instruction and its marks, or why it can't be done: a trap, or that the program has exited.
#[inline(always)]
fn take_step<M: Memory>(
    config: &Config,
    decoder: &mut Decoder,
    core: &mut Core,
    memory: &mut M,
    warm: &mut State,
) -> Result<Marked, PointFault>
    requires config { IsConfig config.now }
    requires sound { M.sound memory.old }
    requires built { IsBuilt config.now warm.old }
    ensures sound { M.sound memory.new }
    ensures built { IsBuilt config.now warm.new }
    ensures marked { IfOk result IsMarked }
    ensures annotated { IfOk result (λ mark. (first : Warm) (start : Machine) (n : ℕ) (marks : List Mark)
        → IsAnnotated config.now.latencies first start n marks (state core.old (M.words memory.old) (M.buffers memory.old)) warm.old
        → IsAnnotated config.now.latencies first start (n + 1) (marks ++ mark ∷ []) (state core.new (M.words memory.new) (M.buffers memory.new)) warm.new) }
    ensures fault { IfErr result (λ fault. (first : Warm) (start : Machine) (n len : ℕ) (marks : List Mark)
        → IsAnnotated config.now.latencies first start n marks (state core.old (M.words memory.old) (M.buffers memory.old)) warm.old
        → n < len → or_fault (trace config.now.latencies first start len) ≡ Err fault) }
{
    if let Some(_code) = core.exit {
        return Err(PointFault {
            kind: PointKind::AfterExit,
            pc: core.pc,
        });
    }
    match step_with(decoder, core, memory) {
        Ok(event) => Ok(warm.annotate(config, &event)),
        Err(trap) => Err(PointFault {
            kind: kind_of(trap.kind),
            pc: trap.pc,
        }),
    }
}

/// Runs so many instructions, and packs the marks of each; or tells why they couldn't all be done.
pub fn run_window<M: Memory>(
    config: &Config,
    decoder: &mut Decoder,
    core: &mut Core,
    memory: &mut M,
    warm: &mut State,
    words: &mut [u64],
    len: usize,
) -> Result<(), PointFault>
    requires config { IsConfig config.now }
    requires sound { M.sound memory.old }
    requires built { IsBuilt config.now warm.old }
    requires room { length words.old ≡ 2 * len }
    ensures built { IsBuilt config.now warm.new }
    ensures marked { IfOk result (λ _. All IsMarked (marks_in words.new)) }
    ensures trace { MatchResult result
        (λ _. or_fault (trace config.now.latencies warm.old (state core.old (M.words memory.old) (M.buffers memory.old)) len) ≡ Ok (marks_in words.new))
        (λ fault. or_fault (trace config.now.latencies warm.old (state core.old (M.words memory.old) (M.buffers memory.old)) len) ≡ Err fault) }
{
    for i in 0..len {
        let mark = take_step(config, decoder, core, memory, warm)?;
        let (one, other) = pack(&mark);
        words[2 * i] = one;
        words[2 * i + 1] = other;
    }
    Ok(())
}
