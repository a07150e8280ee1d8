ghost use Rattle.std.specs.Prelude.{◌≡◌, ◌≢◌};
ghost use Rattle.ordered_fold.specs.Batch.{IsHeldAnswer};
ghost use Rattle.ordered_fold.specs.Cell.{kind_of as kind_of_number, code as code_of, answer_of as answer_of_code};

use confidence::{Answer, PointFault, PointKind};

/// The code of an answer, as a cell holds it: its cycles, or the number of its fault's kind in the
/// upper half of the word and the pc in the lower. It is never 0, which says that nothing was reported.
pub fn code(answer: Answer) -> u64
    requires held { IsHeldAnswer answer }
    ensures value { result ≡ code_of answer }
    ensures some { result ≢ 0 }
    ensures back { answer_of_code result ≡ answer }
{
    match answer {
        Answer::Cycles(cycles) => u64::from(cycles),
        Answer::Fault(fault) => (fault.kind as u64) * (1 << 32) + u64::from(fault.pc),
    }
}

/// The answer of this code.
pub fn answer_of(word: u64) -> Answer
    ensures { result ≡ answer_of_code word }
{
    if word < 1 << 32 {
        Answer::Cycles(word as u32)
    } else {
        Answer::Fault(PointFault {
            kind: kind_of(word / (1 << 32)),
            pc: (word % (1 << 32)) as u32,
        })
    }
}

fn kind_of(number: u64) -> PointKind
    ensures { result ≡ kind_of_number number }
{
    match number {
        1 => PointKind::Illegal,
        2 => PointKind::BadTarget,
        3 => PointKind::MisalignedLoad,
        4 => PointKind::MisalignedStore,
        5 => PointKind::Missing,
        6 => PointKind::Break,
        7 => PointKind::BadBuffer,
        _ => PointKind::AfterExit,
    }
}
