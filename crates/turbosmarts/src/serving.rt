ghost use Rattle.std.specs.Prelude.{◌≡◌, ℕ, List, IsSome, Result, Err};
ghost use Rattle.smarts_io.specs.Causes.{Rose};
ghost use Rattle.smarts_io.specs.declared.reading.ReadError.{ReadError as ReadErrorValue};
ghost use Rattle.smarts_text.specs.Command.{IsSound};
ghost use Rattle.smarts_text.specs.Texts.{fault_line};
ghost use Rattle.turbosmarts.specs.declared.fault.InputFault.{InputFault as InputFaultValue};
ghost use Rattle.turbosmarts.specs.Answer.{command_answer, done_or_refused, input_limit};
ghost use Rattle.turbosmarts.specs.Ending.{EndsAs, GivesAnswer, IsAnswered, IsBadWords, IsFault, IsUnwritten, end_line};
ghost use Rattle.turbosmarts.specs.Served.{IsAnswer};
ghost use Rattle.turbosmarts.specs.Stages.{Written as WrittenValue};

use crate::commands::answer;
use crate::ending::End;
use crate::fault::status_of;
use crate::stop::Stop;
use crate::written::Written;
use smarts_base::Gate;
use smarts_io::{ReadError, Sink, Source, write_all};
use smarts_text::{Command, Status};
use std::alloc::Global;
use std::thread::Threads;

// Writes an answer, or names why there is none.
fn give<K: Sink>(answer: Result<Written, Stop>, sink: &mut K) -> End
    ensures gives { (read : List ℕ) (expected : Result WrittenValue InputFaultValue)
        → IsAnswer answer expected
        → GivesAnswer (done_or_refused read expected)
        (record {
          before = K.taken sink.old;
          after = K.taken sink.new;
          faults_before = K.faults sink.old;
          faults_after = K.faults sink.new;
        })
        result.status }
    ensures lines { (read : List ℕ) (expected : Result WrittenValue InputFaultValue)
        → IsAnswer answer expected
        → result.status ≡ Status.Done → end_line result.status result.exit ≡ (done_or_refused read expected).lines }
    ensures answered { IsAnswered result.status → (error : ReadErrorValue) → answer ≡ Err (Stop.Read error) → ⊥ }
    ensures read_fault { result.status ≡ Status.ReadFault → answer ≡ Err (Stop.Read ReadError.Failed) }
    ensures write_cause { (taken : ℕ) → result.status ≡ Status.WriteFault taken →
        Rose (K.faults sink.old) (K.faults sink.new) }
    ensures unwritten { IsUnwritten result.status → K.taken sink.new ≡ K.taken sink.old }
    ensures told_fault { IsFault result.status → end_line result.status result.exit ≡ fault_line result.status }
    ensures not_words { IsBadWords result.status → ⊥ }
{
    match answer {
        Ok(written) => match write_all(sink, written.bytes()) {
            Ok(()) => End {
                status: Status::Done,
                exit: written.exit(),
            },
            Err(failed) => End::of(Status::WriteFault {
                taken: failed.taken,
            }),
        },
        Err(Stop::Fault(fault)) => End::of(status_of(fault)),
        Err(Stop::Read(ReadError::Failed)) => End::of(Status::ReadFault),
        Err(Stop::Read(ReadError::NoMemory)) => End::of(Status::NoMemory),
    }
}

/// Reads the input of a command, if it has one, and writes its answer.
pub fn serve<R: Threads + Sync, S: Source, K: Sink, G: Gate + Sync>(
    rt: &R,
    alloc: Global,
    command: &Command,
    source: &mut S,
    sink: &mut K,
    gate: &G,
) -> End
    requires { IsSound command.now }
    ensures ends { EndsAs (command_answer command.now) (IsSome (input_limit command.now))
        (record {
          before = S.rest source.old;
          after = S.rest source.new;
          faults_before = S.faults source.old;
          faults_after = S.faults source.new;
        })
        (record {
          before = K.taken sink.old;
          after = K.taken sink.new;
          faults_before = K.faults sink.old;
          faults_after = K.faults sink.new;
        })
        result.status (end_line result.status result.exit) }
    ensures not_words { IsBadWords result.status → ⊥ }
{
    let answer = answer(rt, alloc, command, source, gate);
    give(answer, sink)
}
