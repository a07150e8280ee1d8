ghost use Rattle.std.specs.Prelude.{◌≡◌, ◌<◌, ℕ, List, length, map, string_bytes, take, IfErr, IfSome, IsErr};
ghost use Rattle.smarts_io.specs.Bytes.{Gives, Takes};
ghost use Rattle.smarts_io.specs.Causes.{Rose};
ghost use Rattle.smarts_text.specs.Read.{meaning};
ghost use Rattle.smarts_text.specs.Texts.{fault_line};
ghost use Rattle.turbosmarts.specs.Answer.{AsksForInput, answer};
ghost use Rattle.turbosmarts.specs.Ending.{EndsAs, HasAnswered, IsAnswered, IsBadWords, IsDetermined, IsFault, IsUnwritten, end_line};
ghost use Rattle.turbosmarts.specs.Telling.{TakesFront};

use crate::ending::End;
use crate::serving::serve;
use crate::telling::tell;
use smarts_base::{Gate, Refusal};
use smarts_io::{Sink, Source};
use smarts_text::{Status, read_words};
use std::alloc::Global;
use std::thread::Threads;

/// All that the program does: it takes the words of the command line, without the program's name, reads its
/// input from the source, writes its answer to the sink, and tells a person about it by the lines.
///
/// The answer to words and input is one function of both, whatever the source and the sinks are like. For
/// `sample` it is the report of one thread that keeps the whole machine, feeds plain caches and the predictor every
/// instruction, times each unit's window from there, and folds the units in the shuffled order until the test of
/// confidence first holds or none is left. `demo` is a sample of the program that is made from its size and seed.
/// For `estimate` it is the same of the windows that the points of a library tell, in their order, at any number of
/// workers. Each worker tells the gate the number of each point before it simulates it.
pub fn turbosmarts<R: Threads + Sync, S: Source, K: Sink, F: Sink, G: Gate + Sync>(
    rt: &R,
    alloc: Global,
    words: &[String],
    source: &mut S,
    sink: &mut K,
    lines: &mut F,
    gate: &G,
) -> Status
    // An end that isn't due to the source, the sink or memory is the answer's, and so is what was written.
    ensures status { IsDetermined result → IfSome (S.rest source.old) (λ input.
        result ≡ (answer (map string_bytes words.now) input).status) }
    ensures written { IsDetermined result → IfSome (S.rest source.old) (λ input.
        Takes (K.taken sink.old) (answer (map string_bytes words.now) input).bytes (K.taken sink.new)) }
    ensures words { IfErr (meaning (map string_bytes words.now)) (λ fault.
        (result ≡ Status.NoMemory → ⊥) → result ≡ Status.BadWords fault) }
    ensures words_only { IsBadWords result → IsErr (meaning (map string_bytes words.now)) }

    // Whether the source tells its bytes or not, there is an input that was answered, and where the source tells
    // it, it is this one.
    ensures answered { IsAnswered result → HasAnswered (answer (map string_bytes words.now))
        (record {
          before = S.rest source.old;
          after = S.rest source.new;
          faults_before = S.faults source.old;
          faults_after = S.faults source.new;
        })
        (record {
          before = K.taken sink.old;
          after = K.taken sink.new;
          faults_before = K.faults sink.old;
          faults_after = K.faults sink.new;
        })
        (λ text. TakesFront text (F.taken lines.old) (F.taken lines.new) (F.faults lines.old) (F.faults lines.new))
        result }

    // A fault but that of a write wrote nothing.
    ensures unwritten { IsUnwritten result → K.taken sink.new ≡ K.taken sink.old }

    // A read fault comes only where the words ask for a command that reads the input, and the source failed in
    // this call.
    ensures read_asked { result ≡ Status.ReadFault → AsksForInput (meaning (map string_bytes words.now)) }
    ensures read_cause { result ≡ Status.ReadFault → Rose (S.faults source.old) (S.faults source.new) }

    // A write fault comes only where there was an answer to write and the sink failed in this call. The sink
    // then has a front of the answer.
    ensures write_cause { (taken : ℕ) → result ≡ Status.WriteFault taken →
        Rose (K.faults sink.old) (K.faults sink.new) }
    ensures write_done { (taken : ℕ) → result ≡ Status.WriteFault taken → IfSome (S.rest source.old) (λ input.
        (answer (map string_bytes words.now) input).status ≡ Status.Done) }
    ensures write_front { (taken : ℕ) → result ≡ Status.WriteFault taken → IfSome (S.rest source.old) (λ input.
        Takes (K.taken sink.old) (take taken (answer (map string_bytes words.now) input).bytes)
        (K.taken sink.new)) }
    ensures write_short { (taken : ℕ) → result ≡ Status.WriteFault taken → IfSome (S.rest source.old) (λ input.
        taken < length (answer (map string_bytes words.now) input).bytes) }

    // Of the input was read what the answer reads. Where the words ask for none, the source is as it was.
    ensures read { IsAnswered result → IfSome (S.rest source.old) (λ input.
        Gives (S.rest source.old) (answer (map string_bytes words.now) input).read (S.rest source.new)) }
    ensures unread { (AsksForInput (meaning (map string_bytes words.now)) → ⊥) → S.rest source.new ≡ S.rest source.old }
    ensures unread_count { (AsksForInput (meaning (map string_bytes words.now)) → ⊥) → S.faults source.new ≡ S.faults source.old }

    // The lines took the text of the fault, or of the exit of the program that was run: all of it, unless they
    // failed in this call.
    ensures lines_fault { IsFault result → TakesFront (fault_line result)
        (F.taken lines.old) (F.taken lines.new) (F.faults lines.old) (F.faults lines.new) }
    ensures lines_done { result ≡ Status.Done → IfSome (S.rest source.old) (λ input.
        TakesFront (answer (map string_bytes words.now) input).lines
        (F.taken lines.old) (F.taken lines.new) (F.faults lines.old) (F.faults lines.new)) }
{
    let end = end_of(rt, alloc, words, source, sink, gate);
    let mut text = [0; 64];
    let length = end.text(&mut text);
    tell(lines, &text[..length]);
    end.status
}

fn end_of<R: Threads + Sync, S: Source, K: Sink, G: Gate + Sync>(
    rt: &R,
    alloc: Global,
    words: &[String],
    source: &mut S,
    sink: &mut K,
    gate: &G,
) -> End
    ensures ends { EndsAs (answer (map string_bytes words.now)) (AsksForInput (meaning (map string_bytes words.now)))
        (record {
          before = S.rest source.old;
          after = S.rest source.new;
          faults_before = S.faults source.old;
          faults_after = S.faults source.new;
        })
        (record {
          before = K.taken sink.old;
          after = K.taken sink.new;
          faults_before = K.faults sink.old;
          faults_after = K.faults sink.new;
        })
        result.status (end_line result.status result.exit) }
    ensures words { IfErr (meaning (map string_bytes words.now)) (λ fault.
        (result.status ≡ Status.NoMemory → ⊥) → result.status ≡ Status.BadWords fault) }
    ensures words_only { IsBadWords result.status → IsErr (meaning (map string_bytes words.now)) }
{
    match read_words(words) {
        Ok(command) => serve(rt, alloc, &command, source, sink, gate),
        Err(Refusal::Fault(fault)) => End::of(Status::BadWords(fault)),
        Err(Refusal::NoMemory) => End::of(Status::NoMemory),
    }
}
