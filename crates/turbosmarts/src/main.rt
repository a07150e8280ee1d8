//! The program: a sampling simulator for RV32IM programs. It reads its input from standard input, writes its
//! answer to standard output, and tells a person about it on standard error.
#![tactic(auto)]

mod commands;
mod ending;
mod fault;
mod folding;
mod measuring;
mod meter;
mod out_of_order;
mod processor;
mod scalar;
mod serving;
mod stages;
mod stop;
mod telling;
#[cfg(test)]
mod tests;
mod top;
mod written;

use smarts_base::OpenGate;
use smarts_io::{ErrorSink, InputSource, OutputSink, write_all};
use smarts_text::{HELP, Status, WordFault, WordKind};
use std::process::ExitCode;
use std::rt::Env;
use std::{env, io};
use telling::tell;
use top::turbosmarts;

/// What `--version` prints.
const VERSION: &str = "turbosmarts 0.1.0\n";

fn main(rt: HostRuntime) -> ExitCode {
    let mut sink = OutputSink::new(rt.stdout());
    let mut lines = ErrorSink::new(rt.stderr());
    let status = match words_of(&rt) {
        Ok(words) => match text_for(&words) {
            Some(text) => match write_all(&mut sink, text.as_bytes()) {
                Ok(()) => Status::Done,
                Err(failed) => tell_fault(
                    &mut lines,
                    Status::WriteFault {
                        taken: failed.taken,
                    },
                ),
            },
            None => {
                let mut source = InputSource::new(rt.stdin());
                turbosmarts(
                    &rt,
                    rt.alloc(),
                    &words,
                    &mut source,
                    &mut sink,
                    &mut lines,
                    &OpenGate,
                )
            }
        },
        Err(status) => tell_fault(&mut lines, status),
    };
    ExitCode::from(status.number())
}

// What is printed for a question about the program itself.
fn text_for(words: &[String]) -> Option<&'static str> {
    let [word] = words else {
        return None;
    };
    match word.as_str() {
        "--help" => Some(HELP),
        "--version" => Some(VERSION),
        _ => None,
    }
}

// Tells of a fault that came before the call of the program, and answers it.
fn tell_fault<F: smarts_io::Sink>(lines: &mut F, status: Status) -> Status {
    let mut text = [0; 64];
    let length = ending::End::of(status).text(&mut text);
    tell(lines, &text[..length]);
    status
}

// The words behind the program's name. A word that isn't text is of no form that a key has.
fn words_of<R: Env + AllocGlobal>(rt: &R) -> Result<Vec<String>, Status> {
    let args = match env::args(rt) {
        Ok(args) => args,
        Err(error) if error.kind() == io::ErrorKind::OutOfMemory => return Err(Status::NoMemory),
        Err(_) => {
            return Err(Status::BadWords(WordFault {
                kind: WordKind::BadValue,
                place: 0,
            }));
        }
    };
    match args.skip(1).collect(rt.alloc()) {
        Ok(words) => Ok(words),
        Err(_) => Err(Status::NoMemory),
    }
}
