//! What each command answers to its input, a file a command.

ghost use Rattle.std.specs.Prelude.{◌≡◌, ◌≤◌, IsSome, Err};
ghost use Rattle.smarts_io.specs.Causes.{Rose};
ghost use Rattle.smarts_text.specs.Command.{IsSound};
ghost use Rattle.turbosmarts.specs.Answer.{command_result, input_limit};
ghost use Rattle.turbosmarts.specs.Served.{IsServed};

mod demo;
mod estimate;
mod migrate;
mod run;
mod sample;
mod warm;

use crate::stages::LIBRARY_LIMIT;
use crate::stop::Stop;
use crate::written::Written;
use smarts_base::Gate;
use smarts_io::{ReadError, Source, read_all};
use smarts_text::Command;
use std::alloc::Global;
use std::thread::Threads;

/// The largest image, in bytes.
const IMAGE_LIMIT: usize = 67_108_864;

/// Reads what the command takes of its input, and answers what it writes.
pub fn answer<R: Threads + Sync, S: Source, G: Gate + Sync>(
    rt: &R,
    alloc: Global,
    command: &Command,
    source: &mut S,
    gate: &G,
) -> Result<Written, Stop>
    requires { IsSound command.now }
    ensures served { IsServed result (input_limit command.now) (command_result command.now) (S.rest source.old) (S.rest source.new) }
    ensures asked { result ≡ Err (Stop.Read ReadError.Failed) → IsSome (input_limit command.now) }
    ensures failed { result ≡ Err (Stop.Read ReadError.Failed) → Rose (S.faults source.old) (S.faults source.new) }
    ensures unread { (IsSome (input_limit command.now) → ⊥) → S.rest source.new ≡ S.rest source.old }
    ensures unread_count { (IsSome (input_limit command.now) → ⊥) → S.faults source.new ≡ S.faults source.old }
{
    match command {
        Command::Sample {
            design,
            config,
            test,
        } => {
            let image = read_all(alloc, source, IMAGE_LIMIT)?;
            Ok(sample::answer(alloc, design, config, test, &image)?)
        }
        Command::Demo {
            size,
            design,
            config,
            test,
        } => Ok(demo::answer(alloc, *size, design, config, test)?),
        Command::Warm { design, records } => {
            let image = read_all(alloc, source, IMAGE_LIMIT)?;
            Ok(warm::answer(alloc, design, records, &image)?)
        }
        Command::Migrate => {
            let library = read_all(alloc, source, LIBRARY_LIMIT)?;
            Ok(migrate::answer(alloc, &library)?)
        }
        Command::Estimate {
            asked,
            test,
            workers,
        } => estimate::answer(rt, alloc, asked, test, *workers, source, gate),
        Command::Run { budget } => {
            let image = read_all(alloc, source, IMAGE_LIMIT)?;
            Ok(run::answer(alloc, *budget, &image)?)
        }
    }
}
