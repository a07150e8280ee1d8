ghost use Rattle.std.specs.Prelude.{◌≡◌, ◌≤◌, [], ℕ, List, Some, Err, IfOk, IfErr};
ghost use Rattle.livepoint_format.specs.Format.{IsHeader};
ghost use Rattle.livepoint_format.specs.Views.{head_of};
ghost use Rattle.library_fold.specs.Batches.{HasStarted, IsFoldable};
ghost use Rattle.library_fold.specs.Stops.{IsStopped};
ghost use Rattle.library_reader.specs.Reader.{fresh};
ghost use Rattle.smarts_io.specs.Causes.{Rose};

use crate::copying::copied;
use crate::stop::Stop;
use library_reader::{Intake, Part};
use live_points::Header;
use livepoint_format::LibraryFault;
use smarts_io::{ReadError, Source};
use std::alloc::Global;

/// Reads the header of a library from a source, and answers a copy of it. Its budget is 1.
pub fn read_header<S: Source>(
    alloc: Global,
    intake: &mut Intake,
    source: &mut S,
) -> Result<Header, Stop>
    requires { intake.old ≡ fresh }
    ensures started { IfOk result (λ header. HasStarted header intake.new (S.rest source.old) (S.rest source.new)) }
    ensures foldable { IfOk result IsFoldable }
    ensures fault { IfErr result (λ stop. IsStopped stop intake.old (S.rest source.old) (S.rest source.new)) }
    ensures failed { result ≡ Err (Stop.Read ReadError.Failed) → Rose (S.faults source.old) (S.faults source.new) }
    ensures later { S.faults source.old ≤ S.faults source.new }
{
    match intake.next(alloc, source)? {
        Part::Fault(fault) => return Err(Stop::Library(fault)),
        // No header was handed out, so this is no library.
        Part::End => return Err(Stop::Library(LibraryFault::BadMagic)),
        Part::Point(_) | Part::More => unreachable!(),
        Part::Header => {}
    }
    match intake.header() {
        Some(header) => Ok(copied(header)),
        None => unreachable!(),
    }
}
