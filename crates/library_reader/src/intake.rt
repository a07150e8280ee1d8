ghost use Rattle.std.specs.Prelude.{◌≡◌, ◌<◌, ◌≤◌, ◌+◌, [], ℕ, List, None, Some, Err, All, option_map, IfOk, IfErr, IfSome, length};
ghost use Rattle.livepoint_format.specs.Format.{IsHeader, IsPoint, AreShared, is_first};
ghost use Rattle.livepoint_format.specs.Views.{head_of};
ghost use Rattle.smarts_io.specs.Bytes.{Gives, IsAtEnd};
ghost use Rattle.smarts_io.specs.Causes.{Rose};
ghost use Rattle.library_reader.specs.Intake.{IsHandedOn, IsPiece, IsStepped};
ghost use Rattle.library_reader.specs.Laws.{IsLast, IsMidFront, IsSettled, points_in};
ghost use Rattle.library_reader.specs.Reader.{came_in, final_fault, fresh, last_part};

use crate::part::Part;
use crate::reader::Reader;
use live_points::Header;
use livepoint_format::{LibraryFault, Shared};
use smarts_base::NoMemory;
use smarts_io::{Failed, ReadError, Source};
use std::alloc::Global;
use std::marker::Model;

/// The most bytes of a library.
const LIMIT: usize = 1_073_741_824;

/// How many bytes one read asks for at most.
const PIECE: usize = 1_048_576;

/// A library that is read from a source as its parts are asked for. All of the source is read before the end or a
/// fault is handed out, so a source that fails comes before every fault of the library.
#[derive(Debug, Drop)]
pub struct Intake {
    reader: Reader,
    /// Room for what one read gives.
    piece: Vec<u8>,
    /// How many bytes came in.
    came: usize,
}

impl Model for Intake {
    ghost use Rattle.library_reader.specs.Reader.{Reading};
    ghost use Rattle.library_reader.specs.IntakeView.{reading_in, IsIntake};

    ghost Value = { Reading };

    ghost view = { reading_in };

    ghost invariant = { IsIntake };
}

// Reads once from the source, and feeds what came where there is room for so many bytes.
fn take_piece<S: Source>(
    source: &mut S,
    reader: &mut Reader,
    buffer: &mut [u8],
    room: usize,
) -> Result<usize, ReadError>
    requires some { 0 < length buffer.old }
    requires room { came_in reader.old + room ≤ 1073741824 }
    ensures given { (given : List ℕ) × Gives (S.rest source.old) given (S.rest source.new)
        × IfOk result (λ n. IsPiece n room given reader.old reader.new) }
    ensures kept { IfErr result (λ _. reader.new ≡ reader.old) }
    ensures within { IfOk result (λ n. n ≤ length buffer.old) }
    ensures long { length buffer.new ≡ length buffer.old }
    ensures end { IfOk result (λ n. n ≡ 0 → IsAtEnd (S.rest source.new)) }
    ensures failed { result ≡ Err ReadError.Failed → Rose (S.faults source.old) (S.faults source.new) }
    ensures later { S.faults source.old ≤ S.faults source.new }
{
    let count = match source.read(buffer) {
        Ok(count) => count,
        Err(Failed) => return Err(ReadError::Failed),
    };
    if 0 < count && count <= room {
        match reader.feed(&buffer[..count]) {
            Ok(()) => {}
            Err(NoMemory) => return Err(ReadError::NoMemory),
        }
    }
    Ok(count)
}

// The same into a room of bytes, of which it fills no more than one byte more than there is room for.
fn fill<S: Source>(
    source: &mut S,
    reader: &mut Reader,
    piece: &mut Vec<u8>,
    room: usize,
) -> Result<usize, ReadError>
    requires some { 0 < length piece.old.items }
    requires room { came_in reader.old + room ≤ 1073741824 }
    ensures given { (given : List ℕ) × Gives (S.rest source.old) given (S.rest source.new)
        × IfOk result (λ n. IsPiece n room given reader.old reader.new) }
    ensures kept { IfErr result (λ _. reader.new ≡ reader.old) }
    ensures within { IfOk result (λ n. n ≤ room + 1) }
    ensures long { length piece.new.items ≡ length piece.old.items }
    ensures end { IfOk result (λ n. n ≡ 0 → IsAtEnd (S.rest source.new)) }
    ensures failed { result ≡ Err ReadError.Failed → Rose (S.faults source.old) (S.faults source.new) }
    ensures later { S.faults source.old ≤ S.faults source.new }
{
    let most = piece.len().min(room + 1);
    take_piece(source, reader, &mut piece[..most], room)
}

// Reads to the end of the source, or to one byte more than a library may have, where so many bytes came before: how
// many these are in all.
fn pass_over<S: Source>(
    source: &mut S,
    buffer: &mut [u8],
    before: usize,
) -> Result<usize, ReadError>
    requires some { 0 < length buffer.old }
    requires before { before ≤ 1073741824 }
    ensures given { (given : List ℕ) × Gives (S.rest source.old) given (S.rest source.new)
        × IfOk result (λ n. n ≡ before + length given) }
    ensures most { IfOk result (λ n. n ≤ 1073741825) }
    ensures long { length buffer.new ≡ length buffer.old }
    ensures end { IfOk result (λ n. n ≤ 1073741824 → IsAtEnd (S.rest source.new)) }
    ensures failed { result ≡ Err ReadError.Failed → Rose (S.faults source.old) (S.faults source.new) }
    ensures later { S.faults source.old ≤ S.faults source.new }
{
    let mut came = before;
    while came <= LIMIT {
        let most = buffer.len().min(LIMIT + 1 - came);
        let count = match source.read(&mut buffer[..most]) {
            Ok(count) => count,
            Err(Failed) => return Err(ReadError::Failed),
        };
        if count == 0 {
            return Ok(came);
        }
        came += count;
    }
    Ok(came)
}

impl Intake {
    pub fn new(alloc: Global) -> Result<Intake, NoMemory>
        ensures { IfOk result (λ intake. intake ≡ fresh) }
    {
        Ok(Intake {
            reader: Reader::new(alloc),
            piece: vec![in alloc; 0u8; PIECE]?,
            came: 0,
        })
    }

    /// The header, once it was handed out.
    pub fn header(&self) -> Option<&Header>
        ensures value { option_map (λ header. head_of header.now) result ≡ option_map (λ front. front.0) self.now.front }
        ensures header { IfSome result (λ header. IsHeader (head_of header.now)) }
        ensures budget { IfSome result (λ header. header.now.design.budget ≡ 1) }
    {
        self.reader.header()
    }

    // What all bytes are, now that no more come.
    fn finish(&mut self, alloc: Global) -> Part
        ensures part { result ≡ last_part (final_fault self.old) }
        ensures last { IsLast result }
    {
        let reader = std::mem::replace(&mut self.reader, Reader::new(alloc));
        self.came = 0;
        match reader.finish() {
            Some(fault) => Part::Fault(fault),
            None => Part::End,
        }
    }

    // Reads once from the source, where nothing more can be handed out.
    fn take_in<S: Source>(
        &mut self,
        alloc: Global,
        source: &mut S,
    ) -> Result<Option<Part>, ReadError>
        requires { IsSettled self.old }
        ensures stepped { IfOk result (λ part. IsStepped part self.old self.new (S.rest source.old) (S.rest source.new)) }
        ensures last { IfOk result (λ part. IfSome part IsLast) }
        ensures failed { result ≡ Err ReadError.Failed → Rose (S.faults source.old) (S.faults source.new) }
        ensures later { S.faults source.old ≤ S.faults source.new }
    {
        let room = LIMIT - self.came;
        let count = fill(source, &mut self.reader, &mut self.piece, room)?;
        if count == 0 {
            return Ok(Some(self.finish(alloc)));
        }
        if count > room {
            let length = (self.came + count) as u64;
            return Ok(Some(Part::Fault(LibraryFault::TooLarge { length })));
        }
        self.came += count;
        Ok(None)
    }

    // The fault that all of the source has: this one, unless it has too many bytes.
    fn refuse<S: Source>(&mut self, source: &mut S, fault: LibraryFault) -> Result<Part, ReadError>
        requires { self.old.fault ≡ Some fault }
        ensures handed { IfOk result (λ part. IsHandedOn part self.old self.new (S.rest source.old) (S.rest source.new)) }
        ensures last { IfOk result IsLast }
        ensures failed { result ≡ Err ReadError.Failed → Rose (S.faults source.old) (S.faults source.new) }
        ensures later { S.faults source.old ≤ S.faults source.new }
    {
        let length = pass_over(source, &mut self.piece, self.came)?;
        if length > LIMIT {
            let length = length as u64;
            return Ok(Part::Fault(LibraryFault::TooLarge { length }));
        }
        Ok(Part::Fault(fault))
    }

    // Hands out what came in, or reads once from the source.
    fn step<S: Source>(&mut self, alloc: Global, source: &mut S) -> Result<Option<Part>, ReadError>
        ensures stepped { IfOk result (λ part. IsStepped part self.old self.new (S.rest source.old) (S.rest source.new)) }
        ensures point { IfOk result (λ part. IfSome part (λ part. IfSome self.old.front (λ front. All (λ point. IsPoint front.0 point.unit point) (points_in part)))) }
        ensures front { IfOk result (λ part. IfSome part (λ part. IsMidFront part self.old.front self.new.front)) }
        ensures failed { result ≡ Err ReadError.Failed → Rose (S.faults source.old) (S.faults source.new) }
        ensures later { S.faults source.old ≤ S.faults source.new }
    {
        match self.reader.next(alloc) {
            Err(NoMemory) => Err(ReadError::NoMemory),
            Ok(Part::More) => self.take_in(alloc, source),
            Ok(Part::End) => self.take_in(alloc, source),
            Ok(Part::Fault(fault)) => Ok(Some(self.refuse(source, fault)?)),
            Ok(Part::Header) => Ok(Some(Part::Header)),
            Ok(Part::Point(point)) => Ok(Some(Part::Point(point))),
        }
    }

    /// Hands out the header, each point, and the end or a fault: what all of the source is.
    pub fn next<S: Source>(&mut self, alloc: Global, source: &mut S) -> Result<Part, ReadError>
        ensures handed { IfOk result (λ part. IsHandedOn part self.old self.new (S.rest source.old) (S.rest source.new)) }

        // A point is one that may stand there.
        ensures point { IfOk result (λ part. IfSome self.old.front (λ front. All (λ point. IsPoint front.0 point.unit point) (points_in part))) }

        // The header is there once it was handed out, and stays behind each point.
        ensures front { IfOk result (λ part. IsMidFront part self.old.front self.new.front) }
        ensures failed { result ≡ Err ReadError.Failed → Rose (S.faults source.old) (S.faults source.new) }
        ensures later { S.faults source.old ≤ S.faults source.new }
    {
        loop {
            let stepped = self.step(alloc, source)?;
            if let Some(part) = stepped {
                return Ok(part);
            }
        }
    }
}
