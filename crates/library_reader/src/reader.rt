ghost use Rattle.std.specs.Prelude.{◌≡◌, ◌+◌, ◌<◌, ◌≤◌, [], None, Some, All, length, drop, false, if◌then◌else◌, IfOk, IfSome};
ghost use Rattle.std.specs.Option.{option_map};
ghost use Rattle.std.specs.Result.{is_ok};
ghost use Rattle.livepoint_format.specs.Format.{IsHeader, IsPoint, AreShared, is_first};
ghost use Rattle.livepoint_format.specs.Views.{head_of};
ghost use Rattle.library_reader.specs.Laws.{IsFrontBehind, points_in};
ghost use Rattle.library_reader.specs.Calls.{Hands, HandsNext};
ghost use Rattle.library_reader.specs.Reader.{after_end, came_in, due, fed, final_fault, fresh, next_part, refused};

use crate::front::Front;
use crate::part::Part;
use live_points::Header;
use livepoint_format::{LibraryFault, Shared, decode_end};
use smarts_base::{NoMemory, Refusal};
use std::alloc::Global;
use std::marker::Model;

/// A library of which some bytes have come in.
#[derive(Debug, Drop)]
pub struct Reader {
    /// What came in last. The first `start` of these bytes were read.
    bytes: Vec<u8>,
    start: usize,
    /// How many bytes of the library were read.
    taken: u64,
    front: Option<Front>,
    /// How many points were handed out.
    points: u32,
    ended: bool,
    fault: Option<LibraryFault>,
}

impl Model for Reader {
    ghost use Rattle.library_reader.specs.Reader.{Reading};
    ghost use Rattle.library_reader.specs.ReaderView.{reading_of, IsReader};

    ghost Value = { Reading };

    ghost view = { reading_of };

    ghost invariant = { IsReader };
}

impl Reader {
    /// A reader to which nothing came yet.
    pub fn new(alloc: Global) -> Reader
        ensures { result ≡ fresh }
    {
        Reader {
            bytes: Vec::new(alloc),
            start: 0,
            taken: 0,
            front: None,
            points: 0,
            ended: false,
            fault: None,
        }
    }

    /// Takes in the next bytes of the library. What was read before is let go, which costs a copy of what wasn't.
    pub fn feed(&mut self, piece: &[u8]) -> Result<(), NoMemory>
        requires { came_in self.old + length piece.now ≤ 1073741824 }
        ensures { self.new ≡ (if is_ok result then fed piece.now self.old else self.old) }
    {
        let left = self.bytes.len() - self.start;
        self.bytes.copy_within(self.start.., 0);
        self.bytes.truncate(left);
        self.start = 0;
        self.bytes.extend_from_slice(piece)?;
        Ok(())
    }

    fn unread(&self) -> &[u8]
        ensures { result.now ≡ self.now.unread }
    {
        &self.bytes[self.start..]
    }

    fn read_front(&mut self, alloc: Global) -> Result<Part, Refusal<LibraryFault>>
        requires { self.old.front ≡ None }
        ensures { Hands result self.new self.old (due self.old) }
    {
        let (front, count) = Front::read(alloc, self.unread())?;
        self.start += count;
        self.taken += count as u64;
        self.front = Some(front);
        Ok(Part::Header)
    }

    fn read_end(&mut self) -> Result<Part, Refusal<LibraryFault>>
        requires all { IfSome self.old.front (λ front. front.0.points ≤ self.old.points) }
        requires some { self.old.front ≡ None → ⊥ }
        ensures part { Hands result self.new self.old (due self.old) }
        ensures point { IfOk result (λ part. points_in part ≡ []) }
    {
        let (_letters, count) = decode_end(self.taken, self.unread())?;
        self.start += count;
        self.taken += count as u64;
        self.ended = true;
        Ok(Part::End)
    }

    // The part that is due, or its fault.
    fn read_part(&mut self, alloc: Global) -> Result<Part, Refusal<LibraryFault>>
        ensures part { Hands result self.new self.old (due self.old) }
        ensures point { IfOk result (λ part. IfSome self.old.front (λ front.
            All (λ point. IsPoint front.0 point.unit point) (points_in part))) }
    {
        let Some(front) = &self.front else {
            return self.read_front(alloc);
        };
        if self.points >= front.points() {
            return self.read_end();
        }
        let (point, count) = front.point(alloc, self.points, self.taken, self.unread())?;
        self.start += count;
        self.taken += count as u64;
        self.points += 1;
        Ok(Part::Point(point))
    }

    fn refuse(&mut self, fault: LibraryFault) -> Part
        ensures { (result, self.new) ≡ refused self.old fault }
    {
        self.fault = Some(fault);
        Part::Fault(fault)
    }

    fn after_end(&mut self) -> Part
        ensures part { (result, self.new) ≡ after_end self.old }
        ensures point { points_in result ≡ [] }
    {
        if self.bytes.len() == self.start {
            return Part::End;
        }
        let at = self.taken;
        self.refuse(LibraryFault::TrailingBytes { at })
    }

    // What is next, and how far the library is then read.
    #[tactic(auto, unfolding(crate::specs::Reader::next_part))]
    fn handed(&mut self, alloc: Global) -> Result<Part, NoMemory>
        ensures part { HandsNext result self.new self.old }
        ensures point { IfOk result (λ part. IfSome self.old.front (λ front.
            All (λ point. IsPoint front.0 point.unit point) (points_in part))) }
    {
        if let Some(fault) = self.fault {
            return Ok(Part::Fault(fault));
        }
        if self.ended {
            return Ok(self.after_end());
        }
        match self.read_part(alloc) {
            Ok(part) => Ok(part),
            Err(Refusal::NoMemory) => Err(NoMemory),
            Err(Refusal::Fault(LibraryFault::Truncated { .. })) => Ok(Part::More),
            Err(Refusal::Fault(fault)) => Ok(self.refuse(fault)),
        }
    }

    /// Hands out what is next: the header, each point, and the end, which comes again. A fault stays. After want of
    /// memory nothing changed.
    pub fn next(&mut self, alloc: Global) -> Result<Part, NoMemory>
        ensures part { HandsNext result self.new self.old }

        // The header is there once it was handed out, and stays.
        ensures front { IfOk result (λ part. IsFrontBehind part self.old.front self.new.front) }

        // A point is one that may stand there.
        ensures point { IfOk result (λ part. IfSome self.old.front (λ front.
            All (λ point. IsPoint front.0 point.unit point) (points_in part))) }
        ensures bytes { came_in self.new ≡ came_in self.old }
    {
        self.handed(alloc)
    }

    /// The header, once it was handed out.
    pub fn header(&self) -> Option<&Header>
        ensures value { option_map (λ header. head_of header.now) result ≡ option_map (λ front. front.0) self.now.front }
        ensures header { IfSome result (λ header. IsHeader (head_of header.now)) }
        ensures budget { IfSome result (λ header. header.now.design.budget ≡ 1) }
    {
        match &self.front {
            Some(front) => Some(front.header()),
            None => None,
        }
    }

    /// The pairs that several points share, once the header was handed out.
    pub fn shared(&self) -> Option<&Shared>
        ensures { option_map (λ shared. shared.now) result ≡ option_map (λ front. front.1) self.now.front }
    {
        match &self.front {
            Some(front) => Some(front.shared()),
            None => None,
        }
    }

    /// The fault of a library of which no more bytes come.
    pub fn finish(self) -> Option<LibraryFault>
        ensures { result ≡ final_fault self }
    {
        if self.fault.is_some() {
            return self.fault;
        }
        let left = self.bytes.len() - self.start;
        if !self.ended {
            return Some(LibraryFault::Truncated {
                at: self.taken + left as u64,
            });
        }
        if left == 0 {
            return None;
        }
        Some(LibraryFault::TrailingBytes { at: self.taken })
    }
}
