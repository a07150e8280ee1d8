ghost use Rattle.std.specs.Prelude.{◌≡◌, ◌<◌, ◌≤◌, IfOk};
ghost use Rattle.livepoint_format.specs.Decoding.{header_at, point_at};
ghost use Rattle.livepoint_format.specs.Format.{IsHeader, IsPoint, AreShared, is_first, unit_of};
ghost use Rattle.livepoint_format.specs.Reading.{handed_out, starts_at};
ghost use Rattle.livepoint_format.specs.Views.{head_of};
ghost use Rattle.smarts_base.specs.Outcome.{Answers};

use live_points::{Header, LivePoint};
use livepoint_format::{LibraryFault, Shared, decode_header, decode_point, unit_at};
use sample_design::{Order, visit_order};
use smarts_base::Refusal;
use std::alloc::Global;
use std::marker::Model;

/// The front of a library: what is read once, and is needed for every point.
#[derive(Debug, Drop)]
pub struct Front {
    header: Header,
    shared: Shared,
    order: Order,
}

impl Model for Front {
    ghost use Rattle.library_reader.specs.Reader.{Front as FrontValue};
    ghost use Rattle.library_reader.specs.FrontView.{front_of, IsFront};

    ghost Value = { FrontValue };

    ghost view = { front_of };

    ghost invariant = { IsFront };
}

impl Front {
    /// Reads it from the front of bytes, and tells how many they take.
    pub fn read(alloc: Global, bytes: &[u8]) -> Result<(Front, usize), Refusal<LibraryFault>>
        ensures value { Answers (λ x. (x.0, x.1)) result (handed_out (starts_at 0 bytes.now) header_at) }
        ensures few { IfOk result (λ x. x.0.0.points ≤ 65536) }
    {
        let (header, shared, count) = decode_header(alloc, bytes)?;
        let order = visit_order(alloc, header.points, header.design.seed)?;
        let front = Front {
            header,
            shared,
            order,
        };
        Ok((front, count))
    }

    /// The point of this number, from the front of bytes that stand at `base` in the library, and how many they take.
    pub fn point(
        &self,
        alloc: Global,
        number: u32,
        base: u64,
        bytes: &[u8],
    ) -> Result<(LivePoint, usize), Refusal<LibraryFault>>
        requires number { number < self.now.0.points }
        requires base { base ≤ 1073741824 }
        ensures value { Answers (λ x. (x.0, x.1)) result
            (handed_out (starts_at base bytes.now) (point_at self.now.0 self.now.1 number (unit_of self.now.0 number))) }
        ensures point { IfOk result (λ x. IsPoint self.now.0 x.0.unit x.0) }
    {
        let unit = unit_at(&self.header, &self.order, number);
        decode_point(alloc, &self.header, &self.shared, number, unit, base, bytes)
    }

    pub fn header(&self) -> &Header
        ensures value { head_of result.now ≡ self.now.0 }
        ensures header { IsHeader self.now.0 }
        ensures budget { result.now.design.budget ≡ 1 }
    {
        &self.header
    }

    pub fn shared(&self) -> &Shared
        ensures value { result.now ≡ self.now.1 }
        ensures table { AreShared (is_first self.now.0) self.now.1 }
    {
        &self.shared
    }

    /// How many points there are.
    pub fn points(&self) -> u32
        ensures value { result ≡ self.now.0.points }
        ensures few { result ≤ 65536 }
        ensures header { IsHeader self.now.0 }
        ensures table { AreShared (is_first self.now.0) self.now.1 }
    {
        self.header.points
    }
}
