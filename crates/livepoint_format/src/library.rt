ghost use Rattle.std.specs.Prelude.{◌≡◌, ◌<◌, ◌≤◌, ◌^◌, [], length, slice_get, Some};
ghost use Rattle.live_words.specs.Follow.{Follow};
ghost use Rattle.live_words.specs.Words.{IsPair};
ghost use Rattle.live_points.specs.Sharing.{ranks};
ghost use Rattle.livepoint_format.specs.Values.{Whole};
ghost use Rattle.livepoint_format.specs.Format.{IsHeader, IsPoint, IsTable, IsWhole, is_first, unit_of};
ghost use Rattle.livepoint_format.specs.Views.{head_of};

use crate::shared::Shared;
use live_points::{Header, LivePoint};
use std::marker::Model;

/// The live-points of a run, in the order in which they are visited.
#[derive(Debug, Drop)]
pub struct Library {
    header: Header,
    shared: Shared,
    points: Vec<LivePoint>,
}

impl Model for Library {
    ghost use Rattle.livepoint_format.specs.Values.{Whole};

    ghost Value = { Whole };

    ghost use Rattle.livepoint_format.specs.LibraryView.{whole_of};
    ghost use Rattle.livepoint_format.specs.Format.{IsWhole};

    ghost view = { whole_of };

    ghost invariant = { λ fields. IsWhole (whole_of fields) };
}

impl Library {
    /// The library of as many points as the header says, each of the unit that the order of visits has in its
    /// place. The table may be any that is in order; in version 1 it is empty.
    pub fn from_points(header: Header, shared: Shared, points: Vec<LivePoint>) -> Library
        requires header { IsHeader (head_of header) }
        requires table { IsTable (is_first (head_of header)) shared }
        requires count { length points.items ≡ header.points }
        requires points { Follow (λ before. IsPoint (head_of header) (unit_of (head_of header) (length before))) [] points.items }
        ensures { result ≡ record { head = head_of header; shared = shared; points = points.items } }
    {
        Library {
            header,
            shared,
            points,
        }
    }

    pub fn header(&self) -> &Header
        ensures value { head_of result.now ≡ self.now.head }
        ensures whole { IsWhole self.now }
    {
        &self.header
    }

    /// The pairs that several points share; none in version 1.
    pub fn shared(&self) -> &Shared
        ensures { result.now ≡ self.now.shared }
    {
        &self.shared
    }

    /// How many points there are.
    pub fn len(&self) -> u32
        ensures { result ≡ length self.now.points }
    {
        self.header.points
    }

    /// The point at a place of the order of visits, counted from 0.
    pub fn point(&self, k: u32) -> &LivePoint
        requires { k < length self.now.points }
        ensures { slice_get self.now.points k ≡ Some result.now }
    {
        &self.points[k as usize]
    }

    pub fn points(&self) -> &[LivePoint]
        ensures { result.now ≡ self.now.points }
    {
        self.points.as_slice()
    }

    /// The same in version 2, with this table.
    pub(crate) fn with_table(self, shared: Shared) -> Library
        requires { Follow (IsPair ranks) [] shared }
        ensures { result ≡ record { head = record self.head { version = 2 }; shared = shared; points = self.points } }
    {
        let Library {
            mut header,
            points,
            ..
        } = self;
        header.version = 2;
        Library::from_points(header, shared, points)
    }

    /// Hands out the points.
    pub fn into_points(self) -> Vec<LivePoint>
        ensures { result.items ≡ self.points }
    {
        self.points
    }
}
