ghost use Rattle.std.specs.Prelude.{◌≡◌, ◌<◌, ◌≤◌, length, slice_index_or, []};
ghost use Rattle.arrayvec.specs.ArrayVec.{array_vec_len};
ghost use Rattle.lru_plain.specs.Shape.{sets_of};
ghost use Rattle.recency_record.specs.Recency.{Recency, IsRecency};
ghost use Rattle.recency_record.specs.Slots.{ordered};
ghost use Rattle.rebuild.specs.Pouring.{poured};

use crate::merge::pour;
use arrayvec::ArrayVec;
use lru_plain::Geometry;
use recency_record::{Entry, Record, Snapshot};

/// What tells the entries of a record's sets.
pub trait Source {
    ghost told: { Self → Recency };

    fn geometry(&self) -> Geometry
        ensures value { result ≡ (told self.now).shape }
        ensures recency { IsRecency (told self.now) };

    /// Puts the entries of a set into the list, and keeps so many of the most recent.
    fn pour(&self, set: u32, ways: usize, list: &mut ArrayVec<Entry, 17>)
        requires set { set < sets_of (told self.now).shape }
        requires most { ways ≤ 16 }
        requires cut { length list.old.items ≤ ways }
        ensures poured { list.new.items
            ≡ poured ways (slice_index_or (told self.now).sets set []) list.old.items }
        ensures cut { length list.new.items ≤ ways };
}

impl Source for Snapshot {
    ghost told = { λ snapshot. snapshot };

    fn geometry(&self) -> Geometry {
        Snapshot::geometry(self)
    }

    fn pour(&self, set: u32, ways: usize, list: &mut ArrayVec<Entry, 17>) {
        pour(list, ways, self.entries(set));
    }
}

impl Source for Record {
    ghost told = { ordered };

    fn geometry(&self) -> Geometry {
        Record::geometry(self)
    }

    fn pour(&self, set: u32, ways: usize, list: &mut ArrayVec<Entry, 17>) {
        let _few = Record::geometry(self).ways();
        let mut entries = [Entry::default(); 16];
        let len = self.ordered(set, entries.as_mut_slice());
        pour(list, ways, &entries[..len]);
    }
}
