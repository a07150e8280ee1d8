ghost use Rattle.std.specs.Prelude.{◌≡◌, ◌+◌, ◌<◌, ◌^◌, ℕ, List, [], ◌∷◌, ◌++◌, IfOk, slice_index_or};
ghost use Rattle.lru_plain.specs.Shape.{Shape, sets_of};
ghost use Rattle.recency_record.specs.Recency.{record_of, referred, IsRecency};

use crate::entry::Entry;
use crate::snapshot::{Snapshot, SnapshotBuilder};
use lru_plain::{Geometry, Lists};
use smarts_base::NoMemory;
use std::alloc::Global;
use std::marker::Model;

/// The entries of each set as a list by falling time. This serves a pass over all references of a run, most
/// of which find their block in front. Only `new` and `snapshot` take memory.
#[derive(Debug, Drop)]
pub struct RecencyLists {
    lists: Lists<Entry>,
    time: u64,
}

impl Model for RecencyLists {
    ghost use Rattle.recency_record.specs.Recency.{Recency, IsRecency};

    ghost Value = { Recency };

    ghost use Rattle.recency_record.specs.Views.{recency_of_lists};

    ghost view = { recency_of_lists };

    ghost invariant = { λ fields. IsRecency (recency_of_lists fields) };
}

impl RecencyLists {
    /// The lists after no reference.
    pub fn new(alloc: Global, geometry: Geometry) -> Result<RecencyLists, NoMemory>
        ensures { IfOk result (λ lists. lists ≡ record_of [] geometry) }
    {
        let _sets = geometry.sets();
        Ok(RecencyLists {
            lists: Lists::new(alloc, geometry)?,
            time: 0,
        })
    }

    pub fn geometry(&self) -> Geometry
        ensures value { result ≡ self.now.shape }
        ensures recency { IsRecency self.now }
    {
        self.lists.geometry()
    }

    /// How many references there were.
    pub fn time(&self) -> u64
        ensures { result ≡ self.now.time }
    {
        self.time
    }

    /// Makes this reference the last use of its block.
    #[inline]
    pub fn refer(&mut self, addr: u32)
        requires { self.old.time < 2 ^ 63 }
        ensures step { self.new ≡ referred self.old addr }
        ensures time { self.new.time ≡ self.old.time + 1 }
        ensures shape { self.new.shape ≡ self.old.shape }

        // After the references of a list, and then this one, it is the record of the longer list.
        ensures record { (addrs : List ℕ) (g : Shape) → self.old ≡ record_of addrs g
            → self.new ≡ record_of (addrs ++ addr ∷ []) g }
    {
        let block = self.lists.geometry().block_of(addr);
        let time = self.time;
        self.lists.touch(Entry { block, time });
        self.time = time + 1;
    }

    /// The entries of a set, by falling time.
    pub fn entries(&self, set: u32) -> &[Entry]
        requires { set < sets_of self.now.shape }
        ensures { result.now ≡ slice_index_or self.now.sets set [] }
    {
        self.lists.list(set)
    }

    /// What the lists tell.
    pub fn snapshot(&self) -> Result<Snapshot, NoMemory>
        ensures { IfOk result (λ snapshot. snapshot ≡ self.now) }
    {
        let geometry = self.geometry();
        let mut sets = SnapshotBuilder::new(self.lists.allocator())?;
        for set in 0..geometry.sets() {
            sets.push(self.entries(set))?;
        }
        Ok(sets.finish(geometry, self.time))
    }
}
