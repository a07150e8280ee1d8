ghost use Rattle.std.specs.Prelude.{◌≡◌, ◌↔◌, ◌<◌, ◌≤◌, ◌+◌, length, slice_index_or, sum, IfOk, [], None};
ghost use Rattle.lru_plain.specs.Shape.{sets_of};
ghost use Rattle.smarts_base.specs.Outcome.{Answers};
ghost use Rattle.recency_record.specs.Recency.{IsRecency, AreSets};
ghost use Rattle.recency_record.specs.Faults.{judged, dealt, sets_fault};

use crate::entry::Entry;
use crate::fault::RecordFault;
use crate::judging::first_fault;
use lru_plain::Geometry;
use smarts_base::{NoMemory, Refusal};
use std::alloc::Global;
use std::marker::Model;

mod builder;

pub(crate) use builder::SnapshotBuilder;

/// What a record told at one time. The entries of all sets stand in one row.
#[derive(Debug, Drop)]
pub struct Snapshot {
    geometry: Geometry,
    time: u64,
    /// Where the entries of each set begin, and where those of the last end.
    starts: Vec<u32>,
    entries: Vec<Entry>,
}

impl Model for Snapshot {
    ghost use Rattle.recency_record.specs.Recency.{Recency};

    ghost Value = { Recency };

    ghost use Rattle.recency_record.specs.Views.{recency_of_snapshot, IsSnapshot};

    ghost view = { recency_of_snapshot };

    ghost invariant = { IsSnapshot };
}

fn copied(alloc: Global, entries: &[Entry]) -> Result<Vec<Entry>, NoMemory>
    ensures { IfOk result (λ row. row.items ≡ entries.now) }
{
    Ok(Vec::from_slice(alloc, entries)?)
}

impl Snapshot {
    /// The snapshot of entries that are dealt out to the sets, so many to each in turn, or the first fault
    /// in the order of the sets, and then of their places.
    #[tactic(auto, using(crate::proofs::Judgements::faults_are))]
    pub fn from_sets(
        alloc: Global,
        geometry: Geometry,
        time: u64,
        counts: &[u8],
        entries: &[Entry],
    ) -> Result<Snapshot, Refusal<RecordFault>>
        requires sets { length counts.now ≡ sets_of geometry }
        requires entries { sum counts.now ≡ length entries.now }
        ensures answer { Answers (λ snapshot. snapshot) result (judged geometry time (dealt counts.now entries.now)) }

        // There is no fault exactly where the entries keep all five rules.
        ensures sound { let sets = dealt counts.now entries.now in
            (sets_fault geometry time 0 sets ≡ None) ↔ AreSets geometry time sets }
    {
        match first_fault(geometry, time, counts, entries) {
            Some(fault) => Err(Refusal::Fault(fault)),
            None => {
                let row = copied(alloc, entries)?;
                Ok(Snapshot::from_sound(alloc, geometry, time, counts, row)?)
            }
        }
    }

    /// The snapshot of entries that break no rule and are dealt out in the same way. It keeps the row that is
    /// handed in.
    pub fn from_sound(
        alloc: Global,
        geometry: Geometry,
        time: u64,
        counts: &[u8],
        entries: Vec<Entry>,
    ) -> Result<Snapshot, NoMemory>
        requires sets { length counts.now ≡ sets_of geometry }
        requires entries { sum counts.now ≡ length entries.items }
        requires sound { sets_fault geometry time 0 (dealt counts.now entries.items) ≡ None }
        ensures { IfOk result (λ snapshot. snapshot
            ≡ record { shape = geometry; time = time; sets = dealt counts.now entries.items }) }
    {
        let mut starts = Vec::with_capacity(alloc, geometry.sets() as usize + 1)?;
        let mut start = 0;
        starts.push_reserved(0);
        for count in counts {
            start += u32::from(*count);
            starts.push_reserved(start);
        }
        Ok(Snapshot {
            geometry,
            time,
            starts,
            entries,
        })
    }

    pub fn geometry(&self) -> Geometry
        ensures value { result ≡ self.now.shape }
        ensures snapshot { IsRecency self.now }
    {
        self.geometry
    }

    /// How many references there were.
    pub fn time(&self) -> u64
        ensures { result ≡ self.now.time }
    {
        self.time
    }

    /// The entries of a set, by falling time.
    pub fn entries(&self, set: u32) -> &[Entry]
        requires { set < sets_of self.now.shape }
        ensures value { result.now ≡ slice_index_or self.now.sets set [] }
        ensures snapshot { IsRecency self.now }
    {
        let set = set as usize;
        let start = self.starts[set] as usize;
        let end = self.starts[set + 1] as usize;
        &self.entries[start..end]
    }
}
