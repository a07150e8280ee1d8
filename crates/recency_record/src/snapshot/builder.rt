ghost use Rattle.std.specs.Prelude.{◌≡◌, ◌+◌, ◌<◌, ◌≤◌, ◌^◌, ℕ, List, [], ◌∷◌, ◌++◌, length, IfOk, OnOk, slice_index_or};
ghost use Rattle.recency_record.specs.Recency.{Recency, IsRecency};

use crate::entry::Entry;
use crate::snapshot::Snapshot;
use lru_plain::Geometry;
use smarts_base::NoMemory;
use std::alloc::Global;
use std::marker::Model;

/// The sets of a snapshot that is being made, in a row. It holds as much as they do.
#[derive(Debug, Drop)]
pub(crate) struct SnapshotBuilder {
    /// Where the entries of each set begin, and where those of the last end.
    starts: Vec<u32>,
    entries: Vec<Entry>,
}

impl Model for SnapshotBuilder {
    ghost use Rattle.std.specs.Prelude.{List};
    ghost use Rattle.recency_record.specs.declared.entry.Entry.{Entry};

    ghost Value = { List (List Entry) };

    ghost use Rattle.recency_record.specs.Views.{sets_of_builder, IsBuilder};

    ghost view = { sets_of_builder };

    ghost invariant = { IsBuilder };
}

impl SnapshotBuilder {
    /// No set.
    pub fn new(alloc: Global) -> Result<SnapshotBuilder, NoMemory>
        ensures { IfOk result (λ sets. sets ≡ []) }
    {
        let mut starts = Vec::new(alloc);
        starts.push(0)?;
        Ok(SnapshotBuilder {
            starts,
            entries: Vec::new(alloc),
        })
    }

    /// Puts a set behind the others.
    pub fn push(&mut self, entries: &[Entry]) -> Result<(), NoMemory>
        requires few { length self.old < 4096 }
        requires short { length entries.now ≤ 16 }
        ensures { OnOk result (self.new ≡ self.old ++ entries.now ∷ []) }
    {
        self.starts.reserve(1)?;
        self.entries.extend_from_slice(entries)?;
        self.starts.push_reserved(self.entries.len() as u32);
        Ok(())
    }

    /// The snapshot of these sets.
    pub fn finish(self, geometry: Geometry, time: u64) -> Snapshot
        requires { let recency : Recency = record { shape = geometry; time = time; sets = self } in
            IsRecency recency }
        ensures { result ≡ record { shape = geometry; time = time; sets = self } }
    {
        Snapshot {
            geometry,
            time,
            starts: self.starts,
            entries: self.entries,
        }
    }
}
