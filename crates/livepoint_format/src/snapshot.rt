ghost use Rattle.std.specs.Prelude.{◌≡◌, ◌<◌, ◌≤◌, ◌^◌, [], length, take, sum, nat_lt, IfOk};
ghost use Rattle.std.specs.Int.{w64};
ghost use Rattle.recency_record.specs.Faults.{dealt};
ghost use Rattle.livepoint_format.specs.Reading.{items};
ghost use Rattle.livepoint_format.specs.Decoding.{field, entry_count, set_at, set_after, snapshot_at, snapshots_at};
ghost use Rattle.livepoint_format.specs.Reads.{Reads};

use crate::cursor::{Answer, Cursor, bad_field};
use crate::entries::{Which, bad_record, entries};
use hierarchy::Places;
use lru_plain::Geometry;
use recency_record::{Entry, RecordFault, Snapshot};
use std::alloc::Global;

/// Entries in one row, and how many of them each set has.
#[derive(Drop)]
struct DealtRow {
    counts: Vec<u8>,
    entries: Vec<Entry>,
}

/// The most entries of a set.
const MOST_WAYS: usize = 16;

/// The time of a record: below 2^63.
fn time(cursor: &mut Cursor) -> Answer<u64>
    ensures read { Reads (λ n. n) result cursor.new (field w64 (λ n. nat_lt n (2 ^ 63)) cursor.old) }
    ensures range { IfOk result (λ n. n < 2 ^ 63) }
{
    let at = cursor.place();
    let time = cursor.u64()?;
    if time < 1 << 63 {
        Ok(time)
    } else {
        Err(bad_field(at))
    }
}

/// The number of entries of a set.
fn entry_count(cursor: &mut Cursor, which: &Which, set: u32) -> Answer<u8>
    ensures read { Reads (λ n. n) result cursor.new (entry_count which.now set cursor.old) }
    ensures few { IfOk result (λ n. n ≤ 16) }
{
    let count = cursor.u8()?;
    if count > which.shape.ways() {
        return Err(bad_record(which, RecordFault::TooMany { set, place: 0 }));
    }
    Ok(count)
}

/// The entries of a set, into the front of a row.
#[tactic(auto, unfolding(crate::specs::Decoding::set_at))]
fn set(cursor: &mut Cursor, row: &mut [Entry], which: &Which, limit: u64, set: u32) -> Answer<usize>
    requires room { 16 ≤ length row.old }
    requires limit { limit < 2 ^ 63 }
    ensures read { Reads (λ n. take n row.new) result cursor.new (set_at which.now limit set cursor.old) }
    ensures len { length row.new ≡ length row.old }
    ensures few { IfOk result (λ n. n ≤ 16) }
{
    let count = entry_count(cursor, which, set)?;
    entries(cursor, row, which, limit, set, usize::from(count))
}

/// So many sets.
fn sets(
    alloc: Global,
    cursor: &mut Cursor,
    which: &Which,
    limit: u64,
    count: u32,
) -> Answer<DealtRow>
    requires few { count ≤ 4096 }
    requires limit { limit < 2 ^ 63 }
    ensures read { Reads (λ s. dealt s.counts.items s.entries.items) result cursor.new (items (set_after which.now limit) count [] cursor.old) }
    ensures counts { IfOk result (λ s. length s.counts.items ≡ count) }
    ensures entries { IfOk result (λ s. sum s.counts.items ≡ length s.entries.items) }
{
    let mut set_row = [Entry { block: 0, time: 0 }; MOST_WAYS];
    let mut counts = Vec::new(alloc);
    let mut entries = Vec::new(alloc);
    for number in 0..count {
        let len = set(cursor, &mut set_row, which, limit, number)?;
        counts.push(len as u8)?;
        entries.extend_from_slice(&set_row[..len])?;
    }
    Ok(DealtRow { counts, entries })
}

/// A record of the shape that is wanted.
#[tactic(auto, unfolding(crate::specs::Decoding::snapshot_at))]
fn snapshot(alloc: Global, cursor: &mut Cursor, which: &Which) -> Answer<Snapshot>
    ensures { Reads (λ s. s) result cursor.new (snapshot_at which.now cursor.old) }
{
    let limit = time(cursor)?;
    let _bytes = cursor.rest();
    let DealtRow { counts, entries } = sets(alloc, cursor, which, limit, which.shape.sets())?;
    let snapshot = Snapshot::from_sound(alloc, which.shape, limit, counts.as_slice(), entries)?;
    Ok(snapshot)
}

/// The five records of a point.
#[tactic(auto, unfolding(crate::specs::Decoding::snapshots_at))]
pub fn snapshots(
    alloc: Global,
    cursor: &mut Cursor,
    point: u32,
    shapes: &Places<Geometry>,
) -> Answer<Places<Snapshot>>
    ensures { Reads (λ p. p) result cursor.new (snapshots_at point shapes.now cursor.old) }
{
    let l1i = snapshot(alloc, cursor, &Which::new(point, 0, shapes.l1i))?;
    let l1d = snapshot(alloc, cursor, &Which::new(point, 1, shapes.l1d))?;
    let l2 = snapshot(alloc, cursor, &Which::new(point, 2, shapes.l2))?;
    let itlb = snapshot(alloc, cursor, &Which::new(point, 3, shapes.itlb))?;
    let dtlb = snapshot(alloc, cursor, &Which::new(point, 4, shapes.dtlb))?;
    Ok(Places {
        l1i,
        l1d,
        l2,
        itlb,
        dtlb,
    })
}
