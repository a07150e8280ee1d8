ghost use Rattle.std.specs.Prelude.{◌≡◌, ◌+◌, ◌*◌, ◌<◌, ◌≤◌, ◌^◌, [], length, take, true, ◌==◌, ◌-◌, not, nat_lt, slice_get, IfOk};
ghost use Rattle.std.specs.List.{list_any};
ghost use Rattle.std.specs.Int.{w32, w64};
ghost use Rattle.smarts_base.specs.declared.refusal.Refusal.TheVariants.{Fault};
ghost use Rattle.recency_record.specs.declared.fault.RecordFault.TheVariants.{WrongSet, Repeated, TimeRange, NotDescending};
ghost use Rattle.recency_record.specs.Faults.{belongs, is_no_later};
ghost use Rattle.livepoint_format.specs.declared.fault.LibraryFault.TheVariants as faults;
ghost use Rattle.livepoint_format.specs.Reading.{number, judged, items};
ghost use Rattle.livepoint_format.specs.Decoding.{bad_record, entry_after};
ghost use Rattle.livepoint_format.specs.Reads.{Reads, Passed, IsBytes};
ghost use Rattle.livepoint_format.specs.Entries.{may_stand, AreRead};

use crate::cursor::{Answer, Cursor, long_in, word_in};
use crate::fault::LibraryFault;
use lru_plain::Geometry;
use recency_record::{Entry, RecordFault, belongs, is_no_later, repeats};
use smarts_base::Refusal;

/// Which record of which point is read.
#[derive(Clone, Copy)]
pub struct Which {
    pub point: u32,
    /// From 0 to 4, in the order of caches and TLBs.
    pub place: u8,
    pub shape: Geometry,
}

impl Which {
    pub fn new(point: u32, place: u8, shape: Geometry) -> Which
        ensures { result ≡ record { point = point; place = place; shape = shape } }
    {
        Which {
            point,
            place,
            shape,
        }
    }
}

/// The bytes of an entry.
const ENTRY: usize = 12;

/// A rule of records is broken.
pub fn bad_record(which: &Which, fault: RecordFault) -> Refusal<LibraryFault>
    ensures { result ≡ Fault (faults.BadRecord which.now.point which.now.place fault) }
{
    Refusal::Fault(LibraryFault::BadRecord {
        point: which.point,
        place: which.place,
        fault,
    })
}

/// A block behind those of the entries before it in its set.
fn block_after(cursor: &mut Cursor, which: &Which, set: u32, before: &[Entry]) -> Answer<u32>
    requires { length before.now < 16 }
    ensures { Reads (λ n. n) result cursor.new (judged (λ b. not (list_any (λ e. e.block == b) before.now)) (bad_record which.now (Repeated set (length before.now)))
        (judged (belongs which.now.shape set) (bad_record which.now (WrongSet set (length before.now))) (number w32)) cursor.old) }
{
    let place = before.len() as u8;
    let block = cursor.u32()?;
    if !belongs(which.shape, set, block) {
        return Err(bad_record(which, RecordFault::WrongSet { set, place }));
    }
    if repeats(before, block) {
        return Err(bad_record(which, RecordFault::Repeated { set, place }));
    }
    Ok(block)
}

/// A time behind those of the entries before it in its set.
fn time_after(
    cursor: &mut Cursor,
    which: &Which,
    limit: u64,
    set: u32,
    before: &[Entry],
) -> Answer<u64>
    requires { length before.now < 16 }
    ensures { Reads (λ n. n) result cursor.new (judged (λ t. not (is_no_later (slice_get before.now (length before.now - 1)) t)) (bad_record which.now (NotDescending set (length before.now)))
        (judged (λ t. nat_lt t limit) (bad_record which.now (TimeRange set (length before.now))) (number w64)) cursor.old) }
{
    let place = before.len() as u8;
    let time = cursor.u64()?;
    if time >= limit {
        return Err(bad_record(which, RecordFault::TimeRange { set, place }));
    }
    if is_no_later(before, time) {
        return Err(bad_record(which, RecordFault::NotDescending { set, place }));
    }
    Ok(time)
}

#[tactic(auto, unfolding(crate::specs::Decoding::entry_after))]
fn entry_after(
    cursor: &mut Cursor,
    which: &Which,
    limit: u64,
    set: u32,
    before: &[Entry],
) -> Answer<Entry>
    requires { length before.now < 16 }
    ensures { Reads (λ e. e) result cursor.new (entry_after which.now limit set before.now cursor.old) }
{
    let block = block_after(cursor, which, set, before)?;
    let time = time_after(cursor, which, limit, set, before)?;
    Ok(Entry { block, time })
}

/// Reads so many entries, up to the first fault.
fn one_by_one(
    cursor: &mut Cursor,
    row: &mut [Entry],
    which: &Which,
    limit: u64,
    set: u32,
    count: usize,
) -> Answer<usize>
    requires room { count ≤ length row.old }
    requires few { count ≤ 16 }
    ensures read { Reads (λ n. take n row.new) result cursor.new (items (entry_after which.now limit set) count [] cursor.old) }
    ensures len { length row.new ≡ length row.old }
    ensures count { IfOk result (λ n. n ≡ count) }
{
    for i in 0..count {
        row[i] = entry_after(cursor, which, limit, set, &row[..i])?;
    }
    Ok(count)
}

/// Whether an entry may stand behind those before it in its set.
#[inline]
fn may_stand(geometry: Geometry, limit: u64, set: u32, before: &[Entry], entry: Entry) -> bool
    ensures { result ≡ may_stand geometry limit set before.now entry }
{
    belongs(geometry, set, entry.block)
        && !repeats(before, entry.block)
        && entry.time < limit
        && !is_no_later(before, entry.time)
}

/// Fills the front of a row with entries that stand in the text, and tells whether all of them may be there.
#[inline]
fn fill(text: &[u8], row: &mut [Entry], which: &Which, limit: u64, set: u32, count: usize) -> bool
    requires room { count ≤ length row.old }
    requires few { count ≤ 16 }
    requires text { length text.now ≡ 12 * count }
    ensures filled { result ≡ true → AreRead which.now.shape limit set text.now (take count row.new) }
    ensures len { length row.new ≡ length row.old }
{
    for i in 0..count {
        let at = ENTRY * i;
        let entry = Entry {
            block: word_in(text, at),
            time: long_in(text, at + 4),
        };
        if !may_stand(which.shape, limit, set, &row[..i], entry) {
            return false;
        }
        row[i] = entry;
    }
    true
}

/// Reads so many entries where all are there and may be, and tells whether it did.
fn at_once(
    cursor: &mut Cursor,
    row: &mut [Entry],
    which: &Which,
    limit: u64,
    set: u32,
    count: usize,
) -> bool
    requires room { count ≤ length row.old }
    requires few { count ≤ 16 }
    requires limit { limit < 2 ^ 63 }
    ensures passed { Passed result (items (entry_after which.now limit set) count []) cursor.old (take count row.new) cursor.new }
    ensures len { length row.new ≡ length row.old }
{
    let rest = cursor.rest();
    if rest.len() < ENTRY * count {
        return false;
    }
    let passed = fill(&rest[..ENTRY * count], row, which, limit, set, count);
    if passed {
        cursor.advance(ENTRY * count);
    }
    passed
}

/// Reads so many entries into the front of a row. They are tried at once, and read one by one only where that
/// fails, so that the first fault is found.
pub fn entries(
    cursor: &mut Cursor,
    row: &mut [Entry],
    which: &Which,
    limit: u64,
    set: u32,
    count: usize,
) -> Answer<usize>
    requires room { count ≤ length row.old }
    requires few { count ≤ 16 }
    requires limit { limit < 2 ^ 63 }
    ensures read { Reads (λ n. take n row.new) result cursor.new (items (entry_after which.now limit set) count [] cursor.old) }
    ensures len { length row.new ≡ length row.old }
    ensures count { IfOk result (λ n. n ≡ count) }
{
    if at_once(cursor, row, which, limit, set, count) {
        return Ok(count);
    }
    one_by_one(cursor, row, which, limit, set, count)
}
