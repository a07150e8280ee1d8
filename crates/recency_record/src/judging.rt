ghost use Rattle.std.specs.Prelude.{◌≡◌, ◌<◌, ◌-◌, ◌==◌, length, slice_get, sum};
ghost use Rattle.std.specs.List.{list_any};
ghost use Rattle.lru_plain.specs.Shape.{sets_of};
ghost use Rattle.recency_record.specs.Faults.{belongs, is_no_later, block_fault, time_fault, entry_fault, set_fault, sets_fault, dealt};

use crate::entry::Entry;
use crate::fault::RecordFault;
use lru_plain::Geometry;

/// Whether there is such a block, and it belongs to the set.
#[tactic(auto, using(crate::proofs::Judgements::block_bound))]
pub fn belongs(geometry: Geometry, set: u32, block: u32) -> bool
    ensures { result ≡ belongs geometry set block }
{
    let bound = 1 << (32 - geometry.line_log());
    let is_block = u64::from(block) < bound;
    let home = geometry.home_of(block);
    is_block && home == set
}

/// Whether the entry just before is no later.
pub fn is_no_later(before: &[Entry], time: u64) -> bool
    ensures { result ≡ is_no_later (slice_get before.now (length before.now - 1)) time }
{
    match before.last() {
        Some(last) => last.time <= time,
        None => false,
    }
}

/// Whether the block is that of an entry before.
pub fn repeats(before: &[Entry], block: u32) -> bool
    ensures { result ≡ list_any (λ e. e.block == block) before.now }
{
    before.iter().any(|e| e.block == block)
}

/// The first rule that the block of an entry breaks behind those before it in its set: that it is one under
/// this line and belongs to the set, and that it comes once.
pub fn block_fault(
    geometry: Geometry,
    set: u32,
    before: &[Entry],
    block: u32,
) -> Option<RecordFault>
    requires { length before.now < 16 }
    ensures { result ≡ block_fault geometry set before.now block }
{
    let place = before.len() as u8;
    if !belongs(geometry, set, block) {
        Some(RecordFault::WrongSet { set, place })
    } else if repeats(before, block) {
        Some(RecordFault::Repeated { set, place })
    } else {
        None
    }
}

/// The first rule that the time of an entry breaks behind those before it in its set: that it is below that
/// of the record, and below the one in front.
pub fn time_fault(now: u64, set: u32, before: &[Entry], time: u64) -> Option<RecordFault>
    requires { length before.now < 16 }
    ensures { result ≡ time_fault now set before.now time }
{
    let place = before.len() as u8;
    if time >= now {
        Some(RecordFault::TimeRange { set, place })
    } else if is_no_later(before, time) {
        Some(RecordFault::NotDescending { set, place })
    } else {
        None
    }
}

/// The first rule that an entry breaks behind those before it in its set.
#[tactic(auto, unfolding(crate::specs::Faults::entry_fault))]
fn entry_fault(
    geometry: Geometry,
    time: u64,
    set: u32,
    before: &[Entry],
    entry: Entry,
) -> Option<RecordFault>
    requires { length before.now < 16 }
    ensures { result ≡ entry_fault geometry time set before.now entry }
{
    block_fault(geometry, set, before, entry.block).or_else(|| time_fault(
        time, set, before, entry.time,
    ))
}

/// The first rule that the entries of a set break.
fn set_fault(geometry: Geometry, time: u64, set: u32, entries: &[Entry]) -> Option<RecordFault>
    ensures { result ≡ set_fault geometry time set entries.now }
{
    if entries.len() > usize::from(geometry.ways()) {
        return Some(RecordFault::TooMany { set, place: 0 });
    }
    for place in 0..entries.len() {
        let fault = entry_fault(geometry, time, set, &entries[..place], entries[place]);
        if fault.is_some() {
            return fault;
        }
    }
    None
}

/// The first rule that entries break which are dealt out to the sets, so many to each in turn.
pub fn first_fault(
    geometry: Geometry,
    time: u64,
    counts: &[u8],
    entries: &[Entry],
) -> Option<RecordFault>
    requires sets { length counts.now ≡ sets_of geometry }
    requires entries { sum counts.now ≡ length entries.now }
    ensures { result ≡ sets_fault geometry time 0 (dealt counts.now entries.now) }
{
    let mut rest = entries;
    for set in 0..counts.len() {
        let (own, behind) = rest.split_at(usize::from(counts[set]));
        let fault = set_fault(geometry, time, set as u32, own);
        if fault.is_some() {
            return fault;
        }
        rest = behind;
    }
    None
}
