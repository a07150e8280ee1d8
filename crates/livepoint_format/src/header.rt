ghost use Rattle.std.specs.Prelude.{◌≡◌, ◌≤◌, ◌<◌, ◌⊎◌, ◌-◌, ◌^◌, ℕ, [], length, IfOk, true, nat_lt, ◌==◌, false};
ghost use Rattle.std.specs.Int.{w8, w32, w64};
ghost use Rattle.live_points.specs.Kinds.{is_among};
ghost use Rattle.livepoint_format.specs.Reading.{items, counted, number, judged};
ghost use Rattle.livepoint_format.specs.declared.fault.LibraryFault.TheVariants as faults;
ghost use Rattle.livepoint_format.specs.Format.{within, is_heap, magic};
ghost use Rattle.livepoint_format.specs.Decoding.{field, geometry_at, geometries_at, kind_read, kind_after, kinds_count, counts, head_at, shared_after, table_at, header_at};
ghost use Rattle.livepoint_format.specs.Reads.{Reads};
ghost use Rattle.livepoint_format.specs.Views.{head_of};

use crate::cursor::{Answer, Cursor, bad_field};
use crate::fault::LibraryFault;
use crate::shared::{Shared, ranks};
use hierarchy::Places;
use live_points::{Header, Kinds, Records};
use lru_plain::Geometry;
use predictor::{PredictorKind, Scheme};
use sample_design::Design;
use smarts_base::Refusal;
use std::alloc::Global;

/// The letters TSLP.
pub(crate) const MAGIC: u32 = 0x504C_5354;

/// The most pairs that a table may have.
const MOST_SHARED: u32 = 134_217_728;

/// The shape of a cache or a TLB, whose lines have from `2^least` to `2^most` bytes.
#[tactic(auto, unfolding(crate::specs::Decoding::geometry_at))]
fn geometry(cursor: &mut Cursor, least: u8, most: u8) -> Answer<Geometry>
    requires lines { ((4 ≤ least) × (most ≤ 8)) ⊎ ((least ≡ 12) × (most ≡ 12)) }
    ensures { Reads (λ g. g) result cursor.new (geometry_at (within least most) cursor.old) }
{
    let line_log = cursor.u8_within(least, most)?;
    let sets_log = cursor.u8_within(0, 12)?;
    let ways = cursor.u8_within(1, 16)?;
    let _zero = cursor.u8_within(0, 0)?;
    Ok(Geometry::new(line_log, sets_log, ways).unwrap())
}

#[tactic(auto, unfolding(crate::specs::Decoding::geometries_at))]
fn geometries(cursor: &mut Cursor) -> Answer<Places<Geometry>>
    ensures { Reads (λ p. p) result cursor.new (geometries_at cursor.old) }
{
    let l1i = geometry(cursor, 4, 8)?;
    let l1d = geometry(cursor, 4, 8)?;
    let l2 = geometry(cursor, 4, 8)?;
    let itlb = geometry(cursor, 12, 12)?;
    let dtlb = geometry(cursor, 12, 12)?;
    Ok(Places {
        l1i,
        l1d,
        l2,
        itlb,
        dtlb,
    })
}

#[tactic(auto, unfolding(crate::specs::Decoding::kind_read))]
fn kind(cursor: &mut Cursor) -> Answer<PredictorKind>
    ensures { Reads (λ k. k) result cursor.new (kind_read cursor.old) }
{
    let scheme = cursor.u8_within(0, 1)?;
    let bits = cursor.u8_within(4, 14)?;
    let target_log = cursor.u8_within(2, 10)?;
    let depth = cursor.u8_within(0, 16)?;
    let scheme = if scheme == 0 {
        Scheme::Bimodal
    } else {
        Scheme::Gshare
    };
    Ok(PredictorKind {
        scheme,
        bits,
        target_log,
        depth,
    })
}

/// The number of kinds, with the three zeros behind it.
#[tactic(auto, unfolding(crate::specs::Decoding::kinds_count))]
fn kinds_count(cursor: &mut Cursor) -> Answer<u8>
    ensures read { Reads (λ n. n) result cursor.new (kinds_count cursor.old) }
    ensures range { IfOk result (λ n. (1 ≤ n) × (n ≤ 4)) }
{
    let count = cursor.u8_within(1, 4)?;
    let _first = cursor.u8_within(0, 0)?;
    let _second = cursor.u8_within(0, 0)?;
    let _third = cursor.u8_within(0, 0)?;
    Ok(count)
}

/// A kind that is none of those before it.
fn kind_after(cursor: &mut Cursor, before: &Kinds) -> Answer<PredictorKind>
    ensures read { Reads (λ k. k) result cursor.new (kind_after before.now cursor.old) }
    ensures new { IfOk result (λ k. is_among k before.now ≡ false) }
{
    let at = cursor.place();
    let kind = kind(cursor)?;
    if before.contains(kind) {
        Err(bad_field(at))
    } else {
        Ok(kind)
    }
}

/// Adds the kinds that come behind the first.
#[tactic(auto, using(crate::proofs::Loops::goes_on, crate::proofs::Loops::ends, crate::proofs::Loops::is_done))]
fn more_kinds(cursor: &mut Cursor, first: Kinds, count: u8) -> Answer<Kinds>
    requires first { length first ≡ 1 }
    requires count { count ≤ 4 }
    ensures { Reads (λ k. k) result cursor.new (items kind_after (count - 1) first cursor.old) }
{
    let mut kinds = first;
    for _ in 1..count {
        let kind = kind_after(cursor, &kinds)?;
        let _added = kinds.add(kind);
    }
    Ok(kinds)
}

#[tactic(auto, unfolding(crate::specs::Reading::items))]
fn kinds(cursor: &mut Cursor) -> Answer<Kinds>
    ensures { Reads (λ k. k) result cursor.new (counted kinds_count kind_after cursor.old) }
{
    let count = kinds_count(cursor)?;
    let first = kind(cursor)?;
    more_kinds(cursor, Kinds::one(first), count)
}

/// A heap begins at a multiple of 4096.
fn heap_low(cursor: &mut Cursor) -> Answer<u32>
    ensures { Reads (λ n. n) result cursor.new (field w32 is_heap cursor.old) }
{
    let at = cursor.place();
    let addr = cursor.u32()?;
    if addr % 4096 == 0 && addr <= 0x7000_0000 {
        Ok(addr)
    } else {
        Err(bad_field(at))
    }
}

fn offset(cursor: &mut Cursor, every: u32) -> Answer<u32>
    ensures read { Reads (λ n. n) result cursor.new (field w32 (λ n. nat_lt n every) cursor.old) }
    ensures range { IfOk result (λ n. n < every) }
{
    let at = cursor.place();
    let offset = cursor.u32()?;
    if offset < every {
        Ok(offset)
    } else {
        Err(bad_field(at))
    }
}

/// Whether a run of this length has so many sampled units, whatever the warming and the seed.
fn counts(points: u32, length: u64, unit: u32, every: u32, offset: u32) -> bool
    requires unit_least { 16 ≤ unit }
    requires unit_most { unit ≤ 10000 }
    requires every { every ≤ 1000000 }
    requires offset { offset < every }
    ensures { result ≡ counts points length unit every offset }
{
    let design = Design {
        unit,
        warm: 0,
        every,
        offset,
        seed: 0,
        budget: 1,
    };
    match design.units(length) {
        Ok(count) => count == points,
        Err(_) => false,
    }
}

fn magic(cursor: &mut Cursor) -> Answer<u32>
    ensures { Reads (λ n. n) result cursor.new (judged (λ n. n == magic) (λ _. faults.BadMagic) (number w32) cursor.old) }
{
    let letters = cursor.u32()?;
    if letters == MAGIC {
        Ok(letters)
    } else {
        Err(Refusal::Fault(LibraryFault::BadMagic))
    }
}

fn version(cursor: &mut Cursor) -> Answer<u32>
    ensures { Reads (λ n. n) result cursor.new (judged (within 1 2) (λ _. faults.BadVersion) (number w32) cursor.old) }
{
    let version = cursor.u32()?;
    if 1 <= version && version <= 2 {
        Ok(version)
    } else {
        Err(Refusal::Fault(LibraryFault::BadVersion))
    }
}

#[tactic(auto, unfolding(crate::specs::Decoding::head_at))]
fn head(cursor: &mut Cursor) -> Answer<Header>
    ensures read { Reads head_of result cursor.new (head_at cursor.old) }
    ensures budget { IfOk result (λ h. h.design.budget ≡ 1) }
{
    let _letters = magic(cursor)?;
    let version = version(cursor)?;
    let length = cursor.u64_within(1, 1 << 36)?;
    let points = cursor.u32()?;
    let unit = cursor.u32_within(16, 10_000)?;
    let warm = cursor.u32_within(0, 100_000)?;
    let every = cursor.u32_within(1, 1_000_000)?;
    let offset = offset(cursor, every)?;
    if !counts(points, length, unit, every, offset) {
        return Err(bad_field(16));
    }
    let heap_low = heap_low(cursor)?;
    let seed = cursor.u64_within(0, 1_000_000_000_000_000_000)?;
    let places = geometries(cursor)?;
    let kinds = kinds(cursor)?;
    let design = Design {
        unit,
        warm,
        every,
        offset,
        seed,
        budget: 1,
    };
    Ok(Header {
        version,
        length,
        points,
        design,
        heap_low,
        records: Records { places, kinds },
    })
}

/// A pair of the table behind those before it.
fn shared_after(cursor: &mut Cursor, before: &[(u32, u32)]) -> Answer<(u32, u32)>
    requires { length before.now < 2 ^ 32 }
    ensures { Reads (λ p. p) result cursor.new (shared_after before.now cursor.old) }
{
    let pair = cursor.pair()?;
    if ranks(before, pair) {
        Ok(pair)
    } else {
        Err(Refusal::Fault(LibraryFault::BadShared {
            index: before.len() as u32,
        }))
    }
}

#[tactic(auto, using(crate::proofs::Loops::goes_on, crate::proofs::Loops::ends, crate::proofs::Loops::is_done))]
fn shared_pairs(alloc: Global, cursor: &mut Cursor, count: u32) -> Answer<Vec<(u32, u32)>>
    ensures { Reads (λ v. v.items) result cursor.new (items shared_after count [] cursor.old) }
{
    let mut pairs = Vec::new(alloc);
    for _ in 0..count {
        let pair = shared_after(cursor, pairs.as_slice())?;
        pairs.push(pair)?;
    }
    Ok(pairs)
}

#[tactic(auto, unfolding(crate::specs::Decoding::table_at))]
fn table(alloc: Global, cursor: &mut Cursor, first: bool) -> Answer<Vec<(u32, u32)>>
    ensures { Reads (λ v. v.items) result cursor.new (table_at first cursor.old) }
{
    if first {
        return Ok(Vec::new(alloc));
    }
    let count = cursor.u32_within(0, MOST_SHARED)?;
    shared_pairs(alloc, cursor, count)
}

/// A header and the table behind it.
#[tactic(auto, unfolding(crate::specs::Decoding::header_at))]
pub fn header(alloc: Global, cursor: &mut Cursor) -> Answer<(Header, Shared)>
    ensures read { Reads (λ x. (head_of x.0, x.1)) result cursor.new (header_at cursor.old) }
    ensures budget { IfOk result (λ x. x.0.design.budget ≡ 1) }
{
    let head = head(cursor)?;
    let _bytes = cursor.rest();
    let pairs = table(alloc, cursor, head.version == 1)?;
    Ok((head, Shared::from_ranked(pairs)))
}
