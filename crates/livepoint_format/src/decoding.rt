ghost use Rattle.std.specs.Prelude.{◌≡◌, ◌+◌, ◌<◌, ◌≤◌, ◌^◌, ◌==◌, [], length, IfOk, OnOk, IfErr, ℕ, slice_index};
ghost use Rattle.std.specs.Int.{w32};
ghost use Rattle.smarts_base.specs.Outcome.{Answers};
ghost use Rattle.sample_design.specs.Order.{order_of};
ghost use Rattle.livepoint_format.specs.Reading.{items, handed_out, starts_at};
ghost use Rattle.livepoint_format.specs.Format.{IsHeader, IsLibrary, AreShared, is_first, spelling, unit_of};
ghost use Rattle.livepoint_format.specs.Decoding.{header_at, point_at, end_at, point_after, whole_at, library_of};
ghost use Rattle.livepoint_format.specs.Reads.{Reads};
ghost use Rattle.livepoint_format.specs.Laws.{IsNoLibrary};
ghost use Rattle.livepoint_format.specs.Views.{head_of};

use crate::cursor::{Answer, Cursor, bad_field};
use crate::fault::LibraryFault;
use crate::header::header;
use crate::library::Library;
use crate::shared::Shared;
use live_points::{Header, LivePoint};
use sample_design::{Order, visit_order};
use smarts_base::Refusal;
use std::alloc::Global;

/// The letters TEND.
const END: u32 = 0x444E_4554;

/// The most bytes of a library.
const MOST_BYTES: usize = 1_073_741_824;

/// Reads a header and its table from the front of bytes, and tells how many bytes they take. The budget, which
/// isn't kept, is 1.
pub fn decode_header(alloc: Global, bytes: &[u8]) -> Answer<(Header, Shared, usize)>
    ensures exact { Answers (λ x. ((head_of x.0, x.1), x.2)) result (handed_out (starts_at 0 bytes.now) header_at) }
    ensures sound { IfOk result (λ x. IsHeader (head_of x.0) × (AreShared (is_first (head_of x.0)) x.1)) }
    ensures budget { IfOk result (λ x. x.0.design.budget ≡ 1) }
{
    let mut cursor = Cursor::new(0, bytes);
    let (head, shared) = header(alloc, &mut cursor)?;
    Ok((head, shared, cursor.place() as usize))
}

/// Reads the point of this number and unit from the front of bytes, which stand at `base` in the library, and
/// tells how many bytes it takes.
pub fn decode_point(
    alloc: Global,
    header: &Header,
    shared: &Shared,
    point: u32,
    unit: u32,
    base: u64,
    bytes: &[u8],
) -> Answer<(LivePoint, usize)>
    requires header { IsHeader (head_of header.now) }
    requires table { AreShared (is_first (head_of header.now)) shared.now }
    requires base { base ≤ 2 ^ 30 }
    ensures { Answers (λ x. (x.0, x.1)) result (handed_out (starts_at base bytes.now) (point_at (head_of header.now) shared.now point unit)) }
{
    let mut cursor = Cursor::new(base, bytes);
    let read = crate::point::point(alloc, &mut cursor, header, shared, point, unit)?;
    Ok((read, (cursor.place() - base) as usize))
}

fn end(cursor: &mut Cursor) -> Answer<u32>
    ensures { Reads (λ n. n) result cursor.new (end_at cursor.old) }
{
    let at = cursor.place();
    let letters = cursor.u32()?;
    if letters == END {
        Ok(letters)
    } else {
        Err(bad_field(at))
    }
}

/// Reads the end from the front of bytes, which stand at `base` in the library, and tells its letters and how many
/// bytes it takes.
pub fn decode_end(base: u64, bytes: &[u8]) -> Answer<(u32, usize)>
    requires base { base ≤ 2 ^ 30 }
    ensures { Answers (λ x. (x.0, x.1)) result (handed_out (starts_at base bytes.now) end_at) }
{
    let mut cursor = Cursor::new(base, bytes);
    let letters = end(&mut cursor)?;
    Ok((letters, (cursor.place() - base) as usize))
}

/// The number of the unit that is visited at a turn of the header's order of visits.
pub fn unit_at(header: &Header, order: &Order, k: u32) -> u32
    requires header { IsHeader (head_of header.now) }
    requires order { order.now ≡ order_of header.now.points header.now.design.seed }
    requires len { length order.now ≡ header.now.points }
    requires below { (k : ℕ) → k < header.now.points → slice_index order.now k < header.now.points }
    requires k { k < header.now.points }
    ensures { result ≡ unit_of (head_of header.now) k }
{
    let turn = u64::from(order.at(k));
    (u64::from(header.design.offset) + u64::from(header.design.every) * turn) as u32
}

fn points(
    alloc: Global,
    cursor: &mut Cursor,
    header: &Header,
    shared: &Shared,
    order: &Order,
) -> Answer<Vec<LivePoint>>
    requires header { IsHeader (head_of header.now) }
    requires table { AreShared (is_first (head_of header.now)) shared.now }
    requires order { order.now ≡ order_of header.now.points header.now.design.seed }
    requires len { length order.now ≡ header.now.points }
    requires below { (k : ℕ) → k < header.now.points → slice_index order.now k < header.now.points }
    ensures { Reads (λ v. v.items) result cursor.new (items (point_after (head_of header.now) shared.now) header.now.points [] cursor.old) }
{
    let mut points = Vec::new(alloc);
    let count = header.points;
    for k in 0..count {
        let unit = unit_at(header, order, k);
        let read = crate::point::point(alloc, cursor, header, shared, k, unit)?;
        points.push(read)?;
    }
    Ok(points)
}

/// A header, its table, its points and the end.
#[tactic(auto, unfolding(crate::specs::Decoding::whole_at))]
fn whole(alloc: Global, cursor: &mut Cursor) -> Answer<Library>
    ensures { Reads (λ l. l) result cursor.new (whole_at cursor.old) }
{
    let _bytes = cursor.rest();
    let (head, shared) = header(alloc, cursor)?;
    let _rest = cursor.rest();
    let order = visit_order(alloc, head.points, head.design.seed)?;
    let points = points(alloc, cursor, &head, &shared, &order)?;
    let _letters = end(cursor)?;
    Ok(Library::from_points(head, shared, points))
}

#[tactic(auto, unfolding(crate::specs::Decoding::library_of))]
fn all(alloc: Global, bytes: &[u8]) -> Answer<Library>
    ensures { Answers (λ l. l) result (library_of bytes.now) }
{
    if bytes.len() > MOST_BYTES {
        return Err(Refusal::Fault(LibraryFault::TooLarge {
            length: bytes.len() as u64,
        }));
    }
    let mut cursor = Cursor::new(0, bytes);
    let library = whole(alloc, &mut cursor)?;
    if cursor.rest().is_empty() {
        Ok(library)
    } else {
        Err(Refusal::Fault(LibraryFault::TrailingBytes { at: cursor.place() }))
    }
}

/// Reads a library of either version from its bytes, or answers the first fault. After want of memory nothing is
/// left behind.
pub fn decode_library(alloc: Global, bytes: &[u8]) -> Answer<Library>
    ensures exact { Answers (λ l. l) result (library_of bytes.now) }

    // A library comes only from its own spelling.
    ensures found { IfOk result (λ l. IsLibrary l × (bytes.now ≡ spelling l)) }

    // A fault comes only of bytes that are no library's.
    ensures only { IfErr result (IsNoLibrary bytes.now) }
{
    all(alloc, bytes)
}
