ghost use Rattle.std.specs.Prelude.{◌≡◌, ◌∷◌, [], length, drop, IfOk, ◌==◌};
ghost use Rattle.std.specs.Int.{w32};
ghost use Rattle.live_words.specs.Follow.{Follow};
ghost use Rattle.livepoint_format.specs.declared.fault.LibraryFault.TheVariants as faults;
ghost use Rattle.livepoint_format.specs.Reading.{number, judged, items};
ghost use Rattle.livepoint_format.specs.Format.{IsHeader, IsNewKind, AreShared, is_first, most_words};
ghost use Rattle.livepoint_format.specs.Decoding.{register_after, registers_count, image_after, point_at};
ghost use Rattle.livepoint_format.specs.Reads.{Reads};
ghost use Rattle.livepoint_format.specs.Views.{head_of};

use crate::cursor::{Answer, Cursor};
use crate::fault::LibraryFault;
use crate::image::{address, image};
use crate::shared::Shared;
use crate::snapshot::snapshots;
use crate::words::words;
use live_points::{Header, Images, Kinds, LivePoint};
use sample_design::Design;
use smarts_base::Refusal;
use std::alloc::Global;

/// The bytes that a heap may grow to.
const HEAP: u32 = 67_108_864;

/// The number of the unit that is wanted.
fn unit_number(cursor: &mut Cursor, point: u32, wanted: u32) -> Answer<u32>
    ensures { Reads (λ n. n) result cursor.new (judged (λ n. n == wanted) (λ _. faults.BadOrder point) (number w32) cursor.old) }
{
    let unit = cursor.u32()?;
    if unit == wanted {
        Ok(unit)
    } else {
        Err(Refusal::Fault(LibraryFault::BadOrder { point }))
    }
}

/// Registers 1 to 31, behind register 0.
fn registers(cursor: &mut Cursor) -> Answer<[u32; 32]>
    ensures read { Reads (λ regs. drop 1 regs) result cursor.new (items register_after registers_count [] cursor.old) }
    ensures zero { IfOk result (λ regs. regs ≡ 0 ∷ drop 1 regs) }
{
    let mut regs = [0; 32];
    for i in 0..31 {
        regs[i + 1] = cursor.u32()?;
    }
    Ok(regs)
}

/// The most words that a point of a unit may have.
fn most_words(header: &Header, unit: u32) -> u32
    requires { IsHeader (head_of header.now) }
    ensures { result ≡ most_words (head_of header.now) unit }
{
    let design = Design {
        unit: header.design.unit,
        warm: header.design.warm,
        every: header.design.every,
        offset: header.design.offset,
        seed: header.design.seed,
        budget: 1,
    };
    2 * design.window(u64::from(unit)).len
}

/// An image of each kind.
fn images(alloc: Global, cursor: &mut Cursor, kinds: &Kinds) -> Answer<Images>
    requires { Follow IsNewKind [] kinds.now }
    ensures { Reads (λ v. v) result cursor.new (items (image_after kinds.now) (length kinds.now) [] cursor.old) }
{
    let mut images = Vec::new(alloc);
    let count = kinds.len();
    for i in 0..count {
        let image = image(alloc, cursor, kinds.at(i))?;
        images.push(image)?;
    }
    Ok(Images::from_list(images))
}

/// A point of this header and table.
#[tactic(auto, unfolding(crate::specs::Decoding::point_at))]
pub fn point(
    alloc: Global,
    cursor: &mut Cursor,
    header: &Header,
    shared: &Shared,
    point: u32,
    unit: u32,
) -> Answer<LivePoint>
    requires header { IsHeader (head_of header.now) }
    requires table { AreShared (is_first (head_of header.now)) shared.now }
    ensures { Reads (λ p. p) result cursor.new (point_at (head_of header.now) shared.now point unit cursor.old) }
{
    let number = unit_number(cursor, point, unit)?;
    let pc = address(cursor)?;
    let regs = registers(cursor)?;
    let brk = cursor.u32_within(header.heap_low, header.heap_low + HEAP)?;
    let first = header.version == 1;
    let most = most_words(header, unit);
    let words = words(alloc, cursor, first, point, most, shared)?;
    let places = snapshots(alloc, cursor, point, &header.records.places)?;
    let images = images(alloc, cursor, &header.records.kinds)?;
    Ok(LivePoint {
        unit: number,
        pc,
        regs,
        brk,
        words,
        places,
        images,
    })
}
