ghost use Rattle.std.specs.Prelude.{◌≡◌, ◌<◌, ◌≤◌, ◌^◌, [], length};
ghost use Rattle.std.specs.Int.{w8, w32};
ghost use Rattle.predictor.specs.Kind.{IsKind};
ghost use Rattle.livepoint_format.specs.Image.{greatest};
ghost use Rattle.predictor.specs.Parts.{is_counter, is_history, is_source, is_target, is_instruction};
ghost use Rattle.livepoint_format.specs.Reading.{items, counted};
ghost use Rattle.livepoint_format.specs.Format.{within};
ghost use Rattle.livepoint_format.specs.Decoding.{field, counter_after, target_after, address_after, image_at};
ghost use Rattle.livepoint_format.specs.Reads.{Reads};

use crate::cursor::{Answer, Cursor, bad_field};
use arrayvec::ArrayVec;
use predictor::{
    PredictorImage, PredictorKind, is_counter, is_history, is_instruction, is_source, is_target,
};
use std::alloc::Global;

fn counter(cursor: &mut Cursor) -> Answer<u8>
    ensures { Reads (λ n. n) result cursor.new (field w8 is_counter cursor.old) }
{
    let at = cursor.place();
    let counter = cursor.u8()?;
    if is_counter(counter) {
        Ok(counter)
    } else {
        Err(bad_field(at))
    }
}

/// So many counters, up to the first fault.
#[tactic(auto, using(crate::proofs::Loops::goes_on, crate::proofs::Loops::ends, crate::proofs::Loops::is_done))]
fn counters_one_by_one(alloc: Global, cursor: &mut Cursor, count: usize) -> Answer<Vec<u8>>
    ensures { Reads (λ v. v.items) result cursor.new (items counter_after count [] cursor.old) }
{
    let mut counters = Vec::new(alloc);
    for _ in 0..count {
        let counter = counter(cursor)?;
        counters.push(counter)?;
    }
    Ok(counters)
}

#[tactic(auto, unfolding(crate::specs::Image::greatest))]
fn greatest(bytes: &[u8]) -> u8
    ensures { result ≡ greatest bytes.now }
{
    bytes.iter().fold(0, |most: u8, byte| most.max(*byte))
}

/// So many counters. They are tried at once, and read one by one only where that fails.
fn counters(alloc: Global, cursor: &mut Cursor, count: usize) -> Answer<Vec<u8>>
    ensures { Reads (λ v. v.items) result cursor.new (items counter_after count [] cursor.old) }
{
    let rest = cursor.rest();
    if rest.len() < count || !is_counter(greatest(&rest[..count])) {
        return counters_one_by_one(alloc, cursor, count);
    }
    let counters = Vec::from_slice(alloc, &rest[..count])?;
    cursor.advance(count);
    Ok(counters)
}

fn history(cursor: &mut Cursor, kind: PredictorKind) -> Answer<u32>
    requires { IsKind kind }
    ensures { Reads (λ n. n) result cursor.new (field w32 (is_history kind) cursor.old) }
{
    let at = cursor.place();
    let history = cursor.u32()?;
    if is_history(kind, history) {
        Ok(history)
    } else {
        Err(bad_field(at))
    }
}

fn source(cursor: &mut Cursor, kind: PredictorKind, place: u32) -> Answer<u32>
    requires { IsKind kind }
    ensures { Reads (λ n. n) result cursor.new (field w32 (is_source kind place) cursor.old) }
{
    let at = cursor.place();
    let pc = cursor.u32()?;
    if is_source(kind, place, pc) {
        Ok(pc)
    } else {
        Err(bad_field(at))
    }
}

fn target(cursor: &mut Cursor, pc: u32) -> Answer<u32>
    ensures { Reads (λ n. n) result cursor.new (field w32 (is_target pc) cursor.old) }
{
    let at = cursor.place();
    let target = cursor.u32()?;
    if is_target(pc, target) {
        Ok(target)
    } else {
        Err(bad_field(at))
    }
}

#[tactic(auto, unfolding(crate::specs::Decoding::target_after))]
fn target_after(
    cursor: &mut Cursor,
    kind: PredictorKind,
    before: &[(u32, u32)],
) -> Answer<(u32, u32)>
    requires kind { IsKind kind }
    requires few { length before.now < 2 ^ 32 }
    ensures { Reads (λ e. e) result cursor.new (target_after kind before.now cursor.old) }
{
    let pc = source(cursor, kind, before.len() as u32)?;
    let target = target(cursor, pc)?;
    Ok((pc, target))
}

#[tactic(auto, using(crate::proofs::Loops::goes_on, crate::proofs::Loops::ends, crate::proofs::Loops::is_done))]
fn targets(
    alloc: Global,
    cursor: &mut Cursor,
    kind: PredictorKind,
    count: u32,
) -> Answer<Vec<(u32, u32)>>
    requires { IsKind kind }
    ensures { Reads (λ v. v.items) result cursor.new (items (target_after kind) count [] cursor.old) }
{
    let mut targets = Vec::new(alloc);
    for _ in 0..count {
        let entry = target_after(cursor, kind, targets.as_slice())?;
        targets.push(entry)?;
    }
    Ok(targets)
}

/// The address of an instruction.
pub fn address(cursor: &mut Cursor) -> Answer<u32>
    ensures { Reads (λ n. n) result cursor.new (field w32 is_instruction cursor.old) }
{
    let at = cursor.place();
    let address = cursor.u32()?;
    if is_instruction(address) {
        Ok(address)
    } else {
        Err(bad_field(at))
    }
}

#[tactic(auto, using(crate::proofs::Loops::goes_on, crate::proofs::Loops::ends, crate::proofs::Loops::is_done))]
fn addresses(cursor: &mut Cursor, count: u8) -> Answer<ArrayVec<u32, 16>>
    requires { count ≤ 16 }
    ensures { Reads (λ v. v.items) result cursor.new (items address_after count [] cursor.old) }
{
    let mut stack = ArrayVec::new();
    for _ in 0..count {
        let address = address(cursor)?;
        stack.push(address);
    }
    Ok(stack)
}

fn stack(cursor: &mut Cursor, depth: u8) -> Answer<ArrayVec<u32, 16>>
    requires { depth ≤ 16 }
    ensures { Reads (λ v. v.items) result cursor.new (counted (field w8 (within 0 depth)) address_after cursor.old) }
{
    let count = cursor.u8_within(0, depth)?;
    addresses(cursor, count)
}

/// The number 2^log.
fn power(log: u8) -> u32
    requires { log ≤ 14 }
    ensures { result ≡ 2 ^ log }
{
    1 << log
}

/// An image of this kind.
#[tactic(auto, unfolding(crate::specs::Decoding::image_at))]
pub fn image(alloc: Global, cursor: &mut Cursor, kind: PredictorKind) -> Answer<PredictorImage>
    requires { IsKind kind }
    ensures { Reads (λ t. t) result cursor.new (image_at kind cursor.old) }
{
    let _bytes = cursor.rest();
    let counters = counters(alloc, cursor, power(kind.bits) as usize)?;
    let history = history(cursor, kind)?;
    let targets = targets(alloc, cursor, kind, power(kind.target_log))?;
    let stack = stack(cursor, kind.depth)?;
    Ok(PredictorImage::from_sound(kind, counters, history, targets, stack))
}
