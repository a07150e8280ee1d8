//! Traces and widths from a number.
ghost use Rattle.std.specs.Prelude.{◌<◌, ◌≤◌};

use super::{cycles, plain_cycles, plain_turns, turns};
use hierarchy::{Marked, Widths};
use rv_isa::Class;
use std::alloc::{AllocError, Global};
use std::test::Fail;

/// The next number, whose upper bits look random.
fn next(seed: u64) -> u64 {
    seed.wrapping_mul(6_364_136_223_846_793_005)
        .wrapping_add(1_442_695_040_888_963_407)
}

/// A number below `count`, from the bits of a draw at a place.
fn part(draw: u64, place: u32, count: u64) -> u64
    requires { (place < 64) × (0 < count) }
    ensures { result < count }
{
    (draw >> place) % count
}

fn class_at(n: u64) -> Class {
    match n {
        0..=21 => Class::Alu,
        22..=25 => Class::Mul,
        26..=28 => Class::Div,
        29..=43 => Class::Load,
        44..=56 => Class::Store,
        57..=62 => Class::Control,
        _ => Class::Ecall,
    }
}

/// One of eight registers, or none.
fn register_at(n: u64) -> Option<u8> {
    match n {
        1..=8 => Some(n as u8),
        _ => None,
    }
}

fn mark_at(draw: u64) -> Marked {
    let class = class_at(part(draw, 58, 64));
    let is_access = matches!(class, Class::Load | Class::Store);
    Marked {
        class,
        first: register_at(part(draw, 54, 16)),
        second: register_at(part(draw, 50, 16)),
        dest: register_at(part(draw, 46, 16)),
        word: if is_access {
            // Some words share a place in any table by their lower bits.
            Some((part(draw, 41, 2) * 1024 + part(draw, 36, 2)) as u32)
        } else {
            None
        },
        stall: if part(draw, 32, 20) == 0 { 20 } else { 0 },
        latency: (part(draw, 20, 40) + 1) as u32,
        mispredicted: part(draw, 16, 48) == 0,
        transferred: part(draw, 12, 6) == 0,
    }
}

/// A width from 1 up to `most`.
fn width_at(draw: u64, place: u32, most: u64) -> u32
    requires { (place < 64) × (0 < most) × (most ≤ 256) }
    ensures { (1 ≤ result) × (result ≤ most) }
{
    (part(draw, place, most) + 1) as u32
}

fn widths_at(draw: u64, other: u64) -> Widths {
    let ruu = width_at(draw, 20, 40) + 3;
    Widths {
        fetch: width_at(draw, 60, 8),
        dispatch: width_at(draw, 56, 8),
        issue: width_at(draw, 52, 8),
        retire: width_at(draw, 48, 8),
        queue: width_at(draw, 40, 32),
        ruu,
        lsq: width_at(draw, 32, 15).min(ruu - 1) + 1,
        penalty: width_at(draw, 24, 9),
        forward: width_at(draw, 16, 16),
        alus: width_at(other, 60, 4),
        muls: width_at(other, 56, 2),
        divs: width_at(other, 52, 2),
        loads: width_at(other, 48, 3),
        stores: width_at(other, 44, 2),
        branches: width_at(other, 40, 3),
    }
}

fn items_from(alloc: Global, seed: u64, count: u64) -> Result<Vec<Marked>, AllocError> {
    let mut items = Vec::new(alloc);
    let mut draw = seed;
    for _item in 0..count {
        draw = next(draw);
        items.push(mark_at(draw))?;
    }
    Ok(items)
}

/// A sum over 300 traces of what another program, written by hand from the same rules, takes them
/// to last.
const REFERENCE: u64 = 17_526_218_209_397_489_899;

#[test]
fn both_bodies_agree_with_the_reference(rt: HostRuntime) -> Result<(), Fail> {
    let mut seed: u64 = 1;
    let mut sum: u64 = 0;
    for _trace in 0..300 {
        seed = next(seed);
        let other = next(seed);
        let widths = widths_at(seed, other);
        let items = items_from(rt.alloc(), other, part(other, 32, 100) + 1)?;
        let skip = part(other, 20, 100) as usize % items.len().max(1);
        let total = cycles(rt.alloc(), &widths, &items, skip)?;
        assert_eq!(rt; plain_cycles(rt.alloc(), &widths, &items, skip)?, total);
        sum = sum.wrapping_mul(31).wrapping_add(total);
        let turned = turns(rt.alloc(), &widths, &items)?;
        let plain = plain_turns(rt.alloc(), &widths, &items)?;
        assert_eq!(rt; turned.as_slice(), plain.as_slice());
    }
    assert_eq!(rt; sum, REFERENCE);
    Ok(())
}
