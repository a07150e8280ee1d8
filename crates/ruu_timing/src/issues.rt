//! How many instructions issue in each cycle.
ghost use Rattle.std.specs.Prelude.{◌≡◌, ◌+◌, ◌*◌, ◌^◌, ◌<◌, ◌≤◌, length, max, replicate, IfOk, true, ◌==◌, if◌then◌else◌};
ghost use Rattle.hierarchy.specs.Widths.{AreWidths};
ghost use Rattle.ruu_timing.specs.Class.{number_of, limit_of};
ghost use Rattle.ruu_timing.specs.Issues.{IsPower, idle, place_of, alike_in, has_room, one_more, issued_in};
ghost use Rattle.ruu_timing.specs.Laws.{IsFirst};
ghost use Rattle.std.specs.List.{AllByRecursion};

use crate::class::{limit_of, number_of};
use hierarchy::Widths;
use rv_isa::Class;
use smarts_base::NoMemory;
use std::alloc::Global;

/// The instructions that issue in a cycle, in all and of each class.
#[derive(Clone, Copy, Debug)]
pub(crate) struct Slot {
    pub(crate) cycle: u32,
    pub(crate) issued: u8,
    pub(crate) alike: [u8; 7],
}

fn idle(cycle: u32) -> Slot
    ensures { result ≡ idle cycle }
{
    Slot {
        cycle,
        issued: 0,
        alike: [0; 7],
    }
}

#[tactic(auto, using(crate::proofs::IssuesLemmas::power_some, crate::proofs::IssuesLemmas::masked))]
fn place_of(slots: &[Slot], t: u32) -> usize
    requires power { IsPower (length slots.now) }
    requires size { length slots.now ≤ 2 ^ 31 }
    ensures value { result ≡ place_of slots.now t }
    ensures within { result < length slots.now }
{
    (t & (slots.len() as u32 - 1)) as usize
}

/// Counts one more instruction of a class.
fn count(slot: &mut Slot, class: Class)
    requires issued { slot.old.issued < 8 }
    requires alike { alike_in slot.old class < 8 }
    ensures { slot.new ≡ one_more class slot.old }
{
    slot.issued += 1;
    slot.alike[number_of(class)] += 1;
}

/// A cycle in which one instruction issues.
fn first_of(cycle: u32, class: Class) -> Slot
    ensures { result ≡ one_more class (idle cycle) }
{
    let mut slot = idle(cycle);
    count(&mut slot, class);
    slot
}

/// Whether one more instruction of a class can issue in a cycle.
#[tactic(auto, unfolding(crate::specs::Issues::has_room))]
fn has_room(w: &Widths, limit: u32, slots: &[Slot], start: u32, class: Class, t: u32) -> bool
    requires widths { AreWidths w.now }
    requires limit { limit ≡ limit_of w.now class }
    requires power { IsPower (length slots.now) }
    requires size { length slots.now ≤ 2 ^ 31 }
    requires small { (start ≤ 2 ^ 30) × (t ≤ 2 ^ 31) }
    ensures { result ≡ has_room w.now slots.now start class t }
{
    let slot = &slots[place_of(slots, t)];
    if slot.cycle != start + t {
        return true;
    }
    u32::from(slot.issued) < w.issue && u32::from(slot.alike[number_of(class)]) < limit
}

/// Notes one more instruction of a class that issues in a cycle.
pub(crate) fn issue_in(w: &Widths, slots: &mut [Slot], start: u32, class: Class, t: u32)
    requires widths { AreWidths w.now }
    requires power { IsPower (length slots.old) }
    requires size { length slots.old ≤ 2 ^ 31 }
    requires small { (start ≤ 2 ^ 30) × (t ≤ 2 ^ 31) }
    requires room { has_room w.now slots.old start class t ≡ true }
    ensures { slots.new ≡ issued_in slots.old start class t }
{
    let place = place_of(slots, t);
    let slot = &mut slots[place];
    if slot.cycle == start + t {
        count(slot, class);
    } else {
        *slot = first_of(start + t, class);
    }
}

/// The first cycle from `ready` on that has room for one more instruction of a class. `last` is the
/// last one in which anything issues.
pub(crate) fn first_room(
    w: &Widths,
    slots: &[Slot],
    start: u32,
    class: Class,
    ready: u32,
    last: u32,
) -> u32
    requires widths { AreWidths w.now }
    requires power { IsPower (length slots.now) }
    requires size { length slots.now ≤ 2 ^ 31 }
    requires before { AllByRecursion (λ slot. slot.cycle ≤ start + last) slots.now }
    requires small { (start ≤ 2 ^ 30) × (ready ≤ 2 ^ 30 + 2 ^ 29) × (last ≤ 2 ^ 29) }
    ensures value { IsFirst (has_room w.now slots.now start class) ready result }
    ensures bound { result ≤ max ready (last + 1) }
{
    let limit = limit_of(w, class);
    // Most find room at once.
    if has_room(w, limit, slots, start, class, ready) {
        return ready;
    }
    let mut t = ready + 1;
    'wait: while !has_room(w, limit, slots, start, class, t) {
        t += 1;
    }
    t
}

/// As many places as a table needs: a power of two, from 1280 for each place of the register update
/// unit.
fn size_for(ruu: u32) -> usize
    requires { ruu ≤ 256 }
    ensures power { IsPower result }
    ensures wide { 1280 * ruu ≤ result }
    ensures size { result ≤ 2 ^ 31 }
{
    if ruu <= 51 {
        1 << 16
    } else if ruu <= 102 {
        1 << 17
    } else if ruu <= 204 {
        1 << 18
    } else {
        1 << 19
    }
}

/// A table of so many places, in which nothing issues.
fn all_idle(alloc: Global, size: usize) -> Result<Vec<Slot>, NoMemory>
    ensures { IfOk result (λ slots. slots.items ≡ replicate size (idle 0)) }
{
    let mut slots = Vec::with_capacity(alloc, size)?;
    for _place in 0..size {
        slots.push_reserved(idle(0));
    }
    Ok(slots)
}

/// A table for a register update unit of so many places, in which nothing issues.
pub(crate) fn table(alloc: Global, ruu: u32) -> Result<Vec<Slot>, NoMemory>
    requires { ruu ≤ 256 }
    ensures power { IfOk result (λ slots. IsPower (length slots.items)) }
    ensures wide { IfOk result (λ slots. 1280 * ruu ≤ length slots.items) }
    ensures size { IfOk result (λ slots. length slots.items ≤ 2 ^ 31) }
    ensures before { IfOk result (λ slots. AllByRecursion (λ slot. slot.cycle ≤ 0) slots.items) }
    ensures sevens { IfOk result (λ slots. AllByRecursion (λ slot. length slot.alike ≡ 7) slots.items) }
{
    all_idle(alloc, size_for(ruu))
}

/// The first cycle of a further trace: behind all that the table knows of, so that the table need
/// not be emptied, as long as there are cycles.
pub(crate) fn next_start(slots: &mut Vec<Slot>, start: u32) -> u32
    requires before { AllByRecursion (λ slot. slot.cycle ≤ start) slots.old.items }
    requires sevens { AllByRecursion (λ slot. length slot.alike ≡ 7) slots.old.items }
    ensures start { result ≤ 2 ^ 30 }
    ensures before { AllByRecursion (λ slot. slot.cycle ≤ result) slots.new.items }
    ensures sevens { AllByRecursion (λ slot. length slot.alike ≡ 7) slots.new.items }
    ensures size { length slots.new.items ≡ length slots.old.items }
{
    if start <= 1 << 30 {
        return start;
    }
    slots.fill(idle(0));
    0
}
