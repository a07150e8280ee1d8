//! Instructions are timed in program order, each by what those before it left.
ghost use Rattle.std.specs.Prelude.{◌≡◌, ℕ, ◌+◌, ◌^◌, ◌<◌, ◌≤◌, ◌%◌, List, [], ◌∷◌, length, take, get_or, slice_set, All, IfOk, IfSome, true, if◌then◌else◌};
ghost use Rattle.std.specs.Option.{is_some, unwrap_or};
ghost use Rattle.hierarchy.specs.Widths.{AreWidths};
ghost use Rattle.hierarchy.specs.Marked.{IsMarked, accesses_memory};
ghost use Rattle.ruu_timing.specs.Class.{is_ecall, is_store};
ghost use Rattle.ruu_timing.specs.declared.timed.Timed.{Timed as TimedValue};
ghost use Rattle.ruu_timing.specs.Flight.{IsCleared, IsFlight, IsKept, IsNoted, IsRegister, AreSmall, IsSmallStore, Falls, timed_with, store_row_of, written_in, written_by, late, completion_in};
ghost use Rattle.ruu_timing.specs.Issues.{has_room};
ghost use Rattle.ruu_timing.specs.Ring.{IsRing, ring_place, time_back};
ghost use Rattle.ruu_timing.specs.Laws.{IsFirst};
ghost use Rattle.std.specs.List.{find};
ghost use Rattle.ruu_timing.specs.Times.{back, time_of, is_given, next_fetch, fetch_of, dispatch_of, source_of, ready_of, retirement_of, timed_of, times};

use crate::class::{accesses_memory, is_ecall, is_load, is_store};
use crate::issues::{Slot, first_room, issue_in, next_start, table};
use crate::trace::Trace;
use hierarchy::{Marked, Widths};
use rv_isa::Class;
use smarts_base::NoMemory;
use std::alloc::Global;

/// The times of an instruction, in cycles from the trace's start.
#[derive(Clone, Copy, Debug)]
pub(crate) struct Cycles {
    pub(crate) fetch: u32,
    pub(crate) dispatch: u32,
    pub(crate) issue: u32,
    pub(crate) completion: u32,
    pub(crate) retirement: u32,
}

/// What later loads wait for.
#[derive(Clone, Copy, Debug)]
pub(crate) struct StoreRow {
    pub(crate) word: Option<u32>,
    pub(crate) completion: u32,
    pub(crate) retirement: u32,
}

/// The latest instructions of a trace, as far as later ones can still wait for them. The rings hold
/// zeros where no instruction has come, which are the least of all times.
#[derive(Debug, Drop)]
pub(crate) struct Flight {
    /// The cycles after the fetches of the latest instructions, by their number modulo the ring's size.
    pub(crate) fetches: [u32; 256],
    pub(crate) dispatches: [u32; 256],
    pub(crate) retirements: [u32; 256],
    /// The retirements of the latest loads and stores.
    pub(crate) accesses: [u32; 256],
    /// The latest stores.
    pub(crate) stores: [StoreRow; 256],
    /// When the last writer of each register completes.
    pub(crate) registers: [u32; 256],
    /// How many instructions have come, how many loads and stores, and how many stores.
    pub(crate) count: u32,
    pub(crate) accessed: u32,
    pub(crate) stored: u32,
    /// When the next instruction may be fetched, as far as the one before it goes.
    pub(crate) next: u32,
    /// When the one before it is dispatched and retired.
    pub(crate) dispatched: u32,
    pub(crate) retired: u32,
    /// The issues of each cycle, where the trace's first cycle has the number `start`.
    pub(crate) slots: Vec<Slot>,
    pub(crate) start: u32,
}

const NO_STORE: StoreRow = StoreRow {
    word: None,
    completion: 0,
    retirement: 0,
};

/// The time of the `k`-th back of so many.
fn time_back(ring: &[u32], count: u32, k: u32) -> u32
    requires size { length ring.now ≡ 256 }
    requires few { count ≤ 110000 }
    requires back { k ≤ 256 }
    requires small { AreSmall ring.now }
    ensures value { result ≡ time_back ring.now count k }
    ensures bound { result ≤ 2 ^ 29 + 1 }
{
    ring[((count + 256 - k) % 256) as usize]
}

/// When the last writer of a register completes.
fn written(registers: &[u32], register: Option<u8>) -> u32
    requires { length registers.now ≡ 256 }
    ensures value { result ≡ written_in registers.now register }
    ensures register { IsRegister register }
{
    match register {
        Some(register) => registers[usize::from(register)],
        None => 0,
    }
}

fn note_writer(registers: &mut [u32], register: Option<u8>, completion: u32)
    requires { length registers.old ≡ 256 }
    ensures { registers.new ≡ written_by registers.old register completion }
{
    if let Some(register) = register {
        registers[usize::from(register)] = completion;
    }
}

/// The `k`-th back of so many stores.
fn store_back(stores: &[StoreRow], stored: u32, k: u32) -> StoreRow
    requires size { length stores.now ≡ 256 }
    requires few { stored ≤ 110000 }
    requires back { k ≤ 256 }
    ensures { result ≡ get_or stores.now (ring_place stored k) (store_row_of None) }
{
    stores[((stored + 256 - k) % 256) as usize]
}

fn is_given(found: Option<u32>, word: u32) -> bool
    ensures { result ≡ is_given found word }
{
    match found {
        Some(found) => found == word,
        None => false,
    }
}

/// The completion of the latest of so many stores to a word, if that isn't retired by a cycle. All
/// before the 256 latest are.
fn in_flight(stores: &[StoreRow], stored: u32, word: u32, dispatch: u32) -> Option<u32>
    requires size { length stores.now ≡ 256 }
    requires few { stored ≤ 110000 }
    requires small { (k : ℕ) → IsSmallStore (get_or stores.now k (store_row_of None)) }
    ensures value { (list : List TimedValue) → IsRing store_row_of list stores.now → Falls list → stored ≡ length list
        → time_of (λ x. x.retirement) (back list 256) ≤ dispatch
        → result ≡ completion_in (late dispatch (find (λ x. is_given x.mark.word word) list)) }
    ensures bound { IfSome result (λ completion. completion ≤ 2 ^ 29) }
{
    for k in 1..257 {
        let store = store_back(stores, stored, k);
        if store.retirement <= dispatch {
            return None;
        }
        if is_given(store.word, word) {
            return Some(store.completion);
        }
    }
    None
}

/// When the instruction behind this may be fetched.
fn next_fetch(w: &Widths, mark: &Marked, cycles: &Cycles) -> u32
    requires widths { AreWidths w.now }
    requires small { (cycles.now.fetch ≤ 2 ^ 31) × (cycles.now.completion ≤ 2 ^ 31) × (cycles.now.retirement ≤ 2 ^ 31) }
    ensures { result ≡ next_fetch w.now (timed_with mark.now cycles.now) }
{
    let after_fetch = if mark.transferred {
        cycles.fetch + 1
    } else {
        cycles.fetch
    };
    let after_wrong = if mark.mispredicted {
        cycles.completion + w.penalty
    } else {
        0
    };
    let after_call = if is_ecall(mark.class) {
        cycles.retirement + 1
    } else {
        0
    };
    after_fetch.max(after_wrong.max(after_call))
}

/// The cycles from issue to completion, where the store that a load reads from completes at
/// `source` if it isn't retired when the load is dispatched.
fn elapse_of(w: &Widths, mark: &Marked, source: Option<u32>) -> u32
    requires widths { AreWidths w.now }
    requires mark { IsMarked mark.now }
    ensures value { result ≡ (if is_some source then w.now.forward else mark.now.latency) }
    ensures bound { result ≤ 1216 }
{
    if source.is_some() {
        w.forward
    } else {
        mark.latency
    }
}

/// The mark, whose class is known.
#[inline(always)]
fn of_class(mark: &Marked, class: Class) -> Marked
    requires { mark.now.class ≡ class }
    ensures { result ≡ mark.now }
{
    Marked { class, ..*mark }
}

impl Flight {
    fn fetch_of(&self, w: &Widths, mark: &Marked) -> u32
        requires widths { AreWidths w.now }
        requires mark { IsMarked mark.now }
        requires flight { IsFlight w.now self.now }
        ensures value { (earlier : List TimedValue) → IsKept w.now earlier self.now → result ≡ fetch_of w.now earlier mark.now }
        ensures bound { result ≤ 2 ^ 29 + 1264 }
    {
        let room = time_back(&self.dispatches, self.count, w.queue);
        let width = time_back(&self.fetches, self.count, w.fetch);
        self.next.max(room.max(width)) + mark.stall
    }

    /// When the load or store is retired whose place in the queue a further one takes.
    fn access_retirement(&self, w: &Widths, class: Class) -> u32
        requires widths { AreWidths w.now }
        requires flight { IsFlight w.now self.now }
        ensures value { result ≡ (if accesses_memory class
            then time_back self.now.accesses self.now.accessed w.now.lsq else 0) }
        ensures bound { result ≤ 2 ^ 29 + 1 }
    {
        if accesses_memory(class) {
            time_back(&self.accesses, self.accessed, w.lsq)
        } else {
            0
        }
    }

    /// When all before an ECALL are retired.
    fn call_retirement(&self, class: Class) -> u32
        requires { self.now.retired ≤ 2 ^ 29 }
        ensures value { result ≡ (if is_ecall class then self.now.retired else 0) }
        ensures bound { result ≤ 2 ^ 29 }
    {
        if is_ecall(class) { self.retired } else { 0 }
    }

    fn dispatch_of(&self, w: &Widths, mark: &Marked, fetch: u32) -> u32
        requires widths { AreWidths w.now }
        requires flight { IsFlight w.now self.now }
        requires fetch { fetch ≤ 2 ^ 29 + 1264 }
        ensures value { (earlier : List TimedValue) → IsKept w.now earlier self.now → result ≡ dispatch_of w.now earlier mark.now fetch }
        ensures bound { result ≤ 2 ^ 29 + 1265 }
    {
        let width = time_back(&self.dispatches, self.count, w.dispatch) + 1;
        let unit = time_back(&self.retirements, self.count, w.ruu);
        let memory = self.access_retirement(w, mark.class);
        let call = self.call_retirement(mark.class);
        let in_order = (fetch + 1).max(self.dispatched.max(width));
        in_order.max(unit.max(memory.max(call)))
    }

    /// The completion of the store that a load reads from, if that isn't retired when the load is
    /// dispatched.
    fn source_of(&self, w: &Widths, mark: &Marked, dispatch: u32) -> Option<u32>
        requires widths { AreWidths w.now }
        requires flight { IsFlight w.now self.now }
        ensures value { (earlier : List TimedValue) → IsKept w.now earlier self.now
            → time_of (λ x. x.retirement) (back earlier w.now.ruu) ≤ dispatch
            → result ≡ completion_in (late dispatch (source_of earlier mark.now)) }
        ensures bound { IfSome result (λ completion. completion ≤ 2 ^ 29) }
    {
        if !is_load(mark.class) {
            return None;
        }
        let Some(word) = mark.word else { return None };
        in_flight(&self.stores, self.stored, word, dispatch)
    }

    fn ready_of(&self, w: &Widths, mark: &Marked, dispatch: u32, source: Option<u32>) -> u32
        requires flight { IsFlight w.now self.now }
        requires dispatch { dispatch ≤ 2 ^ 29 + 1265 }
        requires source { IfSome source (λ completion. completion ≤ 2 ^ 29) }
        ensures value { (earlier : List TimedValue) → IsKept w.now earlier self.now
            → source ≡ completion_in (late dispatch (source_of earlier mark.now))
            → result ≡ ready_of earlier mark.now dispatch }
        ensures bound { result ≤ 2 ^ 29 + 1266 }
    {
        let first = written(&self.registers, mark.first);
        let second = written(&self.registers, mark.second);
        let store = source.unwrap_or(0);
        (dispatch + 1).max(store).max(first.max(second))
    }

    fn retirement_of(&self, w: &Widths, completion: u32) -> u32
        requires widths { AreWidths w.now }
        requires flight { IsFlight w.now self.now }
        requires completion { completion ≤ 2 ^ 30 }
        ensures value { (earlier : List TimedValue) → IsKept w.now earlier self.now → result ≡ retirement_of w.now earlier completion }
        ensures bound { result ≤ 2 ^ 30 + 1 }
    {
        let width = time_back(&self.retirements, self.count, w.retire) + 1;
        (completion + 1).max(self.retired.max(width))
    }

    /// The times of an instruction that follows.
    #[inline(always)]
    fn cycles_of(&self, w: &Widths, mark: &Marked) -> Cycles
        requires widths { AreWidths w.now }
        requires mark { IsMarked mark.now }
        requires flight { IsFlight w.now self.now }
        ensures value { (earlier : List TimedValue) → IsKept w.now earlier self.now
            → timed_with mark.now result ≡ timed_of w.now earlier mark.now }
        ensures room { has_room w.now self.now.slots.items self.now.start mark.now.class result.issue ≡ true }
        ensures bound { (result.fetch ≤ 2 ^ 31) × (result.issue ≤ 2 ^ 31) × (result.completion ≤ 2 ^ 31) × (result.retirement ≤ 2 ^ 31) }
    {
        let fetch = self.fetch_of(w, mark);
        let dispatch = self.dispatch_of(w, mark, fetch);
        let source = self.source_of(w, mark, dispatch);
        let ready = self.ready_of(w, mark, dispatch, source);
        let issue = first_room(w, &self.slots, self.start, mark.class, ready, self.retired);
        let completion = issue + elapse_of(w, mark, source);
        Cycles {
            fetch,
            dispatch,
            issue,
            completion,
            retirement: self.retirement_of(w, completion),
        }
    }

    fn note_access(&mut self, mark: &Marked, cycles: &Cycles)
        requires size { length self.old.accesses ≡ 256 }
        requires few { self.old.accessed ≤ 110000 }
        ensures accesses { self.new.accesses ≡ (if accesses_memory mark.now.class
            then slice_set self.old.accesses (self.old.accessed % 256) cycles.now.retirement else self.old.accesses) }
        ensures accessed { self.new.accessed ≡ (if accesses_memory mark.now.class then self.old.accessed + 1 else self.old.accessed) }
        ensures same { self.new ≡ record self.old { accesses = self.new.accesses; accessed = self.new.accessed } }
    {
        if accesses_memory(mark.class) {
            self.accesses[(self.accessed % 256) as usize] = cycles.retirement;
            self.accessed += 1;
        }
    }

    fn note_store(&mut self, mark: &Marked, cycles: &Cycles)
        requires size { length self.old.stores ≡ 256 }
        requires few { self.old.stored ≤ 110000 }
        ensures stores { self.new.stores ≡ (if is_store mark.now.class
            then slice_set self.old.stores (self.old.stored % 256) (store_row_of (Some (timed_with mark.now cycles.now)))
            else self.old.stores) }
        ensures stored { self.new.stored ≡ (if is_store mark.now.class then self.old.stored + 1 else self.old.stored) }
        ensures same { self.new ≡ record self.old { stores = self.new.stores; stored = self.new.stored } }
    {
        if is_store(mark.class) {
            self.stores[(self.stored % 256) as usize] = StoreRow {
                word: mark.word,
                completion: cycles.completion,
                retirement: cycles.retirement,
            };
            self.stored += 1;
        }
    }

    #[inline(always)]
    fn note(&mut self, w: &Widths, mark: &Marked, cycles: &Cycles)
        requires widths { AreWidths w.now }
        requires flight { IsFlight w.now self.old }
        requires room { has_room w.now self.old.slots.items self.old.start mark.now.class cycles.now.issue ≡ true }
        requires bound { (cycles.now.fetch ≤ 2 ^ 31) × (cycles.now.issue ≤ 2 ^ 31) × (cycles.now.completion ≤ 2 ^ 31) × (cycles.now.retirement ≤ 2 ^ 31) }
        ensures { IsNoted w.now self.old self.new (timed_with mark.now cycles.now) }
    {
        issue_in(w, &mut self.slots, self.start, mark.class, cycles.issue);
        note_writer(&mut self.registers, mark.dest, cycles.completion);
        self.note_store(mark, cycles);
        self.note_access(mark, cycles);
        let place = (self.count % 256) as usize;
        self.fetches[place] = cycles.fetch + 1;
        self.dispatches[place] = cycles.dispatch;
        self.retirements[place] = cycles.retirement;
        self.count += 1;
        self.next = next_fetch(w, mark, cycles);
        self.dispatched = cycles.dispatch;
        self.retired = cycles.retirement;
    }

    /// Times one more instruction, whatever its class.
    #[inline(always)]
    fn push_one(&mut self, w: &Widths, mark: &Marked) -> Cycles
        requires widths { AreWidths w.now }
        requires mark { IsMarked mark.now }
        requires flight { IsFlight w.now self.old }
        ensures times { (earlier : List TimedValue) → IsKept w.now earlier self.old → timed_with mark.now result ≡ timed_of w.now earlier mark.now }
        ensures kept { (earlier : List TimedValue) → IsKept w.now earlier self.old → length earlier < 110000
            → IsKept w.now (timed_of w.now earlier mark.now ∷ earlier) self.new }
    {
        let cycles = self.cycles_of(w, mark);
        self.note(w, mark, &cycles);
        cycles
    }

    /// Times one more instruction. Each class has the step to itself, so that what the class settles is
    /// settled when the program is built.
    #[inline(always)]
    pub(crate) fn push(&mut self, w: &Widths, mark: &Marked) -> Cycles
        requires widths { AreWidths w.now }
        requires mark { IsMarked mark.now }
        requires flight { IsFlight w.now self.old }
        ensures times { (earlier : List TimedValue) → IsKept w.now earlier self.old → timed_with mark.now result ≡ timed_of w.now earlier mark.now }
        ensures kept { (earlier : List TimedValue) → IsKept w.now earlier self.old → length earlier < 110000
            → IsKept w.now (timed_of w.now earlier mark.now ∷ earlier) self.new }
    {
        match mark.class {
            Class::Alu => self.push_one(w, &of_class(mark, Class::Alu)),
            Class::Mul => self.push_one(w, &of_class(mark, Class::Mul)),
            Class::Div => self.push_one(w, &of_class(mark, Class::Div)),
            Class::Load => self.push_one(w, &of_class(mark, Class::Load)),
            Class::Store => self.push_one(w, &of_class(mark, Class::Store)),
            Class::Control => self.push_one(w, &of_class(mark, Class::Control)),
            Class::Ecall => self.push_one(w, &of_class(mark, Class::Ecall)),
        }
    }

    /// Times the instructions of a trace from one place up to another.
    pub(crate) fn run<T: Trace>(&mut self, w: &Widths, trace: &T, from: usize, to: usize)
        requires widths { AreWidths w.now }
        requires few { length (T.items trace.now) ≤ 110000 }
        requires marks { All IsMarked (T.items trace.now) }
        requires places { (from ≤ to) × (to ≤ length (T.items trace.now)) }
        requires kept { IsKept w.now (times w.now (take from (T.items trace.now))) self.old }
        ensures { IsKept w.now (times w.now (take to (T.items trace.now))) self.new }
    {
        for i in from..to {
            self.push(w, &trace.at(i));
        }
    }

    /// Empties the rings.
    fn clear(&mut self)
        ensures cleared { IsCleared self.new }
        ensures slots { self.new.slots ≡ self.old.slots }
        ensures start { self.new.start ≡ self.old.start }
    {
        self.fetches = [0; 256];
        self.dispatches = [0; 256];
        self.retirements = [0; 256];
        self.accesses = [0; 256];
        self.stores = [NO_STORE; 256];
        self.registers = [0; 256];
        self.count = 0;
        self.accessed = 0;
        self.stored = 0;
        self.next = 0;
        self.dispatched = 0;
        self.retired = 0;
    }

    /// Forgets the trace.
    pub(crate) fn restart(&mut self, w: &Widths)
        requires widths { AreWidths w.now }
        requires flight { IsFlight w.now self.old }
        ensures { IsKept w.now [] self.new }
    {
        self.start = next_start(&mut self.slots, self.start + self.retired);
        self.clear();
    }

    /// No instructions, over a table in which nothing issues.
    fn over(slots: Vec<Slot>) -> Flight
        ensures cleared { IsCleared result }
        ensures slots { result.slots ≡ slots }
        ensures start { result.start ≡ 0 }
    {
        Flight {
            fetches: [0; 256],
            dispatches: [0; 256],
            retirements: [0; 256],
            accesses: [0; 256],
            stores: [NO_STORE; 256],
            registers: [0; 256],
            count: 0,
            accessed: 0,
            stored: 0,
            next: 0,
            dispatched: 0,
            retired: 0,
            slots,
            start: 0,
        }
    }

    pub(crate) fn new(alloc: Global, w: &Widths) -> Result<Flight, NoMemory>
        requires { AreWidths w.now }
        ensures { IfOk result (λ flight. IsKept w.now [] flight) }
    {
        Ok(Flight::over(table(alloc, w.ruu)?))
    }
}
