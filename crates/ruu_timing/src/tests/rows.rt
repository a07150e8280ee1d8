ghost use Rattle.std.specs.Prelude.{◌≡◌, ◌+◌, ◌^◌, ◌<◌, ◌≤◌, List, [], ◌∷◌, length, All, IfOk, IfSome, option_copied};
ghost use Rattle.std.specs.List.{find, slice_get};
ghost use Rattle.hierarchy.specs.Widths.{AreWidths};
ghost use Rattle.hierarchy.specs.Marked.{IsMarked};
ghost use Rattle.ruu_timing.specs.Timed.{IsWithin, AreTimed};
ghost use Rattle.ruu_timing.specs.Times.{back, time_of, next_fetch, fetch_of, dispatch_of, memory_ones, writes, stores_to, source_of, register_time, ready_of, elapse_of, issue_of, retirement_of, timed_of, times};

use crate::class::{accesses_memory, is_ecall, is_load};
use crate::tests::earlier::{access_before, back, first_slot, last_store, last_writer};
use crate::timed::Timed;
use crate::trace::Trace;
use hierarchy::{Marked, Widths};
use rv_isa::Class;
use smarts_base::NoMemory;
use std::alloc::Global;
use std::marker::Model;

/// The most instructions of a trace.
const MOST: usize = 110_000;

/// When the instruction behind this may be fetched.
fn next_fetch(w: &Widths, x: &Timed) -> u64
    requires widths { AreWidths w.now }
    requires small { (x.now.fetch ≤ 2 ^ 41) × (x.now.completion ≤ 2 ^ 41) × (x.now.retirement ≤ 2 ^ 41) }
    ensures value { result ≡ next_fetch w.now x.now }
    ensures bound { IsWithin (2 ^ 29) x.now → result ≤ 2 ^ 33 }
{
    let after_fetch = if x.mark.transferred {
        x.fetch + 1
    } else {
        x.fetch
    };
    let after_wrong = if x.mark.mispredicted {
        x.completion + u64::from(w.penalty)
    } else {
        0
    };
    let after_call = if is_ecall(x.mark.class) {
        x.retirement + 1
    } else {
        0
    };
    after_fetch.max(after_wrong.max(after_call))
}

/// The instructions of a trace that are timed so far.
#[derive(Debug, Drop)]
pub(crate) struct Rows {
    timed: Vec<Timed>,
}

impl Model for Rows {
    ghost use Rattle.std.specs.Prelude.{◌≤◌, List, vec_capacity, reverse};
    ghost use Rattle.ruu_timing.specs.declared.timed.Timed.{Timed as TimedValue};
    ghost use Rattle.ruu_timing.specs.Timed.{AreTimed};

    ghost Value = { List TimedValue };

    ghost view = { λ rows. reverse rows.timed.items };

    ghost invariant = { λ rows. (110000 ≤ vec_capacity rows.timed) × AreTimed (reverse rows.timed.items) };
}

impl Rows {
    pub(crate) fn new(alloc: Global) -> Result<Rows, NoMemory>
        ensures { IfOk result (λ rows. rows ≡ []) }
    {
        Ok(Rows {
            timed: Vec::with_capacity(alloc, MOST)?,
        })
    }

    fn clear(&mut self)
        ensures { self.new ≡ [] }
    {
        self.timed.clear();
    }

    /// The instruction that is `k` before the next.
    pub(crate) fn back(&self, k: usize) -> Option<&Timed>
        requires { 1 ≤ k }
        ensures value { option_copied result ≡ back self.now k }
        ensures within { IfSome result (λ x. IsWithin (2 ^ 29) x.now) }
        ensures timed { AreTimed self.now }
    {
        back(&self.timed, k)
    }

    fn dispatch_back(&self, k: usize) -> u64
        requires { 1 ≤ k }
        ensures value { result ≡ time_of (λ x. x.dispatch) (back self.now k) }
        ensures bound { result ≤ 2 ^ 33 }
    {
        match self.back(k) {
            Some(x) => x.dispatch,
            None => 0,
        }
    }

    pub(crate) fn retirement_back(&self, k: usize) -> u64
        requires { 1 ≤ k }
        ensures value { result ≡ time_of (λ x. x.retirement) (back self.now k) }
        ensures bound { result ≤ 2 ^ 33 }
        ensures timed { AreTimed self.now }
    {
        match self.back(k) {
            Some(x) => x.retirement,
            None => 0,
        }
    }

    #[tactic(auto, unfolding(crate::specs::Times::fetch_of))]
    fn fetch_of(&self, w: &Widths, mark: &Marked) -> u64
        requires widths { AreWidths w.now }
        requires mark { IsMarked mark.now }
        ensures value { result ≡ fetch_of w.now self.now mark.now }
        ensures bound { result ≤ 2 ^ 34 }
    {
        let next = match self.back(1) {
            Some(x) => next_fetch(w, x),
            None => 0,
        };
        let room = self.dispatch_back(w.queue as usize);
        let width = match self.back(w.fetch as usize) {
            Some(x) => x.fetch + 1,
            None => 0,
        };
        next.max(room.max(width)) + u64::from(mark.stall)
    }

    fn access_before(&self, n: usize) -> Option<&Timed>
        ensures value { option_copied result ≡ slice_get (memory_ones self.now) n }
        ensures within { IfSome result (λ x. IsWithin (2 ^ 29) x.now) }
    {
        access_before(&self.timed, n)
    }

    /// When the load or store is retired whose place in the queue of `lsq` a further one takes.
    fn access_back(&self, lsq: u32) -> u64
        requires { 1 ≤ lsq }
        ensures value { result ≡ time_of (λ x. x.retirement) (back (memory_ones self.now) lsq) }
        ensures bound { result ≤ 2 ^ 33 }
    {
        match self.access_before((lsq - 1) as usize) {
            Some(x) => x.retirement,
            None => 0,
        }
    }

    #[tactic(auto, unfolding(crate::specs::Times::dispatch_of))]
    fn dispatch_of(&self, w: &Widths, mark: &Marked, fetch: u64) -> u64
        requires widths { AreWidths w.now }
        requires fetch { fetch ≤ 2 ^ 34 }
        ensures value { result ≡ dispatch_of w.now self.now mark.now fetch }
        ensures bound { result ≤ 2 ^ 35 }
    {
        let width = match self.back(w.dispatch as usize) {
            Some(x) => x.dispatch + 1,
            None => 0,
        };
        let in_order = (fetch + 1).max(self.dispatch_back(1).max(width));
        let memory = if accesses_memory(mark.class) {
            self.access_back(w.lsq)
        } else {
            0
        };
        let call = if is_ecall(mark.class) {
            self.retirement_back(1)
        } else {
            0
        };
        in_order.max(self.retirement_back(w.ruu as usize).max(memory.max(call)))
    }

    fn last_writer(&self, register: u8) -> Option<&Timed>
        ensures value { option_copied result ≡ find (λ x. writes register x) self.now }
        ensures within { IfSome result (λ x. IsWithin (2 ^ 29) x.now) }
    {
        last_writer(&self.timed, register)
    }

    fn last_store(&self, word: u32) -> Option<&Timed>
        ensures value { option_copied result ≡ find (λ x. stores_to word x) self.now }
        ensures within { IfSome result (λ x. IsWithin (2 ^ 29) x.now) }
    {
        last_store(&self.timed, word)
    }

    fn register_time(&self, register: Option<u8>) -> u64
        ensures value { result ≡ register_time self.now register }
        ensures bound { result ≤ 2 ^ 33 }
    {
        let Some(register) = register else { return 0 };
        match self.last_writer(register) {
            Some(x) => x.completion,
            None => 0,
        }
    }

    /// The store that a load reads from.
    fn source_of(&self, mark: &Marked) -> Option<&Timed>
        ensures value { option_copied result ≡ source_of self.now mark.now }
        ensures within { IfSome result (λ x. IsWithin (2 ^ 29) x.now) }
    {
        if !is_load(mark.class) {
            return None;
        }
        self.last_store(mark.word?)
    }

    #[tactic(auto, unfolding(crate::specs::Times::ready_of))]
    fn ready_of(&self, mark: &Marked, dispatch: u64) -> u64
        requires { dispatch ≤ 2 ^ 35 }
        ensures value { result ≡ ready_of self.now mark.now dispatch }
        ensures bound { result ≤ 2 ^ 36 }
    {
        let memory = match self.source_of(mark) {
            Some(store) => store.completion,
            None => 0,
        };
        let registers = self
            .register_time(mark.first)
            .max(self.register_time(mark.second));
        (dispatch + 1).max(memory).max(registers)
    }

    #[tactic(auto, unfolding(crate::specs::Times::elapse_of))]
    fn elapse_of(&self, w: &Widths, mark: &Marked, dispatch: u64) -> u64
        requires widths { AreWidths w.now }
        requires mark { IsMarked mark.now }
        ensures value { result ≡ elapse_of w.now self.now mark.now dispatch }
        ensures bound { result ≤ 2 ^ 12 }
    {
        let retirement = match self.source_of(mark) {
            Some(store) => store.retirement,
            None => 0,
        };
        u64::from(if dispatch < retirement {
            w.forward
        } else {
            mark.latency
        })
    }

    #[tactic(auto, unfolding(crate::specs::Times::retirement_of))]
    fn retirement_of(&self, w: &Widths, completion: u64) -> u64
        requires widths { AreWidths w.now }
        requires completion { completion ≤ 2 ^ 40 }
        ensures { result ≡ retirement_of w.now self.now completion }
    {
        let width = match self.back(w.retire as usize) {
            Some(x) => x.retirement + 1,
            None => 0,
        };
        (completion + 1).max(self.retirement_back(1).max(width))
    }

    fn issue_of(&self, w: &Widths, class: Class, ready: u64) -> u64
        requires widths { AreWidths w.now }
        requires ready { ready ≤ 2 ^ 36 }
        ensures value { result ≡ issue_of w.now self.now class ready }
        ensures bound { result ≤ 2 ^ 37 }
    {
        first_slot(w, &self.timed, class, ready)
    }

    /// The times of an instruction that follows.
    #[tactic(auto, unfolding(crate::specs::Times::timed_of))]
    fn timed_of(&self, w: &Widths, mark: Marked) -> Timed
        requires widths { AreWidths w.now }
        requires mark { IsMarked mark }
        ensures { result ≡ timed_of w.now self.now mark }
    {
        let fetch = self.fetch_of(w, &mark);
        let dispatch = self.dispatch_of(w, &mark, fetch);
        let issue = self.issue_of(w, mark.class, self.ready_of(&mark, dispatch));
        let completion = issue + self.elapse_of(w, &mark, dispatch);
        Timed {
            mark,
            fetch,
            dispatch,
            issue,
            completion,
            retirement: self.retirement_of(w, completion),
        }
    }

    /// Times one more instruction.
    fn push(&mut self, w: &Widths, mark: Marked)
        requires widths { AreWidths w.now }
        requires mark { IsMarked mark }
        requires room { length self.old < 110000 }
        ensures { self.new ≡ timed_of w.now self.old mark ∷ self.old }
    {
        let timed = self.timed_of(w, mark);
        self.timed.push_reserved(timed);
    }

    /// Times a whole trace, whatever was there before.
    pub(crate) fn time_all<T: Trace>(&mut self, w: &Widths, trace: &T)
        requires widths { AreWidths w.now }
        requires few { length (T.items trace.now) ≤ 110000 }
        requires marks { All IsMarked (T.items trace.now) }
        ensures { self.new ≡ times w.now (T.items trace.now) }
    {
        self.clear();
        for i in 0..trace.len() {
            self.push(w, trace.at(i));
        }
    }
}
