ghost use Rattle.std.specs.Prelude.{◌≡◌, ◌%◌, ◌+◌, ◌++◌, ◌∷◌, [], ℕ, List, None, IfOk};
ghost use Rattle.std.specs.Borrow.{sem};
ghost use Rattle.lru_plain.specs.Shape.{Shape};
ghost use Rattle.predictor.specs.declared.kind.PredictorKind.{PredictorKind};
ghost use Rattle.rv_exec.specs.declared.event.Event.{Event};
ghost use Rattle.rv_exec.specs.Event.{IsWellFormed};
ghost use Rattle.rv_exec.specs.Machine as machine;
ghost use Rattle.rv_exec.specs.Machine.{Went};
ghost use Rattle.rv_exec.specs.Next.{next};
ghost use Rattle.hierarchy.specs.declared.marked.Marked.{Marked};
ghost use Rattle.hierarchy.specs.declared.places.Places.{Places};
ghost use Rattle.hierarchy.specs.declared.state.State.{State};
ghost use Rattle.hierarchy.specs.Config.{IsConfig};
ghost use Rattle.hierarchy.specs.Widths.{AreLatencies};
ghost use Rattle.hierarchy.specs.Marked.{IsMarked};
ghost use Rattle.hierarchy.specs.State.{mark_of, after_event, is_taken};
ghost use Rattle.hierarchy.specs.Lending.{LendsCaches, LendsPredictor};
ghost use Rattle.hierarchy.specs.Trace.{IsAnnotated};
ghost use Rattle.hierarchy.specs.Warming.{warmed};

use crate::caches::Caches;
use crate::config::Config;
use crate::lookup::latency_of;
use crate::marked::Marked;
use crate::places::Places;
use crate::widths::Latencies;
use lru_plain::PlainCache;
use predictor::Predictor;
use rv_exec::{Event, Flow};
use smarts_base::NoMemory;
use std::alloc::Global;

/// The caches, the TLBs and the predictor of a processor. Only `new` takes memory.
#[derive(Debug, Drop)]
pub struct State {
    caches: Caches,
    predictor: Predictor,
}

fn is_taken(control: Flow) -> bool
    ensures { result ≡ is_taken control }
{
    match control {
        Flow::Straight => false,
        Flow::Branch { taken } => taken,
        Flow::Jal { .. } | Flow::Jalr { .. } => true,
    }
}

impl State {
    /// Empty caches and a predictor that has seen nothing.
    pub fn new(alloc: Global, config: &Config) -> Result<State, NoMemory>
        requires { IsConfig config.now }
        ensures { IfOk result (λ state. state ≡ warmed config.now.places config.now.kind []) }
    {
        let places = &config.places;
        Ok(State {
            caches: Caches::new(Places {
                l1i: PlainCache::new(alloc, places.l1i)?,
                l1d: PlainCache::new(alloc, places.l1d)?,
                l2: PlainCache::new(alloc, places.l2)?,
                itlb: PlainCache::new(alloc, places.itlb)?,
                dtlb: PlainCache::new(alloc, places.dtlb)?,
            }),
            predictor: Predictor::new(alloc, config.kind)?,
        })
    }

    /// The caches and the TLBs.
    pub fn caches(&mut self) -> &mut Places<PlainCache>
        ensures* writes_back { sem 𝓛 (LendsCaches self.entry result) }
        ensures value { result.now ≡ self.old.caches }
    {
        self.caches.lend()
    }

    pub fn predictor(&mut self) -> &mut Predictor
        ensures* writes_back { sem 𝓛 (LendsPredictor self.entry result) }
        ensures value { result.now ≡ self.old.predictor }
    {
        &mut self.predictor
    }

    /// Makes the references of one instruction and learns from it. Answers its marks.
    // Inlined, as `annotate` is: neither the event nor the marks need go through memory.
    #[inline(always)]
    #[tactic(auto, unfolding(crate::specs::State::mark_of, crate::specs::State::after_event))]
    fn mark(&mut self, latencies: &Latencies, event: &Event) -> Marked
        requires latencies { AreLatencies latencies.now }
        requires pc { event.now.pc % 4 ≡ 0 }
        requires next { event.now.next % 4 ≡ 0 }
        ensures mark { result ≡ mark_of latencies.now self.old event.now }
        ensures state { self.new ≡ after_event self.old event.now }
        ensures marked { IsWellFormed event.now → IsMarked result }
    {
        let stall = self.caches.fetch(latencies, event.pc);
        let referred = self.caches.refer(event.access);
        Marked {
            class: event.class,
            first: event.first,
            second: event.second,
            dest: event.dest,
            word: event.access.map(|access| access.addr / 4),
            stall,
            latency: latency_of(latencies, event.class, referred),
            mispredicted: self.predictor.observe(event),
            transferred: is_taken(event.control),
        }
    }

    /// The marks of an instruction. To be called of one after the other in program order: each makes
    /// its references and is learnt from here.
    #[inline(always)]
    pub fn annotate(&mut self, config: &Config, event: &Event) -> Marked
        requires config { IsConfig config.now }
        requires pc { event.now.pc % 4 ≡ 0 }
        requires next { event.now.next % 4 ≡ 0 }
        ensures mark { result ≡ mark_of config.now.latencies self.old event.now }
        ensures state { self.new ≡ after_event self.old event.now }
        ensures marked { IsWellFormed event.now → IsMarked result }

        // After the instructions of a list, and then this one, it is warmed by the longer list.
        ensures warmed { (g : Places Shape) (kind : PredictorKind) (events : List Event)
            → self.old ≡ warmed g kind events → self.new ≡ warmed g kind (events ++ event.now ∷ []) }

        // Behind the first n instructions of a run, where this one comes next, its marks are those that
        // come next in the run's trace.
        ensures annotated { (first : State) (start now after : machine.State) (n : ℕ) (marks : List Marked)
            → IsAnnotated config.now.latencies first start n marks now self.old
            → now.exit ≡ None → next now ≡ Went event.now after
            → IsAnnotated config.now.latencies first start (n + 1) (marks ++ result ∷ []) after self.new }
    {
        self.mark(&config.latencies, event)
    }
}
