ghost use Rattle.std.specs.Prelude.{◌≡◌, ◌≤◌, ◌<◌, ◌+◌, ◌^◌, ◌++◌, ◌∷◌, [], ℕ, List, length, map, All, IfOk};
ghost use Rattle.lru_plain.specs.Shape.{Shape};
ghost use Rattle.hierarchy.specs.declared.places.Places.{Places};
ghost use Rattle.live_points.specs.declared.header.Records.{Records};
ghost use Rattle.live_points.specs.Points.{records_of};
ghost use Rattle.predictor.specs.Kind.{IsKind};
ghost use Rattle.predictor.specs.Rules.{observed, trained};
ghost use Rattle.recency_record.specs.Recency.{IsRecency};
ghost use Rattle.rv_exec.specs.declared.event.Event.{Event};
ghost use Rattle.rv_exec.specs.Event.{IsWellFormed};
ghost use Rattle.rv_exec.specs.References.{data_of};
ghost use Rattle.warming.specs.Learning.{AreEarly, AreRecencies, AreUsable, IsNumbered, learnt_of};

use crate::ranges::{numbers_fit, pairs_fit};
use hierarchy::Places;
use live_points::{Images, Kinds, Records};
use lru_plain::Geometry;
use predictor::{Predictor, PredictorImage};
use recency_record::{RecencyLists, Snapshot};
use rv_exec::{DataRef, Event};
use smarts_base::NoMemory;
use std::alloc::Global;
use std::marker::Model;

/// The records of all caches and TLBs, and a predictor of each kind, which learn of a run instruction by
/// instruction. Only `new` and what hands out copies take memory.
#[derive(Debug, Drop)]
pub struct Learner {
    places: Places<RecencyLists>,
    predictors: Vec<Predictor>,
}

impl Model for Learner {
    ghost use Rattle.warming.specs.Learning.{Learnt};

    ghost Value = { Learnt };

    ghost use Rattle.warming.specs.LearningView.{learnt_in};

    ghost view = { learnt_in };
}

/// Records of no reference.
fn lists_of(alloc: Global, places: &Places<Geometry>) -> Result<Places<RecencyLists>, NoMemory>
    ensures { IfOk result (λ lists. lists ≡ records_of places.now [] [] []) }
{
    Ok(Places {
        l1i: RecencyLists::new(alloc, places.l1i)?,
        l1d: RecencyLists::new(alloc, places.l1d)?,
        l2: RecencyLists::new(alloc, places.l2)?,
        itlb: RecencyLists::new(alloc, places.itlb)?,
        dtlb: RecencyLists::new(alloc, places.dtlb)?,
    })
}

/// A predictor of each kind that has seen nothing.
fn predictors_of(alloc: Global, kinds: &Kinds) -> Result<Vec<Predictor>, NoMemory>
    requires { All IsKind kinds.now }
    ensures { IfOk result (λ predictors. predictors.items ≡ map (λ kind. trained kind []) kinds.now) }
{
    let list = kinds.as_slice();
    let mut predictors = Vec::with_capacity(alloc, list.len())?;
    for kind in list {
        predictors.push(Predictor::new(alloc, *kind)?)?;
    }
    Ok(predictors)
}

/// Refers to the instruction at an address.
#[inline]
fn fetch(places: &mut Places<RecencyLists>, pc: u32)
    requires { AreEarly places.old }
    ensures records { (g : Places Shape) (fs ds bs : List ℕ) → places.old ≡ records_of g fs ds bs
        → places.new ≡ records_of g (fs ++ pc ∷ []) ds (bs ++ pc ∷ []) }
    ensures data { (places.new.l1d ≡ places.old.l1d) × (places.new.dtlb ≡ places.old.dtlb) }
    ensures time { places.new.l2.time ≡ places.old.l2.time + 1 }
{
    places.itlb.refer(pc);
    places.l1i.refer(pc);
    places.l2.refer(pc);
}

/// Makes the reference to data, if there is one.
#[inline]
fn refer(places: &mut Places<RecencyLists>, access: Option<DataRef>)
    requires l1d { places.old.l1d.time < 2 ^ 63 }
    requires l2 { places.old.l2.time < 2 ^ 63 }
    requires dtlb { places.old.dtlb.time < 2 ^ 63 }
    ensures { (g : Places Shape) (fs ds bs : List ℕ) → places.old ≡ records_of g fs ds bs
        → places.new ≡ records_of g fs (ds ++ data_of access) (bs ++ data_of access) }
{
    if let Some(access) = access {
        places.dtlb.refer(access.addr);
        places.l1d.refer(access.addr);
        places.l2.refer(access.addr);
    }
}

/// Shows an instruction to each predictor.
#[inline]
fn observe(predictors: &mut [Predictor], event: &Event)
    requires { IsWellFormed event.now }
    ensures { predictors.new ≡ map (λ tables. observed tables event.now) predictors.old }
{
    for predictor in predictors.iter_mut() {
        predictor.observe(event);
    }
}

#[inline]
fn observe_each(predictors: &mut Vec<Predictor>, event: &Event)
    requires { IsWellFormed event.now }
    ensures { predictors.new.items ≡ map (λ tables. observed tables event.now) predictors.old.items }
{
    observe(predictors.as_mut_slice(), event);
}

/// What a record tells.
fn snapshot(lists: &RecencyLists) -> Result<Snapshot, NoMemory>
    ensures value { IfOk result (λ snapshot. snapshot ≡ lists.now) }
    ensures recency { IsRecency lists.now }
{
    let _geometry = lists.geometry();
    lists.snapshot()
}

/// What a predictor has learnt.
fn image(predictor: &Predictor) -> Result<PredictorImage, NoMemory>
    ensures value { IfOk result (λ image. image ≡ predictor.now) }
    ensures image { IfOk result IsNumbered }
{
    let image = predictor.image()?;
    pairs_fit(image.targets());
    numbers_fit(image.stack());
    Ok(image)
}

impl Learner {
    /// Nothing was learnt yet.
    pub fn new(alloc: Global, records: &Records) -> Result<Learner, NoMemory>
        requires { AreUsable records.now }
        ensures { IfOk result (λ learner. learner ≡ learnt_of records.now []) }
    {
        Ok(Learner {
            places: lists_of(alloc, &records.places)?,
            predictors: predictors_of(alloc, &records.kinds)?,
        })
    }

    /// Learns of the next instruction: its references, and where control went.
    #[inline]
    pub fn learn(&mut self, event: &Event)
        requires event { IsWellFormed event.now }
        requires early { AreEarly self.old.places }
        ensures { (records : Records) (events : List Event) → self.old ≡ learnt_of records events
            → self.new ≡ learnt_of records (events ++ event.now ∷ []) }
    {
        fetch(&mut self.places, event.pc);
        refer(&mut self.places, event.access);
        observe_each(&mut self.predictors, event);
    }

    /// What the records tell.
    pub fn snapshots(&self) -> Result<Places<Snapshot>, NoMemory>
        ensures value { IfOk result (λ places. places ≡ self.now.places) }
        ensures recencies { IfOk result AreRecencies }
    {
        Ok(Places {
            l1i: snapshot(&self.places.l1i)?,
            l1d: snapshot(&self.places.l1d)?,
            l2: snapshot(&self.places.l2)?,
            itlb: snapshot(&self.places.itlb)?,
            dtlb: snapshot(&self.places.dtlb)?,
        })
    }

    /// What the predictors have learnt, in the order of the kinds.
    pub fn images(&self) -> Result<Images, NoMemory>
        requires least { 1 ≤ length self.now.images }
        requires most { length self.now.images ≤ 4 }
        ensures value { IfOk result (λ images. images ≡ self.now.images) }
        ensures images { IfOk result (λ images. All IsNumbered images) }
    {
        let mut images = Vec::with_capacity(*self.predictors.allocator(), self.predictors.len())?;
        for predictor in &self.predictors {
            images.push(image(predictor)?)?;
        }
        Ok(Images::from_list(images))
    }
}
