ghost use Rattle.std.specs.Prelude.{◌≡◌, ◌^◌, ◌≤◌, ◌↔◌, length, IfOk};
ghost use Rattle.smarts_base.specs.Outcome.{Answers};
ghost use Rattle.predictor.specs.Kind.{IsKind};
ghost use Rattle.predictor.specs.Tables.{tables_with, empty_tables};
ghost use Rattle.predictor.specs.Parts.{image_or_fault, fault_of, IsInRange, IsImage};

use crate::kind::PredictorKind;
use crate::parts::{BadPart, first_fault};
use crate::stack;
use arrayvec::ArrayVec;
use smarts_base::{NoMemory, Refusal};
use std::alloc::Global;
use std::marker::Model;

mod learning;

/// What a predictor has learnt.
#[derive(Debug, Drop)]
pub struct PredictorImage {
    kind: PredictorKind,
    counters: Vec<u8>,
    history: u32,
    targets: Vec<(u32, u32)>,
    stack: ArrayVec<u32, 16>,
}

impl Model for PredictorImage {
    ghost use Rattle.predictor.specs.Tables.{Tables};

    ghost Value = { Tables };

    ghost use Rattle.predictor.specs.View.{tables_of};

    ghost view = { tables_of };

    ghost use Rattle.predictor.specs.Parts.{IsImage};

    ghost invariant = { λ fields. IsImage (tables_of fields) };
}

/// The entry for no jump.
const NO_TARGET: (u32, u32) = (1, 0);

fn counters_of(alloc: Global, counters: &[u8]) -> Result<Vec<u8>, NoMemory>
    ensures { IfOk result (λ row. row.items ≡ counters.now) }
{
    Ok(counters.to_vec(alloc)?)
}

fn targets_of(alloc: Global, targets: &[(u32, u32)]) -> Result<Vec<(u32, u32)>, NoMemory>
    ensures { IfOk result (λ row. row.items ≡ targets.now) }
{
    Ok(targets.to_vec(alloc)?)
}

impl PredictorImage {
    /// The tables before any event.
    #[tactic(auto, using(crate::proofs::Ranges::empty_in_range))]
    pub(crate) fn empty(alloc: Global, kind: PredictorKind) -> Result<PredictorImage, NoMemory>
        requires { IsKind kind }
        ensures { IfOk result (λ image. image ≡ empty_tables kind) }
    {
        let counters = vec![in alloc; 1; 1 << kind.bits]?;
        let targets = vec![in alloc; NO_TARGET; 1 << kind.target_log]?;
        Ok(PredictorImage {
            kind,
            counters,
            history: 0,
            targets,
            stack: ArrayVec::new(),
        })
    }

    /// The image with parts that are in their ranges. It keeps the tables that are handed in.
    pub fn from_sound(
        kind: PredictorKind,
        counters: Vec<u8>,
        history: u32,
        targets: Vec<(u32, u32)>,
        stack: ArrayVec<u32, 16>,
    ) -> PredictorImage
        requires kind { IsKind kind }
        requires counters { length counters.items ≡ 2 ^ kind.bits }
        requires targets { length targets.items ≡ 2 ^ kind.target_log }
        requires stack { length stack.items ≤ kind.depth }
        requires ranges { IsInRange (tables_with kind counters.items history targets.items stack.items) }
        ensures { result ≡ tables_with kind counters.items history targets.items stack.items }
    {
        PredictorImage {
            kind,
            counters,
            history,
            targets,
            stack,
        }
    }

    /// The image with these parts, or the first part that is outside its range, with the first such
    /// place. A counter is 0 to 3, and the history is below `2^bits`, or 0 under the bimodal scheme. A
    /// target entry is 1 and 0, or two multiples of 4 of which the first, divided by 4, has the
    /// entry's place as its remainder by `2^target_log`. An address on the stack is a multiple of 4.
    #[tactic(auto, using(crate::proofs::Faults::faults_are))]
    pub fn from_parts(
        alloc: Global,
        kind: PredictorKind,
        counters: &[u8],
        history: u32,
        targets: &[(u32, u32)],
        stack: &[u32],
    ) -> Result<PredictorImage, Refusal<BadPart>>
        requires kind { IsKind kind }
        requires counters { length counters.now ≡ 2 ^ kind.bits }
        requires targets { length targets.now ≡ 2 ^ kind.target_log }
        requires stack { length stack.now ≤ kind.depth }
        ensures answer { Answers (λ image. image) result
            (image_or_fault (tables_with kind counters.now history targets.now stack.now)) }

        // There is no fault exactly where all parts are in their ranges.
        ensures in_range { let parts = tables_with kind counters.now history targets.now stack.now in
            (fault_of parts ≡ None) ↔ IsInRange parts }
    {
        if let Some(fault) = first_fault(kind, counters, history, targets, stack) {
            return Err(Refusal::Fault(fault));
        }
        let counters = counters_of(alloc, counters)?;
        let targets = targets_of(alloc, targets)?;
        Ok(PredictorImage::from_sound(kind, counters, history, targets, stack::of(stack)))
    }

    /// Another image of the same tables.
    pub(crate) fn copied(&self) -> Result<PredictorImage, NoMemory>
        ensures { IfOk result (λ image. image ≡ self.now) }
    {
        let alloc = *self.counters.allocator();
        Ok(PredictorImage {
            kind: self.kind,
            counters: self.counters.as_slice().to_vec(alloc)?,
            history: self.history,
            targets: self.targets.as_slice().to_vec(alloc)?,
            stack: stack::of(self.stack.as_slice()),
        })
    }

    /// Becomes equal to another image of this kind.
    pub(crate) fn copy_from(&mut self, image: &PredictorImage)
        requires { self.old.kind ≡ image.now.kind }
        ensures { self.new ≡ image.now }
    {
        self.counters.copy_from_slice(&image.counters);
        self.history = image.history;
        self.targets.copy_from_slice(&image.targets);
        self.stack = stack::of(image.stack.as_slice());
    }

    pub fn kind(&self) -> PredictorKind
        ensures value { result ≡ self.now.kind }
        ensures image { IsImage self.now }
    {
        self.kind
    }

    /// `2^bits` counters, each 0 to 3.
    pub fn counters(&self) -> &[u8]
        ensures value { result.now ≡ self.now.counters }
        ensures image { IsImage self.now }
    {
        self.counters.as_slice()
    }

    /// The outcomes of the latest branches, the last in bit 0. It is 0 under the bimodal scheme.
    pub fn history(&self) -> u32
        ensures value { result ≡ self.now.history }
        ensures image { IsImage self.now }
    {
        self.history
    }

    /// `2^target_log` entries, each the pc of a jump and where it led, or 1 and 0 for none.
    pub fn targets(&self) -> &[(u32, u32)]
        ensures value { result.now ≡ self.now.targets }
        ensures image { IsImage self.now }
    {
        self.targets.as_slice()
    }

    /// The return addresses from the bottom.
    pub fn stack(&self) -> &[u32]
        ensures value { result.now ≡ self.now.stack }
        ensures image { IsImage self.now }
    {
        self.stack.as_slice()
    }
}
