ghost use Rattle.std.specs.Prelude.{◌≡◌, ◌%◌, List, [], ◌∷◌, ◌++◌, IfOk};
ghost use Rattle.rv_exec.specs.declared.event.Event.{Event};
ghost use Rattle.predictor.specs.Kind.{IsKind};
ghost use Rattle.predictor.specs.Tables.{empty_tables};
ghost use Rattle.predictor.specs.Parts.{IsImage};
ghost use Rattle.predictor.specs.Rules.{is_mispredicted, observed, trained};

use crate::image::PredictorImage;
use crate::kind::PredictorKind;
use rv_exec::Event;
use smarts_base::NoMemory;
use std::alloc::Global;
use std::marker::Model;

/// A predictor of branch directions, of the targets of indirect jumps and of returns. Only `new` and
/// `image` take memory.
#[derive(Debug, Drop)]
pub struct Predictor {
    tables: PredictorImage,
}

impl Model for Predictor {
    ghost use Rattle.predictor.specs.Tables.{Tables};

    ghost Value = { Tables };

    ghost view = { λ fields. fields.tables };
}

impl Predictor {
    /// A predictor that has seen no event.
    #[tactic(auto, unfolding(crate::specs::Rules::trained))]
    pub fn new(alloc: Global, kind: PredictorKind) -> Result<Predictor, NoMemory>
        requires { IsKind kind }
        ensures empty { IfOk result (λ predictor. predictor ≡ empty_tables kind) }
        ensures trained { IfOk result (λ predictor. predictor ≡ trained kind []) }
    {
        let tables = PredictorImage::empty(alloc, kind)?;
        Ok(Predictor { tables })
    }

    /// Learns from the event of one instruction, and tells whether it was mispredicted. Instructions stand
    /// at multiples of 4.
    // Inlined, as the step's observers call it: of an instruction that goes straight on nothing is left.
    #[inline(always)]
    #[tactic(auto, using(crate::proofs::Trains::trained_more))]
    pub fn observe(&mut self, event: &Event) -> bool
        requires pc { event.now.pc % 4 ≡ 0 }
        requires next { event.now.next % 4 ≡ 0 }
        ensures missed { result ≡ is_mispredicted self.old event.now }
        ensures tables { self.new ≡ observed self.old event.now }
        ensures kind { self.new.kind ≡ self.old.kind }

        // After the events of a list, and then this one, it is trained by the longer list.
        ensures trained { (events : List Event) → self.old ≡ trained self.old.kind events
            → self.new ≡ trained self.old.kind (events ++ event.now ∷ []) }
    {
        self.tables.observe(event)
    }

    /// The tables as they are.
    pub fn image(&self) -> Result<PredictorImage, NoMemory>
        ensures value { IfOk result (λ image. image ≡ self.now) }
        ensures image { IfOk result (λ image. IsImage image) }
    {
        self.tables.copied()
    }

    /// Goes on as the predictor that gave the image.
    pub fn load(&mut self, image: &PredictorImage)
        requires { self.old.kind ≡ image.now.kind }
        ensures { self.new ≡ image.now }
    {
        self.tables.copy_from(image);
    }
}
