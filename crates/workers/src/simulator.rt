ghost use Rattle.std.specs.Prelude.{◌≡◌};

use confidence::Answer;

/// What answers points, one by one, each by itself: its answer depends on what it was set up with and on
/// the point, never on what it answered before.
pub trait Simulator: Drop {
    ghost use Rattle.confidence.specs.declared.answer.Answer.{Answer as AnswerValue};
    ghost use Rattle.ordered_fold.specs.Batch.{IsHeldAnswer};

    type Point;

    /// What its answers depend on beside the point. No value of it is made.
    type Setup;

    ghost setup: { Self → Self.Setup };

    /// The answer of a point.
    ghost answer: { Self.Setup → Self.Point → AnswerValue };

    /// The points that it can answer.
    ghost takes: { Self.Setup → Self.Point → Type 0 };

    fn simulate(&mut self, point: &Self::Point) -> Answer
        requires takes { takes (setup self.old) point.now }
        ensures answer { result ≡ answer (setup self.old) point.now }
        ensures same { setup self.new ≡ setup self.old };

    /// Each answer can stand in a cell of the board.
    ghost held: { (setup : Self.Setup) (point : Self.Point) → takes setup point → IsHeldAnswer (answer setup point) };
}
