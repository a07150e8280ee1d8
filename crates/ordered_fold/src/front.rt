ghost use Rattle.std.specs.Prelude.{◌≡◌, ◌<◌, ◌≤◌, ◌+◌, ℕ, List, [], ◌∷◌, ◌++◌};
ghost use Rattle.confidence.specs.Confidence.{IsInRange};
ghost use Rattle.confidence.specs.Answer.{IsValidAnswer};
ghost use Rattle.confidence.specs.declared.answer.Answer.{Answer as AnswerValue};
ghost use Rattle.confidence.specs.declared.verdict.Test.{Test as TestValue};

use crate::Ending;
use confidence::{Answer, Sums, Test, confident};

/// The fold of the answers so far.
#[derive(Clone, Copy, Debug, PartialEq, Eq)]
pub struct Front {
    total: u32,
    test: Test,
    sums: Sums,
    ending: Ending,
}

impl Front {
    ghost use Rattle.ordered_fold.specs.Front.{first_front, pushed as pushed_front, front_of, is_going as is_going_ending, IsFront, IsSound};
    ghost use Rattle.ordered_fold.specs.Batch.{pushed_number};

    /// The fold of no answers, of `total` that may come.
    pub fn new(total: u32, test: Test) -> Front
        requires some { 0 < total }
        requires most { total ≤ 65536 }
        requires test { IsInRange test }
        ensures value { result ≡ first_front total test }
        ensures fold { result ≡ front_of total test [] }
        ensures front { IsFront result [] }
        ensures sound { IsSound result }
    {
        Front {
            total,
            test,
            sums: Sums::new(),
            ending: Ending::Going,
        }
    }

    /// Takes in the next answer.
    pub fn push(&mut self, answer: Answer)
        requires sound { IsSound self.old }
        requires going { self.old.ending ≡ Ending.Going }
        requires answer { IsValidAnswer answer }
        ensures value { self.new ≡ pushed_front self.old answer }
        ensures fold { (total : ℕ) (test : TestValue) (answers : List AnswerValue)
            → self.old ≡ front_of total test answers
            → self.new ≡ front_of total test (answers ++ answer ∷ []) }
        ensures front { (answers : List AnswerValue)
            → IsFront self.old answers → IsFront self.new (answers ++ answer ∷ []) }
        ensures sound { IsSound self.new }
    {
        self.ending = match answer {
            Answer::Fault(fault) => Ending::Faulted {
                point: self.sums.n,
                fault,
            },
            Answer::Cycles(cycles) => {
                self.sums.add(cycles);
                if confident(&self.sums, &self.test) {
                    Ending::Stopped { count: self.sums.n }
                } else if self.sums.n == self.total {
                    Ending::Exhausted
                } else {
                    Ending::Going
                }
            }
        };
    }

    /// How many answers may come in all.
    pub fn total(&self) -> u32
        ensures { result ≡ self.now.total }
    {
        self.total
    }

    /// Whether the fold takes in more answers.
    pub fn is_going(&self) -> bool
        ensures { result ≡ is_going_ending self.now.ending }
    {
        matches!(self.ending, Ending::Going)
    }

    /// How many answers were taken in, a fault among them.
    pub fn pushed(&self) -> u64
        ensures value { result ≡ pushed_number self.now }
        ensures most { result ≤ self.now.sums.n + 1 }
    {
        let fault = matches!(self.ending, Ending::Faulted { .. });
        u64::from(self.sums.n) + u64::from(fault)
    }

    /// How the fold ended, if it did.
    pub fn ending(&self) -> Ending
        ensures { result ≡ self.now.ending }
    {
        self.ending
    }

    /// The sums of the answers taken in, a fault left out.
    pub fn sums(&self) -> Sums
        ensures { result ≡ self.now.sums }
    {
        self.sums
    }

    /// How many answers were taken in, a fault left out.
    pub fn count(&self) -> u32
        ensures { result ≡ self.now.sums.n }
    {
        self.sums.n
    }
}
