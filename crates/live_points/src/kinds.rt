ghost use Rattle.std.specs.Prelude.{◌≡◌, ◌<◌, ◌≤◌, Some, [], ◌∷◌, ◌++◌, length, slice_get, if◌then◌else◌};
ghost use Rattle.live_points.specs.Kinds.{same_scheme, same_kind, is_among, may_join, AreKinds};

use predictor::{PredictorKind, Scheme};
use std::marker::Model;

/// One to four kinds of predictors, no two of them the same.
#[derive(Debug, Drop)]
pub struct Kinds {
    /// Behind the kinds that there are stand others that say nothing.
    kinds: [PredictorKind; 4],
    count: usize,
}

impl Model for Kinds {
    ghost use Rattle.std.specs.Prelude.{List};
    ghost use Rattle.predictor.specs.declared.kind.PredictorKind.{PredictorKind};

    ghost Value = { List PredictorKind };

    ghost use Rattle.live_points.specs.KindsView.{kinds_of, HasKinds};

    ghost view = { kinds_of };

    ghost invariant = { HasKinds };
}

fn same_scheme(one: Scheme, other: Scheme) -> bool
    ensures { result ≡ same_scheme one other }
{
    match (one, other) {
        (Scheme::Bimodal, Scheme::Bimodal) => true,
        (Scheme::Gshare, Scheme::Gshare) => true,
        _ => false,
    }
}

fn same_kind(one: PredictorKind, other: PredictorKind) -> bool
    ensures { result ≡ same_kind one other }
{
    same_scheme(one.scheme, other.scheme)
        && one.bits == other.bits
        && one.target_log == other.target_log
        && one.depth == other.depth
}

fn is_among(kind: PredictorKind, kinds: &[PredictorKind]) -> bool
    ensures { result ≡ is_among kind kinds.now }
{
    kinds.iter().any(|other| same_kind(kind, *other))
}

impl Kinds {
    /// This kind alone.
    pub fn one(kind: PredictorKind) -> Kinds
        ensures { result ≡ kind ∷ [] }
    {
        Kinds {
            kinds: [kind; 4],
            count: 1,
        }
    }

    /// Puts a kind behind the others, where there are fewer than four and it isn't among them, and tells whether
    /// this is so.
    pub fn add(&mut self, kind: PredictorKind) -> bool
        ensures value { result ≡ may_join kind self.old }
        ensures kinds { self.new ≡ (if result then self.old ++ kind ∷ [] else self.old) }
    {
        if self.count == 4 || self.contains(kind) {
            return false;
        }
        self.kinds[self.count] = kind;
        self.count += 1;
        true
    }

    /// All kinds, in the order in which they came.
    pub fn as_slice(&self) -> &[PredictorKind]
        ensures value { result.now ≡ self.now }
        ensures kinds { AreKinds self.now }
    {
        &self.kinds[..self.count]
    }

    pub fn len(&self) -> usize
        ensures value { result ≡ length self.now }
        ensures kinds { AreKinds self.now }
    {
        self.as_slice().len()
    }

    /// The kind at a place, counted from 0.
    pub fn at(&self, index: usize) -> PredictorKind
        requires { index < length self.now }
        ensures { slice_get self.now index ≡ Some result }
    {
        self.as_slice()[index]
    }

    pub fn contains(&self, kind: PredictorKind) -> bool
        ensures { result ≡ is_among kind self.now }
    {
        is_among(kind, self.as_slice())
    }
}
