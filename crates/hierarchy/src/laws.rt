ghost use Rattle.hierarchy.specs.Laws.{AreTraces};

/// Laws that proofs above this crate cite: the marks of a run, and the caches and predictors that it
/// leaves, can be cut at any instruction. So a window's marks, from the caches and the predictor that
/// the instructions before it leave, are those of the whole run at the same places.
pub fn trace_laws()
    ensures { AreTraces }
{}
