//! The answers of the units of a run, as definitions alone: what the trace of a window says of its unit, the answer
//! of a unit by the whole machine, and those of the sampled units in the order of visits.
#![tactic(auto)]
