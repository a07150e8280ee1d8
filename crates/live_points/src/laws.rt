ghost use Rattle.live_points.specs.Laws.{PointsAnswer, AllPointsAnswer, ExitsGoOn, BudgetIsNothing, PointsAreOfHeader, SharingIsOne};

/// Laws that proofs above this crate cite. The live-points of a run answer as their units do on the whole machine,
/// on every processor that the records serve, one by one and in the order of visits. A run that exits goes on so
/// far as these laws ask. What the budget is changes no answer. A point is one of its header, and points have one table of
/// shared pairs.
pub fn point_laws()
    ensures point { PointsAnswer }
    ensures points { AllPointsAnswer }
    ensures exit { ExitsGoOn }
    ensures budget { BudgetIsNothing }
    ensures header { PointsAreOfHeader }
    ensures sharing { SharingIsOne }
{}
