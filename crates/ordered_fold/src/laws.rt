ghost use Rattle.ordered_fold.specs.Laws.{EndIsLeast, FoldEndsThere, WholeFoldEnds, EndedStays, StaysFromEnd};
ghost use Rattle.ordered_fold.specs.MachineLaws.{KeepsInvariant, NoNumberTwice, FoldsInOrder, StopStays, OneFold, FoldIsCut, FoldIsJoined};

/// The laws that join the fold of a list of answers with the first answer that ends the list. It
/// does nothing: its contract is what holds.
pub fn fold_laws()
    ensures least { EndIsLeast }
    ensures ends { FoldEndsThere }
    ensures whole { WholeFoldEnds }
    ensures stays { EndedStays }
    ensures from_end { StaysFromEnd }
{}

/// The laws of the machine, whatever events come to whatever seats, and those of a fold that is made
/// batch by batch. It does nothing: its contract is what holds.
pub fn machine_laws()
    ensures invariant { KeepsInvariant }
    ensures numbers { NoNumberTwice }
    ensures order { FoldsInOrder }
    ensures stop { StopStays }
    ensures one { OneFold }
    ensures cut { FoldIsCut }
    ensures joined { FoldIsJoined }
{}
