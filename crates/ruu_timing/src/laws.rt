ghost use Rattle.ruu_timing.specs.Laws.{IssuesAtFirst};

/// Does nothing. Its contract is a law of the times: an instruction issues at the first cycle at
/// which it is ready and has a slot, with no bound on that cycle.
pub fn issue_law()
    ensures { IssuesAtFirst }
{}
