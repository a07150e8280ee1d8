ghost use Rattle.rv_machine.specs.Laws.{OutcomesAre, StartWords};

/// A law of `outcome_of`, which says how a run ends without a least number: a run exits exactly where
/// every earlier instruction went on and one below the budget exits, and so on for a trap. The
/// budget is spent exactly where every instruction below it went on.
pub fn endings()
    ensures { OutcomesAre }
{}

/// A law on `start_of`: which words a program starts with. An address has a word exactly where it
/// is a multiple of 4 and is mapped. The word is the image's where the image has one there, and
/// else 0.
pub fn start_words()
    ensures { StartWords }
{}
