ghost use Rattle.live_words.specs.Laws.{LiveWordsSuffice, FirstValuesAreTheStart, WordsAreHeld, PackedAreHeld};

/// Laws that proofs above this crate cite. A window's run is the same over the words alone that it touches; these
/// are what it finds first at each address; the words of a list by rising address are that list, and
/// packed they are the same memory.
#[tactic(auto, using(crate::proofs::LiveWordsLemmas::live_words_suffice, crate::proofs::LiveWordsLemmas::first_values_are_start, crate::proofs::MemoryLemmas::words_are_held))]
pub fn word_laws()
    ensures suffice { LiveWordsSuffice }
    ensures first { FirstValuesAreTheStart }
    ensures held { WordsAreHeld }
    ensures packed { PackedAreHeld }
{}
