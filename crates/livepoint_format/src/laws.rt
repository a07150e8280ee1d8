ghost use Rattle.livepoint_format.specs.Laws.{ReadsSpellings, SpellsOne, FrontsAreTruncated, PartsStay, WordsGoBack, BytesGoBack};

/// The bytes of a library are its spelling, and the only one.
pub fn spelling_laws()
    ensures reads { ReadsSpellings }
    ensures one { SpellsOne }
{}

/// What more bytes change: a front of a library ends too early, and what was found in it stays.
pub fn growth_laws()
    ensures fronts { FrontsAreTruncated }
    ensures parts { PartsStay }
{}

/// The words of a point, beside the table, go back and forth between their two forms.
pub fn word_laws()
    ensures { WordsGoBack }
{}

/// What is written is read as what it was, and what was read is written as it was.
pub fn writing_laws()
    ensures { BytesGoBack }
{}
