ghost use Rattle.library_reader.specs.Laws.{ReadingsAre};

/// What was handed out while a library came in is what reading all its bytes at once gives.
pub fn reading_laws()
    ensures { ReadingsAre }
{}
