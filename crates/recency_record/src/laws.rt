ghost use Rattle.recency_record.specs.Recency.{HoldsLastUses};

/// What a record of a whole list of references holds, said of each block by itself.
pub fn holds_last_uses()
    ensures { HoldsLastUses }
{}
