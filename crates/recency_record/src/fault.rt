ghost use Rattle.std.specs.Prelude.{◌≡◌};
ghost use Rattle.recency_record.specs.Faults.{number_of};

/// Why lists of entries are no snapshot: a set, and the first place in it at which it breaks a rule. A set
/// with too many entries has place 0.
#[derive(Clone, Copy, Debug, PartialEq, Eq)]
pub enum RecordFault {
    /// The set has more entries than ways.
    TooMany { set: u32, place: u8 },
    /// The block doesn't belong to the set.
    WrongSet { set: u32, place: u8 },
    /// The block stands before in the set.
    Repeated { set: u32, place: u8 },
    /// The time isn't below that of the record.
    TimeRange { set: u32, place: u8 },
    /// The time isn't below the one in front of it.
    NotDescending { set: u32, place: u8 },
}

impl RecordFault {
    /// The number of the rule: 1 to 5, in the order in which they are judged.
    pub fn number(&self) -> u8
        ensures { result ≡ number_of self.now }
    {
        match self {
            RecordFault::TooMany { .. } => 1,
            RecordFault::WrongSet { .. } => 2,
            RecordFault::Repeated { .. } => 3,
            RecordFault::TimeRange { .. } => 4,
            RecordFault::NotDescending { .. } => 5,
        }
    }
}
