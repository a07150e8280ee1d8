/// What the machine knows of a seat: one worker's place, from which it draws numbers, reports
/// answers and folds.
#[derive(Clone, Copy, Debug, PartialEq, Eq)]
pub struct Seat {
    /// Whether it was ever made; a seat that was stays so.
    pub made: bool,
    /// Whether it was made and hasn't been joined to another seat.
    pub live: bool,
    /// The number that it drew and hasn't reported.
    pub hand: Option<u32>,
    /// The number that it drew last, or a later one of a seat that was joined to it.
    pub last: Option<u64>,
    /// Whether it drew a number beyond the last answer's.
    pub past: bool,
    /// The count of answers before the ending, where it saw one announced.
    pub seen_end: Option<u32>,
    /// Whether it holds the lock, and the front with it.
    pub holder: bool,
}
