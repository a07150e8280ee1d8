use ordered_fold::Ending;

/// What a pass found when it tried to fold.
#[derive(Clone, Copy, Debug, PartialEq, Eq)]
pub enum Advance {
    /// It had the front, which stands so now.
    Moved(Ending),
    /// Another pass had it: the lock word that was found.
    Busy { found: u64 },
}
