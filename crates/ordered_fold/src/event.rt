/// What a seat does in one step.
#[derive(Clone, Copy, Debug, PartialEq, Eq)]
pub enum Act {
    /// It draws the next number.
    Claim,
    /// It writes the code of its answer into the cell of the number in its hand.
    Report,
    /// It reads the next cell in order, and folds what it finds there.
    Glance,
    /// It takes the lock, where it is free.
    Try,
    /// It tells all seats that the fold has ended.
    Announce,
    /// It gives the lock back, with the front.
    Release,
    /// It reads whether an end was announced.
    Look,
    /// It makes the seat `into`, which knows what it knows.
    Split { into: u32 },
    /// It takes over what the seat `from` knows, and that seat is live no more.
    Join { from: u32 },
}

/// An act of the seat of this number.
#[derive(Clone, Copy, Debug, PartialEq, Eq)]
pub struct CoreEvent {
    pub seat: u32,
    pub act: Act,
}
