use confidence::PointFault;

/// How far a fold of answers has come.
#[derive(Clone, Copy, Debug, PartialEq, Eq)]
pub enum Ending {
    /// No answer so far ends the fold, and more are to come.
    Going,
    /// The sample of the first `count` answers meets the test.
    Stopped { count: u32 },
    /// The answer of `point`, counted from 0, is a fault.
    Faulted { point: u32, fault: PointFault },
    /// Every answer is in, and none ended the fold.
    Exhausted,
}
