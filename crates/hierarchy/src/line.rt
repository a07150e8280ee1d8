/// A line of memory: the addresses that divided by `2^log` are its number.
#[derive(Clone, Copy, Debug)]
pub(crate) struct Line {
    pub number: u32,
    pub log: u8,
    /// The set of the second cache that it belongs to.
    pub set: u32,
}
