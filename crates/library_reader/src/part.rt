use live_points::LivePoint;
use livepoint_format::LibraryFault;

/// What is next in a library.
#[derive(Debug, Drop)]
pub enum Part {
    /// The header with the table of shared pairs, which the reader keeps.
    Header,
    /// The next point, in the order of visits.
    Point(LivePoint),
    /// What is there doesn't reach to the end of the next part.
    More,
    /// The library has ended.
    End,
    /// The first fault of the library.
    Fault(LibraryFault),
}
