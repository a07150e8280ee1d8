ghost use Rattle.std.specs.Prelude.{MatchOption};
ghost use Rattle.live_points.specs.Beyond.{IsWithin, IsFirstBeyond};

use crate::header::Header;
use hierarchy::Config;
use rebuild::fits;

/// The first structure of a processor that the records don't serve: the caches l1i 0, l1d 1 and l2 2, the TLBs itlb 3
/// and dtlb 4, whose lines are others or whose sets or ways are more; or the predictor 5, whose kind isn't listed.
pub fn within(header: &Header, config: &Config) -> Option<u8>
    ensures { MatchOption result (IsWithin header.now.records config.now)
        (IsFirstBeyond header.now.records config.now) }
{
    let large = &header.records.places;
    let small = &config.places;
    if !fits(large.l1i, small.l1i) {
        Some(0)
    } else if !fits(large.l1d, small.l1d) {
        Some(1)
    } else if !fits(large.l2, small.l2) {
        Some(2)
    } else if !fits(large.itlb, small.itlb) {
        Some(3)
    } else if !fits(large.dtlb, small.dtlb) {
        Some(4)
    } else if !header.records.kinds.contains(config.kind) {
        Some(5)
    } else {
        None
    }
}
