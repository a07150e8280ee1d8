ghost use Rattle.std.specs.Prelude.{◌≡◌, ◌<◌, ◌%◌, ◌^◌, true, None, map, slice_index};
ghost use Rattle.hierarchy.specs.Config.{IsConfig};
ghost use Rattle.live_points.specs.Beyond.{IsWithin};
ghost use Rattle.live_points.specs.Kinds.{is_among, same_kind};
ghost use Rattle.live_points.specs.Points.{IsPointOf};
ghost use Rattle.live_points.specs.PointAnswers.{cache_from, caches_from, image_of, warm_at};
ghost use Rattle.rebuild.specs.Merge.{Fits};
ghost use Rattle.window_sim.specs.Built.{IsBuilt, shapes_of};

use hierarchy::{Config, Places, State};
use live_points::{Header, Images, Kinds, LivePoint};
use lru_plain::PlainCache;
use predictor::{PredictorImage, PredictorKind};
use rebuild::rebuild;
use recency_record::Snapshot;
use rv_exec::Core;

/// The image of a kind: the one that stands where the kind does.
pub fn image<'p>(kind: PredictorKind, kinds: &Kinds, images: &'p Images) -> &'p PredictorImage
    requires kinds { map (λ image. image.kind) images.now ≡ kinds.now }
    requires among { is_among kind kinds.now ≡ true }
    ensures image { result.now ≡ image_of kind kinds.now images.now }
    ensures kind { result.now.kind ≡ kind }
{
    for place in 0..kinds.len() {
        if kind == kinds.at(place) {
            return images.at(place);
        }
    }
    unreachable!()
}

/// Makes a cache from the record of a larger one.
fn rebuild_one(snapshot: &Snapshot, scratch: &mut [u64], cache: &mut PlainCache)
    requires { Fits snapshot.now.shape cache.old.shape }
    ensures { cache.new ≡ cache_from snapshot.now cache.old.shape }
{
    let rebuilt = rebuild(snapshot, scratch, cache).is_ok();
    prove!(rebuilt);
}

/// Makes each cache and TLB from its record.
fn rebuild_all(snapshots: &Places<Snapshot>, scratch: &mut [u64], caches: &mut Places<PlainCache>)
    requires l1i { Fits snapshots.now.l1i.shape caches.old.l1i.shape }
    requires l1d { Fits snapshots.now.l1d.shape caches.old.l1d.shape }
    requires l2 { Fits snapshots.now.l2.shape caches.old.l2.shape }
    requires itlb { Fits snapshots.now.itlb.shape caches.old.itlb.shape }
    requires dtlb { Fits snapshots.now.dtlb.shape caches.old.dtlb.shape }
    ensures { caches.new ≡ caches_from snapshots.now (shapes_of caches.old) }
{
    rebuild_one(&snapshots.l1i, scratch, &mut caches.l1i);
    rebuild_one(&snapshots.l1d, scratch, &mut caches.l1d);
    rebuild_one(&snapshots.l2, scratch, &mut caches.l2);
    rebuild_one(&snapshots.itlb, scratch, &mut caches.itlb);
    rebuild_one(&snapshots.dtlb, scratch, &mut caches.dtlb);
}

/// Makes the caches and the predictor what they are at the start of the point's window.
pub fn warm(
    header: &Header,
    config: &Config,
    point: &LivePoint,
    scratch: &mut [u64],
    state: &mut State,
)
    requires within { IsWithin header.now.records config.now }
    requires of { IsPointOf header.now point.now }
    requires built { IsBuilt config.now state.old }
    ensures state { state.new ≡ warm_at config.now header.now.records point.now }
    ensures built { IsBuilt config.now state.new }
{
    rebuild_all(&point.places, scratch, state.caches());
    let image = image(config.kind, &header.records.kinds, &point.images);
    state.predictor().load(image);
}

/// The machine there, without its memory.
pub fn core_at(header: &Header, point: &LivePoint) -> Core
    requires aligned { point.now.pc % 4 ≡ 0 }
    requires zero { slice_index point.now.regs 0 ≡ 0 }
    ensures pc { result.pc ≡ point.now.pc }
    ensures regs { result.regs ≡ point.now.regs }
    ensures brk { result.brk ≡ point.now.brk }
    ensures heap_low { result.heap_low ≡ header.now.heap_low }
    ensures exit { result.exit ≡ None }
{
    Core {
        pc: point.pc,
        regs: point.regs,
        brk: point.brk,
        heap_low: header.heap_low,
        exit: None,
    }
}
