ghost use Rattle.std.specs.Prelude.{◌≡◌, ◌+◌, ◌<◌, ◌≤◌, ◌^◌, ◌==◌, ◌*◌, [], length, drop, flat_map, if◌then◌else◌};
ghost use Rattle.live_words.specs.Follow.{Follow};
ghost use Rattle.live_words.specs.Words.{IsPair};
ghost use Rattle.live_points.specs.Sharing.{ranks};
ghost use Rattle.livepoint_format.specs.Shared.{parts_of};
ghost use Rattle.livepoint_format.specs.Format.{head as head_text, header as header_text, table, words_text, set as set_text, snapshot as snapshot_text, snapshots as snapshots_text, image as image_text, point as point_text, spelling};
ghost use Rattle.livepoint_format.specs.Views.{head_of};

use crate::library::Library;
use crate::shared::Shared;
use crate::words::place_in;
use hierarchy::Places;
use live_points::{Header, Images, LivePoint};
use live_words::Words;
use predictor::PredictorImage;
use recency_record::{Entry, Snapshot};

#[tactic(auto, using(crate::proofs::LengthsLemmas::head_long))]
fn head_len(header: &Header) -> u64
    ensures value { result ≡ length (head_text (head_of header.now)) }
    ensures few { result ≤ 88 }
{
    72 + 4 * header.records.kinds.len() as u64
}

#[tactic(auto, unfolding(crate::specs::Format::table), using(crate::proofs::LengthsLemmas::table_long))]
fn table_len(first: bool, shared: &Shared) -> u64
    ensures value { result ≡ length (table first shared.now) }
    ensures few { result ≤ 2 ^ 36 }
{
    if first {
        0
    } else {
        4 + 8 * u64::from(shared.len())
    }
}

/// How many bytes a header has with the table behind it.
#[tactic(auto, using(crate::proofs::LengthsLemmas::header_long))]
pub fn header_len(header: &Header, shared: &Shared) -> u64
    ensures value { result ≡ length (header_text (head_of header.now) shared.now) }
    ensures few { result ≤ 2 ^ 37 }
{
    head_len(header) + table_len(header.version == 1, shared)
}

/// How many runs begin at a place, where `end` is one above the place that would join the last run.
fn begun(end: u64, place: u64) -> u64
    requires { place < 2 ^ 32 }
    ensures value { result ≡ (if end == place + 1 then 0 else 1) }
    ensures few { result ≤ 1 }
{
    if end == place + 1 { 0 } else { 1 }
}

/// How many own pairs and runs words have beside a table, which is in order.
fn part_counts(shared: &[(u32, u32)], words: &[(u32, u32)]) -> (u64, u64)
    requires order { Follow (IsPair ranks) [] shared.now }
    requires short { length shared.now < 2 ^ 32 }
    requires few { length words.now ≤ 2 ^ 30 }
    ensures own { result.0 ≡ length (parts_of shared.now words.now).own }
    ensures runs { result.1 ≡ length (parts_of shared.now words.now).runs }
    ensures few { result.0 + result.1 ≤ 2 ^ 30 }
{
    let mut own = 0;
    let mut runs = 0;
    let mut end = 0;
    for i in 0..words.len() {
        match place_in(shared, words[i]) {
            Some(place) => {
                runs += begun(end, place as u64);
                end = place as u64 + 2;
            }
            None => own += 1,
        }
    }
    (own, runs)
}

#[tactic(auto, using(crate::proofs::LengthsLemmas::listed_long, crate::proofs::LengthsLemmas::parts_long))]
fn memory_len(first: bool, shared: &Shared, words: &Words) -> u64
    ensures value { result ≡ length (words_text first shared.now words.now) }
    ensures few { result ≤ 2 ^ 34 }
{
    let count = words.len();
    if first {
        return 4 + 8 * count as u64;
    }
    let (own, runs) = part_counts(shared.as_slice(), words.as_slice());
    8 + 8 * (own + runs)
}

#[tactic(auto, using(crate::proofs::LengthsLemmas::set_long))]
fn set_len(entries: &[Entry]) -> u64
    requires { length entries.now ≤ 16 }
    ensures value { result ≡ length (set_text entries.now) }
    ensures few { result ≤ 193 }
{
    1 + 12 * entries.len() as u64
}

fn sets_len(snapshot: &Snapshot) -> u64
    ensures value { result ≡ length (flat_map set_text snapshot.now.sets) }
    ensures few { result ≤ 2 ^ 20 }
{
    let count = snapshot.geometry().sets();
    let mut total = 0;
    for i in 0..count {
        total += set_len(snapshot.entries(i));
    }
    total
}

#[tactic(auto, using(crate::proofs::LengthsLemmas::snapshot_long))]
fn snapshot_len(snapshot: &Snapshot) -> u64
    ensures value { result ≡ length (snapshot_text snapshot.now) }
    ensures few { result ≤ 2 ^ 21 }
{
    8 + sets_len(snapshot)
}

#[tactic(auto, using(crate::proofs::LengthsLemmas::snapshots_long))]
fn snapshots_len(places: &Places<Snapshot>) -> u64
    ensures value { result ≡ length (snapshots_text places.now) }
    ensures few { result ≤ 2 ^ 24 }
{
    snapshot_len(&places.l1i)
        + snapshot_len(&places.l1d)
        + snapshot_len(&places.l2)
        + snapshot_len(&places.itlb)
        + snapshot_len(&places.dtlb)
}

fn image_len(image: &PredictorImage) -> u64
    ensures value { result ≡ length (image_text image.now) }
    ensures few { result ≤ 2 ^ 16 }
{
    let counters = image.counters().len() as u64;
    let targets = image.targets().len() as u64;
    let addresses = image.stack().len() as u64;
    counters + 5 + 8 * targets + 4 * addresses
}

fn images_len(images: &Images) -> u64
    ensures value { result ≡ length (flat_map image_text images.now) }
    ensures few { result ≤ 2 ^ 18 }
{
    let count = images.len();
    let mut total = 0;
    for i in 0..count {
        total += image_len(images.at(i));
    }
    total
}

/// The registers that are spelled: all but the first.
fn registers_len(regs: &[u32; 32]) -> u64
    ensures value { result ≡ 4 * length (drop 1 regs.now) }
    ensures few { result ≤ 124 }
{
    let (_zero, spelled) = regs.split_at(1);
    4 * spelled.len() as u64
}

pub fn point_len(first: bool, shared: &Shared, point: &LivePoint) -> u64
    ensures value { result ≡ length (point_text first shared.now point.now) }
    ensures few { result ≤ 2 ^ 35 }
{
    12 + registers_len(&point.regs)
        + memory_len(first, shared, &point.words)
        + snapshots_len(&point.places)
        + images_len(&point.images)
}

fn points_len(first: bool, shared: &Shared, points: &[LivePoint]) -> u64
    requires { length points.now ≤ 65536 }
    ensures value { result ≡ length (flat_map (point_text first shared.now) points.now) }
    ensures few { result ≤ 2 ^ 51 }
{
    let mut total = 0;
    for i in 0..points.len() {
        total += point_len(first, shared, &points[i]);
    }
    total
}

/// How many bytes the library has.
#[tactic(auto, using(crate::proofs::LengthsLemmas::spelling_long))]
pub fn encoded_len(library: &Library) -> u64
    ensures { result ≡ length (spelling library.now) }
{
    let header = library.header();
    let first = header.version == 1;
    header_len(header, library.shared()) + points_len(first, library.shared(), library.points()) + 4
}
