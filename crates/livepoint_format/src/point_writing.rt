ghost use Rattle.std.specs.Prelude.{◌≡◌, ◌++◌, ◌+◌, ◌<◌, ◌≤◌, ◌^◌, [], length, drop, flat_map, OnOk};
ghost use Rattle.lru_plain.specs.Shape.{sets_of};
ghost use Rattle.live_words.specs.Words.{AreWords};
ghost use Rattle.livepoint_format.specs.Format.{byte, word, pair as pair_text, entry as entry_text, set as set_text, snapshot as snapshot_text, snapshots as snapshots_text, image as image_text, words_text, parts_text, point as point_text};
ghost use Rattle.livepoint_format.specs.Views.{parts_view};

use crate::shared::Shared;
use crate::splitting::split;
use crate::words::WordParts;
use crate::writing::{put_byte, put_long, put_pairs, put_word};
use hierarchy::Places;
use live_points::{Images, LivePoint};
use live_words::Words;
use predictor::PredictorImage;
use recency_record::{Entry, Snapshot};
use smarts_base::NoMemory;
use std::alloc::Global;

/// Numbers of four bytes, one behind the other.
fn put_words(out: &mut Vec<u8>, numbers: &[u32]) -> Result<(), NoMemory>
    ensures { OnOk result (out.new.items ≡ out.old.items ++ flat_map word numbers.now) }
{
    for i in 0..numbers.len() {
        put_word(out, numbers[i])?;
    }
    Ok(())
}

#[tactic(auto, unfolding(crate::specs::Format::parts_text))]
fn put_parts(out: &mut Vec<u8>, parts: &WordParts) -> Result<(), NoMemory>
    requires own { length parts.now.own.items < 2 ^ 32 }
    requires runs { length parts.now.runs.items < 2 ^ 32 }
    ensures { OnOk result (out.new.items ≡ out.old.items ++ parts_text (parts_view parts.now)) }
{
    put_word(out, parts.own.len() as u32)?;
    put_word(out, parts.runs.len() as u32)?;
    put_pairs(out, parts.own.as_slice())?;
    put_pairs(out, parts.runs.as_slice())
}

/// The words of a point: in version 1 one by one, and else beside the table.
#[tactic(auto, unfolding(crate::specs::Format::words_text))]
fn put_memory(
    alloc: Global,
    out: &mut Vec<u8>,
    first: bool,
    shared: &Shared,
    words: &Words,
) -> Result<(), NoMemory>
    ensures { OnOk result (out.new.items ≡ out.old.items ++ words_text first shared.now words.now) }
{
    let count = words.len();
    if first {
        put_word(out, count as u32)?;
        return put_pairs(out, words.as_slice());
    }
    let parts = split(alloc, shared.as_slice(), words.as_slice())?;
    put_parts(out, &parts)
}

#[tactic(auto, unfolding(crate::specs::Format::entry))]
fn put_entry(out: &mut Vec<u8>, entry: Entry) -> Result<(), NoMemory>
    ensures { OnOk result (out.new.items ≡ out.old.items ++ entry_text entry) }
{
    put_word(out, entry.block)?;
    put_long(out, entry.time)
}

fn put_entries(out: &mut Vec<u8>, entries: &[Entry]) -> Result<(), NoMemory>
    ensures { OnOk result (out.new.items ≡ out.old.items ++ flat_map entry_text entries.now) }
{
    for i in 0..entries.len() {
        put_entry(out, entries[i])?;
    }
    Ok(())
}

#[tactic(auto, unfolding(crate::specs::Format::set))]
fn put_set(out: &mut Vec<u8>, entries: &[Entry]) -> Result<(), NoMemory>
    requires { length entries.now < 256 }
    ensures { OnOk result (out.new.items ≡ out.old.items ++ set_text entries.now) }
{
    put_byte(out, entries.len() as u8)?;
    put_entries(out, entries)
}

/// The sets of a record.
fn put_sets(out: &mut Vec<u8>, snapshot: &Snapshot) -> Result<(), NoMemory>
    ensures { OnOk result (out.new.items ≡ out.old.items ++ flat_map set_text snapshot.now.sets) }
{
    let count = snapshot.geometry().sets();
    for i in 0..count {
        put_set(out, snapshot.entries(i))?;
    }
    Ok(())
}

#[tactic(auto, unfolding(crate::specs::Format::snapshot))]
fn put_snapshot(out: &mut Vec<u8>, snapshot: &Snapshot) -> Result<(), NoMemory>
    ensures { OnOk result (out.new.items ≡ out.old.items ++ snapshot_text snapshot.now) }
{
    put_long(out, snapshot.time())?;
    put_sets(out, snapshot)
}

#[tactic(auto, unfolding(crate::specs::Format::snapshots))]
fn put_snapshots(out: &mut Vec<u8>, places: &Places<Snapshot>) -> Result<(), NoMemory>
    ensures { OnOk result (out.new.items ≡ out.old.items ++ snapshots_text places.now) }
{
    put_snapshot(out, &places.l1i)?;
    put_snapshot(out, &places.l1d)?;
    put_snapshot(out, &places.l2)?;
    put_snapshot(out, &places.itlb)?;
    put_snapshot(out, &places.dtlb)
}

/// Counters, a byte each.
fn put_counters(out: &mut Vec<u8>, counters: &[u8]) -> Result<(), NoMemory>
    ensures { OnOk result (out.new.items ≡ out.old.items ++ flat_map byte counters.now) }
{
    out.extend_from_slice(counters)?;
    Ok(())
}

#[tactic(auto, unfolding(crate::specs::Format::image))]
fn put_image(out: &mut Vec<u8>, image: &PredictorImage) -> Result<(), NoMemory>
    ensures { OnOk result (out.new.items ≡ out.old.items ++ image_text image.now) }
{
    put_counters(out, image.counters())?;
    put_word(out, image.history())?;
    put_pairs(out, image.targets())?;
    put_byte(out, image.stack().len() as u8)?;
    put_words(out, image.stack())
}

fn put_images(out: &mut Vec<u8>, images: &Images) -> Result<(), NoMemory>
    ensures { OnOk result (out.new.items ≡ out.old.items ++ flat_map image_text images.now) }
{
    let count = images.len();
    for i in 0..count {
        put_image(out, images.at(i))?;
    }
    Ok(())
}

/// The registers that are spelled: all but the first.
fn put_registers(out: &mut Vec<u8>, regs: &[u32; 32]) -> Result<(), NoMemory>
    ensures { OnOk result (out.new.items ≡ out.old.items ++ flat_map word (drop 1 regs.now)) }
{
    let (_zero, spelled) = regs.split_at(1);
    put_words(out, spelled)
}

/// What a point tells of the program's state, but for its memory.
fn put_state(out: &mut Vec<u8>, point: &LivePoint) -> Result<(), NoMemory>
    ensures { OnOk result (out.new.items ≡ out.old.items ++ (word point.now.unit ++ (word point.now.pc
        ++ (flat_map word (drop 1 point.now.regs) ++ word point.now.brk)))) }
{
    put_word(out, point.unit)?;
    put_word(out, point.pc)?;
    put_registers(out, &point.regs)?;
    put_word(out, point.brk)
}

/// A point beside a table.
#[tactic(auto, unfolding(crate::specs::Format::point))]
pub fn put_point(
    alloc: Global,
    out: &mut Vec<u8>,
    first: bool,
    shared: &Shared,
    point: &LivePoint,
) -> Result<(), NoMemory>
    ensures { OnOk result (out.new.items ≡ out.old.items ++ point_text first shared.now point.now) }
{
    put_state(out, point)?;
    put_memory(alloc, out, first, shared, &point.words)?;
    put_snapshots(out, &point.places)?;
    put_images(out, &point.images)
}
