ghost use Rattle.std.specs.Prelude.{◌≡◌, ◌++◌, ◌<◌, ◌≤◌, ◌^◌, length, flat_map, OnOk};
ghost use Rattle.livepoint_format.specs.Format.{byte, word, long, pair as pair_text, geometry as geometry_text, geometries, kind as kind_text, kinds_text, head as head_text, table, header as header_text, magic};
ghost use Rattle.livepoint_format.specs.Views.{head_of};

use crate::header::MAGIC;
use crate::shared::Shared;
use hierarchy::Places;
use live_points::{Header, Kinds};
use lru_plain::Geometry;
use predictor::{PredictorKind, Scheme};
use smarts_base::NoMemory;

#[tactic(auto, unfolding(crate::specs::Format::byte))]
pub fn put_byte(out: &mut Vec<u8>, n: u8) -> Result<(), NoMemory>
    ensures { OnOk result (out.new.items ≡ out.old.items ++ byte n) }
{
    out.extend_from_slice(&n.to_le_bytes())?;
    Ok(())
}

#[tactic(auto, unfolding(crate::specs::Format::word))]
pub fn put_word(out: &mut Vec<u8>, n: u32) -> Result<(), NoMemory>
    ensures { OnOk result (out.new.items ≡ out.old.items ++ word n) }
{
    out.extend_from_slice(&n.to_le_bytes())?;
    Ok(())
}

#[tactic(auto, unfolding(crate::specs::Format::long))]
pub fn put_long(out: &mut Vec<u8>, n: u64) -> Result<(), NoMemory>
    ensures { OnOk result (out.new.items ≡ out.old.items ++ long n) }
{
    out.extend_from_slice(&n.to_le_bytes())?;
    Ok(())
}

#[tactic(auto, unfolding(crate::specs::Format::pair))]
pub fn put_pair(out: &mut Vec<u8>, pair: (u32, u32)) -> Result<(), NoMemory>
    ensures { OnOk result (out.new.items ≡ out.old.items ++ pair_text pair) }
{
    put_word(out, pair.0)?;
    put_word(out, pair.1)
}

/// Pairs one behind the other.
pub fn put_pairs(out: &mut Vec<u8>, pairs: &[(u32, u32)]) -> Result<(), NoMemory>
    ensures { OnOk result (out.new.items ≡ out.old.items ++ flat_map pair_text pairs.now) }
{
    for i in 0..pairs.len() {
        put_pair(out, pairs[i])?;
    }
    Ok(())
}

#[tactic(auto, unfolding(crate::specs::Format::geometry))]
fn put_geometry(out: &mut Vec<u8>, shape: Geometry) -> Result<(), NoMemory>
    ensures { OnOk result (out.new.items ≡ out.old.items ++ geometry_text shape) }
{
    put_byte(out, shape.line_log())?;
    put_byte(out, shape.sets_log())?;
    put_byte(out, shape.ways())?;
    put_byte(out, 0)
}

#[tactic(auto, unfolding(crate::specs::Format::geometries))]
fn put_geometries(out: &mut Vec<u8>, shapes: &Places<Geometry>) -> Result<(), NoMemory>
    ensures { OnOk result (out.new.items ≡ out.old.items ++ geometries shapes.now) }
{
    put_geometry(out, shapes.l1i)?;
    put_geometry(out, shapes.l1d)?;
    put_geometry(out, shapes.l2)?;
    put_geometry(out, shapes.itlb)?;
    put_geometry(out, shapes.dtlb)
}

#[tactic(auto, unfolding(crate::specs::Format::kind))]
fn put_kind(out: &mut Vec<u8>, kind: PredictorKind) -> Result<(), NoMemory>
    ensures { OnOk result (out.new.items ≡ out.old.items ++ kind_text kind) }
{
    let scheme = match kind.scheme {
        Scheme::Bimodal => 0,
        Scheme::Gshare => 1,
    };
    put_byte(out, scheme)?;
    put_byte(out, kind.bits)?;
    put_byte(out, kind.target_log)?;
    put_byte(out, kind.depth)
}

fn put_kind_list(out: &mut Vec<u8>, kinds: &[PredictorKind]) -> Result<(), NoMemory>
    ensures { OnOk result (out.new.items ≡ out.old.items ++ flat_map kind_text kinds.now) }
{
    for i in 0..kinds.len() {
        put_kind(out, kinds[i])?;
    }
    Ok(())
}

#[tactic(auto, unfolding(crate::specs::Format::kinds_text))]
fn put_kinds(out: &mut Vec<u8>, kinds: &Kinds) -> Result<(), NoMemory>
    ensures { OnOk result (out.new.items ≡ out.old.items ++ kinds_text kinds.now) }
{
    put_byte(out, kinds.len() as u8)?;
    put_byte(out, 0)?;
    put_byte(out, 0)?;
    put_byte(out, 0)?;
    put_kind_list(out, kinds.as_slice())
}

/// The fields up to the length of the window's warming.
fn put_run(out: &mut Vec<u8>, header: &Header) -> Result<(), NoMemory>
    ensures { OnOk result (out.new.items ≡ out.old.items ++ (word magic ++ (word header.now.version ++ (long header.now.length ++ word header.now.points)))) }
{
    put_word(out, MAGIC)?;
    put_word(out, header.version)?;
    put_long(out, header.length)?;
    put_word(out, header.points)
}

fn put_design(out: &mut Vec<u8>, header: &Header) -> Result<(), NoMemory>
    ensures { OnOk result (out.new.items ≡ out.old.items ++ (word header.now.design.unit ++ (word header.now.design.warm
        ++ (word header.now.design.every ++ word header.now.design.offset)))) }
{
    put_word(out, header.design.unit)?;
    put_word(out, header.design.warm)?;
    put_word(out, header.design.every)?;
    put_word(out, header.design.offset)
}

fn put_rest(out: &mut Vec<u8>, header: &Header) -> Result<(), NoMemory>
    ensures { OnOk result (out.new.items ≡ out.old.items ++ (word header.now.heap_low ++ (long header.now.design.seed
        ++ (geometries header.now.records.places ++ kinds_text header.now.records.kinds)))) }
{
    put_word(out, header.heap_low)?;
    put_long(out, header.design.seed)?;
    put_geometries(out, &header.records.places)?;
    put_kinds(out, &header.records.kinds)
}

#[tactic(auto, unfolding(crate::specs::Format::head))]
fn put_head(out: &mut Vec<u8>, header: &Header) -> Result<(), NoMemory>
    ensures { OnOk result (out.new.items ≡ out.old.items ++ head_text (head_of header.now)) }
{
    put_run(out, header)?;
    put_design(out, header)?;
    put_rest(out, header)
}

/// The table, which version 1 doesn't have.
#[tactic(auto, unfolding(crate::specs::Format::table))]
fn put_table(out: &mut Vec<u8>, first: bool, shared: &Shared) -> Result<(), NoMemory>
    ensures { OnOk result (out.new.items ≡ out.old.items ++ table first shared.now) }
{
    if first {
        return Ok(());
    }
    put_word(out, shared.len())?;
    put_pairs(out, shared.as_slice())
}

/// A header, and the table behind it.
#[tactic(auto, unfolding(crate::specs::Format::header))]
pub fn put_header(out: &mut Vec<u8>, header: &Header, shared: &Shared) -> Result<(), NoMemory>
    ensures { OnOk result (out.new.items ≡ out.old.items ++ header_text (head_of header.now) shared.now) }
{
    put_head(out, header)?;
    put_table(out, header.version == 1, shared)
}
