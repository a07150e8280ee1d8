ghost use Rattle.std.specs.Prelude.{◌≡◌, ◌≤◌, ◌++◌, Ok, length, flat_map, IfOk, OnOk};
ghost use Rattle.livepoint_format.specs.Decoding.{library_of};
ghost use Rattle.livepoint_format.specs.Format.{header as header_text, point as point_text, is_first, spelling};
ghost use Rattle.livepoint_format.specs.Encoding.{Cut};
ghost use Rattle.livepoint_format.specs.Views.{head_of};

use crate::lengths::{encoded_len, header_len, point_len};
use crate::library::Library;
use crate::point_writing::put_point;
use crate::shared::Shared;
use crate::writing::{put_header, put_word};
use live_points::{Header, LivePoint};
use smarts_base::NoMemory;
use std::alloc::Global;

/// The letters TEND.
const END: u32 = 0x444E_4554;

/// Writes a header, and its table where it has one, behind what `out` holds. After want of memory `out` may hold
/// the front of it.
#[tactic(auto, using(crate::proofs::EncodingLemmas::cut_none, crate::proofs::EncodingLemmas::cut_all))]
pub fn encode_header(
    alloc: Global,
    header: &Header,
    shared: &Shared,
    out: &mut Vec<u8>,
) -> Result<(), NoMemory>
    ensures ok { OnOk result (out.new.items ≡ out.old.items ++ header_text (head_of header.now) shared.now) }
    ensures front { Cut out.old.items out.new.items (header_text (head_of header.now) shared.now) }
{
    let len = header_len(header, shared);
    let mut text = Vec::with_capacity(alloc, len as usize)?;
    put_header(&mut text, header, shared)?;
    out.extend_from_slice(text.as_slice())?;
    Ok(())
}

/// Writes a point beside this table in the version of this header, behind what `out` holds. After want of memory
/// `out` may hold the front of it.
#[tactic(auto, using(crate::proofs::EncodingLemmas::cut_none, crate::proofs::EncodingLemmas::cut_all))]
pub fn encode_point(
    alloc: Global,
    header: &Header,
    shared: &Shared,
    point: &LivePoint,
    out: &mut Vec<u8>,
) -> Result<(), NoMemory>
    ensures ok { OnOk result (out.new.items ≡ out.old.items ++ point_text (is_first (head_of header.now)) shared.now point.now) }
    ensures front { Cut out.old.items out.new.items (point_text (is_first (head_of header.now)) shared.now point.now) }
{
    let first = header.version == 1;
    let mut text = Vec::with_capacity(alloc, point_len(first, shared, point) as usize)?;
    put_point(alloc, &mut text, first, shared, point)?;
    out.extend_from_slice(text.as_slice())?;
    Ok(())
}

/// Points one behind the other.
fn put_points(
    alloc: Global,
    out: &mut Vec<u8>,
    first: bool,
    shared: &Shared,
    points: &[LivePoint],
) -> Result<(), NoMemory>
    ensures { OnOk result (out.new.items ≡ out.old.items ++ flat_map (point_text first shared.now) points.now) }
{
    for i in 0..points.len() {
        put_point(alloc, out, first, shared, &points[i])?;
    }
    Ok(())
}

/// The bytes of a library in front of its end.
fn parts_of(alloc: Global, library: &Library) -> Result<Vec<u8>, NoMemory>
    ensures { IfOk result (λ bytes. bytes.items ≡ header_text library.now.head library.now.shared
        ++ flat_map (point_text (is_first library.now.head) library.now.shared) library.now.points) }
{
    let mut bytes = Vec::with_capacity(alloc, encoded_len(library) as usize)?;
    let header = library.header();
    put_header(&mut bytes, header, library.shared())?;
    put_points(
        alloc,
        &mut bytes,
        header.version == 1,
        library.shared(),
        library.points(),
    )?;
    Ok(bytes)
}

/// The bytes of a library. Those of one that is longer than a library may be are written too, but aren't read.
pub fn encode_library(alloc: Global, library: &Library) -> Result<Vec<u8>, NoMemory>
    ensures bytes { IfOk result (λ bytes. bytes.items ≡ spelling library.now) }

    // They are read as what they were written from.
    ensures read { IfOk result (λ bytes. length bytes.items ≤ 1073741824 → library_of bytes.items ≡ Ok library.now) }
{
    let _header = library.header();
    let mut bytes = parts_of(alloc, library)?;
    put_word(&mut bytes, END)?;
    Ok(bytes)
}
