ghost use Rattle.std.specs.Prelude.{◌≡◌, ◌≤◌, [], ◌∷◌, length, filter, true};
ghost use Rattle.std.specs.List.{list_any};
ghost use Rattle.elf_image.specs.Fields.{has_headers};
ghost use Rattle.elf_image.specs.Segments.{segments_of, is_loaded};
ghost use Rattle.elf_image.specs.Rules.{names_interpreter, verdict, Interpreter};
ghost use Rattle.elf_image.specs.Image.{unless};
ghost use Rattle.smarts_base.specs.Outcome.{Answers};

use crate::fault::ImageFault;
use crate::program_header::{ProgramHeader, program_headers};
use smarts_base::Refusal;
use std::alloc::Global;

fn some_names_interpreter(headers: &[ProgramHeader]) -> bool
    ensures { result ≡ list_any names_interpreter headers.now }
{
    headers.iter().any(|header| header.names_interpreter())
}

/// Passes over the headers that describe no part of memory.
fn keep_loaded(headers: &mut Vec<ProgramHeader>)
    ensures { headers.new.items ≡ filter is_loaded headers.old.items }
{
    headers.retain(|header| header.is_loaded());
}

/// The loaded segments of a file, where it names no interpreter.
#[tactic(auto, unfolding(crate::specs::Rules::breaks, crate::specs::Rules::verdict, crate::specs::Segments::segments_of))]
pub fn loaded_segments(
    alloc: Global,
    bytes: &[u8],
) -> Result<Vec<ProgramHeader>, Refusal<ImageFault>>
    requires header { 52 ≤ length bytes.now }
    requires table { has_headers bytes.now ≡ true }
    ensures { Answers (λ v. v.items) result (unless (verdict bytes.now (Interpreter ∷ [])) (segments_of bytes.now)) }
{
    let mut headers = program_headers(alloc, bytes)?;
    if some_names_interpreter(&headers) {
        return Err(Refusal::Fault(ImageFault::NotExecutable));
    }
    keep_loaded(&mut headers);
    Ok(headers)
}
