ghost use Rattle.std.specs.Prelude.{◌≡◌, ◌<◌, ◌≤◌, ◌+◌, ◌++◌, ℕ, List, length, vec_len, IfOk, IfSome, OnOk, OnErr, Result, Ok, Err, MatchResult};
ghost use Rattle.smarts_io.specs.Bytes.{Gives, IsAtEnd, cut_past};
ghost use Rattle.smarts_io.specs.Causes.{Rose};
ghost use Rattle.smarts_io.specs.declared.reading.ReadError.TheVariants.{NoMemory};

use crate::{Failed, Source};
use std::alloc::{AllocError, Global};

/// How many bytes one read asks for at most.
const PIECE: usize = 65_536;

/// Why not everything was read.
#[derive(Clone, Copy, Debug, PartialEq, Eq)]
pub enum ReadError {
    /// The source failed.
    Failed,
    /// Memory could not be had.
    NoMemory,
}

impl From<AllocError> for ReadError {
    ghost from_gives = { λ _ e. e ≡ NoMemory };

    fn from(_error: AllocError) -> ReadError {
        ReadError::NoMemory
    }
}

/// Reads to the end of the input, or to one byte more than the limit, whichever comes first. After an error
/// some of the source's first bytes, perhaps none, are lost.
pub fn read_all<S: Source>(
    alloc: Global,
    source: &mut S,
    limit: usize,
) -> Result<Vec<u8>, ReadError>
    ensures bytes { IfOk result (λ bytes.
        IfSome (S.rest source.old) (λ rest. bytes.items ≡ cut_past limit rest)) }
    ensures within { IfOk result (λ bytes. vec_len bytes ≤ limit + 1) }
    ensures given { IfOk result (λ bytes. Gives (S.rest source.old) bytes.items (S.rest source.new)) }
    ensures front { (given : List ℕ) × Gives (S.rest source.old) given (S.rest source.new) }
    ensures failed { result ≡ Err ReadError.Failed → Rose (S.faults source.old) (S.faults source.new) }
    ensures later { S.faults source.old ≤ S.faults source.new }
{
    let mut buffer = zeros(alloc, PIECE)?;
    let mut out = Vec::new(alloc);
    while out.len() <= limit {
        let room = limit - out.len();
        let most = if room < PIECE { room + 1 } else { PIECE };
        let count = read_piece(source, &mut buffer[..most], &mut out)?;
        if count == 0 {
            return Ok(out);
        }
    }
    Ok(out)
}

fn zeros(alloc: Global, len: usize) -> Result<Vec<u8>, AllocError>
    ensures { IfOk result (λ bytes. vec_len bytes ≡ len) }
{
    vec![in alloc; 0u8; len]
}

// Reads once into the buffer, and appends what came. After an error `out` is as it was.
fn read_piece<S: Source>(
    source: &mut S,
    buffer: &mut [u8],
    out: &mut Vec<u8>,
) -> Result<usize, ReadError>
    requires { 0 < length buffer.old }
    ensures given { (given : List ℕ) × Gives (S.rest source.old) given (S.rest source.new)
        × OnOk result (out.new.items ≡ out.old.items ++ given) }
    ensures count { IfOk result (λ n. vec_len out.new ≡ vec_len out.old + n) }
    ensures within { IfOk result (λ n. n ≤ length buffer.old) }
    ensures end { IfOk result (λ n. n ≡ 0 → IsAtEnd (S.rest source.new)) }
    ensures failed { result ≡ Err ReadError.Failed → Rose (S.faults source.old) (S.faults source.new) }
    ensures later { S.faults source.old ≤ S.faults source.new }
{
    let count = match source.read(buffer) {
        Ok(count) => count,
        Err(Failed) => return Err(ReadError::Failed),
    };
    out.extend_from_slice(&buffer[..count])?;
    Ok(count)
}
