ghost use Rattle.std.specs.Prelude.{◌≡◌, ◌+◌, ◌^◌, ◌≤◌, ◌++◌, OnOk, OnErr};
ghost use Rattle.rv_machine.specs.Output.{byte_at, bytes_at};

use rv_exec::{Buffer, Memory};
use smarts_base::NoMemory;

/// The byte at an address.
#[tactic(auto, unfolding(crate::specs::Output::byte_at, rv_exec::specs::Bytes::byte_in))]
fn byte_at<M: Memory>(memory: &M, addr: u32) -> u8
    requires { M.sound memory.now }
    ensures { result ≡ byte_at (M.words memory.now) addr }
{
    match memory.load_word(addr & !3) {
        Some(word) => word.to_le_bytes()[(addr % 4) as usize],
        None => 0,
    }
}

/// Appends the bytes of a buffer to the output. Where memory for them can't be had, the output is
/// as it was.
#[tactic(auto, using(crate::proofs::OutputLemmas::bytes_none, crate::proofs::OutputLemmas::bytes_more))]
pub fn append<M: Memory>(output: &mut Vec<u8>, memory: &M, buffer: Buffer) -> Result<(), NoMemory>
    requires sound { M.sound memory.now }
    requires end { buffer.addr + buffer.len ≤ 2 ^ 32 }
    ensures ok { OnOk result (output.new.items
        ≡ output.old.items ++ bytes_at (M.words memory.now) buffer.addr buffer.len) }
    ensures err { OnErr result (output.new.items ≡ output.old.items) }
{
    output.reserve(buffer.len as usize)?;
    for offset in 0..buffer.len {
        let pushed = output.push(byte_at(memory, buffer.addr + offset)).is_ok();
        prove!(pushed);
    }
    Ok(())
}
