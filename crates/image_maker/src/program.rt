ghost use Rattle.std.specs.Prelude.{◌≡◌, ◌++◌, ◌+◌, ◌<◌, ◌≤◌, length, All, OnOk, IfOk};
ghost use Rattle.rv_isa.specs.Table.{IsEncodable};
ghost use Rattle.image_maker.specs.Choice.{IsChoice};
ghost use Rattle.image_maker.specs.Program as meaning;

use crate::assembly::{add, addi, and, andi, beq, bne, lui, lw, mul, sw, xor};
use crate::choice::{Choice, Kind, choose};
use rv_isa::Inst;
use smarts_base::{Draws, NoMemory};
use std::alloc::Global;

/// How many groups of instructions the loop has.
const GROUPS: u32 = 64;

/// Sets the registers that the loop works with: the data's place, the mask of distances in it, and
/// the turns to come.
#[tactic(auto, unfolding(crate::specs::Program::start))]
fn start(size: u32) -> [Inst; 5]
    requires { size ≤ 1_000_000 }
    ensures value { result ≡ meaning.start size }
    ensures encodable { All IsEncodable result }
{
    let high = (size + 2048) / 4096 * 4096;
    [
        lui(8, 0x20000),
        lui(18, 0x10000),
        addi(18, 18, -4),
        lui(9, high as i32),
        addi(9, 9, size as i32 - high as i32),
    ]
}

/// The four instructions of a group.
fn group(choice: &Choice) -> [Inst; 4]
    requires { IsChoice choice.now }
    ensures value { result ≡ meaning.group_of choice.now }
    ensures encodable { All IsEncodable result }
{
    let (a, b, m) = (choice.first, choice.second, choice.amount);
    match choice.kind {
        Kind::Mix => [add(a, a, b), xor(b, b, a), addi(a, a, m), mul(b, b, a)],
        Kind::Load => [addi(7, 7, 4 * m), and(7, 7, 18), add(6, 7, 8), lw(a, 6, 0)],
        Kind::Store => [addi(7, 7, 4 * m), and(7, 7, 18), add(6, 7, 8), sw(6, b, 0)],
        Kind::Branch => [andi(6, a, 1), beq(6, 0, 4), addi(a, a, m), xor(b, b, a)],
    }
}

/// Ends a turn, and then the program, with exit code 0.
fn end() -> [Inst; 5]
    ensures value { result ≡ meaning.turn_end ++ meaning.exit }
    ensures encodable { All IsEncodable result }
{
    [
        addi(9, 9, -1),
        bne(9, 0, -1028),
        addi(17, 0, 93),
        addi(10, 0, 0),
        Inst::Ecall,
    ]
}

/// The instructions of the program whose loop turns `size` times.
pub fn program(alloc: Global, size: u32, seed: u64) -> Result<Vec<Inst>, NoMemory>
    requires { size ≤ 1_000_000 }
    ensures value { IfOk result (λ program. program.items ≡ meaning.program size seed) }
    ensures encodable { IfOk result (λ program. All IsEncodable program.items) }
{
    let mut program = Vec::with_capacity(alloc, 266)?;
    program.extend_from_slice(&start(size))?;
    let mut draws = Draws { state: seed };
    for _ in 0..GROUPS {
        program.extend_from_slice(&group(&choose(&mut draws)))?;
    }
    program.extend_from_slice(&end())?;
    Ok(program)
}
