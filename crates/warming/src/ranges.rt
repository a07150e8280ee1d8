//! What types tell of their values. These functions do nothing: proofs read their contracts.

ghost use Rattle.std.specs.Prelude.{◌≡◌, ◌<◌, ◌%◌, ◌^◌, ℕ, length, slice_index, All};

use rv_exec::Core;

/// A number has 32 bits.
pub fn number_fits(_number: u32)
    ensures { _number < 2 ^ 32 }
{}

pub fn numbers_fit(_numbers: &[u32])
    ensures { All (λ number. number < 2 ^ 32) _numbers.now }
{}

fn pair_fits(_pair: (u32, u32))
    ensures { (_pair.0 < 2 ^ 32) × (_pair.1 < 2 ^ 32) }
{}

pub fn pairs_fit(pairs: &[(u32, u32)])
    ensures { All (λ (pair : ℕ × ℕ). (pair.0 < 2 ^ 32) × (pair.1 < 2 ^ 32)) pairs.now }
{
    for pair in pairs {
        pair_fits(*pair);
    }
}

fn is_a_row(_regs: &[u32; 32])
    ensures { length _regs.now ≡ 32 }
{}

fn stands(_core: &Core)
    ensures pc { _core.now.pc % 4 ≡ 0 }
    ensures zero { slice_index _core.now.regs 0 ≡ 0 }
{}

/// The pc is that of an instruction, and there are 32 registers, of which the first is 0.
pub fn core_fits(core: &Core)
    ensures pc { (core.now.pc % 4 ≡ 0) × (core.now.pc < 2 ^ 32) }
    ensures zero { slice_index core.now.regs 0 ≡ 0 }
    ensures count { length core.now.regs ≡ 32 }
    ensures regs { All (λ number. number < 2 ^ 32) core.now.regs }
{
    stands(core);
    number_fits(core.pc);
    is_a_row(&core.regs);
    numbers_fit(&core.regs);
}
