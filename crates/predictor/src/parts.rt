ghost use Rattle.std.specs.Prelude.{◌≡◌, ◌^◌, ◌<◌, ◌≤◌, length};
ghost use Rattle.smarts_base.specs.Least.{least_below};
ghost use Rattle.predictor.specs.Kind.{IsKind};
ghost use Rattle.predictor.specs.Tables.{tables_with};
ghost use Rattle.predictor.specs.Parts.{is_counter, is_history, is_instruction, is_source, is_target, is_entry, bad_counter, bad_entry, bad_address, fault_of};

use crate::direction::low_bits;
use crate::kind::{PredictorKind, Scheme};

/// The first part of an image that is outside its range.
#[derive(Clone, Copy, Debug, PartialEq, Eq)]
pub struct BadPart {
    /// 0 for the counters, 1 for the history, 2 for the targets, 3 for the stack.
    pub part: u8,
    /// The place in that part.
    pub index: u32,
}

/// Whether this may be a counter: 0 to 3.
pub fn is_counter(counter: u8) -> bool
    ensures { result ≡ is_counter counter }
{
    counter <= 3
}

fn first_bad_counter(counters: &[u8]) -> Option<u32>
    requires { length counters.now < 2 ^ 32 }
    ensures { result ≡ least_below (length counters.now) (bad_counter counters.now) }
{
    for (i, counter) in counters.iter().enumerate() {
        if !is_counter(*counter) {
            return Some(i as u32);
        }
    }
    None
}

/// Whether this may be a history: below `2^bits`, or 0 under the bimodal scheme.
pub fn is_history(kind: PredictorKind, history: u32) -> bool
    requires { IsKind kind }
    ensures { result ≡ is_history kind history }
{
    match kind.scheme {
        Scheme::Bimodal => history == 0,
        Scheme::Gshare => history < 1 << kind.bits,
    }
}

/// Whether an instruction may stand at this address: at a multiple of 4.
pub fn is_instruction(address: u32) -> bool
    ensures { result ≡ is_instruction address }
{
    address % 4 == 0
}

/// Whether the entry at this place of the target table may have this pc: that of an instruction whose place
/// it is, or 1 for no jump.
pub fn is_source(kind: PredictorKind, place: u32, pc: u32) -> bool
    requires { IsKind kind }
    ensures { result ≡ is_source kind place pc }
{
    pc == 1 || is_instruction(pc) && low_bits(pc / 4, kind.target_log) == place
}

/// Whether a jump from this pc may lead here: to an instruction, or to 0 behind 1.
pub fn is_target(pc: u32, target: u32) -> bool
    ensures { result ≡ is_target pc target }
{
    if pc == 1 {
        target == 0
    } else {
        is_instruction(target)
    }
}

/// Whether an entry may stand at this place of the target table.
pub fn is_entry(kind: PredictorKind, place: u32, entry: (u32, u32)) -> bool
    requires { IsKind kind }
    ensures { result ≡ is_entry kind place entry }
{
    let (pc, target) = entry;
    is_source(kind, place, pc) && is_target(pc, target)
}

fn first_bad_entry(kind: PredictorKind, targets: &[(u32, u32)]) -> Option<u32>
    requires kind { IsKind kind }
    requires few { length targets.now < 2 ^ 32 }
    ensures { result ≡ least_below (length targets.now) (bad_entry kind targets.now) }
{
    for (i, entry) in targets.iter().enumerate() {
        if !is_entry(kind, i as u32, *entry) {
            return Some(i as u32);
        }
    }
    None
}

fn first_bad_address(stack: &[u32]) -> Option<u32>
    requires { length stack.now < 2 ^ 32 }
    ensures { result ≡ least_below (length stack.now) (bad_address stack.now) }
{
    for (i, address) in stack.iter().enumerate() {
        if !is_instruction(*address) {
            return Some(i as u32);
        }
    }
    None
}

/// The first place where a part is outside its range.
#[tactic(auto, unfolding(crate::specs::Parts::fault_of))]
pub fn first_fault(
    kind: PredictorKind,
    counters: &[u8],
    history: u32,
    targets: &[(u32, u32)],
    stack: &[u32],
) -> Option<BadPart>
    requires kind { IsKind kind }
    requires counters { length counters.now < 2 ^ 32 }
    requires targets { length targets.now < 2 ^ 32 }
    requires stack { length stack.now < 2 ^ 32 }
    ensures { result ≡ fault_of (tables_with kind counters.now history targets.now stack.now) }
{
    if let Some(index) = first_bad_counter(counters) {
        return Some(BadPart { part: 0, index });
    }
    if !is_history(kind, history) {
        return Some(BadPart { part: 1, index: 0 });
    }
    if let Some(index) = first_bad_entry(kind, targets) {
        return Some(BadPart { part: 2, index });
    }
    match first_bad_address(stack) {
        None => None,
        Some(index) => Some(BadPart { part: 3, index }),
    }
}
