ghost use Rattle.std.specs.Prelude.{◌≡◌, ◌≤◌, ◌∷◌, [], ◌++◌, length};
ghost use Rattle.predictor.specs.Rules.{latest};

use arrayvec::ArrayVec;

/// Puts an address on top. A full stack loses its bottom.
pub fn push(stack: &mut ArrayVec<u32, 16>, depth: usize, address: u32)
    requires depth { depth ≤ 16 }
    requires stack { length stack.old.items ≤ depth }
    ensures { stack.new.items ≡ latest depth (stack.old.items ++ address ∷ []) }
{
    if depth == 0 {
        return;
    }
    if stack.len() == depth {
        stack.remove(0);
    }
    stack.push(address);
}

/// A stack of these addresses, the first at the bottom.
pub fn of(addresses: &[u32]) -> ArrayVec<u32, 16>
    requires { length addresses.now ≤ 16 }
    ensures { result.items ≡ addresses.now }
{
    let mut stack = ArrayVec::new();
    for address in addresses {
        stack.push(*address);
    }
    stack
}
