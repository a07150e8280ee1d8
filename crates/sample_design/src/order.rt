ghost use Rattle.std.specs.Prelude.{◌≡◌, ◌<◌, ◌≤◌, ℕ, List, length, slice_index, IfOk, IsPermutation};
ghost use Rattle.std.specs.List.{range_with_len};
ghost use Rattle.sample_design.specs.Order.{order_of};

use smarts_base::{Draws, NoMemory};
use std::alloc::{AllocError, Global};
use std::marker::Model;

/// An order of points: the place of each visit.
#[derive(Debug, Drop)]
pub struct Order {
    places: Vec<u32>,
}

impl Model for Order {
    ghost Value = { List ℕ };

    ghost view = { λ order. order.places.items };

    ghost invariant = { λ order. length order.places.items ≤ 65536 };
}

impl Order {
    /// How many points there are.
    pub fn len(&self) -> u32
        ensures { result ≡ length self.now }
    {
        self.places.len() as u32
    }

    /// The point that is visited at turn `k`, counted from 0.
    pub fn at(&self, k: u32) -> u32
        requires { k < length self.now }
        ensures { result ≡ slice_index self.now k }
    {
        self.places[k as usize]
    }
}

/// The points 0 to `n` - 1 in order.
fn in_order(alloc: Global, n: u32) -> Result<Vec<u32>, AllocError>
    ensures { IfOk result (λ places. places.items ≡ range_with_len 0 n) }
{
    (0..n).collect(alloc)
}

/// Shuffles the points 0 to `n` - 1. From the last place down to place 1, the value there is
/// exchanged with that of a drawn place at most as high.
#[tactic(auto, using(crate::proofs::Orders::length_of_order))]
pub fn visit_order(alloc: Global, n: u32, seed: u64) -> Result<Order, NoMemory>
    requires some { 0 < n }
    requires few { n ≤ 65536 }
    ensures order { IfOk result (λ order. order ≡ order_of n seed) }
    ensures permutation { IfOk result (λ order. IsPermutation (range_with_len 0 n) order) }
    ensures len { IfOk result (λ order. length order ≡ n) }
    ensures below { IfOk result (λ order. (k : ℕ) → k < n → slice_index order k < n) }
{
    let mut places = in_order(alloc, n)?;
    let mut draws = Draws { state: seed };
    for i in (1..n).rev() {
        let other = draws.draw() % (i + 1);
        places.swap(i as usize, other as usize);
    }
    Ok(Order { places })
}
