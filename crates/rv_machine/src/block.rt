ghost use Rattle.std.specs.Prelude.{◌≡◌, ◌+◌, ◌-◌, ◌<◌, ◌≤◌, ◌++◌, nat_lt, length, slice_get, slice_set, if◌then◌else◌, vec_len, vec_capacity, IfOk};
ghost use Rattle.rv_machine.specs.Start.{zeros};

use smarts_base::NoMemory;
use std::alloc::Global;
use std::marker::Model;

/// How many words are filled behind one that is written: a page of them.
const PAGE: usize = 1024;

/// Words of memory that are 0 until they are written.
///
/// Room for all is had at the start, but only a front of it is filled: an untouched heap costs no
/// time. What is behind the front is 0.
#[derive(Debug, Drop)]
pub struct Block {
    front: Vec<u32>,
    size: usize,
}

impl Model for Block {
    ghost use Rattle.std.specs.Prelude.{List, ℕ};

    ghost Value = { List ℕ };

    ghost use Rattle.rv_machine.specs.Block.{words_in, HasRoom};

    ghost view = { words_in };

    ghost invariant = { HasRoom };
}

impl Block {
    /// So many words, of which the first are given. There is room for all in the vector.
    pub fn new(front: Vec<u32>, size: usize) -> Block
        requires within { vec_len front ≤ size }
        requires room { size ≤ vec_capacity front }
        ensures { result ≡ front.items ++ zeros (size - vec_len front) }
    {
        Block { front, size }
    }

    /// The word of that number.
    // Inlined, as `set` is: every fetch, load and store comes here.
    #[inline(always)]
    pub fn get(&self, at: usize) -> Option<u32>
        ensures { result ≡ slice_get self.now at }
    {
        if at < self.front.len() {
            return Some(self.front[at]);
        }
        if at < self.size { Some(0) } else { None }
    }

    /// Changes the word of that number, and tells whether there is one.
    #[inline(always)]
    pub fn set(&mut self, at: usize, value: u32) -> bool
        ensures held { result ≡ nat_lt at (length self.old) }
        ensures words { self.new ≡ (if result then slice_set self.old at value else self.old) }
    {
        if at < self.front.len() {
            self.front[at] = value;
            return true;
        }
        if at >= self.size {
            return false;
        }
        grow(&mut self.front, at, self.size);
        self.front[at] = value;
        true
    }
}

/// Fills the front with zeros up to a word past its end, and a page further where there is one.
// Out of the way of `set`: few stores come here, since each fills a page.
#[cold]
#[inline(never)]
fn grow(front: &mut Vec<u32>, at: usize, size: usize)
    requires behind { vec_len front.old ≤ at }
    requires within { at < size }
    requires room { size ≤ vec_capacity front.old }
    ensures reaches { at < vec_len front.new }
    ensures within { vec_len front.new ≤ size }
    ensures room { size ≤ vec_capacity front.new }
    ensures same { front.new.items ++ zeros (size - vec_len front.new)
        ≡ front.old.items ++ zeros (size - vec_len front.old) }
{
    let len = size.min(at.saturating_add(PAGE));
    let filled = front.resize(len, 0).is_ok();
    prove!(filled);
}
