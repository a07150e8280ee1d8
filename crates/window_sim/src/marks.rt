ghost use Rattle.std.specs.Prelude.{◌≡◌, ◌<◌, ◌^◌, ◌*◌, ◌+◌, ◌↔◌, ◌==◌, Bool, IsTrue};
ghost use Rattle.std.specs.Option.{IsSome};
ghost use Rattle.hierarchy.specs.Marked.{IsMarked, accesses_memory};
ghost use Rattle.window_sim.specs.Marks.{class_at, register_at, word_by, mark_in, marks_in};

use hierarchy::Marked;
use ruu_timing::Trace;
use rv_isa::Class;

fn class_number(class: Class) -> u64
    ensures back { class_at result ≡ class }
    ensures most { result < 8 }
{
    match class {
        Class::Alu => 0,
        Class::Mul => 1,
        Class::Div => 2,
        Class::Load => 3,
        Class::Store => 4,
        Class::Control => 5,
        Class::Ecall => 6,
    }
}

fn class_at(number: u64) -> Class
    ensures { result ≡ class_at number }
{
    match number {
        0 => Class::Alu,
        1 => Class::Mul,
        2 => Class::Div,
        3 => Class::Load,
        4 => Class::Store,
        5 => Class::Control,
        _ => Class::Ecall,
    }
}

fn register_number(register: Option<u8>) -> u64
    ensures back { register_at result ≡ register }
    ensures most { result < 512 }
{
    match register {
        None => 0,
        Some(register) => register as u64 + 1,
    }
}

fn register_at(number: u64) -> Option<u8>
    ensures { result ≡ register_at number }
{
    if number == 0 {
        None
    } else {
        Some(((number - 1) % 256) as u8)
    }
}

fn flag_number(flag: bool) -> u64
    ensures back { (result == 1) ≡ flag }
    ensures most { result < 2 }
{
    if flag { 1 } else { 0 }
}

/// A load's or store's word, or 0.
fn word_number(class: Class, word: Option<u32>) -> u64
    requires { IsSome word ↔ IsTrue (accesses_memory class) }
    ensures back { word_by class result ≡ word }
    ensures most { result < 2 ^ 32 }
{
    match word {
        Some(word) => word as u64,
        None => 0,
    }
}

fn word_by(class: Class, word: u32) -> Option<u32>
    ensures { result ≡ word_by class word }
{
    match class {
        Class::Load | Class::Store => Some(word),
        _ => None,
    }
}

/// A mark in two words: its class, flags and registers in the first, its stall, latency and word in the second.
pub fn pack(mark: &Marked) -> (u64, u64)
    requires { IsMarked mark.now }
    ensures { mark_in result.0 result.1 ≡ mark.now }
{
    let one = class_number(mark.class)
        + flag_number(mark.mispredicted) * (1 << 3)
        + flag_number(mark.transferred) * (1 << 4)
        + register_number(mark.first) * (1 << 5)
        + register_number(mark.second) * (1 << 14)
        + register_number(mark.dest) * (1 << 23);
    let other = mark.stall as u64
        + mark.latency as u64 * (1 << 16)
        + word_number(mark.class, mark.word) * (1 << 32);
    (one, other)
}

/// The mark that two words stand for.
fn unpack(one: u64, other: u64) -> Marked
    ensures { result ≡ mark_in one other }
{
    let class = class_at(one % 8);
    Marked {
        class,
        first: register_at((one >> 5) % 512),
        second: register_at((one >> 14) % 512),
        dest: register_at((one >> 23) % 512),
        word: word_by(class, (other >> 32) as u32),
        stall: (other % (1 << 16)) as u32,
        latency: ((other >> 16) % (1 << 16)) as u32,
        mispredicted: (one >> 3) % 2 == 1,
        transferred: (one >> 4) % 2 == 1,
    }
}

/// The trace whose marks stand in words, one in each two.
#[derive(Clone, Copy, Debug)]
pub struct PackedTrace<'a> {
    pub words: &'a [u64],
}

impl<'a> Trace for PackedTrace<'a> {
    ghost items = { λ trace. marks_in trace.words.now };

    #[tactic(auto, using(crate::proofs::MarksLemmas::marks_in_length))]
    fn len(&self) -> usize {
        self.words.len() / 2
    }

    #[tactic(auto, using(crate::proofs::MarksLemmas::mark_at, crate::proofs::MarksLemmas::marks_in_length))]
    fn at(&self, i: usize) -> Marked {
        unpack(self.words[2 * i], self.words[2 * i + 1])
    }
}
