ghost use Rattle.std.specs.Prelude.{◌≡◌, ℕ, ◌+◌, ◌*◌, ◌^◌, ◌<◌, ◌≤◌};
ghost use Rattle.std.specs.Option.{SomeIff};
ghost use Rattle.lru_plain.specs.Shape.{Shape, IsShape, sets_of, block_of, home_of};

use std::marker::Model;

/// The shape of a cache or TLB: the line of a block, the sets that its blocks are dealt out to, and the
/// blocks that a set holds.
#[derive(Clone, Copy, Debug, PartialEq, Eq)]
pub struct Geometry {
    line_log: u8,
    sets_log: u8,
    ways: u8,
}

impl Model for Geometry {
    ghost use Rattle.lru_plain.specs.Shape.{Shape, IsShape};

    ghost Value = { Shape };

    ghost use Rattle.lru_plain.specs.View.{shape_of, fields_of};

    ghost view = { shape_of };

    ghost invariant = { λ fields. IsShape (shape_of fields) };

    ghost inverse = { fields_of };
}

impl Geometry {
    /// The geometry with lines of `2^line_log` bytes, `2^sets_log` sets and so many ways. There is none
    /// where the line isn't of 16 to 256 bytes or of 4096 (a page), there are more than 4096 sets, or
    /// the ways aren't 1 to 16.
    pub fn new(line_log: u8, sets_log: u8, ways: u8) -> Option<Geometry>
        ensures { let shape : Shape = record { line_log = line_log; sets_log = sets_log; ways = ways } in
            SomeIff result (IsShape shape) shape }
    {
        let is_line = matches!(line_log, 4..=8 | 12);
        if is_line && sets_log <= 12 && 1 <= ways && ways <= 16 {
            Some(Geometry {
                line_log,
                sets_log,
                ways,
            })
        } else {
            None
        }
    }

    pub fn line_log(&self) -> u8
        ensures value { result ≡ self.now.line_log }
        ensures shape { IsShape self.now }
    {
        self.line_log
    }

    pub fn sets_log(&self) -> u8
        ensures value { result ≡ self.now.sets_log }
        ensures shape { IsShape self.now }
    {
        self.sets_log
    }

    pub fn ways(&self) -> u8
        ensures value { result ≡ self.now.ways }
        ensures shape { IsShape self.now }
    {
        self.ways
    }

    /// The number of sets.
    pub fn sets(&self) -> u32
        ensures value { result ≡ sets_of self.now }
        ensures shape { IsShape self.now }
    {
        1 << self.sets_log
    }

    /// The block that an address lies in.
    pub fn block_of(&self, addr: u32) -> u32
        ensures { result ≡ block_of self.now addr }
    {
        addr >> self.line_log
    }

    /// The number of the set that a block belongs to.
    pub fn home_of(&self, block: u32) -> u32
        ensures value { result ≡ home_of self.now block }
        ensures below { result < sets_of self.now }
    {
        block & (self.sets() - 1)
    }

    /// Where the places of a set begin in a row that has as many to each set as there are ways.
    #[inline]
    #[tactic(auto, using(crate::proofs::ListsLemmas::start_fits))]
    pub fn start_of(&self, set: u32) -> usize
        requires { set < sets_of self.now }
        ensures value { result ≡ set * self.now.ways }
        ensures within { result + self.now.ways ≤ sets_of self.now * self.now.ways }
    {
        set as usize * usize::from(self.ways())
    }
}
