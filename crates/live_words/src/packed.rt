ghost use Rattle.std.specs.Prelude.{◌≡◌, ◌≢◌, ◌%◌, ◌<◌, ◌≤◌, ℕ, length, map, slice_index, is_some, if◌then◌else◌, IfSome, IfNone, IsSome};
ghost use Rattle.live_words.specs.Packed.{packed_pair, pair_of, ArePacked, held_words};
ghost use Rattle.rv_exec.specs.Memory.{word_at, stored};

/// An address and its word in one number.
pub fn packed_pair(pair: (u32, u32)) -> u64
    ensures { result ≡ packed_pair pair }
{
    pair.0 as u64 * (1 << 32) + pair.1 as u64
}

/// Writes each pair as one number.
pub fn pack(pairs: &[(u32, u32)], packed: &mut [u64])
    requires { length packed.old ≡ length pairs.now }
    ensures { packed.new ≡ map packed_pair pairs.now }
{
    for index in 0..pairs.len() {
        packed[index] = packed_pair(pairs[index]);
    }
}

/// Where the pair of an address stands, by bisection.
pub fn place_of(packed: &[u64], addr: u32) -> Option<usize>
    requires { ArePacked packed.now }
    ensures some { IfSome result (λ place. (place < length packed.now) × ((pair_of (slice_index packed.now place)).0 ≡ addr)) }
    ensures none { IfNone result ((i : ℕ) → i < length packed.now → (pair_of (slice_index packed.now i)).0 ≢ addr) }
{
    let mut low = 0;
    let mut high = packed.len();
    while low < high {
        let middle = low + (high - low) / 2;
        let here = packed[middle] >> 32;
        if here == u64::from(addr) {
            return Some(middle);
        }
        if here < u64::from(addr) {
            low = middle + 1;
        } else {
            high = middle;
        }
    }
    None
}

/// The word of an address.
pub fn load(packed: &[u64], addr: u32) -> Option<u32>
    requires { ArePacked packed.now }
    ensures value { result ≡ word_at (held_words packed.now) addr }
    ensures aligned { IsSome result → addr % 4 ≡ 0 }
{
    match place_of(packed, addr) {
        Some(place) => Some((packed[place] % (1 << 32)) as u32),
        None => None,
    }
}

/// Changes a word, and tells whether its address is there.
pub fn store(packed: &mut [u64], addr: u32, value: u32) -> bool
    requires { ArePacked packed.old }
    ensures held { result ≡ is_some (word_at (held_words packed.old) addr) }
    ensures words { held_words packed.new
        ≡ (if result then stored (held_words packed.old) addr value else held_words packed.old) }
    ensures packed { ArePacked packed.new }
{
    match place_of(packed, addr) {
        Some(place) => {
            packed[place] = packed_pair((addr, value));
            true
        }
        None => false,
    }
}
