ghost use Rattle.std.specs.Prelude.{◌≡◌, ◌⊎◌, ◌+◌, ◌%◌, ◌^◌, ◌<◌, ◌≤◌, ℕ, suc, length, slice_index, is_some, if◌then◌else◌, IfSome, IfNone, IsSome};
ghost use Rattle.live_words.specs.Slots.{slot_of, upper_at, taken, slotted_words, home_of, IsOther, IsPlaceFor, AreSlots};
ghost use Rattle.live_words.specs.Words.{AreWords, memory_of};
ghost use Rattle.rv_exec.specs.Memory.{word_at, stored};

/// The place at which an address is sought first: multiplicative hashing by the golden ratio (Knuth, "The
/// Art of Computer Programming", volume 3), scaled to the number of slots without a division.
fn home_of(count: usize, addr: u32) -> usize
    requires { count ≤ 2 ^ 32 }
    ensures value { result ≡ home_of count addr }
    ensures within { result ≤ count }
{
    let hash = addr.wrapping_mul(0x9E37_79B1);
    ((u64::from(hash) * count as u64) >> 32) as usize
}

/// An address and its word in one slot.
fn slot_of(pair: (u32, u32)) -> u64
    requires { pair.0 + 1 < 2 ^ 32 }
    ensures { result ≡ slot_of pair }
{
    (pair.0 as u64 + 1) * (1 << 32) + pair.1 as u64
}

/// The first place in a range whose slot is free or has the address.
fn place_between(slots: &[u64], addr: u32, from: usize, to: usize) -> Option<usize>
    requires { to ≤ length slots.now }
    ensures within { IfSome result (λ place. (from ≤ place) × (place < to)) }
    ensures stops { IfSome result (λ place. (upper_at slots.now place ≡ 0) ⊎ (upper_at slots.now place ≡ suc addr)) }
    ensures others { IfSome result (λ place. (other : ℕ) → from ≤ other → other < place → IsOther slots.now addr other) }
    ensures none { IfNone result ((other : ℕ) → from ≤ other → other < to → IsOther slots.now addr other) }
{
    for place in from..to {
        let upper = slots[place] >> 32;
        if upper == 0 || upper == u64::from(addr) + 1 {
            return Some(place);
        }
    }
    None
}

/// Where the search for an address ends, by linear probing: None where all slots are taken by others.
fn place_for(slots: &[u64], addr: u32) -> Option<usize>
    requires { length slots.now ≤ 2 ^ 32 }
    ensures some { IfSome result (λ place. IsPlaceFor slots.now addr place) }
    ensures none { IfNone result ((other : ℕ) → other < length slots.now → IsOther slots.now addr other) }
{
    let home = home_of(slots.len(), addr);
    match place_between(slots, addr, home, slots.len()) {
        Some(place) => Some(place),
        None => place_between(slots, addr, 0, home),
    }
}

/// The word of an address.
pub fn load(slots: &[u64], addr: u32) -> Option<u32>
    requires { AreSlots slots.now }
    ensures value { result ≡ word_at (slotted_words slots.now) addr }
    ensures aligned { IsSome result → addr % 4 ≡ 0 }
{
    let slot = slots[place_for(slots, addr)?];
    if slot >> 32 == 0 {
        return None;
    }
    Some((slot % (1 << 32)) as u32)
}

/// Changes a word, and tells whether its address is there.
pub fn store(slots: &mut [u64], addr: u32, value: u32) -> bool
    requires { AreSlots slots.old }
    ensures held { result ≡ is_some (word_at (slotted_words slots.old) addr) }
    ensures words { slotted_words slots.new
        ≡ (if result then stored (slotted_words slots.old) addr value else slotted_words slots.old) }
    ensures slots { AreSlots slots.new }
{
    match place_for(slots, addr) {
        Some(place) => {
            if slots[place] >> 32 == 0 {
                return false;
            }
            slots[place] = slot_of((addr, value));
            true
        }
        None => false,
    }
}

/// Puts a pair into the slot where its address is sought.
fn put(slots: &mut [u64], pair: (u32, u32))
    requires slots { AreSlots slots.old }
    requires room { length (taken slots.old) < length slots.old }
    requires aligned { pair.0 % 4 ≡ 0 }
    ensures slots { AreSlots slots.new }
    ensures words { slotted_words slots.new ≡ stored (slotted_words slots.old) pair.0 pair.1 }
    ensures len { length slots.new ≡ length slots.old }
    ensures taken { length (taken slots.new) ≤ suc (length (taken slots.old)) }
{
    match place_for(slots, pair.0) {
        Some(place) => slots[place] = slot_of(pair),
        None => prove!(false),
    }
}

/// Puts pairs into free slots, of which there are at least as many.
pub fn fill(pairs: &[(u32, u32)], slots: &mut [u64])
    requires words { AreWords pairs.now }
    requires free { (place : ℕ) → place < length slots.old → slice_index slots.old place ≡ 0 }
    requires room { length pairs.now ≤ length slots.old }
    requires few { length slots.old ≤ 2 ^ 32 }
    ensures slots { AreSlots slots.new }
    ensures words { slotted_words slots.new ≡ memory_of pairs.now }
{
    let mut index = pairs.len();
    while index > 0 {
        index -= 1;
        put(slots, pairs[index]);
    }
}
