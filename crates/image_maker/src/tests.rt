ghost use Rattle.std.specs.Prelude.{◌≡◌, None, IfSome};

use super::*;
use elf_image::read_image;
use rv_machine::{Outcome, Whole};
use std::alloc::Global;

/// A number that tells files apart: the 32-bit FNV-1a hash.
fn hash(bytes: &[u8]) -> u32 {
    let mut hash = 0x811C_9DC5u32;
    for byte in bytes {
        hash = (hash ^ u32::from(*byte)).wrapping_mul(0x0100_0193);
    }
    hash
}

/// The file, where the size is in its range and memory was had.
fn made(alloc: Global, size: u32, seed: u64) -> Option<Vec<u8>> {
    if size == 0 || size > 1_000_000 {
        return None;
    }
    make_image(alloc, size, seed).ok()
}

/// The word at a place of a file that is long enough.
fn word(file: &[u8], place: usize) -> Option<u32> {
    let bytes = file.get(place..)?.first_chunk::<4>()?;
    Some(u32::from_le_bytes(*bytes))
}

/// Files beside those of another program, written independently from the rule: size and seed, the hash of
/// the file, and its words from the fourth instruction on: two with the size, then the first group.
const FILES: [(u32, u64, u32, [u32; 6]); 10] = [
    (
        1,
        0,
        0x59EE_566E,
        [
            0x0000_04B7,
            0x0014_8493,
            0x0015_7313,
            0x0003_0263,
            0x0ED5_0513,
            0x00A5_C5B3,
        ],
    ),
    (
        1,
        1,
        0x4FE7_01A9,
        [
            0x0000_04B7,
            0x0014_8493,
            0x5CC3_8393,
            0x0123_F3B3,
            0x0083_8333,
            0x00A3_2023,
        ],
    ),
    (
        2047,
        2,
        0xFC37_1408,
        [
            0x0000_04B7,
            0x7FF4_8493,
            0x00A5_0533,
            0x00A5_4533,
            0x0055_0513,
            0x02A5_0533,
        ],
    ),
    (
        2048,
        3,
        0x57C5_F221,
        [
            0x0000_14B7,
            0x8004_8493,
            0x0015_F313,
            0x0003_0263,
            0x08B5_8593,
            0x00B7_C7B3,
        ],
    ),
    (
        20000,
        1,
        0x7FD4_C8BF,
        [
            0x0000_54B7,
            0xE204_8493,
            0x5CC3_8393,
            0x0123_F3B3,
            0x0083_8333,
            0x00A3_2023,
        ],
    ),
    (
        20000,
        u64::MAX,
        0x7DA1_0FFE,
        [
            0x0000_54B7,
            0xE204_8493,
            0x00B7_87B3,
            0x00F5_C5B3,
            0x0677_8793,
            0x02F5_85B3,
        ],
    ),
    (
        6143,
        12345,
        0xC7EF_7363,
        [
            0x0000_14B7,
            0x7FF4_8493,
            0x00E5_85B3,
            0x00B7_4733,
            0x1A65_8593,
            0x02B7_0733,
        ],
    ),
    (
        6144,
        12345,
        0x4835_B73E,
        [
            0x0000_24B7,
            0x8004_8493,
            0x00E5_85B3,
            0x00B7_4733,
            0x1A65_8593,
            0x02B7_0733,
        ],
    ),
    (
        999999,
        1000000000000000000,
        0x87C3_C3A8,
        [
            0x000F_44B7,
            0x23F4_8493,
            0x00A7_87B3,
            0x00F5_4533,
            0x17E7_8793,
            0x02F5_0533,
        ],
    ),
    (
        1000000,
        7,
        0x73E0_A197,
        [
            0x000F_44B7,
            0x2404_8493,
            0x2B83_8393,
            0x0123_F3B3,
            0x0083_8333,
            0x00D3_2023,
        ],
    ),
];

#[test]
fn files(rt: HostRuntime) {
    for (size, seed, hashed, words) in FILES {
        let file = made(rt.alloc(), size, seed);
        assert!(rt; file.is_some(), "at {size} {seed}");
        if let Some(file) = file {
            assert_eq!(rt; file.len(), 1180, "at {size} {seed}");
            assert_eq!(rt; hash(&file), hashed, "at {size} {seed}");
            for (k, expected) in words.into_iter().enumerate() {
                let found = word(&file, 128 + 4 * k);
                assert_eq!(rt; found, Some(expected), "at {size} {seed}");
            }
        }
    }
}

/// A machine that is to run the program of a file.
#[tactic(auto, unfolding(rv_machine::specs::Start::start_of))]
fn machine_of(alloc: Global, file: &[u8]) -> Option<Whole>
    ensures { IfSome result (λ machine. machine.state.exit ≡ None) }
{
    let image = read_image(alloc, file).ok()?;
    Whole::new(alloc, &image, false).ok()
}

/// Runs to the exit, and with a budget of one instruction less.
#[test]
fn runs(rt: HostRuntime) {
    for (size, seed, length) in [(1, 5, 266), (3, 6, 782), (40, u64::MAX, 10_328)] {
        let file = made(rt.alloc(), size, seed);
        assert!(rt; file.is_some(), "at {size} {seed}");
        if let Some(file) = file {
            for (budget, outcome) in [
                (length, Outcome::Exited { code: 0, length }),
                (length - 1, Outcome::Spent),
            ] {
                let machine = machine_of(rt.alloc(), &file);
                assert!(rt; machine.is_some(), "at {size} {seed}");
                if let Some(mut machine) = machine {
                    let ended = machine.run(budget);
                    assert_eq!(rt; ended, Ok(outcome), "at {size} {seed}");
                }
            }
        }
    }
}
