ghost use Rattle.std.specs.Prelude.{◌≡◌, None, IfSome};

use super::*;
use elf_image::read_image;
use rv_exec::{Trap, TrapKind};
use std::alloc::{AllocError, Global};
use std::test::Fail;

/// The file header of an ELF file for RISC-V with one program header, whose segment stands behind
/// it in the file and at 0x00010054 in memory. Its two sizes follow.
const FRONT: [u8; 68] = [
    0x7F, 0x45, 0x4C, 0x46, 1, 1, 1, 0, 0, 0, 0, 0, 0, 0, 0, 0, //
    2, 0, 0xF3, 0, 1, 0, 0, 0, 0x54, 0, 1, 0, 0x34, 0, 0, 0, //
    0, 0, 0, 0, 0, 0, 0, 0, 0x34, 0, 0x20, 0, 1, 0, 0, 0, 0, 0, 0, 0, //
    1, 0, 0, 0, 0x54, 0, 0, 0, 0x54, 0, 1, 0, 0x54, 0, 1, 0,
];

const BACK: [u8; 8] = [5, 0, 0, 0, 4, 0, 0, 0];

/// Counts x5 down from 500 to 0, and exits with code 0.
const COUNTDOWN: [u32; 6] = [
    0x1f40_0293,
    0xfff2_8293,
    0xfe02_9ee3,
    0x0000_0513,
    0x05d0_0893,
    0x0000_0073,
];

/// Divides -2^31 by -1 and by 0, stores quotient, remainder, quotient and remainder below the
/// stack pointer, writes the 16 bytes, and exits with code 0.
const DIVIDE: [u32; 18] = [
    0x8000_02b7,
    0xfff0_0313,
    0x0262_c3b3,
    0x0262_ee33,
    0x0202_ceb3,
    0x0202_ef33,
    0xfe71_2823,
    0xffc1_2a23,
    0xffd1_2c23,
    0xffe1_2e23,
    0x0010_0513,
    0xff01_0593,
    0x0100_0613,
    0x0400_0893,
    0x0000_0073,
    0x0000_0513,
    0x05d0_0893,
    0x0000_0073,
];

/// Stores 7 in the last word of the heap, and then behind it.
const HEAP_END: [u32; 4] = [0x0401_12b7, 0x0070_0313, 0xfe62_ae23, 0x0062_a023];

/// The file of a program of these words.
fn file_of(alloc: Global, words: &[u32]) -> Result<Vec<u8>, AllocError> {
    let size = 4u32.wrapping_mul((words.len() % 65536) as u32);
    let mut bytes = FRONT.to_vec(alloc)?;
    bytes.extend_from_slice(&size.to_le_bytes())?;
    bytes.extend_from_slice(&size.to_le_bytes())?;
    bytes.extend_from_slice(&BACK)?;
    for word in words {
        bytes.extend_from_slice(&word.to_le_bytes())?;
    }
    Ok(bytes)
}

/// A machine that is to run these words.
#[tactic(auto, unfolding(crate::specs::Start::start_of))]
fn machine_of(alloc: Global, words: &[u32], keep_output: bool) -> Option<Whole>
    ensures { IfSome result (λ machine. machine.state.exit ≡ None) }
{
    let file = file_of(alloc, words).ok()?;
    let image = read_image(alloc, &file).ok()?;
    Whole::new(alloc, &image, keep_output).ok()
}

/// How the run of these words ends, and what it wrote.
fn run_words(
    alloc: Global,
    words: &[u32],
    keep_output: bool,
    budget: u64,
) -> Option<(Outcome, Vec<u8>)> {
    let mut machine = machine_of(alloc, words, keep_output)?;
    let outcome = machine.run(budget).ok()?;
    Some((outcome, machine.output().to_vec(alloc).ok()?))
}

/// Makes call 80, which there is not, writes its answer, and exits with code 0.
const CALL_80: [u32; 11] = [
    0x0500_0893,
    0x0000_0073,
    0xfea1_2e23,
    0x0010_0513,
    0xffc1_0593,
    0x0040_0613,
    0x0400_0893,
    0x0000_0073,
    0x0000_0513,
    0x05d0_0893,
    0x0000_0073,
];

/// Writes its bytes 0 and 1 to descriptor 1, then its bytes 1 and 2 to descriptor 2.
const WRITE_TWICE: [u32; 12] = [
    0x0001_05b7,
    0x0545_8593,
    0x0010_0513,
    0x0020_0613,
    0x0400_0893,
    0x0000_0073,
    0x0020_0513,
    0x0015_8593,
    0x0000_0073,
    0x0000_0513,
    0x05d0_0893,
    0x0000_0073,
];

/// After seven instructions that do nothing, a load of a word at address 1.
const BAD_LOAD: [u32; 8] = [
    0x0000_0013,
    0x0000_0013,
    0x0000_0013,
    0x0000_0013,
    0x0000_0013,
    0x0000_0013,
    0x0000_0013,
    0x0010_2303,
];

/// Exits with code -1 by call 94.
const EXIT_MINUS_ONE: [u32; 3] = [0xfff0_0513, 0x05e0_0893, 0x0000_0073];

/// Name, words, budget, how the run ends, and what it wrote.
const PROGRAMS: [(&str, &[u32], u64, Outcome, &[u8]); 12] = [
    (
        "countdown",
        &COUNTDOWN,
        1_000_000,
        Outcome::Exited {
            code: 0,
            length: 1004,
        },
        &[],
    ),
    (
        "just enough",
        &COUNTDOWN,
        1004,
        Outcome::Exited {
            code: 0,
            length: 1004,
        },
        &[],
    ),
    ("one too few", &COUNTDOWN, 1003, Outcome::Spent, &[]),
    ("no budget", &COUNTDOWN, 0, Outcome::Spent, &[]),
    (
        "divide",
        &DIVIDE,
        100,
        Outcome::Exited {
            code: 0,
            length: 18,
        },
        &[
            0, 0, 0, 0x80, 0, 0, 0, 0, 0xff, 0xff, 0xff, 0xff, 0, 0, 0, 0x80,
        ],
    ),
    (
        "call 80",
        &CALL_80,
        100,
        Outcome::Exited {
            code: 0,
            length: 11,
        },
        &[0xda, 0xff, 0xff, 0xff],
    ),
    (
        "write twice",
        &WRITE_TWICE,
        100,
        Outcome::Exited {
            code: 0,
            length: 12,
        },
        &[0xb7, 5, 5, 1],
    ),
    (
        "cut between the writes",
        &WRITE_TWICE,
        8,
        Outcome::Spent,
        &[0xb7, 5],
    ),
    (
        "bad load",
        &BAD_LOAD,
        100,
        Outcome::Trapped {
            at: 7,
            trap: Trap {
                kind: TrapKind::MisalignedLoad,
                pc: 0x0001_0070,
            },
        },
        &[],
    ),
    ("budget before the trap", &BAD_LOAD, 7, Outcome::Spent, &[]),
    (
        "code",
        &EXIT_MINUS_ONE,
        3,
        Outcome::Exited {
            code: 0xffff_ffff,
            length: 3,
        },
        &[],
    ),
    (
        "heap end",
        &HEAP_END,
        100,
        Outcome::Trapped {
            at: 3,
            trap: Trap {
                kind: TrapKind::Missing,
                pc: 0x0001_0060,
            },
        },
        &[],
    ),
];

#[test]
fn programs(rt: HostRuntime) {
    for (name, words, budget, outcome, output) in PROGRAMS {
        let kept = run_words(rt.alloc(), words, true, budget);
        assert!(rt; kept.is_some(), "at {name}");
        if let Some((end, wrote)) = kept {
            assert_eq!(rt; end, outcome, "at {name}");
            assert_eq!(rt; wrote.as_slice(), output, "at {name}");
        }
        let dropped = run_words(rt.alloc(), words, false, budget);
        assert!(rt; dropped.is_some(), "at {name}");
        if let Some((end, wrote)) = dropped {
            assert_eq!(rt; end, outcome, "at {name}");
            assert!(rt; wrote.is_empty(), "at {name}");
        }
    }
}

/// Which addresses have a word, at the start and after a run.
#[test]
fn words(rt: HostRuntime) {
    let machine = machine_of(rt.alloc(), &HEAP_END, false);
    assert!(rt; machine.is_some());
    if let Some(mut machine) = machine {
        let cases = [
            (0x0000_fffc, None),
            (0x0001_0000, Some(0)),
            (0x0001_0054, Some(0x0401_12b7)),
            (0x0001_0055, None),
            (0x0001_0056, None),
            (0x0001_0057, None),
            (0x0001_0060, Some(0x0062_a023)),
            (0x0001_0064, Some(0)),
            (0x0001_1000, Some(0)),
            (0x0401_0ff8, Some(0)),
            (0x0401_1000, None),
            (0x7fef_fffc, None),
            (0x7ff0_0000, Some(0)),
            (0x7fff_fffc, Some(0)),
            (0x7fff_fffe, None),
            (0x8000_0000, None),
            (0xffff_fffc, None),
        ];
        for (addr, word) in cases {
            assert_eq!(rt; machine.word(addr), word, "at {addr:#010x}");
        }
        assert_eq!(rt; machine.word(0x0401_0ffc), Some(0));
        assert!(rt; machine.run(100).is_ok());
        assert_eq!(rt; machine.word(0x0401_0ffc), Some(7));
        for (addr, word) in cases {
            assert_eq!(rt; machine.word(addr), word, "at {addr:#010x}");
        }
    }
}

/// The registers at the start and behind each instruction, up to a trap, which leaves them.
#[test]
fn one_at_a_time(rt: HostRuntime) {
    let machine = machine_of(rt.alloc(), &HEAP_END, true);
    assert!(rt; machine.is_some());
    if let Some(mut machine) = machine {
        let core = machine.core();
        let (pc, brk, stack_pointer) = (core.pc, core.brk, core.regs[2]);
        assert_eq!(rt;
            (pc, brk, stack_pointer),
            (0x0001_0054, 0x0001_1000, 0x7fff_f000)
        );
        let trap = Trap {
            kind: TrapKind::Missing,
            pc: 0x0001_0060,
        };
        let pcs = [
            0x0001_0058,
            0x0001_005c,
            0x0001_0060,
            0x0001_0060,
            0x0001_0060,
        ];
        for (at, pc) in pcs.into_iter().enumerate() {
            match machine.core().exit {
                Some(_) => assert!(rt; false, "at {at}"),
                None => {
                    let done = machine.advance();
                    let next = done.map(|event| event.next);
                    let expected = if at < 3 {
                        Ok(pc)
                    } else {
                        Err(MachineFault::Trap(trap))
                    };
                    assert_eq!(rt; next, expected, "at {at}");
                    let now = machine.core().pc;
                    assert_eq!(rt; now, pc, "at {at}");
                }
            }
        }
    }
}
