//! Small traces for each term of the times.
use super::{ALU, CALL, DIV, JUMP, LOAD, MUL, NARROW, STORE, WIDTHS, cycles, plain_cycles, times};
use hierarchy::{Marked, Widths};
use std::alloc::AllocGlobal;
use std::process::Abort;
use std::test::Fail;

/// The widths, the trace, the skip, the times of the last instruction, and the cycles.
type Case = (Widths, &'static [Marked], usize, [u64; 5], u64);

/// Each rule of fetch.
const FETCH: [Case; 6] = [
    // Fetch width.
    (
        Widths { fetch: 1, ..WIDTHS },
        &[ALU, ALU, ALU],
        0,
        [2, 3, 4, 5, 6],
        6,
    ),
    // A jump ends the cycle's fetch.
    (
        WIDTHS,
        &[
            Marked {
                transferred: true,
                ..JUMP
            },
            ALU,
        ],
        0,
        [1, 2, 3, 4, 5],
        5,
    ),
    // The penalty counts from the completion.
    (
        WIDTHS,
        &[
            Marked {
                mispredicted: true,
                ..DIV
            },
            ALU,
        ],
        0,
        [28, 29, 30, 31, 32],
        32,
    ),
    // Fetch waits for the retirement of an ECALL.
    (WIDTHS, &[CALL, ALU], 0, [5, 6, 7, 8, 9], 9),
    // Fetch queue.
    (
        Widths {
            queue: 1,
            dispatch: 1,
            ..WIDTHS
        },
        &[ALU, ALU, ALU],
        0,
        [2, 3, 4, 5, 6],
        6,
    ),
    // A stall holds the instructions behind, too.
    (
        WIDTHS,
        &[ALU, Marked { stall: 7, ..ALU }, ALU],
        0,
        [7, 8, 9, 10, 11],
        11,
    ),
];

/// Each rule of dispatch.
const DISPATCH: [Case; 6] = [
    // Dispatch width.
    (
        Widths {
            dispatch: 1,
            ..WIDTHS
        },
        &[ALU, ALU, ALU],
        0,
        [0, 3, 4, 5, 6],
        6,
    ),
    // Dispatch in order.
    (
        Widths {
            dispatch: 2,
            ..WIDTHS
        },
        &[ALU, ALU, ALU, ALU, ALU],
        0,
        [1, 3, 4, 5, 6],
        6,
    ),
    // An ECALL waits for the retirement of all before.
    (WIDTHS, &[DIV, CALL], 0, [0, 23, 24, 25, 26], 26),
    // Register update unit.
    (
        Widths {
            ruu: 4,
            lsq: 2,
            ..WIDTHS
        },
        &[DIV, ALU, ALU, ALU, ALU],
        0,
        [1, 23, 24, 25, 26],
        26,
    ),
    // Load and store queue.
    (
        Widths { lsq: 2, ..WIDTHS },
        &[
            Marked {
                latency: 50,
                ..LOAD
            },
            Marked {
                word: Some(7),
                ..STORE
            },
            Marked {
                word: Some(8),
                ..LOAD
            },
        ],
        0,
        [0, 53, 54, 56, 57],
        57,
    ),
    // Only loads and stores have places there.
    (
        Widths { lsq: 2, ..WIDTHS },
        &[
            Marked {
                latency: 50,
                ..LOAD
            },
            ALU,
            Marked {
                word: Some(7),
                ..STORE
            },
            ALU,
        ],
        0,
        [0, 1, 2, 3, 53],
        53,
    ),
];

/// What an instruction waits for: its registers, and for a load the word that it reads.
const OPERANDS: [Case; 7] = [
    // First register.
    (
        WIDTHS,
        &[
            Marked {
                dest: Some(5),
                ..DIV
            },
            Marked {
                first: Some(5),
                ..ALU
            },
        ],
        0,
        [0, 1, 22, 23, 24],
        24,
    ),
    // Second register, last writer.
    (
        WIDTHS,
        &[
            Marked {
                dest: Some(5),
                ..DIV
            },
            Marked {
                dest: Some(5),
                ..MUL
            },
            Marked {
                first: Some(6),
                second: Some(5),
                ..ALU
            },
        ],
        0,
        [0, 1, 5, 6, 23],
        23,
    ),
    // A store's word.
    (
        WIDTHS,
        &[
            Marked {
                latency: 9,
                ..STORE
            },
            LOAD,
        ],
        0,
        [0, 1, 11, 12, 13],
        13,
    ),
    // The latency of a forwarded word is that of no cache.
    (
        Widths {
            forward: 3,
            ..WIDTHS
        },
        &[
            Marked {
                latency: 9,
                ..STORE
            },
            Marked {
                latency: 500,
                ..LOAD
            },
        ],
        0,
        [0, 1, 11, 14, 15],
        15,
    ),
    // The last store to the word.
    (
        WIDTHS,
        &[
            Marked {
                latency: 9,
                ..STORE
            },
            Marked {
                latency: 2,
                ..STORE
            },
            LOAD,
        ],
        0,
        [0, 1, 5, 6, 12],
        12,
    ),
    // Another word.
    (
        WIDTHS,
        &[
            Marked {
                latency: 9,
                ..STORE
            },
            Marked {
                word: Some(101),
                ..LOAD
            },
        ],
        0,
        [0, 1, 2, 4, 12],
        12,
    ),
    // A load's word makes no load wait.
    (
        WIDTHS,
        &[Marked { latency: 9, ..LOAD }, LOAD],
        0,
        [0, 1, 2, 4, 12],
        12,
    ),
];

/// How many issue at once.
const ISSUE: [Case; 4] = [
    // Issue width.
    (
        Widths { issue: 1, ..WIDTHS },
        &[ALU, ALU, ALU],
        0,
        [0, 1, 4, 5, 6],
        6,
    ),
    // Limit of a class.
    (WIDTHS, &[MUL, MUL, MUL], 0, [0, 1, 4, 7, 8], 8),
    // Not that of another class.
    (WIDTHS, &[LOAD, LOAD, MUL, LOAD], 0, [0, 1, 3, 5, 6], 6),
    // Older instructions come first, and later ones do not count.
    (
        Widths { issue: 1, ..WIDTHS },
        &[
            Marked {
                dest: Some(5),
                ..MUL
            },
            Marked {
                first: Some(5),
                ..ALU
            },
            JUMP,
            MUL,
            STORE,
        ],
        0,
        [1, 2, 6, 7, 8],
        8,
    ),
];

/// Retirement, and all rules at once.
const WHOLE: [Case; 4] = [
    // Retirement in order.
    (WIDTHS, &[DIV, ALU], 1, [0, 1, 2, 3, 23], 0),
    // Retirement width.
    (
        Widths {
            retire: 1,
            ..WIDTHS
        },
        &[ALU, ALU, ALU],
        0,
        [0, 1, 2, 3, 6],
        6,
    ),
    // All of it once.
    (
        NARROW,
        &[
            Marked {
                dest: Some(1),
                latency: 42,
                ..LOAD
            },
            Marked {
                first: Some(1),
                dest: Some(2),
                ..ALU
            },
            Marked {
                first: Some(2),
                word: Some(9),
                ..STORE
            },
            Marked {
                word: Some(9),
                dest: Some(3),
                ..LOAD
            },
            Marked {
                first: Some(3),
                mispredicted: true,
                transferred: true,
                ..JUMP
            },
            Marked {
                stall: 10,
                dest: Some(4),
                ..MUL
            },
            Marked {
                first: Some(4),
                second: Some(4),
                dest: Some(4),
                ..DIV
            },
            Marked {
                first: Some(4),
                second: Some(2),
                ..STORE
            },
            Marked {
                dest: Some(5),
                ..LOAD
            },
            CALL,
            ALU,
        ],
        4,
        [93, 94, 95, 96, 97],
        49,
    ),
    // Each waits for the one before, at the longest latency, in a full unit.
    (
        Widths {
            ruu: 4,
            lsq: 4,
            ..WIDTHS
        },
        &[Marked {
            first: Some(1),
            dest: Some(1),
            latency: 1216,
            ..LOAD
        }; 6],
        0,
        [1, 2435, 6082, 7298, 7299],
        7299,
    ),
];

/// Both bodies give each trace the cycles that its case tells, and its last instruction these times.
fn agree(rt: &(impl Abort + AllocGlobal), cases: &[Case]) -> Result<(), Fail> {
    for &(widths, items, skip, last, total) in cases {
        assert_eq!(rt; times(rt.alloc(), &widths, items, 1)?, last);
        assert_eq!(rt; cycles(rt.alloc(), &widths, items, skip)?, total);
        assert_eq!(rt; plain_cycles(rt.alloc(), &widths, items, skip)?, total);
    }
    Ok(())
}

#[test]
fn times_by_each_rule(rt: HostRuntime) -> Result<(), Fail> {
    agree(&rt, &FETCH)?;
    agree(&rt, &DISPATCH)?;
    agree(&rt, &OPERANDS)?;
    agree(&rt, &ISSUE)?;
    agree(&rt, &WHOLE)
}
