use crate::tests::memories::Flat;
use crate::tests::{core_at, pair};
use crate::{Buffer, Trap, TrapKind, step};
use std::test::Fail;

/// Call number, registers 10 to 12, and after the call register 10, the exit code, the heap end and
/// the bytes written.
const CALLS: [(u32, u32, u32, u32, u32, Option<u32>, u32, Option<Buffer>); 15] = [
    (
        64,
        1,
        0x0000_2000,
        4,
        4,
        None,
        0x0000_3800,
        Some(Buffer {
            addr: 0x0000_2000,
            len: 4,
        }),
    ),
    (
        64,
        2,
        0x0000_2001,
        3,
        3,
        None,
        0x0000_3800,
        Some(Buffer {
            addr: 0x0000_2001,
            len: 3,
        }),
    ),
    (64, 1, 5, 0, 0, None, 0x0000_3800, None),
    (64, 0, 0x0000_2000, 4, 0xffff_fff7, None, 0x0000_3800, None),
    (64, 3, 5, 0, 0xffff_fff7, None, 0x0000_3800, None),
    (93, 7, 0, 0, 7, Some(7), 0x0000_3800, None),
    (
        94,
        0xffff_ffff,
        0,
        0,
        0xffff_ffff,
        Some(0xffff_ffff),
        0x0000_3800,
        None,
    ),
    (214, 0, 0, 0, 0x0000_3800, None, 0x0000_3800, None),
    (214, 0x0000_2fff, 0, 0, 0x0000_3800, None, 0x0000_3800, None),
    (214, 0x0000_3000, 0, 0, 0x0000_3000, None, 0x0000_3000, None),
    (214, 0x0400_3000, 0, 0, 0x0400_3000, None, 0x0400_3000, None),
    (214, 0x0400_3001, 0, 0, 0x0000_3800, None, 0x0000_3800, None),
    (0, 1, 2, 3, 0xffff_ffda, None, 0x0000_3800, None),
    (0xffff_ffff, 1, 2, 3, 0xffff_ffda, None, 0x0000_3800, None),
    (92, 1, 2, 3, 0xffff_ffda, None, 0x0000_3800, None),
];

#[test]
fn calls(rt: HostRuntime) {
    for (number, first, second, third, answer, exit, brk, wrote) in CALLS {
        let mut core = core_at(0x1000, 0, 0);
        core.regs[17] = number;
        core.regs[10] = first;
        core.regs[11] = second;
        core.regs[12] = third;
        let done = step(&mut core, &mut pair(0x0000_0073)).map(|event| event.wrote);
        assert_eq!(rt; done, Ok(wrote), "at {number}, {first:#x}");
        let result = core.regs[10];
        assert_eq!(rt; result, answer, "at {number}, {first:#x}");
        assert_eq!(rt;
            (core.exit, core.brk),
            (exit, brk),
            "at {number}, {first:#x}"
        );
        assert_eq!(rt; core.pc, 0x1004, "at {number}, {first:#x}");
    }
}

/// Write calls of so many bytes at an address, over a whole memory that is mapped from 0 to
/// 0x4001000 and from 0x7ff00000 to 0x80000000.
#[test]
fn buffers(rt: HostRuntime) -> Result<(), Fail> {
    let cases = [
        (0, 1, true),
        (0x0400_0ffc, 4, true),
        (0x0400_0ffc, 5, false),
        (0x0400_1000, 1, false),
        (0x7fef_ffff, 2, false),
        (0x7ff0_0000, 0x0010_0000, true),
        (0x7ff0_0000, 0x0010_0001, false),
        (0x0000_0000, 0x8000_0000, false),
        (0x8000_0000, 1, false),
        (0xffff_ffff, 2, false),
    ];
    for (addr, len, passes) in cases {
        let words = [0x0000_0073].to_vec(rt.alloc())?;
        let mut memory = Flat {
            words,
            heap_low: 0x1000,
        };
        let mut core = core_at(0, 0, 0);
        core.regs[17] = 64;
        core.regs[10] = 1;
        core.regs[11] = addr;
        core.regs[12] = len;
        let done = step(&mut core, &mut memory).map(|event| event.wrote);
        let refused = Err(Trap {
            kind: TrapKind::BadBuffer,
            pc: 0,
        });
        let expected = if passes {
            Ok(Some(Buffer { addr, len }))
        } else {
            refused
        };
        assert_eq!(rt; done, expected, "at {addr:#x}, {len:#x}");
    }
    Ok(())
}
