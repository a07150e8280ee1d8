use crate::tests::{core_at, pair};
use crate::{Flow, step};

/// Instruction, registers 1 and 2, the address that comes next, and the event's flow.
const TRANSFERS: [(u32, u32, u32, u32, Flow); 27] = [
    (0x8020_8063, 5, 5, 0x0000_0000, Flow::Branch { taken: true }), // beq x1, x2, -4096
    (
        0x7e20_8fe3,
        5,
        6,
        0x0000_1004,
        Flow::Branch { taken: false },
    ), // beq x1, x2, 4094
    (0x0020_9263, 5, 6, 0x0000_1004, Flow::Branch { taken: true }), // bne x1, x2, 4
    (
        0x0020_9163,
        5,
        5,
        0x0000_1004,
        Flow::Branch { taken: false },
    ), // bne x1, x2, 2
    (
        0x0020_c463,
        0x8000_0000,
        0x7fff_ffff,
        0x0000_1008,
        Flow::Branch { taken: true },
    ), // blt x1, x2, 8
    (
        0x0020_c463,
        0x7fff_ffff,
        0x8000_0000,
        0x0000_1004,
        Flow::Branch { taken: false },
    ), // blt x1, x2, 8
    (
        0x0020_c463,
        5,
        5,
        0x0000_1004,
        Flow::Branch { taken: false },
    ), // blt x1, x2, 8
    (
        0x0020_d463,
        0x8000_0000,
        0x7fff_ffff,
        0x0000_1004,
        Flow::Branch { taken: false },
    ), // bge x1, x2, 8
    (
        0x0020_d463,
        0x7fff_ffff,
        0x8000_0000,
        0x0000_1008,
        Flow::Branch { taken: true },
    ), // bge x1, x2, 8
    (0x0020_d463, 5, 5, 0x0000_1008, Flow::Branch { taken: true }), // bge x1, x2, 8
    (
        0x0020_e463,
        0x8000_0000,
        0x7fff_ffff,
        0x0000_1004,
        Flow::Branch { taken: false },
    ), // bltu x1, x2, 8
    (
        0x0020_e463,
        0x7fff_ffff,
        0x8000_0000,
        0x0000_1008,
        Flow::Branch { taken: true },
    ), // bltu x1, x2, 8
    (
        0x0020_e463,
        5,
        5,
        0x0000_1004,
        Flow::Branch { taken: false },
    ), // bltu x1, x2, 8
    (
        0x0020_f463,
        0x8000_0000,
        0x7fff_ffff,
        0x0000_1008,
        Flow::Branch { taken: true },
    ), // bgeu x1, x2, 8
    (
        0x0020_f463,
        0x7fff_ffff,
        0x8000_0000,
        0x0000_1004,
        Flow::Branch { taken: false },
    ), // bgeu x1, x2, 8
    (0x0020_f463, 5, 5, 0x0000_1008, Flow::Branch { taken: true }), // bgeu x1, x2, 8
    (0x8000_006f, 7, 9, 0xfff0_1000, Flow::Jal { push: false }), // jal x0, -1048576
    (0x7fdf_f0ef, 7, 9, 0x0010_0ffc, Flow::Jal { push: true }), // jal x1, 1048572
    (0x0010_02ef, 7, 9, 0x0000_1800, Flow::Jal { push: true }), // jal x5, 2048
    (0xffdf_f1ef, 7, 9, 0x0000_0ffc, Flow::Jal { push: false }), // jal x3, -4
    (
        0x0000_8067,
        0x0000_4000,
        9,
        0x0000_4000,
        Flow::Jalr {
            pop: true,
            push: false,
        },
    ), // jalr x0, 0(x1)
    (
        0x0010_80e7,
        0x0000_4000,
        9,
        0x0000_4000,
        Flow::Jalr {
            pop: false,
            push: true,
        },
    ), // jalr x1, 1(x1)
    (
        0xfff0_82e7,
        0x0000_4001,
        9,
        0x0000_4000,
        Flow::Jalr {
            pop: true,
            push: true,
        },
    ), // jalr x5, -1(x1)
    (
        0x0021_00e7,
        7,
        0x0000_4003,
        0x0000_4004,
        Flow::Jalr {
            pop: false,
            push: true,
        },
    ), // jalr x1, 2(x2)
    (
        0x7fc1_02e7,
        7,
        0x0000_4000,
        0x0000_47fc,
        Flow::Jalr {
            pop: false,
            push: true,
        },
    ), // jalr x5, 2044(x2)
    (
        0x8001_0067,
        7,
        0x0000_4000,
        0x0000_3800,
        Flow::Jalr {
            pop: false,
            push: false,
        },
    ), // jalr x0, -2048(x2)
    (
        0x0041_0167,
        7,
        0x0000_4000,
        0x0000_4004,
        Flow::Jalr {
            pop: false,
            push: false,
        },
    ), // jalr x2, 4(x2)
];

/// A jump's register gets the address behind it.
#[test]
fn transfers(rt: HostRuntime) {
    for (word, first, second, next, control) in TRANSFERS {
        let mut core = core_at(0x1000, first, second);
        let mut memory = pair(word);
        let done = step(&mut core, &mut memory);
        let told = done.map(|event| (event.next, event.control));
        assert_eq!(rt; told, Ok((next, control)), "at {word:#010x}");
        assert_eq!(rt; core.pc, next, "at {word:#010x}");
        if let Ok(Some(link)) = done.map(|event| event.dest) {
            let value = core.regs.get(usize::from(link)).copied();
            assert_eq!(rt; value, Some(0x1004), "at {word:#010x}");
        }
    }
}
