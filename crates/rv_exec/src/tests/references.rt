use crate::tests::{DATA, core_at, pair};
use crate::{DataRef, step};

/// Instruction, register 1, what register 3 gets, and the address of the reference.
#[test]
fn loads(rt: HostRuntime) {
    let cases = [
        (0x0000_8183, 0x0000_2000, 0xffff_fff3, 0x0000_2000), // lb x3, 0(x1)
        (0x8000_8183, 0x0000_2801, 0xffff_ffa2, 0x0000_2001), // lb x3, -2048(x1)
        (0x0000_8183, 0x0000_2002, 0xffff_ff91, 0x0000_2002), // lb x3, 0(x1)
        (0x0000_8183, 0x0000_2003, 0xffff_ff80, 0x0000_2003), // lb x3, 0(x1)
        (0x0000_c183, 0x0000_2000, 0x0000_00f3, 0x0000_2000), // lbu x3, 0(x1)
        (0x0000_c183, 0x0000_2001, 0x0000_00a2, 0x0000_2001), // lbu x3, 0(x1)
        (0x7ff0_c183, 0x0000_1803, 0x0000_0091, 0x0000_2002), // lbu x3, 2047(x1)
        (0x0000_c183, 0x0000_2003, 0x0000_0080, 0x0000_2003), // lbu x3, 0(x1)
        (0x0000_9183, 0x0000_2000, 0xffff_a2f3, 0x0000_2000), // lh x3, 0(x1)
        (0xffc0_d183, 0x0000_2004, 0x0000_a2f3, 0x0000_2000), // lhu x3, -4(x1)
        (0x0000_9183, 0x0000_2002, 0xffff_8091, 0x0000_2002), // lh x3, 0(x1)
        (0xffc0_d183, 0x0000_2006, 0x0000_8091, 0x0000_2002), // lhu x3, -4(x1)
        (0x0040_a183, 0x0000_1ffc, 0x8091_a2f3, 0x0000_2000), // lw x3, 4(x1)
    ];
    for (word, base, value, addr) in cases {
        let mut core = core_at(0x1000, base, 0);
        let mut memory = pair(word);
        let access = step(&mut core, &mut memory).map(|event| event.access);
        let expected = Some(DataRef {
            addr,
            store: false,
            before: DATA,
        });
        assert_eq!(rt; access, Ok(expected), "at {word:#010x}");
        let result = core.regs[3];
        assert_eq!(rt; result, value, "at {word:#010x}");
    }
}

/// Instruction, register 1, the word after the store of 0xc1d2e3f4, and the address of the
/// reference.
#[test]
fn stores(rt: HostRuntime) {
    let cases = [
        (0x0020_8023, 0x0000_2000, 0x8091_a2f4, 0x0000_2000), // sb x2, 0(x1)
        (0x0020_8023, 0x0000_2001, 0x8091_f4f3, 0x0000_2001), // sb x2, 0(x1)
        (0x0020_8023, 0x0000_2002, 0x80f4_a2f3, 0x0000_2002), // sb x2, 0(x1)
        (0xfe20_8fa3, 0x0000_2004, 0xf491_a2f3, 0x0000_2003), // sb x2, -1(x1)
        (0x0020_9023, 0x0000_2000, 0x8091_e3f4, 0x0000_2000), // sh x2, 0(x1)
        (0x7e20_9fa3, 0x0000_1803, 0xe3f4_a2f3, 0x0000_2002), // sh x2, 2047(x1)
        (0x8020_a023, 0x0000_2800, 0xc1d2_e3f4, 0x0000_2000), // sw x2, -2048(x1)
    ];
    for (word, base, after, addr) in cases {
        let mut core = core_at(0x1000, base, 0xc1d2_e3f4);
        let mut memory = pair(word);
        let access = step(&mut core, &mut memory).map(|event| event.access);
        let expected = Some(DataRef {
            addr,
            store: true,
            before: DATA,
        });
        assert_eq!(rt; access, Ok(expected), "at {word:#010x}");
        assert_eq!(rt; memory.data, after, "at {word:#010x}");
    }
}
