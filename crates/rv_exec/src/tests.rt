mod arithmetic;
mod calls;
mod memories;
mod references;
mod transfers;

ghost use Rattle.std.specs.Prelude.{◌≡◌, ◌%◌, None};

use crate::{Buffer, Core, Trap, TrapKind, step, step_with};
use memories::{Flat, Pair};
use rv_isa::Decoder;
use std::test::Fail;

/// The word that `pair` holds beside the instruction.
pub const DATA: u32 = 0x8091_a2f3;

/// A core at an instruction, with these values in registers 1 and 2.
pub fn core_at(pc: u32, first: u32, second: u32) -> Core
    requires { pc % 4 ≡ 0 }
    ensures { result.exit ≡ None }
{
    let mut regs = [0; 32];
    regs[1] = first;
    regs[2] = second;
    Core {
        pc,
        regs,
        brk: 0x3800,
        heap_low: 0x3000,
        exit: None,
    }
}

/// The instruction at 0x1000, and `DATA` at 0x2000.
pub fn pair(code: u32) -> Pair {
    Pair {
        code_at: 0x1000,
        code,
        data_at: 0x2000,
        data: DATA,
    }
}

/// Instruction, registers 1 and 2, and the trap. Nothing changes.
#[test]
fn traps(rt: HostRuntime) {
    let cases = [
        (0x0000_0000, 0, 0, TrapKind::Illegal), // all zeros
        (0x3020_0073, 0, 0, TrapKind::Illegal), // mret
        (0x0010_0073, 0, 0, TrapKind::Break), // ebreak
        (0x0010_9183, 0x0000_2000, 0, TrapKind::MisalignedLoad), // lh x3, 1(x1)
        (0x0030_d183, 0x0000_5000, 0, TrapKind::MisalignedLoad), // lhu x3, 3(x1)
        (0x0020_a183, 0x0000_2000, 0, TrapKind::MisalignedLoad), // lw x3, 2(x1)
        (0x0010_a183, 0x0000_5000, 0, TrapKind::MisalignedLoad), // lw x3, 1(x1)
        (0x0000_a183, 0x0000_5000, 0, TrapKind::Missing), // lw x3, 0(x1)
        (0xfff0_8183, 0x0000_2000, 0, TrapKind::Missing), // lb x3, -1(x1)
        (0x0020_90a3, 0x0000_2000, 0, TrapKind::MisalignedStore), // sh x2, 1(x1)
        (0x0020_a1a3, 0x0000_5000, 0, TrapKind::MisalignedStore), // sw x2, 3(x1)
        (0x0020_a023, 0x0000_5000, 1, TrapKind::Missing), // sw x2, 0(x1)
        (0x0020_8223, 0x0000_2000, 1, TrapKind::Missing), // sb x2, 4(x1)
        (0x0020_8163, 5, 5, TrapKind::BadTarget), // beq x1, x2, 2
        (0x8020_f163, 5, 5, TrapKind::BadTarget), // bgeu x1, x2, -4094
        (0x0060_01ef, 0, 0, TrapKind::BadTarget), // jal x3, 6
        (0x0020_81e7, 0x0000_4000, 0, TrapKind::BadTarget), // jalr x3, 2(x1)
        (0x0000_80e7, 0x0000_4003, 0, TrapKind::BadTarget), // jalr x1, 0(x1)
    ];
    for (word, first, second, kind) in cases {
        let mut core = core_at(0x1000, first, second);
        let before = core;
        let mut memory = pair(word);
        let trap = Trap { kind, pc: 0x1000 };
        assert_eq!(rt; step(&mut core, &mut memory), Err(trap), "at {word:#010x}");
        let (regs, regs_before) = (core.regs, before.regs);
        assert_eq!(rt; core.pc, before.pc, "at {word:#010x}");
        assert_eq!(rt; regs, regs_before, "at {word:#010x}");
        assert_eq!(rt; memory.data, DATA, "at {word:#010x}");
    }
}

/// A fetch of a word that is not held.
#[test]
fn missing_fetch(rt: HostRuntime) {
    let mut core = core_at(0x5000, 0, 0);
    let trap = Trap {
        kind: TrapKind::Missing,
        pc: 0x5000,
    };
    assert_eq!(rt; step(&mut core, &mut pair(0x0000_0013)), Err(trap));
}

/// One word after another at the same address: what stands there now is done, whatever the decoder
/// remembers.
#[test]
fn changed_instructions(rt: HostRuntime) -> Result<(), Fail> {
    let cases = [
        (0x0020_81b3, Some(9)), // add x3, x1, x2
        (0x4020_81b3, Some(5)), // sub x3, x1, x2
        (0x0020_81b3, Some(9)),
        (0x0000_0000, None),
        (0x0220_81b3, Some(14)), // mul x3, x1, x2
    ];
    let mut decoder = Decoder::new(rt.alloc())?;
    for (word, value) in cases {
        let mut core = core_at(0x1000, 7, 2);
        let mut other = core;
        let done = step_with(&mut decoder, &mut core, &mut pair(word));
        let wanted = step(&mut other, &mut pair(word));
        assert_eq!(rt; done, wanted, "at {word:#010x}");
        assert_eq!(rt; done.is_ok(), value.is_some(), "at {word:#010x}");
        let (regs, pc) = (core.regs, core.pc);
        assert_eq!(rt; regs[3], value.unwrap_or(0), "at {word:#010x}");
        assert_eq!(rt;
            pc,
            if value.is_some() { 0x1004 } else { 0x1000 },
            "at {word:#010x}"
        );
    }
    Ok(())
}

/// Divides -2^31 by -1 and by 0, stores the four results below address 0x100, writes the 16 bytes and
/// exits.
const DIVIDE: [u32; 18] = [
    0x8000_02b7,
    0xfff0_0313,
    0x0262_c3b3,
    0x0262_ee33,
    0x0202_ceb3,
    0x0202_ef33,
    0xfe71_2823,
    0xffc1_2a23,
    0xffd1_2c23,
    0xffe1_2e23,
    0x0010_0513,
    0xff01_0593,
    0x0100_0613,
    0x0400_0893,
    0x0000_0073,
    0x0000_0513,
    0x05d0_0893,
    0x0000_0073,
];

#[test]
fn program_over_whole_memory(rt: HostRuntime) -> Result<(), Fail> {
    let mut words = DIVIDE.to_vec(rt.alloc())?;
    words.resize(64, 0)?;
    let mut memory = Flat {
        words,
        heap_low: 0x1000,
    };
    let mut core = core_at(0, 0, 0x100);
    let mut wrote = None;
    let mut length = 0;
    for at in 0..100 {
        if core.exit.is_some() {
            break;
        }
        let done = step(&mut core, &mut memory);
        assert!(rt; done.is_ok());
        if let Ok(Some(buffer)) = done.map(|event| event.wrote) {
            wrote = Some(buffer);
        }
        length = at + 1;
    }
    assert_eq!(rt; (length, core.exit), (18, Some(0)));
    assert_eq!(rt;
        wrote,
        Some(Buffer {
            addr: 0xf0,
            len: 16
        })
    );
    let results = [0x8000_0000, 0, 0xffff_ffff, 0x8000_0000];
    assert_eq!(rt; memory.words.get(60..64), Some(results.as_slice()));
    Ok(())
}
