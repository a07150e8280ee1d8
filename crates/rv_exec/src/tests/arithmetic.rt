use crate::step;
use crate::tests::{core_at, pair};

/// Instruction, registers 1 and 2, and what register 3 gets. The words are an assembler's, the values
/// follow from the manual's text.
const ARITHMETIC: [(u32, u32, u32, u32); 68] = [
    (0x0020_81b3, 0xffff_ffff, 1, 0), // add x3, x1, x2
    (0x0020_81b3, 0x7fff_ffff, 1, 0x8000_0000), // add x3, x1, x2
    (0x4020_81b3, 0, 1, 0xffff_ffff), // sub x3, x1, x2
    (0x4020_81b3, 0x8000_0000, 1, 0x7fff_ffff), // sub x3, x1, x2
    (0x0020_91b3, 1, 0x0000_001f, 0x8000_0000), // sll x3, x1, x2
    (0x0020_91b3, 3, 0x0000_0021, 6), // sll x3, x1, x2
    (0x0020_d1b3, 0x8000_0000, 0x0000_001f, 1), // srl x3, x1, x2
    (0x0020_d1b3, 0xffff_ffff, 0x0000_0020, 0xffff_ffff), // srl x3, x1, x2
    (0x4020_d1b3, 0x8000_0000, 0x0000_001f, 0xffff_ffff), // sra x3, x1, x2
    (0x4020_d1b3, 0x8000_0000, 0x0000_0024, 0xf800_0000), // sra x3, x1, x2
    (0x4020_d1b3, 0x7fff_ffff, 1, 0x3fff_ffff), // sra x3, x1, x2
    (0x0020_a1b3, 0x8000_0000, 0x7fff_ffff, 1), // slt x3, x1, x2
    (0x0020_a1b3, 1, 0xffff_ffff, 0), // slt x3, x1, x2
    (0x0020_b1b3, 0x8000_0000, 0x7fff_ffff, 0), // sltu x3, x1, x2
    (0x0020_b1b3, 1, 0xffff_ffff, 1), // sltu x3, x1, x2
    (0x0020_c1b3, 0xf0f0_f0f0, 0xff00_ff00, 0x0ff0_0ff0), // xor x3, x1, x2
    (0x0020_e1b3, 0xf0f0_f0f0, 0xff00_ff00, 0xfff0_fff0), // or x3, x1, x2
    (0x0020_f1b3, 0xf0f0_f0f0, 0xff00_ff00, 0xf000_f000), // and x3, x1, x2
    (0x0220_81b3, 0xffff_ffff, 0xffff_ffff, 1), // mul x3, x1, x2
    (0x0220_81b3, 0x1234_5678, 0x9abc_def0, 0x242d_2080), // mul x3, x1, x2
    (0x0220_91b3, 0x8000_0000, 0x8000_0000, 0x4000_0000), // mulh x3, x1, x2
    (0x0220_91b3, 0xffff_ffff, 1, 0xffff_ffff), // mulh x3, x1, x2
    (0x0220_91b3, 0x8000_0000, 0x7fff_ffff, 0xc000_0000), // mulh x3, x1, x2
    (0x0220_91b3, 0xffff_ffff, 0xffff_ffff, 0), // mulh x3, x1, x2
    (0x0220_a1b3, 0xffff_ffff, 0xffff_ffff, 0xffff_ffff), // mulhsu x3, x1, x2
    (0x0220_a1b3, 0x8000_0000, 0xffff_ffff, 0x8000_0000), // mulhsu x3, x1, x2
    (0x0220_a1b3, 0x7fff_ffff, 0xffff_ffff, 0x7fff_fffe), // mulhsu x3, x1, x2
    (0x0220_a1b3, 0xffff_ffff, 0, 0), // mulhsu x3, x1, x2
    (0x0220_a1b3, 1, 0x8000_0000, 0), // mulhsu x3, x1, x2
    (0x0220_b1b3, 0xffff_ffff, 0xffff_ffff, 0xffff_fffe), // mulhu x3, x1, x2
    (0x0220_b1b3, 0x8000_0000, 2, 1), // mulhu x3, x1, x2
    (0x0220_b1b3, 0x1234_5678, 0x9abc_def0, 0x0b00_ea4e), // mulhu x3, x1, x2
    (0x0220_c1b3, 0x8000_0000, 0xffff_ffff, 0x8000_0000), // div x3, x1, x2
    (0x0220_c1b3, 7, 0, 0xffff_ffff), // div x3, x1, x2
    (0x0220_c1b3, 0xffff_fff9, 2, 0xffff_fffd), // div x3, x1, x2
    (0x0220_c1b3, 7, 0xffff_fffe, 0xffff_fffd), // div x3, x1, x2
    (0x0220_c1b3, 0xffff_fff9, 0xffff_fffe, 3), // div x3, x1, x2
    (0x0220_c1b3, 0x8000_0000, 1, 0x8000_0000), // div x3, x1, x2
    (0x0220_d1b3, 0xffff_ffff, 0, 0xffff_ffff), // divu x3, x1, x2
    (0x0220_d1b3, 0xffff_ffff, 2, 0x7fff_ffff), // divu x3, x1, x2
    (0x0220_d1b3, 0x8000_0000, 0xffff_ffff, 0), // divu x3, x1, x2
    (0x0220_e1b3, 0x8000_0000, 0xffff_ffff, 0), // rem x3, x1, x2
    (0x0220_e1b3, 0x8000_0000, 0, 0x8000_0000), // rem x3, x1, x2
    (0x0220_e1b3, 0xffff_fff9, 2, 0xffff_ffff), // rem x3, x1, x2
    (0x0220_e1b3, 7, 0xffff_fffe, 1), // rem x3, x1, x2
    (0x0220_e1b3, 0xffff_fff9, 0xffff_fffe, 0xffff_ffff), // rem x3, x1, x2
    (0x0220_f1b3, 0xffff_ffff, 0, 0xffff_ffff), // remu x3, x1, x2
    (0x0220_f1b3, 0xffff_ffff, 0x0000_0010, 0x0000_000f), // remu x3, x1, x2
    (0x0220_f1b3, 0x8000_0000, 0xffff_ffff, 0x8000_0000), // remu x3, x1, x2
    (0x8000_8193, 0, 0, 0xffff_f800), // addi x3, x1, -2048
    (0x0010_8193, 0xffff_ffff, 0, 0), // addi x3, x1, 1
    (0x8000_a193, 0xffff_f7ff, 0, 1), // slti x3, x1, -2048
    (0xfff0_a193, 0, 0, 0), // slti x3, x1, -1
    (0xfff0_b193, 0, 0, 1), // sltiu x3, x1, -1
    (0xfff0_b193, 0xffff_ffff, 0, 0), // sltiu x3, x1, -1
    (0x0010_b193, 0, 0, 1), // sltiu x3, x1, 1
    (0xfff0_c193, 0x0f0f_0f0f, 0, 0xf0f0_f0f0), // xori x3, x1, -1
    (0x8000_e193, 0, 0, 0xffff_f800), // ori x3, x1, -2048
    (0x8000_f193, 0xffff_ffff, 0, 0xffff_f800), // andi x3, x1, -2048
    (0x01f0_9193, 3, 0, 0x8000_0000), // slli x3, x1, 31
    (0x01f0_d193, 0x8000_0000, 0, 1), // srli x3, x1, 31
    (0x0040_d193, 0xffff_ffff, 0, 0x0fff_ffff), // srli x3, x1, 4
    (0x41f0_d193, 0x8000_0000, 0, 0xffff_ffff), // srai x3, x1, 31
    (0x4040_d193, 0x8000_0010, 0, 0xf800_0001), // srai x3, x1, 4
    (0x8000_01b7, 0, 0, 0x8000_0000), // lui x3, 0x80000
    (0xffff_f1b7, 0, 0, 0xffff_f000), // lui x3, 0xfffff
    (0x0000_1197, 0, 0, 0x0000_2000), // auipc x3, 1
    (0xffff_f197, 0, 0, 0), // auipc x3, 0xfffff
];

#[test]
fn arithmetic(rt: HostRuntime) {
    for (word, first, second, value) in ARITHMETIC {
        let mut core = core_at(0x1000, first, second);
        let mut memory = pair(word);
        let done = step(&mut core, &mut memory).map(|event| event.next);
        assert_eq!(rt;
            done,
            Ok(0x1004),
            "at {word:#010x}, {first:#x}, {second:#x}"
        );
        let result = core.regs[3];
        assert_eq!(rt; result, value, "at {word:#010x}, {first:#x}, {second:#x}");
    }
}
