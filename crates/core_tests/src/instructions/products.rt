// Products and divisions, from outside: the words are those of LLVM's assembler. The
// first rows of each are those of the tests rv32um of riscv-tests, the others were
// computed by Python's integers.
use super::{check_operations, registers};
use rv_core::{divide, division_digits, multiply};
use rv_decode::{Division, Product};

// mul x7, x5, x6
#[rattlefmt::skip]
const MUL: [(u32, u32, u32, u32); 20] = [
    (0x0262_83b3, 0x0000_7e00, 0xb6db_6db7, 0x1200), (0x0262_83b3, 0x0000_7fc0, 0xb6db_6db7, 0x1240),
    (0x0262_83b3, 0, 0, 0), (0x0262_83b3, 1, 1, 1),
    (0x0262_83b3, 3, 7, 21), (0x0262_83b3, 0, 0xffff_8000, 0),
    (0x0262_83b3, 0x8000_0000, 0, 0), (0x0262_83b3, 0x8000_0000, 0xffff_8000, 0),
    (0x0262_83b3, 0xaaaa_aaab, 0x0002_fe7d, 0x0000_ff7f), (0x0262_83b3, 0x0002_fe7d, 0xaaaa_aaab, 0x0000_ff7f),
    (0x0262_83b3, 0xff00_0000, 0xff00_0000, 0), (0x0262_83b3, 0xffff_ffff, 0xffff_ffff, 1),
    (0x0262_83b3, 0xffff_ffff, 1, 0xffff_ffff), (0x0262_83b3, 1, 0xffff_ffff, 0xffff_ffff),
    (0x0262_83b3, 0x8000_0000, 0x8000_0000, 0), (0x0262_83b3, 0x7fff_ffff, 0x8000_0000, 0x8000_0000),
    (0x0262_83b3, 0x8000_0000, 0x7fff_ffff, 0x8000_0000), (0x0262_83b3, 0x7fff_ffff, 0x7fff_ffff, 1),
    (0x0262_83b3, 0x1234_5678, 0x0f0f_f0f0, 0x3b29_9080), (0x0262_83b3, 0xedcb_a988, 0x0f0f_f0f0, 0xc4d6_6f80),
];

// mulh x7, x5, x6
#[rattlefmt::skip]
const MULH: [(u32, u32, u32, u32); 18] = [
    (0x0262_93b3, 0, 0, 0), (0x0262_93b3, 1, 1, 0),
    (0x0262_93b3, 3, 7, 0), (0x0262_93b3, 0, 0xffff_8000, 0),
    (0x0262_93b3, 0x8000_0000, 0, 0), (0x0262_93b3, 0x8000_0000, 0xffff_8000, 0x0000_4000),
    (0x0262_93b3, 0xaaaa_aaab, 0x0002_fe7d, 0xffff_0081), (0x0262_93b3, 0x0002_fe7d, 0xaaaa_aaab, 0xffff_0081),
    (0x0262_93b3, 0xff00_0000, 0xff00_0000, 0x0001_0000), (0x0262_93b3, 0xffff_ffff, 0xffff_ffff, 0),
    (0x0262_93b3, 0xffff_ffff, 1, 0xffff_ffff), (0x0262_93b3, 1, 0xffff_ffff, 0xffff_ffff),
    (0x0262_93b3, 0x8000_0000, 0x8000_0000, 0x4000_0000), (0x0262_93b3, 0x7fff_ffff, 0x8000_0000, 0xc000_0000),
    (0x0262_93b3, 0x8000_0000, 0x7fff_ffff, 0xc000_0000), (0x0262_93b3, 0x7fff_ffff, 0x7fff_ffff, 0x3fff_ffff),
    (0x0262_93b3, 0x1234_5678, 0x0f0f_f0f0, 0x0112_3344), (0x0262_93b3, 0xedcb_a988, 0x0f0f_f0f0, 0xfeed_ccbb),
];

// mulhsu x7, x5, x6
#[rattlefmt::skip]
const MULHSU: [(u32, u32, u32, u32); 18] = [
    (0x0262_a3b3, 0, 0, 0), (0x0262_a3b3, 1, 1, 0),
    (0x0262_a3b3, 3, 7, 0), (0x0262_a3b3, 0, 0xffff_8000, 0),
    (0x0262_a3b3, 0x8000_0000, 0, 0), (0x0262_a3b3, 0x8000_0000, 0xffff_8000, 0x8000_4000),
    (0x0262_a3b3, 0xaaaa_aaab, 0x0002_fe7d, 0xffff_0081), (0x0262_a3b3, 0x0002_fe7d, 0xaaaa_aaab, 0x0001_fefe),
    (0x0262_a3b3, 0xff00_0000, 0xff00_0000, 0xff01_0000), (0x0262_a3b3, 0xffff_ffff, 0xffff_ffff, 0xffff_ffff),
    (0x0262_a3b3, 0xffff_ffff, 1, 0xffff_ffff), (0x0262_a3b3, 1, 0xffff_ffff, 0),
    (0x0262_a3b3, 0x8000_0000, 0x8000_0000, 0xc000_0000), (0x0262_a3b3, 0x7fff_ffff, 0x8000_0000, 0x3fff_ffff),
    (0x0262_a3b3, 0x8000_0000, 0x7fff_ffff, 0xc000_0000), (0x0262_a3b3, 0x7fff_ffff, 0x7fff_ffff, 0x3fff_ffff),
    (0x0262_a3b3, 0x1234_5678, 0x0f0f_f0f0, 0x0112_3344), (0x0262_a3b3, 0xedcb_a988, 0x0f0f_f0f0, 0xfeed_ccbb),
];

// mulhu x7, x5, x6
#[rattlefmt::skip]
const MULHU: [(u32, u32, u32, u32); 18] = [
    (0x0262_b3b3, 0, 0, 0), (0x0262_b3b3, 1, 1, 0),
    (0x0262_b3b3, 3, 7, 0), (0x0262_b3b3, 0, 0xffff_8000, 0),
    (0x0262_b3b3, 0x8000_0000, 0, 0), (0x0262_b3b3, 0x8000_0000, 0xffff_8000, 0x7fff_c000),
    (0x0262_b3b3, 0xaaaa_aaab, 0x0002_fe7d, 0x0001_fefe), (0x0262_b3b3, 0x0002_fe7d, 0xaaaa_aaab, 0x0001_fefe),
    (0x0262_b3b3, 0xff00_0000, 0xff00_0000, 0xfe01_0000), (0x0262_b3b3, 0xffff_ffff, 0xffff_ffff, 0xffff_fffe),
    (0x0262_b3b3, 0xffff_ffff, 1, 0), (0x0262_b3b3, 1, 0xffff_ffff, 0),
    (0x0262_b3b3, 0x8000_0000, 0x8000_0000, 0x4000_0000), (0x0262_b3b3, 0x7fff_ffff, 0x8000_0000, 0x3fff_ffff),
    (0x0262_b3b3, 0x8000_0000, 0x7fff_ffff, 0x3fff_ffff), (0x0262_b3b3, 0x7fff_ffff, 0x7fff_ffff, 0x3fff_ffff),
    (0x0262_b3b3, 0x1234_5678, 0x0f0f_f0f0, 0x0112_3344), (0x0262_b3b3, 0xedcb_a988, 0x0f0f_f0f0, 0x0dfd_bdab),
];

// div x7, x5, x6
#[rattlefmt::skip]
const DIV: [(u32, u32, u32, u32); 19] = [
    (0x0262_c3b3, 20, 6, 3), (0x0262_c3b3, 0xffff_ffec, 6, 0xffff_fffd),
    (0x0262_c3b3, 20, 0xffff_fffa, 0xffff_fffd), (0x0262_c3b3, 0xffff_ffec, 0xffff_fffa, 3),
    (0x0262_c3b3, 0x8000_0000, 1, 0x8000_0000), (0x0262_c3b3, 0x8000_0000, 0xffff_ffff, 0x8000_0000),
    (0x0262_c3b3, 0x8000_0000, 0, 0xffff_ffff), (0x0262_c3b3, 1, 0, 0xffff_ffff),
    (0x0262_c3b3, 0, 0, 0xffff_ffff), (0x0262_c3b3, 0x8000_0000, 0x8000_0000, 1),
    (0x0262_c3b3, 0x7fff_ffff, 0x8000_0000, 0), (0x0262_c3b3, 0x8000_0000, 0x7fff_ffff, 0xffff_ffff),
    (0x0262_c3b3, 0x7fff_ffff, 0x7fff_ffff, 1), (0x0262_c3b3, 0x1234_5678, 0x0f0f_f0f0, 1),
    (0x0262_c3b3, 0xedcb_a988, 0x0f0f_f0f0, 0xffff_ffff), (0x0262_c3b3, 0xffff_ffff, 0, 0xffff_ffff),
    (0x0262_c3b3, 0xffff_ffff, 0xffff_ffff, 1), (0x0262_c3b3, 0xffff_fff9, 2, 0xffff_fffd),
    (0x0262_c3b3, 7, 0xffff_fffe, 0xffff_fffd),
];

// divu x7, x5, x6
#[rattlefmt::skip]
const DIVU: [(u32, u32, u32, u32); 19] = [
    (0x0262_d3b3, 20, 6, 3), (0x0262_d3b3, 0xffff_ffec, 6, 0x2aaa_aaa7),
    (0x0262_d3b3, 20, 0xffff_fffa, 0), (0x0262_d3b3, 0xffff_ffec, 0xffff_fffa, 0),
    (0x0262_d3b3, 0x8000_0000, 1, 0x8000_0000), (0x0262_d3b3, 0x8000_0000, 0xffff_ffff, 0),
    (0x0262_d3b3, 0x8000_0000, 0, 0xffff_ffff), (0x0262_d3b3, 1, 0, 0xffff_ffff),
    (0x0262_d3b3, 0, 0, 0xffff_ffff), (0x0262_d3b3, 0x8000_0000, 0x8000_0000, 1),
    (0x0262_d3b3, 0x7fff_ffff, 0x8000_0000, 0), (0x0262_d3b3, 0x8000_0000, 0x7fff_ffff, 1),
    (0x0262_d3b3, 0x7fff_ffff, 0x7fff_ffff, 1), (0x0262_d3b3, 0x1234_5678, 0x0f0f_f0f0, 1),
    (0x0262_d3b3, 0xedcb_a988, 0x0f0f_f0f0, 15), (0x0262_d3b3, 0xffff_ffff, 0, 0xffff_ffff),
    (0x0262_d3b3, 0xffff_ffff, 0xffff_ffff, 1), (0x0262_d3b3, 0xffff_fff9, 2, 0x7fff_fffc),
    (0x0262_d3b3, 7, 0xffff_fffe, 0),
];

// rem x7, x5, x6
#[rattlefmt::skip]
const REM: [(u32, u32, u32, u32); 19] = [
    (0x0262_e3b3, 20, 6, 2), (0x0262_e3b3, 0xffff_ffec, 6, 0xffff_fffe),
    (0x0262_e3b3, 20, 0xffff_fffa, 2), (0x0262_e3b3, 0xffff_ffec, 0xffff_fffa, 0xffff_fffe),
    (0x0262_e3b3, 0x8000_0000, 1, 0), (0x0262_e3b3, 0x8000_0000, 0xffff_ffff, 0),
    (0x0262_e3b3, 0x8000_0000, 0, 0x8000_0000), (0x0262_e3b3, 1, 0, 1),
    (0x0262_e3b3, 0, 0, 0), (0x0262_e3b3, 0x8000_0000, 0x8000_0000, 0),
    (0x0262_e3b3, 0x7fff_ffff, 0x8000_0000, 0x7fff_ffff), (0x0262_e3b3, 0x8000_0000, 0x7fff_ffff, 0xffff_ffff),
    (0x0262_e3b3, 0x7fff_ffff, 0x7fff_ffff, 0), (0x0262_e3b3, 0x1234_5678, 0x0f0f_f0f0, 0x0324_6588),
    (0x0262_e3b3, 0xedcb_a988, 0x0f0f_f0f0, 0xfcdb_9a78), (0x0262_e3b3, 0xffff_ffff, 0, 0xffff_ffff),
    (0x0262_e3b3, 0xffff_ffff, 0xffff_ffff, 0), (0x0262_e3b3, 0xffff_fff9, 2, 0xffff_ffff),
    (0x0262_e3b3, 7, 0xffff_fffe, 1),
];

// remu x7, x5, x6
#[rattlefmt::skip]
const REMU: [(u32, u32, u32, u32); 19] = [
    (0x0262_f3b3, 20, 6, 2), (0x0262_f3b3, 0xffff_ffec, 6, 2),
    (0x0262_f3b3, 20, 0xffff_fffa, 20), (0x0262_f3b3, 0xffff_ffec, 0xffff_fffa, 0xffff_ffec),
    (0x0262_f3b3, 0x8000_0000, 1, 0), (0x0262_f3b3, 0x8000_0000, 0xffff_ffff, 0x8000_0000),
    (0x0262_f3b3, 0x8000_0000, 0, 0x8000_0000), (0x0262_f3b3, 1, 0, 1),
    (0x0262_f3b3, 0, 0, 0), (0x0262_f3b3, 0x8000_0000, 0x8000_0000, 0),
    (0x0262_f3b3, 0x7fff_ffff, 0x8000_0000, 0x7fff_ffff), (0x0262_f3b3, 0x8000_0000, 0x7fff_ffff, 1),
    (0x0262_f3b3, 0x7fff_ffff, 0x7fff_ffff, 0), (0x0262_f3b3, 0x1234_5678, 0x0f0f_f0f0, 0x0324_6588),
    (0x0262_f3b3, 0xedcb_a988, 0x0f0f_f0f0, 0x0bdc_8b78), (0x0262_f3b3, 0xffff_ffff, 0, 0xffff_ffff),
    (0x0262_f3b3, 0xffff_ffff, 0xffff_ffff, 0), (0x0262_f3b3, 0xffff_fff9, 2, 1),
    (0x0262_f3b3, 7, 0xffff_fffe, 7),
];

// The word in x5, and how many digits its magnitude has: of DIV and REM, and of DIVU
// and REMU.
#[rattlefmt::skip]
const DIGITS: [(u32, u32, u32); 14] = [
    (0, 0, 0), (1, 1, 1),
    (2, 2, 2), (3, 2, 2),
    (4, 3, 3), (0x7fff_ffff, 31, 31),
    (0x8000_0000, 32, 32), (0x8000_0001, 31, 32),
    (0xffff_ffff, 1, 32), (0xffff_fffe, 2, 32),
    (0xffff_fffc, 3, 32), (0xffff_fffb, 3, 32),
    (0x0001_0000, 17, 17), (0x0000_ffff, 16, 16),
];

#[test]
fn mul(rt: HostRuntime) {
    check_operations(&rt, &MUL);
}

#[test]
fn mulh(rt: HostRuntime) {
    check_operations(&rt, &MULH);
}

#[test]
fn mulhsu(rt: HostRuntime) {
    check_operations(&rt, &MULHSU);
}

#[test]
fn mulhu(rt: HostRuntime) {
    check_operations(&rt, &MULHU);
}

#[test]
fn div(rt: HostRuntime) {
    check_operations(&rt, &DIV);
}

#[test]
fn divu(rt: HostRuntime) {
    check_operations(&rt, &DIVU);
}

#[test]
fn rem(rt: HostRuntime) {
    check_operations(&rt, &REM);
}

#[test]
fn remu(rt: HostRuntime) {
    check_operations(&rt, &REMU);
}

#[test]
fn digits_of_dividends(rt: HostRuntime) {
    for (dividend, signed, unsigned) in DIGITS {
        for (division, digits) in [
            (Division::Quotient, signed),
            (Division::QuotientUnsigned, unsigned),
            (Division::Remainder, signed),
            (Division::RemainderUnsigned, unsigned),
        ] {
            assert_eq!(rt;
                division_digits(division, dividend),
                digits,
                "of {dividend:x}"
            );
        }
    }
}

#[test]
fn words_of_registers(rt: HostRuntime) {
    let mut regs = registers(7, 3, 0);
    multiply(&mut regs, Product::Low, 7, 5, 6);
    assert_eq!(rt; regs.get(7), 21);
    divide(&mut regs, Division::Remainder, 5, 5, 6);
    assert_eq!(rt; regs.get(5), 1);
    divide(&mut regs, Division::Quotient, 0, 7, 6);
    assert_eq!(rt; regs.get(0), 0);
}
