// The fields of an instruction word, and its immediates.
ghost use Rattle.std.specs.Prelude.{◌≡◌, ◌<◌, ◌^◌};
ghost use Rattle.rv_decode.specs.Fields.{opcode_of, rd_of, funct3_of, rs1_of, rs2_of, funct7_of, csr_of, sign_extended, immediate_i_of, immediate_s_of, immediate_b_of, immediate_u_of, immediate_j_of};

pub fn opcode(word: u32) -> u32
    ensures value { result ≡ opcode_of word }
{
    word & 0x7f
}

pub fn rd(word: u32) -> u8
    ensures value { result ≡ rd_of word }
{
    ((word >> 7) & 0x1f) as u8
}

pub fn funct3(word: u32) -> u32
    ensures value { result ≡ funct3_of word }
{
    (word >> 12) & 7
}

pub fn rs1(word: u32) -> u8
    ensures value { result ≡ rs1_of word }
{
    ((word >> 15) & 0x1f) as u8
}

/// Also the amount of a shift by an immediate.
pub fn rs2(word: u32) -> u8
    ensures value { result ≡ rs2_of word }
{
    ((word >> 20) & 0x1f) as u8
}

pub fn funct7(word: u32) -> u32
    ensures value { result ≡ funct7_of word }
{
    word >> 25
}

/// The number of a control and status register.
pub fn csr(word: u32) -> u32
    ensures value { result ≡ csr_of word }
{
    word >> 20
}

/// A number of that many bits in two's complement, as a word.
fn sign_extend(value: u32, width: u32) -> u32
    requires some { 0 < width }
    requires narrow { width < 32 }
    requires fits { value < 2 ^ width }
    ensures value { result ≡ sign_extended width value }
{
    if value >> (width - 1) == 0 {
        value
    } else {
        value + (u32::MAX << width)
    }
}

pub fn immediate_i(word: u32) -> u32
    ensures value { result ≡ immediate_i_of word }
{
    sign_extend(word >> 20, 12)
}

pub fn immediate_s(word: u32) -> u32
    ensures value { result ≡ immediate_s_of word }
{
    sign_extend(((word >> 25) << 5) | ((word >> 7) & 0x1f), 12)
}

pub fn immediate_b(word: u32) -> u32
    ensures value { result ≡ immediate_b_of word }
{
    sign_extend(
        ((word >> 31) << 12)
            + (((word >> 7) & 1) << 11)
            + (((word >> 25) & 0x3f) << 5)
            + (((word >> 8) & 0xf) << 1),
        13,
    )
}

pub fn immediate_u(word: u32) -> u32
    ensures value { result ≡ immediate_u_of word }
{
    word & 0xffff_f000
}

pub fn immediate_j(word: u32) -> u32
    ensures value { result ≡ immediate_j_of word }
{
    sign_extend(
        ((word >> 31) << 20)
            + (((word >> 12) & 0xff) << 12)
            + (((word >> 20) & 1) << 11)
            + (((word >> 21) & 0x3ff) << 1),
        21,
    )
}
