// The fields of an instruction word, by shifts and masks: each by its name in the specification, with its place and its length.
ghost use Rattle.std.specs.Prelude.{◌≡◌, ◌+◌, ◌-◌, ◌*◌, ◌/◌, ◌%◌, ◌^◌, ◌<◌, ◌≤◌};
ghost use Rattle.instructions.specs.Fields.{opcode_of, rd_of, funct3_of, rs1_of, rs2_of, funct7_of, fm_of, pred_of, succ_of};
ghost use Rattle.instructions.specs.Fields.{upper_of, signed_of, bits_s, bits_b, bits_j, imm_i, imm_s, imm_b, imm_j};

// The `count` bits of the word from bit `from` on.
pub(crate) fn bits(word: u32, from: u32, count: u32) -> u32
    requires { (from < 32) × (count < 32) }
    ensures { result ≡ word / 2 ^ from % 2 ^ count }
{
    (word >> from) & ((1 << count) - 1)
}

// The bits of `high`, and below them the `count` bits of `low`.
pub(crate) fn join(high: u32, low: u32, count: u32) -> u32
    requires { (count < 32) × ((high * 2 ^ count < 2 ^ 32) × (low < 2 ^ count)) }
    ensures { result ≡ high * 2 ^ count + low }
{
    high << count | low
}

pub(crate) fn opcode(word: u32) -> u32
    ensures { result ≡ opcode_of word }
{
    bits(word, 0, 7)
}

pub(crate) fn rd(word: u32) -> u8
    ensures { result ≡ rd_of word }
{
    bits(word, 7, 5) as u8
}

pub(crate) fn funct3(word: u32) -> u32
    ensures { result ≡ funct3_of word }
{
    bits(word, 12, 3)
}

pub(crate) fn rs1(word: u32) -> u8
    ensures { result ≡ rs1_of word }
{
    bits(word, 15, 5) as u8
}

pub(crate) fn rs2(word: u32) -> u8
    ensures { result ≡ rs2_of word }
{
    bits(word, 20, 5) as u8
}

pub(crate) fn funct7(word: u32) -> u32
    ensures { result ≡ funct7_of word }
{
    word >> 25
}

// The three fields of four bits that only FENCE has.
pub(crate) fn orderings(word: u32) -> (u8, u8, u8)
    ensures { result ≡ (fm_of word, pred_of word, succ_of word) }
{
    (
        bits(word, 28, 4) as u8,
        bits(word, 24, 4) as u8,
        bits(word, 20, 4) as u8,
    )
}

pub(crate) fn immediate_u(word: u32) -> u32
    ensures { result ≡ upper_of word }
{
    word & 0xffff_f000
}

// The number that the low `count` bits stand for in two's complement, where all others are 0.
fn sign_extend(bits: u32, count: u32) -> i32
    requires { (0 < count) × ((count ≤ 32) × (bits < 2 ^ count)) }
    ensures { result ≡ signed_of (2 ^ (count - 1)) bits }
{
    let unused = 32 - count;
    (bits << unused).cast_signed() >> unused
}

pub(crate) fn immediate_i(word: u32) -> i32
    ensures { result ≡ imm_i word }
{
    sign_extend(word >> 20, 12)
}

fn bits_s(word: u32) -> u32
    ensures { result ≡ bits_s word }
{
    join(bits(word, 25, 7), bits(word, 7, 5), 5)
}

pub(crate) fn immediate_s(word: u32) -> i32
    ensures { result ≡ imm_s word }
{
    sign_extend(bits_s(word), 12)
}

fn bits_b(word: u32) -> u32
    ensures { result ≡ bits_b word }
{
    let high = join(bits(word, 31, 1), bits(word, 7, 1), 1);
    let high = join(high, bits(word, 25, 6), 6);
    join(high, bits(word, 8, 4), 4) << 1
}

pub(crate) fn immediate_b(word: u32) -> i32
    ensures { result ≡ imm_b word }
{
    sign_extend(bits_b(word), 13)
}

fn bits_j(word: u32) -> u32
    ensures { result ≡ bits_j word }
{
    let high = join(bits(word, 31, 1), bits(word, 12, 8), 8);
    let high = join(high, bits(word, 20, 1), 1);
    join(high, bits(word, 21, 10), 10) << 1
}

pub(crate) fn immediate_j(word: u32) -> i32
    ensures { result ≡ imm_j word }
{
    sign_extend(bits_j(word), 21)
}
