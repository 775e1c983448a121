// Operations and conditions on words of 32 bits.
ghost use Rattle.std.specs.Prelude.{◌≡◌};
ghost use Rattle.rv32.specs.Compute.{computed, holds_of};

use instructions::{Condition, Operation};

pub(crate) fn compute(operation: Operation, x: u32, y: u32) -> u32
    ensures { result ≡ computed operation x y }
{
    match operation {
        Operation::Add => x.wrapping_add(y),
        Operation::Sub => x.wrapping_sub(y),
        Operation::Sll => x << (y % 32),
        Operation::Slt => (x.cast_signed() < y.cast_signed()) as u32,
        Operation::Sltu => (x < y) as u32,
        Operation::Xor => x ^ y,
        Operation::Srl => x >> (y % 32),
        Operation::Sra => (x.cast_signed() >> (y % 32)).cast_unsigned(),
        Operation::Or => x | y,
        Operation::And => x & y,
    }
}

pub(crate) fn holds(condition: Condition, x: u32, y: u32) -> bool
    ensures { result ≡ holds_of condition x y }
{
    match condition {
        Condition::Eq => x == y,
        Condition::Ne => x != y,
        Condition::Lt => x.cast_signed() < y.cast_signed(),
        Condition::Ge => x.cast_signed() >= y.cast_signed(),
        Condition::Ltu => x < y,
        Condition::Geu => x >= y,
    }
}
