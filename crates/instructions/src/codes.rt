// The codes in funct3 and funct7 that stand for an operation, a condition or a width.
ghost use Rattle.std.specs.Prelude.{◌≡◌, ◌<◌};
ghost use Rattle.std.specs.Result.{result_ok};
ghost use Rattle.instructions.specs.Decode.{operation_of, condition_of, load_width_of, store_width_of};
ghost use Rattle.instructions.specs.Encode.{condition_code, load_code, store_code, operation_code, operation_high};

use crate::instruction::*;

// By funct7 and funct3.
impl TryFrom<(u32, u32)> for Operation {
    type Error = Illegal;

    ghost try_from_gives = { λ codes r. result_ok r ≡ operation_of codes.0 codes.1 };

    fn try_from(codes: (u32, u32)) -> Result<Self, Illegal> {
        match codes {
            (0, 0) => Ok(Operation::Add),
            (0x20, 0) => Ok(Operation::Sub),
            (0, 1) => Ok(Operation::Sll),
            (0, 2) => Ok(Operation::Slt),
            (0, 3) => Ok(Operation::Sltu),
            (0, 4) => Ok(Operation::Xor),
            (0, 5) => Ok(Operation::Srl),
            (0x20, 5) => Ok(Operation::Sra),
            (0, 6) => Ok(Operation::Or),
            (0, 7) => Ok(Operation::And),
            _ => Err(Illegal),
        }
    }
}

impl From<Operation> for (u32, u32) {
    ghost from_gives = { λ operation codes.
        (codes ≡ (operation_high operation, operation_code operation)) × ((codes.0 < 128) × (codes.1 < 8)) };

    fn from(operation: Operation) -> (u32, u32) {
        match operation {
            Operation::Add => (0, 0),
            Operation::Sub => (0x20, 0),
            Operation::Sll => (0, 1),
            Operation::Slt => (0, 2),
            Operation::Sltu => (0, 3),
            Operation::Xor => (0, 4),
            Operation::Srl => (0, 5),
            Operation::Sra => (0x20, 5),
            Operation::Or => (0, 6),
            Operation::And => (0, 7),
        }
    }
}

impl TryFrom<u32> for Condition {
    type Error = Illegal;

    ghost try_from_gives = { λ funct3 r. result_ok r ≡ condition_of funct3 };

    fn try_from(funct3: u32) -> Result<Self, Illegal> {
        match funct3 {
            0 => Ok(Condition::Eq),
            1 => Ok(Condition::Ne),
            4 => Ok(Condition::Lt),
            5 => Ok(Condition::Ge),
            6 => Ok(Condition::Ltu),
            7 => Ok(Condition::Geu),
            _ => Err(Illegal),
        }
    }
}

impl From<Condition> for u32 {
    ghost from_gives = { λ condition funct3. (funct3 ≡ condition_code condition) × (funct3 < 8) };

    fn from(condition: Condition) -> u32 {
        match condition {
            Condition::Eq => 0,
            Condition::Ne => 1,
            Condition::Lt => 4,
            Condition::Ge => 5,
            Condition::Ltu => 6,
            Condition::Geu => 7,
        }
    }
}

impl TryFrom<u32> for LoadWidth {
    type Error = Illegal;

    ghost try_from_gives = { λ funct3 r. result_ok r ≡ load_width_of funct3 };

    fn try_from(funct3: u32) -> Result<Self, Illegal> {
        match funct3 {
            0 => Ok(LoadWidth::Byte),
            1 => Ok(LoadWidth::Half),
            2 => Ok(LoadWidth::Word),
            4 => Ok(LoadWidth::ByteUnsigned),
            5 => Ok(LoadWidth::HalfUnsigned),
            _ => Err(Illegal),
        }
    }
}

impl From<LoadWidth> for u32 {
    ghost from_gives = { λ width funct3. (funct3 ≡ load_code width) × (funct3 < 8) };

    fn from(width: LoadWidth) -> u32 {
        match width {
            LoadWidth::Byte => 0,
            LoadWidth::Half => 1,
            LoadWidth::Word => 2,
            LoadWidth::ByteUnsigned => 4,
            LoadWidth::HalfUnsigned => 5,
        }
    }
}

impl TryFrom<u32> for StoreWidth {
    type Error = Illegal;

    ghost try_from_gives = { λ funct3 r. result_ok r ≡ store_width_of funct3 };

    fn try_from(funct3: u32) -> Result<Self, Illegal> {
        match funct3 {
            0 => Ok(StoreWidth::Byte),
            1 => Ok(StoreWidth::Half),
            2 => Ok(StoreWidth::Word),
            _ => Err(Illegal),
        }
    }
}

impl From<StoreWidth> for u32 {
    ghost from_gives = { λ width funct3. (funct3 ≡ store_code width) × (funct3 < 8) };

    fn from(width: StoreWidth) -> u32 {
        match width {
            StoreWidth::Byte => 0,
            StoreWidth::Half => 1,
            StoreWidth::Word => 2,
        }
    }
}
