// RV64 instructions as they come in: the kinds and their numbers, the record, and what the definitions and the code say of a kind.
#![tactic(auto)]

ghost use Rattle.std.specs.Prelude.{◌≡◌, ◌<◌, slice_get};
ghost use Rattle.riscv.specs.Kind.{kinds, kind_count, kind_at, kind_number};

// The registers are x0 to x31.
pub const LAST_REGISTER: u64 = 31;

// The kinds, in the order of the first `match` of unicorn's `translate_to_model`: each has its place for its number. A record from a host may
// hold any other number.
#[derive(Clone, Copy, Debug, PartialEq, Eq)]
pub enum Kind {
    Lui,
    Auipc,
    Lb,
    Lh,
    Lw,
    Ld,
    Lbu,
    Lhu,
    Sb,
    Sh,
    Sw,
    Sd,
    Addi,
    Sltiu,
    Xori,
    Ori,
    Andi,
    Slli,
    Srli,
    Srai,
    Addiw,
    Slliw,
    Srliw,
    Sraiw,
    Add,
    Sub,
    Sll,
    Sltu,
    Srl,
    Sra,
    Or,
    And,
    Mul,
    Div,
    Divu,
    Remu,
    Addw,
    Divw,
    Subw,
    Sllw,
    Mulw,
    Beq,
    Bne,
    Blt,
    Bge,
    Bltu,
    Bgeu,
    Jal,
    Jalr,
    Ecall,
}

pub const KINDS: u64 = 50;

// Each kind at its number.
static ALL: [Kind; KINDS as usize] = [
    Kind::Lui,
    Kind::Auipc,
    Kind::Lb,
    Kind::Lh,
    Kind::Lw,
    Kind::Ld,
    Kind::Lbu,
    Kind::Lhu,
    Kind::Sb,
    Kind::Sh,
    Kind::Sw,
    Kind::Sd,
    Kind::Addi,
    Kind::Sltiu,
    Kind::Xori,
    Kind::Ori,
    Kind::Andi,
    Kind::Slli,
    Kind::Srli,
    Kind::Srai,
    Kind::Addiw,
    Kind::Slliw,
    Kind::Srliw,
    Kind::Sraiw,
    Kind::Add,
    Kind::Sub,
    Kind::Sll,
    Kind::Sltu,
    Kind::Srl,
    Kind::Sra,
    Kind::Or,
    Kind::And,
    Kind::Mul,
    Kind::Div,
    Kind::Divu,
    Kind::Remu,
    Kind::Addw,
    Kind::Divw,
    Kind::Subw,
    Kind::Sllw,
    Kind::Mulw,
    Kind::Beq,
    Kind::Bne,
    Kind::Blt,
    Kind::Bge,
    Kind::Bltu,
    Kind::Bgeu,
    Kind::Jal,
    Kind::Jalr,
    Kind::Ecall,
];

impl Kind {
    // The kind of a number, where there is one: an Option, as the definition has it, where TryFrom would want an error of its own.
    pub fn numbered(number: u64) -> Option<Kind>
        ensures { result ≡ slice_get kinds number }
    {
        ALL.get(number as usize).copied()
    }

    // The kind of a number: what is no other kind is Ecall.
    pub fn at(number: u64) -> Kind
        ensures { result ≡ kind_at number }
    {
        Kind::numbered(number).unwrap_or(Kind::Ecall)
    }

    pub fn number(self) -> u64
        ensures is { result ≡ kind_number self }
        ensures below { result < kind_count }
    {
        self as u64
    }
}

// An instruction. `imm` is the 64-bit two's complement word of the immediate; for U-format it is the field of 20 bits.
#[derive(Clone, Copy)]
pub struct Instruction {
    pub kind: u64,
    pub rd: u64,
    pub rs1: u64,
    pub rs2: u64,
    pub imm: u64,
}

// Which of an instruction's fields are zero: imm is 0, rd is x0, rs1 is x0.
#[derive(Clone, Copy)]
pub struct Zeros {
    pub imm: bool,
    pub rd: bool,
    pub rs1: bool,
}

// The manual's instruction formats. Of Ecall no field is used.
#[derive(Clone, Copy)]
pub enum Format {
    R,
    I,
    S,
    B,
    U,
    J,
    System,
}

// Kinds by what they do besides their lines. Access: loads and stores. Addi, Jal, Jalr and Ecall are each a class of their own.
#[derive(Clone, Copy)]
pub enum Class {
    Plain,
    Access,
    Addi,
    Branch,
    Jal,
    Jalr,
    Ecall,
}

// The most bytes of a name that one word holds with a 1 above them.
pub const MOST_LETTERS: usize = 7;
