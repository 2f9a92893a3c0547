// What is told of an instruction by its kind's row: the refusals 1 to 6, the lines that it appends, whether it needs a flag, and its constant.
#![tactic(auto)]

mod constant;

ghost use Rattle.std.specs.Prelude.{◌≡◌, ◌+◌, ◌≤◌, not, ◌&&◌, ◌||◌, ◌==◌, nat_le};
ghost use Rattle.riscv.specs.Kind.{kind_at, kind_name};
ghost use Rattle.riscv.specs.Name.{packed};
ghost use Rattle.riscv_rows.specs.Coded.{coded};
ghost use Rattle.riscv.specs.Format.{format, registers_out, immediate_out, writes_rd};
ghost use Rattle.riscv.specs.Class.{class, count_of, line_count, most_appended, class_needs_flag, takes_zero_rd, has_bad, has_dispatch};
ghost use Rattle.riscv.specs.Zeros.{zeros_of};
ghost use Rattle.refusals.specs.Refusal.{refused_with};
ghost use Rattle.riscv.specs.Refusal.{refusal, amount_out, zero_srliw, indirect_offset};

pub use constant::constant_of;
use refusals::Refusal;
use riscv::{Class, Format, Instruction, KINDS, Kind, LAST_REGISTER, Zeros};

// What is said of a kind: its name in one word (its bytes, the first lowest, and a 1 above them), its format, its class, and how many lines
// it appends where rd and imm are not 0, those of an address apart.
#[derive(Clone, Copy)]
struct Row {
    name: u64,
    format: Format,
    class: Class,
    lines: usize,
}

// A row is written with its kind, for the reader.
macro_rules! row {
    ($kind:ident, $name:literal, $format:ident, $class:ident, $lines:literal) => {
        Row {
            name: $name,
            format: Format::$format,
            class: Class::$class,
            lines: $lines,
        }
    };
}

// The row of each kind, in their order.
static ROWS: [Row; KINDS as usize] = [
    row!(Lui, 0x169754c, U, Plain, 2),
    row!(Auipc, 0x16370697541, U, Plain, 2),
    row!(Lb, 0x1624c, I, Access, 17),
    row!(Lh, 0x1684c, I, Access, 17),
    row!(Lw, 0x1774c, I, Access, 17),
    row!(Ld, 0x1644c, I, Access, 10),
    row!(Lbu, 0x175624c, I, Access, 13),
    row!(Lhu, 0x175684c, I, Access, 13),
    row!(Sb, 0x16253, S, Access, 27),
    row!(Sh, 0x16853, S, Access, 27),
    row!(Sw, 0x17753, S, Access, 27),
    row!(Sd, 0x16453, S, Access, 5),
    row!(Addi, 0x169646441, I, Addi, 12),
    row!(Sltiu, 0x17569746c53, I, Plain, 4),
    row!(Xori, 0x169726f58, I, Plain, 8),
    row!(Ori, 0x169724f, I, Plain, 6),
    row!(Andi, 0x169646e41, I, Plain, 3),
    row!(Slli, 0x1696c6c53, I, Plain, 3),
    row!(Srli, 0x1696c7253, I, Plain, 3),
    row!(Srai, 0x169617253, I, Plain, 7),
    row!(Addiw, 0x17769646441, I, Plain, 10),
    row!(Slliw, 0x177696c6c53, I, Plain, 9),
    row!(Srliw, 0x177696c7253, I, Plain, 5),
    row!(Sraiw, 0x17769617253, I, Plain, 9),
    row!(Add, 0x1646441, R, Plain, 11),
    row!(Sub, 0x1627553, R, Plain, 11),
    row!(Sll, 0x16c6c53, R, Plain, 4),
    row!(Sltu, 0x175746c53, R, Plain, 3),
    row!(Srl, 0x16c7253, R, Plain, 4),
    row!(Sra, 0x1617253, R, Plain, 8),
    row!(Or, 0x1724f, R, Plain, 5),
    row!(And, 0x1646e41, R, Plain, 2),
    row!(Mul, 0x16c754d, R, Plain, 16),
    row!(Div, 0x1766944, R, Plain, 3),
    row!(Divu, 0x175766944, R, Plain, 3),
    row!(Remu, 0x1756d6552, R, Plain, 3),
    row!(Addw, 0x177646441, R, Plain, 18),
    row!(Divw, 0x177766944, R, Plain, 15),
    row!(Subw, 0x177627553, R, Plain, 18),
    row!(Sllw, 0x1776c6c53, R, Plain, 11),
    row!(Mulw, 0x1776c754d, R, Plain, 35),
    row!(Beq, 0x1716542, B, Branch, 2),
    row!(Bne, 0x1656e42, B, Branch, 3),
    row!(Blt, 0x1746c42, B, Branch, 5),
    row!(Bge, 0x1656742, B, Branch, 6),
    row!(Bltu, 0x175746c42, B, Branch, 2),
    row!(Bgeu, 0x175656742, B, Branch, 3),
    row!(Jal, 0x16c614a, J, Jal, 2),
    row!(Jalr, 0x1726c614a, I, Jalr, 2),
    row!(Ecall, 0x16c6c616345, System, Ecall, 1),
];

fn row_of(kind: Kind) -> Row
    ensures { result ≡ coded kind }
{
    ROWS[kind.number() as usize]
}

// The name of a kind in one word, which a reader compares with the word that it reads: no letter after letter for each kind.
pub fn name_of(kind: u64) -> u64
    ensures { result ≡ packed (kind_name (kind_at kind)) }
{
    row_of(Kind::at(kind)).name
}

pub fn class_of(kind: u64) -> Class
    ensures { result ≡ class (kind_at kind) }
{
    row_of(Kind::at(kind)).class
}

pub fn zeros_of(i: Instruction) -> Zeros
    ensures { result ≡ zeros_of i }
{
    Zeros {
        imm: i.imm == 0,
        rd: i.rd == 0,
        rs1: i.rs1 == 0,
    }
}

// The first of the refusals 1 to 6 that applies.
pub fn check(i: Instruction) -> Result<(), Refusal>
    ensures { refused_with result ≡ refusal i }
{
    let Some(kind) = Kind::numbered(i.kind) else {
        return Err(Refusal::UnknownKind);
    };
    let row = row_of(kind);
    if registers_out(row.format, i.rd, i.rs1, i.rs2) {
        return Err(Refusal::FieldOut);
    }
    if immediate_out(row.format, i.imm) {
        return Err(Refusal::FieldOut);
    }
    if amount_out(kind, i.imm) {
        return Err(Refusal::ShiftAmount);
    }
    if zero_srliw(kind, i.imm) {
        return Err(Refusal::SrliwByZero);
    }
    if zero_rd(row, i.rd) {
        return Err(Refusal::ZeroDestination);
    }
    if indirect_offset(kind, i.rs1, i.imm) {
        return Err(Refusal::JalrOffset);
    }
    Ok(())
}

// 2: a register field that the format uses is above 31.
fn registers_out(format: Format, rd: u64, rs1: u64, rs2: u64) -> bool
    ensures { result ≡ registers_out format rd rs1 rs2 }
{
    match format {
        Format::R => rd > LAST_REGISTER || rs1 > LAST_REGISTER || rs2 > LAST_REGISTER,
        Format::I => rd > LAST_REGISTER || rs1 > LAST_REGISTER,
        Format::S | Format::B => rs1 > LAST_REGISTER || rs2 > LAST_REGISTER,
        Format::U | Format::J => rd > LAST_REGISTER,
        Format::System => false,
    }
}

// 2: the immediate is outside the range of its format.
fn immediate_out(format: Format, imm: u64) -> bool
    ensures { result ≡ immediate_out format imm }
{
    match format {
        Format::I | Format::S => outside(imm, 0xffff_ffff_ffff_f800, 2047),
        Format::B => imm % 2 != 0 || outside(imm, 0xffff_ffff_ffff_f000, 4094),
        Format::U => imm > 1_048_575,
        Format::J => imm % 2 != 0 || outside(imm, 0xffff_ffff_fff0_0000, 1_048_574),
        Format::R | Format::System => false,
    }
}

// A word is above `high` and below `low`, the word of a negative number.
fn outside(imm: u64, low: u64, high: u64) -> bool
    ensures { result ≡ not (nat_le imm high || nat_le low imm) }
{
    high < imm && imm < low
}

// 3: the amount of a shift by an immediate.
fn amount_out(kind: Kind, imm: u64) -> bool
    ensures { result ≡ amount_out kind imm }
{
    match kind {
        Kind::Slli | Kind::Srli => imm > 63,
        Kind::Slliw | Kind::Srliw => imm > 31,
        Kind::Sraiw => imm % 64 > 31,
        _ => false,
    }
}

// 4: Srliw by 0.
fn zero_srliw(kind: Kind, imm: u64) -> bool
    ensures { result ≡ zero_srliw kind imm }
{
    matches!(kind, Kind::Srliw) && imm == 0
}

// 5: rd is x0, of a kind that writes rd, other than Addi, Jal and Jalr.
fn zero_rd(row: Row, rd: u64) -> bool
    ensures { result ≡ (rd == 0 && (writes_rd row.format && not (takes_zero_rd row.class))) }
{
    rd == 0 && writes_rd(row.format) && !takes_zero_rd(row.class)
}

// Whether a format has a destination register.
fn writes_rd(format: Format) -> bool
    ensures { result ≡ writes_rd format }
{
    matches!(format, Format::R | Format::I | Format::U | Format::J)
}

// Whether the destination of a kind of a class may be x0: Addi, Jal and Jalr.
fn takes_zero_rd(class: Class) -> bool
    ensures { result ≡ takes_zero_rd class }
{
    matches!(class, Class::Addi | Class::Jal | Class::Jalr)
}

// 6: Jalr under a register with an offset.
fn indirect_offset(kind: Kind, rs1: u64, imm: u64) -> bool
    ensures { result ≡ indirect_offset kind rs1 imm }
{
    matches!(kind, Kind::Jalr) && rs1 != 0 && imm != 0
}

// How many lines a kind appends.
pub fn line_count(kind: u64, z: Zeros) -> usize
    ensures counted { result ≡ line_count (kind_at kind) z }
    ensures most { result ≤ most_appended }
{
    count_of(row_of(Kind::at(kind)), z)
}

// Each class counts in its own way.
fn count_of(row: Row, z: Zeros) -> usize
    requires { row.lines ≤ most_appended }
    ensures { result ≡ count_of row.class row.lines z }
{
    let n = row.lines;
    match row.class {
        Class::Plain | Class::Branch | Class::Ecall => n,
        Class::Access => if z.imm { n } else { n + 2 },
        Class::Addi => if z.rd {
            0
        } else if z.imm {
            11
        } else {
            n
        },
        Class::Jal => if z.rd { 0 } else { n },
        Class::Jalr => (if z.rd { 0 } else { n }) + usize::from(z.rs1),
    }
}

// Whether a kind of a class needs a flag.
pub fn needs_flag(class: Class, z: Zeros) -> bool
    ensures { result ≡ class_needs_flag class z }
{
    match class {
        Class::Plain | Class::Access | Class::Ecall => true,
        Class::Addi | Class::Jal => !z.rd,
        Class::Branch => false,
        Class::Jalr => !z.rd || z.rs1,
    }
}

// Whether a kind of a class has a bad line: Jalr under x0.
pub fn has_bad(class: Class, z: Zeros) -> bool
    ensures { result ≡ has_bad class z }
{
    matches!(class, Class::Jalr) && z.rs1
}

// Whether a kind of a class has a dispatch: Jalr under another register.
pub fn has_dispatch(class: Class, z: Zeros) -> bool
    ensures { result ≡ has_dispatch class z }
{
    matches!(class, Class::Jalr) && !z.rs1
}
