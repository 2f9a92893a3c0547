// The listing program's input: a line is an address and an instruction, or malformed.
ghost use Rattle.std.specs.Prelude.{◌≡◌, [], ◌+◌, ◌<◌, ◌≤◌, length, get_or};
ghost use Rattle.listing_input.specs.Text.{split, number_below};
ghost use Rattle.listing_input.specs.Kinds.{kind_code};
ghost use Rattle.riscv.specs.Name.{most_letters, packed};
ghost use Rattle.listing_input.specs.Line.{parse_line};
ghost use Rattle.listing_input.specs.Line.{letters as Line·letters};
ghost use Rattle.listing_input.specs.Line.{immediate as Line·immediate};

use riscv::{Instruction, KINDS, MOST_LETTERS};

// The most bytes of a line.
const MOST_BYTES: usize = 256;

// The fields of a line: an address, a kind, three registers and an immediate.
const FIELDS: usize = 6;

// The largest number of a register in a line, known or not.
const MOST_REGISTER: u64 = 255;

// What a line says. A kind that there is none of has the number of kinds, and imm is the pattern of 64 bits.
#[derive(Clone, Copy)]
pub struct Parsed {
    pub address: u64,
    pub instruction: Instruction,
}

// The instruction of a line, or none where the line is malformed.
pub fn parse(line: &[u8]) -> Option<Parsed>
    ensures { result ≡ parse_line line.now }
{
    if MOST_BYTES < line.len() {
        return None;
    }
    if fields(line) != FIELDS {
        return None;
    }
    let address = number(line, 0, u64::MAX)?;
    let name = field(line, 1);
    if !letters(name) {
        return None;
    }
    let rd = number(line, 2, MOST_REGISTER)?;
    let rs1 = number(line, 3, MOST_REGISTER)?;
    let rs2 = number(line, 4, MOST_REGISTER)?;
    let imm = immediate(field(line, 5))?;
    let instruction = Instruction {
        kind: kind_code(name),
        rd,
        rs1,
        rs2,
        imm,
    };
    Some(Parsed {
        address,
        instruction,
    })
}

// The number at most `most` that field k is.
fn number(line: &[u8], k: usize, most: u64) -> Option<u64>
    ensures { result ≡ number_below (most + 1) (get_or (split 32 line.now) k []) }
{
    decimal(field(line, k), most)
}

// How many fields there are.
fn fields(s: &[u8]) -> usize
    ensures { result ≡ length (split 32 s.now) }
{
    s.split(|b| *b == b' ').count()
}

// Field k, or no bytes where there is none.
fn field(s: &[u8], k: usize) -> &[u8]
    ensures { result.now ≡ get_or (split 32 s.now) k [] }
{
    s.split(|b| *b == b' ').nth(k).unwrap_or(&[])
}

// The decimal number that s is, if it is at most `most`.
fn decimal(s: &[u8], most: u64) -> Option<u64>
    ensures { result ≡ number_below (most + 1) s.now }
{
    if s.is_empty() {
        return None;
    }
    if s[0] == b'0' && 1 < s.len() {
        return None;
    }
    let mut n: u64 = 0;
    for b in s {
        if !b.is_ascii_digit() {
            return None;
        }
        n = n.checked_mul(10)?.checked_add(u64::from(*b - b'0'))?;
    }
    if most < n { None } else { Some(n) }
}

// The number within 32 signed bits that s is, as 64 bits.
fn immediate(s: &[u8]) -> Option<u64>
    ensures { result ≡ Line·immediate s.now }
{
    let Some(digits) = s.strip_prefix(b"-") else {
        return decimal(s, 0x7fff_ffff);
    };
    let n = decimal(digits, 0x8000_0000)?;
    if n == 0 {
        return None;
    }
    Some(n.wrapping_neg())
}

fn letters(s: &[u8]) -> bool
    ensures { result ≡ Line·letters s.now }
{
    !s.is_empty() && s.iter().all(u8::is_ascii_alphabetic)
}

// The bytes of s in one word, as those of a kind.
fn pack(s: &[u8]) -> u64
    requires { length s.now ≤ most_letters }
    ensures { result ≡ packed s.now }
{
    s.iter().rev().fold(1, |w: u64, b| (w << 8) + u64::from(*b))
}

// The kind's code, or how many kinds there are where it is none: an instruction has any number for its kind, and its lowering refuses this one.
fn kind_code(name: &[u8]) -> u64
    ensures { result ≡ kind_code name.now }
{
    if MOST_LETTERS < name.len() {
        return KINDS;
    }
    let w = pack(name);
    (0..KINDS)
        .find(|k| riscv_rows::name_of(*k) == w)
        .unwrap_or(KINDS)
}
