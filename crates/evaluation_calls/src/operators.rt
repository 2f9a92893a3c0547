// The operators on words: what SMT-LIB's bit-vectors say.
ghost use Rattle.std.specs.Prelude.{◌≡◌, true};
ghost use Rattle.bitvec.specs.Smtlib.{bvnot, bvudiv, bvurem, bvsdiv, bvshl, bvlshr};
ghost use Rattle.btor2.specs.Sort.{width};
ghost use Rattle.btor2.specs.SortRule.{bit_or_word};
ghost use Rattle.btor2.specs.Value.{binary as binary_of};
ghost use Rattle.btor2_list.specs.Operator.{bin_from};

use btor2::NodeType;
use btor2_list::Bin;

const SIGN: u64 = 0x8000_0000_0000_0000;

// An operator on two words.
pub(crate) fn binary(o: Bin, x: u64, y: u64) -> u64
    ensures { result ≡ binary_of (bin_from o) x y }
{
    match o {
        Bin::Add => x.wrapping_add(y),
        Bin::Sub => x.wrapping_sub(y),
        Bin::Mul => x.wrapping_mul(y),
        Bin::Divu => quotient(x, y),
        Bin::Div => signed_quotient(x, y),
        Bin::Rem => remainder(x, y),
        Bin::Sll => left(x, y),
        Bin::Srl => right(x, y),
        Bin::Ult => u64::from(x < y),
    }
}

fn quotient(x: u64, y: u64) -> u64
    ensures { result ≡ bvudiv 64 x y }
{
    x.checked_div(y).unwrap_or(u64::MAX)
}

fn remainder(x: u64, y: u64) -> u64
    ensures { result ≡ bvurem x y }
{
    x.checked_rem(y).unwrap_or(x)
}

// By the signs, as SMT-LIB defines it: around `i64::wrapping_div` a zero divisor would be a case of its own, whose quotient depends on the sign of x.
fn signed_quotient(x: u64, y: u64) -> u64
    ensures { result ≡ bvsdiv 64 x y }
{
    match (SIGN <= x, SIGN <= y) {
        (true, true) => quotient(x.wrapping_neg(), y.wrapping_neg()),
        (true, false) => quotient(x.wrapping_neg(), y).wrapping_neg(),
        (false, true) => quotient(x, y.wrapping_neg()).wrapping_neg(),
        (false, false) => quotient(x, y),
    }
}

// By a test of the count, since `checked_shl` and `checked_shr` take a `u32`.
fn left(x: u64, y: u64) -> u64
    ensures { result ≡ bvshl 64 x y }
{
    if y < 64 { x << y } else { 0 }
}

fn right(x: u64, y: u64) -> u64
    ensures { result ≡ bvlshr 64 x y }
{
    if y < 64 { x >> y } else { 0 }
}

// Every bit of a value of a sort turned.
pub(crate) fn not(s: NodeType, x: u64) -> u64
    requires { bit_or_word s ≡ true }
    ensures { result ≡ bvnot (width s) x }
{
    match s {
        NodeType::Bit => u64::from(x == 0),
        _ => !x,
    }
}
