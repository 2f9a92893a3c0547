// Decimal numbers put into an output that has room for them: their bytes are stored with no tests of it, and no division is by more than
// constants.
ghost use Rattle.std.specs.Prelude.{◌≡◌, ◌+◌, ◌-◌, ◌*◌, ◌/◌, ◌%◌, ◌<◌, ◌≤◌, length};
ghost use Rattle.text.specs.Numeral.{glyph, decimal_text};
ghost use Rattle.text.specs.Put.{Put};
ghost use Rattle.row_text.specs.Pairs.{two, four, eight};

// A number where there is room for the longest.
pub(crate) fn put_in(out: &mut [u8], at: usize, x: u64) -> usize
    requires { at + 20 ≤ length out.old }
    ensures { Put out.old at (decimal_text x) out.new result × (result ≤ at + 20) }
{
    if x < 100000000 {
        return put_eight(out, at, x as u32);
    }
    put_long(out, at, x)
}

// More than eight digits, where there is room for them.
fn put_long(out: &mut [u8], at: usize, x: u64) -> usize
    requires { (100000000 ≤ x) × (at + 20 ≤ length out.old) }
    ensures { Put out.old at (decimal_text x) out.new result × (result ≤ at + 20) }
{
    let p = put_twelve(out, at, x / 100000000);
    let last = x % 100000000;
    put_padded(out, p, last as u32)
}

// At most twelve digits, where there is room for them.
fn put_twelve(out: &mut [u8], at: usize, x: u64) -> usize
    requires { (x < 1000000000000) × (at + 12 ≤ length out.old) }
    ensures { Put out.old at (decimal_text x) out.new result × (result ≤ at + 12) }
{
    if x < 100000000 {
        return text::put_decimal(out, at, x);
    }
    let first = x / 100000000;
    let last = x % 100000000;
    let p = put_short(out, at, first as u32);
    put_padded(out, p, last as u32)
}

// Eight digits, the first of which may be zeros.
fn put_padded(out: &mut [u8], at: usize, x: u32) -> usize
    requires { (x < 100000000) × (at + 8 ≤ length out.old) }
    ensures { Put out.old at (eight x) out.new result × (result ≡ at + 8) }
{
    let p = put_four(out, at, x / 10000);
    put_four(out, p, x % 10000)
}

// At most eight digits, where there is room for them.
fn put_eight(out: &mut [u8], at: usize, x: u32) -> usize
    requires { (x < 100000000) × (at + 8 ≤ length out.old) }
    ensures { Put out.old at (decimal_text x) out.new result × (result ≤ at + 8) }
{
    if x < 10000 {
        return put_short(out, at, x);
    }
    let p = put_short(out, at, x / 10000);
    put_four(out, p, x % 10000)
}

// At most four digits, where there is room for them.
fn put_short(out: &mut [u8], at: usize, x: u32) -> usize
    requires { (x < 10000) × (at + 4 ≤ length out.old) }
    ensures { Put out.old at (decimal_text x) out.new result × (result ≤ at + 4) }
{
    if x < 100 {
        return put_pair(out, at, x);
    }
    let p = put_pair(out, at, x / 100);
    put_two(out, p, x % 100)
}

// One or two digits, where there is room for them.
fn put_pair(out: &mut [u8], at: usize, x: u32) -> usize
    requires { (x < 100) × (at + 2 ≤ length out.old) }
    ensures { Put out.old at (decimal_text x) out.new result × (result ≤ at + 2) }
{
    if x < 10 {
        out[at] = digit(x);
        return at + 1;
    }
    put_two(out, at, x)
}

// Four digits, the first of which may be zeros.
fn put_four(out: &mut [u8], at: usize, x: u32) -> usize
    requires { (x < 10000) × (at + 4 ≤ length out.old) }
    ensures { Put out.old at (four x) out.new result × (result ≡ at + 4) }
{
    let p = put_two(out, at, x / 100);
    put_two(out, p, x % 100)
}

// Two digits, the first of which may be a zero.
fn put_two(out: &mut [u8], at: usize, x: u32) -> usize
    requires { (x < 100) × (at + 2 ≤ length out.old) }
    ensures { Put out.old at (two x) out.new result × (result ≡ at + 2) }
{
    let w = pair(x);
    out[at] = (w % 256) as u8;
    out[at + 1] = (w / 256) as u8;
    at + 2
}

// Two digits in one number, the first in the low byte: a multiplication and a shift in place of a division.
fn pair(x: u32) -> u32
    requires { x < 100 }
    ensures { result ≡ glyph (x / 10) + 256 * glyph (x % 10) }
{
    let tens = x * 103 / 1024;
    12336 + 256 * x - 2559 * tens
}

// A digit in ASCII.
fn digit(d: u32) -> u8
    requires { d < 10 }
    ensures { result ≡ glyph d }
{
    48 + d as u8
}
