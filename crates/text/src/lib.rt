// Pieces of text put into an output. Each is total: what lies past the output's end is not stored, and the place after the piece is answered
// all the same, capped at the largest number. An output and a place are no struct: a place stays in a register, and a struct that is lent would not.
#![tactic(auto)]

ghost use Rattle.std.specs.Prelude.{◌≡◌, [], ◌∷◌, ◌+◌, ◌-◌, ◌<◌, ◌≤◌, length};
ghost use Rattle.text.specs.Numeral.{glyph, numeral, decimal_text, hex_text};
ghost use Rattle.text.specs.Put.{Put};
ghost use Rattle.text.specs.BadName.{bad_name};

pub fn put_byte(out: &mut [u8], at: usize, b: u8) -> usize
    ensures { Put out.old at (b ∷ []) out.new result }
{
    if at < out.len() {
        out[at] = b;
    }
    at.saturating_add(1)
}

pub fn put_bytes(out: &mut [u8], at: usize, s: &[u8]) -> usize
    ensures { Put out.old at s.now out.new result }
{
    if out.len() <= at {
        return at.saturating_add(s.len());
    }
    let mut p = at;
    for b in s {
        p = put_byte(out, p, *b);
    }
    p
}

// A digit in ASCII.
fn digit(d: u64) -> u8
    requires { d < 16 }
    ensures { result ≡ glyph d }
{
    if d < 10 {
        b'0' + d as u8
    } else {
        b'a' + (d as u8 - 10)
    }
}

// x in the base, at most k digits.
fn put_number(out: &mut [u8], at: usize, x: u64, base: u64, k: usize) -> usize
    requires { (1 < base) × (base ≤ 16) }
    ensures { Put out.old at (numeral base k x) out.new result }
{
    if k == 0 {
        return at;
    }
    let d = digit(x % base);
    if x < base {
        return put_byte(out, at, d);
    }
    let p = put_number(out, at, x / base, base, k - 1);
    put_byte(out, p, d)
}

pub fn put_decimal(out: &mut [u8], at: usize, x: u64) -> usize
    ensures { Put out.old at (decimal_text x) out.new result }
{
    put_number(out, at, x, 10, 20)
}

fn put_hex(out: &mut [u8], at: usize, x: u64) -> usize
    ensures { Put out.old at (hex_text x) out.new result }
{
    put_number(out, at, x, 16, 16)
}

// The name of the bad line at an address.
pub fn put_bad_name(names: &mut [u8], at: usize, address: u64) -> usize
    ensures { Put names.old at (bad_name address) names.new result }
{
    let p = put_bytes(names, at, b"unimplemented-pc-");
    put_hex(names, p, address)
}

// The name is put into an array of its own: the place after it is its length.
pub fn bad_name_len(address: u64) -> usize
    ensures is { result ≡ length (bad_name address) }
    ensures most { result ≤ 33 }
{
    let mut name = [0u8; 33];
    put_bad_name(&mut name, 0, address)
}
