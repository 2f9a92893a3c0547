// Rows of node lines as text: a row is an identifier, a word, some numbers and perhaps a name. Where an output has room for the longest row
// of so many numbers, the row is stored there with one test; else it is put by way of an array, or piece by piece where it may be too long for that.
#![tactic(auto)]

mod digits;

ghost use Rattle.std.specs.Prelude.{◌≡◌, true, false, [], ◌∷◌, ◌++◌, ◌+◌, ◌*◌, ◌^◌, ◌<◌, ◌≤◌, length};
ghost use Rattle.text.specs.Numeral.{decimal_text};
ghost use Rattle.text.specs.Put.{Put};
ghost use Rattle.row_text.specs.Row.{numbers_text, row_text};

use digits::put_in;

// The most bytes of a number, and of a number with the space before it.
const NUMBER: usize = 20;

const SPACED: usize = 21;

// The room for each row of a node line without a name: an identifier, a word of at most six letters, a sort and three operands.
const LONGEST: usize = 112;

// A row with no name: its first number is a sort in most of them. What has room for it is put into each caller, where the word and how many
// numbers there are is known: then no byte of the word is looked up and no number counted.
#[inline(always)]
pub fn put_row(
    out: &mut [u8],
    at: usize,
    nid: u64,
    word: &[u8],
    sort: u64,
    numbers: &[u64],
) -> usize
    ensures { Put out.old at (row_text nid word.now (sort ∷ numbers.now) false []) out.new result }
{
    if has_room(out.len(), at, word.len(), numbers.len()) {
        return row_in(out, at, nid, word, sort, numbers);
    }
    put_apart(out, at, nid, word, sort, numbers)
}

// A row with one number and a name.
pub fn put_named(
    out: &mut [u8],
    at: usize,
    nid: u64,
    word: &[u8],
    number: u64,
    name: &[u8],
) -> usize
    ensures { Put out.old at (row_text nid word.now (number ∷ []) true name.now) out.new result }
{
    let head = put_head(out, at, nid, word, number);
    let space = text::put_byte(out, head, b' ');
    let named = text::put_bytes(out, space, name);
    text::put_byte(out, named, b'\n')
}

// A row with no name for which there may be no room, by way of an array: `print` measures a run with an output of one byte, and piece by piece that
// takes a tenth longer. No row of a node line is too long for the array; the contract allows any word and any count of numbers. `put_pieces` is a
// function of its own, since with both in one printing with room took a tenth longer.
#[cold]
#[inline(never)]
fn put_apart(out: &mut [u8], at: usize, nid: u64, word: &[u8], sort: u64, numbers: &[u64]) -> usize
    ensures { Put out.old at (row_text nid word.now (sort ∷ numbers.now) false []) out.new result }
{
    if has_room(LONGEST, 0, word.len(), numbers.len()) {
        let mut row = [0u8; LONGEST];
        let n = row_in(&mut row, 0, nid, word, sort, numbers);
        return text::put_bytes(out, at, &row[..n]);
    }
    put_pieces(out, at, nid, word, sort, numbers)
}

// A row with no name, piece by piece.
#[cold]
#[inline(never)]
fn put_pieces(out: &mut [u8], at: usize, nid: u64, word: &[u8], sort: u64, numbers: &[u64]) -> usize
    ensures { Put out.old at (row_text nid word.now (sort ∷ numbers.now) false []) out.new result }
{
    let mut p = put_head(out, at, nid, word, sort);
    for x in numbers {
        p = put_spaced(out, p, *x);
    }
    text::put_byte(out, p, b'\n')
}

// An identifier, a word and a number.
fn put_head(out: &mut [u8], at: usize, nid: u64, word: &[u8], number: u64) -> usize
    ensures { Put out.old at (decimal_text nid ++ (32 ∷ word.now) ++ (32 ∷ decimal_text number)) out.new result }
{
    let p = put_number(out, at, nid);
    let space = text::put_byte(out, p, b' ');
    let q = text::put_bytes(out, space, word);
    put_spaced(out, q, number)
}

// A space and a number.
fn put_spaced(out: &mut [u8], at: usize, x: u64) -> usize
    ensures { Put out.old at (32 ∷ decimal_text x) out.new result }
{
    let p = text::put_byte(out, at, b' ');
    put_number(out, p, x)
}

// A digit, or a number by way of an array that has room for the longest, where no byte is tested.
fn put_number(out: &mut [u8], at: usize, x: u64) -> usize
    ensures { Put out.old at (decimal_text x) out.new result }
{
    if x < 10 {
        return text::put_byte(out, at, b'0' + x as u8);
    }
    let mut digits = [0u8; NUMBER];
    let n = put_in(&mut digits, 0, x);
    text::put_bytes(out, at, &digits[..n])
}

// An output of `end` bytes has room at a place for the longest row of a word and numbers of these lengths.
#[inline(always)]
fn has_room(end: usize, at: usize, word: usize, numbers: usize) -> bool
    requires { end < 2 ^ 63 }
    ensures { result ≡ true → at + (43 + word + 21 * numbers) ≤ end }
{
    let longest = numbers
        .saturating_mul(SPACED)
        .saturating_add(word)
        .saturating_add(NUMBER + SPACED + 2);
    longest <= end.saturating_sub(at)
}

// A row where there is room.
#[inline(always)]
fn row_in(out: &mut [u8], at: usize, nid: u64, word: &[u8], sort: u64, numbers: &[u64]) -> usize
    requires { at + (43 + length word.now + 21 * length numbers.now) ≤ length out.old }
    ensures { Put out.old at (row_text nid word.now (sort ∷ numbers.now) false []) out.new result × (result ≤ at + (43 + length word.now + 21 * length numbers.now)) }
{
    let head = head_in(out, at, nid, word, sort);
    let end = numbers_in(out, head, numbers);
    out[end] = b'\n';
    end + 1
}

// An identifier, a word and the first number: most are sorts of one digit.
#[inline(always)]
fn head_in(out: &mut [u8], at: usize, nid: u64, word: &[u8], sort: u64) -> usize
    requires { at + (42 + length word.now) ≤ length out.old }
    ensures { Put out.old at (decimal_text nid ++ (32 ∷ word.now) ++ (32 ∷ decimal_text sort)) out.new result × (result ≤ at + (42 + length word.now)) }
{
    let space = put_in(out, at, nid);
    out[space] = b' ';
    let end = bytes_in(out, space + 1, word);
    if sort < 10 {
        return digit_in(out, end, sort);
    }
    spaced_in(out, end, sort)
}

// Byte by byte: with `copy_from_slice` the compiler tests whether the two parts overlap, which was tried and gives longer code.
#[inline(always)]
fn bytes_in(out: &mut [u8], at: usize, bytes: &[u8]) -> usize
    requires { at + length bytes.now ≤ length out.old }
    ensures { Put out.old at bytes.now out.new result × (result ≤ at + length bytes.now) }
{
    let mut p = at;
    for b in bytes {
        out[p] = *b;
        p += 1;
    }
    p
}

// Numbers, with a space before each.
#[inline(always)]
fn numbers_in(out: &mut [u8], at: usize, numbers: &[u64]) -> usize
    requires { at + 21 * length numbers.now ≤ length out.old }
    ensures { Put out.old at (numbers_text numbers.now) out.new result × (result ≤ at + 21 * length numbers.now) }
{
    let mut p = at;
    for x in numbers {
        p = spaced_in(out, p, *x);
    }
    p
}

// A space and a number.
#[inline(always)]
fn spaced_in(out: &mut [u8], at: usize, x: u64) -> usize
    requires { at + 21 ≤ length out.old }
    ensures { Put out.old at (32 ∷ decimal_text x) out.new result × (result ≤ at + 21) }
{
    out[at] = b' ';
    put_in(out, at + 1, x)
}

// A space and a digit.
#[inline(always)]
fn digit_in(out: &mut [u8], at: usize, d: u64) -> usize
    requires { (d < 10) × (at + 2 ≤ length out.old) }
    ensures { Put out.old at (32 ∷ decimal_text d) out.new result × (result ≤ at + 2) }
{
    out[at] = b' ';
    out[at + 1] = b'0' + d as u8;
    at + 2
}
