// A line of input, gathered from the pieces that are read.
#![tactic(auto)]

mod line;

ghost use Rattle.std.specs.Prelude.{◌≡◌, length, is_some, unwrap_or};
ghost use Rattle.text.specs.Put.{Put};
ghost use Rattle.listing_input.specs.Gather.{line_bytes, line_ends, line_next};

pub use line::{Parsed, parse};

// How many bytes the line has now, those that it had no room for among them; and where in the piece to go on, if the line has ended there.
#[derive(Clone, Copy)]
pub struct Gathered {
    pub held: usize,
    pub next: Option<usize>,
}

// Puts the bytes of a piece, from a place on and up to a newline, after the `held` bytes of a line.
pub fn gather(line: &mut [u8], held: usize, piece: &[u8], from: usize) -> Gathered
    ensures bytes { Put line.old held (line_bytes piece.now from) line.new result.held }
    ensures next { unwrap_or result.next (length piece.now) ≡ line_next piece.now from }
    ensures ended { is_some result.next ≡ line_ends piece.now from }
{
    let rest = piece.get(from..).unwrap_or(&[]);
    match rest.iter().position(|b| *b == b'\n') {
        Some(n) => Gathered {
            held: text::put_bytes(line, held, &rest[..n]),
            next: Some(from + n + 1),
        },
        None => Gathered {
            held: text::put_bytes(line, held, rest),
            next: None,
        },
    }
}
