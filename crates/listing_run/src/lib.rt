// The listing, as a program runs it: reads an instruction a line, and writes the node lines, edges and dispatches that it is lowered to, or its refusal.
// What reads and writes is here; lines.rt takes what was read, and is proved to give what listing_bytes defines.
#![tactic(auto)]

mod lines;

ghost use Rattle.std.specs.Prelude.{◌≡◌, ◌-◌, ◌^◌, ◌<◌, length, IfOk, OnOk, IfSome};
ghost use Rattle.std.specs.Io.KnownBytes.{Appends};
ghost use Rattle.listing_bytes.specs.Listing.{listing};
ghost use Rattle.listing_bytes.specs.Storage.{out_room};
ghost use Rattle.listing_bytes.specs.Pieces.{take_bytes};
ghost use Rattle.listing_run.specs.Turn.{Reaches, Lists};
ghost use Rattle.listing_run.specs.Lister.{progress_of, SameLists};

use lines::Lister;
use lowering::Lent;
use std::io;
use std::io::{Read, Write};

// Every line may be a bad one, with the longest name. An instruction has at most two edges and one dispatch.
const LINES: usize = 1024;

const LONGEST_NAME: usize = 33;

const LIST: usize = LINES * btor2_list::STRIDE;

const NAMES: usize = LINES * LONGEST_NAME;

const EDGES: usize = 2 * edges::EDGE;

const DISPATCHES: usize = edges::DISPATCH;

const BADS: usize = LINES;

// One byte more than the longest line, so that a longer one is seen to be longer.
const LINE: usize = 257;

// For the output of one line of input.
const OUT: usize = 4096;

// For one read.
const PIECE: usize = 4096;

// From a reader to a writer, up to the first call of either that fails: after it nothing more is written.
pub fn list_instructions<R: Read, W: Write>(reader: &mut R, writer: &mut W) -> io::Result<()>
    ensures { OnOk result (IfSome (R.remaining reader.old) (λ input. length input < 2 ^ 64 - 1 → Appends (W.contents writer.old) (W.contents writer.new) (listing input))) }
{
    let mut list = [0u64; LIST];
    listing_start::put_start(&mut list);
    let mut lent = Lent {
        list: &mut list,
        names: &mut [0u8; NAMES],
        edges: &mut [0u64; EDGES],
        dispatches: &mut [0u64; DISPATCHES],
        bads: &mut [0u64; BADS],
    };
    let mut line = [0u8; LINE];
    let mut lister = Lister::new(&mut line);
    let mut out = [0u8; OUT];
    read_all(reader, writer, &mut lent, &mut lister, &mut out)?;
    let length = lister.end_input(&mut lent, &mut out);
    writer.write_all(&out[..length])
}

// Reads to the input's end; whether more is to be read.
fn read_all<R: Read, W: Write>(
    reader: &mut R,
    writer: &mut W,
    lent: &mut Lent,
    lister: &mut Lister,
    out: &mut [u8],
) -> io::Result<bool>
    requires { length out.old ≡ out_room }
    ensures reached { Reaches (progress_of lent.old lister.old) (progress_of lent.new lister.new) }
    ensures listed { IfOk result (λ more. Lists (R.remaining reader.old) (R.remaining reader.new) (W.contents writer.old) (W.contents writer.new) (progress_of lent.old lister.old) (progress_of lent.new lister.new) more (2 ^ 64 - 1)) }
    ensures same { SameLists lent.old lister.old lent.new lister.new }
{
    // A proved loop ends, and nothing says that an input does: this many turns no run uses up.
    for _ in 0..u64::MAX {
        let more = read_piece(reader, writer, lent, lister, out)?;
        if !more {
            return Ok(false);
        }
    }
    Ok(true)
}

// Reads once, and takes what came; whether more is to be read.
fn read_piece<R: Read, W: Write>(
    reader: &mut R,
    writer: &mut W,
    lent: &mut Lent,
    lister: &mut Lister,
    out: &mut [u8],
) -> io::Result<bool>
    requires { length out.old ≡ out_room }
    ensures reached { Reaches (progress_of lent.old lister.old) (progress_of lent.new lister.new) }
    ensures listed { IfOk result (λ more. Lists (R.remaining reader.old) (R.remaining reader.new) (W.contents writer.old) (W.contents writer.new) (progress_of lent.old lister.old) (progress_of lent.new lister.new) more 1) }
    ensures same { SameLists lent.old lister.old lent.new lister.new }
{
    let mut piece = [0u8; PIECE];
    let n = reader.read(&mut piece)?;
    if n == 0 {
        return Ok(false);
    }
    take_piece(writer, lent, lister, out, &piece[..n])?;
    Ok(true)
}

// Takes a piece line by line, and writes what comes of each, up to the first write that fails.
fn take_piece<W: Write>(
    writer: &mut W,
    lent: &mut Lent,
    lister: &mut Lister,
    out: &mut [u8],
    piece: &[u8],
) -> io::Result<()>
    requires { length out.old ≡ out_room }
    ensures reached { Reaches (progress_of lent.old lister.old) (progress_of lent.new lister.new) }
    ensures whole { OnOk result (progress_of lent.new lister.new ≡ (take_bytes piece.now (progress_of lent.old lister.old)).progress) }
    ensures wrote { OnOk result (Appends (W.contents writer.old) (W.contents writer.new) (take_bytes piece.now (progress_of lent.old lister.old)).text) }
    ensures same { SameLists lent.old lister.old lent.new lister.new }
{
    // How far a turn goes is known at its end alone, so this is no `for`.
    let mut from = 0;
    while from < piece.len() {
        let taken = lister.take_line(lent, out, piece, from);
        writer.write_all(&out[..taken.length])?;
        from = taken.next;
    }
    Ok(())
}
