// The listing while it runs: takes the input in pieces, a line at a time, and puts each line's output into a lent one.
ghost use Rattle.std.specs.Prelude.{◌≡◌};
ghost use Rattle.listing_input.specs.Gather.{line_next};
ghost use Rattle.text.specs.Put.{Put};
ghost use Rattle.listing_bytes.specs.Pieces.{take_bytes, line_ended, input_ended, start};
ghost use Rattle.lowering.specs.Lowering.{lent_by, SameLent};
ghost use Rattle.listing_run.specs.Turn.{line_on};
ghost use Rattle.listing_run.specs.Lister.{progress_of, held_step, SameLists};

use listing_bytes::Reading;
use listing_input::gather;
use listing_step::{Stepped, step};
use lowering::Lent;

// The bytes that are lent for the line that is being read, and how far the reading is.
#[derive(Drop)]
pub(crate) struct Lister<'a> {
    pub line: &'a mut [u8],
    pub reading: Reading,
}

// Where in the piece to go on, and how many bytes of output were put.
#[derive(Clone, Copy)]
pub(crate) struct Taken {
    pub next: usize,
    pub length: usize,
}

impl<'a> Lister<'a> {
    // Before anything is read.
    pub(crate) fn new(line: &'a mut [u8]) -> Lister<'a>
        ensures reading { result.reading ≡ start.reading }
        ensures line { result.line.now ≡ line.old }
        ensures same { result.line.ghost_name ≡ line.entry.ghost_name }
    {
        Lister {
            line,
            reading: Reading {
                state: listing_start::start_state(),
                number: 1,
                held: 0,
            },
        }
    }

    // Takes the bytes of a piece from a place on, up to a newline and with it; where there is one, puts the line's output.
    pub(crate) fn take_line(
        &mut self,
        lent: &mut Lent,
        out: &mut [u8],
        piece: &[u8],
        from: usize,
    ) -> Taken
        ensures progress { progress_of lent.new self.new ≡ (take_bytes (line_on piece.now from) (progress_of lent.old self.old)).progress }
        ensures text { Put out.old 0 (take_bytes (line_on piece.now from) (progress_of lent.old self.old)).text out.new result.length }
        ensures next { result.next ≡ line_next piece.now from }
        ensures same { SameLists lent.old self.old lent.new self.new }
    {
        let held = self.reading.held;
        let gathered = gather(self.line, held, piece, from);
        self.reading.held = gathered.held;
        match gathered.next {
            Some(next) => Taken {
                next,
                length: self.end_line(lent, out),
            },
            None => Taken {
                next: piece.len(),
                length: 0,
            },
        }
    }

    // Where the input has ended: the last newline may be missing.
    pub(crate) fn end_input(&mut self, lent: &mut Lent, out: &mut [u8]) -> usize
        ensures progress { progress_of lent.new self.new ≡ (input_ended (progress_of lent.old self.old)).progress }
        ensures text { Put out.old 0 (input_ended (progress_of lent.old self.old)).text out.new result }
        ensures same { SameLists lent.old self.old lent.new self.new }
    {
        if self.reading.held == 0 {
            return 0;
        }
        self.end_line(lent, out)
    }

    // Takes the line that is held.
    fn end_line(&mut self, lent: &mut Lent, out: &mut [u8]) -> usize
        ensures progress { progress_of lent.new self.new ≡ (line_ended (progress_of lent.old self.old)).progress }
        ensures text { Put out.old 0 (line_ended (progress_of lent.old self.old)).text out.new result }
        ensures same { SameLists lent.old self.old lent.new self.new }
    {
        let stepped = self.step_line(lent, out);
        self.reading = Reading {
            state: stepped.state,
            number: self.reading.number.wrapping_add(1),
            held: 0,
        };
        stepped.length
    }

    // The step of the line that is held.
    fn step_line(&self, lent: &mut Lent, out: &mut [u8]) -> Stepped
        ensures state { result.state ≡ (held_step (progress_of lent.old self.now)).state }
        ensures lists { lent_by lent.new ≡ (held_step (progress_of lent.old self.now)).lent }
        ensures text { Put out.old 0 (held_step (progress_of lent.old self.now)).text out.new result.length }
        ensures same { SameLent lent.old lent.new }
    {
        let reading = self.reading;
        let n = reading.held.min(self.line.len());
        step(lent, out, reading.state, reading.number, &self.line[..n])
    }
}
