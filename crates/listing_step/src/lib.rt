// One step of the listing: a line of input is parsed and lowered, and what comes of it put into an output.
#![tactic(auto)]

ghost use Rattle.std.specs.Prelude.{◌≡◌};
ghost use Rattle.listing_start.specs.Start.{placed};
ghost use Rattle.lowering.specs.Lowering.{lent_by, SameLent, lowering};
ghost use Rattle.text.specs.Put.{Put};
ghost use Rattle.listing_bytes.specs.Step.{appended_text, answer_text};
ghost use Rattle.listing_bytes.specs.Step.{emptied as Step·emptied, step as Step·step};

use btor2::NodeRef;
use line_text::{Areas, Listing};
use listing_input::{Parsed, parse};
use lowering::{Lent, LowerCall};
use lowering_calls::lower;
use state::{Counts, State};

// The host's area, which holds the names of the start's states one after the other.
const HOST: &[u8] =
    b"x1x2x3x4x5x6x7x8x9x10x11x12x13x14x15x16x17x18x19x20x21x22x23x24x25x26x27x28x29x30x31memorycountercounter-maxflag";

// The number that a malformed line is refused with: it comes to no call.
const MALFORMED: u64 = 0;

// The state after a line, and how many bytes its output has.
#[derive(Clone, Copy)]
pub struct Stepped {
    pub state: State,
    pub length: usize,
}

// Takes the line of this number.
pub fn step(lent: &mut Lent, out: &mut [u8], state: State, number: u64, line: &[u8]) -> Stepped
    ensures state { result.state ≡ (Step·step number line.now (lent_by lent.old) state).state }
    ensures lists { lent_by lent.new ≡ (Step·step number line.now (lent_by lent.old) state).lent }
    ensures text { Put out.old 0 (Step·step number line.now (lent_by lent.old) state).text out.new result.length }
    ensures same { SameLent lent.old lent.new }
{
    let ready = emptied(state);
    match parse(line) {
        Some(parsed) => step_instruction(lent, out, ready, number, parsed),
        None => Stepped {
            state: ready,
            length: listing_text::put_refused(out, 0, number, MALFORMED),
        },
    }
}

// No edge and no dispatch is in use.
fn emptied(state: State) -> State
    ensures { result ≡ Step·emptied state }
{
    let counts = Counts {
        edges: 0,
        dispatches: 0,
        ..state.counts
    };
    State { counts, ..state }
}

// Lowers the instruction of the line under the flag, and puts what that appended, or its refusal.
fn step_instruction(
    lent: &mut Lent,
    out: &mut [u8],
    state: State,
    number: u64,
    parsed: Parsed,
) -> Stepped
    ensures state { result.state ≡ (lowering (lent_by lent.old) state parsed.instruction parsed.address (placed 58)).lowered.state }
    ensures lists { lent_by lent.new ≡ (lowering (lent_by lent.old) state parsed.instruction parsed.address (placed 58)).lent }
    ensures text { Put out.old 0 (answer_text number state.tally.lines (lowering (lent_by lent.old) state parsed.instruction parsed.address (placed 58))) out.new result.length }
    ensures same { SameLent lent.old lent.new }
{
    let call = LowerCall {
        instruction: parsed.instruction,
        address: parsed.address,
        flag: NodeRef(listing_start::FLAG),
    };
    match lower(lent, state, call) {
        Ok(after) => Stepped {
            state: after,
            length: put_appended(out, lent, state.tally.lines, after),
        },
        Err(refusal) => Stepped {
            state,
            length: listing_text::put_refused(out, 0, number, refusal.number()),
        },
    }
}

// Node lines from a place on, then edges, then dispatches.
fn put_appended(out: &mut [u8], lent: &Lent, from: usize, state: State) -> usize
    ensures { Put out.old 0 (appended_text from (lent_by lent.now) state) out.new result }
{
    let lines = state.tally.lines;
    let counts = state.counts;
    let listing = Listing {
        list: lent.list,
        lines,
        areas: Areas {
            host: HOST,
            ours: lent.names,
        },
    };
    let at = line_text::put_run(out, 0, &listing, from, lines.saturating_sub(from));
    let at = listing_text::put_edges(out, at, lent.list, lines, lent.edges, counts.edges);
    listing_text::put_dispatches(out, at, lent.dispatches, counts.dispatches)
}
