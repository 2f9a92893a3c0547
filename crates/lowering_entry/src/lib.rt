// The lowering with the in-edges in a lent slice of records. The core, over number slices, does the work: it puts the edges of one instruction
// into words of its own, and they are appended to the records from there.
#![tactic(auto)]

ghost use Rattle.std.specs.Prelude.{◌≡◌, ◌+◌, ◌<◌, length};
ghost use Rattle.lowering.specs.Lowering.{lent, SameLent, answer, lowered_by, lowering};
ghost use Rattle.edges.specs.InEdges.{edge_words};
ghost use Rattle.lowering_entry.specs.Parts.{edge_at, appended, with_edges, used_of, Fits};

use btor2::NodeRef;
use edges::{EDGE, InEdge};
use lowering::{Lent, LowerCall};
use refusals::Refusal;
use state::{Counts, State};

// The most edges that a call adds, and their words.
const MOST: usize = 2;

const WORDS: usize = MOST * EDGE;

// Lowers an instruction at an address under a flag, as `lowering_calls::lower` does, with in-edges appended to a slice of records.
pub fn lower(lent: &mut Lent<InEdge>, state: State, call: LowerCall) -> Result<State, Refusal>
    ensures is { answer (lowered_by state result) (record { list = lent.new.list.now; names = lent.new.names.now; edges = edge_words lent.new.edges.now; dispatches = lent.new.dispatches.now; bads = lent.new.bads.now }) ≡ lowering (record { list = lent.old.list.now; names = lent.old.names.now; edges = edge_words lent.old.edges.now; dispatches = lent.old.dispatches.now; bads = lent.old.bads.now }) state call.instruction call.address call.flag }
    ensures same { SameLent lent.old lent.new }
{
    let count = state.counts.edges;
    let used = used_of(count, lent.edges.len());
    let mut words = [0u64; WORDS];
    let after = lower_core(
        lent.list,
        lent.names,
        &mut words,
        lent.dispatches,
        lent.bads,
        with_edges(state, used),
        call,
    )?;
    let added = after.counts.edges - used;
    append_edges(lent.edges, count, added, &words, used);
    Ok(with_edges(after, count + added))
}

// The core over these lists. They are parameters of their own, since the proof does not follow a struct that is made of the fields of another.
fn lower_core(
    list: &mut [u64],
    names: &mut [u8],
    edges: &mut [u64],
    dispatches: &mut [u64],
    bads: &mut [u64],
    state: State,
    call: LowerCall,
) -> Result<State, Refusal>
    ensures { answer (lowered_by state result) (lent list.new names.new edges.new dispatches.new bads.new) ≡ lowering (lent list.old names.old edges.old dispatches.old bads.old) state call.instruction call.address call.flag }
{
    let mut lent = Lent {
        list,
        names,
        edges,
        dispatches,
        bads,
    };
    lowering_calls::lower(&mut lent, state, call)
}

// Appends so many edges after `count` others, from the records in `words` after those that are used there.
fn append_edges(edges: &mut [InEdge], count: usize, added: usize, words: &[u64; WORDS], used: usize)
    requires { Fits count added used (length edges.old) }
    ensures { edges.new ≡ appended edges.old count added (edge_at words.now used) (edge_at words.now (used + 1)) }
{
    for k in 0..added {
        edges[count + k] = edge_at(words, used + k);
    }
}

// How many of two records are to count as used, so that as many are left as `count` leaves of `room`; 3 where it is above.
fn used_of(count: usize, room: usize) -> usize
    ensures { result ≡ used_of count room }
{
    match room.checked_sub(count) {
        Some(left) => MOST.saturating_sub(left),
        None => MOST + 1,
    }
}

// The state with another count of edges.
fn with_edges(state: State, edges: usize) -> State
    ensures { result ≡ with_edges state edges }
{
    State {
        counts: Counts {
            edges,
            ..state.counts
        },
        ..state
    }
}

// The record at a place of two records' words.
fn edge_at(words: &[u64; WORDS], place: usize) -> InEdge
    requires { place < 2 }
    ensures { result ≡ edge_at words.now place }
{
    let b = place * EDGE;
    InEdge {
        to: words[b],
        from: words[b + 1],
        origin: words[b + 2],
        condition: NodeRef(words[b + 3] as usize),
    }
}
