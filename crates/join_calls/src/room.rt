// Refusal 8 of a join: what the whole call appends is counted before anything is written. Each edge is taken from what room is left, so that no
// sum can wrap.
ghost use Rattle.std.specs.Prelude.{◌≡◌, ◌≤◌, ◌<◌, ◌^◌, ◌/◌, eqb, length};
ghost use Rattle.edges.specs.Edges.{dispatch_stride};
ghost use Rattle.join.specs.Code.{lists_lent};
ghost use Rattle.join.specs.Program.{edge_name, nexts_by};
ghost use Rattle.join.specs.Given.{flag_for};
ghost use Rattle.join_calls.specs.Records.{all_edges, all_flags};
ghost use Rattle.join_calls.specs.Entry.{HeldWithin, left_of};
ghost use Rattle.join_calls.specs.Room.{own_lines, edge_lines, zero_after, dispatch_lines, left_after_edge, exceeding};

use crate::names::flag_name_len;
use crate::records::{edge_in, find_flag};
use btor2::NodeRef;
use btor2_list::{MOST_LINES, capacity};
use edges::{DISPATCH, EDGE, InEdge, Origin};
use join::{JoinHeld, JoinInput, JoinLent};

// The room that is left for lines, bytes of names and sequentials, and whether the flow is the zero bit's own place, which is replaced without a
// line.
#[derive(Clone, Copy)]
pub(crate) struct Left {
    pub lines: usize,
    pub names: usize,
    pub sequentials: usize,
    pub zero: bool,
}

impl Left {
    // Whether edges and dispatches append more than there is room for.
    pub(crate) fn exceeded(self, given: &JoinInput, zero: NodeRef) -> bool
        ensures { result ≡ exceeding (λ a. eqb (flag_for (all_flags given.now.flags.now) a) zero.0) self (all_edges given.now.edges.now) (length given.now.dispatches.now / dispatch_stride) }
    {
        let mut left = self;
        for words in given.edges.chunks_exact(EDGE) {
            let edge = edge_in(words);
            let flag = find_flag(given.flags, edge.from);
            match left.after(edge, flag.0 == zero.0) {
                Some(rest) => left = rest,
                None => return true,
            }
        }
        left.lines < dispatch_lines(left.zero, given.dispatches.len() / DISPATCH)
    }

    // What is left after an edge, if there is room for it; `clear` says that its source's flag is the zero bit's own place.
    fn after(self, edge: InEdge, clear: bool) -> Option<Left>
        ensures { result ≡ left_after_edge self edge.origin edge.from clear }
    {
        Some(Left {
            lines: self.lines.checked_sub(edge_lines(edge.origin, self.zero))?,
            names: self.names.checked_sub(name_len(edge))?,
            sequentials: self.sequentials.checked_sub(nexts(edge.origin))?,
            zero: zero_after(edge.origin, self.zero, clear),
        })
    }
}

// What room is left of what is lent.
pub(crate) fn room_left(lent: &JoinLent, held: JoinHeld, flow: NodeRef) -> Left
    requires { HeldWithin (lists_lent lent.now) held }
    ensures { result ≡ left_of (lists_lent lent.now) held flow }
{
    let state = held.state;
    let zero = state.roles[state::ZERO_BIT];
    Left {
        lines: capacity(lent.list.len()).min(MOST_LINES) - state.tally.lines,
        names: lent.names.len() - state.counts.names,
        sequentials: lent.sequentials.len() - held.sequentials,
        zero: flow.0 == zero.0,
    }
}

// The bytes of the name that an edge puts into our name area.
fn name_len(edge: InEdge) -> usize
    ensures { result ≡ length (edge_name edge.origin edge.from) }
{
    match Origin::numbered(edge.origin) {
        Some(Origin::Syscall) => flag_name_len(edge.from),
        _ => 0,
    }
}

// The Nexts of an edge.
fn nexts(origin: u64) -> usize
    ensures { result ≡ nexts_by origin }
{
    match Origin::numbered(origin) {
        Some(Origin::Syscall) => 1,
        _ => 0,
    }
}

// The lines of an edge, with an ite unless the flow is the zero bit's own place.
fn edge_lines(origin: u64, zero: bool) -> usize
    ensures { result ≡ edge_lines origin zero }
{
    own_lines(origin) + usize::from(!zero)
}

// The lines of an edge before its ite.
fn own_lines(origin: u64) -> usize
    ensures is { result ≡ own_lines origin }
    ensures most { result ≤ 4 }
{
    match Origin::numbered(origin) {
        Some(Origin::Branch) => 1,
        Some(Origin::Syscall) => 4,
        _ => 0,
    }
}

// Whether the flow after an edge is the zero bit's own place: a new line never is.
fn zero_after(origin: u64, zero: bool, clear: bool) -> bool
    ensures { result ≡ zero_after origin zero clear }
{
    match Origin::numbered(origin) {
        Some(Origin::Branch | Origin::Syscall) => false,
        _ => zero & clear,
    }
}

// The lines of dispatches: each has two and an ite, the first none where the flow is the zero bit's own place.
fn dispatch_lines(zero: bool, number: usize) -> usize
    requires { number < 2 ^ 62 }
    ensures { result ≡ dispatch_lines zero number }
{
    (number * 3).saturating_sub(usize::from(zero))
}
