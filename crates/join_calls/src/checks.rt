// The refusals of a join that look at what it is given: 15 and 16.
ghost use Rattle.std.specs.Prelude.{◌≡◌, ◌||◌};
ghost use Rattle.list_check.specs.Lines.{any};
ghost use Rattle.join.specs.Given.{flag_for, dynamics_in};
ghost use Rattle.join.specs.Refusal.{bit_out, word_out, unflagged, entry_out, edge_out, dispatch_out};
ghost use Rattle.join_calls.specs.Records.{edge_record, dispatch_record, all_edges, all_dispatches, all_flags};

use crate::records::{Dispatch, FLAG, dispatch_in, edge_in, find_flag, flag_in};
use btor2::{BIT, NodeRef, WORD};
use edges::{DISPATCH, EDGE, InEdge, Origin};
use join::JoinInput;
use riscv::LAST_REGISTER;

// The lines of a list, and how many there are: what the places of a join are places of.
#[derive(Clone, Copy)]
pub(crate) struct Lines<'a> {
    pub list: &'a [u64],
    pub count: usize,
}

impl<'a> Lines<'a> {
    // 15: an edge whose source has no flag, or, used or not, a flag of the table, a kernel node, a dynamic flag or the starting flow that is no
    // Bit value line.
    pub(crate) fn flags_out(self, given: &JoinInput) -> bool
        ensures { result ≡ (any (unflagged self.entry.list.now self.entry.count (flag_for (all_flags given.now.flags.now))) (all_edges given.now.edges.now) || (any (entry_out self.entry.list.now self.entry.count) (all_flags given.now.flags.now) || (bit_out self.entry.list.now self.entry.count given.now.asked.mode.0 || (bit_out self.entry.list.now self.entry.count given.now.asked.none.0 || (any (bit_out self.entry.list.now self.entry.count) (dynamics_in given.now.dynamics.now) || bit_out self.entry.list.now self.entry.count given.now.asked.flow.0))))) }
    {
        let asked = given.asked;
        self.edges_unflagged(given.edges, given.flags)
            | self.table_out(given.flags)
            | self.bit_out(asked.mode)
            | self.bit_out(asked.none)
            | self.dynamics_out(given.dynamics)
            | self.bit_out(asked.flow)
    }

    // An edge whose source has no flag, or one that is no Bit value line.
    fn edges_unflagged(self, edges: &[u64], flags: &[u64]) -> bool
        ensures { result ≡ any (unflagged self.entry.list.now self.entry.count (flag_for (all_flags flags.now))) (all_edges edges.now) }
    {
        edges.chunks_exact(EDGE).any(|words| self.bit_out(find_flag(flags, edge_in(words).from)))
    }

    // An entry of the table whose place is no Bit value line.
    fn table_out(self, flags: &[u64]) -> bool
        ensures { result ≡ any (entry_out self.entry.list.now self.entry.count) (all_flags flags.now) }
    {
        flags
            .chunks_exact(FLAG)
            .any(|words| self.bit_out(flag_in(words).place))
    }

    // A dynamic flag that is no Bit value line.
    fn dynamics_out(self, dynamics: &[u64; 31]) -> bool
        ensures { result ≡ any (bit_out self.entry.list.now self.entry.count) (dynamics_in dynamics.now) }
    {
        dynamics
            .iter()
            .any(|place| self.bit_out(NodeRef(*place as usize)))
    }

    // 16, of the edges.
    pub(crate) fn edges_out(self, edges: &[u64]) -> bool
        ensures { result ≡ any (edge_out self.entry.list.now self.entry.count) (all_edges edges.now) }
    {
        edges
            .chunks_exact(EDGE)
            .any(|words| self.edge_out(edge_in(words)))
    }

    // An unknown origin, or a branch without a Bit condition.
    fn edge_out(self, edge: InEdge) -> bool
        ensures { result ≡ edge_out self.entry.list.now self.entry.count (edge_record edge) }
    {
        match Origin::numbered(edge.origin) {
            Some(Origin::Branch) => self.bit_out(edge.condition),
            Some(_) => false,
            None => true,
        }
    }

    // 16, of the dispatches.
    pub(crate) fn dispatches_out(self, dispatches: &[u64]) -> bool
        ensures { result ≡ any (dispatch_out self.entry.list.now self.entry.count) (all_dispatches dispatches.now) }
    {
        dispatches
            .chunks_exact(DISPATCH)
            .any(|words| self.dispatch_out(dispatch_in(words)))
    }

    // A register that is x0 or none, or an address node that is no Word value line.
    fn dispatch_out(self, dispatch: Dispatch) -> bool
        ensures { result ≡ dispatch_out self.entry.list.now self.entry.count (dispatch_record dispatch) }
    {
        (dispatch.register == 0)
            | ((LAST_REGISTER < dispatch.register) | self.word_out(dispatch.address))
    }

    fn bit_out(self, place: NodeRef) -> bool
        ensures { result ≡ bit_out self.entry.list.now self.entry.count place.0 }
    {
        state::value_sort(self.list, self.count, place) != BIT
    }

    fn word_out(self, place: NodeRef) -> bool
        ensures { result ≡ word_out self.entry.list.now self.entry.count place.0 }
    {
        state::value_sort(self.list, self.count, place) != WORD
    }
}
