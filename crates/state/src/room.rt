// How much lent storage holds, and refusal 9: a count above it.
ghost use Rattle.std.specs.Prelude.{◌≡◌};
ghost use Rattle.state.specs.Room.{room_of, counts_out};

use crate::Counts;
use btor2_list::tally_out;
use builder::Tally;

// How much lent storage holds, or an instruction needs: lines, bytes of our name area, in-edges, dispatches, bads.
#[derive(Clone, Copy)]
pub struct Room {
    pub lines: usize,
    pub names: usize,
    pub edges: usize,
    pub dispatches: usize,
    pub bads: usize,
}

// How much lent storage of these lengths holds.
#[tactic(auto, unfolding(crate::specs::Room::room_of))]
pub fn room_of(list: usize, names: usize, edges: usize, dispatches: usize, bads: usize) -> Room
    ensures { result ≡ room_of list names edges dispatches bads }
{
    Room {
        lines: btor2_list::capacity(list),
        names,
        edges: edges / edges::EDGE,
        dispatches: dispatches / edges::DISPATCH,
        bads,
    }
}

// 9: too many lines, too large a next identifier, or a count above its storage.
pub fn counts_out(most: u64, room: Room, t: Tally, c: Counts) -> bool
    ensures { result ≡ counts_out most room t c }
{
    tally_out(most, room.lines, t.lines, t.nid)
        || room.names < c.names
        || room.edges < c.edges
        || room.dispatches < c.dispatches
        || room.bads < c.bads
}
