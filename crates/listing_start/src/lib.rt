// The listing program's own start: its lines, and its state.
#![tactic(auto)]

ghost use Rattle.std.specs.Prelude.{◌≡◌, ◌+◌, ◌<◌, None};
ghost use Rattle.btor2_list.specs.Node.{line_of};
ghost use Rattle.listing_start.specs.Start.{start_in, start_state};
ghost use Rattle.listing_start.specs.Table.{start_op};

use btor2::NodeType::{Bit, Memory, Word};
use btor2::{Name, Nid, NodeRef, NodeType};
use btor2_list::{CONST, HOST_AREA, Line, STATE, capacity, put};
use builder::Tally;
use state::{Counts, State};

// The place of the line `flag`, under which every instruction is lowered.
pub const FLAG: usize = 38;

const LINES: usize = 39;

const FIRST_NID: u64 = 20;

const NEXT_NID: u64 = FIRST_NID + LINES as u64;

// A line of the start: a constant of a sort, or a state of a sort with the place and the length of its name in the host's area.
#[derive(Clone, Copy)]
enum StartLine {
    Const(NodeType, u64),
    State(NodeType, u64, u64),
}

static START: [StartLine; LINES] = [
    StartLine::Const(Bit, 0),
    StartLine::Const(Bit, 1),
    StartLine::Const(Word, 0),
    StartLine::Const(Word, 1),
    StartLine::State(Word, 0, 2),
    StartLine::State(Word, 2, 2),
    StartLine::State(Word, 4, 2),
    StartLine::State(Word, 6, 2),
    StartLine::State(Word, 8, 2),
    StartLine::State(Word, 10, 2),
    StartLine::State(Word, 12, 2),
    StartLine::State(Word, 14, 2),
    StartLine::State(Word, 16, 2),
    StartLine::State(Word, 18, 3),
    StartLine::State(Word, 21, 3),
    StartLine::State(Word, 24, 3),
    StartLine::State(Word, 27, 3),
    StartLine::State(Word, 30, 3),
    StartLine::State(Word, 33, 3),
    StartLine::State(Word, 36, 3),
    StartLine::State(Word, 39, 3),
    StartLine::State(Word, 42, 3),
    StartLine::State(Word, 45, 3),
    StartLine::State(Word, 48, 3),
    StartLine::State(Word, 51, 3),
    StartLine::State(Word, 54, 3),
    StartLine::State(Word, 57, 3),
    StartLine::State(Word, 60, 3),
    StartLine::State(Word, 63, 3),
    StartLine::State(Word, 66, 3),
    StartLine::State(Word, 69, 3),
    StartLine::State(Word, 72, 3),
    StartLine::State(Word, 75, 3),
    StartLine::State(Word, 78, 3),
    StartLine::State(Word, 81, 3),
    StartLine::State(Memory, 84, 6),
    StartLine::State(Memory, 90, 7),
    StartLine::State(Word, 97, 11),
    StartLine::State(Bit, 108, 4),
];

// The line under an identifier.
fn line_of(nid: u64, line: StartLine) -> Line
    ensures { result ≡ line_of None nid (start_op line) }
{
    let no_line = Line {
        nid: Nid(nid),
        kind: CONST,
        sort: 0,
        op1: NodeRef(0),
        op2: NodeRef(0),
        op3: NodeRef(0),
        imm: 0,
        name: Name {
            area: 0,
            at: 0,
            len: 0,
        },
        address: None,
    };
    match line {
        StartLine::Const(sort, imm) => Line {
            kind: CONST,
            sort: btor2::get_sort(sort),
            imm,
            ..no_line
        },
        StartLine::State(sort, at, len) => Line {
            kind: STATE,
            sort: btor2::get_sort(sort),
            name: Name {
                area: HOST_AREA,
                at,
                len,
            },
            ..no_line
        },
    }
}

// The start's lines, where there is room for them all.
pub fn put_start(list: &mut [u64])
    ensures { list.new ≡ start_in list.old }
{
    if capacity(list.len()) < LINES {
        return;
    }
    for (k, line) in START.iter().enumerate() {
        put(list, NodeRef(k), line_of(FIRST_NID + k as u64, *line));
    }
}

// The places of the nodes and the flows.
static ROLES: [usize; 79] = [
    0, 1, 2, 3, 35, 36, 37, 2, 4, 5, 6, 7, 8, 9, 10, 11, 12, 13, 14, 15, 16, 17, 18, 19, 20, 21,
    22, 23, 24, 25, 26, 27, 28, 29, 30, 31, 32, 33, 34, 4, 5, 6, 7, 8, 9, 10, 11, 12, 13, 14, 15,
    16, 17, 18, 19, 20, 21, 22, 23, 24, 25, 26, 27, 28, 29, 30, 31, 32, 33, 34, 35, 36, 37, 3, 3,
    2, 0, 0, 0,
];

pub fn start_state() -> State
    ensures { result ≡ start_state }
{
    State {
        tally: Tally {
            lines: LINES,
            nid: NEXT_NID,
        },
        counts: Counts {
            names: 0,
            edges: 0,
            dispatches: 0,
            bads: 0,
        },
        roles: ROLES.map(NodeRef),
    }
}
