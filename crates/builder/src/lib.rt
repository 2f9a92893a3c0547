// The builder of a list: the lent words with their tally, and the append (unicorn's `add_node`). It is total: where the lent words hold no
// further record it changes nothing.
#![tactic(auto)]

mod binary;
mod lines;
mod logic;
mod memory;

ghost use Rattle.std.specs.Prelude.{◌≡◌, None};
ghost use Rattle.btor2_list.specs.declared.Line.{Line};
ghost use Rattle.btor2_list.specs.Node.{row, no_name};
ghost use Rattle.builder.specs.Prog.{ran};
ghost use Rattle.builder.specs.Append.{append_line, at};

use btor2::{Name, Nid, NodeRef};
use btor2_list::{Line, nids_taken};

// The count of lines, and the next identifier.
#[derive(Clone, Copy)]
pub struct Tally {
    pub lines: usize,
    pub nid: u64,
}

// A list that grows: the words that the host lends, and the tally of the lines in them. Its methods are the `new_*` of unicorn's builder.
#[derive(Drop)]
pub struct Builder<'a> {
    list: &'a mut [u64],
    tally: Tally,
}

impl<'a> Builder<'a> {
    pub fn new(list: &'a mut [u64], tally: Tally) -> Builder<'a>
        ensures same { result.list.ghost_name ≡ list.entry.ghost_name }
        ensures list { result.list.now ≡ list.old }
        ensures tally { result.tally ≡ tally }
    {
        Builder { list, tally }
    }

    pub fn tally(&self) -> Tally
        ensures { result ≡ self.now.tally }
    {
        self.tally
    }

    // A line under the next identifier, whose other fields are 0. It has no address: whoever appends lines for an instruction gives them its address
    // once they stand (btor2_list's `address_lines`).
    fn next_line(&self) -> Line
        ensures { result ≡ row None self.now.tally.nid 0 0 0 0 0 0 no_name }
    {
        Line {
            nid: Nid(self.tally.nid),
            kind: 0,
            sort: 0,
            op1: NodeRef(0),
            op2: NodeRef(0),
            op3: NodeRef(0),
            imm: 0,
            name: Name {
                area: 0,
                at: 0,
                len: 0,
            },
            address: None,
        }
    }

    // Appends a line, and gives its place.
    fn add_node(&mut self, line: Line) -> NodeRef
        ensures run { ran (at self.new.list.now self.new.tally) result.0 ≡ append_line (at self.old.list.now self.old.tally) line }
        ensures same { self.new.list.ghost_name ≡ self.old.list.ghost_name }
    {
        let Tally { lines, nid } = self.tally;
        let taken = nids_taken(line);
        if btor2_list::put(self.list, NodeRef(lines), line) {
            self.tally = Tally {
                lines: lines + 1,
                nid: nid.wrapping_add(taken),
            };
        }
        NodeRef(lines)
    }
}
