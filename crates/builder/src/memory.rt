// Reads and writes of a memory: one line each.
ghost use Rattle.builder.specs.OneLine.{new_read, new_write};
ghost use Rattle.builder.specs.Builds.{Builds};

use crate::Builder;
use btor2::{MEMORY, NodeRef, WORD};
use btor2_list::{Line, READ, WRITE};

impl<'a> Builder<'a> {
    pub fn new_read(&mut self, memory: NodeRef, address: NodeRef) -> NodeRef
        ensures { Builds self.old (new_read memory.0 address.0) self.new result.0 }
    {
        self.add_node(Line {
            kind: READ,
            sort: WORD,
            op1: memory,
            op2: address,
            ..self.next_line()
        })
    }

    pub fn new_write(&mut self, memory: NodeRef, address: NodeRef, value: NodeRef) -> NodeRef
        ensures { Builds self.old (new_write memory.0 address.0 value.0) self.new result.0 }
    {
        self.add_node(Line {
            kind: WRITE,
            sort: MEMORY,
            op1: memory,
            op2: address,
            op3: value,
            ..self.next_line()
        })
    }
}
