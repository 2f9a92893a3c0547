// The lines of the builder (unicorn's `new_*`): each is one append. Here constants, extension, choice, bads, states and Nexts; memory,
// operators on two words, and logic have a file each.
ghost use Rattle.builder.specs.OneLine.{new_const, new_ext, new_ite, new_state, new_next, new_bad};
ghost use Rattle.builder.specs.Builds.{Builds};

use crate::Builder;
use btor2::{Name, NodeRef, NodeType, WORD, get_sort};
use btor2_list::{BAD, CONST, EXT, ITE, Line, NEXT, STATE};

impl<'a> Builder<'a> {
    pub fn new_const(&mut self, imm: u64) -> NodeRef
        ensures { Builds self.old (new_const imm) self.new result.0 }
    {
        self.add_node(Line {
            kind: CONST,
            sort: WORD,
            imm,
            ..self.next_line()
        })
    }

    pub fn new_ext(&mut self, from: NodeType, value: NodeRef) -> NodeRef
        ensures { Builds self.old (new_ext from value.0) self.new result.0 }
    {
        self.add_node(Line {
            kind: EXT,
            sort: get_sort(from),
            op1: value,
            ..self.next_line()
        })
    }

    pub fn new_ite(
        &mut self,
        sort: NodeType,
        cond: NodeRef,
        left: NodeRef,
        right: NodeRef,
    ) -> NodeRef
        ensures { Builds self.old (new_ite sort cond.0 left.0 right.0) self.new result.0 }
    {
        self.add_node(Line {
            kind: ITE,
            sort: get_sort(sort),
            op1: cond,
            op2: left,
            op3: right,
            ..self.next_line()
        })
    }

    pub fn new_bad(&mut self, cond: NodeRef, name: Name) -> NodeRef
        ensures { Builds self.old (new_bad cond.0 name) self.new result.0 }
    {
        self.add_node(Line {
            kind: BAD,
            op1: cond,
            name,
            ..self.next_line()
        })
    }

    // A State with an init, which takes two identifiers.
    pub fn new_state(&mut self, sort: NodeType, init: NodeRef, name: Name) -> NodeRef
        ensures { Builds self.old (new_state sort init.0 name) self.new result.0 }
    {
        self.add_node(Line {
            kind: STATE,
            sort: get_sort(sort),
            op1: init,
            imm: 1,
            name,
            ..self.next_line()
        })
    }

    pub fn new_next(&mut self, sort: NodeType, state: NodeRef, value: NodeRef) -> NodeRef
        ensures { Builds self.old (new_next sort state.0 value.0) self.new result.0 }
    {
        self.add_node(Line {
            kind: NEXT,
            sort: get_sort(sort),
            op1: state,
            op2: value,
            ..self.next_line()
        })
    }
}
