// Equality, And and Not: one line each.
ghost use Rattle.builder.specs.OneLine.{new_eq, new_and, new_not};
ghost use Rattle.builder.specs.Builds.{Builds};

use crate::Builder;
use btor2::{BIT, NodeRef, NodeType, get_sort};
use btor2_list::{AND, EQ, Line, NOT};

impl<'a> Builder<'a> {
    pub fn new_eq(&mut self, left: NodeRef, right: NodeRef) -> NodeRef
        ensures { Builds self.old (new_eq left.0 right.0) self.new result.0 }
    {
        self.add_node(Line {
            kind: EQ,
            sort: BIT,
            op1: left,
            op2: right,
            ..self.next_line()
        })
    }

    pub fn new_and(&mut self, sort: NodeType, left: NodeRef, right: NodeRef) -> NodeRef
        ensures { Builds self.old (new_and sort left.0 right.0) self.new result.0 }
    {
        self.add_node(Line {
            kind: AND,
            sort: get_sort(sort),
            op1: left,
            op2: right,
            ..self.next_line()
        })
    }

    pub fn new_not(&mut self, sort: NodeType, value: NodeRef) -> NodeRef
        ensures { Builds self.old (new_not sort value.0) self.new result.0 }
    {
        self.add_node(Line {
            kind: NOT,
            sort: get_sort(sort),
            op1: value,
            ..self.next_line()
        })
    }
}
