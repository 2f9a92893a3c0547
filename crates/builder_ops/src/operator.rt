// The operator that a kind chooses, by its name; and the composed ones that only such a choice reaches.
ghost use Rattle.builder.specs.Builds.{Builds};
ghost use Rattle.builder_ops.specs.Composed.{new_ugte, new_slt, new_sgte, new_xor};
ghost use Rattle.builder_ops.specs.Operator.{operator_of};

use crate::{SIGN, new_neq, new_or, new_sra};
use btor2::{NodeRef, NodeType};
use btor2_list::Bin;
use builder::Builder;

// The operators by which kinds of one family differ. unicorn passes them as closures; what a closure appends would be a `requires` of each
// function that takes one, and an enum needs none.
#[derive(Clone, Copy)]
pub enum Operator {
    Eq,
    Neq,
    Slt,
    Sgte,
    Ult,
    Ugte,
    Or,
    Xor,
    And,
    Sll,
    Srl,
    Sra,
}

pub fn apply(b: &mut Builder, operator: Operator, left: NodeRef, right: NodeRef) -> NodeRef
    ensures { Builds b.old (operator_of operator left.0 right.0) b.new result.0 }
{
    match operator {
        Operator::Eq => b.new_eq(left, right),
        Operator::Neq => new_neq(b, left, right),
        Operator::Slt => new_slt(b, left, right),
        Operator::Sgte => new_sgte(b, left, right),
        Operator::Ult => b.new_bin(Bin::Ult, left, right),
        Operator::Ugte => new_ugte(b, left, right),
        Operator::Or => new_or(b, left, right),
        Operator::Xor => new_xor(b, left, right),
        Operator::And => b.new_and(NodeType::Word, left, right),
        Operator::Sll => b.new_bin(Bin::Sll, left, right),
        Operator::Srl => b.new_bin(Bin::Srl, left, right),
        Operator::Sra => new_sra(b, left, right),
    }
}

fn new_ugte(b: &mut Builder, left: NodeRef, right: NodeRef) -> NodeRef
    ensures { Builds b.old (new_ugte left.0 right.0) b.new result.0 }
{
    let u = b.new_bin(Bin::Ult, left, right);
    b.new_not(NodeType::Bit, u)
}

fn new_slt(b: &mut Builder, left: NodeRef, right: NodeRef) -> NodeRef
    ensures { Builds b.old (new_slt left.0 right.0) b.new result.0 }
{
    let bias = b.new_const(SIGN);
    let l = b.new_bin(Bin::Add, left, bias);
    let r = b.new_bin(Bin::Add, right, bias);
    b.new_bin(Bin::Ult, l, r)
}

fn new_sgte(b: &mut Builder, left: NodeRef, right: NodeRef) -> NodeRef
    ensures { Builds b.old (new_sgte left.0 right.0) b.new result.0 }
{
    let s = new_slt(b, left, right);
    b.new_not(NodeType::Bit, s)
}

fn new_xor(b: &mut Builder, left: NodeRef, right: NodeRef) -> NodeRef
    ensures { Builds b.old (new_xor left.0 right.0) b.new result.0 }
{
    let either = new_or(b, left, right);
    let both = b.new_and(NodeType::Word, left, right);
    b.new_bin(Bin::Sub, either, both)
}
