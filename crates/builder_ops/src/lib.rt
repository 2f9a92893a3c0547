// The operators that unicorn composes of others: unequal, or, arithmetic shift.
#![tactic(auto)]

mod extend;
mod operator;
mod overflow;

ghost use Rattle.builder_ops.specs.Composed.{new_neq, new_or, new_sra};
ghost use Rattle.builder.specs.Builds.{Builds};

use btor2::{NodeRef, NodeType};
use btor2_list::Bin;
use builder::Builder;
pub use extend::{new_sext_by, new_sext32, new_shift_right};
pub use operator::{Operator, apply};
pub use overflow::{Operation, check_addition_overflow, check_multiplication_overflow};

// The bit of a word that is its sign.
pub(crate) const SIGN: u64 = 0x8000_0000_0000_0000;

pub(crate) fn new_neq(b: &mut Builder, left: NodeRef, right: NodeRef) -> NodeRef
    ensures { Builds b.old (new_neq left.0 right.0) b.new result.0 }
{
    let e = b.new_eq(left, right);
    b.new_not(NodeType::Bit, e)
}

pub fn new_or(b: &mut Builder, left: NodeRef, right: NodeRef) -> NodeRef
    ensures { Builds b.old (new_or left.0 right.0) b.new result.0 }
{
    let l = b.new_not(NodeType::Word, left);
    let r = b.new_not(NodeType::Word, right);
    let neither = b.new_and(NodeType::Word, l, r);
    b.new_not(NodeType::Word, neither)
}

pub fn new_sra(b: &mut Builder, value: NodeRef, shift: NodeRef) -> NodeRef
    ensures { Builds b.old (new_sra value.0 shift.0) b.new result.0 }
{
    let c = b.new_const(SIGN);
    let s = b.new_bin(Bin::Add, value, c);
    let x = b.new_bin(Bin::Srl, s, shift);
    let y = b.new_bin(Bin::Srl, c, shift);
    b.new_bin(Bin::Sub, x, y)
}
