// The checks of overflow, as flows.
ghost use Rattle.builder_ops.specs.Composed.{check_addition_overflow, check_multiplication_overflow};
ghost use Rattle.builder.specs.Builds.{Builds};

use crate::{new_neq, new_or};
use btor2::{NodeRef, NodeType};
use btor2_list::Bin;
use builder::Builder;

// The words that an operation takes, and the one that it gives.
#[derive(Clone, Copy)]
pub struct Operation {
    pub rs1: NodeRef,
    pub rs2: NodeRef,
    pub rd: NodeRef,
}

pub fn check_addition_overflow(
    b: &mut Builder,
    flag: NodeRef,
    flow: NodeRef,
    o: Operation,
) -> NodeRef
    ensures { Builds b.old (check_addition_overflow flag.0 flow.0 o.rs1.0 o.rs2.0 o.rd.0) b.new result.0 }
{
    let bits = b.new_const(63);
    let x = b.new_bin(Bin::Srl, o.rs1, bits);
    let y = b.new_bin(Bin::Srl, o.rs2, bits);
    let z = b.new_bin(Bin::Srl, o.rd, bits);
    let equal = b.new_eq(x, y);
    let overflow = new_neq(b, x, z);
    let occurred = b.new_and(NodeType::Bit, equal, overflow);
    b.new_ite(NodeType::Bit, flag, occurred, flow)
}

// Its `or` takes Bits for Words, and its ite a Word for a Bit, as the Rust's do. It begins as the addition's does, but the definitions of the two are apart,
// each beside the Rust's.
pub fn check_multiplication_overflow(
    b: &mut Builder,
    flag: NodeRef,
    zero: NodeRef,
    flow: NodeRef,
    o: Operation,
) -> NodeRef
    ensures { Builds b.old (check_multiplication_overflow flag.0 zero.0 flow.0 o.rs1.0 o.rs2.0 o.rd.0) b.new result.0 }
{
    let bits = b.new_const(63);
    let x = b.new_bin(Bin::Srl, o.rs1, bits);
    let y = b.new_bin(Bin::Srl, o.rs2, bits);
    let z = b.new_bin(Bin::Srl, o.rd, bits);
    let equal = b.new_eq(x, y);
    let minus = new_neq(b, z, zero);
    let msb = b.new_eq(equal, minus);
    let not_msb = b.new_eq(equal, minus);
    let occurred = new_or(b, msb, not_msb);
    b.new_ite(NodeType::Bit, flag, occurred, flow)
}
