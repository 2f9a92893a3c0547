// Right shifts with or without the sign, and sign extension.
ghost use Rattle.builder_ops.specs.Composed.{new_shift_right, new_sext_by, new_sext32};
ghost use Rattle.builder.specs.Builds.{Builds};

use crate::new_sra;
use btor2::NodeRef;
use btor2_list::Bin;
use builder::Builder;

// Arithmetic where `signed`.
pub fn new_shift_right(b: &mut Builder, signed: bool, value: NodeRef, shift: NodeRef) -> NodeRef
    ensures { Builds b.old (new_shift_right signed value.0 shift.0) b.new result.0 }
{
    if signed {
        return new_sra(b, value, shift);
    }
    b.new_bin(Bin::Srl, value, shift)
}

// `(value << n) >>s n`.
pub fn new_sext_by(b: &mut Builder, value: NodeRef, n: NodeRef) -> NodeRef
    ensures { Builds b.old (new_sext_by value.0 n.0) b.new result.0 }
{
    let x = b.new_bin(Bin::Sll, value, n);
    new_sra(b, x, n)
}

pub fn new_sext32(b: &mut Builder, value: NodeRef) -> NodeRef
    ensures { Builds b.old (new_sext32 value.0) b.new result.0 }
{
    let thirtytwo = b.new_const(32);
    new_sext_by(b, value, thirtytwo)
}
