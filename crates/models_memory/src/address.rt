// What loads and stores share: the address, its word, and the byte's place in the word.
ghost use Rattle.models.specs.Counters.{model_address, word_address, bit_offset};
ghost use Rattle.builder.specs.Builds.{Builds};

use btor2::{NodeRef, NodeType};
use btor2_list::Bin;
use builder::Builder;
use models::Immediate;

// The register itself where the immediate is 0.
pub(crate) fn model_address(b: &mut Builder, i: Immediate, rs1: NodeRef) -> NodeRef
    ensures { Builds b.old (model_address i.zeros.imm i.imm rs1.0) b.new result.0 }
{
    if i.zeros.imm {
        return rs1;
    }
    let c = b.new_const(i.imm);
    b.new_bin(Bin::Add, rs1, c)
}

// The address of the word that an address is in.
pub(crate) fn word_address(b: &mut Builder, address: NodeRef) -> NodeRef
    ensures { Builds b.old (word_address address.0) b.new result.0 }
{
    let mask = b.new_const(0xffff_ffff_ffff_fff8);
    b.new_and(NodeType::Word, address, mask)
}

// How many bits the byte at an address stands above the lowest of its word.
pub(crate) fn bit_offset(b: &mut Builder, address: NodeRef) -> NodeRef
    ensures { Builds b.old (bit_offset address.0) b.new result.0 }
{
    let eight = b.new_const(8);
    let seven = b.new_const(7);
    let offset = b.new_and(NodeType::Word, address, seven);
    b.new_bin(Bin::Mul, eight, offset)
}
