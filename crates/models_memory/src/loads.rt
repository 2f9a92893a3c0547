// Loads.
ghost use Rattle.models.specs.Counters.{model_l, model_ld, model_load};
ghost use Rattle.models.specs.Places as P;
ghost use Rattle.builder.specs.Builds.{Builds};
ghost use Rattle.models.specs.Code.{operands_of, flows_of, outcome_of};

use crate::address::{bit_offset, model_address, word_address};
use crate::counted::counted_read;
use btor2::{NodeRef, NodeType};
use btor2_list::Bin;
use builder::Builder;
use builder_ops::new_shift_right;
use models::{Flows, Immediate, Operands, Outcome};

fn model_l(
    b: &mut Builder,
    e: Operands,
    f: &mut Flows,
    spare: u64,
    signed: bool,
    address: NodeRef,
) -> Outcome
    ensures { Builds b.old (model_l (operands_of e) (flows_of f.old) spare signed address.0) b.new (P.gives (flows_of f.new) (outcome_of result)) }
{
    let word = word_address(b, address);
    f.access = b.new_ite(NodeType::Word, e.flag, word, f.access);
    let cell = b.new_read(e.memory, word);
    let amount = bit_offset(b, address);
    let up = b.new_const(spare);
    let left = b.new_bin(Bin::Sub, up, amount);
    let high = b.new_bin(Bin::Sll, cell, left);
    Outcome::Register(new_shift_right(b, signed, high, up))
}

pub fn model_ld(b: &mut Builder, e: Operands, f: &mut Flows, i: Immediate) -> Outcome
    ensures { Builds b.old (model_ld (operands_of e) (flows_of f.old) i.zeros.imm i.imm) b.new (P.gives (flows_of f.new) (outcome_of result)) }
{
    let address = model_address(b, i, e.rs1);
    let access = b.new_ite(NodeType::Word, e.flag, address, f.access);
    let c = counted_read(b, e, *f, address);
    *f = Flows {
        counter: c.counter,
        maximum: c.maximum,
        access,
        ..*f
    };
    Outcome::Register(c.node)
}

// A load of 64 - spare bits.
pub fn load(
    b: &mut Builder,
    e: Operands,
    f: &mut Flows,
    i: Immediate,
    spare: u64,
    signed: bool,
) -> Outcome
    ensures { Builds b.old (model_load (operands_of e) (flows_of f.old) i.zeros.imm i.imm spare signed) b.new (P.gives (flows_of f.new) (outcome_of result)) }
{
    let address = model_address(b, i, e.rs1);
    model_l(b, e, f, spare, signed, address)
}
