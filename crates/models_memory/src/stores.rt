// Stores.
ghost use Rattle.models.specs.Counters.{model_s, model_sd, model_store};
ghost use Rattle.models.specs.Places as P;
ghost use Rattle.builder.specs.Builds.{Builds};
ghost use Rattle.models.specs.Code.{operands_of, flows_of, outcome_of};

use crate::address::{bit_offset, model_address, word_address};
use crate::counted::counted_read;
use btor2::{NodeRef, NodeType};
use btor2_list::Bin;
use builder::Builder;
use builder_ops::new_or;
use models::{Flows, Immediate, Operands, Outcome};

fn model_s(b: &mut Builder, e: Operands, f: &mut Flows, ones: u64, address: NodeRef) -> Outcome
    ensures { Builds b.old (model_s (operands_of e) (flows_of f.old) ones address.0) b.new (P.gives (flows_of f.new) (outcome_of result)) }
{
    let word = word_address(b, address);
    let access = b.new_ite(NodeType::Word, e.flag, word, f.access);
    let c = counted_read(b, e, *f, word);
    *f = Flows {
        counter: c.counter,
        maximum: c.maximum,
        access,
        ..*f
    };
    let bits = b.new_const(ones);
    let amount = bit_offset(b, address);
    let place = b.new_bin(Bin::Sll, bits, amount);
    let rest = b.new_not(NodeType::Word, place);
    let value = b.new_bin(Bin::Sll, e.rs2, amount);
    let new = b.new_and(NodeType::Word, value, place);
    let old = b.new_and(NodeType::Word, c.node, rest);
    let both = new_or(b, new, old);
    Outcome::Memory(b.new_write(e.memory, word, both))
}

pub fn model_sd(b: &mut Builder, e: Operands, f: &mut Flows, i: Immediate) -> Outcome
    ensures { Builds b.old (model_sd (operands_of e) (flows_of f.old) i.zeros.imm i.imm) b.new (P.gives (flows_of f.new) (outcome_of result)) }
{
    let address = model_address(b, i, e.rs1);
    f.access = b.new_ite(NodeType::Word, e.flag, address, f.access);
    let cell = b.new_write(e.counter, address, e.zero);
    f.counter = b.new_ite(NodeType::Memory, e.flag, cell, f.counter);
    Outcome::Memory(b.new_write(e.memory, address, e.rs2))
}

// A store of the bits of `ones`.
pub fn store(b: &mut Builder, e: Operands, f: &mut Flows, i: Immediate, ones: u64) -> Outcome
    ensures { Builds b.old (model_store (operands_of e) (flows_of f.old) i.zeros.imm i.imm ones) b.new (P.gives (flows_of f.new) (outcome_of result)) }
{
    let address = model_address(b, i, e.rs1);
    model_s(b, e, f, ones, address)
}
