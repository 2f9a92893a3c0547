// The read that counts, which loads and stores share.
ghost use Rattle.models.specs.Counters.{counted_read};
ghost use Rattle.builder.specs.Builds.{Builds};
ghost use Rattle.models.specs.Code.{operands_of, flows_of, counted_of};

use btor2::{NodeRef, NodeType};
use btor2_list::Bin;
use builder::Builder;
use models::{Counted, Flows, Operands};

// A read that raises the counter cell, and the maximum where the raised count is above its node.
pub(crate) fn counted_read(b: &mut Builder, e: Operands, f: Flows, address: NodeRef) -> Counted
    ensures { Builds b.old (counted_read (operands_of e) (flows_of f) address.0) b.new (counted_of result) }
{
    let current = b.new_read(e.counter, address);
    let next = b.new_bin(Bin::Add, current, e.one);
    let above = b.new_bin(Bin::Ult, e.maximum, next);
    let update = b.new_ite(NodeType::Word, above, next, e.maximum);
    let maximum = b.new_ite(NodeType::Word, e.flag, update, f.maximum);
    let cell = b.new_write(e.counter, address, next);
    let counter = b.new_ite(NodeType::Memory, e.flag, cell, f.counter);
    let node = b.new_read(e.memory, address);
    Counted {
        counter,
        maximum,
        node,
    }
}
