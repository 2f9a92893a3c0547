// Sums and differences, and their kinds on 32 bits; Sllw.
ghost use Rattle.std.specs.Prelude.{ℕ};
ghost use Rattle.btor2_list.specs.Operator.{bin_from};
ghost use Rattle.builder_ops.specs.Composed.{check_addition_overflow};
ghost use Rattle.models.specs.Kinds.{model_sllw, summed, summed_word};
ghost use Rattle.models.specs.Places as P;
ghost use Rattle.builder.specs.Builds.{Builds};
ghost use Rattle.models.specs.Code.{operands_of, flows_of, outcome_of};

use btor2::{NodeRef, NodeType};
use btor2_list::Bin;
use builder::Builder;
use builder_ops::{Operation, check_addition_overflow, new_sext32, new_sra};
use models::{Flows, Operands, Outcome};

// Add, Sub: both use the addition's test.
pub fn summed(b: &mut Builder, operator: Bin, e: Operands, f: &mut Flows) -> Outcome
    ensures { Builds b.old (summed (bin_from operator) (operands_of e) (flows_of f.old)) b.new (P.gives (flows_of f.new) (outcome_of result)) }
{
    let x = b.new_bin(operator, e.rs1, e.rs2);
    f.addition = checked(b, e, f.addition, x);
    Outcome::Register(x)
}

// Addw, Subw.
pub fn summed_word(b: &mut Builder, operator: Bin, e: Operands, f: &mut Flows) -> Outcome
    ensures { Builds b.old (summed_word (bin_from operator) (operands_of e) (flows_of f.old)) b.new (P.gives (flows_of f.new) (outcome_of result)) }
{
    let sum = b.new_bin(operator, e.rs1, e.rs2);
    f.addition = checked(b, e, f.addition, sum);
    Outcome::Register(new_sext32(b, sum))
}

// The addition flow after a sum of rs1 and rs2, or their difference.
fn checked(b: &mut Builder, e: Operands, flow: NodeRef, rd: NodeRef) -> NodeRef
    ensures { Builds b.old (check_addition_overflow e.flag.0 flow.0 e.rs1.0 e.rs2.0 rd.0) b.new result.0 }
{
    let operation = Operation {
        rs1: e.rs1,
        rs2: e.rs2,
        rd,
    };
    check_addition_overflow(b, e.flag, flow, operation)
}

pub fn model_sllw(b: &mut Builder, e: Operands) -> Outcome
    ensures { (f : P.Flows ℕ) → Builds b.old (model_sllw (operands_of e) f) b.new (P.gives f (outcome_of result)) }
{
    let thirtytwo = b.new_const(32);
    let mask = b.new_const(31);
    let amount = b.new_and(NodeType::Word, e.rs2, mask);
    let sum = b.new_bin(Bin::Add, amount, thirtytwo);
    let x = b.new_bin(Bin::Sll, e.rs1, sum);
    Outcome::Register(new_sra(b, x, thirtytwo))
}
