// Branches, and Ecall.
ghost use Rattle.std.specs.Prelude.{ℕ};
ghost use Rattle.builder_ops.specs.Operator.{operator_of};
ghost use Rattle.models.specs.Kinds.{model_branch, model_ecall};
ghost use Rattle.models.specs.Places as P;
ghost use Rattle.builder.specs.Builds.{Builds};
ghost use Rattle.models.specs.Code.{operands_of, flows_of, outcome_of};

use btor2::NodeType;
use builder::Builder;
use builder_ops::{Operator, apply};
use models::{Flows, Operands, Outcome};

// The condition, and its negation.
pub fn model_branch(b: &mut Builder, operator: Operator, e: Operands) -> Outcome
    ensures { (f : P.Flows ℕ) → Builds b.old (model_branch (operator_of operator) (operands_of e) f) b.new (P.gives f (outcome_of result)) }
{
    let taken = apply(b, operator, e.rs1, e.rs2);
    let other = b.new_not(NodeType::Bit, taken);
    Outcome::Branch(taken, other)
}

pub fn model_ecall(b: &mut Builder, e: Operands, f: &mut Flows) -> Outcome
    ensures { Builds b.old (model_ecall (operands_of e) (flows_of f.old)) b.new (P.gives (flows_of f.new) (outcome_of result)) }
{
    f.ecall = b.new_ite(NodeType::Bit, e.flag, e.true_bit, f.ecall);
    Outcome::Nothing
}
