// Kinds on two registers: logic, shifts, compare.
ghost use Rattle.std.specs.Prelude.{ℕ};
ghost use Rattle.builder_ops.specs.Operator.{operator_of};
ghost use Rattle.models.specs.Kinds.{with_register, model_sltu, shifted};
ghost use Rattle.models.specs.Places as P;
ghost use Rattle.builder.specs.Builds.{Builds};
ghost use Rattle.models.specs.Code.{operands_of, outcome_of};

use btor2::NodeType;
use btor2_list::Bin;
use builder::Builder;
use builder_ops::{Operator, apply};
use models::{Operands, Outcome};

// Or, And.
pub fn with_register(b: &mut Builder, operator: Operator, e: Operands) -> Outcome
    ensures { (f : P.Flows ℕ) → Builds b.old (with_register (operator_of operator) (operands_of e) f) b.new (P.gives f (outcome_of result)) }
{
    Outcome::Register(apply(b, operator, e.rs1, e.rs2))
}

// Sll, Srl, Sra: by the low 6 bits of rs2.
pub fn shifted(b: &mut Builder, operator: Operator, e: Operands) -> Outcome
    ensures { (f : P.Flows ℕ) → Builds b.old (shifted (operator_of operator) (operands_of e) f) b.new (P.gives f (outcome_of result)) }
{
    let mask = b.new_const(63);
    let amount = b.new_and(NodeType::Word, e.rs2, mask);
    Outcome::Register(apply(b, operator, e.rs1, amount))
}

pub fn model_sltu(b: &mut Builder, e: Operands) -> Outcome
    ensures { (f : P.Flows ℕ) → Builds b.old (model_sltu (operands_of e) f) b.new (P.gives f (outcome_of result)) }
{
    let less = b.new_bin(Bin::Ult, e.rs1, e.rs2);
    Outcome::Register(b.new_ext(NodeType::Bit, less))
}
