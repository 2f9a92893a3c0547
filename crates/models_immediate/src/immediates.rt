// The register-immediate kinds, but Addi and Addiw and the shifts of 32 bits.
ghost use Rattle.std.specs.Prelude.{ℕ};
ghost use Rattle.builder_ops.specs.Operator.{operator_of};
ghost use Rattle.models.specs.Kinds.{with_constant, model_sltiu};
ghost use Rattle.models.specs.Places as P;
ghost use Rattle.builder.specs.Builds.{Builds};
ghost use Rattle.models.specs.Code.{operands_of, outcome_of};

use btor2::NodeType;
use btor2_list::Bin;
use builder::Builder;
use builder_ops::{Operator, apply};
use models::{Operands, Outcome};

// Xori, Ori, Andi, Slli, Srli, Srai.
pub fn with_constant(b: &mut Builder, operator: Operator, e: Operands, imm: u64) -> Outcome
    ensures { (f : P.Flows ℕ) → Builds b.old (with_constant (operator_of operator) (operands_of e) f imm) b.new (P.gives f (outcome_of result)) }
{
    let c = b.new_const(imm);
    Outcome::Register(apply(b, operator, e.rs1, c))
}

pub fn model_sltiu(b: &mut Builder, e: Operands, imm: u64) -> Outcome
    ensures { (f : P.Flows ℕ) → Builds b.old (model_sltiu (operands_of e) f imm) b.new (P.gives f (outcome_of result)) }
{
    let c = b.new_const(imm);
    let less = b.new_bin(Bin::Ult, e.rs1, c);
    Outcome::Register(b.new_ext(NodeType::Bit, less))
}
