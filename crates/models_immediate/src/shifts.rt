// The register-immediate shifts of 32 bits: Slliw, Srliw, Sraiw.
ghost use Rattle.std.specs.Prelude.{ℕ};
ghost use Rattle.builder_ops.specs.Operator.{operator_of};
ghost use Rattle.models.specs.Kinds.{model_slliw, shifted_back};
ghost use Rattle.models.specs.Places as P;
ghost use Rattle.builder.specs.Builds.{Builds};
ghost use Rattle.models.specs.Code.{operands_of, outcome_of};

use btor2_list::Bin;
use builder::Builder;
use builder_ops::{Operator, apply, new_sra};
use models::{Operands, Outcome};

// Srliw, Sraiw: by `amount`, which is 32 more than the instruction's.
pub fn shifted_back(b: &mut Builder, operator: Operator, e: Operands, amount: u64) -> Outcome
    ensures { (f : P.Flows ℕ) → Builds b.old (shifted_back (operator_of operator) (operands_of e) f amount) b.new (P.gives f (outcome_of result)) }
{
    let c = b.new_const(amount);
    let thirtytwo = b.new_const(32);
    let x = b.new_bin(Bin::Sll, e.rs1, thirtytwo);
    Outcome::Register(apply(b, operator, x, c))
}

pub fn model_slliw(b: &mut Builder, e: Operands, imm: u64) -> Outcome
    ensures { (f : P.Flows ℕ) → Builds b.old (model_slliw (operands_of e) f imm) b.new (P.gives f (outcome_of result)) }
{
    let c = b.new_const(imm);
    let thirtytwo = b.new_const(32);
    let x = b.new_bin(Bin::Sll, e.rs1, c);
    Outcome::Register(new_sra(b, x, thirtytwo))
}
