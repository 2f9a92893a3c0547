// Quotients and remainders.
ghost use Rattle.std.specs.Prelude.{ℕ};
ghost use Rattle.builder.specs.Builds.{Builds};
ghost use Rattle.btor2_list.specs.Operator.{bin_from};
ghost use Rattle.models.specs.Code.{operands_of, flows_of, outcome_of};
ghost use Rattle.models.specs.Kinds.{divided, model_remu, model_divw};
ghost use Rattle.models.specs.Places as P;

use btor2::NodeType;
use btor2_list::Bin;
use builder::Builder;
use builder_ops::new_sext_by;
use models::{Flows, Operands, Outcome};

pub fn model_divw(b: &mut Builder, e: Operands) -> Outcome
    ensures { (f : P.Flows ℕ) → Builds b.old (model_divw (operands_of e) f) b.new (P.gives f (outcome_of result)) }
{
    let thirtytwo = b.new_const(32);
    let left = new_sext_by(b, e.rs1, thirtytwo);
    let right = new_sext_by(b, e.rs2, thirtytwo);
    Outcome::Register(b.new_bin(Bin::Div, left, right))
}

// Div, Divu: the division flow takes the divisor.
pub fn divided(b: &mut Builder, operator: Bin, e: Operands, f: &mut Flows) -> Outcome
    ensures { Builds b.old (divided (bin_from operator) (operands_of e) (flows_of f.old)) b.new (P.gives (flows_of f.new) (outcome_of result)) }
{
    f.division = b.new_ite(NodeType::Word, e.flag, e.rs2, f.division);
    Outcome::Register(b.new_bin(operator, e.rs1, e.rs2))
}

pub fn model_remu(b: &mut Builder, e: Operands, f: &mut Flows) -> Outcome
    ensures { Builds b.old (model_remu (operands_of e) (flows_of f.old)) b.new (P.gives (flows_of f.new) (outcome_of result)) }
{
    f.remainder = b.new_ite(NodeType::Word, e.flag, e.rs2, f.remainder);
    Outcome::Register(b.new_bin(Bin::Rem, e.rs1, e.rs2))
}
