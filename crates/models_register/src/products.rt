// Products.
ghost use Rattle.builder_ops.specs.Composed.{check_multiplication_overflow};
ghost use Rattle.models.specs.Kinds.{model_mul, model_mulw};
ghost use Rattle.models.specs.Places as P;
ghost use Rattle.builder.specs.Builds.{Builds};
ghost use Rattle.models.specs.Code.{operands_of, flows_of, outcome_of};

use btor2::NodeRef;
use btor2_list::Bin;
use builder::Builder;
use builder_ops::{Operation, check_multiplication_overflow, new_sext_by};
use models::{Flows, Operands, Outcome};

pub fn model_mul(b: &mut Builder, e: Operands, f: &mut Flows) -> Outcome
    ensures { Builds b.old (model_mul (operands_of e) (flows_of f.old)) b.new (P.gives (flows_of f.new) (outcome_of result)) }
{
    let x = b.new_bin(Bin::Mul, e.rs1, e.rs2);
    f.multiplication = checked(b, e, f.multiplication, x);
    Outcome::Register(x)
}

pub fn model_mulw(b: &mut Builder, e: Operands, f: &mut Flows) -> Outcome
    ensures { Builds b.old (model_mulw (operands_of e) (flows_of f.old)) b.new (P.gives (flows_of f.new) (outcome_of result)) }
{
    let thirtytwo = b.new_const(32);
    let left = new_sext_by(b, e.rs1, thirtytwo);
    let right = new_sext_by(b, e.rs2, thirtytwo);
    let product = b.new_bin(Bin::Mul, left, right);
    let x = new_sext_by(b, product, thirtytwo);
    f.multiplication = checked(b, e, f.multiplication, x);
    Outcome::Register(x)
}

// The multiplication flow after a product of rs1 and rs2. With the addition's in sums.rt it would be one function over the test, whose contract would
// name a program for a closure: no plainer.
fn checked(b: &mut Builder, e: Operands, flow: NodeRef, rd: NodeRef) -> NodeRef
    ensures { Builds b.old (check_multiplication_overflow e.flag.0 e.zero.0 flow.0 e.rs1.0 e.rs2.0 rd.0) b.new result.0 }
{
    let operation = Operation {
        rs1: e.rs1,
        rs2: e.rs2,
        rd,
    };
    check_multiplication_overflow(b, e.flag, e.zero, flow, operation)
}
