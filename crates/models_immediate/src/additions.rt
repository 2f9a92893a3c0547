// Sums of a register and a constant: Addi and Addiw.
ghost use Rattle.std.specs.Prelude.{ℕ};
ghost use Rattle.models.specs.Kinds.{addi_result, sum_with_constant, model_addi, model_addiw};
ghost use Rattle.models.specs.Places as P;
ghost use Rattle.builder.specs.Builds.{Builds};
ghost use Rattle.models.specs.Code.{operands_of, flows_of, outcome_of};

use btor2::NodeRef;
use btor2_list::Bin;
use builder::Builder;
use builder_ops::{Operation, check_addition_overflow, new_sext32};
use models::{Flows, Immediate, Operands, Outcome};

// What Addi gives: rs1 where imm is 0, a second constant where rs1 is x0, else the sum.
fn addi_result(b: &mut Builder, i: Immediate, rs1: NodeRef, c: NodeRef) -> NodeRef
    ensures { Builds b.old (addi_result i.zeros i.imm rs1.0 c.0) b.new result.0 }
{
    if i.zeros.imm {
        return rs1;
    }
    if i.zeros.rs1 {
        return b.new_const(i.imm);
    }
    b.new_bin(Bin::Add, rs1, c)
}

fn sum_with_constant(b: &mut Builder, e: Operands, f: &mut Flows, i: Immediate) -> Outcome
    ensures { Builds b.old (sum_with_constant i.zeros (operands_of e) (flows_of f.old) i.imm) b.new (P.gives (flows_of f.new) (outcome_of result)) }
{
    let rs1 = e.rs1;
    let rs2 = b.new_const(i.imm);
    let rd = addi_result(b, i, rs1, rs2);
    f.addition = check_addition_overflow(b, e.flag, f.addition, Operation { rs1, rs2, rd });
    Outcome::Register(rd)
}

pub fn model_addi(b: &mut Builder, e: Operands, f: &mut Flows, i: Immediate) -> Outcome
    ensures { Builds b.old (model_addi i.zeros (operands_of e) (flows_of f.old) i.imm) b.new (P.gives (flows_of f.new) (outcome_of result)) }
{
    if i.zeros.rd {
        return Outcome::Nothing;
    }
    sum_with_constant(b, e, f, i)
}

pub fn model_addiw(b: &mut Builder, e: Operands, imm: u64) -> Outcome
    ensures { (f : P.Flows ℕ) → Builds b.old (model_addiw (operands_of e) f imm) b.new (P.gives f (outcome_of result)) }
{
    let c = b.new_const(imm);
    let x = b.new_bin(Bin::Add, e.rs1, c);
    Outcome::Register(new_sext32(b, x))
}
