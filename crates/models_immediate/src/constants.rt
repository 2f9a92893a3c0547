// Kinds whose result is a constant: Lui, Auipc, and the link of Jal and Jalr.
ghost use Rattle.std.specs.Prelude.{ℕ};
ghost use Rattle.models.specs.Kinds.{constant, link};
ghost use Rattle.models.specs.Places as P;
ghost use Rattle.builder.specs.Builds.{Builds};
ghost use Rattle.models.specs.Code.{outcome_of};

use builder::Builder;
use models::{Immediate, Outcome};

pub fn constant(b: &mut Builder, imm: u64) -> Outcome
    ensures { (f : P.Flows ℕ) → Builds b.old (constant f imm) b.new (P.gives f (outcome_of result)) }
{
    Outcome::Register(b.new_const(imm))
}

pub fn link(b: &mut Builder, i: Immediate) -> Outcome
    ensures { (f : P.Flows ℕ) → Builds b.old (link i.zeros.rd f i.imm) b.new (P.gives f (outcome_of result)) }
{
    if i.zeros.rd {
        return Outcome::Nothing;
    }
    constant(b, i.imm)
}
