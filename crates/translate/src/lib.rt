// One instruction's lines: those of its kind's shape, the line of its flow, and Jalr's bad line (the first `match` of unicorn's
// `translate_to_model`).
#![tactic(auto)]

ghost use Rattle.riscv.specs.Kind.{kind_at};
ghost use Rattle.std.specs.Prelude.{ℕ};
ghost use Rattle.models.specs.Model.{settle, translate};
ghost use Rattle.models.specs.Places as P;
ghost use Rattle.models.specs.Code.{operands_of, flows_of, outcome_of, modeled_of};
ghost use Rattle.builder.specs.Builds.{Builds};
ghost use Rattle.translate.specs.Shape.{shaped, Has};

use btor2::{Name, NodeRef, NodeType};
use btor2_list::Bin;
use builder::Builder;
use builder_ops::Operator;
use models::{Flows, Immediate, Modeled, Operands, Outcome};
use riscv::Kind;
use riscv_rows::{class_of, has_bad};
use state::Reads;

// The shapes that a kind's lines have, each with what its kinds differ in: an operator, or for a load how many bits of a word are above those
// that are loaded and whether these are signed, or for a store ones at the bits that are stored.
#[derive(Clone, Copy)]
enum Shape {
    Constant,
    Link,
    Load { spare: u64, signed: bool },
    Ld,
    Store { ones: u64 },
    Sd,
    Addi,
    Addiw,
    Sltiu,
    Slliw,
    WithConstant(Operator),
    ShiftedBack(Operator),
    Summed(Bin),
    SummedWord(Bin),
    Shifted(Operator),
    Sltu,
    Sllw,
    WithRegister(Operator),
    Mul,
    Mulw,
    Divided(Bin),
    Divw,
    Remu,
    Branch(Operator),
    Ecall,
}

// The shape of a kind's lines.
fn shape_of(kind: Kind) -> Shape
    ensures { Has kind result }
{
    match kind {
        Kind::Lui | Kind::Auipc => Shape::Constant,
        Kind::Lb => Shape::Load {
            spare: 56,
            signed: true,
        },
        Kind::Lh => Shape::Load {
            spare: 48,
            signed: true,
        },
        Kind::Lw => Shape::Load {
            spare: 32,
            signed: true,
        },
        Kind::Ld => Shape::Ld,
        Kind::Lbu => Shape::Load {
            spare: 56,
            signed: false,
        },
        Kind::Lhu => Shape::Load {
            spare: 48,
            signed: false,
        },
        Kind::Sb => Shape::Store { ones: 0xff },
        Kind::Sh => Shape::Store { ones: 0xffff },
        Kind::Sw => Shape::Store { ones: 0xffff_ffff },
        Kind::Sd => Shape::Sd,
        Kind::Addi => Shape::Addi,
        Kind::Sltiu => Shape::Sltiu,
        Kind::Xori => Shape::WithConstant(Operator::Xor),
        Kind::Ori => Shape::WithConstant(Operator::Or),
        Kind::Andi => Shape::WithConstant(Operator::And),
        Kind::Slli => Shape::WithConstant(Operator::Sll),
        Kind::Srli => Shape::WithConstant(Operator::Srl),
        Kind::Srai => Shape::WithConstant(Operator::Sra),
        Kind::Addiw => Shape::Addiw,
        Kind::Slliw => Shape::Slliw,
        Kind::Srliw => Shape::ShiftedBack(Operator::Srl),
        Kind::Sraiw => Shape::ShiftedBack(Operator::Sra),
        Kind::Add => Shape::Summed(Bin::Add),
        Kind::Sub => Shape::Summed(Bin::Sub),
        Kind::Sll => Shape::Shifted(Operator::Sll),
        Kind::Sltu => Shape::Sltu,
        Kind::Srl => Shape::Shifted(Operator::Srl),
        Kind::Sra => Shape::Shifted(Operator::Sra),
        Kind::Or => Shape::WithRegister(Operator::Or),
        Kind::And => Shape::WithRegister(Operator::And),
        Kind::Mul => Shape::Mul,
        Kind::Div => Shape::Divided(Bin::Div),
        Kind::Divu => Shape::Divided(Bin::Divu),
        Kind::Remu => Shape::Remu,
        Kind::Addw => Shape::SummedWord(Bin::Add),
        Kind::Divw => Shape::Divw,
        Kind::Subw => Shape::SummedWord(Bin::Sub),
        Kind::Sllw => Shape::Sllw,
        Kind::Mulw => Shape::Mulw,
        Kind::Beq => Shape::Branch(Operator::Eq),
        Kind::Bne => Shape::Branch(Operator::Neq),
        Kind::Blt => Shape::Branch(Operator::Slt),
        Kind::Bge => Shape::Branch(Operator::Sgte),
        Kind::Bltu => Shape::Branch(Operator::Ult),
        Kind::Bgeu => Shape::Branch(Operator::Ugte),
        Kind::Jal | Kind::Jalr => Shape::Link,
        Kind::Ecall => Shape::Ecall,
    }
}

// The lines of a shape.
fn model_shape(b: &mut Builder, e: Operands, f: &mut Flows, i: Immediate, shape: Shape) -> Outcome
    ensures { Builds b.old (shaped shape (operands_of e) (flows_of f.old) i.imm i.zeros) b.new (P.gives (flows_of f.new) (outcome_of result)) }
{
    match shape {
        Shape::Constant => models_immediate::constant(b, i.imm),
        Shape::Link => models_immediate::link(b, i),
        Shape::Load { spare, signed } => models_memory::load(b, e, f, i, spare, signed),
        Shape::Ld => models_memory::model_ld(b, e, f, i),
        Shape::Store { ones } => models_memory::store(b, e, f, i, ones),
        Shape::Sd => models_memory::model_sd(b, e, f, i),
        Shape::Addi => models_immediate::model_addi(b, e, f, i),
        Shape::Addiw => models_immediate::model_addiw(b, e, i.imm),
        Shape::Sltiu => models_immediate::model_sltiu(b, e, i.imm),
        Shape::Slliw => models_immediate::model_slliw(b, e, i.imm),
        Shape::WithConstant(o) => models_immediate::with_constant(b, o, e, i.imm),
        Shape::ShiftedBack(o) => models_immediate::shifted_back(b, o, e, i.imm),
        Shape::Summed(o) => models_register::summed(b, o, e, f),
        Shape::SummedWord(o) => models_register::summed_word(b, o, e, f),
        Shape::Shifted(o) => models_register::shifted(b, o, e),
        Shape::Sltu => models_register::model_sltu(b, e),
        Shape::Sllw => models_register::model_sllw(b, e),
        Shape::WithRegister(o) => models_register::with_register(b, o, e),
        Shape::Mul => models_register::model_mul(b, e, f),
        Shape::Mulw => models_register::model_mulw(b, e, f),
        Shape::Divided(o) => models_register::divided(b, o, e, f),
        Shape::Divw => models_register::model_divw(b, e),
        Shape::Remu => models_register::model_remu(b, e, f),
        Shape::Branch(o) => models_register::model_branch(b, o, e),
        Shape::Ecall => models_register::model_ecall(b, e, f),
    }
}

// The line of the flow that a model's outcome is for: what comes out is where the flow is now.
fn settle_flow(b: &mut Builder, reads: Reads, outcome: Outcome) -> Outcome
    ensures { (f : P.Flows ℕ) → Builds b.old (settle reads.operands.flag.0 reads.register.0 reads.memory.0 f (outcome_of outcome)) b.new (P.gives f (outcome_of result)) }
{
    let flag = reads.operands.flag;
    match outcome {
        Outcome::Register(x) => {
            Outcome::Register(b.new_ite(NodeType::Word, flag, x, reads.register))
        }
        Outcome::Memory(x) => Outcome::Memory(b.new_ite(NodeType::Memory, flag, x, reads.memory)),
        Outcome::Nothing | Outcome::Branch(_, _) => outcome,
    }
}

// All that an instruction appends: its kind's lines, the line of its flow, and under x0 Jalr's bad line.
pub fn translate_lines(
    b: &mut Builder,
    reads: Reads,
    i: Immediate,
    name: Name,
    kind: u64,
) -> Modeled
    ensures { Builds b.old (translate (operands_of reads.operands) (flows_of reads.flows) reads.register.0 reads.memory.0 i.imm name (kind_at kind) i.zeros) b.new (modeled_of result) }
{
    let mut flows = reads.flows;
    let modeled = model_shape(b, reads.operands, &mut flows, i, shape_of(Kind::at(kind)));
    let outcome = settle_flow(b, reads, modeled);
    if has_bad(class_of(kind), i.zeros) {
        b.new_bad(reads.operands.flag, name);
    }
    Modeled { flows, outcome }
}
