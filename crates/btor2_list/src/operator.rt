// What a record says, with the fields that its kind uses.
ghost use Rattle.std.specs.Prelude.{◌≡◌, not, Some};
ghost use Rattle.btor2.specs.Sort.{sort_numbered};
ghost use Rattle.btor2_list.specs.declared.Line.{Line};
ghost use Rattle.btor2_list.specs.Node.{op_of};
ghost use Rattle.btor2_list.specs.Operator.{op_from};
ghost use Rattle.btor2_list.specs.Inside.{sorted_op};

use crate::{
    ADD, AND, BAD, CONST, DIV, DIVU, EQ, EXT, INPUT, ITE, Line, MUL, NEXT, NOT, OR, READ, REM, SLL,
    SRL, STATE, SUB, ULT, WRITE,
};
use btor2::{Name, NodeRef, NodeType, sort_of};

// The operators on two words.
#[derive(Clone, Copy)]
pub enum Bin {
    Add,
    Sub,
    Mul,
    Divu,
    Div,
    Rem,
    Sll,
    Srl,
    Ult,
}

// What a record says, with the fields that its kind uses: one of unicorn's `Node`, a State with an init apart, or a record of no known kind
// or sort.
#[derive(Clone, Copy)]
pub enum LineOperator {
    Const(NodeType, u64),
    Read(NodeRef, NodeRef),
    Write(NodeRef, NodeRef, NodeRef),
    Binary(Bin, NodeRef, NodeRef),
    Ext(NodeType, NodeRef),
    Ite(NodeType, NodeRef, NodeRef, NodeRef),
    Eq(NodeRef, NodeRef),
    And(NodeType, NodeRef, NodeRef),
    Or(NodeType, NodeRef, NodeRef),
    Not(NodeType, NodeRef),
    State(NodeType, Name),
    StateInit(NodeType, NodeRef, Name),
    Next(NodeType, NodeRef, NodeRef),
    Input(NodeType, Name),
    Bad(NodeRef, Name),
    Unknown,
}

// What a record says. The kinds whose sort is fixed come first; of these the sort field is not looked at.
#[tactic(auto, using(std::proofs::lemmas::Bool::Decides::nat_tests), unfolding(crate::specs::Node::op_of))]
pub fn operator_of(line: Line) -> LineOperator
    ensures { op_from result ≡ op_of line }
{
    let a = line.op1;
    let b = line.op2;
    let c = line.op3;
    let name = line.name;
    match line.kind {
        READ => LineOperator::Read(a, b),
        WRITE => LineOperator::Write(a, b, c),
        ADD => LineOperator::Binary(Bin::Add, a, b),
        SUB => LineOperator::Binary(Bin::Sub, a, b),
        MUL => LineOperator::Binary(Bin::Mul, a, b),
        DIVU => LineOperator::Binary(Bin::Divu, a, b),
        DIV => LineOperator::Binary(Bin::Div, a, b),
        REM => LineOperator::Binary(Bin::Rem, a, b),
        SLL => LineOperator::Binary(Bin::Sll, a, b),
        SRL => LineOperator::Binary(Bin::Srl, a, b),
        ULT => LineOperator::Binary(Bin::Ult, a, b),
        EQ => LineOperator::Eq(a, b),
        BAD => LineOperator::Bad(a, name),
        _ => by_sort(line),
    }
}

// One of the other kinds, which is none where its sort is unknown.
fn by_sort(line: Line) -> LineOperator
    ensures { op_from result ≡ sorted_op (sort_numbered line.sort) line }
{
    match sort_of(line.sort) {
        Some(s) => with_sort(line, s),
        None => LineOperator::Unknown,
    }
}

// A State has an init where its constant is not 0.
#[tactic(auto, using(std::proofs::lemmas::Bool::Decides::nat_tests))]
fn with_sort(line: Line, s: NodeType) -> LineOperator
    ensures { op_from result ≡ sorted_op (Some s) line }
{
    let a = line.op1;
    let b = line.op2;
    let c = line.op3;
    let name = line.name;
    match line.kind {
        CONST => LineOperator::Const(s, line.imm),
        EXT => LineOperator::Ext(s, a),
        ITE => LineOperator::Ite(s, a, b, c),
        AND => LineOperator::And(s, a, b),
        OR => LineOperator::Or(s, a, b),
        NOT => LineOperator::Not(s, a),
        STATE if line.imm == 0 => LineOperator::State(s, name),
        STATE => LineOperator::StateInit(s, a, name),
        NEXT => LineOperator::Next(s, a, b),
        INPUT => LineOperator::Input(s, name),
        _ => LineOperator::Unknown,
    }
}
