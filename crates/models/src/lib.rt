// What the models of the kinds read, set and give.
#![tactic(auto)]

use btor2::NodeRef;
use riscv::Zeros;

// The places that an instruction reads: its flag, the nodes of rs1 and rs2, and nodes of the start. No flow is among them.
#[derive(Clone, Copy)]
pub struct Operands {
    pub flag: NodeRef,
    pub rs1: NodeRef,
    pub rs2: NodeRef,
    pub zero: NodeRef,
    pub one: NodeRef,
    pub true_bit: NodeRef,
    pub memory: NodeRef,
    pub counter: NodeRef,
    pub maximum: NodeRef,
}

// The flows besides those of registers and memory.
#[derive(Clone, Copy)]
pub struct Flows {
    pub counter: NodeRef,
    pub maximum: NodeRef,
    pub division: NodeRef,
    pub remainder: NodeRef,
    pub access: NodeRef,
    pub addition: NodeRef,
    pub multiplication: NodeRef,
    pub ecall: NodeRef,
}

// What a model gives: nothing, a word for rd, a memory, or the conditions of a branch (taken, and not).
#[derive(Clone, Copy)]
pub enum Outcome {
    Nothing,
    Register(NodeRef),
    Memory(NodeRef),
    Branch(NodeRef, NodeRef),
}

// The flows after a model, and what it gives.
#[derive(Clone, Copy)]
pub struct Modeled {
    pub flows: Flows,
    pub outcome: Outcome,
}

// A read that counts: the flows that it sets, and the word.
#[derive(Clone, Copy)]
pub struct Counted {
    pub counter: NodeRef,
    pub maximum: NodeRef,
    pub node: NodeRef,
}

// The constant of an instruction's lines, and which fields of the instruction are 0.
#[derive(Clone, Copy)]
pub struct Immediate {
    pub imm: u64,
    pub zeros: Zeros,
}
