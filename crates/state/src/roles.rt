// The roles: which line stands for each node and flow of the builder. How many there are, and where each stands: zero and one as Bit and as
// Word; the memory, counter and counter maximum nodes; the register nodes x0 to x31; the register flows x1 to x31; the memory, counter and
// counter maximum flows; the division, remainder and access flows; the two overflow flows and the ecall flow.
use btor2::NodeRef;
use models::{Flows, Operands};

pub const ROLES: usize = 79;

pub const ZERO_BIT: usize = 0;

pub const ONE_BIT: usize = 1;

pub(crate) const ZERO_WORD: usize = 2;

pub(crate) const ONE_WORD: usize = 3;

pub(crate) const MEMORY: usize = 4;

pub(crate) const COUNTER: usize = 5;

pub(crate) const MAXIMUM: usize = 6;

pub const REGISTERS: usize = 7;

// One before the flow of x1.
pub const REGISTER_FLOWS: usize = 38;

pub(crate) const MEMORY_FLOW: usize = 70;

pub(crate) const COUNTER_FLOW: usize = 71;

pub(crate) const MAXIMUM_FLOW: usize = 72;

pub(crate) const DIVISION_FLOW: usize = 73;

pub(crate) const REMAINDER_FLOW: usize = 74;

pub(crate) const ACCESS_FLOW: usize = 75;

pub(crate) const ADDITION_FLOW: usize = 76;

pub(crate) const MULTIPLICATION_FLOW: usize = 77;

pub(crate) const ECALL_FLOW: usize = 78;

// What an instruction reads of the roles.
#[derive(Clone, Copy)]
pub struct Reads {
    pub operands: Operands,
    pub flows: Flows,
    pub register: NodeRef,
    pub memory: NodeRef,
}
