// One call lowers one instruction (unicorn's `translate_to_model`): what it gives. It is defined here, over a state (specs/Lowering) and over the
// state's words (specs/Words, and many calls in one, specs/All); the code is lowering_calls, over the instruction's lines (lines.rt).
#![tactic(auto)]

mod lines;

use btor2::NodeRef;
pub use lines::{Lines, lower_lines, name_for};
use riscv::Instruction;

// What a call asks: an instruction at an address, under a flag.
#[derive(Clone, Copy)]
pub struct LowerCall {
    pub instruction: Instruction,
    pub address: u64,
    pub flag: NodeRef,
}

// What the host lends, from call to call: the list of lines, our area of names, the in-edges, as words or as records, the dispatches and the bads.
#[derive(Drop)]
pub struct Lent<'a, Edge = u64> {
    pub list: &'a mut [u64],
    pub names: &'a mut [u8],
    pub edges: &'a mut [Edge],
    pub dispatches: &'a mut [u64],
    pub bads: &'a mut [u64],
}
