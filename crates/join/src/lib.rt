// One address's edges and dispatches joined into its flag: what a call is lent and given, refuses and gives, and how each edge goes in (specs/).
// The code is join_calls.
#![tactic(auto)]

use btor2::NodeRef;
use state::State;

// What a call writes: the list, our name area and the sequentials.
#[derive(Drop)]
pub struct JoinLent<'a> {
    pub list: &'a mut [u64],
    pub names: &'a mut [u8],
    pub sequentials: &'a mut [u64],
}

// What passes from call to call: the lowering's state, and how many sequentials are in use.
#[derive(Clone, Copy)]
pub struct JoinHeld {
    pub state: State,
    pub sequentials: usize,
}

// The numbers that a join is given: how many edges, dispatches and flags, the kernel-mode and the kernel-not node, and the starting flow.
#[derive(Clone, Copy)]
pub struct Asked {
    pub edges: usize,
    pub dispatches: usize,
    pub flags: usize,
    pub mode: NodeRef,
    pub none: NodeRef,
    pub flow: NodeRef,
}

// What a join is given: the edges, as words or as records, the dispatches and the table of flags. An edge has four words, a dispatch and a flag two
// each; the dynamic flags are those of x1 to x31.
#[derive(Clone, Copy)]
pub struct JoinInput<'a, Edge = u64> {
    pub edges: &'a [Edge],
    pub dispatches: &'a [u64],
    pub flags: &'a [u64],
    pub dynamics: &'a [u64; 31],
    pub asked: Asked,
}

// What an accepted join gives: the flow, and what passes on.
#[derive(Clone, Copy)]
pub struct Joined {
    pub flow: NodeRef,
    pub held: JoinHeld,
}

// The zero and the one bit.
#[derive(Clone, Copy)]
pub struct Bits {
    pub zero: NodeRef,
    pub one: NodeRef,
}

// The kernel-mode and the kernel-not node.
#[derive(Clone, Copy)]
pub struct Kernel {
    pub mode: NodeRef,
    pub none: NodeRef,
}
