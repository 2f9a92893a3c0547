// The bench: what it answers. Its definition is specs/Evaluation; the code is evaluation_calls.
#![tactic(auto)]

// A value, and the visits that it took.
#[derive(Clone, Copy)]
pub struct Evaluated {
    pub value: u64,
    pub visits: u64,
}
