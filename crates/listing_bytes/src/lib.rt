// The listing from bytes to bytes: what comes of a line (specs/Step), what is lent (specs/Storage), what is written for an input (specs/Listing), and the
// same where the input is read in pieces (specs/Pieces). It is defined here, with its laws (specs/Laws); the code is listing_step and listing_run.
#![tactic(auto)]

use state::State;

// The state after the lines before this one, this one's number, and how many bytes of it have been read.
#[derive(Clone, Copy)]
pub struct Reading {
    pub state: State,
    pub number: u64,
    pub held: usize,
}
