// The kinds that have a constant: Lui, Auipc and the links, and those with an immediate.
#![tactic(auto)]

mod additions;
mod constants;
mod immediates;
mod shifts;

pub use additions::{model_addi, model_addiw};
pub use constants::{constant, link};
pub use immediates::{model_sltiu, with_constant};
pub use shifts::{model_slliw, shifted_back};
