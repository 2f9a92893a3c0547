// The kinds on two registers, the branches and Ecall.
#![tactic(auto)]

mod control;
mod divisions;
mod products;
mod registers;
mod sums;

pub use control::{model_branch, model_ecall};
pub use divisions::{divided, model_divw, model_remu};
pub use products::{model_mul, model_mulw};
pub use registers::{model_sltu, shifted, with_register};
pub use sums::{model_sllw, summed, summed_word};
