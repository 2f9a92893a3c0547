// Loads and stores: the address, the counted reads of the cells, and the lines of each kind.
#![tactic(auto)]

mod address;
mod counted;
mod loads;
mod stores;

pub use loads::{load, model_ld};
pub use stores::{model_sd, store};
