// What the tables of cases share: their numbers, their records of lines, the states that their calls start from, and what their programs write.
#![tactic(auto)]

mod commands;
mod input;
mod shown;

pub use commands::{Commands, Placed};
pub use input::read_full;
pub use shown::{show_counts, show_lines, show_numbers, show_record};
