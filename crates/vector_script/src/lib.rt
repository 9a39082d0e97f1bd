// The notation of a script: its statements, the numbers and words that they lend, and how an answer is printed.
#![tactic(auto)]

mod arguments;
mod counting;
mod lending;
mod numbers;
pub mod print;
mod statements;
mod words;

pub use arguments::{Loan, MOST_COPIED};
pub use lending::{MEMORY, Store, WorkWords};
pub use statements::{Script, Statement};
pub use words::{UnknownWord, named};

// Room for a script, in bytes.
pub const ROOM: usize = 131072;
