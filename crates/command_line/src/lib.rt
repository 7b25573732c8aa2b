//! What the words of a command line ask the program for, as `clap` parses them.
#![tactic(auto)]

mod laws;
mod words;

pub use laws::words_ask_once;
pub use words::{Asked, WordsFault, command_line, read_words};
