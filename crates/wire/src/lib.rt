//! The text of commands and replies: what a line says, and the bytes of each reply. Beside it the text of
//! certificates, and commands that a number gives.
#![tactic(auto)]

mod field;
mod form;
mod generator;
mod laws;
mod line;
mod numbers;
mod replies;
mod texts;
mod words;
mod write;

pub use generator::Generator;
pub use laws::{bytes_have_one_cut, line_spells_one_command, lines_spell_one_text};
pub use line::{Line, read_line};
pub use replies::{place_word, settled_words, verdict_word};
pub use texts::{CertText, TextFault, read_certificate};
pub use words::split_at_byte;
pub use write::{
    write_chunk, write_edge, write_flow, write_ids, write_point, write_refusal, write_tx,
    write_word,
};
