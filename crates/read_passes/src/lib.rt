// Reading: what the passes over a file say, each of which answers the first refusal.
// Crate `read_global` looks at G, `read_directory` at the directory, `read_before` goes through all that is asked before the last pass.
#![tactic(auto)]

use cards::Counts;
use columns::{FileLine, Refusal};

// All is good, or the first refusal and its line.
pub type FilePass = Result<(), Refusal<FileLine>>;

// The delimiters that G names.
#[derive(Clone, Copy)]
pub struct Delimiters {
    pub parameter: u8,
    pub closing: u8,
}

// What a file tells before its parameters are read: its counts and delimiters.
#[derive(Clone, Copy)]
pub struct Before {
    pub counts: Counts,
    pub parameter: u8,
    pub closing: u8,
}
