// What the check program does with its bytes. Nothing here reads or writes: the bytes come in as slices, and what is to be
// printed goes out as a text, so that the program above has only these two things left to do.
#![tactic(auto)]

pub mod body;
mod lines;
pub mod passes;
pub mod text;
