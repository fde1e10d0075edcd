//! A use of the libraries, as a caller writes it: an emulator's loop over a board.
#![tactic(auto)]

pub mod board;
#[cfg(test)]
mod tests;
