//! Writes texts piece by piece. Where a write fails, the writer has a prefix of the text.
#![tactic(auto)]

mod pieces;

pub use pieces::{Piece, WriteFault, put, put_line, put_pieces};
