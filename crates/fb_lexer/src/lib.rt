//! The tokens of FreeBASIC text: names, reserved words, numbers, string literals, marks and line ends, exact on any
//! bytes.
#![tactic(auto)]

mod comment;
mod front;
mod letters;
mod lexing;
mod literal;
mod mark;
mod name;
mod number;
mod piece;
mod row;
mod token;
mod word;

pub use front::piece_of;
pub use lexing::{LexErr, Tokens, lex, one_piece, one_row};
pub use piece::{Before, Piece};
pub use token::{Mark, Token, TokenKind};
pub use word::Word;
