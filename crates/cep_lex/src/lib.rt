//! The tokens of a program's text, each with its place, and the line and the column of a place.
#![tactic(auto)]

mod fault;
mod gaps;
mod laws;
mod lexing;
mod places;
mod token;
mod words;

pub use fault::LexFault;
pub use laws::{every_text_is_lexed, lexed_once};
pub use lexing::lex;
pub use places::{START, place, place_after};
pub use token::{Token, TokenKind, Tokens};
