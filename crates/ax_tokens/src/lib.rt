//! Texts as tokens with spans: the form that specifications, filter expressions and record texts share; and a reader of
//! tokens, with where it stops.
#![tactic(auto)]

mod lexing;
mod octets;
mod reader;
mod stopped;
mod token;

pub use lexing::tokens;
pub use reader::Reader;
pub use stopped::Stopped;
pub use token::{LexError, Token, TokenKind, Tokens};
