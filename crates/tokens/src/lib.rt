// The tokens of equation texts.
#![tactic(auto)]

mod iter;
mod lexer;
mod token;

pub use iter::Tokens;
pub use lexer::{Lexed, next_token, tokens};
pub use token::{Group, Token};
