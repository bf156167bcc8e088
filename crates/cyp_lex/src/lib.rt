//! The tokens of specifications and of programs, and the faults of reading; grammars as relations
//! between lexemes and trees, with a theory of their readers, and the names in trees.
#![tactic(auto)]

mod fault;
mod few;
mod ident;
mod lexer;
mod name;
mod token;
mod want;

pub use fault::{Fault, FaultKind};
pub use ident::Ident;
pub use lexer::{program_tokens, tokens};
pub use name::Name;
pub use token::{Sign, Token, TokenKind, Word};
pub use want::Want;
