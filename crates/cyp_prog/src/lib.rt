//! Programs on heap cells, and their texts.
#![tactic(auto)]

mod bytes;
mod count;
mod fault;
mod laws;
mod stmt;
mod tree;
mod write;

pub use fault::{ProgFault, ProgKind};
pub use laws::{a_read_text_is_not_refused, a_text_has_one_reading, lexemes_spell_one_tree};
pub use stmt::{Expr, Proc, Program, Stmt, Test, TestSign};
pub use tree::{ExprTree, ParsedProc, ParsedProgram, ParsedStmt, PlaceTree, SourceTree, VarTree};
pub use write::write_program;
