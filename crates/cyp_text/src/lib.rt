//! Specifications as texts: their grammar and its parser.
#![tactic(auto)]

mod bodies;
mod chunks;
mod laws;
mod lists;
mod lit_tree;
mod literals;
mod parser;
mod terms;
mod texts;
mod tree;
mod whole_text;

pub use laws::lexemes_spell_one_tree;
pub use lit_tree::{BaseTree, LitTree};
pub use tree::{
    ArgTree, BodyTree, ChunkTree, ClauseTree, Comparison, Conjunction, IntTree, ItemTree,
    ParamTree, PartTree, PredTree, PureTree, SetTree, SortTree, TextTree,
};
pub use whole_text::parse;
