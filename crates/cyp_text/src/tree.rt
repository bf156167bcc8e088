use crate::lit_tree::LitTree;
use cyp_lex::Ident;
use cyp_term::{List, Shared};

/// An integer term. A number that begins it stands behind its place, and so does the number of a
/// minus.
#[derive(Debug, Drop)]
pub enum IntTree {
    Num(u32, u64),
    MinusNum(u32, u64),
    Named(Ident),
    NamePlus(Ident, u64),
    NameMinus(Ident, u64),
    NumPlus(u32, u64, Ident),
}

/// A part of a union: a name, or terms in braces with the place of the brace.
#[derive(Debug, Drop)]
pub enum PartTree {
    PartName(Ident),
    Braces(u32, List<IntTree>),
}

/// A union of one part or more.
#[derive(Debug, Drop)]
pub struct SetTree {
    pub first: PartTree,
    pub others: List<PartTree>,
}

/// How two terms are compared.
#[derive(Clone, Copy, Debug, PartialEq, Eq)]
pub enum Comparison {
    IsEqual,
    IsUnequal,
    IsAtMost,
    IsBelow,
    IsAtLeast,
    IsAbove,
}

/// The word `true`, or a literal.
#[derive(Debug, Drop)]
pub enum ItemTree {
    TrueItem,
    LitItem(LitTree),
}

/// The two ways to write a conjunction.
#[derive(Clone, Copy, Debug, PartialEq, Eq)]
pub enum Conjunction {
    Slashes,
    Ampersands,
}

/// The pure part of a body, if it has one: an item, which lies apart so that a body takes less room,
/// and others behind their conjunctions.
#[derive(Debug, Drop)]
pub enum PureTree {
    NoItems,
    Items(Shared<ItemTree>, List<(Conjunction, ItemTree)>),
}

/// An argument: a term, which may be a name alone, or a union that is no name alone. A union that
/// begins with braces has their place, their terms and its other parts; one that begins with a
/// name has its second part, which lies apart so that each argument takes less room, and those
/// behind it.
#[derive(Debug, Drop)]
pub enum ArgTree {
    TermArg(IntTree),
    BracesArg(u32, List<IntTree>, List<PartTree>),
    UnionArg(Ident, Shared<PartTree>, List<PartTree>),
}

/// A chunk: a cell at a name or at a term in parentheses with its content, a block with the place
/// of its size and the size, or an instance.
#[derive(Debug, Drop)]
pub enum ChunkTree {
    NamedCell(Ident, IntTree),
    TermCell(IntTree, IntTree),
    BlockOf(IntTree, u32, u64),
    InstanceOf(Ident, List<ArgTree>),
}

/// A pure part and the chunks of a heap, which has none where it is `emp`.
#[derive(Debug, Drop)]
pub struct BodyTree {
    pub pure: PureTree,
    pub chunks: List<ChunkTree>,
}

/// The three words for sorts.
#[derive(Clone, Copy, Debug, PartialEq, Eq)]
pub enum SortTree {
    LocSort,
    IntSort,
    SetSort,
}

/// A parameter: the word for its sort with its place, and the name.
#[derive(Debug, Drop)]
pub struct ParamTree {
    pub sort: SortTree,
    pub place: u32,
    pub name: Ident,
}

/// A clause with the place of its bar.
#[derive(Debug, Drop)]
pub struct ClauseTree {
    pub place: u32,
    pub guard: LitTree,
    pub body: BodyTree,
}

/// A predicate with one clause or more.
#[derive(Debug, Drop)]
pub struct PredTree {
    pub name: Ident,
    pub params: List<ParamTree>,
    pub first: ClauseTree,
    pub others: List<ClauseTree>,
}

/// A specification: predicates, and the procedure with its two bodies.
#[derive(Debug, Drop)]
pub struct TextTree {
    pub preds: List<PredTree>,
    pub name: Ident,
    pub params: List<ParamTree>,
    pub pre: BodyTree,
    pub post: BodyTree,
}
