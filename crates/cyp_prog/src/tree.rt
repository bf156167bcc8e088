use crate::stmt::TestSign;
use cyp_lex::Ident;
use cyp_term::List;

/// A program variable with its place.
#[derive(Clone, Copy, Debug, PartialEq, Eq)]
pub struct VarTree {
    pub number: u16,
    pub place: u32,
}

/// An expression: a variable, a number, or a variable and a number behind `+` or `-`.
#[derive(Clone, Copy, Debug, PartialEq, Eq)]
pub enum ExprTree {
    Var(VarTree),
    Num(u64),
    MinusNum(u64),
    VarPlus(VarTree, u64),
    VarMinus(VarTree, u64),
}

/// The place that is read or written: a variable, a number, or an expression in parentheses.
#[derive(Clone, Copy, Debug, PartialEq, Eq)]
pub enum PlaceTree {
    PlaceVar(VarTree),
    PlaceNum(u64),
    PlaceMinus(u64),
    PlaceExpr(ExprTree),
}

/// What is bound by a `let`: the content of a cell, or a new block, whose size has a place.
#[derive(Clone, Copy, Debug, PartialEq, Eq)]
pub enum SourceTree {
    FromCell(PlaceTree),
    FromMalloc(u32, u64),
}

/// A statement as it is written.
#[derive(Debug, Drop)]
pub enum ParsedStmt {
    Let(VarTree, SourceTree),
    Store(PlaceTree, ExprTree),
    Free(ExprTree),
    Call(Ident, List<ExprTree>),
    If(ExprTree, TestSign, ExprTree, List<ParsedStmt>, List<ParsedStmt>),
    Error,
}

/// A procedure as it is written.
#[derive(Debug, Drop)]
pub struct ParsedProc {
    pub name: Ident,
    pub params: List<VarTree>,
    pub body: List<ParsedStmt>,
}

/// A program as it is written: one procedure or more.
#[derive(Debug, Drop)]
pub struct ParsedProgram {
    pub first: ParsedProc,
    pub others: List<ParsedProc>,
}
