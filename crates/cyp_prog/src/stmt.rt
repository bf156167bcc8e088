ghost use Rattle.std.specs.Prelude.{◌≡◌};
ghost use Rattle.cyp_prog.specs.Programs.{plain_program};
ghost use Rattle.cyp_prog.specs.Rules.{KeepsRules};

use cyp_term::{List, Text};
use std::marker::Model;

/// A program variable, or nothing, plus an offset.
#[derive(Clone, Copy, Debug, PartialEq, Eq, Hash)]
pub struct Expr {
    pub var: Option<u16>,
    pub offset: i64,
}

/// How the two sides of a test are compared.
#[derive(Clone, Copy, Debug, PartialEq, Eq, Hash)]
pub enum TestSign {
    Equal,
    Unequal,
    AtMost,
    Below,
}

/// The test of a conditional.
#[derive(Clone, Copy, Debug, PartialEq, Eq, Hash)]
pub struct Test {
    pub left: Expr,
    pub sign: TestSign,
    pub right: Expr,
}

/// A statement: a read, a write, an allocation, a deallocation, a call by the procedure's place, a
/// conditional, and `error`.
#[derive(Debug, Drop, PartialEq, Eq)]
pub enum Stmt {
    Load(u16, Expr),
    Store(Expr, Expr),
    Take(u16, u8),
    Give(Expr),
    Invoke(u16, List<Expr>),
    If(Test, List<Stmt>, List<Stmt>),
    Error,
}

/// A procedure, whose parameters are the first `params` variables.
#[derive(Debug, Drop, PartialEq, Eq)]
pub struct Proc {
    pub name: Text,
    pub params: u16,
    pub body: List<Stmt>,
}

/// A program: its main procedure first, then the auxiliary ones. It keeps the rules of programs:
/// each variable is bound above its uses and numbered by the binders on its path, each call is of a
/// procedure that is there and has as many arguments as that has parameters, an offset is at most
/// 2^32 in size, a block has 1 to 8 cells, and no conditional stands inside 128 others.
#[derive(Debug, Drop, PartialEq, Eq)]
pub struct Program {
    procs: List<Proc>,
}

impl Model for Program {
    ghost use Rattle.std.specs.Coded.{codes};
    ghost use Rattle.cyp_prog.specs.ProgramValue.{ProgramValue};
    ghost use Rattle.cyp_prog.specs.Programs.{plain_program};
    ghost use Rattle.cyp_prog.specs.Rules.{KeepsRules};
    ghost use Rattle.cyp_prog.specs.contracts.stmt.Stmt as e;

    ghost Value = { ProgramValue };

    ghost coded = { Prim.hlevel (codes, e.the_row.coded) };

    ghost view = { λ p. record { procs = p.procs } };

    ghost invariant = { λ p. KeepsRules (plain_program (record { procs = p.procs })) };

    ghost inverse = { λ p. record { procs = p.procs } };
}

impl Program {
    /// The program of these procedures.
    pub fn new(procs: List<Proc>) -> Program
        requires { KeepsRules (plain_program (record { procs = procs })) }
        ensures { result ≡ record { procs = procs } }
    {
        Program { procs }
    }

    /// The procedures in the order of their places, the main one first.
    pub fn procs(&self) -> &[Proc]
        ensures procs { result.now ≡ self.now.procs }
        ensures keeps { KeepsRules (plain_program self.now) }
    {
        self.procs.as_slice()
    }
}
