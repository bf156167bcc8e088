ghost use Rattle.std.specs.Prelude.{◌≡◌, ◌++◌, List};
ghost use Rattle.std.specs.List.{flat_map};
ghost use Rattle.cyp_heap.specs.Chunks.{arg_vars, chunk_vars};
ghost use Rattle.cyp_term.specs.Terms.{lit_vars, set_vars, term_vars, var_eq, with_all_new};
ghost use Rattle.cyp_term.specs.declared.term.Var.{Var as TheVar};

use crate::var_table::VarTable;
use cyp_heap::{Arg, Chunk};
use cyp_term::{IntBind, Lit, SetBind, SetTerm, Term, Var};

/// What variables occur in.
pub(crate) trait Occurs {
    ghost occurring: { Self → List TheVar };

    /// Adds the variables that aren't in the table yet, in the order in which they are written.
    fn add_to(&self, table: &mut VarTable)
        ensures { table.new ≡ with_all_new var_eq table.old (occurring self.now) };
}

/// Adds the variables of each item in turn.
pub(crate) fn add_all<T: Occurs>(items: &[T], table: &mut VarTable)
    ensures { table.new ≡ with_all_new var_eq table.old (flat_map T.occurring items.now) }
{
    for item in items {
        item.add_to(table);
    }
}

fn add_both<A: Occurs, B: Occurs>(a: &A, b: &B, table: &mut VarTable)
    ensures { table.new ≡ with_all_new var_eq table.old (A.occurring a.now ++ B.occurring b.now) }
{
    a.add_to(table);
    b.add_to(table);
}

impl Occurs for Var {
    ghost use Rattle.std.specs.Prelude.{[], ◌∷◌};

    ghost occurring = { λ v. v ∷ [] };

    fn add_to(&self, table: &mut VarTable) {
        table.add(*self);
    }
}

impl Occurs for Term {
    ghost occurring = { term_vars };

    fn add_to(&self, table: &mut VarTable) {
        if let Some(var) = self.base() {
            table.add(var);
        }
    }
}

impl Occurs for SetTerm {
    ghost occurring = { set_vars };

    fn add_to(&self, table: &mut VarTable) {
        add_all(self.vars(), table);
        add_all(self.elems(), table);
    }
}

impl Occurs for Lit {
    ghost occurring = { lit_vars };

    fn add_to(&self, table: &mut VarTable) {
        match self {
            Lit::Eq(a, b) | Lit::Ne(a, b) | Lit::Le(a, b) | Lit::Lt(a, b) => {
                add_both(a, b, table)
            }
            Lit::Member(a, b) | Lit::NotMember(a, b) => add_both(a, b, table),
            Lit::Same(a, b) | Lit::NotSame(a, b) | Lit::Sub(a, b) | Lit::NotSub(a, b) => {
                add_both(a, b, table)
            }
        }
    }
}

impl Occurs for Arg {
    ghost occurring = { arg_vars };

    fn add_to(&self, table: &mut VarTable) {
        match self {
            Arg::Int(term) => term.add_to(table),
            Arg::Set(set) => set.add_to(table),
        }
    }
}

impl Occurs for Chunk {
    ghost occurring = { chunk_vars };

    fn add_to(&self, table: &mut VarTable) {
        match self {
            Chunk::Inst(inst) => {
                add_all(inst.args.as_slice(), table);
                if let Some(card) = inst.card {
                    table.add(card);
                }
            }
            Chunk::Block(block) => block.at().add_to(table),
            Chunk::Cell(cell) => add_both(&cell.at, &cell.content, table),
        }
    }
}

impl Occurs for IntBind {
    ghost occurring = { λ b. term_vars b.to };

    fn add_to(&self, table: &mut VarTable) {
        self.to.add_to(table);
    }
}

impl Occurs for SetBind {
    ghost occurring = { λ b. set_vars b.to };

    fn add_to(&self, table: &mut VarTable) {
        self.to.add_to(table);
    }
}
