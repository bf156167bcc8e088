ghost use Rattle.std.specs.Prelude.{◌≡◌, ◌<◌, ◌≤◌, [], IfOk, IsTrue, OnOk, length};
ghost use Rattle.cyp_term.specs.Integers.{is_int_lit};
ghost use Rattle.cyp_term.specs.Terms.{lit_vars, term_vars, var_eq, with_all_new, with_new};
ghost use Rattle.cyp_diff.specs.Places.{base_place, sort_number, table_place, var_place};
ghost use Rattle.cyp_diff.specs.Solving.{AreInts, variables};

use cyp_term::{Lit, NoMemory, Sort, Term, Var};
use std::alloc::Global;
use std::marker::Model;

const SIZE: usize = 768;

/// Variables in an order, and a table of their places: 0 for a variable that isn't there, and else one more than its index.
/// Contracts see the variables.
#[derive(Drop)]
pub(crate) struct VarTable {
    vars: Vec<Var>,
    places: [usize; SIZE],
}

impl Model for VarTable {
    ghost use Rattle.std.specs.Prelude.{List};
    ghost use Rattle.cyp_term.specs.declared.term.Var.{Var};
    ghost use Rattle.cyp_diff.specs.Places.{TellsPlaces};

    ghost Value = { List Var };

    ghost view = { λ t. t.vars.items };

    ghost invariant = { λ t. TellsPlaces t.vars.items t.places };
}

fn number_of_sort(sort: Sort) -> usize
    ensures { result ≡ sort_number sort }
{
    match sort {
        Sort::Int => 0,
        Sort::Card => 1,
        Sort::Set => 2,
    }
}

fn place_in_table(var: Var) -> usize
    ensures value { result ≡ table_place var }
    ensures within { result < 768 }
{
    256 * number_of_sort(var.sort) + var.number as usize
}

impl VarTable {
    fn new(alloc: Global) -> VarTable
        ensures { result ≡ [] }
    {
        VarTable {
            vars: Vec::new(alloc),
            places: [0; SIZE],
        }
    }

    fn add(&mut self, var: Var) -> Result<(), NoMemory>
        ensures { OnOk result (self.new ≡ with_new var_eq self.old var) }
    {
        let k = place_in_table(var);
        if self.places[k] == 0 {
            self.vars.push(var)?;
            self.places[k] = self.vars.len();
        }
        Ok(())
    }

    fn add_base(&mut self, term: &Term) -> Result<(), NoMemory>
        ensures { OnOk result (self.new ≡ with_all_new var_eq self.old (term_vars term.now)) }
    {
        match term.base() {
            Some(var) => self.add(var),
            None => Ok(()),
        }
    }

    fn add_both(&mut self, lit: &Lit) -> Result<(), NoMemory>
        requires { IsTrue (is_int_lit lit.now) }
        ensures { OnOk result (self.new ≡ with_all_new var_eq self.old (lit_vars lit.now)) }
    {
        match lit {
            Lit::Eq(a, b) | Lit::Ne(a, b) | Lit::Le(a, b) | Lit::Lt(a, b) => {
                self.add_base(a)?;
                self.add_base(b)
            }
            _ => unreachable!(),
        }
    }

    /// How many variables there are.
    pub(crate) fn len(&self) -> usize
        ensures { result ≡ length self.now }
    {
        self.vars.len()
    }

    /// The variables in their order.
    pub(crate) fn as_slice(&self) -> &[Var]
        ensures { result.now ≡ self.now }
    {
        self.vars.as_slice()
    }
}

/// The variables of the literals with their places, in order of first occurrence.
pub(crate) fn table_of(alloc: Global, lits: &[Lit]) -> Result<VarTable, NoMemory>
    requires { AreInts lits.now }
    ensures { IfOk result (λ vs. vs ≡ variables lits.now) }
{
    let mut vars = VarTable::new(alloc);
    for lit in lits {
        vars.add_both(lit)?;
    }
    Ok(vars)
}

/// The variables of the literals, in order of first occurrence.
pub fn variables_of(alloc: Global, lits: &[Lit]) -> Result<Vec<Var>, NoMemory>
    requires { AreInts lits.now }
    ensures { IfOk result (λ vs. vs.items ≡ variables lits.now) }
{
    let VarTable { vars, .. } = table_of(alloc, lits)?;
    Ok(vars)
}

/// The place of the term's base: 0 without one, and else one more than the variable's index.
pub(crate) fn place(vars: &VarTable, term: &Term) -> u8
    requires { length vars.now ≤ 32 }
    ensures { result ≡ base_place vars.now term.now.base }
{
    match term.base() {
        Some(var) => vars.places[place_in_table(var)] as u8,
        None => 0,
    }
}
