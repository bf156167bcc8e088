//! A clause's variables bound: its parameters to arguments, its own to new ones.

ghost use Rattle.std.specs.Prelude.{IfOk, OnOk, [], length, map, ◌+◌, ◌++◌, ◌<◌, ◌∷◌, ◌≡◌, ◌≤◌};
ghost use Rattle.cyp_pred.specs.Unfold.{bind_ints, bind_sets, clause_subst, int_args, new_ints, new_sets, own_ints, own_sets, set_args};
ghost use Rattle.cyp_term.specs.Terms.{set_var, var_term};
ghost use Rattle.cyp_term.specs.declared.term.Sort.TheVariants.{Int, Set};

use crate::unfolded::Next;
use cyp_heap::{Arg, Clause};
use cyp_term::{Copied, IntBind, List, NoMemory, SetBind, SetTerm, Sort, Subst, Term, Var};
use std::alloc::Global;

fn int_bind(number: u8, to: Term) -> IntBind
    ensures { result ≡ record { var = record { sort = Int; number = number }; to = to } }
{
    let sort = Sort::Int;
    IntBind {
        var: Var { sort, number },
        to,
    }
}

fn set_bind(number: u8, to: SetTerm) -> SetBind
    ensures { result ≡ record { var = record { sort = Set; number = number }; to = to } }
{
    let sort = Sort::Set;
    SetBind {
        var: Var { sort, number },
        to,
    }
}

/// How many integers the argument is, one or none.
fn ints_of(arg: &Arg) -> u8
    ensures value { result ≡ length (int_args (arg.now ∷ [])) }
    ensures most { result ≤ 1 }
{
    match arg {
        Arg::Int(_) => 1,
        Arg::Set(_) => 0,
    }
}

/// How many sets the argument is, one or none.
fn sets_of(arg: &Arg) -> u8
    ensures value { result ≡ length (set_args (arg.now ∷ [])) }
    ensures most { result ≤ 1 }
{
    match arg {
        Arg::Int(_) => 0,
        Arg::Set(_) => 1,
    }
}

/// Binds the variable with this number to the argument, if it is an integer.
fn add_int(binds: &mut Vec<IntBind>, number: u8, arg: &Arg) -> Result<(), NoMemory>
    ensures { OnOk result (binds.new.items ≡ binds.old.items ++ bind_ints number (int_args (arg.now ∷ []))) }
{
    match arg {
        Arg::Int(term) => {
            binds.push(int_bind(number, *term))?;
            Ok(())
        }
        Arg::Set(_) => Ok(()),
    }
}

/// Binds the set variable with this number to the argument, if it is a set.
fn add_set(alloc: Global, binds: &mut Vec<SetBind>, number: u8, arg: &Arg) -> Result<(), NoMemory>
    ensures { OnOk result (binds.new.items ≡ binds.old.items ++ bind_sets number (set_args (arg.now ∷ []))) }
{
    match arg {
        Arg::Int(_) => Ok(()),
        Arg::Set(set) => {
            let to = set.copy(alloc)?;
            binds.push(set_bind(number, to))?;
            Ok(())
        }
    }
}

/// The first variables, bound to the integer arguments in order.
fn bound_ints(alloc: Global, args: &[Arg]) -> Result<Vec<IntBind>, NoMemory>
    requires { length args.now ≤ 8 }
    ensures { IfOk result (λ bs. bs.items ≡ bind_ints 0 (int_args args.now)) }
{
    let mut binds = Vec::new(alloc);
    let mut number = 0;
    for arg in args {
        add_int(&mut binds, number, arg)?;
        number += ints_of(arg);
    }
    Ok(binds)
}

/// The first set variables, bound to the set arguments in order.
fn bound_sets(alloc: Global, args: &[Arg]) -> Result<Vec<SetBind>, NoMemory>
    requires { length args.now ≤ 8 }
    ensures { IfOk result (λ bs. bs.items ≡ bind_sets 0 (set_args args.now)) }
{
    let mut binds = Vec::new(alloc);
    let mut number = 0;
    for arg in args {
        add_set(alloc, &mut binds, number, arg)?;
        number += sets_of(arg);
    }
    Ok(binds)
}

/// The integer variable with this number as a term.
fn int_term(number: u8) -> Term
    ensures { result ≡ var_term (record { sort = Int; number = number }) }
{
    let sort = Sort::Int;
    Term::new(Some(Var { sort, number }), 0)
}

/// The set variable with this number as a set term.
fn set_term(alloc: Global, number: u8) -> Result<SetTerm, NoMemory>
    ensures { IfOk result (λ u. u ≡ set_var (record { sort = Set; number = number })) }
{
    let sort = Sort::Set;
    let vars = vec![in alloc; Var { sort, number }]?;
    let elems = Vec::new(alloc);
    Ok(SetTerm::new(List::from_vec(vars), List::from_vec(elems)))
}

/// Binds the next variables to this many new ones.
fn add_new_ints(binds: &mut Vec<IntBind>, number: u8, first: u8, count: u8) -> Result<(), NoMemory>
    requires numbers { number + count < 256 }
    requires new { first + count < 256 }
    ensures { OnOk result (binds.new.items ≡ binds.old.items ++ bind_ints number (map var_term (new_ints first count))) }
{
    for k in 0..count {
        binds.push(int_bind(number + k, int_term(first + k)))?;
    }
    Ok(())
}

/// Binds the next set variables to this many new ones.
fn add_new_sets(
    alloc: Global,
    binds: &mut Vec<SetBind>,
    number: u8,
    first: u8,
    count: u8,
) -> Result<(), NoMemory>
    requires numbers { number + count < 256 }
    requires new { first + count < 256 }
    ensures { OnOk result (binds.new.items ≡ binds.old.items ++ bind_sets number (map set_var (new_sets first count))) }
{
    for k in 0..count {
        let to = set_term(alloc, first + k)?;
        binds.push(set_bind(number + k, to))?;
    }
    Ok(())
}

/// How many of the arguments are integers.
fn count_ints(args: &[Arg]) -> u8
    requires { length args.now ≤ 8 }
    ensures value { result ≡ length (int_args args.now) }
    ensures most { result ≤ 8 }
{
    let mut count = 0;
    for arg in args {
        count += ints_of(arg);
    }
    count
}

/// How many of the arguments are sets.
fn count_sets(args: &[Arg]) -> u8
    requires { length args.now ≤ 8 }
    ensures value { result ≡ length (set_args args.now) }
    ensures most { result ≤ 8 }
{
    let mut count = 0;
    for arg in args {
        count += sets_of(arg);
    }
    count
}

/// How many of the clause's integer variables are no parameters.
pub(crate) fn own_ints(args: &[Arg], clause: &Clause) -> u8
    requires { length args.now ≤ 8 }
    ensures value { result ≡ own_ints args.now clause.now }
    ensures fits { result + length (int_args args.now) < 256 }
{
    clause.ints.saturating_sub(count_ints(args))
}

/// How many of the clause's set variables are no parameters.
pub(crate) fn own_sets(args: &[Arg], clause: &Clause) -> u8
    requires { length args.now ≤ 8 }
    ensures value { result ≡ own_sets args.now clause.now }
    ensures fits { result + length (set_args args.now) < 256 }
{
    clause.sets.saturating_sub(count_sets(args))
}

fn all_ints(
    alloc: Global,
    args: &[Arg],
    clause: &Clause,
    next: Next,
) -> Result<List<IntBind>, NoMemory>
    requires few { length args.now ≤ 8 }
    requires numbers { next.ints + own_ints args.now clause.now < 256 }
    ensures { IfOk result (λ bs. bs ≡ bind_ints 0 (int_args args.now ++ map var_term (new_ints next.ints (own_ints args.now clause.now)))) }
{
    let mut binds = bound_ints(alloc, args)?;
    let number = count_ints(args);
    add_new_ints(&mut binds, number, next.ints, own_ints(args, clause))?;
    Ok(List::from_vec(binds))
}

fn all_sets(
    alloc: Global,
    args: &[Arg],
    clause: &Clause,
    next: Next,
) -> Result<List<SetBind>, NoMemory>
    requires few { length args.now ≤ 8 }
    requires numbers { next.sets + own_sets args.now clause.now < 256 }
    ensures { IfOk result (λ bs. bs ≡ bind_sets 0 (set_args args.now ++ map set_var (new_sets next.sets (own_sets args.now clause.now)))) }
{
    let mut binds = bound_sets(alloc, args)?;
    let number = count_sets(args);
    add_new_sets(alloc, &mut binds, number, next.sets, own_sets(args, clause))?;
    Ok(List::from_vec(binds))
}

/// The clause's parameters to the arguments, and its own variables to new ones.
pub(crate) fn clause_subst(
    alloc: Global,
    args: &[Arg],
    clause: &Clause,
    next: Next,
) -> Result<Subst, NoMemory>
    requires few { length args.now ≤ 8 }
    requires ints { next.ints + own_ints args.now clause.now < 256 }
    requires sets { next.sets + own_sets args.now clause.now < 256 }
    ensures { IfOk result (λ by. by ≡ clause_subst args.now clause.now next) }
{
    let ints = all_ints(alloc, args, clause, next)?;
    let sets = all_sets(alloc, args, clause, next)?;
    Ok(Subst { ints, sets })
}
