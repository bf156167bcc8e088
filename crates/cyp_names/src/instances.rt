ghost use Rattle.std.specs.Prelude.{[], ◌≡◌, cond, flat_map, length, map};
ghost use Rattle.cyp_lex.specs.declared.fault.FaultKind.TheVariants.{WrongSort};
ghost use Rattle.cyp_term.specs.Terms.{sort_eq};
ghost use Rattle.cyp_names.specs.NameFaults.{arg_fault, arg_faults, chunk_faults, fault_at, instance_fault};
ghost use Rattle.cyp_names.specs.FaultOrder.{least_fault};
ghost use Rattle.cyp_names.specs.Uses.{param_sort, pred_named};

use crate::least::{fault, lesser};
use crate::places::int_place;
use crate::predicates::{param_sort, pred_named};
use crate::sorts::is_same_sort;
use cyp_lex::{Fault, FaultKind, Ident};
use cyp_term::Sort;
use cyp_text::{ArgTree, ChunkTree, IntTree, ParamTree, PredTree};

/// The fault of an argument at this place that is no name alone, where it isn't of the sort that is
/// wanted.
fn wanted_fault(wanted: Sort, sort: Sort, place: u32) -> Option<Fault>
    ensures { result ≡ least_fault (cond (sort_eq wanted sort) [] (fault_at WrongSort place)) }
{
    if is_same_sort(wanted, sort) {
        None
    } else {
        fault(FaultKind::WrongSort, place)
    }
}

/// The fault of a term for a set, or of a union for an integer. A name alone is judged with the
/// uses of its name.
fn arg_fault(wanted: Sort, arg: &ArgTree) -> Option<Fault>
    ensures { result ≡ least_fault (arg_fault wanted arg.now) }
{
    match arg {
        ArgTree::TermArg(IntTree::Named(_)) => None,
        ArgTree::TermArg(term) => wanted_fault(wanted, Sort::Int, int_place(term)),
        ArgTree::BracesArg(place, _, _) => wanted_fault(wanted, Sort::Set, *place),
        ArgTree::UnionArg(name, _, _) => wanted_fault(wanted, Sort::Set, name.place),
    }
}

/// The least fault of arguments beside their parameters.
fn args_fault(params: &[ParamTree], args: &[ArgTree]) -> Option<Fault>
    requires { length params.now ≡ length args.now }
    ensures { result ≡ least_fault (arg_faults (map param_sort params.now) args.now) }
{
    let mut found = None;
    for place in 0..args.len() {
        found = lesser(found, arg_fault(param_sort(&params[place]), &args[place]));
    }
    found
}

/// The least fault of an instance.
fn instance_fault(name: &Ident, args: &[ArgTree], preds: &[PredTree]) -> Option<Fault>
    ensures { result ≡ least_fault (instance_fault name.now args.now (pred_named name.now.text preds.now)) }
{
    match pred_named(name, preds) {
        None => fault(FaultKind::UnknownPredicate, name.place),
        Some(pred) if pred.params.len() == args.len() => args_fault(pred.params.as_slice(), args),
        Some(_) => fault(FaultKind::WrongArity, name.place),
    }
}

fn chunk_fault(preds: &[PredTree], chunk: &ChunkTree) -> Option<Fault>
    ensures { result ≡ least_fault (chunk_faults preds.now chunk.now) }
{
    match chunk {
        ChunkTree::InstanceOf(name, args) => instance_fault(name, args.as_slice(), preds),
        _ => None,
    }
}

/// The least fault of an instance among the chunks: no predicate of its name, another number of
/// arguments than parameters, or an argument of the other sort.
pub(crate) fn chunks_fault(preds: &[PredTree], chunks: &[ChunkTree]) -> Option<Fault>
    ensures { result ≡ least_fault (flat_map (chunk_faults preds.now) chunks.now) }
{
    let mut found = None;
    for chunk in chunks {
        found = lesser(found, chunk_fault(preds, chunk));
    }
    found
}
