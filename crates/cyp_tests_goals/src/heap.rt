ghost use Rattle.std.specs.Prelude.{[], None, ◌≡◌};
ghost use Rattle.cyp_heap.specs.Chunks.{is_cell_at};
ghost use Rattle.cyp_term.specs.TermValue.{IsTerm};
ghost use Rattle.cyp_term.specs.declared.term.Sort.TheVariants.{Card, Int};

use cyp_heap::{
    Arg, BlockAt, CellAt, Chunk, Clause, Goal, Heap, InstOf, Link, Node, Pred, Preds, Raw, TooMany,
};
use cyp_term::{Copied, IntBind, List, Lit, SetTerm, Shared, Sort, Subst, Term, TooWide, Var};
use std::alloc::Global;
use std::test::Fail;

const WIDEST: i64 = 1 << 32;

fn card(number: u8) -> Var
    ensures { result ≡ record { sort = Card; number = number } }
{
    Var {
        sort: Sort::Card,
        number,
    }
}

fn int(number: u8) -> Var
    ensures { result ≡ record { sort = Int; number = number } }
{
    Var {
        sort: Sort::Int,
        number,
    }
}

fn x_plus(offset: i64) -> Term
    requires { IsTerm None offset }
{
    Term::new(Some(int(0)), offset)
}

fn y_plus(offset: i64) -> Term
    requires { IsTerm None offset }
{
    Term::new(Some(int(1)), offset)
}

fn none<T>(alloc: Global) -> List<T>
    ensures { result ≡ [] }
{
    List::from_vec(Vec::new(alloc))
}

fn empty(alloc: Global) -> Heap
    ensures { result.chunks ≡ [] }
{
    Heap::new(none(alloc))
}

/// An instance of this predicate with one argument.
fn inst(alloc: Global, pred: u8, arg: Arg, card: Option<Var>) -> Result<Chunk, Fail> {
    let mut args = none(alloc);
    args.push(alloc, arg)?;
    Ok(Chunk::Inst(InstOf {
        pred,
        args,
        card,
        tag: 2,
    }))
}

fn block(at: Term) -> Chunk {
    Chunk::Block(BlockAt::new(at, 2))
}

fn cell(at: Term, content: Term) -> Chunk {
    Chunk::Cell(CellAt { at, content })
}

/// The substitution that binds variables to terms alone.
fn ints(alloc: Global, binds: &[(Var, Term)]) -> Result<Subst, Fail> {
    let mut ints = Vec::new(alloc);
    for (var, to) in binds {
        ints.push(IntBind { var: *var, to: *to })?;
    }
    Ok(Subst {
        ints: List::from_vec(ints),
        sets: none(alloc),
    })
}

#[test]
fn replaces_address_and_content(rt: HostRuntime) -> Result<(), Fail> {
    let alloc = rt.alloc();
    let mut heap = empty(alloc);
    heap.put(alloc, cell(x_plus(0), x_plus(0)))?;
    heap.put(alloc, block(x_plus(1)))?;
    let by = ints(alloc, &[(int(0), y_plus(0))])?;
    let mut other = empty(alloc);
    other.put(alloc, cell(y_plus(0), y_plus(0)))?;
    other.put(alloc, block(y_plus(1)))?;
    assert_eq!(rt; heap.apply(alloc, &by)?, other);
    assert!(rt; heap != other);
    Ok(())
}

#[test]
fn replaces_arguments_and_cardinality(rt: HostRuntime) -> Result<(), Fail> {
    let alloc = rt.alloc();
    let by = ints(
        alloc,
        &[(int(0), y_plus(0)), (card(0), Term::new(Some(card(1)), 0))],
    )?;
    let bound = inst(alloc, 3, Arg::Int(x_plus(1)), Some(card(0)))?;
    let free = inst(alloc, 3, Arg::Int(y_plus(1)), Some(card(1)))?;
    assert_eq!(rt; bound.apply(alloc, &by)?, free);
    assert_eq!(rt; free.apply(alloc, &by)?, free);
    let mut single = none(alloc);
    single.push(alloc, x_plus(0))?;
    let set = Arg::Set(SetTerm::new(none(alloc), single));
    let mut other = none(alloc);
    other.push(alloc, y_plus(0))?;
    assert_eq!(rt;
        set.apply(alloc, &by)?,
        Arg::Set(SetTerm::new(none(alloc), other))
    );
    let plain = inst(alloc, 3, Arg::Int(y_plus(1)), None)?;
    assert_eq!(rt; plain.apply(alloc, &by)?, plain);
    Ok(())
}

#[test]
fn refuses_an_offset_past_the_range(rt: HostRuntime) -> Result<(), Fail> {
    let alloc = rt.alloc();
    let by = ints(alloc, &[(int(0), y_plus(WIDEST))])?;
    let mut heap = empty(alloc);
    heap.put(alloc, cell(x_plus(0), y_plus(WIDEST)))?;
    assert!(rt; heap.apply(alloc, &by).is_ok());
    heap.put(alloc, inst(alloc, 0, Arg::Int(x_plus(1)), None)?)?;
    assert_eq!(rt; heap.apply(alloc, &by), Err(cyp_term::Fail::Named(TooWide)));
    Ok(())
}

#[test]
fn puts_a_chunk_after_the_last_of_its_kind(rt: HostRuntime) -> Result<(), Fail> {
    let alloc = rt.alloc();
    let mut heap = empty(alloc);
    heap.put(alloc, cell(x_plus(0), x_plus(1)))?;
    heap.put(alloc, block(x_plus(0)))?;
    heap.put(alloc, cell(x_plus(1), x_plus(2)))?;
    heap.put(alloc, inst(alloc, 0, Arg::Int(x_plus(0)), None)?)?;
    heap.put(alloc, inst(alloc, 1, Arg::Int(x_plus(0)), None)?)?;
    heap.put(alloc, block(x_plus(1)))?;
    let expected = [
        inst(alloc, 0, Arg::Int(x_plus(0)), None)?,
        inst(alloc, 1, Arg::Int(x_plus(0)), None)?,
        block(x_plus(0)),
        block(x_plus(1)),
        cell(x_plus(0), x_plus(1)),
        cell(x_plus(1), x_plus(2)),
    ];
    assert!(rt; heap.chunks() == expected.as_slice());
    Ok(())
}

#[test]
fn refuses_a_seventeenth_chunk(rt: HostRuntime) -> Result<(), Fail> {
    let alloc = rt.alloc();
    let mut heap = empty(alloc);
    for _ in 0..16 {
        heap.put(alloc, cell(x_plus(0), x_plus(0)))?;
    }
    let before = heap.copy(alloc)?;
    assert_eq!(rt;
        heap.put(alloc, block(x_plus(0))),
        Err(cyp_term::Fail::Named(TooMany))
    );
    assert_eq!(rt; heap, before);
    assert_eq!(rt; heap.into_chunks().len(), 16);
    Ok(())
}

/// The chunk at the place, taken out, or nothing where there is none.
fn taken(heap: &mut Heap, place: u8) -> Option<Chunk> {
    if heap.chunks().len() <= place as usize {
        return None;
    }
    Some(heap.remove(place))
}

#[test]
fn takes_a_chunk_out_and_closes_up(rt: HostRuntime) -> Result<(), Fail> {
    let alloc = rt.alloc();
    let mut heap = empty(alloc);
    heap.put(alloc, cell(x_plus(0), y_plus(0)))?;
    heap.put(alloc, cell(x_plus(1), y_plus(0)))?;
    heap.put(alloc, cell(x_plus(2), y_plus(0)))?;
    heap.put(alloc, block(x_plus(0)))?;
    assert_eq!(rt; taken(&mut heap, 1), Some(cell(x_plus(0), y_plus(0))));
    let expected = [
        block(x_plus(0)),
        cell(x_plus(1), y_plus(0)),
        cell(x_plus(2), y_plus(0)),
    ];
    assert!(rt; heap.chunks() == expected.as_slice());
    assert!(rt; taken(&mut heap, 3).is_none());
    Ok(())
}

fn is_cell(heap: &Heap, place: u8) -> bool
    ensures { result ≡ is_cell_at heap.now.chunks place }
{
    matches!(heap.chunks().get(place as usize), Some(Chunk::Cell(_)))
}

#[test]
fn writes_to_a_cell(rt: HostRuntime) -> Result<(), Fail> {
    let alloc = rt.alloc();
    let mut heap = empty(alloc);
    heap.put(alloc, block(x_plus(0)))?;
    heap.put(alloc, cell(x_plus(0), y_plus(0)))?;
    heap.put(alloc, cell(x_plus(1), y_plus(1)))?;
    assert!(rt; !is_cell(&heap, 0));
    assert!(rt; !is_cell(&heap, 3));
    assert!(rt; is_cell(&heap, 1));
    heap.rewrite(1, x_plus(7));
    let expected = [
        block(x_plus(0)),
        cell(x_plus(0), x_plus(7)),
        cell(x_plus(1), y_plus(1)),
    ];
    assert!(rt; heap.chunks() == expected.as_slice());
    Ok(())
}

fn goal(alloc: Global) -> Goal
    ensures { result ≡ record { program = []; exist = []; pure_pre = []; pre = record { chunks = [] }; pure_post = []; post = record { chunks = [] } } }
{
    Goal {
        program: none(alloc),
        exist: none(alloc),
        pure_pre: none(alloc),
        pre: empty(alloc),
        pure_post: none(alloc),
        post: empty(alloc),
    }
}

fn no_preds(alloc: Global) -> Preds
    ensures { result.list ≡ [] }
{
    Preds::new(none(alloc))
}

fn clause(alloc: Global) -> Result<Clause, Fail> {
    let mut lits = none(alloc);
    lits.push(alloc, Lit::Le(x_plus(0), y_plus(0)))?;
    let mut heap = empty(alloc);
    heap.put(alloc, cell(x_plus(0), y_plus(0)))?;
    Ok(Clause {
        guard: Lit::Ne(x_plus(0), Term::new(None, 0)),
        lits,
        heap,
        ints: 2,
        sets: 1,
    })
}

#[test]
fn copies_predicates(rt: HostRuntime) -> Result<(), Fail> {
    let alloc = rt.alloc();
    let mut clauses = none(alloc);
    clauses.push(alloc, clause(alloc)?)?;
    let mut params = none(alloc);
    params.push(alloc, Sort::Int)?;
    let mut pred = Pred {
        name: List::from_vec(Vec::from_slice(alloc, b"list")?),
        params,
        clauses,
    };
    let same = pred.copy(alloc)?;
    assert_eq!(rt; same, pred);
    pred.params.push(alloc, Sort::Set)?;
    assert!(rt; same != pred);
    let preds = no_preds(alloc);
    assert_eq!(rt; preds.copy(alloc)?, preds);
    assert!(rt; preds.list().is_empty());
    Ok(())
}

#[test]
fn copies_nodes(rt: HostRuntime) -> Result<(), Fail> {
    let alloc = rt.alloc();
    let preds = Shared::new(alloc, no_preds(alloc))?;
    let raw = Raw::new(preds.copy(alloc)?, goal(alloc), none(alloc));
    assert_eq!(rt; raw.copy(alloc)?, raw);
    assert!(rt; raw.preds().get().list().is_empty());
    assert_eq!(rt; raw.goal().program.len() + raw.links().len(), 0);
    let (preds, goal, links) = raw.into_parts();
    let node = Node::new(preds, goal, links);
    assert_eq!(rt; node.copy(alloc)?, node);
    assert!(rt; node.preds().get().list().is_empty());
    assert_eq!(rt; node.goal().exist.len() + node.links().len(), 0);
    let (_preds, mut goal, _links) = node.into_parts();
    let before = goal.copy(alloc)?;
    goal.exist.push(alloc, int(0))?;
    assert!(rt; goal != before);
    Ok(())
}

#[test]
fn copies_companions(rt: HostRuntime) -> Result<(), Fail> {
    let alloc = rt.alloc();
    let mut link = Link {
        goal: Shared::new(alloc, goal(alloc))?,
        own: none(alloc),
        map: ints(alloc, &[(int(0), y_plus(1))])?,
        tuple: none(alloc),
    };
    link.own.push(alloc, x_plus(0))?;
    link.tuple.push(alloc, y_plus(1))?;
    let same = link.copy(alloc)?;
    assert_eq!(rt; same, link);
    link.map.ints.push(
        alloc,
        IntBind {
            var: int(1),
            to: y_plus(0),
        },
    )?;
    assert!(rt; same != link);
    Ok(())
}
