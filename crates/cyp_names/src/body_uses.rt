ghost use Rattle.std.specs.Prelude.{◌≡◌, ◌++◌, OnOk, flat_map, map, slice_get};
ghost use Rattle.cyp_names.specs.Orders.{body_in, chunk_of_kind, chunks_in, item_uses, lit_in, parts_in, takes_chunk, term_arg_uses};
ghost use Rattle.cyp_names.specs.Bodies.{is_block, is_cell, is_instance, pure_lits};
ghost use Rattle.cyp_names.specs.Uses.{arg_uses, args_uses, chunk_uses, param_sort, param_uses};

use crate::predicates::{param_sort, params_of};
use crate::uses::{NamedUse, Order, Union, add_int, add_literal, add_union};
use cyp_term::{NoMemory, Sort};
use cyp_text::{
    ArgTree, BodyTree, ChunkTree, Conjunction, IntTree, ItemTree, ParamTree, PredTree, PureTree,
};

/// Which chunks are walked over.
#[derive(Clone, Copy, Debug, PartialEq, Eq)]
pub(crate) enum ChunkKinds {
    AllKinds,
    Instances,
    Blocks,
    Cells,
}

/// Adds the declarations of the parameters.
pub(crate) fn add_params<'a>(
    uses: &mut Vec<NamedUse<'a>>,
    params: &'a [ParamTree],
) -> Result<(), NoMemory>
    ensures { OnOk result (uses.new.items ≡ uses.old.items ++ param_uses params.now) }
{
    for param in params {
        uses.push(NamedUse::new(&param.name, param_sort(param)))?;
    }
    Ok(())
}

/// Adds the name in a term that is an argument. A name alone has the sort of its parameter, if that
/// is known.
fn add_term_arg<'a>(
    uses: &mut Vec<NamedUse<'a>>,
    sort: Option<Sort>,
    term: &'a IntTree,
) -> Result<(), NoMemory>
    ensures { OnOk result (uses.new.items ≡ uses.old.items ++ term_arg_uses sort term.now) }
{
    match term {
        IntTree::Named(name) => {
            if let Some(sort) = sort {
                uses.push(NamedUse::new(name, sort))?;
            }
            Ok(())
        }
        _ => add_int(uses, term),
    }
}

/// Adds the names in an argument whose parameter has this sort, if that is known.
fn add_arg<'a>(
    uses: &mut Vec<NamedUse<'a>>,
    order: Order,
    sort: Option<Sort>,
    arg: &'a ArgTree,
) -> Result<(), NoMemory>
    ensures { OnOk result (uses.new.items ≡ uses.old.items ++ arg_uses (parts_in order) sort arg.now) }
{
    match arg {
        ArgTree::TermArg(term) => add_term_arg(uses, sort, term),
        ArgTree::BracesArg(place, terms, parts) => {
            add_union(uses, order, &Union::OfBraces(*place, terms, parts))
        }
        ArgTree::UnionArg(name, second, parts) => {
            add_union(uses, order, &Union::OfName(name, second.get(), parts))
        }
    }
}

/// The sort of the parameter at this place, if there is one.
fn sort_at(params: &[ParamTree], place: usize) -> Option<Sort>
    ensures { result ≡ slice_get (map param_sort params.now) place }
{
    if place < params.len() {
        Some(param_sort(&params[place]))
    } else {
        None
    }
}

/// Adds the names in the arguments of an instance whose predicate has these parameters, as far as
/// they are known.
fn add_args<'a>(
    uses: &mut Vec<NamedUse<'a>>,
    order: Order,
    params: &[ParamTree],
    args: &'a [ArgTree],
) -> Result<(), NoMemory>
    ensures { OnOk result (uses.new.items ≡ uses.old.items ++ args_uses (parts_in order) (map param_sort params.now) args.now) }
{
    for place in 0..args.len() {
        add_arg(uses, order, sort_at(params, place), &args[place])?;
    }
    Ok(())
}

/// Adds the names in a chunk.
fn add_chunk<'a>(
    uses: &mut Vec<NamedUse<'a>>,
    order: Order,
    preds: &[PredTree],
    chunk: &'a ChunkTree,
) -> Result<(), NoMemory>
    ensures { OnOk result (uses.new.items ≡ uses.old.items ++ chunk_uses (parts_in order) preds.now chunk.now) }
{
    match chunk {
        ChunkTree::NamedCell(name, content) => {
            uses.push(NamedUse::new(name, Sort::Int))?;
            add_int(uses, content)
        }
        ChunkTree::TermCell(address, content) => {
            add_int(uses, address)?;
            add_int(uses, content)
        }
        ChunkTree::BlockOf(address, _, _) => add_int(uses, address),
        ChunkTree::InstanceOf(name, args) => {
            let params = params_of(name, args.len(), preds);
            add_args(uses, order, params, args.as_slice())
        }
    }
}

impl ChunkKinds {
    /// Whether a chunk is of the kind.
    fn takes(self, chunk: &ChunkTree) -> bool
        ensures { result ≡ takes_chunk self chunk.now }
    {
        match self {
            ChunkKinds::AllKinds => true,
            ChunkKinds::Instances => is_instance(chunk),
            ChunkKinds::Blocks => is_block(chunk),
            ChunkKinds::Cells => is_cell(chunk),
        }
    }
}

fn is_instance(chunk: &ChunkTree) -> bool
    ensures { result ≡ is_instance chunk.now }
{
    match chunk {
        ChunkTree::InstanceOf(_, _) => true,
        _ => false,
    }
}

fn is_block(chunk: &ChunkTree) -> bool
    ensures { result ≡ is_block chunk.now }
{
    match chunk {
        ChunkTree::BlockOf(_, _, _) => true,
        _ => false,
    }
}

fn is_cell(chunk: &ChunkTree) -> bool
    ensures { result ≡ is_cell chunk.now }
{
    match chunk {
        ChunkTree::NamedCell(_, _) | ChunkTree::TermCell(_, _) => true,
        _ => false,
    }
}

fn add_chunk_of_kind<'a>(
    uses: &mut Vec<NamedUse<'a>>,
    kinds: ChunkKinds,
    order: Order,
    preds: &[PredTree],
    chunk: &'a ChunkTree,
) -> Result<(), NoMemory>
    ensures { OnOk result (uses.new.items ≡ uses.old.items ++ chunk_of_kind kinds order preds.now chunk.now) }
{
    if kinds.takes(chunk) {
        add_chunk(uses, order, preds, chunk)?;
    }
    Ok(())
}

/// Adds the names in those chunks that are of the kind.
fn add_chunks<'a>(
    uses: &mut Vec<NamedUse<'a>>,
    kinds: ChunkKinds,
    order: Order,
    preds: &[PredTree],
    chunks: &'a [ChunkTree],
) -> Result<(), NoMemory>
    ensures { OnOk result (uses.new.items ≡ uses.old.items ++ flat_map (chunk_of_kind kinds order preds.now) chunks.now) }
{
    for chunk in chunks {
        add_chunk_of_kind(uses, kinds, order, preds, chunk)?;
    }
    Ok(())
}

/// Adds the names in chunks, in the order of the text or by kinds.
fn add_heap<'a>(
    uses: &mut Vec<NamedUse<'a>>,
    order: Order,
    preds: &[PredTree],
    chunks: &'a [ChunkTree],
) -> Result<(), NoMemory>
    ensures { OnOk result (uses.new.items ≡ uses.old.items ++ flat_map (chunk_uses (parts_in order) preds.now) (chunks_in order chunks.now)) }
{
    match order {
        Order::OfText => add_chunks(uses, ChunkKinds::AllKinds, order, preds, chunks),
        Order::AsKept => {
            add_chunks(uses, ChunkKinds::Instances, order, preds, chunks)?;
            add_chunks(uses, ChunkKinds::Blocks, order, preds, chunks)?;
            add_chunks(uses, ChunkKinds::Cells, order, preds, chunks)
        }
    }
}

fn add_item<'a>(
    uses: &mut Vec<NamedUse<'a>>,
    order: Order,
    item: &'a ItemTree,
) -> Result<(), NoMemory>
    ensures { OnOk result (uses.new.items ≡ uses.old.items ++ item_uses order item.now) }
{
    match item {
        ItemTree::TrueItem => Ok(()),
        ItemTree::LitItem(literal) => add_literal(uses, order, literal),
    }
}

fn add_items<'a>(
    uses: &mut Vec<NamedUse<'a>>,
    order: Order,
    items: &'a [(Conjunction, ItemTree)],
) -> Result<(), NoMemory>
    ensures { OnOk result (uses.new.items ≡ uses.old.items ++ flat_map (λ p. item_uses order p.1) items.now) }
{
    for item in items {
        add_item(uses, order, &item.1)?;
    }
    Ok(())
}

/// Adds the names in the literals of a pure part.
fn add_pure<'a>(
    uses: &mut Vec<NamedUse<'a>>,
    order: Order,
    pure: &'a PureTree,
) -> Result<(), NoMemory>
    ensures { OnOk result (uses.new.items ≡ uses.old.items ++ flat_map (lit_in order) (pure_lits pure.now)) }
{
    match pure {
        PureTree::NoItems => Ok(()),
        PureTree::Items(first, others) => {
            add_item(uses, order, first.get())?;
            add_items(uses, order, others.as_slice())
        }
    }
}

/// Adds the names in a body: its literals, then its chunks.
pub(crate) fn add_body<'a>(
    uses: &mut Vec<NamedUse<'a>>,
    order: Order,
    preds: &[PredTree],
    body: &'a BodyTree,
) -> Result<(), NoMemory>
    ensures { OnOk result (uses.new.items ≡ uses.old.items ++ body_in order preds.now body.now) }
{
    add_pure(uses, order, &body.pure)?;
    add_heap(uses, order, preds, body.chunks.as_slice())
}
