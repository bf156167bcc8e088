ghost use Rattle.std.specs.Prelude.{◌≡◌, [], Bool, IfOk, IsTrue, List, OnOk, map, true};
ghost use Rattle.std.specs.List.{flat_map, list_all};
ghost use Rattle.cyp_goal.specs.Named.{GoalFits, PartsFit, link_vars, named, named_goal, no_set, parts_fit};
ghost use Rattle.cyp_goal.specs.Numbering.{numbering, renumber};
ghost use Rattle.cyp_goal.specs.Raw.{arg_fits, link_fits, lit_fits, set_fits, term_fits};
ghost use Rattle.cyp_heap.specs.Chunks.{apply_arg, apply_card, apply_chunk, apply_heap};
ghost use Rattle.cyp_heap.specs.declared.chunk.Chunk.TheVariants.{Inst};
ghost use Rattle.cyp_heap.specs.Goals.{apply_bind, apply_goal, apply_link, apply_set_bind, node_vars};
ghost use Rattle.cyp_term.specs.SetTermValue.{AllSets};
ghost use Rattle.cyp_term.specs.Terms.{apply_lit, apply_set, apply_term, is_set_var, term_eq, var_eq, var_in, with_all_new, without_repeats};
ghost use Rattle.cyp_term.specs.declared.term.Sort.TheVariants.{Set};
ghost use Rattle.cyp_term.specs.declared.term.Var.{Var as TheVar};

use crate::draft::Draft;
use crate::occurs::add_all;
use crate::once::add_var;
use crate::var_table::VarTable;
use cyp_heap::{Arg, CellAt, Chunk, Goal, Heap, InstOf, Link};
use cyp_term::{IntBind, List, Lit, NoMemory, SetBind, SetTerm, Sort, Subst, Term, Var, each_once};
use std::alloc::Global;

/// What is numbered anew. Each variable in it has the sort of its place.
pub(crate) trait Rename {
    ghost numbered: { List TheVar → Self → Self };

    ghost fits: { Self → Bool };

    /// The same with the new names of the variables in the table.
    fn renamed(&self, alloc: Global, names: &VarTable) -> Result<Self, NoMemory>
        ensures renamed { IfOk result (λ x. x ≡ numbered names.now self.now) }
        ensures sorted { OnOk result (fits self.now ≡ true) };
}

/// The items with the new names of their variables.
pub(crate) fn rename_all<T: Rename + Drop>(
    alloc: Global,
    mut items: List<T>,
    names: &VarTable,
) -> Result<List<T>, NoMemory>
    ensures renamed { IfOk result (λ xs. xs ≡ map (T.numbered names.now) items) }
    ensures sorted { OnOk result (list_all T.fits items ≡ true) }
{
    for place in 0..items.len() {
        let item = items.as_slice()[place].renamed(alloc, names)?;
        let _old = items.set(place, item);
    }
    Ok(items)
}

/// The items with the new names of their variables, as a new list.
fn renamed_items<T: Rename + Drop>(
    alloc: Global,
    items: &[T],
    names: &VarTable,
) -> Result<List<T>, NoMemory>
    ensures renamed { IfOk result (λ xs. xs ≡ map (T.numbered names.now) items.now) }
    ensures sorted { OnOk result (list_all T.fits items.now ≡ true) }
{
    let mut renamed = Vec::with_capacity(alloc, items.len())?;
    for item in items {
        renamed.push(item.renamed(alloc, names)?)?;
    }
    Ok(List::from_vec(renamed))
}

/// The variable of the same sort that is numbered by its place in the table, or the variable
/// itself where it isn't there.
fn new_var(var: Var, names: &VarTable) -> Var
    ensures named { result ≡ named names.now var }
    ensures sort { result.sort ≡ var.sort }
{
    match names.rank(var) {
        Some(number) => Var {
            sort: var.sort,
            number,
        },
        None => var,
    }
}

fn renamed_term(term: Term, names: &VarTable) -> Term
    ensures renamed { result ≡ apply_term (numbering names.now) term }
    ensures sorted { term_fits no_set term ≡ true }
{
    match term.base() {
        Some(var) => Term::new(Some(new_var(var, names)), term.offset()),
        None => term,
    }
}

impl Rename for Term {
    ghost numbered = { λ vs. apply_term (numbering vs) };

    ghost fits = { term_fits no_set };

    fn renamed(&self, _alloc: Global, names: &VarTable) -> Result<Term, NoMemory> {
        Ok(renamed_term(*self, names))
    }
}

fn renamed_vars(alloc: Global, vars: &[Var], names: &VarTable) -> Result<List<Var>, NoMemory>
    requires { AllSets vars.now }
    ensures vars { IfOk result (λ vs. vs ≡ without_repeats var_eq (map (named names.now) vars.now)) }
    ensures sorts { IfOk result AllSets }
{
    let mut renamed = Vec::with_capacity(alloc, vars.len())?;
    for var in vars {
        add_var(&mut renamed, new_var(*var, names))?;
    }
    Ok(List::from_vec(renamed))
}

fn renamed_elems(alloc: Global, elems: &[Term], names: &VarTable) -> Result<List<Term>, NoMemory>
    ensures elems { IfOk result (λ ts. ts ≡ without_repeats term_eq (map (apply_term (numbering names.now)) elems.now)) }
    ensures sorted { OnOk result (list_all (term_fits no_set) elems.now ≡ true) }
{
    let renamed = renamed_items(alloc, elems, names)?;
    each_once(alloc, renamed)
}

impl Rename for SetTerm {
    ghost numbered = { λ vs. apply_set (numbering vs) };

    ghost fits = { set_fits no_set is_set_var };

    fn renamed(&self, alloc: Global, names: &VarTable) -> Result<SetTerm, NoMemory> {
        let vars = renamed_vars(alloc, self.vars(), names)?;
        let elems = renamed_elems(alloc, self.elems(), names)?;
        Ok(SetTerm::new(vars, elems))
    }
}

impl Rename for Lit {
    ghost numbered = { λ vs. apply_lit (numbering vs) };

    ghost fits = { lit_fits no_set is_set_var };

    fn renamed(&self, alloc: Global, names: &VarTable) -> Result<Lit, NoMemory> {
        match self {
            Lit::Eq(a, b) => Ok(Lit::Eq(renamed_term(*a, names), renamed_term(*b, names))),
            Lit::Ne(a, b) => Ok(Lit::Ne(renamed_term(*a, names), renamed_term(*b, names))),
            Lit::Le(a, b) => Ok(Lit::Le(renamed_term(*a, names), renamed_term(*b, names))),
            Lit::Lt(a, b) => Ok(Lit::Lt(renamed_term(*a, names), renamed_term(*b, names))),
            Lit::Same(a, b) => Ok(Lit::Same(a.renamed(alloc, names)?, b.renamed(alloc, names)?)),
            Lit::NotSame(a, b) => {
                Ok(Lit::NotSame(a.renamed(alloc, names)?, b.renamed(alloc, names)?))
            }
            Lit::Member(a, b) => {
                Ok(Lit::Member(renamed_term(*a, names), b.renamed(alloc, names)?))
            }
            Lit::NotMember(a, b) => {
                Ok(Lit::NotMember(renamed_term(*a, names), b.renamed(alloc, names)?))
            }
            Lit::Sub(a, b) => Ok(Lit::Sub(a.renamed(alloc, names)?, b.renamed(alloc, names)?)),
            Lit::NotSub(a, b) => {
                Ok(Lit::NotSub(a.renamed(alloc, names)?, b.renamed(alloc, names)?))
            }
        }
    }
}

impl Rename for Arg {
    ghost numbered = { λ vs. apply_arg (numbering vs) };

    ghost fits = { arg_fits no_set is_set_var };

    fn renamed(&self, alloc: Global, names: &VarTable) -> Result<Arg, NoMemory> {
        match self {
            Arg::Int(term) => Ok(Arg::Int(renamed_term(*term, names))),
            Arg::Set(set) => Ok(Arg::Set(set.renamed(alloc, names)?)),
        }
    }
}

fn renamed_card(card: Option<Var>, names: &VarTable) -> Option<Var>
    ensures { result ≡ apply_card (numbering names.now) card }
{
    match card {
        Some(var) => match var.sort {
            Sort::Set => Some(var),
            _ => Some(new_var(var, names)),
        },
        None => None,
    }
}

fn renamed_inst(alloc: Global, inst: &InstOf, names: &VarTable) -> Result<Chunk, NoMemory>
    ensures renamed { IfOk result (λ c. c ≡ apply_chunk (numbering names.now) (Inst inst.now)) }
    ensures sorted { OnOk result (list_all (arg_fits no_set is_set_var) inst.now.args ≡ true) }
{
    let args = renamed_items(alloc, inst.args.as_slice(), names)?;
    Ok(Chunk::Inst(InstOf {
        pred: inst.pred,
        args,
        card: renamed_card(inst.card, names),
        tag: inst.tag,
    }))
}

impl Rename for Chunk {
    ghost numbered = { λ vs. apply_chunk (numbering vs) };

    ghost fits = { parts_fit };

    fn renamed(&self, alloc: Global, names: &VarTable) -> Result<Chunk, NoMemory> {
        match self {
            Chunk::Inst(inst) => renamed_inst(alloc, inst, names),
            Chunk::Block(block) => {
                let at = renamed_term(block.at(), names);
                Ok(Chunk::Block(block.rebased(at)))
            }
            Chunk::Cell(cell) => Ok(Chunk::Cell(CellAt {
                at: renamed_term(cell.at, names),
                content: renamed_term(cell.content, names),
            })),
        }
    }
}

impl Rename for IntBind {
    ghost numbered = { λ vs. apply_bind (numbering vs) };

    ghost fits = { λ b. term_fits no_set b.to };

    fn renamed(&self, _alloc: Global, names: &VarTable) -> Result<IntBind, NoMemory> {
        Ok(IntBind {
            var: self.var,
            to: renamed_term(self.to, names),
        })
    }
}

impl Rename for SetBind {
    ghost numbered = { λ vs. apply_set_bind (numbering vs) };

    ghost fits = { λ b. set_fits no_set is_set_var b.to };

    fn renamed(&self, alloc: Global, names: &VarTable) -> Result<SetBind, NoMemory> {
        Ok(SetBind {
            var: self.var,
            to: self.to.renamed(alloc, names)?,
        })
    }
}

fn rename_heap(alloc: Global, heap: Heap, names: &VarTable) -> Result<Heap, NoMemory>
    ensures renamed { IfOk result (λ h. h ≡ apply_heap (numbering names.now) heap) }
    ensures sorted { OnOk result (list_all parts_fit heap.chunks ≡ true) }
{
    let chunks = rename_all(alloc, heap.into_chunks(), names)?;
    Ok(Heap::new(chunks))
}

fn rename_link(alloc: Global, link: Link, names: &VarTable) -> Result<Link, NoMemory>
    ensures renamed { IfOk result (λ k. k ≡ apply_link (numbering names.now) link) }
    ensures sorted { OnOk result (link_fits no_set is_set_var link ≡ true) }
{
    let Link {
        goal,
        own,
        map,
        tuple,
    } = link;
    let Subst { ints, sets } = map;
    let tuple = rename_all(alloc, tuple, names)?;
    let ints = rename_all(alloc, ints, names)?;
    let sets = rename_all(alloc, sets, names)?;
    let map = Subst { ints, sets };
    Ok(Link {
        goal,
        own,
        map,
        tuple,
    })
}

fn rename_links(alloc: Global, links: List<Link>, names: &VarTable) -> Result<List<Link>, NoMemory>
    ensures renamed { IfOk result (λ ks. ks ≡ map (apply_link (numbering names.now)) links) }
    ensures sorted { OnOk result (list_all (link_fits no_set is_set_var) links ≡ true) }
{
    let mut renamed = Vec::with_capacity(alloc, links.len())?;
    for link in links.into_vec() {
        renamed.push(rename_link(alloc, link, names)?)?;
    }
    Ok(List::from_vec(renamed))
}

fn new_vars(vars: List<Var>, names: &VarTable) -> List<Var>
    ensures { result ≡ map (named names.now) vars }
{
    let mut vars = vars.into_vec();
    for var in vars.iter_mut() {
        *var = new_var(*var, names);
    }
    List::from_vec(vars)
}

fn rename_goal(alloc: Global, goal: Goal, names: &VarTable) -> Result<Goal, NoMemory>
    ensures renamed { IfOk result (λ g. g ≡ named_goal names.now goal) }
    ensures sorted { OnOk result (GoalFits goal) }
{
    let Goal {
        program,
        exist,
        pure_pre,
        pre,
        pure_post,
        post,
    } = goal;
    let pure_pre = rename_all(alloc, pure_pre, names)?;
    let pre = rename_heap(alloc, pre, names)?;
    let pure_post = rename_all(alloc, pure_post, names)?;
    let post = rename_heap(alloc, post, names)?;
    Ok(Goal {
        program: new_vars(program, names),
        exist: new_vars(exist, names),
        pure_pre,
        pre,
        pure_post,
        post,
    })
}

fn add_links(links: &[Link], table: &mut VarTable)
    ensures { table.new ≡ with_all_new var_eq table.old (flat_map link_vars links.now) }
{
    for link in links {
        add_all(link.tuple.as_slice(), table);
        add_all(link.map.ints.as_slice(), table);
        add_all(link.map.sets.as_slice(), table);
    }
}

/// The node's variables are added to an empty table in order of first occurrence.
pub(crate) fn add_node_vars(draft: &Draft, table: &mut VarTable)
    requires { table.old ≡ [] }
    ensures { table.new ≡ node_vars draft.now }
{
    let goal = &draft.goal;
    add_all(goal.program.as_slice(), table);
    add_all(goal.pre.chunks(), table);
    add_all(goal.post.chunks(), table);
    add_all(goal.pure_pre.as_slice(), table);
    add_all(goal.pure_post.as_slice(), table);
    add_links(draft.links.as_slice(), table);
}

/// The variables of each sort numbered from 0 on in the order of the table, which has the node's
/// variables.
pub(crate) fn renumber(alloc: Global, draft: Draft, names: &VarTable) -> Result<Draft, NoMemory>
    requires names { names.now ≡ node_vars draft }
    requires exist { IsTrue (list_all (λ v. var_in v names.now) draft.goal.exist) }
    ensures renamed { IfOk result (λ d. d ≡ renumber draft) }
    ensures sorted { OnOk result (PartsFit draft) }
{
    let Draft { preds, goal, links } = draft;
    let goal = rename_goal(alloc, goal, names)?;
    let links = rename_links(alloc, links, names)?;
    Ok(Draft { preds, goal, links })
}
