ghost use Rattle.std.specs.Prelude.{[], ◌∷◌, None, IfOk, ◌≡◌};
ghost use Rattle.cyp_heap.specs.Chunks.{insts};
ghost use Rattle.cyp_term.specs.TermValue.{IsTerm};
ghost use Rattle.cyp_term.specs.declared.term.Sort.TheVariants.{Int};

use cyp_goal::{Renamed, TooLarge, facts, normal};
use cyp_heap::{BlockAt, CellAt, Chunk, Goal, Heap, Link, Preds, Raw};
use cyp_term::{
    Fail as Refused, IntBind, List, Lit, NoMemory, SetBind, SetTerm, Shared, Sort, Subst, Term, Var,
};
use std::alloc::Global;
use std::test::Fail;

const WIDEST: i64 = 1 << 32;

fn int(number: u8) -> Var
    ensures { result ≡ record { sort = Int; number = number } }
{
    Var {
        sort: Sort::Int,
        number,
    }
}

fn plus(number: u8, offset: i64) -> Term
    requires { IsTerm None offset }
{
    Term::new(Some(int(number)), offset)
}

fn bare(number: u8) -> Term {
    plus(number, 0)
}

fn plain(value: i64) -> Term
    requires { IsTerm None value }
{
    Term::new(None, value)
}

fn positive(term: Term) -> Lit {
    Lit::Lt(plain(0), term)
}

fn none<T>(alloc: Global) -> List<T>
    ensures { result ≡ [] }
{
    List::from_vec(Vec::new(alloc))
}

fn one<T: Drop>(alloc: Global, item: T) -> Result<List<T>, NoMemory>
    ensures { IfOk result (λ xs. xs ≡ item ∷ []) }
{
    let mut items = none(alloc);
    items.push(alloc, item)?;
    Ok(items)
}

fn two<T: Drop>(alloc: Global, first: T, second: T) -> Result<List<T>, NoMemory>
    ensures { IfOk result (λ xs. xs ≡ first ∷ second ∷ []) }
{
    let mut items = none(alloc);
    items.push(alloc, first)?;
    items.push(alloc, second)?;
    Ok(items)
}

fn three<T: Drop>(alloc: Global, first: T, second: T, third: T) -> Result<List<T>, NoMemory> {
    let mut items = two(alloc, first, second)?;
    items.push(alloc, third)?;
    Ok(items)
}

/// The first variables.
fn ints(alloc: Global, count: u8) -> Result<List<Var>, NoMemory> {
    let mut vars = none(alloc);
    for number in 0..count {
        vars.push(alloc, int(number))?;
    }
    Ok(vars)
}

/// That each of the first variables is positive.
fn all_positive(alloc: Global, count: u8) -> Result<List<Lit>, NoMemory> {
    let mut lits = none(alloc);
    for number in 0..count {
        lits.push(alloc, positive(bare(number)))?;
    }
    Ok(lits)
}

/// Cells at these two places with these contents.
fn cells(alloc: Global, first: (Term, Term), second: (Term, Term)) -> Result<Heap, NoMemory>
    ensures { IfOk result (λ h. insts h.chunks ≡ []) }
{
    let chunks = two(
        alloc,
        Chunk::Cell(CellAt {
            at: first.0,
            content: first.1,
        }),
        Chunk::Cell(CellAt {
            at: second.0,
            content: second.1,
        }),
    )?;
    Ok(Heap::new(chunks))
}

/// A goal without chunks.
fn goal(alloc: Global, program: List<Var>, pure_pre: List<Lit>) -> Goal
    ensures { result ≡ record { program = program; exist = []; pure_pre = pure_pre; pre = record { chunks = [] }; pure_post = []; post = record { chunks = [] } } }
{
    Goal {
        program,
        exist: none(alloc),
        pure_pre,
        pre: Heap::new(none(alloc)),
        pure_post: none(alloc),
        post: Heap::new(none(alloc)),
    }
}

fn normal_of(alloc: Global, goal: Goal) -> Result<Renamed, Refused<TooLarge>>
    requires pre { insts goal.pre.chunks ≡ [] }
    requires post { insts goal.post.chunks ≡ [] }
{
    let preds = Shared::new(alloc, Preds::new(none(alloc)))?;
    normal(alloc, Raw::new(preds, goal, none(alloc)))
}

/// The normal form where so many program variables are positive.
fn of_many(alloc: Global, count: u8) -> Result<Renamed, Refused<TooLarge>> {
    let program = ints(alloc, count)?;
    let lits = all_positive(alloc, count)?;
    normal_of(alloc, goal(alloc, program, lits))
}

/// The normal form with one program variable, whose number is 3, and these literals.
fn of_lits(alloc: Global, lits: List<Lit>) -> Result<Renamed, Refused<TooLarge>> {
    let program = one(alloc, int(3))?;
    normal_of(alloc, goal(alloc, program, lits))
}

/// The normal form with the same program variable and these heaps.
fn of_heaps(alloc: Global, pre: Heap, post: Heap) -> Result<Renamed, Refused<TooLarge>>
    requires pre { insts pre.chunks ≡ [] }
    requires post { insts post.chunks ≡ [] }
{
    let program = one(alloc, int(3))?;
    let mut goal = goal(alloc, program, none(alloc));
    goal.pre = pre;
    goal.post = post;
    normal_of(alloc, goal)
}

fn has_lits(renamed: &Renamed, lits: &List<Lit>) -> bool {
    renamed.node.goal().pure_pre == *lits
}

#[test]
fn refuses_a_thirteenth_program_variable(rt: HostRuntime) -> Result<(), Fail> {
    let alloc = rt.alloc();
    assert!(rt; matches!(of_many(alloc, 13), Err(Refused::Named(TooLarge))));
    let normal = of_many(alloc, 12)?;
    assert!(rt; has_lits(&normal, &all_positive(alloc, 12)?));
    Ok(())
}

#[test]
fn drops_a_dead_literal_and_a_repeated_one(rt: HostRuntime) -> Result<(), Fail> {
    let alloc = rt.alloc();
    let lits = three(
        alloc,
        positive(bare(5)),
        positive(bare(3)),
        positive(bare(3)),
    )?;
    let normal = of_lits(alloc, lits)?;
    assert!(rt; has_lits(&normal, &all_positive(alloc, 1)?));
    assert!(rt; normal.old == one(alloc, int(3))?);
    Ok(())
}

#[test]
fn solves_an_equation_for_its_left_side_first(rt: HostRuntime) -> Result<(), Fail> {
    let alloc = rt.alloc();
    let equation = Lit::Eq(bare(5), plus(6, 1));
    let lits = three(
        alloc,
        equation,
        Lit::Lt(bare(5), bare(3)),
        Lit::Lt(bare(6), bare(3)),
    )?;
    let normal = of_lits(alloc, lits)?;
    let expected = two(
        alloc,
        Lit::Lt(plus(1, 1), bare(0)),
        Lit::Lt(bare(1), bare(0)),
    )?;
    assert!(rt; has_lits(&normal, &expected));
    Ok(())
}

fn with_existential(alloc: Global) -> Result<Renamed, Refused<TooLarge>> {
    let program = one(alloc, int(3))?;
    let mut goal = goal(alloc, program, none(alloc));
    goal.exist = one(alloc, int(9))?;
    let equation = Lit::Eq(bare(3), plus(9, 2));
    goal.pure_post = two(alloc, equation, Lit::Lt(bare(9), bare(7)))?;
    normal_of(alloc, goal)
}

#[test]
fn solves_an_equation_of_the_post_for_an_existential(rt: HostRuntime) -> Result<(), Fail> {
    let alloc = rt.alloc();
    let normal = with_existential(alloc)?;
    let expected = one(alloc, Lit::Lt(plus(0, -2), bare(1)))?;
    assert!(rt; normal.node.goal().pure_post == expected);
    assert!(rt; normal.node.goal().exist.len() == 0);
    Ok(())
}

#[test]
fn refuses_an_offset_past_the_range(rt: HostRuntime) -> Result<(), Fail> {
    let alloc = rt.alloc();
    let equation = Lit::Eq(bare(5), plus(3, WIDEST));
    let lits = two(alloc, equation, positive(plus(5, 1)))?;
    assert!(rt; matches!(of_lits(alloc, lits), Err(Refused::Named(TooLarge))));
    Ok(())
}

#[test]
fn allows_the_widest_offset(rt: HostRuntime) -> Result<(), Fail> {
    let alloc = rt.alloc();
    let equation = Lit::Eq(bare(5), plus(3, WIDEST));
    let lits = two(alloc, equation, positive(bare(5)))?;
    let normal = of_lits(alloc, lits)?;
    let expected = one(alloc, positive(plus(0, WIDEST)))?;
    assert!(rt; has_lits(&normal, &expected));
    Ok(())
}

#[test]
fn says_that_the_least_address_of_a_base_is_positive(rt: HostRuntime) -> Result<(), Fail> {
    let alloc = rt.alloc();
    let pre = cells(alloc, (plus(3, 1), plain(0)), (bare(3), plain(0)))?;
    let normal = of_heaps(alloc, pre, Heap::new(none(alloc)))?;
    assert!(rt; has_lits(&normal, &all_positive(alloc, 1)?));
    Ok(())
}

#[test]
fn numbers_the_pre_before_the_post(rt: HostRuntime) -> Result<(), Fail> {
    let alloc = rt.alloc();
    let pre = cells(alloc, (bare(3), bare(8)), (plus(3, 1), bare(7)))?;
    let post = cells(alloc, (bare(3), bare(7)), (plus(3, 1), bare(8)))?;
    let normal = of_heaps(alloc, pre, post)?;
    let expected = cells(alloc, (bare(0), bare(2)), (plus(0, 1), bare(1)))?;
    assert!(rt; normal.node.goal().post == expected);
    Ok(())
}

fn empty_map(alloc: Global) -> Subst
    ensures { result ≡ record { ints = []; sets = [] } }
{
    Subst {
        ints: none(alloc),
        sets: none(alloc),
    }
}

/// A companion with an empty goal, this map, and this measure: its own, and the node's.
fn companion(
    alloc: Global,
    own: List<Term>,
    map: Subst,
    tuple: List<Term>,
) -> Result<Link, NoMemory>
    ensures { IfOk result (λ k. k ≡ record { goal = record { program = []; exist = []; pure_pre = []; pre = record { chunks = [] }; pure_post = []; post = record { chunks = [] } }; own = own; map = map; tuple = tuple }) }
{
    let goal = goal(alloc, none(alloc), none(alloc));
    Ok(Link {
        goal: Shared::new(alloc, goal)?,
        own,
        map,
        tuple,
    })
}

/// A companion with a measure of one term: its own, and the node's.
fn one_companion(alloc: Global, own: Term, tuple: Term) -> Result<List<Link>, NoMemory>
    ensures { IfOk result (λ ks. ks ≡ record { goal = record { program = []; exist = []; pure_pre = []; pre = record { chunks = [] }; pure_post = []; post = record { chunks = [] } }; own = own ∷ []; map = record { ints = []; sets = [] }; tuple = tuple ∷ [] } ∷ []) }
{
    let own = one(alloc, own)?;
    let tuple = one(alloc, tuple)?;
    one(alloc, companion(alloc, own, empty_map(alloc), tuple)?)
}

fn below_a_companion(alloc: Global, lits: List<Lit>) -> Result<Renamed, Refused<TooLarge>> {
    let preds = Shared::new(alloc, Preds::new(none(alloc)))?;
    let goal = goal(alloc, none(alloc), lits);
    let links = one_companion(alloc, bare(5), bare(5))?;
    normal(alloc, Raw::new(preds, goal, links))
}

#[test]
fn keeps_what_a_measure_speaks_of(rt: HostRuntime) -> Result<(), Fail> {
    let alloc = rt.alloc();
    let lits = two(alloc, positive(bare(6)), positive(bare(5)))?;
    let normal = below_a_companion(alloc, lits)?;
    assert!(rt; has_lits(&normal, &all_positive(alloc, 1)?));
    assert!(rt; *normal.node.links() == one_companion(alloc, bare(5), bare(0))?);
    Ok(())
}

// ---- what is settled of the normal form beside its rules

fn is_too_large(alloc: Global, lits: List<Lit>) -> bool {
    matches!(of_lits(alloc, lits), Err(Refused::Named(TooLarge)))
}

/// The term that a variable is solved to counts, even where the variable stands nowhere else.
fn solved_term_counts(alloc: Global) -> Result<bool, NoMemory> {
    Ok(is_too_large(alloc, one(alloc, Lit::Eq(plus(5, -1), plus(3, WIDEST)))?))
}

/// Offsets count after each substitution.
fn each_substitution_counts(alloc: Global) -> Result<bool, NoMemory> {
    let wider = two(
        alloc,
        Lit::Eq(bare(5), plus(3, WIDEST)),
        Lit::Eq(bare(6), plus(5, 1)),
    )?;
    let narrower = two(
        alloc,
        Lit::Eq(bare(5), plus(3, WIDEST)),
        Lit::Eq(bare(6), plus(5, -1)),
    )?;
    Ok(is_too_large(alloc, wider) && !is_too_large(alloc, narrower))
}

/// The union of two integers.
fn pair(alloc: Global, first: u8, second: u8) -> Result<SetTerm, NoMemory> {
    Ok(SetTerm::new(none(alloc), two(alloc, bare(first), bare(second))?))
}

/// That the unions of the variables 3 and 4 and of these two are equal.
fn same_pairs(alloc: Global, first: u8, second: u8) -> Result<List<Lit>, NoMemory> {
    one(
        alloc,
        Lit::Same(pair(alloc, 3, 4)?, pair(alloc, first, second)?),
    )
}

/// Unions are alike where their parts stand in one order.
fn unions_go_by_order(alloc: Global) -> Result<bool, Refused<TooLarge>> {
    let alike = of_lits(alloc, same_pairs(alloc, 3, 4)?)?;
    let turned = of_lits(alloc, same_pairs(alloc, 4, 3)?)?;
    Ok(alike.node.goal().pure_pre.len() == 0 && turned.node.goal().pure_pre.len() == 1)
}

/// Addresses without a base add their literals after those of all bases.
fn numbers_come_after_bases(alloc: Global) -> Result<bool, Refused<TooLarge>> {
    let pre = cells(alloc, (plain(0), plain(7)), (bare(3), plain(7)))?;
    let normal = of_heaps(alloc, pre, Heap::new(none(alloc)))?;
    Ok(has_lits(&normal, &two(alloc, positive(bare(0)), positive(plain(0)))?))
}
/// Maps from one integer to the variable 7, and from one set to that with the variable 6.
fn two_images(alloc: Global) -> Result<Subst, NoMemory> {
    let set = Var {
        sort: Sort::Set,
        number: 0,
    };
    let to = SetTerm::new(none(alloc), one(alloc, bare(6))?);
    Ok(Subst {
        ints: one(
            alloc,
            IntBind {
                var: int(0),
                to: bare(7),
            },
        )?,
        sets: one(alloc, SetBind { var: set, to })?,
    })
}

/// Integer entries of a map are walked before set entries.
fn integer_images_come_first(alloc: Global) -> Result<bool, Refused<TooLarge>> {
    let above = companion(alloc, none(alloc), two_images(alloc)?, none(alloc))?;
    let own = two(alloc, bare(0), bare(1))?;
    let tuple = two(alloc, bare(6), bare(7))?;
    let below = companion(alloc, own, empty_map(alloc), tuple)?;
    let preds = Shared::new(alloc, Preds::new(none(alloc)))?;
    let goal = goal(alloc, none(alloc), none(alloc));
    let normal = normal(alloc, Raw::new(preds, goal, two(alloc, above, below)?))?;
    let expected = two(alloc, bare(1), bare(0))?;
    match normal.node.links().as_slice() {
        [_, last] => Ok(last.tuple == expected),
        _ => Ok(false),
    }
}

/// As many different literals on the first twelve variables.
fn in_order(alloc: Global, count: usize) -> Result<List<Lit>, NoMemory> {
    let mut lits = none(alloc);
    for first in 0..12 {
        for second in first + 1..12 {
            if lits.len() < count {
                lits.push(alloc, Lit::Lt(bare(first), bare(second)))?;
            }
        }
    }
    Ok(lits)
}

/// With these chunks: twelve program variables, 74 literals, and a companion whose map has one entry.
fn below_an_entry(alloc: Global, pre: Heap) -> Result<Renamed, Refused<TooLarge>>
    requires { insts pre.chunks ≡ [] }
{
    let mut goal = goal(alloc, ints(alloc, 12)?, in_order(alloc, 34)?);
    goal.pre = pre;
    goal.pure_post = in_order(alloc, 40)?;
    let map = Subst {
        ints: one(
            alloc,
            IntBind {
                var: int(0),
                to: bare(7),
            },
        )?,
        sets: none(alloc),
    };
    let links = one(alloc, companion(alloc, none(alloc), map, none(alloc))?)?;
    let preds = Shared::new(alloc, Preds::new(none(alloc)))?;
    normal(alloc, Raw::new(preds, goal, links))
}

/// An entry for an integer has two units. A block, with the literal that its address is positive, adds
/// five to 236.
fn entries_have_two_units(alloc: Global) -> Result<bool, NoMemory> {
    let fits = below_an_entry(alloc, Heap::new(none(alloc)));
    let block = one(alloc, Chunk::Block(BlockAt::new(bare(0), 1)))?;
    let passes = below_an_entry(alloc, Heap::new(block));
    Ok(fits.is_ok() && matches!(passes, Err(Refused::Named(TooLarge))))
}

#[test]
fn settled_points_of_the_normal_form_hold(rt: HostRuntime) -> Result<(), Fail> {
    let alloc = rt.alloc();
    assert!(rt; solved_term_counts(alloc)?);
    assert!(rt; each_substitution_counts(alloc)?);
    assert!(rt; unions_go_by_order(alloc)?);
    assert!(rt; numbers_come_after_bases(alloc)?);
    assert!(rt; integer_images_come_first(alloc)?);
    assert!(rt; entries_have_two_units(alloc)?);
    Ok(())
}

/// The facts where one variable is positive and these are the chunks of the pre.
fn facts_of(alloc: Global, pre: Heap) -> Result<List<Lit>, NoMemory> {
    let lits = all_positive(alloc, 1)?;
    let mut goal = goal(alloc, none(alloc), lits);
    goal.pre = pre;
    facts(alloc, &goal)
}

#[test]
fn knows_that_cells_lie_apart(rt: HostRuntime) -> Result<(), Fail> {
    let alloc = rt.alloc();
    let pre = cells(alloc, (bare(0), plain(5)), (bare(1), plain(5)))?;
    let expected = two(alloc, positive(bare(0)), Lit::Ne(bare(0), bare(1)))?;
    assert!(rt; facts_of(alloc, pre)? == expected);
    Ok(())
}

fn blocks(alloc: Global, first: Term, second: Term) -> Result<Heap, NoMemory> {
    let chunks = two(
        alloc,
        Chunk::Block(BlockAt::new(first, 2)),
        Chunk::Block(BlockAt::new(second, 1)),
    )?;
    Ok(Heap::new(chunks))
}

#[test]
fn knows_that_blocks_lie_apart(rt: HostRuntime) -> Result<(), Fail> {
    let alloc = rt.alloc();
    let pre = blocks(alloc, bare(2), bare(3))?;
    let expected = two(alloc, positive(bare(0)), Lit::Ne(bare(2), bare(3)))?;
    assert!(rt; facts_of(alloc, pre)? == expected);
    Ok(())
}
