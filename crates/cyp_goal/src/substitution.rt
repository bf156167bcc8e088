ghost use Rattle.std.specs.Prelude.{◌≡◌, [], Bool, IsTrue, List, false, map, true};
ghost use Rattle.std.specs.List.{list_any};
ghost use Rattle.cyp_heap.specs.Chunks.{apply_arg, apply_card, apply_chunk, apply_heap, wide_arg, wide_chunk};
ghost use Rattle.cyp_heap.specs.Goals.{apply_bind, apply_goal, apply_link, apply_set_bind, wide_goal, wide_link};
ghost use Rattle.cyp_term.specs.Answers.{GivesUnless};
ghost use Rattle.cyp_term.specs.Images.{image_elems, image_vars};
ghost use Rattle.cyp_term.specs.Terms.{apply_lit, apply_set, apply_term, term_eq, var_eq, wide_lit, wide_set, wide_term, without_repeats};
ghost use Rattle.cyp_term.specs.declared.subst.Subst.{Subst as TheSubst};

use cyp_heap::{Arg, Chunk, Goal, Heap, Link};
use cyp_term::{Fail, IntBind, List, Lit, SetBind, SetTerm, Subst, Term, TooWide, Var, few_differ};
use std::alloc::Global;

/// What a substitution applies to.
pub(crate) trait Apply {
    ghost applied: { TheSubst → Self → Self };

    ghost is_wide: { Self → Bool };

    /// Whether it is its own image. Its offsets are in range.
    fn stays(&self, by: &Subst) -> bool
        ensures same { result ≡ true → applied by.now self.now ≡ self.now }
        ensures narrow { result ≡ true → is_wide self.now ≡ false };

    /// Its image. It is `TooWide` exactly where an offset in it passes 2^32 in size.
    fn image(&self, alloc: Global, by: &Subst) -> Result<Self, Fail<TooWide>>
        ensures { GivesUnless (is_wide (applied by.now self.now)) (applied by.now self.now) result };
}

/// The images of the items. Those that stay aren't made anew.
pub(crate) fn apply_all<T: Apply + Drop>(
    alloc: Global,
    mut items: List<T>,
    by: &Subst,
) -> Result<List<T>, Fail<TooWide>>
    ensures { GivesUnless (list_any T.is_wide (map (T.applied by.now) items)) (map (T.applied by.now) items) result }
{
    for place in 0..items.len() {
        let item = &items.as_slice()[place];
        if !item.stays(by) {
            let image = item.image(alloc, by)?;
            let _old = items.set(place, image);
        }
    }
    Ok(items)
}

/// Whether each item is its own image. Their offsets are in range.
fn all_stay<T: Apply>(items: &[T], by: &Subst) -> bool
    ensures same { result ≡ true → map (T.applied by.now) items.now ≡ items.now }
    ensures narrow { result ≡ true → list_any T.is_wide items.now ≡ false }
{
    for item in items {
        if !item.stays(by) {
            return false;
        }
    }
    true
}

impl Apply for Term {
    ghost applied = { apply_term };

    ghost is_wide = { wide_term };

    fn stays(&self, by: &Subst) -> bool {
        let _offset = self.offset();
        match self.base() {
            Some(var) => by.image(var).is_none(),
            None => true,
        }
    }

    fn image(&self, _alloc: Global, by: &Subst) -> Result<Term, Fail<TooWide>> {
        Ok(self.apply(by)?)
    }
}

fn unbound(vars: &[Var], by: &Subst) -> bool
    ensures vars { result ≡ true → image_vars by.now vars.now ≡ vars.now }
    ensures elems { result ≡ true → image_elems by.now vars.now ≡ [] }
{
    for var in vars {
        if by.set_image(*var).is_some() {
            return false;
        }
    }
    true
}

fn differ_vars(vars: &[Var]) -> bool
    ensures { result ≡ true → without_repeats var_eq vars.now ≡ vars.now }
{
    few_differ(vars)
}

fn differ_terms(terms: &[Term]) -> bool
    ensures { result ≡ true → without_repeats term_eq terms.now ≡ terms.now }
{
    few_differ(terms)
}

impl Apply for SetTerm {
    ghost applied = { apply_set };

    ghost is_wide = { wide_set };

    fn stays(&self, by: &Subst) -> bool {
        unbound(self.vars(), by)
            && differ_vars(self.vars())
            && all_stay(self.elems(), by)
            && differ_terms(self.elems())
    }

    fn image(&self, alloc: Global, by: &Subst) -> Result<SetTerm, Fail<TooWide>> {
        self.apply(alloc, by)
    }
}

impl Apply for Lit {
    ghost applied = { apply_lit };

    ghost is_wide = { wide_lit };

    fn stays(&self, by: &Subst) -> bool {
        match self {
            Lit::Eq(a, b) | Lit::Ne(a, b) | Lit::Le(a, b) | Lit::Lt(a, b) => {
                a.stays(by) && b.stays(by)
            }
            Lit::Member(a, b) | Lit::NotMember(a, b) => a.stays(by) && b.stays(by),
            Lit::Same(a, b) | Lit::NotSame(a, b) | Lit::Sub(a, b) | Lit::NotSub(a, b) => {
                a.stays(by) && b.stays(by)
            }
        }
    }

    fn image(&self, alloc: Global, by: &Subst) -> Result<Lit, Fail<TooWide>> {
        self.apply(alloc, by)
    }
}

impl Apply for Arg {
    ghost applied = { apply_arg };

    ghost is_wide = { wide_arg };

    fn stays(&self, by: &Subst) -> bool {
        match self {
            Arg::Int(term) => term.stays(by),
            Arg::Set(set) => set.stays(by),
        }
    }

    fn image(&self, alloc: Global, by: &Subst) -> Result<Arg, Fail<TooWide>> {
        self.apply(alloc, by)
    }
}

fn card_stays(card: Option<Var>, by: &Subst) -> bool
    ensures { result ≡ true → apply_card by.now card ≡ card }
{
    match card {
        Some(var) => by.image(var).is_none(),
        None => true,
    }
}

impl Apply for Chunk {
    ghost applied = { apply_chunk };

    ghost is_wide = { wide_chunk };

    fn stays(&self, by: &Subst) -> bool {
        match self {
            Chunk::Inst(inst) => { card_stays(inst.card, by) && all_stay(inst.args.as_slice(), by) }
            Chunk::Block(block) => block.at().stays(by),
            Chunk::Cell(cell) => cell.at.stays(by) && cell.content.stays(by),
        }
    }

    fn image(&self, alloc: Global, by: &Subst) -> Result<Chunk, Fail<TooWide>> {
        self.apply(alloc, by)
    }
}

impl Apply for IntBind {
    ghost applied = { apply_bind };

    ghost is_wide = { λ b. wide_term b.to };

    fn stays(&self, by: &Subst) -> bool {
        self.to.stays(by)
    }

    fn image(&self, _alloc: Global, by: &Subst) -> Result<IntBind, Fail<TooWide>> {
        Ok(IntBind {
            var: self.var,
            to: self.to.apply(by)?,
        })
    }
}

impl Apply for SetBind {
    ghost applied = { apply_set_bind };

    ghost is_wide = { λ b. wide_set b.to };

    fn stays(&self, by: &Subst) -> bool {
        self.to.stays(by)
    }

    fn image(&self, alloc: Global, by: &Subst) -> Result<SetBind, Fail<TooWide>> {
        Ok(SetBind {
            var: self.var,
            to: self.to.apply(alloc, by)?,
        })
    }
}

fn apply_heap(alloc: Global, heap: Heap, by: &Subst) -> Result<Heap, Fail<TooWide>>
    ensures { GivesUnless (list_any wide_chunk (apply_heap by.now heap).chunks) (apply_heap by.now heap) result }
{
    let chunks = apply_all(alloc, heap.into_chunks(), by)?;
    Ok(Heap::new(chunks))
}

fn apply_link(alloc: Global, link: Link, by: &Subst) -> Result<Link, Fail<TooWide>>
    ensures { GivesUnless (wide_link (apply_link by.now link)) (apply_link by.now link) result }
{
    let Link {
        goal,
        own,
        map,
        tuple,
    } = link;
    let Subst { ints, sets } = map;
    let tuple = apply_all(alloc, tuple, by)?;
    let ints = apply_all(alloc, ints, by)?;
    let sets = apply_all(alloc, sets, by)?;
    let map = Subst { ints, sets };
    Ok(Link {
        goal,
        own,
        map,
        tuple,
    })
}

pub(crate) fn apply_links(
    alloc: Global,
    links: List<Link>,
    by: &Subst,
) -> Result<List<Link>, Fail<TooWide>>
    ensures { GivesUnless (list_any wide_link (map (apply_link by.now) links)) (map (apply_link by.now) links) result }
{
    let mut applied = Vec::with_capacity(alloc, links.len())?;
    for link in links.into_vec() {
        applied.push(apply_link(alloc, link, by)?)?;
    }
    Ok(List::from_vec(applied))
}

pub(crate) fn apply_goal(alloc: Global, goal: Goal, by: &Subst) -> Result<Goal, Fail<TooWide>>
    ensures { GivesUnless (wide_goal (apply_goal by.now goal)) (apply_goal by.now goal) result }
{
    let Goal {
        program,
        exist,
        pure_pre,
        pre,
        pure_post,
        post,
    } = goal;
    let pure_pre = apply_all(alloc, pure_pre, by)?;
    let pre = apply_heap(alloc, pre, by)?;
    let pure_post = apply_all(alloc, pure_post, by)?;
    let post = apply_heap(alloc, post, by)?;
    Ok(Goal {
        program,
        exist,
        pure_pre,
        pre,
        pure_post,
        post,
    })
}
