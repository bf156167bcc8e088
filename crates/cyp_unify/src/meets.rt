//! Where a companion's chunks meet the present chunks that they are paired with.

ghost use Rattle.std.specs.Prelude.{◌≡◌, IsTrue};
ghost use Rattle.std.specs.List.{list_all};
ghost use Rattle.cyp_heap.specs.Formed.{is_card_var};
ghost use Rattle.cyp_term.specs.Terms.{var_term};
ghost use Rattle.cyp_term.specs.declared.term.Sort.TheVariants.{Card};
ghost use Rattle.cyp_unify.specs.Matches.{arg_position, arg_positions, card_position, no_walk, positions, walk};
ghost use Rattle.cyp_unify.specs.Meeting.{Walks, has_card, positions_at, positions_of};
ghost use Rattle.cyp_unify.specs.Walking.{Finds};

use crate::walk::Walk;
use cyp_heap::{Arg, Chunk};
use cyp_term::{Fail, Term, TooWide, Var};
use std::alloc::Global;

fn card_term(card: Var) -> Term
    requires { card.sort ≡ Card }
    ensures { result ≡ var_term card }
{
    Term::new(Some(card), 0)
}

impl Walk {
    fn meet_arg(
        &mut self,
        alloc: Global,
        exist: &[Var],
        from: &Arg,
        to: &Arg,
    ) -> Result<(), Fail<TooWide>>
        ensures { Finds (walk exist.now self.old (arg_position from.now to.now)) self.new result }
    {
        match (from, to) {
            (Arg::Int(from), Arg::Int(to)) => self.meet_terms(alloc, exist, *from, *to),
            (Arg::Set(from), Arg::Set(to)) => self.meet_sets(alloc, exist, from, to),
            _ => Ok(()),
        }
    }

    fn meet_args(
        &mut self,
        alloc: Global,
        exist: &[Var],
        from: &[Arg],
        to: &[Arg],
    ) -> Result<(), Fail<TooWide>>
        ensures { Finds (walk exist.now self.old (arg_positions from.now to.now)) self.new result }
    {
        for (arg, other) in from.iter().zip(to) {
            self.meet_arg(alloc, exist, arg, other)?;
        }
        Ok(())
    }

    fn meet_cards(
        &mut self,
        alloc: Global,
        exist: &[Var],
        from: Option<Var>,
        to: Option<Var>,
    ) -> Result<(), Fail<TooWide>>
        requires from { IsTrue (is_card_var from) }
        requires to { IsTrue (is_card_var to) }
        ensures { Finds (walk exist.now self.old (card_position from to)) self.new result }
    {
        match (from, to) {
            (Some(from), Some(to)) => {
                self.meet_terms(alloc, exist, card_term(from), card_term(to))
            }
            _ => Ok(()),
        }
    }

    /// Where a companion's chunk meets the present chunk at this place.
    fn meet(
        &mut self,
        alloc: Global,
        exist: &[Var],
        from: &Chunk,
        place: u8,
        to: &Chunk,
    ) -> Result<(), Fail<TooWide>>
        requires from { IsTrue (has_card from.now) }
        requires to { IsTrue (has_card to.now) }
        ensures { Finds (walk exist.now self.old (positions from.now place to.now)) self.new result }
    {
        match (from, to) {
            (Chunk::Inst(from), Chunk::Inst(to)) => {
                self.meet_args(alloc, exist, from.args.as_slice(), to.args.as_slice())?;
                self.meet_cards(alloc, exist, from.card, to.card)
            }
            (Chunk::Block(from), Chunk::Block(to)) => {
                self.meet_terms(alloc, exist, from.at(), to.at())
            }
            (Chunk::Cell(from), Chunk::Cell(to)) => {
                self.meet_terms(alloc, exist, from.at, to.at)?;
                self.meet_contents(alloc, exist, place, from.content, to.content)
            }
            _ => Ok(()),
        }
    }

    fn meet_at(
        &mut self,
        alloc: Global,
        exist: &[Var],
        present: &[Chunk],
        chunk: &Chunk,
        place: u8,
    ) -> Result<(), Fail<TooWide>>
        requires from { IsTrue (has_card chunk.now) }
        requires to { IsTrue (list_all has_card present.now) }
        ensures { Finds (walk exist.now self.old (positions_at present.now chunk.now place)) self.new result }
    {
        match present.get(usize::from(place)) {
            Some(other) => self.meet(alloc, exist, chunk, place, other),
            None => Ok(()),
        }
    }
}

/// What the walk finds where the companion's chunks meet the present chunks at these places.
pub(crate) fn walk_through(
    alloc: Global,
    exist: &[Var],
    present: &[Chunk],
    wanted: &[Chunk],
    places: &[u8],
) -> Result<Walk, Fail<TooWide>>
    requires from { IsTrue (list_all has_card wanted.now) }
    requires to { IsTrue (list_all has_card present.now) }
    ensures { Walks (walk exist.now no_walk (positions_of present.now wanted.now places.now)) result }
{
    let mut found = Walk::new(alloc);
    for (chunk, place) in wanted.iter().zip(places) {
        found.meet_at(alloc, exist, present, chunk, *place)?;
    }
    Ok(found)
}
