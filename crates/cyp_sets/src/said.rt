ghost use Rattle.std.specs.Prelude.{◌≡◌, false, List, ◌∷◌, ◌++◌, IfOk, OnErr, OnOk};
ghost use Rattle.std.specs.List.{All};
ghost use Rattle.cyp_term.specs.declared.lit.Lit.{Lit};
ghost use Rattle.cyp_term.specs.Integers.{is_int_lit};
ghost use Rattle.cyp_sets.specs.Asking.{AreSets};
ghost use Rattle.cyp_sets.specs.Saying.{Adds, LitHasPlaces, Says, SaysLit};

use crate::masks::{Rule, Saying, Want};
use crate::names::Names;
use cyp_term::{Lit, NoMemory};
use std::alloc::Global;

/// What literals say of each integer, and what they want of some.
#[derive(Debug, Drop)]
pub(crate) struct Said {
    pub rules: Vec<Rule>,
    pub wants: Vec<Want>,
}

fn saying_of(names: &Names, lit: &Lit) -> Saying
    requires set { is_int_lit lit.now ≡ false }
    requires named { LitHasPlaces names.now lit.now }
    ensures { SaysLit names.now lit.now result }
{
    match lit {
        Lit::Same(a, b) => Saying::OfEach(Rule::Same(names.union_of(a), names.union_of(b))),
        Lit::NotSame(a, b) => Saying::OfSome(Want::NotSame(names.union_of(a), names.union_of(b))),
        Lit::Member(e, a) => Saying::OfEach(Rule::Sub(names.single(e), names.union_of(a))),
        Lit::NotMember(e, a) => Saying::OfEach(Rule::Apart(names.single(e), names.union_of(a))),
        Lit::Sub(a, b) => Saying::OfEach(Rule::Sub(names.union_of(a), names.union_of(b))),
        Lit::NotSub(a, b) => Saying::OfSome(Want::NotSub(names.union_of(a), names.union_of(b))),
        _ => unreachable!(),
    }
}

impl Said {
    fn add(&mut self, saying: Saying) -> Result<(), NoMemory>
        ensures ok { OnOk result (Adds saying self.old.rules.items self.old.wants.items self.new.rules.items self.new.wants.items) }
        ensures err { OnErr result ((self.new.rules.items ≡ self.old.rules.items) × (self.new.wants.items ≡ self.old.wants.items)) }
    {
        match saying {
            Saying::OfEach(rule) => self.rules.push(rule)?,
            Saying::OfSome(want) => self.wants.push(want)?,
        }
        Ok(())
    }

    /// With what further literals say.
    fn with(mut self, names: &Names, lits: &[Lit]) -> Result<Said, NoMemory>
        requires sets { AreSets lits.now }
        requires named { All (LitHasPlaces names.now) lits.now }
        ensures { IfOk result (λ s. (ls : List Lit) → Says names.now ls self.rules.items self.wants.items → Says names.now (ls ++ lits.now) s.rules.items s.wants.items) }
    {
        for lit in lits {
            self.add(saying_of(names, lit))?;
        }
        Ok(self)
    }

    /// What the literals of both lists say.
    pub(crate) fn of(
        alloc: Global,
        names: &Names,
        lits: &[Lit],
        more: &[Lit],
    ) -> Result<Said, NoMemory>
        requires sets { AreSets (lits.now ++ more.now) }
        requires named { All (LitHasPlaces names.now) (lits.now ++ more.now) }
        ensures { IfOk result (λ s. Says names.now (lits.now ++ more.now) s.rules.items s.wants.items) }
    {
        let none = Said {
            rules: Vec::new(alloc),
            wants: Vec::new(alloc),
        };
        none.with(names, lits)?.with(names, more)
    }
}
