ghost use Rattle.std.specs.Prelude.{[], ◌≡◌, ◌++◌, ◌∷◌, IfOk, OnOk, false};
ghost use Rattle.std.specs.List.{list_any};
ghost use Rattle.cyp_term.specs.Answers.{GivesUnless};
ghost use Rattle.cyp_term.specs.Images.{brought, image_elems, image_of, image_vars};
ghost use Rattle.cyp_term.specs.Terms.{apply_lit, apply_set, negated, var_eq, wide_lit, wide_set, wide_term, with_all_new, without_repeats};
ghost use Rattle.cyp_term.specs.declared.term.Sort.TheVariants.{Set};
ghost use Rattle.cyp_term.specs.SetTermValue.{AllSets};
ghost use Rattle.cyp_term.specs.Under.{IsOpposite, MembersUnder, TruthUnder};

use crate::copied::{Copied, Exact};
use crate::fail::{Fail, NoMemory};
use crate::list::List;
use crate::once::{add_var, add_vars};
use crate::subst::Subst;
use crate::term::{Term, TooWide, Var};
use crate::without_repeats::each_once;
use std::alloc::Global;
use std::marker::Model;

/// A union of set variables and single elements.
#[derive(Debug, Drop, PartialEq, Eq, Hash)]
pub struct SetTerm {
    vars: List<Var>,
    elems: List<Term>,
}

impl Model for SetTerm {
    ghost use Rattle.cyp_term.specs.SetTermValue.{SetTermValue, AllSets};

    ghost Value = { SetTermValue };

    ghost view = { λ t. record { vars = t.vars; elems = t.elems } };

    ghost invariant = { λ t. AllSets t.vars };

    ghost inverse = { λ t. record { vars = t.vars; elems = t.elems } };
}

impl SetTerm {
    /// The union of the variables and the elements.
    pub fn new(vars: List<Var>, elems: List<Term>) -> SetTerm
        requires { AllSets vars }
        ensures { result ≡ record { vars = vars; elems = elems } }
    {
        SetTerm { vars, elems }
    }

    /// The set variables of the union, in their order.
    pub fn vars(&self) -> &[Var]
        ensures vars { result.now ≡ self.now.vars }
        ensures sorts { AllSets result.now }
    {
        self.vars.as_slice()
    }

    /// The single elements of the union, in their order.
    pub fn elems(&self) -> &[Term]
        ensures { result.now ≡ self.now.elems }
    {
        self.elems.as_slice()
    }

    /// The set term with its variables and elements replaced by their images, each part once: first
    /// what the variables' images bring, then the elements' images. It is `TooWide` exactly where an
    /// element's offset passes 2^32 in size.
    pub fn apply(&self, alloc: Global, by: &Subst) -> Result<SetTerm, Fail<TooWide>>
        ensures gives { GivesUnless (wide_set (apply_set by.now self.now)) (apply_set by.now self.now) result }
        ensures value { IfOk result (λ u. MembersUnder by.now self.now u) }
    {
        let vars = self.applied_vars(alloc, by)?;
        let elems = self.applied_elems(alloc, by)?;
        Ok(SetTerm { vars, elems })
    }
}

/// Adds a term. It is in range, as each term is.
fn add_term(terms: &mut Vec<Term>, term: Term) -> Result<(), NoMemory>
    ensures items { OnOk result (terms.new.items ≡ terms.old.items ++ term ∷ []) }
    ensures narrow { wide_term term ≡ false }
{
    let _offset = term.offset();
    terms.push(term)?;
    Ok(())
}

/// Adds the terms. Each is in range.
fn add_terms(terms: &mut Vec<Term>, more: &[Term]) -> Result<(), NoMemory>
    ensures items { OnOk result (terms.new.items ≡ terms.old.items ++ more.now) }
    ensures narrow { OnOk result (list_any wide_term more.now ≡ false) }
{
    for term in more {
        add_term(terms, *term)?;
    }
    Ok(())
}

/// Adds what the set variable's image brings, or the variable itself where it is unbound.
#[tactic(auto, using(crate::proofs::Images::AllSets_with_new, crate::proofs::Images::AllSets_with_all_new))]
fn add_image_vars(vars: &mut Vec<Var>, var: Var, by: &Subst) -> Result<(), NoMemory>
    requires { var.sort ≡ Set }
    ensures vars { OnOk result (vars.new.items ≡ with_all_new var_eq vars.old.items (image_of by.now var).vars) }
    ensures sorts { OnOk result (AllSets vars.old.items → AllSets vars.new.items) }
{
    match by.set_image(var) {
        Some(image) => add_vars(vars, image.vars()),
        None => add_var(vars, var),
    }
}

/// Adds the elements of the set variable's image. Each is in range.
fn add_image_elems(elems: &mut Vec<Term>, var: Var, by: &Subst) -> Result<(), NoMemory>
    ensures elems { OnOk result (elems.new.items ≡ elems.old.items ++ (image_of by.now var).elems) }
    ensures narrow { OnOk result (list_any wide_term (image_of by.now var).elems ≡ false) }
{
    match by.set_image(var) {
        Some(image) => add_terms(elems, image.elems()),
        None => Ok(()),
    }
}

impl SetTerm {
    #[tactic(auto, using(crate::proofs::Repeats::with_all_new_append))]
    fn applied_vars(&self, alloc: Global, by: &Subst) -> Result<List<Var>, NoMemory>
        ensures vars { IfOk result (λ vs. vs ≡ without_repeats var_eq (image_vars by.now self.now.vars)) }
        ensures sorts { IfOk result (λ vs. AllSets vs) }
    {
        let mut vars = Vec::new(alloc);
        for var in self.vars.as_slice() {
            add_image_vars(&mut vars, *var, by)?;
        }
        Ok(List::from_vec(vars))
    }

    fn image_elems(&self, alloc: Global, by: &Subst) -> Result<Vec<Term>, NoMemory>
        ensures elems { IfOk result (λ es. es.items ≡ image_elems by.now self.now.vars) }
        ensures narrow { OnOk result (list_any wide_term (image_elems by.now self.now.vars) ≡ false) }
    {
        let mut elems = Vec::new(alloc);
        for var in self.vars.as_slice() {
            add_image_elems(&mut elems, *var, by)?;
        }
        Ok(elems)
    }

    /// What the images bring, with repeats.
    fn brought(&self, alloc: Global, by: &Subst) -> Result<List<Term>, Fail<TooWide>>
        ensures { GivesUnless (wide_set (apply_set by.now self.now)) (brought by.now self.now) result }
    {
        let mut elems = self.image_elems(alloc, by)?;
        for elem in self.elems.as_slice() {
            elems.push(elem.apply(by)?)?;
        }
        Ok(List::from_vec(elems))
    }

    fn applied_elems(&self, alloc: Global, by: &Subst) -> Result<List<Term>, Fail<TooWide>>
        ensures { GivesUnless (wide_set (apply_set by.now self.now)) (apply_set by.now self.now).elems result }
    {
        let elems = self.brought(alloc, by)?;
        Ok(each_once(alloc, elems)?)
    }
}

/// A comparison of two integers or two sets, a membership or an inclusion, or the negation of one.
#[derive(Debug, Drop, PartialEq, Eq, Hash)]
pub enum Lit {
    Eq(Term, Term),
    Ne(Term, Term),
    Le(Term, Term),
    Lt(Term, Term),
    Same(SetTerm, SetTerm),
    NotSame(SetTerm, SetTerm),
    Member(Term, SetTerm),
    NotMember(Term, SetTerm),
    Sub(SetTerm, SetTerm),
    NotSub(SetTerm, SetTerm),
}

impl Lit {
    /// The literal that is true where this one is false.
    #[tactic(auto, using(crate::proofs::Negation::opposite_of))]
    pub fn negated(self) -> Lit
        ensures gives { result ≡ negated self }
        ensures turned { IsOpposite self result }
    {
        match self {
            Lit::Eq(a, b) => Lit::Ne(a, b),
            Lit::Ne(a, b) => Lit::Eq(a, b),
            Lit::Le(a, b) => Lit::Lt(b, a),
            Lit::Lt(a, b) => Lit::Le(b, a),
            Lit::Same(a, b) => Lit::NotSame(a, b),
            Lit::NotSame(a, b) => Lit::Same(a, b),
            Lit::Member(a, b) => Lit::NotMember(a, b),
            Lit::NotMember(a, b) => Lit::Member(a, b),
            Lit::Sub(a, b) => Lit::NotSub(a, b),
            Lit::NotSub(a, b) => Lit::Sub(a, b),
        }
    }
}

impl Lit {
    /// The literal with the substitution applied to both sides. It is `TooWide` exactly where an
    /// offset in it passes 2^32 in size.
    pub fn apply(&self, alloc: Global, by: &Subst) -> Result<Lit, Fail<TooWide>>
        ensures gives { GivesUnless (wide_lit (apply_lit by.now self.now)) (apply_lit by.now self.now) result }
        ensures truth { IfOk result (λ l. TruthUnder by.now self.now l) }
    {
        Ok(match self {
            Lit::Eq(a, b) => Lit::Eq(a.apply(by)?, b.apply(by)?),
            Lit::Ne(a, b) => Lit::Ne(a.apply(by)?, b.apply(by)?),
            Lit::Le(a, b) => Lit::Le(a.apply(by)?, b.apply(by)?),
            Lit::Lt(a, b) => Lit::Lt(a.apply(by)?, b.apply(by)?),
            Lit::Same(a, b) => Lit::Same(a.apply(alloc, by)?, b.apply(alloc, by)?),
            Lit::NotSame(a, b) => Lit::NotSame(a.apply(alloc, by)?, b.apply(alloc, by)?),
            Lit::Member(a, b) => Lit::Member(a.apply(by)?, b.apply(alloc, by)?),
            Lit::NotMember(a, b) => Lit::NotMember(a.apply(by)?, b.apply(alloc, by)?),
            Lit::Sub(a, b) => Lit::Sub(a.apply(alloc, by)?, b.apply(alloc, by)?),
            Lit::NotSub(a, b) => Lit::NotSub(a.apply(alloc, by)?, b.apply(alloc, by)?),
        })
    }
}

impl Copied for SetTerm {
    fn copy(&self, alloc: Global) -> Result<SetTerm, NoMemory> {
        Ok(SetTerm {
            vars: self.vars.copy(alloc)?,
            elems: self.elems.copy(alloc)?,
        })
    }
}

impl Copied for Lit {
    fn copy(&self, alloc: Global) -> Result<Lit, NoMemory> {
        Ok(match self {
            Lit::Eq(a, b) => Lit::Eq(*a, *b),
            Lit::Ne(a, b) => Lit::Ne(*a, *b),
            Lit::Le(a, b) => Lit::Le(*a, *b),
            Lit::Lt(a, b) => Lit::Lt(*a, *b),
            Lit::Same(a, b) => Lit::Same(a.copy(alloc)?, b.copy(alloc)?),
            Lit::NotSame(a, b) => Lit::NotSame(a.copy(alloc)?, b.copy(alloc)?),
            Lit::Member(a, b) => Lit::Member(*a, b.copy(alloc)?),
            Lit::NotMember(a, b) => Lit::NotMember(*a, b.copy(alloc)?),
            Lit::Sub(a, b) => Lit::Sub(a.copy(alloc)?, b.copy(alloc)?),
            Lit::NotSub(a, b) => Lit::NotSub(a.copy(alloc)?, b.copy(alloc)?),
        })
    }
}

impl Exact for SetTerm {
    ghost use Rattle.cyp_term.specs.ExactLits.{exact_set_term};

    ghost exact = { exact_set_term };
}

impl Exact for Lit {
    ghost use Rattle.cyp_term.specs.ExactLits.{exact_lit};

    ghost exact = { exact_lit };
}
