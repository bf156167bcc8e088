ghost use Rattle.std.specs.Prelude.{◌∷◌, ◌++◌, ◌≡◌, OnOk};
ghost use Rattle.cyp_lex.specs.Spelling.{sign, word};
ghost use Rattle.cyp_lex.specs.declared.token.Word.TheVariants.{In};
ghost use Rattle.cyp_writing.specs.PrintMarks.{with_marks};
ghost use Rattle.cyp_writing.specs.PrintParts.{lit_marks, negated_marks, negation_marks, set_marks};
ghost use Rattle.cyp_text.specs.Grammar.{int_spelling};
ghost use Rattle.cyp_writing.specs.PrintedTrees.{term_tree};

use crate::printed_lists::Print;
use crate::printer::Printer;
use cyp_heap::Preds;
use cyp_lex::{Sign, Word};
use cyp_term::{Lit, NoMemory, SetTerm, Term};

impl Print for Lit {
    ghost spelling = { lit_marks };

    fn print(&self, preds: &Preds, to: &mut Printer) -> Result<(), NoMemory> {
        match self {
            Lit::Eq(a, b) => to.terms_compared(a, Sign::Equal, b),
            Lit::Ne(a, b) => to.terms_compared(a, Sign::Unequal, b),
            Lit::Le(a, b) => to.terms_compared(a, Sign::AtMost, b),
            Lit::Lt(a, b) => to.terms_compared(a, Sign::Less, b),
            Lit::Same(a, b) => to.sets_compared(preds, a, Sign::Same, b),
            Lit::NotSame(a, b) => to.sets_not_compared(preds, a, Sign::Same, b),
            Lit::Member(a, b) => to.member(preds, a, b),
            Lit::NotMember(a, b) => to.not_member(preds, a, b),
            Lit::Sub(a, b) => to.sets_compared(preds, a, Sign::Subset, b),
            Lit::NotSub(a, b) => to.sets_not_compared(preds, a, Sign::Subset, b),
        }
    }
}

impl Printer {
    /// Prints two terms with the symbol between them.
    fn terms_compared(&mut self, a: &Term, between: Sign, b: &Term) -> Result<(), NoMemory>
        ensures { OnOk result (self.new ≡ with_marks self.old (int_spelling (term_tree a.now) ++ (sign between ∷ int_spelling (term_tree b.now)))) }
    {
        self.term(a)?;
        self.sign(between)?;
        self.term(b)
    }

    /// Prints two unions with the symbol between them.
    fn sets_compared(
        &mut self,
        preds: &Preds,
        a: &SetTerm,
        between: Sign,
        b: &SetTerm,
    ) -> Result<(), NoMemory>
        ensures { OnOk result (self.new ≡ with_marks self.old (set_marks a.now ++ (sign between ∷ set_marks b.now))) }
    {
        self.set(preds, a)?;
        self.sign(between)?;
        self.set(preds, b)
    }

    /// Prints that a term is in a union.
    fn member(&mut self, preds: &Preds, elem: &Term, set: &SetTerm) -> Result<(), NoMemory>
        ensures { OnOk result (self.new ≡ with_marks self.old (int_spelling (term_tree elem.now) ++ (word In ∷ set_marks set.now))) }
    {
        self.term(elem)?;
        self.word(Word::In)?;
        self.set(preds, set)
    }

    /// Begins a negation.
    fn open_negation(&mut self) -> Result<(), NoMemory>
        ensures { OnOk result (self.new ≡ with_marks self.old negation_marks) }
    {
        self.word(Word::Not)?;
        self.sign(Sign::LeftParen)
    }

    /// Prints two unions with the symbol between them, negated.
    fn sets_not_compared(
        &mut self,
        preds: &Preds,
        a: &SetTerm,
        between: Sign,
        b: &SetTerm,
    ) -> Result<(), NoMemory>
        ensures { OnOk result (self.new ≡ with_marks self.old (negated_marks (set_marks a.now ++ (sign between ∷ set_marks b.now)))) }
    {
        self.open_negation()?;
        self.sets_compared(preds, a, between, b)?;
        self.sign(Sign::RightParen)
    }

    /// Prints that a term isn't in a union.
    fn not_member(&mut self, preds: &Preds, elem: &Term, set: &SetTerm) -> Result<(), NoMemory>
        ensures { OnOk result (self.new ≡ with_marks self.old (negated_marks (int_spelling (term_tree elem.now) ++ (word In ∷ set_marks set.now)))) }
    {
        self.open_negation()?;
        self.member(preds, elem, set)?;
        self.sign(Sign::RightParen)
    }
}
