ghost use Rattle.std.specs.Prelude.{OnOk, map, ◌≡◌};
ghost use Rattle.cyp_lex.specs.Lexemes.{Symbol};
ghost use Rattle.cyp_lex.specs.Spelling.{more_spelling};
ghost use Rattle.cyp_lex.specs.declared.token.Sign.TheVariants.{TwoPluses};
ghost use Rattle.cyp_writing.specs.PrintMarks.{with_marks};
ghost use Rattle.cyp_writing.specs.PrintParts.{constant_marks, elem_marks, offset_marks, set_marks, term_marks, var_marks};
ghost use Rattle.cyp_text.specs.Grammar.{braces_spelling, int_spelling};
ghost use Rattle.cyp_writing.specs.PrintedTrees.{term_tree};

use crate::printed_lists::{Print, print_apart};
use crate::printer::Printer;
use cyp_heap::Preds;
use cyp_lex::Sign;
use cyp_term::{NoMemory, SetTerm, Term, Var};

impl Print for Term {
    ghost spelling = { term_marks };

    fn print(&self, _preds: &Preds, to: &mut Printer) -> Result<(), NoMemory> {
        to.term(self)
    }
}

impl Printer {
    pub(crate) fn var(&mut self, var: Var) -> Result<(), NoMemory>
        ensures { OnOk result (self.new ≡ with_marks self.old (var_marks var)) }
    {
        self.variable(var.sort, u64::from(var.number) + 1)
    }

    /// Prints a number of this size, and a minus before it if it is negative.
    fn constant(&mut self, is_negative: bool, size: u64) -> Result<(), NoMemory>
        ensures { OnOk result (self.new ≡ with_marks self.old (constant_marks is_negative size)) }
    {
        if !is_negative {
            return self.number(size);
        }
        self.sign(Sign::Minus)?;
        self.number(size)
    }

    /// Prints what is added to a variable, which has this size.
    fn offset(&mut self, is_negative: bool, size: u64) -> Result<(), NoMemory>
        ensures { OnOk result (self.new ≡ with_marks self.old (offset_marks is_negative size)) }
    {
        if size == 0 {
            return Ok(());
        }
        if is_negative {
            self.sign(Sign::Minus)?;
            return self.number(size);
        }
        self.sign(Sign::Plus)?;
        self.number(size)
    }

    pub(crate) fn term(&mut self, term: &Term) -> Result<(), NoMemory>
        ensures { OnOk result (self.new ≡ with_marks self.old (int_spelling (term_tree term.now))) }
    {
        let offset = term.offset();
        let is_negative = offset < 0;
        let size = offset.unsigned_abs();
        match term.base() {
            None => self.constant(is_negative, size),
            Some(var) => {
                self.var(var)?;
                self.offset(is_negative, size)
            }
        }
    }

    /// Prints terms in braces.
    fn braces(&mut self, preds: &Preds, elems: &[Term]) -> Result<(), NoMemory>
        ensures { OnOk result (self.new ≡ with_marks self.old (braces_spelling 0 (map term_tree elems.now))) }
    {
        self.sign(Sign::LeftBrace)?;
        print_apart(elems, Sign::Comma, preds, self)?;
        self.sign(Sign::RightBrace)
    }

    /// Prints the variables of a union behind its first.
    fn more_vars(&mut self, vars: &[Var]) -> Result<(), NoMemory>
        ensures { OnOk result (self.new ≡ with_marks self.old (more_spelling (Symbol TwoPluses) var_marks vars.now)) }
    {
        for var in vars {
            self.sign(Sign::TwoPluses)?;
            self.var(*var)?;
        }
        Ok(())
    }

    /// Prints the elements of a union behind its variables, if it has any.
    fn more_elems(&mut self, preds: &Preds, elems: &[Term]) -> Result<(), NoMemory>
        ensures { OnOk result (self.new ≡ with_marks self.old (elem_marks elems.now)) }
    {
        if elems.is_empty() {
            return Ok(());
        }
        self.sign(Sign::TwoPluses)?;
        self.braces(preds, elems)
    }

    /// Prints a union: its variables, and then its elements in braces.
    pub(crate) fn set(&mut self, preds: &Preds, set: &SetTerm) -> Result<(), NoMemory>
        ensures { OnOk result (self.new ≡ with_marks self.old (set_marks set.now)) }
    {
        match set.vars() {
            [] => self.braces(preds, set.elems()),
            [first, more @ ..] => {
                self.var(*first)?;
                self.more_vars(more)?;
                self.more_elems(preds, set.elems())
            }
        }
    }
}
