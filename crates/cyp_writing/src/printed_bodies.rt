ghost use Rattle.std.specs.Prelude.{OnOk, map, ◌≡◌};
ghost use Rattle.cyp_writing.specs.PrintMarks.{with_marks};
ghost use Rattle.cyp_writing.specs.PrintParts.{clause_marks};
ghost use Rattle.cyp_text.specs.Grammar.{heap_spelling, in_braces, pure_spelling};
ghost use Rattle.cyp_writing.specs.PrintedTrees.{body_tree, chunk_tree, pure_tree};

use crate::printed_lists::{Print, print_apart};
use crate::printer::Printer;
use cyp_heap::{Chunk, Clause, Preds};
use cyp_lex::{Sign, Word};
use cyp_term::{Lit, NoMemory};

impl Print for Clause {
    ghost spelling = { clause_marks };

    fn print(&self, preds: &Preds, to: &mut Printer) -> Result<(), NoMemory> {
        to.clause(preds, self)
    }
}

impl Printer {
    /// Prints the pure part of a body, if it has one.
    fn pure(&mut self, preds: &Preds, lits: &[Lit]) -> Result<(), NoMemory>
        ensures { OnOk result (self.new ≡ with_marks self.old (pure_spelling (pure_tree lits.now))) }
    {
        if lits.is_empty() {
            return Ok(());
        }
        print_apart(lits, Sign::AndAnd, preds, self)?;
        self.sign(Sign::Semicolon)
    }

    /// Prints the chunks of a heap, or `emp`.
    fn heap(&mut self, preds: &Preds, chunks: &[Chunk]) -> Result<(), NoMemory>
        ensures { OnOk result (self.new ≡ with_marks self.old (heap_spelling (map (chunk_tree preds.now) chunks.now))) }
    {
        if chunks.is_empty() {
            return self.word(Word::Emp);
        }
        print_apart(chunks, Sign::TwoStars, preds, self)
    }

    /// Prints a body in its braces.
    pub(crate) fn body(
        &mut self,
        preds: &Preds,
        lits: &[Lit],
        chunks: &[Chunk],
    ) -> Result<(), NoMemory>
        ensures { OnOk result (self.new ≡ with_marks self.old (in_braces (body_tree preds.now lits.now chunks.now))) }
    {
        self.sign(Sign::LeftBrace)?;
        self.pure(preds, lits)?;
        self.heap(preds, chunks)?;
        self.sign(Sign::RightBrace)
    }

    fn clause(&mut self, preds: &Preds, clause: &Clause) -> Result<(), NoMemory>
        ensures { OnOk result (self.new ≡ with_marks self.old (clause_marks preds.now clause.now)) }
    {
        self.sign(Sign::Bar)?;
        clause.guard.print(preds, self)?;
        self.sign(Sign::Implies)?;
        self.body(preds, clause.lits.as_slice(), clause.heap.chunks())
    }
}
