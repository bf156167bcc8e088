ghost use Rattle.std.specs.Prelude.{OnOk, slice_get, ◌≡◌};
ghost use Rattle.cyp_lex.specs.Lexemes.{Name};
ghost use Rattle.cyp_heap.specs.declared.chunk.Chunk.TheVariants.{Block, Cell, Inst};
ghost use Rattle.cyp_heap.specs.declared.pred.Preds.{Preds};
ghost use Rattle.cyp_writing.specs.PrintMarks.{with_marks, with_said};
ghost use Rattle.cyp_writing.specs.PrintParts.{address_marks, arg_marks, chunk_marks};
ghost use Rattle.cyp_writing.specs.PrintedTrees.{pred_name, term_tree};

use crate::printed_lists::{Print, print_apart};
use crate::printer::Printer;
use cyp_heap::{Arg, BlockAt, CellAt, Chunk, InstOf, Preds};
use cyp_lex::Sign;
use cyp_term::{NoMemory, Term};

impl Print for Arg {
    ghost spelling = { arg_marks };

    fn print(&self, preds: &Preds, to: &mut Printer) -> Result<(), NoMemory> {
        match self {
            Arg::Int(term) => to.term(term),
            Arg::Set(set) => to.set(preds, set),
        }
    }
}

impl Print for Chunk {
    ghost spelling = { chunk_marks };

    fn print(&self, preds: &Preds, to: &mut Printer) -> Result<(), NoMemory> {
        match self {
            Chunk::Inst(inst) => to.instance(preds, inst),
            Chunk::Block(block) => to.block(block),
            Chunk::Cell(cell) => to.cell(cell),
        }
    }
}

impl Printer {
    /// Prints the name of the predicate at this place.
    fn pred_name(&mut self, preds: &Preds, place: u8) -> Result<(), NoMemory>
        ensures { OnOk result (self.new ≡ with_said self.old (Name (pred_name (slice_get preds.now.list place)))) }
    {
        match preds.list().get(usize::from(place)) {
            Some(pred) => self.name(pred.name.as_slice()),
            None => self.name(b""),
        }
    }

    /// Prints an instance, without its cardinality and its tag.
    fn instance(&mut self, preds: &Preds, inst: &InstOf) -> Result<(), NoMemory>
        ensures { OnOk result (self.new ≡ with_marks self.old (chunk_marks preds.now (Inst inst.now))) }
    {
        self.pred_name(preds, inst.pred)?;
        self.sign(Sign::LeftParen)?;
        print_apart(inst.args.as_slice(), Sign::Comma, preds, self)?;
        self.sign(Sign::RightParen)
    }

    fn block(&mut self, block: &BlockAt) -> Result<(), NoMemory>
        ensures { (preds : Preds) → OnOk result (self.new ≡ with_marks self.old (chunk_marks preds (Block block.now))) }
    {
        self.sign(Sign::LeftBracket)?;
        self.term(&block.at())?;
        self.sign(Sign::Comma)?;
        self.number(u64::from(block.size()))?;
        self.sign(Sign::RightBracket)
    }

    /// Prints an address, in parentheses unless it is a variable alone.
    fn address(&mut self, at: &Term) -> Result<(), NoMemory>
        ensures { OnOk result (self.new ≡ with_marks self.old (address_marks (term_tree at.now))) }
    {
        match at.base() {
            Some(var) if at.offset() == 0 => self.var(var),
            _ => {
                self.sign(Sign::LeftParen)?;
                self.term(at)?;
                self.sign(Sign::RightParen)
            }
        }
    }

    fn cell(&mut self, cell: &CellAt) -> Result<(), NoMemory>
        ensures { (preds : Preds) → OnOk result (self.new ≡ with_marks self.old (chunk_marks preds (Cell cell.now))) }
    {
        self.address(&cell.at)?;
        self.sign(Sign::PointsTo)?;
        self.term(&cell.content)
    }
}
