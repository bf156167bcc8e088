ghost use Rattle.std.specs.Prelude.{IfOk, OnOk, ◌≡◌};
ghost use Rattle.cyp_writing.specs.PrintMarks.{with_lines};
ghost use Rattle.cyp_writing.specs.declared.printer.Edge.TheVariants.{LineStart};
ghost use Rattle.cyp_writing.specs.Printing.{pred_line, proc_line, specification_text};

use crate::printed_lists::print_all;
use crate::printer::Printer;
use cyp_heap::{Goal, Pred, Preds};
use cyp_lex::{Sign, Word};
use cyp_term::{NoMemory, Text};
use std::alloc::Global;

impl Printer {
    /// Prints a predicate on a line.
    fn pred_line(&mut self, alloc: Global, preds: &Preds, pred: &Pred) -> Result<(), NoMemory>
        requires { self.old.edge ≡ LineStart }
        ensures { OnOk result (self.new ≡ with_lines self.old.bytes (pred_line preds.now pred.now)) }
    {
        self.word(Word::Predicate)?;
        self.name(pred.name.as_slice())?;
        self.sorted_params(alloc, preds, pred.params.as_slice())?;
        self.sign(Sign::LeftBrace)?;
        print_all(pred.clauses.as_slice(), preds, self)?;
        self.sign(Sign::RightBrace)?;
        self.end_line()
    }

    /// Prints the procedure of this name with this goal on a line.
    pub(crate) fn proc_line(
        &mut self,
        preds: &Preds,
        name: &[u8],
        goal: &Goal,
    ) -> Result<(), NoMemory>
        requires { self.old.edge ≡ LineStart }
        ensures { OnOk result (self.new ≡ with_lines self.old.bytes (proc_line (record { preds = preds.now; name = name.now; goal = goal.now }))) }
    {
        self.word(Word::Void)?;
        self.name(name)?;
        self.params(preds, goal.program.as_slice())?;
        self.body(preds, goal.pure_pre.as_slice(), goal.pre.chunks())?;
        self.body(preds, goal.pure_post.as_slice(), goal.post.chunks())?;
        self.end_line()
    }
}

/// The text of the specification of a procedure of this name with this goal: each predicate and
/// then the procedure on a line.
pub fn spec_text(alloc: Global, preds: &Preds, name: &[u8], goal: &Goal) -> Result<Text, NoMemory>
    ensures { IfOk result (λ t. t ≡ specification_text (record { preds = preds.now; name = name.now; goal = goal.now })) }
{
    let mut printer = Printer::new(alloc);
    for pred in preds.list() {
        printer.pred_line(alloc, preds, pred)?;
    }
    printer.proc_line(preds, name, goal)?;
    Ok(printer.into_text())
}
