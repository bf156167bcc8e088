ghost use Rattle.std.specs.Prelude.{List, ◌≡◌, OnOk};
ghost use Rattle.cyp_lex.specs.Lexemes.{Symbol};
ghost use Rattle.cyp_lex.specs.Spelling.{Mark, all_spelling, more_spelling, separated};
ghost use Rattle.cyp_heap.specs.declared.pred.Preds.{Preds};
ghost use Rattle.cyp_writing.specs.PrintMarks.{with_marks};

use crate::printer::Printer;
use cyp_heap::Preds;
use cyp_lex::Sign;
use cyp_term::NoMemory;

/// A part of a specification, which is printed as tokens.
pub(crate) trait Print {
    ghost spelling: { Preds → Self → List Mark };

    fn print(&self, preds: &Preds, to: &mut Printer) -> Result<(), NoMemory>
        ensures { OnOk result (to.new ≡ with_marks to.old (spelling preds.now self.now)) };
}

/// Prints these parts, each behind the symbol.
pub(crate) fn print_more<T: Print>(
    items: &[T],
    separator: Sign,
    preds: &Preds,
    to: &mut Printer,
) -> Result<(), NoMemory>
    ensures { OnOk result (to.new ≡ with_marks to.old (more_spelling (Symbol separator) (T.spelling preds.now) items.now)) }
{
    for item in items {
        to.sign(separator)?;
        item.print(preds, to)?;
    }
    Ok(())
}

/// Prints these parts with the symbol between each two.
pub(crate) fn print_apart<T: Print>(
    items: &[T],
    separator: Sign,
    preds: &Preds,
    to: &mut Printer,
) -> Result<(), NoMemory>
    ensures { OnOk result (to.new ≡ with_marks to.old (separated (Symbol separator) (T.spelling preds.now) items.now)) }
{
    match items {
        [] => Ok(()),
        [first, more @ ..] => {
            first.print(preds, to)?;
            print_more(more, separator, preds, to)
        }
    }
}

/// Prints these parts one after another.
pub(crate) fn print_all<T: Print>(
    items: &[T],
    preds: &Preds,
    to: &mut Printer,
) -> Result<(), NoMemory>
    ensures { OnOk result (to.new ≡ with_marks to.old (all_spelling (T.spelling preds.now) items.now)) }
{
    for item in items {
        item.print(preds, to)?;
    }
    Ok(())
}
