ghost use Rattle.std.specs.Prelude.{[], IfOk, OnOk, filter, length, map, ◌≡◌, ◌≤◌};
ghost use Rattle.cyp_writing.specs.PrintMarks.{with_marks};
ghost use Rattle.cyp_writing.specs.PrintParts.{numbered_marks, param_marks, param_of};
ghost use Rattle.cyp_term.specs.Terms.{sort_eq};
ghost use Rattle.cyp_text.specs.Grammar.{params_spelling, sort_word};
ghost use Rattle.cyp_writing.specs.PrintedTrees.{param_tree, params_from, sort_tree};

use crate::printed_lists::{Print, print_apart};
use crate::printer::Printer;
use cyp_heap::Preds;
use cyp_lex::{Sign, Word};
use cyp_term::{NoMemory, Sort, Var};
use std::alloc::Global;

/// A parameter: its sort, and its number among those of the sort, counted from 1.
#[derive(Clone, Copy)]
pub(crate) struct Param {
    sort: Sort,
    number: u64,
}

impl Print for Param {
    ghost spelling = { λ preds p. numbered_marks p };

    fn print(&self, _preds: &Preds, to: &mut Printer) -> Result<(), NoMemory> {
        to.param(*self)
    }
}

impl Print for Var {
    ghost spelling = { param_marks };

    fn print(&self, _preds: &Preds, to: &mut Printer) -> Result<(), NoMemory> {
        to.param(Param {
            sort: self.sort,
            number: u64::from(self.number) + 1,
        })
    }
}

/// The word of a sort. Parameters are integers or sets.
fn sort_word(sort: Sort) -> Word
    ensures { result ≡ sort_word (sort_tree sort) }
{
    match sort {
        Sort::Set => Word::Set,
        Sort::Int | Sort::Card => Word::Int,
    }
}

/// How many of the sorts are this one.
fn count(sort: Sort, seen: &[Sort]) -> usize
    ensures count { result ≡ length (filter (sort_eq sort) seen.now) }
    ensures within { result ≤ length seen.now }
{
    seen.iter().filter(|other| **other == sort).count()
}

/// The parameters of these sorts.
fn numbered(alloc: Global, sorts: &[Sort]) -> Result<Vec<Param>, NoMemory>
    ensures { IfOk result (λ ps. ps.items ≡ map param_of (params_from [] sorts.now)) }
{
    let mut params = Vec::new(alloc);
    for (i, sort) in sorts.iter().enumerate() {
        params.push(Param {
            sort: *sort,
            number: count(*sort, &sorts[..i]) as u64 + 1,
        })?;
    }
    Ok(params)
}

impl Printer {
    fn param(&mut self, param: Param) -> Result<(), NoMemory>
        ensures { OnOk result (self.new ≡ with_marks self.old (numbered_marks param)) }
    {
        self.word(sort_word(param.sort))?;
        self.variable(param.sort, param.number)
    }

    /// Prints these variables as parameters in parentheses.
    pub(crate) fn params(&mut self, preds: &Preds, vars: &[Var]) -> Result<(), NoMemory>
        ensures { OnOk result (self.new ≡ with_marks self.old (params_spelling (map param_tree vars.now))) }
    {
        self.sign(Sign::LeftParen)?;
        print_apart(vars, Sign::Comma, preds, self)?;
        self.sign(Sign::RightParen)
    }

    /// Prints parameters of these sorts in parentheses.
    pub(crate) fn sorted_params(
        &mut self,
        alloc: Global,
        preds: &Preds,
        sorts: &[Sort],
    ) -> Result<(), NoMemory>
        ensures { OnOk result (self.new ≡ with_marks self.old (params_spelling (map param_tree (params_from [] sorts.now)))) }
    {
        let params = numbered(alloc, sorts)?;
        self.sign(Sign::LeftParen)?;
        print_apart(params.as_slice(), Sign::Comma, preds, self)?;
        self.sign(Sign::RightParen)
    }
}
