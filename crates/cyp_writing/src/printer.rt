ghost use Rattle.std.specs.Prelude.{[], List, OnOk, codes, decimal, not, ℕ, ◌++◌, ◌≡◌};
ghost use Rattle.cyp_lex.specs.Lexemes.{Name, Number, Reserved, Symbol};
ghost use Rattle.cyp_lex.specs.declared.token.Word.{Word};
ghost use Rattle.cyp_writing.specs.declared.printer.Edge.TheVariants.{AfterName, LineStart};
ghost use Rattle.cyp_writing.specs.PrintMarks.{blank_if, edge_of, takes_blank, with_said};
ghost use Rattle.cyp_writing.specs.Printing.{is_closing};
ghost use Rattle.cyp_writing.specs.PrintedTrees.{sort_letter};

use cyp_lex::{Sign, Word};
use cyp_term::{List, NoMemory, Sort, Text};
use itoa::Buffer;
use std::alloc::Global;
use std::marker::Model;

/// What stands before the next token.
#[derive(Clone, Copy)]
pub(crate) enum Edge {
    LineStart,
    AfterOpening,
    AfterName,
    AfterOther,
}

/// Writes tokens one after another, with a blank between each two that aren't tight.
#[derive(Drop)]
pub(crate) struct Printer {
    bytes: Vec<u8>,
    edge: Edge,
}

impl Model for Printer {
    ghost use Rattle.cyp_lex.specs.declared.token.Word.{Word};
    ghost use Rattle.cyp_writing.specs.PrintMarks.{Printed};

    ghost Value = { Printed };

    ghost view = { λ p. record { bytes = p.bytes.items; edge = p.edge } };
}

/// The bytes of a blank, if there is one.
fn blank_bytes(is_there: bool) -> &'static [u8]
    ensures { result.now ≡ blank_if is_there }
{
    if is_there { b" " } else { b"" }
}

/// Whether no blank stands before the symbol.
fn is_closing(sign: Sign) -> bool
    ensures { result ≡ is_closing (Symbol sign) }
{
    match sign {
        Sign::RightParen | Sign::RightBracket | Sign::Comma => true,
        _ => false,
    }
}

/// Whether the symbol is tight behind a name.
fn is_tight_to_name(sign: Sign) -> bool
    ensures { not result ≡ takes_blank AfterName (Symbol sign) }
{
    match sign {
        Sign::LeftParen => true,
        _ => is_closing(sign),
    }
}

impl Edge {
    /// Whether a blank stands before a symbol.
    fn takes_blank(self, sign: Sign) -> bool
        ensures { result ≡ takes_blank self (Symbol sign) }
    {
        match self {
            Edge::LineStart | Edge::AfterOpening => false,
            Edge::AfterName => !is_tight_to_name(sign),
            Edge::AfterOther => !is_closing(sign),
        }
    }

    /// Whether a blank stands before a token that is no symbol.
    fn takes_blank_before_word(self) -> bool
        ensures name { (text : List ℕ) → result ≡ takes_blank self (Name text) }
        ensures number { (n : ℕ) → result ≡ takes_blank self (Number n) }
        ensures word { (w : Word) → result ≡ takes_blank self (Reserved w) }
    {
        match self {
            Edge::LineStart | Edge::AfterOpening => false,
            Edge::AfterName | Edge::AfterOther => true,
        }
    }
}

/// What the symbol is to the next token.
fn edge_behind(sign: Sign) -> Edge
    ensures { result ≡ edge_of (Symbol sign) }
{
    match sign {
        Sign::LeftParen | Sign::LeftBracket => Edge::AfterOpening,
        _ => Edge::AfterOther,
    }
}

/// The letter of the variables of a sort.
fn letter(sort: Sort) -> &'static [u8]
    ensures { result.now ≡ sort_letter sort }
{
    match sort {
        Sort::Set => b"s",
        Sort::Int | Sort::Card => b"x",
    }
}

impl Printer {
    /// Nothing is written yet.
    pub(crate) fn new(alloc: Global) -> Printer
        ensures { result ≡ record { bytes = []; edge = LineStart } }
    {
        Printer {
            bytes: Vec::new(alloc),
            edge: Edge::LineStart,
        }
    }

    /// What is written.
    pub(crate) fn into_text(self) -> Text
        ensures { result ≡ self.bytes }
    {
        let Printer { bytes, edge: _ } = self;
        List::from_vec(bytes)
    }

    /// Writes a token, and a blank before it if there is one.
    fn token(&mut self, has_blank: bool, spelled: &[u8], edge: Edge) -> Result<(), NoMemory>
        ensures { OnOk result (self.new ≡ record { bytes = self.old.bytes ++ blank_if has_blank ++ spelled.now; edge = edge }) }
    {
        self.bytes.extend_from_slice(blank_bytes(has_blank))?;
        self.bytes.extend_from_slice(spelled)?;
        self.edge = edge;
        Ok(())
    }

    #[tactic(auto, unfolding(crate::specs::PrintMarks::with_said))]
    pub(crate) fn sign(&mut self, sign: Sign) -> Result<(), NoMemory>
        ensures { OnOk result (self.new ≡ with_said self.old (Symbol sign)) }
    {
        let has_blank = self.edge.takes_blank(sign);
        self.token(has_blank, sign.bytes(), edge_behind(sign))
    }

    #[tactic(auto, unfolding(crate::specs::PrintMarks::with_said))]
    pub(crate) fn word(&mut self, word: Word) -> Result<(), NoMemory>
        ensures { OnOk result (self.new ≡ with_said self.old (Reserved word)) }
    {
        let has_blank = self.edge.takes_blank_before_word();
        self.token(has_blank, word.bytes(), Edge::AfterOther)
    }

    #[tactic(auto, unfolding(crate::specs::PrintMarks::with_said))]
    pub(crate) fn name(&mut self, name: &[u8]) -> Result<(), NoMemory>
        ensures { OnOk result (self.new ≡ with_said self.old (Name name.now)) }
    {
        let has_blank = self.edge.takes_blank_before_word();
        self.token(has_blank, name, Edge::AfterName)
    }

    #[tactic(auto, unfolding(crate::specs::PrintMarks::with_said))]
    pub(crate) fn number(&mut self, number: u64) -> Result<(), NoMemory>
        ensures { OnOk result (self.new ≡ with_said self.old (Number number)) }
    {
        let has_blank = self.edge.takes_blank_before_word();
        let mut buffer = Buffer::new();
        self.token(
            has_blank,
            buffer.format(number).as_bytes(),
            Edge::AfterOther,
        )
    }

    /// Writes the variable of a sort that has this number, counted from 1.
    #[tactic(auto, unfolding(crate::specs::PrintMarks::with_said))]
    pub(crate) fn variable(&mut self, sort: Sort, number: u64) -> Result<(), NoMemory>
        ensures { OnOk result (self.new ≡ with_said self.old (Name (sort_letter sort ++ decimal number))) }
    {
        let has_blank = self.edge.takes_blank_before_word();
        self.token(has_blank, letter(sort), Edge::AfterName)?;
        let mut buffer = Buffer::new();
        self.token(false, buffer.format(number).as_bytes(), Edge::AfterName)
    }

    /// Ends a line.
    pub(crate) fn end_line(&mut self) -> Result<(), NoMemory>
        ensures { OnOk result (self.new ≡ record { bytes = self.old.bytes ++ codes "\n"; edge = LineStart }) }
    {
        self.bytes.push(b'\n')?;
        self.edge = Edge::LineStart;
        Ok(())
    }
}
