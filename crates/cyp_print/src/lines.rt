ghost use Rattle.std.specs.Prelude.{◌≡◌, [], ◌++◌, OnOk, Some, slice_get, zip};
ghost use Rattle.cyp_print.specs.Lines.{names_at, own_lines};
ghost use Rattle.cyp_kernel.specs.Naming.{expr_of};
ghost use Rattle.cyp_kernel.specs.Statements.{block_size, chunk_address, chunk_content};
ghost use Rattle.cyp_prog.specs.ProgramText.{expr_text, place_text, statement_text};
ghost use Rattle.cyp_prog.specs.Programs.{Giving, Loading, Storing, Taking};

use crate::bytes::{add, add_integer, add_number, add_offset, add_variable};
use crate::names::name_of;
use cyp_heap::{Chunk, Goal, Node};
use cyp_step::Rule;
use cyp_term::{NoMemory, Term};

/// Writes the number of a variable behind `v`, and an offset behind that.
fn add_sum(text: &mut Vec<u8>, number: u64, offset: i64) -> Result<(), NoMemory>
    ensures { OnOk result (text.new.items ≡ text.old.items ++ expr_text (record { var = Some number; offset = offset })) }
{
    add_variable(text, number)?;
    add_offset(text, offset)
}

/// Writes a term by the names of its variables.
fn add_term(text: &mut Vec<u8>, goal: &Goal, numbers: &[u64], term: Term) -> Result<(), NoMemory>
    ensures { OnOk result (text.new.items ≡ text.old.items ++ expr_text (expr_of (zip goal.now.program numbers.now) term)) }
{
    match term.base() {
        Some(var) => add_sum(
            text,
            name_of(goal.program.as_slice(), numbers, var),
            term.offset(),
        ),
        None => add_integer(text, term.offset()),
    }
}

/// Writes a sum in parentheses, and a variable bare.
fn add_sum_place(text: &mut Vec<u8>, number: u64, offset: i64) -> Result<(), NoMemory>
    ensures { OnOk result (text.new.items ≡ text.old.items ++ place_text (record { var = Some number; offset = offset })) }
{
    if offset == 0 {
        return add_variable(text, number);
    }
    add(text, b"(")?;
    add_sum(text, number, offset)?;
    add(text, b")")
}

/// Writes a term as a place that is read or written.
fn add_place(text: &mut Vec<u8>, goal: &Goal, numbers: &[u64], term: Term) -> Result<(), NoMemory>
    ensures { OnOk result (text.new.items ≡ text.old.items ++ place_text (expr_of (zip goal.now.program numbers.now) term)) }
{
    match term.base() {
        Some(var) => add_sum_place(
            text,
            name_of(goal.program.as_slice(), numbers, var),
            term.offset(),
        ),
        None => add_integer(text, term.offset()),
    }
}

/// Writes that a new variable is read from an address.
fn add_load(
    text: &mut Vec<u8>,
    goal: &Goal,
    numbers: &[u64],
    new: u64,
    at: Term,
) -> Result<(), NoMemory>
    ensures { OnOk result (text.new.items ≡ text.old.items ++ statement_text [] 1 (Loading new (expr_of (zip goal.now.program numbers.now) at))) }
{
    add(text, b"  let ")?;
    add_variable(text, new)?;
    add(text, b" = *")?;
    add_place(text, goal, numbers, at)?;
    add(text, b";\n")
}

/// Writes that a content is stored at an address.
fn add_store(
    text: &mut Vec<u8>,
    goal: &Goal,
    numbers: &[u64],
    at: Term,
    content: Term,
) -> Result<(), NoMemory>
    ensures { OnOk result (text.new.items ≡ text.old.items ++ statement_text [] 1 (Storing (expr_of (zip goal.now.program numbers.now) at) (expr_of (zip goal.now.program numbers.now) content))) }
{
    add(text, b"  *")?;
    add_place(text, goal, numbers, at)?;
    add(text, b" = ")?;
    add_term(text, goal, numbers, content)?;
    add(text, b";\n")
}

/// Writes that a block is freed.
fn add_free(text: &mut Vec<u8>, goal: &Goal, numbers: &[u64], at: Term) -> Result<(), NoMemory>
    ensures { OnOk result (text.new.items ≡ text.old.items ++ statement_text [] 1 (Giving (expr_of (zip goal.now.program numbers.now) at))) }
{
    add(text, b"  free(")?;
    add_term(text, goal, numbers, at)?;
    add(text, b");\n")
}

/// Writes that a new variable is a new block of so many cells.
fn add_allocation(text: &mut Vec<u8>, new: u64, size: u8) -> Result<(), NoMemory>
    ensures { OnOk result (text.new.items ≡ text.old.items ++ statement_text [] 1 (Taking new size)) }
{
    add(text, b"  let ")?;
    add_variable(text, new)?;
    add(text, b" = malloc(")?;
    add_number(text, u64::from(size))?;
    add(text, b");\n")
}

/// The address of the cell or block at this place, or 0 where there is none.
fn address_at(goal: &Goal, place: u8) -> Term
    ensures { result ≡ chunk_address (slice_get goal.now.pre.chunks place) }
{
    match goal.pre.chunks().get(usize::from(place)) {
        Some(Chunk::Cell(cell)) => cell.at,
        Some(Chunk::Block(block)) => block.at(),
        Some(Chunk::Inst(_)) | None => Term::new(None, 0),
    }
}

/// The content of the first cell of the postcondition, or 0 where there is none.
fn content_of_focus(goal: &Goal) -> Term
    ensures { result ≡ chunk_content (slice_get goal.now.post.chunks 0) }
{
    match goal.post.chunks().first() {
        Some(Chunk::Cell(cell)) => cell.content,
        _ => Term::new(None, 0),
    }
}

/// The size of the first block of the postcondition, or 0 where there is none.
fn size_of_focus(goal: &Goal) -> u8
    ensures { result ≡ block_size (slice_get goal.now.post.chunks 0) }
{
    match goal.post.chunks().first() {
        Some(Chunk::Block(block)) => block.size(),
        _ => 0,
    }
}

/// Writes the rule's own lines in the body of a procedure.
pub(crate) fn add_own_lines(
    text: &mut Vec<u8>,
    node: &Node,
    rule: &Rule,
    numbers: &[u64],
    new: u64,
) -> Result<(), NoMemory>
    ensures { OnOk result (text.new.items ≡ text.old.items ++ own_lines (names_at node.now numbers.now) new node.now rule.now) }
{
    let goal = node.goal();
    match rule {
        Rule::ByInconsistent => add(text, b"  error;\n"),
        Rule::ByRead(place) => add_load(text, goal, numbers, new, address_at(goal, *place)),
        Rule::ByWrite(place) => add_store(
            text,
            goal,
            numbers,
            address_at(goal, *place),
            content_of_focus(goal),
        ),
        Rule::ByFree(place) => add_free(text, goal, numbers, address_at(goal, *place)),
        Rule::ByAlloc => add_allocation(text, new, size_of_focus(goal)),
        _ => Ok(()),
    }
}
