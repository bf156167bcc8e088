ghost use Rattle.std.specs.Prelude.{[], ◌<◌, ◌≡◌, ◌++◌, IfOk, OnOk, codes, map, slice_get};
ghost use Rattle.cyp_prog.specs.PrintedLists.{arg_text, parameter_text, proc_name};
ghost use Rattle.cyp_prog.specs.ProgramText.{blanks, body_text, expr_text, join_with_comma, line, params_text, place_text, procedure_text, program_text, statement_text, test_sign_text, test_text};
ghost use Rattle.cyp_prog.specs.Programs.{Giving, Invoking, Loading, Storing, Taking, body_of, plain_proc, plain_program, plain_stmt};
ghost use Rattle.cyp_prog.specs.Rules.{names_of};

use crate::bytes::{add, add_integer, add_number, add_offset, add_variable};
use crate::count::one_more;
use crate::stmt::{Expr, Proc, Program, Stmt, Test, TestSign};
use cyp_term::{List, NoMemory, Text};
use std::alloc::Global;

fn add_expr(text: &mut Vec<u8>, expr: Expr) -> Result<(), NoMemory>
    ensures { OnOk result (text.new.items ≡ text.old.items ++ expr_text expr) }
{
    match expr.var {
        None => add_integer(text, expr.offset),
        Some(var) => {
            add_variable(text, u64::from(var))?;
            add_offset(text, expr.offset)
        }
    }
}

/// Writes an expression as a place that is read or written: a sum in parentheses.
fn add_place(text: &mut Vec<u8>, place: Expr) -> Result<(), NoMemory>
    ensures { OnOk result (text.new.items ≡ text.old.items ++ place_text place) }
{
    if place.var.is_none() || place.offset == 0 {
        return add_expr(text, place);
    }
    add(text, b"(")?;
    add_expr(text, place)?;
    add(text, b")")
}

/// Writes an operator with a blank on each side.
fn add_test_sign(text: &mut Vec<u8>, sign: TestSign) -> Result<(), NoMemory>
    ensures { OnOk result (text.new.items ≡ text.old.items ++ test_sign_text sign) }
{
    match sign {
        TestSign::Equal => add(text, b" == "),
        TestSign::Unequal => add(text, b" != "),
        TestSign::AtMost => add(text, b" <= "),
        TestSign::Below => add(text, b" < "),
    }
}

fn add_test(text: &mut Vec<u8>, test: Test) -> Result<(), NoMemory>
    ensures { OnOk result (text.new.items ≡ text.old.items ++ test_text test) }
{
    add_expr(text, test.left)?;
    add_test_sign(text, test.sign)?;
    add_expr(text, test.right)
}

/// Writes the argument at this place, with a comma before it if it isn't the first.
fn add_arg(text: &mut Vec<u8>, place: usize, arg: Expr) -> Result<(), NoMemory>
    ensures { OnOk result (text.new.items ≡ text.old.items ++ arg_text place arg) }
{
    if place > 0 {
        add(text, b", ")?;
    }
    add_expr(text, arg)
}

/// Writes the expressions with a comma and a blank between neighbours.
fn add_args(text: &mut Vec<u8>, args: &[Expr]) -> Result<(), NoMemory>
    ensures { OnOk result (text.new.items ≡ text.old.items ++ join_with_comma (map expr_text args.now)) }
{
    for (place, arg) in args.iter().enumerate() {
        add_arg(text, place, *arg)?;
    }
    Ok(())
}

/// Writes two blanks for each level.
fn add_blanks(text: &mut Vec<u8>, level: u64) -> Result<(), NoMemory>
    ensures { OnOk result (text.new.items ≡ text.old.items ++ blanks level) }
{
    for _ in 0..level {
        add(text, b"  ")?;
    }
    Ok(())
}

/// Writes that a variable is bound to what a cell holds.
fn add_load(text: &mut Vec<u8>, level: u64, var: u16, from: Expr) -> Result<(), NoMemory>
    ensures { OnOk result (text.new.items ≡ text.old.items ++ statement_text [] level (Loading var from)) }
{
    add_blanks(text, level)?;
    add(text, b"let ")?;
    add_variable(text, u64::from(var))?;
    add(text, b" = *")?;
    add_place(text, from)?;
    add(text, b";\n")
}

/// Writes that a content is stored in a cell.
fn add_store(text: &mut Vec<u8>, level: u64, at: Expr, content: Expr) -> Result<(), NoMemory>
    ensures { OnOk result (text.new.items ≡ text.old.items ++ statement_text [] level (Storing at content)) }
{
    add_blanks(text, level)?;
    add(text, b"*")?;
    add_place(text, at)?;
    add(text, b" = ")?;
    add_expr(text, content)?;
    add(text, b";\n")
}

/// Writes that a variable is bound to a new block of so many cells.
fn add_allocation(text: &mut Vec<u8>, level: u64, var: u16, size: u8) -> Result<(), NoMemory>
    ensures { OnOk result (text.new.items ≡ text.old.items ++ statement_text [] level (Taking var size)) }
{
    add_blanks(text, level)?;
    add(text, b"let ")?;
    add_variable(text, u64::from(var))?;
    add(text, b" = malloc(")?;
    add_number(text, u64::from(size))?;
    add(text, b");\n")
}

/// Writes that a block is freed.
fn add_free(text: &mut Vec<u8>, level: u64, at: Expr) -> Result<(), NoMemory>
    ensures { OnOk result (text.new.items ≡ text.old.items ++ statement_text [] level (Giving at)) }
{
    add_blanks(text, level)?;
    add(text, b"free(")?;
    add_expr(text, at)?;
    add(text, b");\n")
}

/// Writes the name of the procedure at this place.
fn add_name(text: &mut Vec<u8>, procs: &[Proc], place: u16) -> Result<(), NoMemory>
    ensures { OnOk result (text.new.items ≡ text.old.items ++ proc_name (slice_get procs.now place)) }
{
    match procs.get(usize::from(place)) {
        Some(proc) => add(text, proc.name.as_slice()),
        None => Ok(()),
    }
}

/// Writes a call of the procedure at this place.
fn add_call(
    text: &mut Vec<u8>,
    procs: &[Proc],
    level: u64,
    place: u16,
    args: &[Expr],
) -> Result<(), NoMemory>
    ensures { OnOk result (text.new.items ≡ text.old.items ++ statement_text (names_of (map plain_proc procs.now)) level (Invoking place args.now)) }
{
    add_blanks(text, level)?;
    add_name(text, procs, place)?;
    add(text, b"(")?;
    add_args(text, args)?;
    add(text, b");\n")
}

/// Writes the line that a conditional begins with.
fn add_if(text: &mut Vec<u8>, level: u64, test: Test) -> Result<(), NoMemory>
    ensures { OnOk result (text.new.items ≡ text.old.items ++ line level (codes "if (" ++ test_text test ++ codes ") {")) }
{
    add_blanks(text, level)?;
    add(text, b"if (")?;
    add_test(text, test)?;
    add(text, b") {\n")
}

/// Writes a line of these bytes.
fn add_line(text: &mut Vec<u8>, level: u64, bytes: &[u8]) -> Result<(), NoMemory>
    ensures { OnOk result (text.new.items ≡ text.old.items ++ line level bytes.now) }
{
    add_blanks(text, level)?;
    add(text, bytes)?;
    add(text, b"\n")
}

#[cycle(print)]
fn add_stmt(text: &mut Vec<u8>, procs: &[Proc], level: u64, stmt: &Stmt) -> Result<(), NoMemory>
    ensures { OnOk result (text.new.items ≡ text.old.items ++ statement_text (names_of (map plain_proc procs.now)) level (plain_stmt stmt.now)) }
{
    match stmt {
        Stmt::Load(var, from) => add_load(text, level, *var, *from),
        Stmt::Store(at, content) => add_store(text, level, *at, *content),
        Stmt::Take(var, size) => add_allocation(text, level, *var, *size),
        Stmt::Give(at) => add_free(text, level, *at),
        Stmt::Invoke(place, args) => add_call(text, procs, level, *place, args.as_slice()),
        Stmt::If(test, then_part, else_part) => {
            let deeper = one_more(level)?;
            add_if(text, level, *test)?;
            add_stmts(text, procs, deeper, then_part.as_slice())?;
            add_line(text, level, b"} else {")?;
            add_stmts(text, procs, deeper, else_part.as_slice())?;
            add_line(text, level, b"}")
        }
        Stmt::Error => add_line(text, level, b"error;"),
    }
}

/// Writes the statements, each on lines of its own.
#[cycle(print)]
fn add_stmts(text: &mut Vec<u8>, procs: &[Proc], level: u64, stmts: &[Stmt]) -> Result<(), NoMemory>
    ensures { OnOk result (text.new.items ≡ text.old.items ++ body_text (names_of (map plain_proc procs.now)) level (body_of (map plain_stmt stmts.now))) }
{
    for stmt in stmts {
        add_stmt(text, procs, level, stmt)?;
    }
    Ok(())
}

/// Writes the parameter at this place, with a comma before it if it isn't the first.
fn add_parameter(text: &mut Vec<u8>, place: u64) -> Result<(), NoMemory>
    requires { place < 65536 }
    ensures { OnOk result (text.new.items ≡ text.old.items ++ parameter_text place) }
{
    if place > 0 {
        add(text, b", ")?;
    }
    add_variable(text, place + 1)
}

/// Writes this many parameters.
fn add_parameters(text: &mut Vec<u8>, count: u16) -> Result<(), NoMemory>
    ensures { OnOk result (text.new.items ≡ text.old.items ++ join_with_comma (params_text 1 count)) }
{
    for place in 0..u64::from(count) {
        add_parameter(text, place)?;
    }
    Ok(())
}

fn add_proc(text: &mut Vec<u8>, procs: &[Proc], proc: &Proc) -> Result<(), NoMemory>
    ensures { OnOk result (text.new.items ≡ text.old.items ++ procedure_text (names_of (map plain_proc procs.now)) (plain_proc proc.now)) }
{
    add(text, b"void ")?;
    add(text, proc.name.as_slice())?;
    add(text, b"(")?;
    add_parameters(text, proc.params)?;
    add(text, b") {\n")?;
    add_stmts(text, procs, 1, proc.body.as_slice())?;
    add(text, b"}\n")
}

/// The printed form of the program.
pub fn write_program(alloc: Global, program: &Program) -> Result<Text, NoMemory>
    ensures { IfOk result (λ text. text ≡ program_text (plain_program program.now)) }
{
    let procs = program.procs();
    let mut text = Vec::new(alloc);
    for proc in procs {
        add_proc(&mut text, procs, proc)?;
    }
    Ok(List::from_vec(text))
}
