ghost use Rattle.std.specs.Prelude.{IfOk, IsTrue, List, OnErr, Some, None, length, map, ◌+◌, ◌<◌, ◌^◌, ◌≡◌, ◌≤◌};
ghost use Rattle.std.specs.List.{list_all};
ghost use Rattle.cyp_machine.specs.Bounds.{IsBounded};
ghost use Rattle.cyp_machine.specs.InRange.{IsOfProgram, expr_in_range, statement_in_range, test_in_range};
ghost use Rattle.cyp_machine.specs.Machine.{IsStepped, IsUnderWay, made};
ghost use Rattle.cyp_machine.specs.Rests.{first_of};
ghost use Rattle.cyp_machine.specs.States.{start as first_state, has_ended};
ghost use Rattle.cyp_prog.specs.Programs.{Choosing, Giving, Invoking, Loading, Procedure, Storing, Taking, body_of, plain_program, plain_stmt};

use crate::cause::Cause;
use crate::frame::{Frame, parameters};
use crate::heap::Heap;
use crate::stepped::Stepped;
use crate::store::Store;
use cyp_prog::{Expr, Program, Stmt, Test};
use cyp_term::{List, NoMemory};
use std::alloc::Global;
use std::collections::VecDeque;
use std::mem;

/// A state of a run. It stands for the definition's state: the heap, and above the callers, the
/// latest first, the body that is running. Bodies aren't copied: what is left of one is a few
/// places in the program's lists of statements, and a called body is a place more. So a step costs
/// what the heap's maps cost, and a chain of calls takes heap memory and no stack.
#[derive(Drop)]
pub struct State<'p> {
    heap: Heap,
    frame: Frame<'p>,
    callers: VecDeque<Frame<'p>>,
    steps: u32,
}

impl<'p> State<'p> {
    ghost use Rattle.cyp_machine.specs.FrameView.{frame_of};
    ghost use Rattle.cyp_machine.specs.StateView.{state_of};

    /// The state in which the procedure at this place of the program begins, with these arguments
    /// and this store.
    pub fn start(
        alloc: Global,
        program: &'p Program,
        entry: u16,
        args: &[i64],
        store: Store,
    ) -> Result<State<'p>, NoMemory>
        requires entry { entry < length program.now.procs }
        requires args { length args.now ≤ 65535 }
        requires numbers { IsBounded (2 ^ 33) (first_state (plain_program program.now) entry args.now store) }
        ensures state { IfOk result (λ s. state_of s ≡ first_state (plain_program program.now) entry args.now store) }
        ensures steps { IfOk result (λ s. s.steps ≡ 0) }
        ensures under_way { IfOk result (λ s. IsUnderWay (plain_program program.now) s.steps (state_of s)) }
    {
        let values = parameters(alloc, args)?;
        let body = program.procs()[entry as usize].body.as_slice();
        Ok(State {
            heap: Heap::new(store),
            frame: Frame::new(alloc, values, body),
            callers: VecDeque::new(alloc),
            steps: 0,
        })
    }

    /// Whether nothing is left to run.
    pub fn has_ended(&self) -> bool
        ensures { result ≡ has_ended (state_of self.entry.now) }
    {
        self.callers.is_empty() && self.frame.first().is_none()
    }

    /// The store of the state.
    pub fn into_store(self) -> Store
        ensures { result ≡ (state_of self.entry).store }
    {
        self.heap.into_store()
    }

    /// Makes the next step. It answers `Ended` where the state had ended before, and `Faulted` where
    /// the step faults; then, and where memory runs out, the state stays. An allocation takes the
    /// least free base, and zeros.
    pub fn step(&mut self, alloc: Global, program: &'p Program) -> Result<Stepped, NoMemory>
        requires under_way { IsUnderWay (plain_program program.now) self.old.steps (state_of self.old) }
        requires few { self.old.steps < 1000000 }
        ensures ok { IfOk result (λ r. IsStepped r (plain_program program.now) (state_of self.old) (state_of self.new)) }
        ensures err { OnErr result (state_of self.new ≡ state_of self.old) }
        ensures under_way { IsUnderWay (plain_program program.now) self.new.steps (state_of self.new) }
        ensures count { IfOk result (λ r. self.new.steps ≡ self.old.steps + made r) }
        ensures no_count { OnErr result (self.new.steps ≡ self.old.steps) }
    {
        let stepped = self.advance(alloc, program)?;
        if let Stepped::Moved = stepped {
            self.steps += 1;
        }
        Ok(stepped)
    }

    /// Makes the next step, and doesn't count it.
    fn advance(&mut self, alloc: Global, program: &'p Program) -> Result<Stepped, NoMemory>
        requires bounded { IsBounded (2 ^ 59) (state_of self.old) }
        requires of_program { IsOfProgram (plain_program program.now) (state_of self.old) }
        ensures ok { IfOk result (λ r. IsStepped r (plain_program program.now) (state_of self.old) (state_of self.new)) }
        ensures err { OnErr result (state_of self.new ≡ state_of self.old) }
        ensures steps { self.new.steps ≡ self.old.steps }
    {
        match self.frame.first() {
            Some(statement) => self.execute(alloc, program, statement),
            None => Ok(self.leave()),
        }
    }

    /// Goes on where the body was called, if it was.
    fn leave(&mut self) -> Stepped
        requires { first_of (frame_of self.old.frame).rest ≡ None }
        ensures ok { (ps : List Procedure) → IsStepped result ps (state_of self.old) (state_of self.new) }
        ensures steps { self.new.steps ≡ self.old.steps }
    {
        match self.callers.pop_front() {
            Some(caller) => {
                self.frame = caller;
                Stepped::Moved
            }
            None => Stepped::Ended,
        }
    }

    /// Executes the statement that is next.
    fn execute(
        &mut self,
        alloc: Global,
        program: &'p Program,
        statement: &'p Stmt,
    ) -> Result<Stepped, NoMemory>
        requires at { first_of (frame_of self.old.frame).rest ≡ Some (plain_stmt statement.now) }
        requires bounded { IsBounded (2 ^ 59) (state_of self.old) }
        requires in_range { IsTrue (statement_in_range (length program.now.procs) (plain_stmt statement.now)) }
        ensures ok { IfOk result (λ r. IsStepped r (plain_program program.now) (state_of self.old) (state_of self.new)) }
        ensures err { OnErr result (state_of self.new ≡ state_of self.old) }
        ensures steps { self.new.steps ≡ self.old.steps }
    {
        match statement {
            Stmt::Load(variable, from) => self.load(*variable, from),
            Stmt::Store(to, what) => self.store(to, what),
            Stmt::Take(variable, size) => self.take(*variable, *size),
            Stmt::Give(base) => self.give(base),
            Stmt::Invoke(place, args) => self.invoke(alloc, program, *place, args.as_slice()),
            Stmt::If(test, then_part, else_part) => self.choose(test, then_part, else_part),
            Stmt::Error => Ok(Stepped::Faulted(Cause::ErrorReached)),
        }
    }

    /// Binds the variable to the content of a cell.
    fn load(&mut self, variable: u16, from: &Expr) -> Result<Stepped, NoMemory>
        requires at { first_of (frame_of self.old.frame).rest ≡ Some (Loading variable from.now) }
        requires bounded { IsBounded (2 ^ 59) (state_of self.old) }
        requires in_range { IsTrue (expr_in_range from.now) }
        ensures ok { (ps : List Procedure) → IfOk result (λ r. IsStepped r ps (state_of self.old) (state_of self.new)) }
        ensures err { OnErr result (state_of self.new ≡ state_of self.old) }
        ensures steps { self.new.steps ≡ self.old.steps }
    {
        match self.heap.read(self.frame.evaluate(from)) {
            Some(content) => {
                self.frame.bind(variable, content)?;
                self.frame.advance();
                Ok(Stepped::Moved)
            }
            None => Ok(Stepped::Faulted(Cause::ReadMissing)),
        }
    }

    /// Changes the content of a cell.
    fn store(&mut self, to: &Expr, what: &Expr) -> Result<Stepped, NoMemory>
        requires at { first_of (frame_of self.old.frame).rest ≡ Some (Storing to.now what.now) }
        requires bounded { IsBounded (2 ^ 59) (state_of self.old) }
        requires to_in_range { IsTrue (expr_in_range to.now) }
        requires what_in_range { IsTrue (expr_in_range what.now) }
        ensures ok { (ps : List Procedure) → IfOk result (λ r. IsStepped r ps (state_of self.old) (state_of self.new)) }
        ensures err { OnErr result (state_of self.new ≡ state_of self.old) }
        ensures steps { self.new.steps ≡ self.old.steps }
    {
        let address = self.frame.evaluate(to);
        let content = self.frame.evaluate(what);
        match self.heap.read(address) {
            Some(_) => {
                self.heap.write(address, content)?;
                self.frame.advance();
                Ok(Stepped::Moved)
            }
            None => Ok(Stepped::Faulted(Cause::WriteMissing)),
        }
    }

    /// Makes a block at the least free base and binds the variable to it.
    fn take(&mut self, variable: u16, size: u8) -> Result<Stepped, NoMemory>
        requires at { first_of (frame_of self.old.frame).rest ≡ Some (Taking variable size) }
        requires bounded { IsBounded (2 ^ 59) (state_of self.old) }
        requires positive { 0 < size }
        ensures ok { (ps : List Procedure) → IfOk result (λ r. IsStepped r ps (state_of self.old) (state_of self.new)) }
        ensures err { OnErr result (state_of self.new ≡ state_of self.old) }
        ensures steps { self.new.steps ≡ self.old.steps }
    {
        let base = self.heap.free_base(size);
        self.frame.bind(variable, base)?;
        if let Err(error) = self.heap.take(base, size) {
            self.frame.unbind();
            return Err(error);
        }
        self.frame.advance();
        Ok(Stepped::Moved)
    }

    /// Takes a block and its cells away.
    fn give(&mut self, base: &Expr) -> Result<Stepped, NoMemory>
        requires at { first_of (frame_of self.old.frame).rest ≡ Some (Giving base.now) }
        requires bounded { IsBounded (2 ^ 59) (state_of self.old) }
        requires in_range { IsTrue (expr_in_range base.now) }
        ensures ok { (ps : List Procedure) → IfOk result (λ r. IsStepped r ps (state_of self.old) (state_of self.new)) }
        ensures err { OnErr result (state_of self.new ≡ state_of self.old) }
        ensures steps { self.new.steps ≡ self.old.steps }
    {
        let base = self.frame.evaluate(base);
        if self.heap.give(base) {
            self.frame.advance();
            return Ok(Stepped::Moved);
        }
        Ok(Stepped::Faulted(Cause::FreeMissing))
    }

    /// Begins the body of the called procedure.
    fn invoke(
        &mut self,
        alloc: Global,
        program: &'p Program,
        place: u16,
        args: &[Expr],
    ) -> Result<Stepped, NoMemory>
        requires at { first_of (frame_of self.old.frame).rest ≡ Some (Invoking place args.now) }
        requires bounded { IsBounded (2 ^ 59) (state_of self.old) }
        requires there { place < length program.now.procs }
        requires few { length args.now ≤ 65535 }
        requires in_range { IsTrue (list_all expr_in_range args.now) }
        ensures ok { IfOk result (λ r. IsStepped r (plain_program program.now) (state_of self.old) (state_of self.new)) }
        ensures err { OnErr result (state_of self.new ≡ state_of self.old) }
        ensures steps { self.new.steps ≡ self.old.steps }
    {
        let body = program.procs()[place as usize].body.as_slice();
        self.callers.reserve(1)?;
        let called = self.frame.call(alloc, args, body)?;
        self.frame.advance();
        let caller = mem::replace(&mut self.frame, called);
        self.callers.push_front_reserved(caller);
        Ok(Stepped::Moved)
    }

    /// Goes on with the block that the test chooses.
    fn choose(
        &mut self,
        test: &Test,
        then_part: &'p List<Stmt>,
        else_part: &'p List<Stmt>,
    ) -> Result<Stepped, NoMemory>
        requires at { first_of (frame_of self.old.frame).rest ≡ Some (Choosing test.now (body_of (map plain_stmt then_part.now)) (body_of (map plain_stmt else_part.now))) }
        requires bounded { IsBounded (2 ^ 59) (state_of self.old) }
        requires in_range { IsTrue (test_in_range test.now) }
        ensures ok { (ps : List Procedure) → IfOk result (λ r. IsStepped r ps (state_of self.old) (state_of self.new)) }
        ensures err { OnErr result (state_of self.new ≡ state_of self.old) }
        ensures steps { self.new.steps ≡ self.old.steps }
    {
        let chosen = if self.frame.holds(test) {
            then_part.as_slice()
        } else {
            else_part.as_slice()
        };
        self.frame.choose(chosen)?;
        Ok(Stepped::Moved)
    }
}
