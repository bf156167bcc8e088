ghost use Rattle.cyp_machine.specs.Rests.{block, blocks, is_settled};
ghost use Rattle.cyp_machine.specs.Steps.{followed_by};
ghost use Rattle.cyp_machine.specs.Values.{lookup, params_from};
ghost use Rattle.std.specs.Prelude.{IfOk, IsTrue, length, ◌≡◌, ◌≤◌};

use cyp_prog::{Expr, Stmt, Test, TestSign};
use cyp_term::NoMemory;
use std::alloc::Global;
use std::collections::VecDeque;

/// A body that is running: the values of its variables, the latest first, and the places in the
/// program's lists of statements where it goes on, the innermost first. Its first place is at an
/// end only where nothing is left of the body.
#[derive(Drop)]
pub(crate) struct Frame<'p> {
    values: VecDeque<(u16, i64)>,
    now: &'p [Stmt],
    later: VecDeque<&'p [Stmt]>,
    ghost settled: { IsTrue (is_settled now.now later.items) },
}

/// The first of these lists that isn't at its end.
fn settled<'p>(mut now: &'p [Stmt], later: &mut VecDeque<&'p [Stmt]>) -> &'p [Stmt]
    ensures same { followed_by (block result.now) (blocks later.new.items) ≡ followed_by (block now.entry.now) (blocks later.old.items) }
    ensures settled { IsTrue (is_settled result.now later.new.items) }
{
    while now.is_empty() {
        match later.pop_front() {
            Some(next) => now = next,
            None => return now,
        }
    }
    now
}

/// The variables `v1`, `v2` and so on with these values.
pub(crate) fn parameters(alloc: Global, args: &[i64]) -> Result<VecDeque<(u16, i64)>, NoMemory>
    requires few { length args.now ≤ 65535 }
    ensures { IfOk result (λ vs. vs.items ≡ params_from 1 args.now) }
{
    let mut values = VecDeque::new(alloc);
    for (i, value) in args.iter().enumerate() {
        values.push_back((i as u16 + 1, *value))?;
    }
    Ok(values)
}

/// The value of the variable, and 0 where there is none.
fn value_of(values: &VecDeque<(u16, i64)>, variable: u16) -> i64
    ensures { result ≡ lookup values.now.items variable }
{
    for &(number, value) in values {
        if number == variable {
            return value;
        }
    }
    0
}

impl<'p> Frame<'p> {
    ghost use Rattle.cyp_machine.specs.FrameView.{frame_of};
    ghost use Rattle.cyp_machine.specs.Bounds.{IsWithin, ValuesBounded};
    ghost use Rattle.cyp_machine.specs.InRange.{expr_in_range, test_in_range};
    ghost use Rattle.cyp_machine.specs.Rests.{first_of, rest_of};
    ghost use Rattle.cyp_machine.specs.Values.{expr_value, test_value};
    ghost use Rattle.cyp_prog.specs.Programs.{plain_stmt};
    ghost use Rattle.std.specs.List.{list_all};
    ghost use Rattle.std.specs.Option.{option_map};
    ghost use Rattle.std.specs.Prelude.{OnErr, OnOk, ◌∷◌, ◌^◌, drop, map};

    /// The body begins with these variables.
    pub(crate) fn new(alloc: Global, values: VecDeque<(u16, i64)>, body: &'p [Stmt]) -> Frame<'p>
        ensures { frame_of result ≡ record { values = values.items; rest = block body.now } }
    {
        Frame {
            values,
            now: body,
            later: VecDeque::new(alloc),
        }
    }

    /// The first statement that is left, or `None` at the body's end.
    pub(crate) fn first(&self) -> Option<&'p Stmt>
        ensures { option_map (λ s. plain_stmt s.now) result ≡ first_of (frame_of self.entry.now).rest }
    {
        self.now.first()
    }

    /// The value of the expression.
    pub(crate) fn evaluate(&self, expr: &Expr) -> i64
        requires bounded { ValuesBounded (2 ^ 59) self.now.values.items }
        requires in_range { IsTrue (expr_in_range expr.now) }
        ensures value { result ≡ expr_value self.entry.now.values.items expr.now }
        ensures small { IsWithin (2 ^ 60) result }
    {
        match expr.var {
            Some(variable) => value_of(&self.values, variable) + expr.offset,
            None => expr.offset,
        }
    }

    /// Whether the test holds.
    pub(crate) fn holds(&self, test: &Test) -> bool
        requires bounded { ValuesBounded (2 ^ 59) self.now.values.items }
        requires in_range { IsTrue (test_in_range test.now) }
        ensures { result ≡ test_value self.entry.now.values.items test.now }
    {
        let left = self.evaluate(&test.left);
        let right = self.evaluate(&test.right);
        match test.sign {
            TestSign::Equal => left == right,
            TestSign::Unequal => left != right,
            TestSign::AtMost => left <= right,
            TestSign::Below => left < right,
        }
    }

    /// Binds the variable.
    pub(crate) fn bind(&mut self, variable: u16, value: i64) -> Result<(), NoMemory>
        ensures ok { OnOk result (frame_of self.new ≡ record { values = (variable, value) ∷ (frame_of self.old).values; rest = (frame_of self.old).rest }) }
        ensures err { OnErr result (frame_of self.new ≡ frame_of self.old) }
    {
        self.values.push_front((variable, value))?;
        Ok(())
    }

    /// Takes the latest binding back.
    pub(crate) fn unbind(&mut self)
        ensures { frame_of self.new ≡ record { values = drop 1 (frame_of self.old).values; rest = (frame_of self.old).rest } }
    {
        self.values.pop_front();
    }

    /// Goes past the first statement.
    pub(crate) fn advance(&mut self)
        ensures { frame_of self.new ≡ record { values = (frame_of self.old).values; rest = rest_of (frame_of self.old).rest } }
    {
        if let Some((_, rest)) = self.now.split_first() {
            self.now = settled(rest, &mut self.later);
        }
    }

    /// Goes on with the block in place of the first statement.
    pub(crate) fn choose(&mut self, chosen: &'p [Stmt]) -> Result<(), NoMemory>
        ensures ok { OnOk result (frame_of self.new ≡ record { values = (frame_of self.old).values; rest = followed_by (block chosen.now) (rest_of (frame_of self.old).rest) }) }
        ensures err { OnErr result (frame_of self.new ≡ frame_of self.old) }
    {
        if let [_, rest @ ..] = self.now {
            self.later.push_front(rest)?;
        }
        self.now = settled(chosen, &mut self.later);
        Ok(())
    }

    /// The body that is called with the values of these expressions.
    pub(crate) fn call(
        &self,
        alloc: Global,
        args: &[Expr],
        body: &'p [Stmt],
    ) -> Result<Frame<'p>, NoMemory>
        requires bounded { ValuesBounded (2 ^ 59) self.now.values.items }
        requires few { length args.now ≤ 65535 }
        requires in_range { IsTrue (list_all expr_in_range args.now) }
        ensures { IfOk result (λ f. frame_of f ≡ record { values = params_from 1 (map (expr_value self.entry.now.values.items) args.now); rest = block body.now }) }
    {
        let mut values = Vec::with_capacity(alloc, args.len())?;
        for arg in args {
            values.push(self.evaluate(arg))?;
        }
        let values = parameters(alloc, values.as_slice())?;
        Ok(Frame::new(alloc, values, body))
    }
}
