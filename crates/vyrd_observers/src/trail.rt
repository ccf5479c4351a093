//! A question that observers ask.

ghost use Rattle.std.specs.Prelude.{◌≡◌, ◌≤◌, ◌<◌, ◌+◌, ◌^◌, ◌∷◌, ◌*◌, ◌==◌, ◌&&◌, [], false, true};
ghost use Rattle.std.specs.Prelude.{length, drop};
ghost use Rattle.std.specs.Prelude.{OnOk, OnErr};
ghost use Rattle.std.specs.List.{list_any};
ghost use Rattle.vyrd_observers.specs.Trails.{IsTrailOf, with_answer, with_asker, without_asker};
ghost use Rattle.vyrd_observers.specs.Trails.{kept_by};
ghost use Rattle.vyrd_observers.specs.Watching.{has_answer};

use std::alloc::{AllocError, Global};
use std::marker::Model;
use std::sync::ledger::Ledger;
use vyrd_base::{Args, Method, Steps};

/// A question that open observers ask, and what the states since the first of their calls answer.
/// If none asks it, it is free to be another question.
#[derive(Drop)]
pub(crate) struct Trail {
    is_asked: bool,
    /// How many open observers ask it.
    askers: u32,
    method: Method,
    args: Args,
    /// What the last state answers.
    latest: u64,
    /// What the states before it answer, each if it differs from the one before.
    others: Vec<u64>,
}

impl Model for Trail {
    ghost use Rattle.vyrd_observers.specs.Trails.{Asked};

    ghost Value = { Asked };

    ghost view = { λ t. record {
      is_asked = t.is_asked;
      askers = t.askers;
      method = t.method;
      args = t.args;
      latest = t.latest;
      others = t.others.items;
    } };
}

impl Trail {
    /// No question yet.
    pub fn new(alloc: Global) -> Trail
        ensures free { result.is_asked ≡ false }
        ensures nobody { result.askers ≡ 0 }
        ensures nothing { result.others ≡ [] }
    {
        Trail {
            is_asked: false,
            askers: 0,
            method: Method::some(),
            args: Args { a: 0, b: 0, c: 0 },
            latest: 0,
            others: Vec::new(alloc),
        }
    }

    /// It is this question from now on, which nobody asks yet, and the last state answers this. An
    /// answer that is dropped is a step.
    pub fn begin<L: Ledger>(
        &mut self,
        method: Method,
        args: Args,
        answer: u64,
        steps: &mut Steps<L>,
    )
        ensures question { self.new ≡ record {
          is_asked = true;
          askers = 0;
          method = method;
          args = args;
          latest = answer;
          others = [];
        } }
        ensures steps { steps.new + 2 * kept_by self.new
            ≤ steps.old + 2 * kept_by self.old + 2 }
    {
        self.is_asked = true;
        self.askers = 0;
        self.method = method;
        self.args = args;
        self.latest = answer;
        steps.add(self.others.len());
        self.others.clear();
    }

    /// One more observer asks it.
    pub fn join(&mut self)
        requires { self.old.askers + 1 < 2 ^ 32 }
        ensures { self.new ≡ with_asker self.old }
    {
        self.askers += 1;
    }

    /// An observer that asked it has returned. It is free if that was the only one. An answer that
    /// is dropped is a step, and was kept.
    pub fn leave<L: Ledger>(&mut self, steps: &mut Steps<L>)
        requires { 0 < self.old.askers }
        ensures left { self.new ≡ without_asker self.old }
        ensures steps { steps.new + 2 * kept_by self.new ≤ steps.old + 2 * kept_by self.old }
    {
        self.askers -= 1;
        if self.askers == 0 {
            self.is_asked = false;
            steps.add(self.others.len());
            self.others.clear();
        }
    }

    /// Whether an open observer may ask it.
    pub fn is_asked(&self) -> bool
        ensures { result ≡ self.now.is_asked }
    {
        self.is_asked
    }

    /// Whether it is asked, it is this question, and the last state answers this.
    pub fn is(&self, method: Method, args: Args, answer: u64) -> bool
        ensures is { result ≡ true → IsTrailOf method args answer self.now }
        ensures all { IsTrailOf method args answer self.now → result ≡ true }
    {
        self.args == args && self.is_asked && self.method == method && self.latest == answer
    }

    /// How many answers stand before the latest.
    pub fn len(&self) -> usize
        ensures { result ≡ length self.now.others }
    {
        self.others.len()
    }

    /// What is called.
    pub fn method(&self) -> Method
        ensures { result ≡ self.now.method }
    {
        self.method
    }

    /// What it is called with.
    pub fn args(&self) -> Args
        ensures { result ≡ self.now.args }
    {
        self.args
    }

    /// One more state answers this.
    pub fn see(&mut self, answer: u64) -> Result<(), AllocError>
        ensures saw { OnOk result (self.new ≡ with_answer answer self.old) }
        ensures unchanged { OnErr result (self.new ≡ self.old) }
    {
        if answer != self.latest {
            self.others.push(self.latest)?;
            self.latest = answer;
        }
        Ok(())
    }

    /// Whether a state answers this, of those from an answer on. An answer that is looked at is a
    /// step.
    pub fn has_answer<L: Ledger>(&self, since: usize, reply: u64, steps: &mut Steps<L>) -> bool
        requires { since ≤ length self.now.others }
        ensures answered { result
            ≡ has_answer (self.now.latest ∷ drop since self.now.others) reply }
        ensures steps { steps.new ≤ steps.old
            + length (self.now.latest ∷ drop since self.now.others) }
    {
        steps.tick();
        let (_, counted) = self.others.split_at(since);
        self.latest == reply || is_among(counted, reply, steps)
    }

    /// The first n answers count for no open observer. An answer that is dropped is a step, and so
    /// is one that moves up.
    pub fn forget<L: Ledger>(&mut self, n: usize, steps: &mut Steps<L>)
        requires { n ≤ length self.old.others }
        ensures dropped { self.new ≡ record self.old { others = drop n self.old.others } }
        ensures steps { steps.new ≡ steps.old + length self.old.others }
    {
        steps.add(self.others.len());
        self.others.drain(..n);
    }
}

/// Whether a number is among others. Each of them is a step.
fn is_among<L: Ledger>(numbers: &[u64], number: u64, steps: &mut Steps<L>) -> bool
    ensures among { result ≡ list_any (λ x. x == number) numbers.now }
    ensures steps { steps.new ≡ steps.old + length numbers.now }
{
    steps.add(numbers.len());
    numbers.iter().any(|x| *x == number)
}
