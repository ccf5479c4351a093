//! The judge at a place of a front: one step for each entry.

ghost use Rattle.std.specs.Prelude.{◌≡◌, ◌+◌, ◌<◌, ◌≤◌, ◌^◌, true, false, [], length, replicate};
ghost use Rattle.std.specs.Prelude.{take, drop, Option, Some, None, Ok, IfOk, slice_get, slice_set};
ghost use Rattle.std.specs.Prelude.{vec_len, map};
ghost use Rattle.vyrd_base.specs.declared.log.Entry.{Entry};
ghost use Rattle.vyrd_base.specs.Subjects.{is_observer};
ghost use Rattle.vyrd_base.specs.Places.{newest_first};
ghost use Rattle.vyrd_base.specs.Front.{first_break};
ghost use Rattle.vyrd_base.specs.Layout.{plain_words};
ghost use Rattle.vyrd_base.specs.Rules.{built_in, rules_by};
ghost use Rattle.vyrd_base.specs.Specification.{start};
ghost use Rattle.vyrd_base.specs.Verdicts.{states_along};
ghost use Rattle.vyrd_plain.specs.declared.execution.Execution.{Execution};
ghost use Rattle.vyrd_base.specs.Entries.{has_method};
ghost use Rattle.vyrd_plain.specs.Executions.{begun, seeing, with_commit, AreAllowed};
ghost use Rattle.vyrd_plain.specs.Tracking.{Tracks};
ghost use Rattle.vyrd_plain.specs.OpenBlocks.{HasEffects};
ghost use Rattle.vyrd_base.specs.Entries.{place_of};
ghost use Rattle.vyrd_plain.specs.Outcomes.{CommitGives, PlaceGives, return_outcome};
ghost use Rattle.vyrd_plain.specs.declared.outcome.Outcome.TheVariants.{Goes};

use crate::effects::Effects;
use crate::execution::{Execution, next_reply, see};
use crate::front::entry_at;
use crate::outcome::Outcome;
use std::alloc::{AllocError, Global};
use vyrd_base::{Args, Entry, Header, Kind, Method, Why};
use vyrd_spec::{BuiltIn, Spec};
use vyrd_view::{first_difference, view_of};

/// What is known at a place of a front: the state of the specification after the commits before it,
/// the words, and each caller's execution.
#[derive(Drop)]
pub(crate) struct Scan<S: Spec> {
    pub alloc: Global,
    pub spec: S,
    pub effects: Effects,
    /// By caller. `None` if a caller is in no execution.
    pub executions: Vec<Option<Execution>>,
    ghost effects_header: { effects.header ≡ (rules_by (S.charter spec)).header },
    ghost callers: { vec_len executions ≡ (rules_by (S.charter spec)).header.callers },
}

impl<S: BuiltIn> Scan<S> {
    /// The place before the first entry.
    pub fn new(alloc: Global, header: Header) -> Result<Scan<S>, AllocError>
        requires serves { S.serves header.subject }
        ensures charter { IfOk result (λ s. S.charter s.spec ≡ built_in header) }
        ensures state { IfOk result (λ s. S.state s.spec ≡ start) }
        ensures made { IfOk result (λ s. S.made s.spec ≡ 0) }
        ensures words { IfOk result
            (λ s. s.effects.words.items ≡ replicate (plain_words header) 0) }
        ensures open_blocks { IfOk result
            (λ s. s.effects.open_blocks.items ≡ replicate header.callers None) }
        ensures executions { IfOk result (λ s. s.executions.items ≡ replicate header.callers None) }
    {
        Ok(Scan {
            alloc,
            spec: S::start(alloc, header)?,
            effects: Effects::new(alloc, header)?,
            executions: vec![in alloc; None; header.callers() as usize]?,
        })
    }

    /// The caller's execution, if it is in one.
    fn execution_of(&self, caller: u32) -> Option<Execution>
        requires { caller < (rules_by (S.charter self.now.spec)).header.callers }
        ensures { slice_get self.now.executions.items caller ≡ Some result }
    {
        self.executions
            .as_slice()
            .get(caller as usize)
            .copied()
            .unwrap()
    }

    /// A call begins an execution, whose first state is the one where the call stands.
    fn begin(&mut self, caller: u32, method: Method, args: Args, reply: Option<u64>)
        requires caller { caller < (rules_by (S.charter self.old.spec)).header.callers }
        requires allowed { has_method (rules_by (S.charter self.old.spec)).header method args
            ≡ true }
        ensures executions { self.new.executions.items ≡ slice_set self.old.executions.items caller
            (Some
            (begun (rules_by (S.charter self.old.spec)) method args reply
            (S.state self.old.spec))) }
        ensures spec { self.new.spec ≡ self.old.spec }
        ensures effects { self.new.effects ≡ self.old.effects }
    {
        let mut execution = Execution {
            method,
            args,
            reply,
            has_committed: false,
            is_answered: false,
        };
        execution.is_answered = execution.is_answered_by(&self.spec);
        self.executions[caller as usize] = Some(execution);
    }

    /// A return ends its caller's execution. It is a fault if the execution has no commit and no
    /// state since its call answered the reply.
    fn finish(&mut self, caller: u32, reply: u64) -> Outcome
        requires caller { caller < (rules_by (S.charter self.old.spec)).header.callers }
        ensures outcome { (x : Execution)
            → slice_get self.old.executions.items caller ≡ Some (Some x)
            → result ≡ return_outcome x reply }
        ensures executions { self.new.executions.items
            ≡ slice_set self.old.executions.items caller None }
        ensures spec { self.new.spec ≡ self.old.spec }
        ensures effects { self.new.effects ≡ self.old.effects }
    {
        let execution = self.execution_of(caller);
        self.executions[caller as usize] = None;
        match execution {
            Some(x) if !x.has_committed && !x.is_answered => {
                Outcome::Faults(Why::Observer(reply))
            }
            _ => Outcome::Goes,
        }
    }

    /// The caller's execution has committed, and every caller's sees the state after that.
    fn mark_committed(&mut self, caller: u32, mut execution: Execution)
        requires caller { caller < (rules_by (S.charter self.old.spec)).header.callers }
        requires allowed { AreAllowed
            (rules_by (S.charter self.old.spec)).header self.old.executions.items }
        requires may { has_method (rules_by (S.charter self.old.spec)).header execution.method
            execution.args ≡ true }
        ensures executions { self.new.executions.items
            ≡ map (seeing (rules_by (S.charter self.old.spec)) (S.state self.old.spec))
            (slice_set self.old.executions.items caller (Some (with_commit execution))) }
        ensures spec { self.new.spec ≡ self.old.spec }
        ensures effects { self.new.effects ≡ self.old.effects }
    {
        execution.has_committed = true;
        self.executions[caller as usize] = Some(execution);
        see(&mut self.executions, &self.spec);
    }

    /// A commit takes the specification one step on by the reply that its execution will return,
    /// and compares the views. The executions that are open, its own too, then see the state after
    /// it. If the execution doesn't return, the step can't be known.
    fn commit(&mut self, caller: u32) -> Result<Outcome, AllocError>
        requires caller { caller < (rules_by (S.charter self.old.spec)).header.callers }
        requires few { S.made self.old.spec < 2 ^ 62 }
        requires allowed { AreAllowed
            (rules_by (S.charter self.old.spec)).header self.old.executions.items }
        requires mutates { (x : Execution)
            → slice_get self.old.executions.items caller ≡ Some (Some x)
            → is_observer x.method ≡ false }
        ensures gives { (x : Execution) → slice_get self.old.executions.items caller ≡ Some (Some x)
            → IfOk result (CommitGives (rules_by (S.charter self.old.spec))
            ((rules_by (S.charter self.old.spec)).view self.old.effects.words.items)
            caller x (S.state self.old.spec) (S.state self.new.spec) self.old.executions.items
            self.new.executions.items) }
        ensures charter { S.charter self.new.spec ≡ S.charter self.old.spec }
        ensures made { S.made self.new.spec ≤ S.made self.old.spec + 1 }
        ensures effects { self.new.effects ≡ self.old.effects }
    {
        let Some(execution) = self.execution_of(caller) else {
            return Ok(Outcome::Ends);
        };
        let Some(reply) = execution.reply else {
            return Ok(Outcome::Ends);
        };
        if !self.spec.step(execution.method, execution.args, reply)? {
            return Ok(Outcome::Faults(Why::Reply(reply)));
        }
        let shown = view_of(self.alloc, self.spec.header(), self.effects.words())?;
        let after = self.spec.view(self.alloc)?;
        if let Some(key) = first_difference(&shown, &after) {
            return Ok(Outcome::Faults(Why::View(key)));
        }
        self.mark_committed(caller, execution);
        Ok(Outcome::Goes)
    }

    /// Goes over the entry at a place of a front that keeps all rules, which it tracks up to that
    /// place. After `Goes` it tracks the front up to the next one; after any other answer it is to
    /// be dropped.
    pub fn step(&mut self, front: &[Entry], at: usize) -> Result<Outcome, AllocError>
        requires within { at < length front.now }
        requires kept { first_break (rules_by (S.charter self.old.spec)).header front.now ≡ None }
        requires tracks { Tracks (rules_by (S.charter self.old.spec))
            (states_along (rules_by (S.charter self.old.spec)) [] front.now)
            (newest_first (take at front.now)) (drop at front.now) (S.state self.old.spec)
            self.old.executions.items }
        requires words { HasEffects
            (rules_by (S.charter self.old.spec)).header self.old.effects.words.items
            self.old.effects.open_blocks.items (take at front.now) (drop at front.now) }
        requires few { S.made self.old.spec < 2 ^ 62 }
        ensures gives { (e : Entry) → slice_get front.now at ≡ Some e
            → IfOk result
            (PlaceGives (rules_by (S.charter self.old.spec)) []
            (states_along (rules_by (S.charter self.old.spec)) [] front.now)
            (place_of e (newest_first (take at front.now)) (drop (at + 1) front.now))
            (S.state self.new.spec) self.new.executions.items) }
        ensures words { result ≡ Ok Goes
            → HasEffects (rules_by (S.charter self.old.spec)).header self.new.effects.words.items
            self.new.effects.open_blocks.items (take (at + 1) front.now) (drop (at + 1) front.now) }
        ensures made { S.made self.new.spec ≤ S.made self.old.spec + 1 }
        ensures charter { S.charter self.new.spec ≡ S.charter self.old.spec }
    {
        // A commit's view is that of the words after all effects up to it, so the entry's own take
        // place first.
        self.effects.step(front, at);
        let entry = entry_at(front, at);
        let caller = entry.caller;
        match entry.kind {
            Kind::Call(method, args) => {
                let (_, later) = front.split_at(at + 1);
                let reply = next_reply(caller, later);
                self.begin(caller, method, args, reply);
                Ok(Outcome::Goes)
            }
            Kind::Return(reply) => Ok(self.finish(caller, reply)),
            Kind::Commit | Kind::BlockCommit => self.commit(caller),
            Kind::Write(..) | Kind::BlockOpen | Kind::BlockClose => Ok(Outcome::Goes),
        }
    }
}
