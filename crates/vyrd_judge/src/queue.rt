//! The queue of the entries that wait.

ghost use Rattle.std.specs.Prelude.{◌≡◌, ◌<◌, ◌≤◌, ◌+◌, ◌-◌, ◌^◌, ◌∷◌, ◌++◌, ◌&&◌};
ghost use Rattle.std.specs.Prelude.{List, [], length, Some, None, IfOk, OnOk, slice_get, slice_set};
ghost use Rattle.std.specs.Prelude.{vec_len, not, ◌≢◌, IfSome};
ghost use Rattle.std.specs.Bool.{then_some};
ghost use Rattle.std.specs.List.{cons_option};
ghost use Rattle.vyrd_base.specs.Callers.{has_committed};
ghost use Rattle.vyrd_base.specs.Subjects.{must_commit};
ghost use Rattle.vyrd_base.specs.Verdicts.{is_return};
ghost use Rattle.vyrd_judge.specs.declared.caller.Caller.{Caller};
ghost use Rattle.vyrd_judge.specs.declared.waiting.Event.TheVariants.{Begins, Commits, Returns};
ghost use Rattle.vyrd_base.specs.declared.log.Entry.{Entry};
ghost use Rattle.vyrd_judge.specs.declared.waiting.Waiting.{Waiting};
ghost use Rattle.vyrd_words.specs.HasWords.{Keeps};
ghost use Rattle.vyrd_judge.specs.Queued.{HasQueued, HasTakenUp, MayQueue, CanLeave, AwaitsReturn};

use crate::caller::Caller;
use crate::waiting::{Event, Waiting};
use std::alloc::{AllocError, Global};
use std::collections::VecDeque;
use std::sync::ledger::Ledger;
use vyrd_base::{Args, Entry, Header, Kind, Method, Steps};

/// The entries that wait to be judged, in their order. A commit is there from its entry on, and has
/// its reply once its execution has returned. What waits first is handed out as soon as it can be
/// judged, so that what needn't wait for others isn't kept here.
#[derive(Drop)]
pub(crate) struct Queue {
    pub header: Header,
    pub waiting: VecDeque<Waiting>,
    /// How many entries are judged.
    pub taken: u64,
    /// By caller.
    pub callers: Vec<Caller>,
    ghost all: { vec_len callers ≡ header.callers },
}

impl Queue {
    /// Nothing waits.
    pub fn new(alloc: Global, header: Header) -> Result<Queue, AllocError>
        ensures queued { IfOk result
            (λ q. HasQueued header q.waiting.items q.taken q.callers.items []) }
        ensures waiting { IfOk result (λ q. q.waiting.items ≡ []) }
        ensures header { IfOk result (λ q. q.header ≡ header) }
    {
        let nobody = Caller {
            method: Method::some(),
            args: Args { a: 0, b: 0, c: 0 },
            commit: 0,
        };
        Ok(Queue {
            header,
            waiting: VecDeque::new(alloc),
            taken: 0,
            callers: vec![in alloc; nobody; header.callers() as usize]?,
        })
    }

    /// Takes in the entry at a position, which keeps the rules. It waits from then on, if it is one
    /// that is judged; and if it is the return of an execution with a commit, that has the reply.
    /// What waits first then is handed out, if the entry lets it be judged. One step is an entry
    /// that is put among those that wait, is given its reply there, or is handed out.
    #[inline(always)]
    pub fn follow<L: Ledger>(
        &mut self,
        entry: Entry,
        position: u64,
        steps: &mut Steps<L>,
    ) -> Result<Option<Waiting>, AllocError>
        requires may { MayQueue self.old.header self.old.waiting.items self.old.taken
            self.old.callers.items entry position }
        requires few { position < 2 ^ 62 }
        ensures taken_up { (earlier : List Entry)
            → HasQueued self.old.header self.old.waiting.items self.old.taken self.old.callers.items
            earlier
            → Keeps self.old.header earlier entry → position ≡ length earlier
            → IfOk result (λ first. HasTakenUp self.old.header self.old.waiting.items
            (cons_option first self.new.waiting.items) self.new.taken self.new.callers.items entry
            earlier) }
        ensures can_leave { IfOk result (λ first. IfSome first CanLeave) }
        ensures awaits { AwaitsReturn self.old.waiting.items
            → IfOk result (λ first. first ≡ None → AwaitsReturn self.new.waiting.items) }
        ensures header { self.new.header ≡ self.old.header }
        ensures steps { steps.new ≤ steps.old + 2 }
    {
        let caller = entry.caller;
        match entry.kind {
            Kind::Call(method, args) => self.call(caller, position, method, args, steps),
            Kind::Return(reply) => self.give_back(caller, position, reply, steps),
            Kind::Commit => self.commit(caller, position, steps),
            Kind::BlockCommit => self.commit(caller, position, steps),
            Kind::Write(_, _) => Ok(None),
            Kind::BlockOpen => Ok(None),
            Kind::BlockClose => Ok(None),
        }
    }

    /// A call is remembered, and waits if its execution may return without a commit.
    #[inline(always)]
    #[tactic(auto, using(vyrd_base::proofs::HeaderLaws::few_callers))]
    fn call<L: Ledger>(
        &mut self,
        caller: u32,
        position: u64,
        method: Method,
        args: Args,
        steps: &mut Steps<L>,
    ) -> Result<Option<Waiting>, AllocError>
        requires { caller < self.old.header.callers }
        ensures callers { OnOk result (self.new.callers.items ≡ slice_set self.old.callers.items
            caller (record { method = method; args = args; commit = 0 })) }
        ensures waiting { IfOk result (λ first. cons_option first self.new.waiting.items
            ≡ self.old.waiting.items ++ cons_option (then_some (not (must_commit method))
            (record { caller = caller; position = position; event = Begins method args })) []) }
        ensures taken { OnOk result (self.new.taken ≡ self.old.taken) }
        ensures can_leave { IfOk result (λ first. IfSome first CanLeave) }
        ensures awaits { AwaitsReturn self.old.waiting.items
            → IfOk result (λ first. first ≡ None → AwaitsReturn self.new.waiting.items) }
        ensures header { self.new.header ≡ self.old.header }
        ensures steps { steps.new ≤ steps.old + 1 }
    {
        self.callers[caller as usize] = Caller {
            method,
            args,
            commit: 0,
        };
        if method.must_commit() {
            return Ok(None);
        }
        self.wait(
            Waiting::new(caller, position, Event::Begins(method, args)),
            steps,
        )
    }

    /// An entry waits that isn't a commit. It is handed out if nothing waits before it.
    #[inline(always)]
    fn wait<L: Ledger>(
        &mut self,
        x: Waiting,
        steps: &mut Steps<L>,
    ) -> Result<Option<Waiting>, AllocError>
        requires can_leave { CanLeave x }
        ensures waiting { IfOk result (λ first. cons_option first self.new.waiting.items
            ≡ self.old.waiting.items ++ x ∷ []) }
        ensures can_leave { IfOk result (λ first. IfSome first CanLeave) }
        ensures awaits { AwaitsReturn self.old.waiting.items
            → IfOk result (λ first. first ≡ None → AwaitsReturn self.new.waiting.items) }
        ensures callers { self.new.callers ≡ self.old.callers }
        ensures taken { self.new.taken ≡ self.old.taken }
        ensures header { self.new.header ≡ self.old.header }
        ensures steps { steps.new ≤ steps.old + 1 }
    {
        steps.tick();
        if self.waiting.is_empty() {
            return Ok(Some(x));
        }
        push(&mut self.waiting, x)?;
        Ok(None)
    }

    /// A commit waits, and its caller knows its number. Nothing is handed out.
    #[inline(always)]
    #[tactic(auto, using(vyrd_base::proofs::HeaderLaws::few_callers))]
    fn commit<L: Ledger>(
        &mut self,
        caller: u32,
        position: u64,
        steps: &mut Steps<L>,
    ) -> Result<Option<Waiting>, AllocError>
        requires caller { caller < self.old.header.callers }
        requires few { self.old.taken + length self.old.waiting.items < 2 ^ 62 }
        ensures callers { (called : Caller) → slice_get self.old.callers.items caller ≡ Some called
            → OnOk result (self.new.callers.items ≡ slice_set self.old.callers.items caller
            (record called { commit = self.old.taken + length self.old.waiting.items + 1 })) }
        ensures waiting { (called : Caller) → slice_get self.old.callers.items caller ≡ Some called
            → IfOk result (λ first. cons_option first self.new.waiting.items
            ≡ self.old.waiting.items
            ++ record {
              caller = caller;
              position = position;
              event = Commits called.method called.args None;
            }
            ∷ []) }
        ensures taken { OnOk result (self.new.taken ≡ self.old.taken) }
        ensures can_leave { IfOk result (λ first. IfSome first CanLeave) }
        ensures awaits { AwaitsReturn self.old.waiting.items
            → IfOk result (λ first. first ≡ None → AwaitsReturn self.new.waiting.items) }
        ensures header { self.new.header ≡ self.old.header }
        ensures steps { steps.new ≤ steps.old + 1 }
    {
        let number = self.taken + self.waiting.len() as u64 + 1;
        let called = self.callers[caller as usize];
        let event = Event::Commits(called.method, called.args, None);
        steps.tick();
        push(&mut self.waiting, Waiting::new(caller, position, event))?;
        self.callers[caller as usize] = Caller {
            method: called.method,
            args: called.args,
            commit: number,
        };
        Ok(None)
    }

    /// A return goes to its execution's commit, which is handed out if it waits first. If there is
    /// no commit the return waits.
    #[inline(always)]
    #[tactic(auto, using(vyrd_base::proofs::HeaderLaws::few_callers))]
    fn give_back<L: Ledger>(
        &mut self,
        caller: u32,
        position: u64,
        reply: u64,
        steps: &mut Steps<L>,
    ) -> Result<Option<Waiting>, AllocError>
        requires caller { caller < self.old.header.callers }
        requires pending { (called : Caller) → slice_get self.old.callers.items caller ≡ Some called
            → called.commit ≢ 0
            → (self.old.taken < called.commit)
            × (called.commit - 1 - self.old.taken < length self.old.waiting.items) }
        ensures uncommitted { (called : Caller)
            → slice_get self.old.callers.items caller ≡ Some called
            → called.commit ≡ 0
            → IfOk result (λ first. cons_option first self.new.waiting.items
            ≡ self.old.waiting.items
            ++ record { caller = caller; position = position; event = Returns reply } ∷ []) }
        ensures committed { (called : Caller)
            → slice_get self.old.callers.items caller ≡ Some called
            → called.commit ≢ 0 → (commit : Waiting)
            → slice_get self.old.waiting.items (called.commit - 1 - self.old.taken) ≡ Some commit
            → IfOk result (λ first. cons_option first self.new.waiting.items
            ≡ slice_set self.old.waiting.items (called.commit - 1 - self.old.taken)
            (record commit { event = Commits called.method called.args (Some reply) })) }
        ensures callers { OnOk result (self.new.callers.items ≡ self.old.callers.items) }
        ensures taken { OnOk result (self.new.taken ≡ self.old.taken) }
        ensures can_leave { IfOk result (λ first. IfSome first CanLeave) }
        ensures awaits { AwaitsReturn self.old.waiting.items
            → IfOk result (λ first. first ≡ None → AwaitsReturn self.new.waiting.items) }
        ensures header { self.new.header ≡ self.old.header }
        ensures steps { steps.new ≤ steps.old + 2 }
    {
        let called = self.callers[caller as usize];
        if called.commit == 0 {
            return self.wait(Waiting::new(caller, position, Event::Returns(reply)), steps);
        }
        steps.tick();
        let at = (called.commit - 1 - self.taken) as usize;
        let commit = self.waiting[at];
        let event = Event::Commits(called.method, called.args, Some(reply));
        let commit = Waiting::new(commit.caller(), commit.position(), event);
        if at == 0 {
            steps.tick();
            let _ = self.waiting.pop_front();
            return Ok(Some(commit));
        }
        self.waiting[at] = commit;
        Ok(None)
    }

    /// Whether an execution without a commit returns with the entry, which keeps the rules.
    #[inline(always)]
    pub fn observer_returns(&self, entry: Entry) -> bool
        requires { entry.caller < self.now.header.callers }
        ensures { (earlier : List Entry)
            → HasQueued self.now.header self.now.waiting.items self.now.taken self.now.callers.items
            earlier
            → Keeps self.now.header earlier entry
            → result ≡ (is_return entry.kind && not (has_committed entry.caller earlier)) }
    {
        let called = self.callers[entry.caller as usize];
        match entry.kind {
            Kind::Return(_) => called.commit == 0,
            _ => false,
        }
    }

    /// The entry that was handed out is judged. What waits first then is handed out, if it can be
    /// judged. It takes one step at most, that of handing out.
    #[inline(always)]
    pub fn leave<L: Ledger>(&mut self, steps: &mut Steps<L>) -> Option<Waiting>
        requires few { self.old.taken + 1 < 2 ^ 64 }
        ensures left { (x : Waiting) (earlier : List Entry) → CanLeave x
            → HasQueued self.old.header (x ∷ self.old.waiting.items) self.old.taken
            self.old.callers.items earlier
            → HasQueued self.old.header self.old.waiting.items self.new.taken
            self.new.callers.items earlier }
        ensures waiting { cons_option result self.new.waiting.items ≡ self.old.waiting.items }
        ensures can_leave { IfSome result CanLeave }
        ensures awaits { result ≡ None → AwaitsReturn self.new.waiting.items }
        ensures header { self.new.header ≡ self.old.header }
        ensures steps { steps.new ≤ steps.old + 1 }
    {
        steps.tick();
        self.taken += 1;
        let x = self.first()?;
        if x.awaits_return() {
            return None;
        }
        let _ = self.waiting.pop_front();
        Some(x)
    }

    /// The first entry that waits.
    #[inline(always)]
    fn first(&self) -> Option<Waiting>
        ensures some { (x : Waiting) → result ≡ Some x
            → (xs : List Waiting) × (self.now.waiting.items ≡ x ∷ xs) }
        ensures none { result ≡ None → self.now.waiting.items ≡ [] }
    {
        self.waiting.front().copied()
    }
}

/// An entry waits behind all others. Mostly there is room, so that this is no call.
#[inline(always)]
fn push(waiting: &mut VecDeque<Waiting>, x: Waiting) -> Result<(), AllocError>
    ensures { OnOk result (waiting.new.items ≡ waiting.old.items ++ x ∷ []) }
{
    if waiting.capacity() <= waiting.len() {
        waiting.reserve(1)?;
    }
    waiting.push_back_reserved(x);
    Ok(())
}
