//! What is known of the open observers of all callers.

ghost use Rattle.std.specs.Prelude.{◌≡◌, ◌+◌, ◌*◌, ◌<◌, ◌≤◌, ◌∷◌, ℕ, List, [], true, false, Some};
ghost use Rattle.std.specs.Prelude.{None};
ghost use Rattle.std.specs.Prelude.{IfOk, OnOk, length, replicate, slice_get, slice_set};
ghost use Rattle.vyrd_base.specs.Rules.{rules_by};
ghost use Rattle.vyrd_base.specs.Subjects.{must_commit};
ghost use Rattle.vyrd_base.specs.Entries.{has_method};
ghost use Rattle.vyrd_observers.specs.Costs.{owed};
ghost use Rattle.vyrd_observers.specs.Watching.{AreCurrent, AllSee};
ghost use Rattle.vyrd_observers.specs.Watching.{Seen, KeepsFew, unwatched, has_answer, open_count};

use crate::leaving::close;
use crate::trail::Trail;
use crate::trails::{ask, see_all};
use crate::watch::Watch;
use std::alloc::{AllocError, Global};
use std::marker::{Brand, Model};
use std::sync::ledger::{Blank, Ledger};
use vyrd_base::{Args, Header, Method, Steps};
use vyrd_spec::Spec;

/// What is known of each caller's open observer, if it has one. Observers that ask the same share
/// one trail of answers. There are no more trails than the most open observers that there were at
/// one time, and they keep at most twice the answers that the open observers have.
///
/// The only error of its calls is that memory has run out. After one nothing is known any more but
/// the header, how many callers there are, and that trails are few and keep few answers.
#[derive(Drop)]
pub struct Watches {
    alloc: Global,
    header: Header,
    trails: Vec<Trail>,
    by_caller: Vec<Option<Watch>>,
    /// From this place on no trail is asked.
    reach: usize,
}

impl Model for Watches {
    ghost use Rattle.std.specs.Prelude.{map, length};
    ghost use Rattle.vyrd_observers.specs.Order.{AreInOrder};
    ghost use Rattle.vyrd_observers.specs.Trails.{seen_by, asked_count, kept_count};
    ghost use Rattle.vyrd_observers.specs.Watching.{Watched};

    ghost Value = { Watched };

    ghost view = { λ w.
        record {
          header = w.header;
          by_caller = map (seen_by w.trails.items) w.by_caller.items;
          trails = length w.trails.items;
          asked = asked_count w.trails.items;
          kept = kept_count w.trails.items;
        } };

    ghost invariant = { λ w. AreInOrder w.header w.reach w.trails.items w.by_caller.items };
}

impl Watches {
    /// No caller has an open observer.
    pub fn new(alloc: Global, header: Header) -> Result<Watches, AllocError>
        ensures header { IfOk result (λ w. w.header ≡ header) }
        ensures unwatched { IfOk result
            (λ w. w.by_caller ≡ replicate header.callers unwatched) }
        ensures trails { IfOk result (λ w. w.trails ≡ 0) }
        ensures keeps_few { IfOk result (λ w. KeepsFew w) }
        ensures owed { IfOk result (λ w. owed w ≡ 0) }
    {
        Ok(Watches {
            alloc,
            header,
            trails: Vec::new(alloc),
            by_caller: no_watches(alloc, header.callers() as usize)?,
            reach: 0,
        })
    }

    /// An observer begins in a state that answers this. It takes time in proportion to the trails,
    /// and if its caller has an open one, that is given up first, as by `end`. If another open
    /// observer asks the same, and the last state that it saw answers this too, the two share a
    /// trail. One more trail is made only if there are more open observers than trails.
    pub fn begin(
        &mut self,
        caller: u32,
        method: Method,
        args: Args,
        answer: u64,
    ) -> Result<(), AllocError>
        requires caller { caller < length self.old.by_caller }
        requires allowed { has_method self.old.header method args ≡ true }
        requires may_answer { must_commit method ≡ false }
        ensures watches { OnOk result (self.new.by_caller ≡ slice_set self.old.by_caller caller
            (record { is_open = true; method = method; args = args; answers = answer ∷ [] })) }
        ensures header { self.new.header ≡ self.old.header }
        ensures len { length self.new.by_caller ≡ length self.old.by_caller }
        ensures shared { (c : ℕ) (seen : Seen) (before : List ℕ)
            → slice_get self.old.by_caller c ≡ Some seen
            → seen.is_open ≡ true → seen.method ≡ method → seen.args ≡ args
            → seen.answers ≡ answer ∷ before
            → self.new.trails ≡ self.old.trails }
        ensures trails { self.new.trails ≤ self.old.trails + 1 }
        ensures reused { open_count self.new.by_caller ≤ self.old.trails
            → self.new.trails ≡ self.old.trails }
        ensures keeps_few { KeepsFew self.new }
    {
        begin_alone::<Brand>(Blank::new(1), self, caller, method, args, answer)
    }

    /// The same, with its steps counted. One step is a trail, a caller or an answer that is looked
    /// at, or an answer that is dropped or moves up. An error leaves them counted too. So over any
    /// calls the steps are at most what each call adds by the number of callers: nothing is owed at
    /// first, and what is owed is never below 0.
    pub fn begin_counted<L: Ledger>(
        &mut self,
        caller: u32,
        method: Method,
        args: Args,
        answer: u64,
        steps: &mut Steps<L>,
    ) -> Result<(), AllocError>
        requires caller { caller < length self.old.by_caller }
        requires allowed { has_method self.old.header method args ≡ true }
        requires may_answer { must_commit method ≡ false }
        ensures watches { OnOk result (self.new.by_caller ≡ slice_set self.old.by_caller caller
            (record { is_open = true; method = method; args = args; answers = answer ∷ [] })) }
        ensures header { self.new.header ≡ self.old.header }
        ensures len { length self.new.by_caller ≡ length self.old.by_caller }
        ensures shared { (c : ℕ) (seen : Seen) (before : List ℕ)
            → slice_get self.old.by_caller c ≡ Some seen
            → seen.is_open ≡ true → seen.method ≡ method → seen.args ≡ args
            → seen.answers ≡ answer ∷ before
            → self.new.trails ≡ self.old.trails }
        ensures trails { self.new.trails ≤ self.old.trails + 1 }
        ensures reused { open_count self.new.by_caller ≤ self.old.trails
            → self.new.trails ≡ self.old.trails }
        ensures keeps_few { KeepsFew self.new }
        ensures steps { steps.new + owed self.new
            ≤ steps.old + owed self.old + (5 * self.old.header.callers + 3) }
    {
        close(
            &mut self.trails,
            &mut self.by_caller,
            &mut self.reach,
            caller as usize,
            steps,
        );
        let trail = ask(
            self.alloc,
            &mut self.trails,
            self.reach,
            method,
            args,
            answer,
            steps,
        )?;
        self.by_caller[caller as usize] = Some(Watch {
            trail,
            since: self.trails[trail].len(),
        });
        self.trails[trail].join();
        self.reach = self.reach.max(trail + 1);
        Ok(())
    }

    /// An observer returns. It says whether some state since its call answers the reply. It takes
    /// time in proportion to the trails and to the answers of its trail, and to the callers only if
    /// another open observer shares the trail and it has more answers than one.
    pub fn end(&mut self, caller: u32, reply: u64) -> bool
        requires caller { caller < length self.old.by_caller }
        ensures answered { (seen : Seen) → slice_get self.old.by_caller caller ≡ Some seen
            → result ≡ has_answer seen.answers reply }
        ensures watches { self.new.by_caller ≡ slice_set self.old.by_caller caller unwatched }
        ensures header { self.new.header ≡ self.old.header }
        ensures len { length self.new.by_caller ≡ length self.old.by_caller }
        ensures trails { self.new.trails ≡ self.old.trails }
        ensures keeps_few { KeepsFew self.new }
    {
        end_alone::<Brand>(Blank::new(1), self, caller, reply)
    }

    /// The same, with its steps counted as in `begin_counted`. What it costs to look at the answers
    /// was owed.
    pub fn end_counted<L: Ledger>(&mut self, caller: u32, reply: u64, steps: &mut Steps<L>) -> bool
        requires caller { caller < length self.old.by_caller }
        ensures answered { (seen : Seen) → slice_get self.old.by_caller caller ≡ Some seen
            → result ≡ has_answer seen.answers reply }
        ensures watches { self.new.by_caller ≡ slice_set self.old.by_caller caller unwatched }
        ensures header { self.new.header ≡ self.old.header }
        ensures len { length self.new.by_caller ≡ length self.old.by_caller }
        ensures trails { self.new.trails ≡ self.old.trails }
        ensures keeps_few { KeepsFew self.new }
        ensures steps { steps.new + owed self.new
            ≤ steps.old + owed self.old + 3 * self.old.header.callers }
    {
        match self.by_caller[caller as usize] {
            Some(watch) => {
                let answered = self.trails[watch.trail].has_answer(watch.since, reply, steps);
                close(
                    &mut self.trails,
                    &mut self.by_caller,
                    &mut self.reach,
                    caller as usize,
                    steps,
                );
                answered
            }
            None => false,
        }
    }

    /// A caller has no open observer any more: its execution has committed, and is judged by that
    /// in place of its reply. It takes constant time if the caller has none, and otherwise as much
    /// as `end`.
    #[inline]
    pub fn close(&mut self, caller: u32)
        requires caller { caller < length self.old.by_caller }
        ensures watches { self.new.by_caller ≡ slice_set self.old.by_caller caller unwatched }
        ensures header { self.new.header ≡ self.old.header }
        ensures len { length self.new.by_caller ≡ length self.old.by_caller }
        ensures trails { self.new.trails ≡ self.old.trails }
        ensures keeps_few { KeepsFew self.new }
    {
        close_alone::<Brand>(Blank::new(1), self, caller);
    }

    /// The same, with its steps counted as in `begin_counted`.
    #[inline]
    pub fn close_counted<L: Ledger>(&mut self, caller: u32, steps: &mut Steps<L>)
        requires caller { caller < length self.old.by_caller }
        ensures watches { self.new.by_caller ≡ slice_set self.old.by_caller caller unwatched }
        ensures header { self.new.header ≡ self.old.header }
        ensures len { length self.new.by_caller ≡ length self.old.by_caller }
        ensures trails { self.new.trails ≡ self.old.trails }
        ensures keeps_few { KeepsFew self.new }
        ensures steps { steps.new + owed self.new
            ≤ steps.old + owed self.old + 3 * self.old.header.callers }
    {
        close(
            &mut self.trails,
            &mut self.by_caller,
            &mut self.reach,
            caller as usize,
            steps,
        );
    }

    /// Every open observer sees the specification's state too. It is asked only what its last step
    /// can have changed. It takes time in proportion to the trails at most: those behind the last
    /// one that is asked aren't looked at, so it takes constant time if no observer is open.
    pub fn see_all<S: Spec>(&mut self, spec: &S) -> Result<(), AllocError>
        requires header { (rules_by (S.charter spec.now)).header ≡ self.old.header }
        requires current { (c : ℕ) (seen : Seen) → slice_get self.old.by_caller c ≡ Some seen
            → seen.is_open ≡ true → S.affects spec.now seen.method seen.args ≡ false
            → has_answer seen.answers
            ((rules_by (S.charter spec.now)).answer (S.state spec.now) seen.method seen.args)
            ≡ true }
        ensures seen { OnOk result
            (AllSee
            ((rules_by (S.charter spec.now)).answer (S.state spec.now)) self.old.by_caller
            self.new.by_caller) }
        ensures current { OnOk result
            (AreCurrent
            ((rules_by (S.charter spec.now)).answer (S.state spec.now)) self.new.by_caller) }
        ensures header { self.new.header ≡ self.old.header }
        ensures len { length self.new.by_caller ≡ length self.old.by_caller }
        ensures trails { self.new.trails ≡ self.old.trails }
        ensures keeps_few { KeepsFew self.new }
    {
        see_all_alone::<S, Brand>(Blank::new(1), self, spec)
    }

    /// The same, with its steps counted as in `begin_counted`. What it costs the specification to
    /// answer isn't counted here: that is one step each time, and so is whether an answer can have
    /// changed.
    pub fn see_all_counted<S: Spec, L: Ledger>(
        &mut self,
        spec: &S,
        steps: &mut Steps<L>,
    ) -> Result<(), AllocError>
        requires header { (rules_by (S.charter spec.now)).header ≡ self.old.header }
        requires current { (c : ℕ) (seen : Seen) → slice_get self.old.by_caller c ≡ Some seen
            → seen.is_open ≡ true → S.affects spec.now seen.method seen.args ≡ false
            → has_answer seen.answers
            ((rules_by (S.charter spec.now)).answer (S.state spec.now) seen.method seen.args)
            ≡ true }
        ensures seen { OnOk result
            (AllSee
            ((rules_by (S.charter spec.now)).answer (S.state spec.now)) self.old.by_caller
            self.new.by_caller) }
        ensures current { OnOk result
            (AreCurrent
            ((rules_by (S.charter spec.now)).answer (S.state spec.now)) self.new.by_caller) }
        ensures header { self.new.header ≡ self.old.header }
        ensures len { length self.new.by_caller ≡ length self.old.by_caller }
        ensures trails { self.new.trails ≡ self.old.trails }
        ensures keeps_few { KeepsFew self.new }
        ensures by_trails { steps.new ≤ steps.old + (3 * self.old.trails + 2) }
        ensures steps { steps.new + owed self.new
            ≤ steps.old + owed self.old + (6 * self.old.header.callers + 2) }
    {
        see_all(&mut self.trails, self.reach, spec, steps)?;
        Ok(())
    }
}

/// An observer begins, with a count of its own.
#[inline(always)]
fn begin_alone<L: Ledger>(
    blank: Blank,
    watches: &mut Watches,
    caller: u32,
    method: Method,
    args: Args,
    answer: u64,
) -> Result<(), AllocError>
    requires name { blank.name ≡ L.name }
    requires parts { blank.parts ≡ L.parts }
    requires some { 0 < blank.parts }
    requires caller { caller < length watches.old.by_caller }
    requires allowed { has_method watches.old.header method args ≡ true }
    requires may_answer { must_commit method ≡ false }
    ensures watches { OnOk result (watches.new.by_caller ≡ slice_set watches.old.by_caller caller
        (record { is_open = true; method = method; args = args; answers = answer ∷ [] })) }
    ensures header { watches.new.header ≡ watches.old.header }
    ensures len { length watches.new.by_caller ≡ length watches.old.by_caller }
    ensures shared { (c : ℕ) (seen : Seen) (before : List ℕ)
        → slice_get watches.old.by_caller c ≡ Some seen
        → seen.is_open ≡ true → seen.method ≡ method → seen.args ≡ args
        → seen.answers ≡ answer ∷ before
        → watches.new.trails ≡ watches.old.trails }
    ensures trails { watches.new.trails ≤ watches.old.trails + 1 }
    ensures reused { open_count watches.new.by_caller ≤ watches.old.trails
        → watches.new.trails ≡ watches.old.trails }
    ensures keeps_few { KeepsFew watches.new }
{
    let mut steps = Steps::<L>::new(blank);
    watches.begin_counted(caller, method, args, answer, &mut steps)
}

/// An observer returns, with a count of its own.
#[inline(always)]
fn end_alone<L: Ledger>(blank: Blank, watches: &mut Watches, caller: u32, reply: u64) -> bool
    requires name { blank.name ≡ L.name }
    requires parts { blank.parts ≡ L.parts }
    requires some { 0 < blank.parts }
    requires caller { caller < length watches.old.by_caller }
    ensures answered { (seen : Seen) → slice_get watches.old.by_caller caller ≡ Some seen
        → result ≡ has_answer seen.answers reply }
    ensures watches { watches.new.by_caller ≡ slice_set watches.old.by_caller caller unwatched }
    ensures header { watches.new.header ≡ watches.old.header }
    ensures len { length watches.new.by_caller ≡ length watches.old.by_caller }
    ensures trails { watches.new.trails ≡ watches.old.trails }
    ensures keeps_few { KeepsFew watches.new }
{
    let mut steps = Steps::<L>::new(blank);
    watches.end_counted(caller, reply, &mut steps)
}

/// A caller has no open observer any more, with a count of its own.
#[inline(always)]
fn close_alone<L: Ledger>(blank: Blank, watches: &mut Watches, caller: u32)
    requires name { blank.name ≡ L.name }
    requires parts { blank.parts ≡ L.parts }
    requires some { 0 < blank.parts }
    requires caller { caller < length watches.old.by_caller }
    ensures watches { watches.new.by_caller ≡ slice_set watches.old.by_caller caller unwatched }
    ensures header { watches.new.header ≡ watches.old.header }
    ensures len { length watches.new.by_caller ≡ length watches.old.by_caller }
    ensures trails { watches.new.trails ≡ watches.old.trails }
    ensures keeps_few { KeepsFew watches.new }
{
    let mut steps = Steps::<L>::new(blank);
    watches.close_counted(caller, &mut steps);
}

/// Every open observer sees a state, with a count of its own.
#[inline(always)]
fn see_all_alone<S: Spec, L: Ledger>(
    blank: Blank,
    watches: &mut Watches,
    spec: &S,
) -> Result<(), AllocError>
    requires name { blank.name ≡ L.name }
    requires parts { blank.parts ≡ L.parts }
    requires some { 0 < blank.parts }
    requires header { (rules_by (S.charter spec.now)).header ≡ watches.old.header }
    requires current { (c : ℕ) (seen : Seen) → slice_get watches.old.by_caller c ≡ Some seen
        → seen.is_open ≡ true → S.affects spec.now seen.method seen.args ≡ false
        → has_answer seen.answers
        ((rules_by (S.charter spec.now)).answer (S.state spec.now) seen.method seen.args)
        ≡ true }
    ensures seen { OnOk result
        (AllSee
        ((rules_by (S.charter spec.now)).answer (S.state spec.now)) watches.old.by_caller
        watches.new.by_caller) }
    ensures current { OnOk result
        (AreCurrent
        ((rules_by (S.charter spec.now)).answer (S.state spec.now)) watches.new.by_caller) }
    ensures header { watches.new.header ≡ watches.old.header }
    ensures len { length watches.new.by_caller ≡ length watches.old.by_caller }
    ensures trails { watches.new.trails ≡ watches.old.trails }
    ensures keeps_few { KeepsFew watches.new }
{
    let mut steps = Steps::<L>::new(blank);
    watches.see_all_counted(spec, &mut steps)
}

/// This many callers, none of which has an open observer.
fn no_watches(alloc: Global, callers: usize) -> Result<Vec<Option<Watch>>, AllocError>
    ensures { IfOk result (λ watches. watches.items ≡ replicate callers None) }
{
    vec![in alloc; None; callers]
}
