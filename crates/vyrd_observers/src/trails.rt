//! The questions that observers ask.

ghost use Rattle.std.specs.Prelude.{◌≡◌, ◌+◌, ◌*◌, ◌<◌, ◌≤◌, ◌⊎◌, ◌&&◌, ℕ, true, false, List, []};
ghost use Rattle.std.specs.Prelude.{Option};
ghost use Rattle.std.specs.Prelude.{Some, map, slice_get, length, IfOk, OnOk, OnErr, IsOk, IfSome};
ghost use Rattle.std.specs.Prelude.{IsSome};
ghost use Rattle.vyrd_base.specs.Rules.{rules_by};
ghost use Rattle.vyrd_base.specs.declared.header.Header.{Header};
ghost use Rattle.vyrd_base.specs.Subjects.{must_commit};
ghost use Rattle.vyrd_observers.specs.declared.watch.Watch.{Watch};
ghost use Rattle.vyrd_base.specs.Entries.{has_method};
ghost use Rattle.vyrd_observers.specs.Order.{AreFreeFrom, AreInOrder};
ghost use Rattle.vyrd_observers.specs.Trails.{Asked, IsTrailOf, AreAsking, KeepsAsked};
ghost use Rattle.vyrd_observers.specs.Trails.{AreOldExcept, after_state, kept_count, seen_by};
ghost use Rattle.vyrd_observers.specs.Watching.{answer_count};

use crate::trail::Trail;
use std::alloc::{AllocError, Global};
use std::sync::ledger::Ledger;
use vyrd_base::{Args, Method, Steps};
use vyrd_spec::Spec;

/// The trail of a question that the last state answers in this way, if it is asked. From the reach
/// on no trail is. A trail that is looked at is a step.
fn find<L: Ledger>(
    trails: &[Trail],
    reach: usize,
    method: Method,
    args: Args,
    answer: u64,
    steps: &mut Steps<L>,
) -> Option<usize>
    requires within { reach ≤ length trails.now }
    requires free { AreFreeFrom reach trails.now }
    ensures found { IfSome result
        (λ i. (t : Asked) × (slice_get trails.now i ≡ Some t) × IsTrailOf method args answer t) }
    ensures none { (i : ℕ) (t : Asked) → slice_get trails.now i ≡ Some t
        → IsTrailOf method args answer t
        → IsSome result }
    ensures steps { steps.new ≤ steps.old + reach }
{
    for i in 0..reach {
        steps.tick();
        if trails[i].is(method, args, answer) {
            return Some(i);
        }
    }
    None
}

/// The first trail that isn't asked. A trail that is looked at is a step.
fn find_free<L: Ledger>(trails: &[Trail], steps: &mut Steps<L>) -> Option<usize>
    ensures found { IfSome result
        (λ i. (t : Asked) × (slice_get trails.now i ≡ Some t) × (t.is_asked ≡ false)) }
    ensures none { (i : ℕ) (t : Asked) → slice_get trails.now i ≡ Some t → t.is_asked ≡ false
        → IsSome result }
    ensures steps { steps.new ≤ steps.old + length trails.now }
{
    for i in 0..trails.len() {
        steps.tick();
        if !trails[i].is_asked() {
            return Some(i);
        }
    }
    None
}

/// A trail that isn't asked. One more is made if all are.
fn free<L: Ledger>(
    alloc: Global,
    trails: &mut Vec<Trail>,
    steps: &mut Steps<L>,
) -> Result<usize, AllocError>
    ensures free { IfOk result
        (λ i. (t : Asked) × (slice_get trails.new.items i ≡ Some t) × (t.is_asked ≡ false)) }
    ensures kept { KeepsAsked trails.old.items trails.new.items }
    ensures asking { (h : Header) → AreAsking h trails.old.items → AreAsking h trails.new.items }
    ensures only { IfOk result (λ i. AreOldExcept trails.old.items trails.new.items i) }
    ensures reused { (i : ℕ) (t : Asked) → slice_get trails.old.items i ≡ Some t
        → t.is_asked ≡ false
        → trails.new.items ≡ trails.old.items }
    ensures one { length trails.new.items ≤ length trails.old.items + 1 }
    ensures no_fewer { length trails.old.items ≤ length trails.new.items }
    ensures unchanged { OnErr result (trails.new.items ≡ trails.old.items) }
    ensures as_many { kept_count trails.new.items ≡ kept_count trails.old.items }
    ensures steps { steps.new ≤ steps.old + length trails.old.items }
{
    if let Some(i) = find_free(trails, steps) {
        return Ok(i);
    }
    let i = trails.len();
    trails.push(Trail::new(alloc))?;
    Ok(i)
}

/// An observer asks a question, in a state that answers this. It gives its trail, whose latest
/// answer is this. All that are asked have the last state's answer, so if the question is asked
/// already, its trail has this answer. Then it is shared, and no trail changes. Otherwise a free
/// trail is taken, which nobody asks yet, and one more is made only if none is free. Two steps are
/// paid by each answer that is dropped.
pub(crate) fn ask<L: Ledger>(
    alloc: Global,
    trails: &mut Vec<Trail>,
    reach: usize,
    method: Method,
    args: Args,
    answer: u64,
    steps: &mut Steps<L>,
) -> Result<usize, AllocError>
    requires within { reach ≤ length trails.old.items }
    requires free { AreFreeFrom reach trails.old.items }
    ensures asked { IfOk result (λ i. (t : Asked) × (slice_get trails.new.items i ≡ Some t)
        × IsTrailOf method args answer t) }
    ensures kept { KeepsAsked trails.old.items trails.new.items }
    ensures asking { (h : Header) → has_method h method args ≡ true → must_commit method ≡ false
        → AreAsking h trails.old.items
        → AreAsking h trails.new.items }
    ensures shared { (i : ℕ) (t : Asked) → slice_get trails.old.items i ≡ Some t
        → IsTrailOf method args answer t
        → IsOk result × (trails.new.items ≡ trails.old.items) }
    ensures only { IfOk result (λ i. (AreOldExcept trails.old.items trails.new.items i)
        × ((t : Asked) → slice_get trails.new.items i ≡ Some t
        → (slice_get trails.old.items i ≡ Some t) ⊎ ((t.askers ≡ 0) × (t.others ≡ [])))) }
    ensures reused { (i : ℕ) (t : Asked) → slice_get trails.old.items i ≡ Some t
        → t.is_asked ≡ false
        → length trails.new.items ≡ length trails.old.items }
    ensures one { length trails.new.items ≤ length trails.old.items + 1 }
    ensures no_fewer { length trails.old.items ≤ length trails.new.items }
    ensures unchanged { OnErr result (trails.new.items ≡ trails.old.items) }
    ensures steps { steps.new + 2 * kept_count trails.new.items
        ≤ steps.old + 2 * kept_count trails.old.items + 2 * length trails.old.items + 2 }
{
    if let Some(i) = find(trails, reach, method, args, answer, steps) {
        return Ok(i);
    }
    let i = free(alloc, trails, steps)?;
    trails[i].begin(method, args, answer, steps);
    Ok(i)
}

/// Whether a question is asked whose answer the specification's last step can have changed. Few
/// answers change in a step, so that is looked at first. The specification is asked in one step.
fn is_affected<S: Spec, L: Ledger>(trail: &Trail, spec: &S, steps: &mut Steps<L>) -> bool
    ensures affected { result
        ≡ (trail.now.is_asked && S.affects spec.now trail.now.method trail.now.args) }
    ensures steps { steps.new ≡ steps.old + 1 }
{
    steps.tick();
    spec.affects(trail.method(), trail.args()) && trail.is_asked()
}

/// The first such question before the reach, or the reach. This only reads, so that what it asks of
/// the specification needn't be loaded anew for each trail. A trail that is looked at is a step, as
/// is what the specification is asked.
fn first_affected<S: Spec, L: Ledger>(
    trails: &[Trail],
    reach: usize,
    spec: &S,
    steps: &mut Steps<L>,
) -> usize
    requires within { reach ≤ length trails.now }
    ensures none { (i : ℕ) (t : Asked) → i < result → slice_get trails.now i ≡ Some t
        → (t.is_asked && S.affects spec.now t.method t.args) ≡ false }
    ensures within { result ≤ reach }
    ensures steps { steps.new ≤ steps.old + 2 * result + 2 }
{
    for i in 0..reach {
        steps.tick();
        if is_affected(&trails[i], spec, steps) {
            return i;
        }
    }
    reach
}

/// A question that is asked gets the answer of the specification's state too, if the last step can
/// have changed it. Each of the two things that the specification is asked is a step.
fn see<S: Spec, L: Ledger>(
    trail: &mut Trail,
    spec: &S,
    steps: &mut Steps<L>,
) -> Result<(), AllocError>
    requires allowed { trail.old.is_asked ≡ true
        → has_method (rules_by (S.charter spec.now)).header trail.old.method trail.old.args ≡ true }
    requires may_answer { trail.old.is_asked ≡ true → must_commit trail.old.method ≡ false }
    ensures saw { OnOk result
        (trail.new
        ≡ after_state (S.affects spec.now)
        ((rules_by (S.charter spec.now)).answer (S.state spec.now)) trail.old) }
    ensures unchanged { OnErr result (trail.new ≡ trail.old) }
    ensures steps { steps.new ≤ steps.old + 2 }
{
    steps.tick();
    if trail.is_asked() && spec.affects(trail.method(), trail.args()) {
        steps.tick();
        trail.see(spec.answer(trail.method(), trail.args()))?;
    }
    Ok(())
}

/// The place behind the last trail that is asked, if none is from this one on. A trail that is
/// looked at is a step.
pub(crate) fn reach_of<L: Ledger>(trails: &[Trail], reach: usize, steps: &mut Steps<L>) -> usize
    requires within { reach ≤ length trails.now }
    requires free { AreFreeFrom reach trails.now }
    ensures within { result ≤ reach }
    ensures free { AreFreeFrom result trails.now }
    ensures steps { steps.new ≤ steps.old + reach }
{
    for i in (0..reach).rev() {
        steps.tick();
        if trails[i].is_asked() {
            return i + 1;
        }
    }
    0
}

/// All questions that are asked get the answer of the specification's state too. From the reach on
/// no trail is asked. A trail that is looked at is a step, and so is each thing that the
/// specification is asked. A trail gets one answer more at most, and so does an observer.
pub(crate) fn see_all<S: Spec, L: Ledger>(
    trails: &mut Vec<Trail>,
    reach: usize,
    spec: &S,
    steps: &mut Steps<L>,
) -> Result<(), AllocError>
    requires within { reach ≤ length trails.old.items }
    requires free { AreFreeFrom reach trails.old.items }
    requires asking { AreAsking (rules_by (S.charter spec.now)).header trails.old.items }
    ensures len { length trails.new.items ≡ length trails.old.items }
    ensures saw { OnOk result
        (trails.new.items
        ≡ map
        (after_state (S.affects spec.now)
        ((rules_by (S.charter spec.now)).answer (S.state spec.now))) trails.old.items) }
    ensures order { (h : Header) (watches : List (Option Watch))
        → AreInOrder h reach trails.old.items watches
        → AreInOrder h reach trails.new.items watches }
    ensures answers { (watches : List (Option Watch))
        → answer_count (map (seen_by trails.new.items) watches)
        ≤ answer_count (map (seen_by trails.old.items) watches) + length watches }
    ensures kept { kept_count trails.new.items
        ≤ kept_count trails.old.items + length trails.old.items }
    ensures steps { steps.new ≤ steps.old + 3 * reach + 2 }
{
    for i in first_affected(trails, reach, spec, steps)..reach {
        steps.tick();
        see(&mut trails[i], spec, steps)?;
    }
    Ok(())
}
