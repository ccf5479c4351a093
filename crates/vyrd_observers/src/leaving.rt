//! What an observer that has returned leaves behind.

ghost use Rattle.std.specs.Prelude.{◌≡◌, ◌≤◌, ◌<◌, ◌+◌, ◌*◌, ◌⊎◌, ℕ, Option, Some, IfSome, map};
ghost use Rattle.std.specs.Prelude.{length};
ghost use Rattle.std.specs.Prelude.{None, slice_get};
ghost use Rattle.vyrd_base.specs.declared.header.Header.{Header};
ghost use Rattle.vyrd_observers.specs.declared.watch.Watch.{Watch};
ghost use Rattle.vyrd_observers.specs.Order.{AreCounted, AreCountedBefore, AreFreeFrom, SomeAsks};
ghost use Rattle.vyrd_observers.specs.Order.{Closes};
ghost use Rattle.vyrd_observers.specs.Trails.{Asked, AreOn, AreAsking, AreUsed, OthersAreUsed};
ghost use Rattle.vyrd_observers.specs.Trails.{AreOldExcept, StayOrEnd, kept_count, moved, seen_by};

use crate::trail::Trail;
use crate::trails::reach_of;
use crate::watch::Watch;
use std::sync::ledger::Ledger;
use vyrd_base::Steps;

/// The earlier of a place in a trail and the one from which an observer counts, if it asks that
/// trail.
fn earlier(first: Option<usize>, watch: Option<Watch>, trail: usize) -> Option<usize>
    ensures before { (n : ℕ) → first ≡ Some n → (m : ℕ) × (result ≡ Some m) × (m ≤ n) }
    ensures counts { (w : Watch) → watch ≡ Some w → w.trail ≡ trail
        → (m : ℕ) × (result ≡ Some m) × (m ≤ w.since) }
    ensures either { (m : ℕ) → result ≡ Some m
        → (first ≡ Some m) ⊎ (watch ≡ Some (record { trail = trail; since = m })) }
{
    match watch {
        Some(w) if w.trail == trail => Some(w.since.min(first.unwrap_or(w.since))),
        _ => first,
    }
}

/// The place in a trail from which on its answers count for some open observer, if one asks it. A
/// caller that is looked at is a step.
fn first_that_counts<L: Ledger>(
    watches: &[Option<Watch>],
    trail: usize,
    steps: &mut Steps<L>,
) -> Option<usize>
    ensures counts { (c : ℕ) (w : Watch) → slice_get watches.now c ≡ Some (Some w) → w.trail ≡ trail
        → (n : ℕ) × (result ≡ Some n) × (n ≤ w.since) }
    ensures asks { IfSome result (λ n. (c : ℕ)
        × (slice_get watches.now c ≡ Some (Some (record { trail = trail; since = n })))) }
    ensures steps { steps.new ≡ steps.old + length watches.now }
{
    let mut first = None;
    for watch in watches {
        steps.tick();
        first = earlier(first, *watch, trail);
    }
    first
}

/// An observer, once the first n answers of a trail are dropped.
fn moved(watch: Option<Watch>, trail: usize, n: usize) -> Option<Watch>
    requires { (w : Watch) → watch ≡ Some w → w.trail ≡ trail → n ≤ w.since }
    ensures { result ≡ moved trail n watch }
{
    let mut w = watch?;
    if w.trail == trail {
        w.since -= n;
    }
    Some(w)
}

/// All observers, once the first n answers of a trail are dropped. A caller that is looked at is a
/// step.
fn move_all<L: Ledger>(
    watches: &mut Vec<Option<Watch>>,
    trail: usize,
    n: usize,
    steps: &mut Steps<L>,
)
    requires { (c : ℕ) (w : Watch) → slice_get watches.old.items c ≡ Some (Some w) → w.trail ≡ trail
        → n ≤ w.since }
    ensures moved { watches.new.items ≡ map (moved trail n) watches.old.items }
    ensures steps { steps.new ≡ steps.old + length watches.old.items }
{
    for watch in watches.iter_mut() {
        steps.tick();
        *watch = moved(*watch, trail, n);
    }
}

/// Drops the first n answers of a trail, which count for no open observer.
fn forget<L: Ledger>(
    trails: &mut [Trail],
    watches: &mut Vec<Option<Watch>>,
    trail: usize,
    n: usize,
    steps: &mut Steps<L>,
)
    requires trail { trail < length trails.old }
    requires within { (t : Asked) → slice_get trails.old trail ≡ Some t → n ≤ length t.others }
    requires uncounted { (c : ℕ) (w : Watch) → slice_get watches.old.items c ≡ Some (Some w)
        → w.trail ≡ trail
        → n ≤ w.since }
    requires on { AreOn trails.old watches.old.items }
    ensures seen { map (seen_by trails.new) watches.new.items
        ≡ map (seen_by trails.old) watches.old.items }
    ensures on { AreOn trails.new watches.new.items }
    ensures asking { (h : Header) → AreAsking h trails.old → AreAsking h trails.new }
    ensures counted { AreCounted trails.old watches.old.items
        → AreCounted trails.new watches.new.items }
    ensures moved { watches.new.items ≡ map (moved trail n) watches.old.items }
    ensures only { AreOldExcept trails.old trails.new trail }
    ensures stay { StayOrEnd trails.old trails.new }
    ensures kept { kept_count trails.new + n ≡ kept_count trails.old }
    ensures steps { (t : Asked) → slice_get trails.old trail ≡ Some t
        → steps.new ≡ steps.old + length t.others + length watches.old.items }
{
    trails[trail].forget(n, steps);
    move_all(watches, trail, n, steps);
}

/// The answers of a trail that count for no open observer are dropped if they are more than half of
/// those before the latest, so that dropping takes constant time for each answer.
fn forget_some<L: Ledger>(
    trails: &mut [Trail],
    watches: &mut Vec<Option<Watch>>,
    trail: usize,
    steps: &mut Steps<L>,
)
    requires trail { trail < length trails.old }
    requires some { SomeAsks trail watches.old.items }
    requires on { AreOn trails.old watches.old.items }
    requires used { OthersAreUsed trails.old watches.old.items trail }
    ensures seen { map (seen_by trails.new) watches.new.items
        ≡ map (seen_by trails.old) watches.old.items }
    ensures on { AreOn trails.new watches.new.items }
    ensures asking { (h : Header) → AreAsking h trails.old → AreAsking h trails.new }
    ensures used { AreUsed trails.new watches.new.items }
    ensures counted { AreCounted trails.old watches.old.items
        → AreCounted trails.new watches.new.items }
    ensures stay { StayOrEnd trails.old trails.new }
    ensures closed { (c : ℕ) → slice_get watches.old.items c ≡ Some None
        → slice_get watches.new.items c ≡ Some None }
    ensures steps { steps.new + 2 * kept_count trails.new
        ≤ steps.old + 2 * kept_count trails.old + 2 * length watches.old.items }
{
    if let Some(n) = first_that_counts(watches, trail, steps) {
        if trails[trail].len() / 2 < n {
            forget(trails, watches, trail, n, steps);
        }
    }
}

/// An observer that asked this trail has returned. The trail is free if no other asks it. Otherwise
/// those of its answers that count for no other may be dropped.
fn let_go<L: Ledger>(
    trails: &mut [Trail],
    watches: &mut Vec<Option<Watch>>,
    trail: usize,
    steps: &mut Steps<L>,
)
    requires trail { trail < length trails.old }
    requires on { AreOn trails.old watches.old.items }
    requires used { OthersAreUsed trails.old watches.old.items trail }
    requires counted { AreCountedBefore trail trails.old watches.old.items }
    ensures seen { map (seen_by trails.new) watches.new.items
        ≡ map (seen_by trails.old) watches.old.items }
    ensures on { AreOn trails.new watches.new.items }
    ensures asking { (h : Header) → AreAsking h trails.old → AreAsking h trails.new }
    ensures used { AreUsed trails.new watches.new.items }
    ensures counted { AreCounted trails.new watches.new.items }
    ensures stay { StayOrEnd trails.old trails.new }
    ensures closed { (c : ℕ) → slice_get watches.old.items c ≡ Some None
        → slice_get watches.new.items c ≡ Some None }
    ensures steps { steps.new + 2 * kept_count trails.new
        ≤ steps.old + 2 * kept_count trails.old + 2 * length watches.old.items }
{
    trails[trail].leave(steps);
    if trails[trail].len() > 0 {
        forget_some(trails, watches, trail, steps);
    }
}

/// A caller has no open observer any more. The trail that it asked is free if no other asks it. From
/// the reach on no trail is asked, as before. Two steps are paid by each answer that is dropped.
#[inline]
pub(crate) fn close<L: Ledger>(
    trails: &mut Vec<Trail>,
    watches: &mut Vec<Option<Watch>>,
    reach: &mut usize,
    caller: usize,
    steps: &mut Steps<L>,
)
    requires caller { caller < length watches.old.items }
    requires on { AreOn trails.old.items watches.old.items }
    requires used { AreUsed trails.old.items watches.old.items }
    requires counted { AreCounted trails.old.items watches.old.items }
    requires within { reach.old ≤ length trails.old.items }
    requires free { AreFreeFrom reach.old trails.old.items }
    ensures closes { Closes caller trails.old.items trails.new.items watches.old.items
        watches.new.items reach.new }
    ensures steps { steps.new + 2 * kept_count trails.new.items
        ≤ steps.old + 2 * kept_count trails.old.items + 2 * length watches.old.items
        + length trails.old.items }
{
    if let Some(watch) = watches[caller] {
        watches[caller] = None;
        let_go(trails, watches, watch.trail, steps);
        *reach = reach_of(trails, *reach, steps);
    }
}
