//! Events that come in any order, and are shown to a sink in theirs.

ghost use Rattle.std.specs.Prelude.{◌≡◌, ◌≢◌, ℕ, ◌+◌, ◌<◌, ◌≤◌, ◌⊎◌, ◌^◌, true, false, List, []};
ghost use Rattle.std.specs.Prelude.{◌∷◌, ◌++◌, None, is_some, Ok, IfOk, OnOk, OnErr};
ghost use Rattle.std.specs.Result.{is_err};
ghost use Rattle.vyrd_base.specs.declared.history.Stamped.{Stamped};
ghost use Rattle.vyrd_relay.specs.Numbers.{held, has};
ghost use Rattle.vyrd_verifier.specs.Taken.{numbered, has_failed, has_number, MayRefuse};
ghost use Rattle.vyrd_verifier.specs.Taken.{IsTaking, HasTakenIn};

use std::alloc::{AllocError, Global};
use std::marker::Model;
use vyrd_base::Stamped;
use vyrd_memory::EventSink;
use vyrd_relay::Reorder;

/// The numbers that a sequencer takes in are below this one.
const NUMBERS: u64 = 1 << 62;

/// Takes in the events of a run in whatever order, and shows them to a sink by their numbers.
///
/// The sink has taken the events with the numbers 0 to m - 1, where m is the least number that
/// wasn't taken in. Those with greater numbers are held. Time: an event takes what the sink takes,
/// and what [`Reorder`] takes to put it in order. Memory: that of the sink, and in proportion to
/// the events held.
///
/// Out of memory may be met in [`Sequencer::take_in`] alone. From then on it answers the same, and
/// `had` goes on to say what was taken in.
#[derive(Drop)]
pub struct Sequencer<S: EventSink + Drop> {
    sink: S,
    reorder: Reorder,
    // The number of the event that was refused for lack of memory.
    refused: Option<u64>,
}

impl<S: EventSink + Drop> Model for Sequencer<S> {
    ghost use Rattle.std.specs.Prelude.{◌≡◌, None};
    ghost use Rattle.vyrd_verifier.specs.Taken.{SequencerView};

    ghost Value = { SequencerView S };

    ghost view = { λ q. record { sink = q.sink; kept = q.reorder; refused = q.refused } };

    ghost invariant = { λ q. q.refused ≡ None → S.count q.sink ≡ q.reorder.next };
}

impl<S: EventSink + Drop> Sequencer<S> {
    /// Nothing was taken in, neither here nor by the sink.
    pub fn new(alloc: Global, sink: S) -> Result<Sequencer<S>, AllocError>
        requires none { S.has_taken sink [] }
        ensures taken { IfOk result (λ q. HasTakenIn S.has_taken q []) }
        ensures sink { IfOk result (λ q. q.sink ≡ sink) }
        ensures has_failed { IfOk result (λ q. has_failed q ≡ false) }
    {
        Ok(Sequencer {
            sink,
            reorder: Reorder::new(alloc)?,
            refused: None,
        })
    }

    /// Takes in an event whose number is below 2^62 and wasn't taken in before, and shows the sink
    /// all whose turn has come.
    ///
    /// After out of memory the event wasn't taken in, and each later call answers the same.
    #[inline(always)]
    pub fn take_in(&mut self, item: Stamped) -> Result<(), AllocError>
        requires number { item.number < 2 ^ 62 }
        requires new { has_number self.old item.number ≡ false }
        ensures taken { (taken : List Stamped) → HasTakenIn S.has_taken self.old taken
            → OnOk result (HasTakenIn S.has_taken self.new (taken ++ item ∷ [])) }
        ensures refused { (taken : List Stamped) → HasTakenIn S.has_taken self.old taken
            → OnErr result (HasTakenIn S.has_taken self.new taken) }
        ensures has_failed { has_failed self.new ≡ is_err result }
        ensures fails_again { has_failed self.old ≡ true → is_err result ≡ true }
        ensures fixed { OnOk result (S.fixed self.new.sink ≡ S.fixed self.old.sink) }
    {
        if self.refused.is_some() {
            return Err(AllocError);
        }
        match follow(&mut self.sink, &mut self.reorder, item) {
            Ok(()) => Ok(()),
            Err(AllocError) => {
                self.refused = Some(item.number);
                Err(AllocError)
            }
        }
    }

    /// Takes in an event if that may be done, and answers whether it was taken in. It wasn't if the
    /// number is 2^62 or more, or was taken in before, and then all is as it was; or if there is no
    /// memory.
    #[inline(always)]
    pub fn try_take_in(&mut self, item: Stamped) -> bool
        ensures taken { (taken : List Stamped) → HasTakenIn S.has_taken self.old taken
            → result ≡ true
            → HasTakenIn S.has_taken self.new (taken ++ item ∷ []) }
        ensures refused { (taken : List Stamped) → HasTakenIn S.has_taken self.old taken
            → result ≡ false
            → HasTakenIn S.has_taken self.new taken }
        ensures cause { result ≡ false → MayRefuse self.old self.new item.number }
        ensures unchanged { (2 ^ 62 ≤ item.number) ⊎ (has_number self.old item.number ≡ true)
            → self.new ≡ self.old }
        ensures new { result ≡ true
            → (item.number < 2 ^ 62) × (has_number self.old item.number ≡ false) }
        ensures going { result ≡ true → has_failed self.new ≡ false }
        ensures fixed { result ≡ true → S.fixed self.new.sink ≡ S.fixed self.old.sink }
    {
        if item.number >= NUMBERS || self.had(item.number) {
            return false;
        }
        self.take_in(item).is_ok()
    }

    /// Whether an event with this number was taken in. It takes no memory.
    #[inline(always)]
    pub fn had(&self, number: u64) -> bool
        ensures value { result ≡ has_number self.now number }
        ensures taken { (taken : List Stamped) → HasTakenIn S.has_taken self.now taken
            → result ≡ is_some (numbered number taken) }
    {
        self.refused != Some(number) && self.reorder.had(number)
    }

    /// The least number that wasn't taken in.
    pub fn next(&self) -> u64
        ensures { result ≡ self.now.kept.next }
    {
        self.reorder.next()
    }

    /// Whether a call of `take_in` has met that memory ran out.
    pub fn has_failed(&self) -> bool
        ensures { result ≡ has_failed self.now }
    {
        self.refused.is_some()
    }

    /// The sink as it is now.
    pub fn sink(&self) -> &S
        ensures { result.now ≡ self.now.sink }
    {
        &self.sink
    }

    /// The sink alone. What is held is let go.
    pub fn into_sink(self) -> S
        ensures { result ≡ self.sink }
    {
        let Sequencer { sink, .. } = self;
        sink
    }
}

/// Puts an event in order, and shows the sink all whose turn has come.
#[inline(always)]
fn follow<S: EventSink>(
    sink: &mut S,
    reorder: &mut Reorder,
    item: Stamped,
) -> Result<(), AllocError>
    requires number { item.number < 2 ^ 62 }
    requires new { has reorder.old item.number ≡ false }
    requires counted { S.count sink.old ≡ reorder.old.next }
    ensures followed { (taken : List Stamped) → IsTaking S.has_taken sink.old reorder.old taken
        → OnOk result (IsTaking S.has_taken sink.new reorder.new (taken ++ item ∷ [])) }
    ensures missing { OnOk result (held reorder.new reorder.new.next ≡ None) }
    ensures had { OnErr result ((n : ℕ) → n ≢ item.number → has reorder.new n ≡ has reorder.old n) }
    ensures counted { OnOk result (S.count sink.new ≡ reorder.new.next) }
    ensures fixed { OnOk result (S.fixed sink.new ≡ S.fixed sink.old) }
{
    place(sink, reorder, item)?;
    let mut more = true;
    while more {
        more = advance(sink, reorder)?;
    }
    Ok(())
}

/// Shows the sink an event whose turn it is, and puts any other in order.
#[inline(always)]
fn place<S: EventSink>(sink: &mut S, reorder: &mut Reorder, item: Stamped) -> Result<(), AllocError>
    requires number { item.number < 2 ^ 62 }
    requires new { has reorder.old item.number ≡ false }
    requires counted { S.count sink.old ≡ reorder.old.next }
    ensures followed { (taken : List Stamped) → IsTaking S.has_taken sink.old reorder.old taken
        → OnOk result (IsTaking S.has_taken sink.new reorder.new (taken ++ item ∷ [])) }
    ensures had { (n : ℕ) → n ≢ item.number → has reorder.new n ≡ has reorder.old n }
    ensures counted { OnOk result (S.count sink.new ≡ reorder.new.next) }
    ensures fixed { OnOk result (S.fixed sink.new ≡ S.fixed sink.old) }
{
    if reorder.take_turn(item.number) {
        return sink.take(item);
    }
    reorder.put(item)
}

/// Shows the sink the event whose turn has come, and answers whether there was one.
#[inline(always)]
fn advance<S: EventSink>(sink: &mut S, reorder: &mut Reorder) -> Result<bool, AllocError>
    requires counted { S.count sink.old ≡ reorder.old.next }
    ensures followed { (taken : List Stamped) → IsTaking S.has_taken sink.old reorder.old taken
        → OnOk result (IsTaking S.has_taken sink.new reorder.new taken) }
    ensures goes { result ≡ Ok true
        → (reorder.new.next ≡ reorder.old.next + 1) × (reorder.old.next < 2 ^ 62) }
    ensures missing { result ≡ Ok false
        → (reorder.new ≡ reorder.old) × (held reorder.old reorder.old.next ≡ None) }
    ensures had { (n : ℕ) → has reorder.new n ≡ has reorder.old n }
    ensures counted { OnOk result (S.count sink.new ≡ reorder.new.next) }
    ensures fixed { OnOk result (S.fixed sink.new ≡ S.fixed sink.old) }
{
    let Some(event) = reorder.next_in_order() else {
        return Ok(false);
    };
    sink.take(event)?;
    Ok(true)
}
