//! Events put in order by their numbers.

ghost use Rattle.std.specs.Prelude.{◌≡◌, ◌≢◌, ℕ, ◌+◌, ◌<◌, ◌≤◌, ◌^◌, ◌==◌, true, false, None, Some};
ghost use Rattle.std.specs.Prelude.{IfOk, OnOk, OnErr, IfSome, IfNone, OnSome, slice_index_or};
ghost use Rattle.std.specs.Prelude.{if◌then◌else◌, is_some};
ghost use Rattle.std.specs.VecDeque.{deque_len};
ghost use Rattle.std.specs.Ordering.{nat_cmp};
ghost use Rattle.std.specs.Map.{lookup};
ghost use Rattle.std.specs.BTreeMap.{is_at};
ghost use Rattle.vyrd_relay.specs.Numbers.{held, has};

use std::alloc::{AllocError, Global};
use std::collections::{BTreeMap, VecDeque};
use std::marker::Model;
use vyrd_base::Stamped;

/// An event has a place of its own if its number is less than this above the next one. It is as
/// many as a relay holds at most.
const NEAR: u64 = 65536;

/// Holds events that come in any order, and hands them out by their numbers: 0, 1, 2 and so on.
///
/// An event that comes fewer than 65,536 numbers early takes constant time on average, and memory
/// for the numbers up to its own. One that comes earlier takes time in the logarithm of the number
/// of such events, and memory for itself alone. So no gap between the numbers, however wide, takes
/// memory of its own.
#[derive(Drop)]
pub struct Reorder {
    next: u64,
    near: VecDeque<Option<Stamped>>,
    far: BTreeMap<u64, Stamped>,
}

impl Model for Reorder {
    ghost use Rattle.std.specs.Prelude.{◌≤◌, ◌^◌};
    ghost use Rattle.vyrd_relay.specs.Numbers.{ReorderKept, AreNumbered, AreToCome};

    ghost Value = { ReorderKept };

    ghost view = { λ r. record { next = r.next; near = r.near.items; far = r.far.entries } };

    ghost invariant = { λ r.
        AreNumbered (record { next = r.next; near = r.near.items; far = r.far.entries })
        × (r.next ≤ 2 ^ 62)
        × AreToCome (record { next = r.next; near = r.near.items; far = r.far.entries }) };
}

impl Reorder {
    /// Nothing is held, and the next number is 0.
    pub fn new(alloc: Global) -> Result<Reorder, AllocError>
        ensures next { IfOk result (λ r. r.next ≡ 0) }
        ensures held { IfOk result (λ r. (n : ℕ) → held r n ≡ None) }
    {
        Ok(Reorder {
            next: 0,
            near: VecDeque::new(alloc),
            far: BTreeMap::new(alloc),
        })
    }

    /// Takes in an event whose number is below 2^62, isn't held and wasn't handed out. If there is
    /// no memory, all is as before.
    pub fn put(&mut self, item: Stamped) -> Result<(), AllocError>
        requires range { item.number < 2 ^ 62 }
        requires new { has self.old item.number ≡ false }
        ensures held { OnOk result ((n : ℕ)
            → held self.new n ≡ (if n == item.number then Some item else held self.old n)) }
        ensures next { self.new.next ≡ self.old.next }
        ensures refused { OnErr result (self.new ≡ self.old) }
    {
        let place = item.number - self.next;
        if place < NEAR {
            set_place(&mut self.near, place as usize, item)
        } else {
            self.far.insert(item.number, item)?;
            Ok(())
        }
    }

    /// The number that is handed out next.
    pub fn next(&self) -> u64
        ensures { result ≡ self.now.next }
    {
        self.next
    }

    /// Whether it is this number's turn. If so, the event counts as handed out, as if it had been
    /// put and taken again. Its number isn't held and wasn't handed out. It takes no memory.
    #[inline(always)]
    pub fn take_turn(&mut self, number: u64) -> bool
        requires range { number < 2 ^ 62 }
        requires new { has self.old number ≡ false }
        ensures turn { result ≡ (number == self.old.next) }
        ensures next { result ≡ true → self.new.next ≡ self.old.next + 1 }
        ensures rest { result ≡ true → (n : ℕ) → self.old.next < n
            → held self.new n ≡ held self.old n }
        ensures waits { result ≡ false → self.new ≡ self.old }
    {
        if number != self.next {
            return false;
        }
        self.near.pop_front();
        self.next = number + 1;
        true
    }

    /// Whether the event with this number is held or was handed out. It takes no memory.
    #[inline(always)]
    pub fn had(&self, number: u64) -> bool
        ensures { result ≡ has self.now number }
    {
        number < self.next || self.holds(number)
    }

    /// Whether the event with this number, which wasn't handed out, is held. It is asked of each
    /// event that comes, so it copies none.
    #[inline(always)]
    fn holds(&self, number: u64) -> bool
        requires { self.now.next ≤ number }
        ensures { result ≡ is_some (held self.now number) }
    {
        match self.near.get((number - self.next) as usize) {
            Some(Some(_)) => true,
            _ => find_far(&self.far, number).is_some(),
        }
    }

    /// Hands out the event with the next number. `None` comes exactly when it isn't held. It takes
    /// no memory.
    #[inline(always)]
    pub fn next_in_order(&mut self) -> Option<Stamped>
        ensures item { result ≡ held self.old self.old.next }
        ensures number { IfSome result
            (λ item. (item.number ≡ self.old.next) × (item.number < 2 ^ 62)) }
        ensures next { OnSome result (self.new.next ≡ self.old.next + 1) }
        ensures rest { OnSome result
            ((n : ℕ) → self.old.next < n → held self.new n ≡ held self.old n) }
        ensures had { (n : ℕ) → has self.new n ≡ has self.old n }
        ensures none { IfNone result (self.new ≡ self.old) }
    {
        let item = self.find(self.next)?;
        self.near.pop_front();
        remove_far(&mut self.far, self.next);
        self.next += 1;
        Some(item)
    }

    /// The event with this number, which wasn't handed out, if it is held.
    #[inline(always)]
    fn find(&self, number: u64) -> Option<Stamped>
        requires { self.now.next ≤ number }
        ensures { result ≡ held self.now number }
    {
        match self.near.get((number - self.next) as usize) {
            Some(Some(item)) => Some(*item),
            _ => find_far(&self.far, number),
        }
    }
}

/// The event with this number among those that came far too early. There mostly are none.
#[inline(always)]
fn find_far(far: &BTreeMap<u64, Stamped>, number: u64) -> Option<Stamped>
    ensures { result ≡ lookup (is_at (nat_cmp number)) far.now.entries }
{
    if far.is_empty() {
        return None;
    }
    far.get(&number).copied()
}

/// Lets go of the event with this number, if it came far too early.
#[inline(always)]
fn remove_far(far: &mut BTreeMap<u64, Stamped>, number: u64)
    ensures gone { lookup (is_at (nat_cmp number)) far.new.entries ≡ None }
    ensures rest { (n : ℕ) → number ≢ n → lookup (is_at (nat_cmp n)) far.new.entries
        ≡ lookup (is_at (nat_cmp n)) far.old.entries }
{
    if !far.is_empty() {
        far.remove(&number);
    }
}

/// Puts an event at its place. If there is no memory, all is as before.
fn set_place(
    near: &mut VecDeque<Option<Stamped>>,
    place: usize,
    item: Stamped,
) -> Result<(), AllocError>
    requires { place < 65536 }
    ensures set { OnOk result ((i : ℕ)
        → slice_index_or near.new.items i None
        ≡ (if i == place then Some item else slice_index_or near.old.items i None)) }
    ensures refused { OnErr result (near.new.items ≡ near.old.items) }
{
    make_places(near, place + 1)?;
    near[place] = Some(item);
    Ok(())
}

/// Makes at least that many places. New ones are empty. If there is no memory, all is as before.
fn make_places(near: &mut VecDeque<Option<Stamped>>, len: usize) -> Result<(), AllocError>
    requires { len ≤ 65536 }
    ensures same { OnOk result
        ((i : ℕ) → slice_index_or near.new.items i None ≡ slice_index_or near.old.items i None) }
    ensures enough { OnOk result (len ≤ deque_len near.new) }
    ensures refused { OnErr result (near.new.items ≡ near.old.items) }
{
    if len <= near.len() {
        return Ok(());
    }
    near.resize(len, None)?;
    Ok(())
}
