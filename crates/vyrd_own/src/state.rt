//! A state of a specification.

ghost use Rattle.std.specs.Prelude.{◌≡◌, ◌+◌, ◌<◌, ◌≤◌, ℕ, List, [], ◌∷◌, true, map, length};
ghost use Rattle.std.specs.Prelude.{OnOk, OnErr, IfOk, if◌then◌else◌};
ghost use Rattle.vyrd_base.specs.Amounts.{IsAmounts};
ghost use Rattle.vyrd_base.specs.States.{State};
ghost use Rattle.vyrd_base.specs.Own.Expressions.{list_at, first_of, last_of};
ghost use Rattle.vyrd_own.specs.Layout.{written};
ghost use Rattle.vyrd_base.specs.Own.Steps.{with_effects, start_of, hidden_with, blank};
ghost use Rattle.vyrd_own.specs.Prices.{sets_price, put_price};
ghost use Rattle.vyrd_own.specs.Queues.{queue_at, puts_in, HaveRoom};
ghost use Rattle.vyrd_own.specs.Apart.{registers_with, registers_after, lists_after, lists_with};

use crate::program::Program;
use crate::queue::Queue;
use crate::shown::ShownAmounts;
use crate::updates::Updates;
use std::alloc::{AllocError, Global};
use std::marker::{Brand, Model};
use std::sync::ledger::{Blank, Ledger};
use vyrd_base::{Effect, Steps};
use vyrd_table::AmountTable;

/// A state: what it shows, what it hides, its registers and its lists.
#[derive(Drop)]
pub struct StateOf {
    shown: ShownAmounts,
    hidden: AmountTable,
    registers: Vec<u64>,
    lists: Vec<Queue>,
    keys: usize,
}

impl Model for StateOf {
    ghost use Rattle.std.specs.Prelude.{map};
    ghost use Rattle.vyrd_base.specs.Amounts.{IsAmounts};
    ghost use Rattle.vyrd_base.specs.States.{State};

    ghost Value = { State };

    ghost view = { λ s. record {
      shown = s.shown;
      hidden = s.hidden;
      registers = s.registers.items;
      lists = map (λ q. q.items) s.lists.items;
    } };

    ghost invariant = { λ s. IsAmounts s.shown × IsAmounts s.hidden };
}

impl StateOf {
    /// The state at the start.
    #[tactic(auto, unfolding(vyrd_base::specs::Own::Steps::start_of))]
    pub fn new(alloc: Global, program: &Program, keys: usize) -> Result<StateOf, AllocError>
        ensures { IfOk result (λ s. s ≡ start_of (written program.now)) }
    {
        let mut hidden = AmountTable::new(alloc, keys)?;
        put_hidden(&mut hidden, &program.hidden)?;
        Ok(StateOf {
            shown: ShownAmounts::new(alloc, keys)?,
            hidden,
            registers: Vec::from_slice(alloc, &program.registers)?,
            lists: lists_of(alloc, &program.lists)?,
            keys,
        })
    }

    /// The state in which nothing was set.
    pub fn blank(alloc: Global) -> Result<StateOf, AllocError>
        ensures { IfOk result (λ s. s ≡ blank) }
    {
        Ok(StateOf {
            shown: ShownAmounts::new(alloc, 0)?,
            hidden: AmountTable::new(alloc, 0)?,
            registers: Vec::new(alloc),
            lists: Vec::new(alloc),
            keys: 0,
        })
    }

    /// The same state, except that it shows this.
    pub fn with_shown(mut self, shown: ShownAmounts) -> StateOf
        requires { IsAmounts shown }
        ensures { result ≡ record self { shown = shown } }
    {
        self.shown = shown;
        self
    }

    /// What the state shows.
    #[inline(always)]
    pub fn shown(&self) -> &ShownAmounts
        ensures shown { result.now ≡ self.now.shown }
        ensures formed { IsAmounts self.now.shown }
    {
        &self.shown
    }

    /// What the state hides.
    #[inline(always)]
    pub fn hidden(&self) -> &AmountTable
        ensures { result.now ≡ self.now.hidden }
    {
        &self.hidden
    }

    /// The registers.
    #[inline(always)]
    pub fn registers(&self) -> &[u64]
        ensures { result.now ≡ self.now.registers }
    {
        &self.registers
    }

    /// How many lists there are.
    pub fn list_count(&self) -> usize
        ensures { result ≡ length self.now.lists }
    {
        self.lists.len()
    }

    /// The first of the list of that number.
    #[inline(always)]
    pub fn first(&self, i: usize) -> u64
        ensures { result ≡ first_of (list_at self.now i) }
    {
        if i < self.lists.len() {
            return self.lists[i].first();
        }
        u64::MAX
    }

    /// The last of the list of that number.
    #[inline(always)]
    pub fn last(&self, i: usize) -> u64
        ensures { result ≡ last_of (list_at self.now i) }
    {
        if i < self.lists.len() {
            return self.lists[i].last();
        }
        u64::MAX
    }

    /// How long the list of that number is.
    #[inline(always)]
    pub fn size(&self, i: usize) -> u64
        ensures { result ≡ length (list_at self.now i) }
    {
        if i < self.lists.len() {
            return self.lists[i].size();
        }
        0
    }

    /// Does all of this, one after the other. If memory runs out, all is as it was.
    #[inline(always)]
    pub fn put_all(
        &mut self,
        alloc: Global,
        effects: &[Effect],
        updates: &mut Updates,
    ) -> Result<(), AllocError>
        ensures ok { OnOk result (self.new ≡ with_effects self.old effects.now) }
        ensures err { OnErr result (self.new ≡ self.old) }
    {
        put_alone::<Brand>(Blank::new(1), self, alloc, effects, updates)
    }

    /// Does all of this, as `put_all` does, with its steps counted. What is cleared isn't counted.
    pub fn put_all_counted<L: Ledger>(
        &mut self,
        alloc: Global,
        effects: &[Effect],
        updates: &mut Updates,
        steps: &mut Steps<L>,
    ) -> Result<(), AllocError>
        ensures ok { OnOk result (self.new ≡ with_effects self.old effects.now) }
        ensures err { OnErr result (self.new ≡ self.old) }
        ensures steps { steps.new ≤ steps.old + put_price (length effects.now) }
    {
        let clears = updates.gather(effects, steps)?;
        reserve(&mut self.lists, effects, steps)?;
        put_amounts(
            alloc,
            self.keys,
            clears,
            &mut self.shown,
            &mut self.hidden,
            updates,
            steps,
        )?;
        set_registers(&mut self.registers, effects, steps);
        change_lists(&mut self.lists, effects, steps);
        Ok(())
    }
}

/// Does all of this with a count of its own.
#[inline(always)]
fn put_alone<L: Ledger>(
    blank: Blank,
    state: &mut StateOf,
    alloc: Global,
    effects: &[Effect],
    updates: &mut Updates,
) -> Result<(), AllocError>
    requires name { blank.name ≡ L.name }
    requires parts { blank.parts ≡ L.parts }
    requires some { 0 < blank.parts }
    ensures ok { OnOk result (state.new ≡ with_effects state.old effects.now) }
    ensures err { OnErr result (state.new ≡ state.old) }
{
    let mut steps = Steps::<L>::new(blank);
    state.put_all_counted(alloc, effects, updates, &mut steps)
}

/// Sets the registers.
fn set_registers<L: Ledger>(registers: &mut Vec<u64>, effects: &[Effect], steps: &mut Steps<L>)
    ensures registers { registers.new.items ≡ registers_after registers.old.items effects.now }
    ensures steps { steps.new ≡ steps.old + length effects.now }
{
    for effect in effects {
        steps.tick();
        set_register(registers, *effect);
    }
}

/// Sets the register that this sets, if there is one.
#[inline(always)]
fn set_register(registers: &mut Vec<u64>, effect: Effect)
    ensures { registers.new.items ≡ registers_with registers.old.items effect }
{
    if let Effect::SetRegister(i, new) = effect {
        if i < registers.len() {
            registers[i] = new;
        }
    }
}

/// Makes room in the lists that get something, for as much as there are effects.
fn reserve<L: Ledger>(
    lists: &mut Vec<Queue>,
    effects: &[Effect],
    steps: &mut Steps<L>,
) -> Result<(), AllocError>
    ensures items { map (λ q. q.items) lists.new.items ≡ map (λ q. q.items) lists.old.items }
    ensures room { OnOk result (HaveRoom lists.new.items effects.now (length effects.now)) }
    ensures steps { steps.new ≤ steps.old + length effects.now }
{
    for effect in effects {
        steps.tick();
        reserve_for(lists, *effect, effects.len())?;
    }
    Ok(())
}

/// Makes room in the list that this puts something in, if there is one.
#[inline(always)]
fn reserve_for(lists: &mut Vec<Queue>, effect: Effect, more: usize) -> Result<(), AllocError>
    ensures items { map (λ q. q.items) lists.new.items ≡ map (λ q. q.items) lists.old.items }
    ensures len { length lists.new.items ≡ length lists.old.items }
    ensures kept { (j : ℕ) → (queue_at lists.old.items j).room ≤ (queue_at lists.new.items j).room }
    ensures room { OnOk result (HaveRoom lists.new.items (effect ∷ []) more) }
{
    match effect {
        Effect::PutLast(i, _) => reserve_in(lists, i, more),
        Effect::PutFirst(i, _) => reserve_in(lists, i, more),
        _ => Ok(()),
    }
}

/// Makes room in the list of that number, if there is one.
fn reserve_in(lists: &mut Vec<Queue>, i: usize, more: usize) -> Result<(), AllocError>
    ensures items { map (λ q. q.items) lists.new.items ≡ map (λ q. q.items) lists.old.items }
    ensures len { length lists.new.items ≡ length lists.old.items }
    ensures kept { (j : ℕ) → (queue_at lists.old.items j).room ≤ (queue_at lists.new.items j).room }
    ensures room { OnOk result
        (i < length lists.new.items → more ≤ (queue_at lists.new.items i).room) }
{
    if i < lists.len() {
        let list = &mut lists[i];
        list.reserve(more)?;
    }
    Ok(())
}

/// Changes the lists, in which there is room.
fn change_lists<L: Ledger>(lists: &mut Vec<Queue>, effects: &[Effect], steps: &mut Steps<L>)
    requires { HaveRoom lists.old.items effects.now (length effects.now) }
    ensures lists { map (λ q. q.items) lists.new.items
        ≡ lists_after (map (λ q. q.items) lists.old.items) effects.now }
    ensures steps { steps.new ≡ steps.old + length effects.now }
{
    for effect in effects {
        steps.tick();
        change_list(lists, *effect);
    }
}

/// Does this to the lists.
#[inline(always)]
fn change_list(lists: &mut Vec<Queue>, effect: Effect)
    requires { (i : ℕ) → puts_in i effect ≡ true → i < length lists.old.items
        → 0 < (queue_at lists.old.items i).room }
    ensures items { map (λ q. q.items) lists.new.items
        ≡ lists_with (map (λ q. q.items) lists.old.items) effect }
    ensures len { length lists.new.items ≡ length lists.old.items }
    ensures room { (j : ℕ)
        → (queue_at lists.old.items j).room ≤ (queue_at lists.new.items j).room + 1 }
{
    match effect {
        Effect::PutLast(i, new) if i < lists.len() => lists[i].append(new),
        Effect::PutFirst(i, new) if i < lists.len() => lists[i].prepend(new),
        Effect::TakeFirst(i) if i < lists.len() => lists[i].drop_first(),
        Effect::TakeLast(i) if i < lists.len() => lists[i].drop_last(),
        Effect::Empty(i) if i < lists.len() => lists[i].clear(),
        _ => {}
    }
}

/// Changes the shown and the hidden amounts, all of them or none. What is shown is cleared first, if
/// that is asked for.
fn put_amounts<L: Ledger>(
    alloc: Global,
    keys: usize,
    clears: bool,
    shown: &mut ShownAmounts,
    hidden: &mut AmountTable,
    updates: &mut Updates,
    steps: &mut Steps<L>,
) -> Result<(), AllocError>
    requires shown { IsAmounts shown.old }
    requires hidden { IsAmounts hidden.old }
    ensures shown { OnOk result (shown.new
        ≡ hidden_with (if clears then [] else shown.old) updates.old.shown.items) }
    ensures hidden { OnOk result (hidden.new ≡ hidden_with hidden.old updates.old.hidden.items) }
    ensures shown_same { OnErr result (shown.new ≡ shown.old) }
    ensures hidden_same { OnErr result (hidden.new ≡ hidden.old) }
    ensures steps { steps.new ≤ steps.old + sets_price (length updates.old.shown.items)
        + sets_price (length updates.old.hidden.items) }
{
    if !clears {
        return updates.put(shown, hidden, steps);
    }
    let mut fresh = ShownAmounts::new(alloc, keys)?;
    updates.put(&mut fresh, hidden, steps)?;
    *shown = fresh;
    Ok(())
}

/// Sets the amount of each pair's key.
fn put_hidden(hidden: &mut AmountTable, pairs: &[(u64, u64)]) -> Result<(), AllocError>
    ensures { OnOk result (hidden.new ≡ hidden_with hidden.old pairs.now) }
{
    for (key, amount) in pairs {
        hidden.set(*key, *amount)?;
    }
    Ok(())
}

/// A list with these.
fn list_of(alloc: Global, items: &[u64]) -> Result<Queue, AllocError>
    ensures { IfOk result (λ q. q.items ≡ items.now) }
{
    let mut list = Queue::new(alloc);
    list.reserve(items.len())?;
    for item in items {
        list.append(*item);
    }
    Ok(list)
}

/// A list for each of these.
fn lists_of(alloc: Global, all: &[Vec<u64>]) -> Result<Vec<Queue>, AllocError>
    ensures { IfOk result (λ lists. map (λ q. q.items) lists.items
        ≡ map (λ list. list.items) all.now) }
{
    let mut lists = Vec::new(alloc);
    for items in all {
        let list = list_of(alloc, items)?;
        lists.push(list)?;
    }
    Ok(lists)
}
