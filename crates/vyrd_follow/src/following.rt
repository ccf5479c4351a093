//! What changes along a front, line by line.

ghost use Rattle.std.specs.Prelude.{◌≡◌, ◌++◌, ◌<◌, ◌^◌, [], length, map, All, None, OnOk, IfSome};
ghost use Rattle.std.specs.Option.{option_map, option_map_or};
ghost use Rattle.vyrd_base.specs.Front.{first_break};
ghost use Rattle.vyrd_base.specs.Rules.{rules_by};
ghost use Rattle.vyrd_base.specs.Starts.{state_at_start, words_at_start};
ghost use Rattle.vyrd_item_text.specs.ItemText.{items_text};
ghost use Rattle.vyrd_witness.specs.declared.item.Item.TheVariants.{Stepped};
ghost use Rattle.vyrd_witness.specs.Changes.{words_through};
ghost use Rattle.vyrd_follow.specs.Following.{agreed_items, writes_items, followed_items};

use crate::follows::Follows;
use crate::step::pass;
use crate::tells::Tells;
use std::alloc::{AllocError, Global};
use vyrd_base::{Effect as Doing, Entry, Header, StartWord};
use vyrd_item_text::{Lines, put_items};
use vyrd_witness::{Effect, Item, Walk};

/// Puts a line behind a text for each thing that a front has at its start, and then for each that
/// changes along it: the writes that take effect, what the words show differently after them, and
/// what each step of the specification does. The words and the specification are those of the
/// start, and there is no specification if the words stand for no state. Steps are told up to the
/// first commit whose execution doesn't return, or whose reply is refused. The front keeps all
/// rules of shape, and begins with these starting words.
///
/// Each entry is gone over once, and once more for each block that it stands in; each commit is a
/// step, which looks at the entries from its execution's call to its return. What a write takes is
/// said by `words`. Memory is that of the text, of one specification and of the words. The only
/// error is that memory has run out.
pub fn follow<F: Follows, S: Tells, L: Lines>(
    alloc: Global,
    mut words: F,
    mut spec: Option<S>,
    lines: &L,
    header: Header,
    starting: &[StartWord],
    front: &[Entry],
    text: &mut Vec<u8>,
) -> Result<(), AllocError>
    requires header { header ≡ (rules_by (F.charter words)).header }
    requires words { F.words words ≡ words_at_start header starting.now }
    requires charter { IfSome spec (λ s. S.charter s ≡ F.charter words) }
    requires state { option_map S.state spec
        ≡ state_at_start (rules_by (F.charter words)) starting.now }
    requires made { IfSome spec (λ s. S.made s ≡ 0) }
    requires kept { first_break header front.now ≡ None }
    requires few { length front.now < 2 ^ 62 }
    ensures { OnOk result (text.new.items ≡ text.old.items ++ items_text (L.line lines.now)
        (followed_items (F.charter words) starting.now front.now)) }
{
    let mut items = Vec::new(alloc);
    put_start(alloc, &spec, &mut items)?;
    put_items(lines, &items, text)?;
    let mut walk = Walk::new(alloc, header, starting)?;
    let mut done = Vec::new(alloc);
    for at in 0..front.len() {
        items.clear();
        let effects = walk.step(alloc, header, front, at)?;
        put_writes(&mut words, &effects, &mut items)?;
        spec = pass(alloc, spec, front, at, &mut done)?;
        put_steps(at, &done, &mut items)?;
        put_items(lines, &items, text)?;
    }
    Ok(())
}

/// Puts what a specification's state shows at the start at the end, key by key, and nothing if
/// there is no specification.
fn put_start<S: Tells>(
    alloc: Global,
    spec: &Option<S>,
    items: &mut Vec<Item>,
) -> Result<(), AllocError>
    ensures { OnOk result (items.new.items ≡ items.old.items
        ++ option_map_or (λ s. agreed_items ((rules_by (S.charter s)).shown (S.state s)))
        spec.now []) }
{
    match spec {
        Some(begun) => {
            let view = begun.view(alloc)?;
            put_agreed(view.pairs(), items)
        }
        None => Ok(()),
    }
}

/// Puts amounts at the end, as what is agreed at the start.
fn put_agreed(pairs: &[(u64, u64)], items: &mut Vec<Item>) -> Result<(), AllocError>
    ensures { OnOk result (items.new.items ≡ items.old.items ++ agreed_items pairs.now) }
{
    for (key, amount) in pairs {
        let key = *key;
        let amount = u128::from(*amount);
        items.push(Item::AgreedAtStart { key, amount })?;
    }
    Ok(())
}

/// Lets writes take effect, one after the other, and puts what is said of each of them at the end.
fn put_writes<F: Follows>(
    words: &mut F,
    effects: &[Effect],
    items: &mut Vec<Item>,
) -> Result<(), AllocError>
    requires within { All (λ e. e.word < length (F.words words.old)) effects.now }
    ensures items { OnOk result (items.new.items ≡ items.old.items
        ++ writes_items (rules_by (F.charter words.old)) (F.words words.old) effects.now) }
    ensures words { OnOk result
        (F.words words.new ≡ words_through (F.words words.old) effects.now) }
    ensures charter { OnOk result (F.charter words.new ≡ F.charter words.old) }
{
    for effect in effects {
        words.write(*effect, items)?;
    }
    Ok(())
}

/// Puts what the step at a position does at the end.
fn put_steps(at: usize, done: &[Doing], items: &mut Vec<Item>) -> Result<(), AllocError>
    ensures { OnOk result (items.new.items ≡ items.old.items ++ map (Stepped at) done.now) }
{
    for effect in done {
        let doing = *effect;
        items.push(Item::Stepped { at, doing })?;
    }
    Ok(())
}
