//! The specification of the multiset: how many there are of each value.

ghost use Rattle.std.specs.Prelude.{◌≡◌, ◌≢◌, ◌+◌, ◌*◌, ◌<◌, ◌≤◌, ◌^◌, ◌-◌, ℕ, true, false, not};
ghost use Rattle.std.specs.Prelude.{refl, OnOk, OnErr, Some, None, Ok};
ghost use Rattle.std.specs.Bool.{then_some};
ghost use Rattle.vyrd_base.specs.Subjects.{is_built_in};
ghost use Rattle.vyrd_base.specs.Rules.{built_in};
ghost use Rattle.vyrd_base.specs.States.{showing};
ghost use Rattle.vyrd_base.specs.declared.subject.Subject.TheVariants.{Multiset};
ghost use Rattle.vyrd_base.specs.Amounts.{amount_of, with_amount, plus_amount, IsAmounts};
ghost use Rattle.vyrd_base.specs.Structures.{by_reply};
ghost use Rattle.vyrd_base.specs.Amounts.{is_present};
ghost use Rattle.vyrd_spec.specs.Touching.{touched_by, is_touched};
ghost use Rattle.vyrd_spec.specs.Touching.Multiset.{touches};
ghost use Rattle.vyrd_base.specs.Subjects.{never_commits};
ghost use Rattle.vyrd_base.specs.Multiset.{commits, next};
ghost use Rattle.vyrd_spec.specs.Bounds.{AllAmounts, most_after, small_counts};
ghost use Rattle.vyrd_base.specs.Formed.{IsAmounts-prop};

use crate::slot_words::{are_sound, counts};
use crate::spec::{BuiltIn, Spec};
use crate::touched::Touched;
use std::alloc::{AllocError, Global};
use vyrd_base::{Args, Header, Method, MultisetMethod, View};
use vyrd_table::AmountTable;
use vyrd_view::Compared;

/// The specification of the multiset. The amount of a value is its multiplicity.
/// It begins with 4,096 at most, and a step adds two at most.
#[derive(Drop)]
pub struct MultisetSpec {
    header: Header,
    made: u64,
    touched: Touched,
    amounts: AmountTable,
    ghost subject: { header.subject ≡ Multiset },
    ghost few: { made ≤ 2 ^ 62 },
    ghost formed: { IsAmounts amounts } by { IsAmounts-prop amounts },
    ghost small: { AllAmounts (λ value count. (value < 2 ^ 63) × (count ≤ most_after made))
        amounts },
}

impl Spec for MultisetSpec {
    ghost charter = { λ s. built_in s.header };

    ghost state = { λ s. showing s.amounts };

    ghost made = { λ s. s.made };

    ghost touches = { λ s method args reply. touched_by method args };

    ghost touched = { λ s. s.touched };

    ghost affects = { λ s method args. is_touched s.touched args.a };

    ghost most_touched = { λ charter. 2 };

    ghost owes = { λ s. 0 };

    type Compared = Compared;

    fn header(&self) -> Header {
        self.header
    }

    #[tactic(auto, using(crate::proofs::StepMeets::step_laws))]
    fn step(&mut self, method: Method, args: Args, reply: u64) -> Result<bool, AllocError> {
        let Method::Multiset(method) = method else {
            unreachable!()
        };
        let allowed = next(&mut self.amounts, method, args, reply)?;
        if allowed {
            self.made += 1;
            self.touched = touches(method, args);
        }
        Ok(allowed)
    }

    fn answer(&self, _method: Method, args: Args) -> u64 {
        u64::from(self.amounts.amount(u64::from(args.a)) != 0)
    }

    fn amount(&self, key: u64) -> u64 {
        self.amounts.amount(key)
    }

    fn touched(&self) -> &[u64] {
        self.touched.keys()
    }

    fn affects(&self, _method: Method, args: Args) -> bool {
        self.touched.has(u64::from(args.a))
    }

    fn compared(&self, alloc: Global) -> Result<Compared, AllocError> {
        Compared::new(alloc, self.header)
    }

    fn view(&self, alloc: Global) -> Result<View, AllocError> {
        self.amounts.view(alloc)
    }
}

impl BuiltIn for MultisetSpec {
    ghost use Rattle.std.proofs.Common.{ap};

    ghost serves = { λ subject. subject ≡ Multiset };

    ghost has_built_in_rules = { λ s. refl };

    ghost has_built_in_subject = { λ s. ap is_built_in s.subject };

    ghost is_formed = { λ s. s.formed };

    ghost is_small = { λ s. small_counts s.made s.amounts s.few s.small };

    fn start(alloc: Global, header: Header) -> Result<Self, AllocError> {
        Ok(MultisetSpec {
            header,
            made: 0,
            touched: Touched::none(),
            amounts: AmountTable::new(alloc, 4 * header.size() as usize)?,
        })
    }

    fn start_from(
        alloc: Global,
        header: Header,
        words: &[u64],
    ) -> Result<Option<Self>, AllocError> {
        let size = header.size() as usize;
        if !are_sound(size, words) {
            return Ok(None);
        }
        Ok(Some(MultisetSpec {
            header,
            made: 0,
            touched: Touched::none(),
            amounts: counts(alloc, size, words)?,
        }))
    }
}

/// The keys that a step with this call can change.
fn touches(method: MultisetMethod, args: Args) -> Touched
    ensures { result ≡ touches method args }
{
    match method {
        MultisetMethod::Insert | MultisetMethod::Delete => Touched::one(args.a),
        MultisetMethod::InsertPair => Touched::two(args.a, args.b),
        MultisetMethod::Lookup => Touched::none(),
    }
}

/// Changes the multiplicities by a mutator's call with its reply, and says whether the reply is
/// allowed.
fn next(
    counts: &mut AmountTable,
    method: MultisetMethod,
    args: Args,
    reply: u64,
) -> Result<bool, AllocError>
    requires mutator { never_commits (commits method) ≡ false }
    requires few { (value : ℕ) → amount_of counts.old value ≤ 2 ^ 63 + 4096 }
    ensures allowed { result ≡ Ok true → next method args reply counts.old ≡ Some counts.new }
    ensures refused { result ≡ Ok false → next method args reply counts.old ≡ None }
    ensures unchanged { result ≢ Ok true → counts.new ≡ counts.old }

    // Arguments have 32 bits.
    ensures numbers { (args.a < 2 ^ 32) × (args.b < 2 ^ 32) }
{
    let value = u64::from(args.a);
    match method {
        MultisetMethod::Insert => insert(counts, value, reply),
        MultisetMethod::InsertPair => insert_pair(counts, value, u64::from(args.b), reply),
        MultisetMethod::Delete => Ok(delete(counts, value, reply)),
        MultisetMethod::Lookup => unreachable!(),
    }
}

/// An insert: reply 1 adds the value, and reply 0 changes nothing.
fn insert(counts: &mut AmountTable, value: u64, reply: u64) -> Result<bool, AllocError>
    requires few { amount_of counts.old value + 1 < 2 ^ 64 }
    ensures allowed { result ≡ Ok true
        → by_reply reply (Some counts.old) (Some (plus_amount counts.old value 1)) None
        ≡ Some counts.new }
    ensures refused { result ≡ Ok false
        → by_reply reply (Some counts.old) (Some (plus_amount counts.old value 1)) None ≡ None }
    ensures unchanged { result ≢ Ok true → counts.new ≡ counts.old }
{
    match reply {
        0 => Ok(true),
        1 => {
            counts.add(value, 1)?;
            Ok(true)
        }
        _ => Ok(false),
    }
}

/// An insert of two values, which may be equal: reply 1 adds both, and reply 0 changes nothing.
fn insert_pair(
    counts: &mut AmountTable,
    first: u64,
    second: u64,
    reply: u64,
) -> Result<bool, AllocError>
    requires few { (value : ℕ) → amount_of counts.old value + 2 < 2 ^ 64 }
    ensures allowed { result ≡ Ok true
        → by_reply reply (Some counts.old)
        (Some (plus_amount (plus_amount counts.old first 1) second 1)) None
        ≡ Some counts.new }
    ensures refused { result ≡ Ok false
        → by_reply reply (Some counts.old)
        (Some (plus_amount (plus_amount counts.old first 1) second 1)) None
        ≡ None }
    ensures unchanged { result ≢ Ok true → counts.new ≡ counts.old }
{
    match reply {
        0 => Ok(true),
        1 => {
            add_both(counts, first, second)?;
            Ok(true)
        }
        _ => Ok(false),
    }
}

/// One more of each of two values. If there is memory for the first alone, it is taken out again.
fn add_both(counts: &mut AmountTable, first: u64, second: u64) -> Result<(), AllocError>
    requires few { (value : ℕ) → amount_of counts.old value + 2 < 2 ^ 64 }
    ensures ok { OnOk result (counts.new ≡ plus_amount (plus_amount counts.old first 1) second 1) }
    ensures err { OnErr result (counts.new ≡ counts.old) }
{
    counts.add(first, 1)?;
    match counts.add(second, 1) {
        Ok(()) => Ok(()),
        Err(refusal) => {
            counts.take_one(first);
            Err(refusal)
        }
    }
}

/// A delete: reply 1 takes one of a value that is there, and reply 0 says that it isn't there.
fn delete(counts: &mut AmountTable, value: u64, reply: u64) -> bool
    ensures allowed { result ≡ true
        → by_reply reply (then_some (not (is_present counts.old value)) counts.old)
        (then_some (is_present counts.old value)
        (with_amount counts.old value (amount_of counts.old value - 1))) None
        ≡ Some counts.new }
    ensures refused { result ≡ false
        → by_reply reply (then_some (not (is_present counts.old value)) counts.old)
        (then_some (is_present counts.old value)
        (with_amount counts.old value (amount_of counts.old value - 1))) None
        ≡ None }
    ensures unchanged { result ≡ false → counts.new ≡ counts.old }
{
    let present = counts.amount(value) != 0;
    match reply {
        0 => !present,
        1 if present => {
            counts.take_one(value);
            true
        }
        _ => false,
    }
}
