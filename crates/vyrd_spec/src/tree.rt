//! The specification of the tree: the value of each key.

ghost use Rattle.std.specs.Prelude.{◌≡◌, ◌≢◌, ◌+◌, ◌<◌, ◌≤◌, ◌^◌, true, false, not, Some, None, Ok};
ghost use Rattle.std.specs.Prelude.{refl};
ghost use Rattle.std.specs.Bool.{then_some};
ghost use Rattle.vyrd_base.specs.Subjects.{is_built_in};
ghost use Rattle.vyrd_base.specs.Rules.{built_in};
ghost use Rattle.vyrd_base.specs.States.{showing};
ghost use Rattle.vyrd_base.specs.declared.subject.Subject.TheVariants.{Tree};
ghost use Rattle.vyrd_base.specs.Amounts.{with_amount, IsAmounts};
ghost use Rattle.vyrd_base.specs.Structures.{by_reply};
ghost use Rattle.vyrd_base.specs.Amounts.{is_present};
ghost use Rattle.vyrd_spec.specs.Touching.{touched_by, is_touched};
ghost use Rattle.vyrd_spec.specs.Touching.Tree.{touches};
ghost use Rattle.vyrd_base.specs.Subjects.{never_commits};
ghost use Rattle.vyrd_base.specs.Tree.{commits, next};
ghost use Rattle.vyrd_spec.specs.Bounds.{AllAmounts, small_values};
ghost use Rattle.vyrd_base.specs.Formed.{IsAmounts-prop};

use crate::leaves::values;
use crate::spec::{BuiltIn, Spec};
use crate::touched::Touched;
use crate::tree_words::is_tree;
use std::alloc::{AllocError, Global};
use vyrd_base::{Args, Header, Method, TreeMethod, View};
use vyrd_table::AmountTable;
use vyrd_view::Compared;

/// What is added to a value, so that the amount of a key that is there is never 0.
const PRESENT: u64 = 1 << 32;

/// The specification of the tree. The amount of a key that is there is 2^32 plus its value.
#[derive(Drop)]
pub struct TreeSpec {
    header: Header,
    made: u64,
    touched: Touched,
    amounts: AmountTable,
    ghost subject: { header.subject ≡ Tree },
    ghost few: { made ≤ 2 ^ 62 },
    ghost formed: { IsAmounts amounts } by { IsAmounts-prop amounts },
    ghost small: { AllAmounts (λ key amount. (key < 2 ^ 32) × (2 ^ 32 ≤ amount) × (amount < 2 ^ 64))
        amounts },
}

impl Spec for TreeSpec {
    ghost charter = { λ s. built_in s.header };

    ghost state = { λ s. showing s.amounts };

    ghost made = { λ s. s.made };

    ghost touches = { λ s method args reply. touched_by method args };

    ghost touched = { λ s. s.touched };

    ghost affects = { λ s method args. is_touched s.touched args.a };

    ghost most_touched = { λ charter. 2 };

    ghost owes = { λ s. 0 };

    type Compared = Compared;

    fn header(&self) -> Header {
        self.header
    }

    #[tactic(auto, using(crate::proofs::StepMeets::step_laws))]
    fn step(&mut self, method: Method, args: Args, reply: u64) -> Result<bool, AllocError> {
        let Method::Tree(method) = method else {
            unreachable!()
        };
        let allowed = next(&mut self.amounts, method, args, reply)?;
        if allowed {
            self.made += 1;
            self.touched = touches(method, args);
        }
        Ok(allowed)
    }

    fn answer(&self, _method: Method, args: Args) -> u64 {
        let amount = self.amounts.amount(u64::from(args.a));
        if amount == 0 { 0 } else { amount - PRESENT + 1 }
    }

    fn amount(&self, key: u64) -> u64 {
        self.amounts.amount(key)
    }

    fn touched(&self) -> &[u64] {
        self.touched.keys()
    }

    fn affects(&self, _method: Method, args: Args) -> bool {
        self.touched.has(u64::from(args.a))
    }

    fn compared(&self, alloc: Global) -> Result<Compared, AllocError> {
        Compared::new(alloc, self.header)
    }

    fn view(&self, alloc: Global) -> Result<View, AllocError> {
        self.amounts.view(alloc)
    }
}

impl BuiltIn for TreeSpec {
    ghost use Rattle.std.proofs.Common.{ap};

    ghost serves = { λ subject. subject ≡ Tree };

    ghost has_built_in_rules = { λ s. refl };

    ghost has_built_in_subject = { λ s. ap is_built_in s.subject };

    ghost is_formed = { λ s. s.formed };

    ghost is_small = { λ s. small_values s.amounts s.small };

    fn start(alloc: Global, header: Header) -> Result<Self, AllocError> {
        Ok(TreeSpec {
            header,
            made: 0,
            touched: Touched::none(),
            amounts: AmountTable::new(alloc, 4 * header.size() as usize)?,
        })
    }

    fn start_from(
        alloc: Global,
        header: Header,
        words: &[u64],
    ) -> Result<Option<Self>, AllocError> {
        let size = header.size() as usize;
        if !is_tree(alloc, size, words)? {
            return Ok(None);
        }
        Ok(Some(TreeSpec {
            header,
            made: 0,
            touched: Touched::none(),
            amounts: values(alloc, size, words)?,
        }))
    }
}

/// The keys that a step with this call can change.
fn touches(method: TreeMethod, args: Args) -> Touched
    ensures { result ≡ touches method args }
{
    match method {
        TreeMethod::Insert | TreeMethod::Delete => Touched::one(args.a),
        TreeMethod::Lookup => Touched::none(),
    }
}

/// Changes the values by a mutator's call with its reply, and says whether the reply is allowed.
fn next(
    values: &mut AmountTable,
    method: TreeMethod,
    args: Args,
    reply: u64,
) -> Result<bool, AllocError>
    requires mutator { never_commits (commits method) ≡ false }
    ensures allowed { result ≡ Ok true → next method args reply values.old ≡ Some values.new }
    ensures refused { result ≡ Ok false → next method args reply values.old ≡ None }
    ensures unchanged { result ≢ Ok true → values.new ≡ values.old }

    // Arguments have 32 bits.
    ensures numbers { (args.a < 2 ^ 32) × (args.b < 2 ^ 32) }
{
    let key = u64::from(args.a);
    match method {
        TreeMethod::Insert => insert(values, key, u64::from(args.b), reply),
        TreeMethod::Delete => Ok(delete(values, key, reply)),
        TreeMethod::Lookup => unreachable!(),
    }
}

/// An insert: reply 1 is for a key that was absent, reply 2 for one that was present, and both set
/// its value. Reply 0 changes nothing.
fn insert(values: &mut AmountTable, key: u64, value: u64, reply: u64) -> Result<bool, AllocError>
    requires small { value < 2 ^ 32 }
    ensures allowed { result ≡ Ok true
        → by_reply reply (Some values.old)
        (then_some (not (is_present values.old key)) (with_amount values.old key (2 ^ 32 + value)))
        (then_some (is_present values.old key) (with_amount values.old key (2 ^ 32 + value)))
        ≡ Some values.new }
    ensures refused { result ≡ Ok false
        → by_reply reply (Some values.old)
        (then_some (not (is_present values.old key)) (with_amount values.old key (2 ^ 32 + value)))
        (then_some (is_present values.old key) (with_amount values.old key (2 ^ 32 + value)))
        ≡ None }
    ensures unchanged { result ≢ Ok true → values.new ≡ values.old }
{
    let present = values.amount(key) != 0;
    match reply {
        0 => Ok(true),
        1 if !present => {
            values.set(key, PRESENT + value)?;
            Ok(true)
        }
        2 if present => {
            values.set(key, PRESENT + value)?;
            Ok(true)
        }
        _ => Ok(false),
    }
}

/// A delete: reply 1 takes out a key that is there, and reply 0 says that it isn't there.
fn delete(values: &mut AmountTable, key: u64, reply: u64) -> bool
    ensures allowed { result ≡ true
        → by_reply reply (then_some (not (is_present values.old key)) values.old)
        (then_some (is_present values.old key) (with_amount values.old key 0)) None
        ≡ Some values.new }
    ensures refused { result ≡ false → by_reply reply
        (then_some (not (is_present values.old key)) values.old)
        (then_some (is_present values.old key) (with_amount values.old key 0)) None ≡ None }
    ensures unchanged { result ≡ false → values.new ≡ values.old }
{
    let present = values.amount(key) != 0;
    match reply {
        0 => !present,
        1 if present => {
            values.remove(key);
            true
        }
        _ => false,
    }
}
