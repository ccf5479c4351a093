//! The specification of the cache: the pair of each chunk.

ghost use Rattle.std.specs.Prelude.{◌≡◌, ◌+◌, ◌*◌, ◌<◌, ◌≤◌, ◌^◌, true, false, length, Some, None};
ghost use Rattle.std.specs.Prelude.{refl};
ghost use Rattle.vyrd_base.specs.Subjects.{is_built_in};
ghost use Rattle.vyrd_base.specs.Rules.{built_in};
ghost use Rattle.vyrd_base.specs.States.{showing};
ghost use Rattle.vyrd_base.specs.declared.subject.Subject.TheVariants.{Cache};
ghost use Rattle.vyrd_spec.specs.Touching.{touched_by, is_touched};
ghost use Rattle.vyrd_spec.specs.Touching.Cache.{touches};
ghost use Rattle.vyrd_base.specs.Subjects.{never_commits};
ghost use Rattle.vyrd_base.specs.Cache.{commits, next};
ghost use Rattle.vyrd_spec.specs.Bounds.{AllAmounts, small_chunks};
ghost use Rattle.vyrd_spec.specs.Rows.{row_amounts, row_formed};

use crate::chunk_words::pairs_of;
use crate::row::{amount_at, empty_row, row_shown, set_amount};
use crate::spec::{BuiltIn, Spec};
use crate::touched::Touched;
use std::alloc::{AllocError, Global};
use vyrd_base::{Args, CacheMethod, Header, Method, View};
use vyrd_view::Compared;

/// The specification of the cache. The amount of a chunk is hi * 2^32 + lo of the pair that was
/// written last. The pairs stand in a list by chunk, so that a step costs constant time and no
/// memory.
#[derive(Drop)]
pub struct CacheSpec {
    header: Header,
    made: u64,
    touched: Touched,
    pairs: Vec<u64>,
    ghost subject: { header.subject ≡ Cache },
    ghost few: { made ≤ 2 ^ 62 },
    ghost count: { length pairs.items ≡ header.size },
    ghost small: { AllAmounts (λ chunk pair. (chunk < 2 ^ 32) × (pair < 2 ^ 64))
        (row_amounts pairs.items) },
}

impl Spec for CacheSpec {
    ghost charter = { λ s. built_in s.header };

    ghost state = { λ s. showing (row_amounts s.pairs.items) };

    ghost made = { λ s. s.made };

    ghost touches = { λ s method args reply. touched_by method args };

    ghost touched = { λ s. s.touched };

    ghost affects = { λ s method args. is_touched s.touched args.a };

    ghost most_touched = { λ charter. 2 };

    ghost owes = { λ s. 0 };

    type Compared = Compared;

    fn header(&self) -> Header {
        self.header
    }

    #[tactic(auto, using(crate::proofs::StepMeets::step_laws))]
    fn step(&mut self, method: Method, args: Args, reply: u64) -> Result<bool, AllocError> {
        let Method::Cache(method) = method else {
            unreachable!()
        };
        let allowed = next(&mut self.pairs, method, args, reply);
        if allowed {
            self.made += 1;
            self.touched = touches(method, args);
        }
        Ok(allowed)
    }

    fn answer(&self, _method: Method, args: Args) -> u64 {
        amount_at(&self.pairs, u64::from(args.a))
    }

    fn amount(&self, key: u64) -> u64 {
        amount_at(&self.pairs, key)
    }

    fn touched(&self) -> &[u64] {
        self.touched.keys()
    }

    fn affects(&self, _method: Method, args: Args) -> bool {
        self.touched.has(u64::from(args.a))
    }

    fn compared(&self, alloc: Global) -> Result<Compared, AllocError> {
        Compared::new(alloc, self.header)
    }

    fn view(&self, alloc: Global) -> Result<View, AllocError> {
        row_shown(alloc, &self.pairs)
    }
}

impl BuiltIn for CacheSpec {
    ghost use Rattle.std.proofs.Common.{ap};

    ghost serves = { λ subject. subject ≡ Cache };

    ghost has_built_in_rules = { λ s. refl };

    ghost has_built_in_subject = { λ s. ap is_built_in s.subject };

    ghost is_formed = { λ s. row_formed s.pairs.items };

    ghost is_small = { λ s. small_chunks (row_amounts s.pairs.items) s.small };

    fn start(alloc: Global, header: Header) -> Result<Self, AllocError> {
        Ok(CacheSpec {
            header,
            made: 0,
            touched: Touched::none(),
            pairs: empty_row(alloc, header.size() as usize)?,
        })
    }

    fn start_from(
        alloc: Global,
        header: Header,
        words: &[u64],
    ) -> Result<Option<Self>, AllocError> {
        match pairs_of(alloc, header.size() as usize, words)? {
            Some(pairs) => Ok(Some(CacheSpec {
                header,
                made: 0,
                touched: Touched::none(),
                pairs,
            })),
            None => Ok(None),
        }
    }
}

/// The keys that a step with this call can change.
fn touches(method: CacheMethod, args: Args) -> Touched
    ensures { result ≡ touches method args }
{
    match method {
        CacheMethod::Write => Touched::one(args.a),
        CacheMethod::Flush | CacheMethod::Evict | CacheMethod::Read => Touched::none(),
    }
}

/// Changes the pairs by a mutator's call with its reply, and says whether the reply is allowed,
/// which 1 alone is.
fn next(pairs: &mut Vec<u64>, method: CacheMethod, args: Args, reply: u64) -> bool
    requires mutator { never_commits (commits method) ≡ false }
    requires chunk { args.a < length pairs.old.items }
    ensures allowed { result ≡ true
        → next method args reply (row_amounts pairs.old.items)
        ≡ Some (row_amounts pairs.new.items) }
    ensures refused { result ≡ false
        → next method args reply (row_amounts pairs.old.items) ≡ None }
    ensures count { length pairs.new.items ≡ length pairs.old.items }
    ensures unchanged { result ≡ false → pairs.new ≡ pairs.old }

    // Arguments have 32 bits.
    ensures numbers { (args.a < 2 ^ 32) × (args.b < 2 ^ 32) × (args.c < 2 ^ 32) }
{
    if reply != 1 {
        return false;
    }
    if method == CacheMethod::Write {
        set_amount(
            pairs,
            args.a as usize,
            u64::from(args.c) * (1 << 32) + u64::from(args.b),
        );
    }
    true
}
