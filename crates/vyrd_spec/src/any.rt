//! The specification of a subject that is known only as the program runs.

use crate::buffers::BufferSpec;
use crate::cache::CacheSpec;
use crate::multiset::MultisetSpec;
use crate::spec::{BuiltIn, Spec};
use crate::tree::TreeSpec;
use std::alloc::{AllocError, Global};
use vyrd_base::{Args, Header, Method, Subject, View};
use vyrd_view::Compared;

/// The specification of any subject that is built in: that of its header's.
#[derive(Drop)]
pub enum AnySpec {
    /// A multiset's.
    Multiset(MultisetSpec),
    /// A cache's.
    Cache(CacheSpec),
    /// A tree's.
    Tree(TreeSpec),
    /// That of string buffers.
    Buffers(BufferSpec),
}

impl Spec for AnySpec {
    ghost use Rattle.vyrd_base.specs.Rules.{built_in};
    ghost use Rattle.vyrd_spec.specs.Touching.{touched_by, is_touched};
    ghost use Rattle.vyrd_spec.specs.AnySpecs.{header_in, state_in, made_in, touched_in};

    ghost charter = { λ s. built_in (header_in s) };

    ghost state = { state_in };

    ghost made = { made_in };

    ghost touches = { λ s method args reply. touched_by method args };

    ghost touched = { touched_in };

    ghost affects = { λ s method args. is_touched (touched_in s) args.a };

    ghost most_touched = { λ charter. 2 };

    ghost owes = { λ s. 0 };

    type Compared = Compared;

    fn header(&self) -> Header {
        match self {
            AnySpec::Multiset(spec) => spec.header(),
            AnySpec::Cache(spec) => spec.header(),
            AnySpec::Tree(spec) => spec.header(),
            AnySpec::Buffers(spec) => spec.header(),
        }
    }

    fn step(&mut self, method: Method, args: Args, reply: u64) -> Result<bool, AllocError> {
        match self {
            AnySpec::Multiset(spec) => spec.step(method, args, reply),
            AnySpec::Cache(spec) => spec.step(method, args, reply),
            AnySpec::Tree(spec) => spec.step(method, args, reply),
            AnySpec::Buffers(spec) => spec.step(method, args, reply),
        }
    }

    fn answer(&self, method: Method, args: Args) -> u64 {
        match self {
            AnySpec::Multiset(spec) => spec.answer(method, args),
            AnySpec::Cache(spec) => spec.answer(method, args),
            AnySpec::Tree(spec) => spec.answer(method, args),
            AnySpec::Buffers(spec) => spec.answer(method, args),
        }
    }

    fn amount(&self, key: u64) -> u64 {
        match self {
            AnySpec::Multiset(spec) => spec.amount(key),
            AnySpec::Cache(spec) => spec.amount(key),
            AnySpec::Tree(spec) => spec.amount(key),
            AnySpec::Buffers(spec) => spec.amount(key),
        }
    }

    fn touched(&self) -> &[u64] {
        match self {
            AnySpec::Multiset(spec) => spec.touched(),
            AnySpec::Cache(spec) => spec.touched(),
            AnySpec::Tree(spec) => spec.touched(),
            AnySpec::Buffers(spec) => spec.touched(),
        }
    }

    fn affects(&self, method: Method, args: Args) -> bool {
        match self {
            AnySpec::Multiset(spec) => spec.affects(method, args),
            AnySpec::Cache(spec) => spec.affects(method, args),
            AnySpec::Tree(spec) => spec.affects(method, args),
            AnySpec::Buffers(spec) => spec.affects(method, args),
        }
    }

    fn compared(&self, alloc: Global) -> Result<Compared, AllocError> {
        Compared::new(alloc, self.header())
    }

    fn view(&self, alloc: Global) -> Result<View, AllocError> {
        match self {
            AnySpec::Multiset(spec) => spec.view(alloc),
            AnySpec::Cache(spec) => spec.view(alloc),
            AnySpec::Tree(spec) => spec.view(alloc),
            AnySpec::Buffers(spec) => spec.view(alloc),
        }
    }
}

impl BuiltIn for AnySpec {
    ghost use Rattle.std.specs.Prelude.{◌≡◌, true, refl};
    ghost use Rattle.vyrd_base.specs.Subjects.{is_built_in};
    ghost use Rattle.vyrd_spec.specs.AnySpecs.{built_in_subject, formed_in, small_in};

    ghost serves = { λ subject. is_built_in subject ≡ true };

    ghost has_built_in_rules = { λ s. refl };

    ghost has_built_in_subject = { built_in_subject };

    ghost is_formed = { formed_in };

    ghost is_small = { small_in };

    fn start(alloc: Global, header: Header) -> Result<Self, AllocError> {
        Ok(match header.subject() {
            Subject::Multiset => AnySpec::Multiset(MultisetSpec::start(alloc, header)?),
            Subject::Cache => AnySpec::Cache(CacheSpec::start(alloc, header)?),
            Subject::Tree => AnySpec::Tree(TreeSpec::start(alloc, header)?),
            Subject::Buffers => AnySpec::Buffers(BufferSpec::start(alloc, header)?),
            Subject::Own => unreachable!(),
        })
    }

    fn start_from(
        alloc: Global,
        header: Header,
        words: &[u64],
    ) -> Result<Option<Self>, AllocError> {
        Ok(match header.subject() {
            Subject::Multiset => {
                MultisetSpec::start_from(alloc, header, words)?.map(AnySpec::Multiset)
            }
            Subject::Cache => CacheSpec::start_from(alloc, header, words)?.map(AnySpec::Cache),
            Subject::Tree => TreeSpec::start_from(alloc, header, words)?.map(AnySpec::Tree),
            Subject::Buffers => BufferSpec::start_from(alloc, header, words)?.map(AnySpec::Buffers),
            Subject::Own => unreachable!(),
        })
    }
}
