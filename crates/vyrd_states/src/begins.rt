//! What specifications begin from.

ghost use Rattle.std.specs.Prelude.{◌≡◌, true, IfOk, IfSome};
ghost use Rattle.std.specs.Option.{option_map};
ghost use Rattle.vyrd_base.specs.Rules.{Charter, built_in, rules_by};
ghost use Rattle.vyrd_base.specs.Starts.{may_start, state_at_start};
ghost use Rattle.vyrd_base.specs.Subjects.{is_built_in};

use std::alloc::{AllocError, Global};
use vyrd_base::{Header, StartWord};
use vyrd_spec::{AnySpec, BuiltIn, Spec};
use vyrd_witness::words_at_start;

/// A structure whose specification can be begun as often as its states are asked for.
pub trait Begins: Sized {
    // What names its rules.
    ghost charter: { Self → Charter };

    /// The specification that runs.
    type Running: Spec;

    /// The specification in the state for which these words stand at the start, and `None` if they
    /// stand for none. The only error is that memory has run out.
    fn begin(
        &self,
        alloc: Global,
        starting: &[StartWord],
    ) -> Result<Option<Self::Running>, AllocError>
        requires may_start { is_built_in (rules_by (charter self.now)).header.subject ≡ true
            → may_start (rules_by (charter self.now)).header starting.now ≡ true }
        ensures state { IfOk result (λ found. option_map Self.Running.state found
            ≡ state_at_start (rules_by (charter self.now)) starting.now) }
        ensures charter { IfOk result (λ found. IfSome found
            (λ s. Self.Running.charter s ≡ charter self.now)) }
        ensures made { IfOk result (λ found. IfSome found (λ s. Self.Running.made s ≡ 0)) };
}

/// A structure that is built in: its header is all that its specification begins from.
#[derive(Clone, Copy)]
pub struct FromHeader {
    header: Header,
    ghost built_in: { is_built_in header.subject ≡ true },
}

impl FromHeader {
    /// That of this header.
    pub fn new(header: Header) -> FromHeader
        requires built_in { is_built_in header.subject ≡ true }
        ensures { result.header ≡ header }
    {
        FromHeader { header }
    }
}

impl Begins for FromHeader {
    ghost charter = { λ b. built_in b.header };

    type Running = AnySpec;

    /// It takes time and memory in proportion to the words, except that a tree takes time in
    /// proportion to the square of its nodes in use.
    fn begin(&self, alloc: Global, starting: &[StartWord]) -> Result<Option<AnySpec>, AllocError> {
        let words = words_at_start(alloc, self.header, starting)?;
        AnySpec::start_from(alloc, self.header, &words)
    }
}
