//! What one caller is in the middle of.

ghost use Rattle.std.specs.Prelude.{◌≡◌, ℕ, ◌<◌, ◌^◌, List, [], ◌∷◌, ◌&&◌, IfNone};
ghost use Rattle.std.specs.Option.{option_or};
ghost use Rattle.std.specs.Bool.{then_some};
ghost use Rattle.vyrd_base.specs.Layout.{plain_words};
ghost use Rattle.vyrd_base.specs.declared.header.Header.{Header};
ghost use Rattle.vyrd_base.specs.declared.log.Entry.{Entry};
ghost use Rattle.vyrd_base.specs.Shape.{checks_of, first_broken, is_raced};
ghost use Rattle.vyrd_base.specs.Words.{is_lone_commit};

use vyrd_base::{Args, Header, Kind, Method, Rule};

/// What a caller is in the middle of.
#[derive(Clone, Copy)]
pub(crate) struct Phase {
    /// The method of the execution that is open.
    pub open_method: Option<Method>,
    /// Whether the caller has committed since its last call or return.
    pub committed: bool,
    /// Whether it has an open block.
    pub in_block: bool,
    /// Whether a lone commit stands inside its open block.
    pub inner: bool,
}

impl Phase {
    ghost use Rattle.vyrd_shape.specs.Phases.{phase_of};

    /// The phase of a caller without entries.
    pub fn start() -> Phase
        ensures { (c : ℕ) → result ≡ phase_of c [] }
    {
        Phase {
            open_method: None,
            committed: false,
            in_block: false,
            inner: false,
        }
    }

    /// The phase after an entry of the caller.
    #[inline(always)]
    pub fn after(self, kind: Kind) -> Phase
        ensures { (c : ℕ) (earlier : List Entry) → self ≡ phase_of c earlier
            → result ≡ phase_of c (record { caller = c; kind = kind } ∷ earlier) }
    {
        let mut next = self;
        match kind {
            Kind::Call(method, _) => {
                next.open_method = Some(method);
                next.committed = false;
            }
            Kind::Return(_) => {
                next.open_method = None;
                next.committed = false;
            }
            Kind::Write(_, _) => {}
            Kind::Commit => {
                next.committed = true;
                next.inner = self.in_block;
            }
            Kind::BlockOpen => {
                next.in_block = true;
                next.inner = false;
            }
            Kind::BlockClose => {
                next.in_block = false;
                next.inner = false;
            }
            Kind::BlockCommit => {
                next.committed = true;
                next.in_block = false;
                next.inner = false;
            }
        }
        next
    }

    /// Whether an entry of the caller of this kind is a lone commit inside its block.
    #[inline(always)]
    pub fn commits_inside(self, kind: Kind) -> bool
        ensures { result ≡ (self.in_block && is_lone_commit kind) }
    {
        self.in_block && matches!(kind, Kind::Commit)
    }

    /// The first rule that a call breaks.
    #[inline]
    pub fn call_rule(self, header: Header, method: Method, args: Args) -> Option<Rule>
        ensures { (c : ℕ) (earlier : List Entry) → self ≡ phase_of c earlier
            → result ≡ first_broken (checks_of header earlier c (Kind.Call method args)) }
    {
        if method.subject() != header.subject() {
            Some(Rule::MethodOther)
        } else if !header.fits(method, args) {
            Some(Rule::ArgumentRange)
        } else if self.open_method.is_some() {
            Some(Rule::CallInCall)
        } else {
            None
        }
    }

    /// The first rule that a return breaks.
    #[inline]
    pub fn return_rule(self) -> Option<Rule>
        ensures { (h : Header) (c reply : ℕ) (earlier : List Entry) → self ≡ phase_of c earlier
            → result ≡ first_broken (checks_of h earlier c (Kind.Return reply)) }
    {
        match self.open_method {
            None => Some(Rule::NoCall),
            Some(_) if self.in_block => Some(Rule::ReturnInBlock),
            Some(method) if method.must_commit() && !self.committed => Some(Rule::NoCommit),
            Some(_) => None,
        }
    }

    /// The first rule that a write breaks, apart from a word that is held or passed.
    #[inline(always)]
    pub fn write_rule(self, header: Header, word: u32, value: u64) -> Option<Rule>
        ensures rule { (c : ℕ) (earlier : List Entry) → self ≡ phase_of c earlier →
            option_or result (then_some (is_raced header c word earlier) Rule.BlockRaced)
            ≡ first_broken (checks_of header earlier c (Kind.Write word value)) }
        ensures word { IfNone result (word < plain_words header) }
        ensures value { IfNone result (value < 2 ^ 63) }
    {
        if self.open_method.is_none() {
            Some(Rule::NoCall)
        } else if word >= header.plain_words() {
            Some(Rule::WordRange)
        } else if value >= 1 << 63 {
            Some(Rule::ValueRange)
        } else {
            None
        }
    }

    /// The first rule that a lone commit breaks.
    #[inline]
    pub fn commit_rule(self, header: Header) -> Option<Rule>
        ensures { (c : ℕ) (earlier : List Entry) → self ≡ phase_of c earlier
            → result ≡ first_broken (checks_of header earlier c Kind.Commit) }
    {
        match self.open_method {
            None => Some(Rule::NoCall),
            Some(method) if method.is_observer() => Some(Rule::ObserverCommit),
            Some(_) if self.committed => Some(Rule::SecondCommit),
            Some(_) if header.version() == 1 && self.in_block => Some(Rule::CommitInBlock),
            Some(_) => None,
        }
    }

    /// The first rule that the opening of a block breaks.
    #[inline(always)]
    pub fn open_rule(self) -> Option<Rule>
        ensures { (h : Header) (c : ℕ) (earlier : List Entry) → self ≡ phase_of c earlier
            → result ≡ first_broken (checks_of h earlier c Kind.BlockOpen) }
    {
        if self.open_method.is_none() {
            Some(Rule::NoCall)
        } else if self.in_block {
            Some(Rule::BlockInBlock)
        } else {
            None
        }
    }

    /// The first rule that the end of a block without a commit breaks.
    #[inline(always)]
    pub fn close_rule(self) -> Option<Rule>
        ensures { (h : Header) (c : ℕ) (earlier : List Entry) → self ≡ phase_of c earlier
            → result ≡ first_broken (checks_of h earlier c Kind.BlockClose) }
    {
        if self.open_method.is_none() {
            Some(Rule::NoCall)
        } else if !self.in_block {
            Some(Rule::NoBlock)
        } else {
            None
        }
    }

    /// The first rule that the end of a block with a commit breaks.
    #[inline]
    pub fn block_commit_rule(self) -> Option<Rule>
        ensures { (h : Header) (c : ℕ) (earlier : List Entry) → self ≡ phase_of c earlier
            → result ≡ first_broken (checks_of h earlier c Kind.BlockCommit) }
    {
        match self.open_method {
            None => Some(Rule::NoCall),
            Some(_) if !self.in_block => Some(Rule::NoBlock),
            Some(method) if method.is_observer() => Some(Rule::ObserverCommit),
            Some(_) if self.committed => Some(Rule::SecondCommit),
            Some(_) => None,
        }
    }
}
