//! The specification of the user's own.

ghost use Rattle.std.specs.Prelude.{◌≡◌, ◌≤◌, true, not, length, is_none, IfOk, IfSome, option_map};
ghost use Rattle.std.specs.Arc.{arc_value};
ghost use Rattle.std.specs.Option.{is_some};
ghost use Rattle.vyrd_base.specs.declared.subject.Subject.TheVariants.{Own};
ghost use Rattle.vyrd_base.specs.Own.OwnRules.{own_start, may_stand};
ghost use Rattle.vyrd_base.specs.Own.Reader.{written_in};
ghost use Rattle.vyrd_base.specs.Rules.{own, own_rules};
ghost use Rattle.vyrd_own_spec.specs.Parts.{IsWhole};
ghost use Rattle.vyrd_own_spec.specs.Touched.{effects_by, touches};
ghost use Rattle.vyrd_own_spec.specs.Counted.{worths_by};
ghost use Rattle.vyrd_own_spec.specs.Effects.{most_touched};

use crate::allowing::{allows, effects, worths};
use crate::compared::OwnCompared;
use crate::parts::OwnParts;
use crate::specification::Specification;
use crate::start::{KEYS, is_whole, shown_at_start};
use crate::stepping::{answer, shows_nothing, step};
use std::alloc::{AllocError, Global};
use std::sync::Arc;
use vyrd_base::{Args, Effect, Header, Method, View};
use vyrd_own::{Room, StateOf, Worth};
use vyrd_spec::Spec;
use vyrd_view::ByParts;

/// A specification of the user's own, with a state. The words of the header are a whole number of
/// its parts.
#[derive(Drop)]
pub struct OwnSpec {
    header: Header,
    specification: Arc<Specification>,
    state: StateOf,
    room: Room,
    made: u64,
    touched: Vec<u64>,
    // Whether the last step did anything.
    changes: bool,
    ghost subject: { header.subject ≡ Own },
    ghost whole: { IsWhole header.size (written_in (arc_value specification)) },
    ghost registers: { length state.registers ≤ 16 },
}

impl OwnSpec {
    /// The specification in the state for which these plain words stand at the start. It is none if
    /// they stand for no state: if they aren't a whole number of parts, or show 2^64 or more of a
    /// key. It takes time and memory in proportion to the words.
    pub fn start(
        alloc: Global,
        header: Header,
        specification: Arc<Specification>,
        words: &[u64],
    ) -> Result<Option<OwnSpec>, AllocError>
        requires subject { header.subject ≡ Own }
        requires count { length words.now ≡ header.size }
        ensures header { IfOk result (λ found. IfSome found (λ s. s.header ≡ header)) }
        ensures lines { IfOk result
            (λ found. IfSome found (λ s. arc_value s.specification ≡ arc_value specification)) }
        ensures made { IfOk result (λ found. IfSome found (λ s. s.made ≡ 0)) }
        ensures state { IfOk result (λ found. IfSome found (λ s. s.state
            ≡ own_start (written_in (arc_value specification)) words.now)) }
        ensures none { IfOk result (λ found. is_none found
            ≡ not (may_stand (written_in (arc_value specification)) words.now)) }
    {
        if !is_whole(&specification, words.len()) {
            return Ok(None);
        }
        let Some(shown) = shown_at_start(alloc, header, &specification, words)? else {
            return Ok(None);
        };
        let state = StateOf::new(alloc, specification.program(), KEYS)?.with_shown(shown);
        Ok(Some(OwnSpec {
            header,
            specification,
            state,
            room: Room::new(alloc),
            made: 0,
            touched: Vec::new(alloc),
            changes: false,
        }))
    }

    /// The state.
    #[inline(always)]
    pub fn state(&self) -> &StateOf
        ensures { result.now ≡ self.now.state }
    {
        &self.state
    }

    /// Whether this state allows a call this reply. The state stays as it is.
    pub fn allows(
        &self,
        alloc: Global,
        method: Method,
        args: Args,
        reply: u64,
    ) -> Result<bool, AllocError>
        ensures { IfOk result (λ allowed. allowed ≡ is_some
            ((own_rules self.now.header (written_in (arc_value self.now.specification))).next
            method args reply self.now.state)) }
    {
        allows(alloc, &self.specification, method, args, reply, &self.state)
    }

    /// What a call with this reply does to this state, one effect after the other, or none if the
    /// state doesn't allow the reply. The state stays as it is.
    pub fn effects(
        &self,
        alloc: Global,
        method: Method,
        args: Args,
        reply: u64,
    ) -> Result<Option<Vec<Effect>>, AllocError>
        ensures { IfOk result (λ found. option_map (λ effects. effects.items) found ≡ effects_by
            (written_in (arc_value self.now.specification)) method args reply self.now.state) }
    {
        effects(alloc, &self.specification, method, args, reply, &self.state)
    }

    /// What counts for whether this state allows a call this reply: what the expressions are worth
    /// by which that is decided, each behind its parts. It is nothing if there is no such method.
    /// It costs what [`put_worths`](vyrd_own::put_worths) does.
    pub fn worths(
        &self,
        alloc: Global,
        method: Method,
        args: Args,
        reply: u64,
    ) -> Result<Vec<Worth>, AllocError>
        ensures { IfOk result (λ found. found.items ≡ worths_by
            (written_in (arc_value self.now.specification)) method args reply self.now.state) }
    {
        worths(alloc, &self.specification, method, args, reply, &self.state)
    }
}

impl Spec for OwnSpec {
    ghost charter = { λ s. own s.header (arc_value s.specification) };

    ghost state = { λ s. s.state };

    ghost made = { λ s. s.made };

    ghost touches = { λ s method args reply.
        touches (written_in (arc_value s.specification)) s.state method args reply };

    ghost touched = { λ s. s.touched.items };

    ghost affects = { λ s method args. s.changes };

    ghost most_touched = { most_touched };

    // A step that clears what is shown touches all of its keys.
    ghost owes = { λ s. length s.state.shown };

    type Compared = OwnCompared;

    fn header(&self) -> Header {
        self.header
    }

    fn step(&mut self, method: Method, args: Args, reply: u64) -> Result<bool, AllocError> {
        let allowed = step(
            &self.specification,
            method,
            args,
            reply,
            &mut self.state,
            &mut self.room,
            &mut self.touched,
        )?;
        if allowed {
            self.made += 1;
            self.changes = !self.room.effects.is_empty();
        }
        Ok(allowed)
    }

    fn answer(&self, method: Method, args: Args) -> u64 {
        answer(&self.specification, method, args, &self.state)
    }

    fn amount(&self, key: u64) -> u64 {
        if shows_nothing(self.header, &self.specification) {
            return 0;
        }
        self.state.shown().amount(key)
    }

    fn touched(&self) -> &[u64] {
        &self.touched
    }

    fn affects(&self, _method: Method, _args: Args) -> bool {
        self.changes
    }

    fn view(&self, alloc: Global) -> Result<View, AllocError> {
        if shows_nothing(self.header, &self.specification) {
            return Ok(View::new(alloc));
        }
        self.state.shown().view(alloc)
    }

    fn compared(&self, alloc: Global) -> Result<OwnCompared, AllocError> {
        let parts = OwnParts::new(alloc, self.header, Arc::try_clone(&self.specification)?)?;
        Ok(OwnCompared::new(ByParts::new(alloc, parts)?))
    }
}
