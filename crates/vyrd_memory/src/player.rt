//! A machine that plays operations one after the other.

ghost use Rattle.std.specs.Prelude.{◌≡◌, ◌≤◌, ◌<◌, ◌+◌, ◌*◌, [], ◌∷◌, IfOk, IfSome, MatchOption};
ghost use Rattle.std.specs.Prelude.{drop, length, true, vec_len, is_some, is_none, if◌then◌else◌};
ghost use Rattle.std.specs.Option.{option_map_or};
ghost use Rattle.vyrd_memory.specs.Scripts.{stop, operations, followed_by};
ghost use Rattle.vyrd_memory.specs.Soundness.{IsSound, at_rest};
ghost use Rattle.vyrd_memory.specs.Bounds.{bounds_of, most_ops, most_op_events};
ghost use Rattle.vyrd_memory.specs.declared.op.Op.{Op};
ghost use Rattle.vyrd_memory.specs.declared.op.Variant.TheVariants.{Correct};
ghost use Rattle.vyrd_memory.specs.Alone.{IsRightAlone};
ghost use Rattle.vyrd_memory.specs.Players.{are_callable, first_bound, is_callable};

use crate::act::Act;
use crate::bound::bound;
use crate::machine::Machine;
use crate::op::{Op, Variant};
use crate::progress::Progress;
use crate::underway::Underway;
use std::alloc::{AllocError, Global};
use vyrd_base::{Header, Kind};

/// A machine of one caller: it calls its operations one after the other, each by the procedure of
/// its structure.
#[derive(Drop)]
pub struct Player<P: Progress> {
    underway: Underway<P>,
    caller: u32,
    variant: Variant,
    ops: Vec<Op>,
    begun: usize,
    later: u64,
    ghost within: { begun ≤ vec_len ops },
    ghost callable: { are_callable underway.header (drop begun ops.items) ≡ true },
    ghost bounded: { later ≡ bounds_of underway.header (drop begun ops.items) },
    ghost small: { later ≤ most_ops * most_op_events },
}

impl<P: Progress> Player<P> {
    /// The machine of a caller that will call these operations, of which there are at most 200,000.
    /// It takes memory for a copy of them.
    pub fn new(
        alloc: Global,
        header: Header,
        caller: u32,
        variant: Variant,
        ops: &[Op],
    ) -> Result<Player<P>, AllocError>
        requires subject { header.subject ≡ P.subject }
        requires caller { caller < header.callers }
        requires count { length ops.now ≤ most_ops }
        requires ops { are_callable header ops.now ≡ true }
        ensures header { IfOk result (λ m. ⟦<Player<P> as Machine>⟧.header_of m ≡ header) }
        ensures caller { IfOk result (λ m. ⟦<Player<P> as Machine>⟧.caller_of m ≡ caller) }
        ensures script { IfOk result (λ m. ⟦<Player<P> as Machine>⟧.script m
            ≡ operations (P.procedure header variant) ops.now) }
        ensures bound { IfOk result
            (λ m. ⟦<Player<P> as Machine>⟧.ahead m ≡ bounds_of header ops.now) }
        ensures alone { (op : Op) → is_callable header op ≡ true
            → IsRightAlone header op (P.procedure header Correct op) }
        ensures sound { IsSound header at_rest (operations (P.procedure header variant) ops.now) }
    {
        let later = sum_of_bounds(&header, ops);
        let ops = ops.to_vec(alloc)?;
        Ok(Player {
            underway: Underway::empty(header),
            caller,
            variant,
            ops,
            begun: 0,
            later,
        })
    }
}

impl<P: Progress> Player<P> {
    /// The next operation to begin.
    #[inline(always)]
    fn next_op(&self) -> Option<Op>
        ensures { MatchOption result (drop self.now.begun self.now.ops.items ≡ []) (λ op.
            (drop self.now.begun self.now.ops.items
            ≡ op ∷ drop (self.now.begun + 1) self.now.ops.items)
            × (is_callable self.now.underway.header op ≡ true)) }
    {
        self.ops.get(self.begun).copied()
    }

    /// Begins the next operation, after the mark of its call.
    #[inline(always)]
    fn begin(&mut self, op: Op)
        requires idle { is_none self.old.underway.progress ≡ true }
        requires next { drop self.old.begun self.old.ops.items
            ≡ op ∷ drop (self.old.begun + 1) self.old.ops.items }
        requires callable { is_callable self.old.underway.header op ≡ true }
        ensures begins { IfSome self.new.underway.progress (λ p. P.rest self.new.underway.header p
            ≡ P.procedure self.old.underway.header self.old.variant op) }
        ensures some { is_some self.new.underway.progress ≡ true }
        ensures header { self.new.underway.header ≡ self.old.underway.header }
        ensures caller { self.new.caller ≡ self.old.caller }
        ensures variant { self.new.variant ≡ self.old.variant }
        ensures later { drop self.new.begun self.new.ops.items
            ≡ drop (self.old.begun + 1) self.old.ops.items }
        ensures falls { self.new.underway.left + self.new.later
            < self.old.underway.left + self.old.later }
    {
        self.later -= bound(&self.underway.header, op.method);
        self.begun += 1;
        self.underway.begin(self.variant, op);
    }
}

impl<P: Progress> Machine for Player<P> {
    ghost use Rattle.std.proofs.Common.{◌∙◌};
    ghost use Rattle.vyrd_memory.specs.Laws.Player.{callable_method, callable_args, callable_small};
    ghost use Rattle.vyrd_memory.specs.Laws.Player.{player_sound, player_in_time, player_bound};
    ghost use Rattle.vyrd_memory.specs.Laws.Player.{player_sums, player_within, player_rests};
    ghost use Rattle.vyrd_memory.specs.Laws.Player.{player_done, player_few};

    ghost header_of = { λ m. m.underway.header };

    ghost caller_of = { λ m. m.caller };

    ghost script = { λ m. followed_by
        (option_map_or (P.rest m.underway.header) m.underway.progress stop)
        (operations (P.procedure m.underway.header m.variant) (drop m.begun m.ops.items)) };

    ghost ahead = { λ m. m.underway.left + m.later };

    ghost op_ahead = { λ m. if is_some m.underway.progress
        then m.underway.left
        else first_bound m.underway.header (drop m.begun m.ops.items) };

    ghost is_sound = { λ m. player_sound m.underway.header m.underway.left
        (P.rest m.underway.header) m.underway.progress (P.procedure m.underway.header m.variant)
        (drop m.begun m.ops.items)
        (λ op callable. P.is_sound m.underway.header m.variant op m.underway.subject
        (callable_method m.underway.header op callable ∙ m.underway.subject)
        (callable_args m.underway.header op callable)
        (callable_small m.underway.header op callable)) m.callable m.underway.goes_on };

    ghost ends_in_time = { λ m. player_in_time m.underway.header m.underway.left
        (P.rest m.underway.header) m.underway.progress (P.procedure m.underway.header m.variant)
        (drop m.begun m.ops.items)
        (λ op callable. P.ends_in_time m.underway.header m.variant op m.underway.subject
        (callable_method m.underway.header op callable ∙ m.underway.subject)
        (callable_args m.underway.header op callable)
        (callable_small m.underway.header op callable)) m.callable m.underway.goes_on };

    ghost next_bound = { λ m method args. player_bound m.underway.header m.underway.left
        (P.rest m.underway.header) m.underway.progress (P.procedure m.underway.header m.variant)
        (drop m.begun m.ops.items) method args m.underway.goes_on };

    ghost sums = { λ m. player_sums m.underway.header m.underway.left m.later
        (P.rest m.underway.header) m.underway.progress (P.procedure m.underway.header m.variant)
        (drop m.begun m.ops.items)
        (λ op callable. P.is_sound m.underway.header m.variant op m.underway.subject
        (callable_method m.underway.header op callable ∙ m.underway.subject)
        (callable_args m.underway.header op callable)
        (callable_small m.underway.header op callable))
        (λ op callable. P.ends_in_time m.underway.header m.variant op m.underway.subject
        (callable_method m.underway.header op callable ∙ m.underway.subject)
        (callable_args m.underway.header op callable)
        (callable_small m.underway.header op callable)) m.callable m.underway.goes_on m.bounded
        m.underway.idle };

    ghost op_is_ahead = { λ m. player_within m.underway.header m.underway.left m.later
        m.underway.progress (drop m.begun m.ops.items) m.bounded };

    ghost rests = { λ m. player_rests m.underway.header m.underway.left (P.rest m.underway.header)
        m.underway.progress (P.procedure m.underway.header m.variant) (drop m.begun m.ops.items)
        m.underway.goes_on };

    ghost few = { λ m. player_few m.underway.left m.later m.underway.small m.small };

    ghost done = { λ m. player_done m.underway.header m.underway.left m.later
        (P.rest m.underway.header) m.underway.progress (P.procedure m.underway.header m.variant)
        (drop m.begun m.ops.items) m.bounded m.underway.goes_on m.underway.idle };

    #[inline(always)]
    fn wants(&self) -> Act {
        match &self.underway.progress {
            Some(progress) => progress.wants(&self.underway.header),
            None => match self.next_op() {
                Some(op) => Act::Mark(Kind::Call(op.method, op.args)),
                None => Act::Done,
            },
        }
    }

    #[inline(always)]
    fn took(&mut self, answer: u64) {
        if self.underway.progress.is_some() {
            self.underway.go_on(answer);
        } else if let Some(op) = self.next_op() {
            self.begin(op);
        }
    }

    fn left(&self) -> u64 {
        self.underway.left + self.later
    }

    fn op_left(&self) -> u64 {
        match self.underway.progress {
            Some(_) => self.underway.left,
            None => match self.next_op() {
                Some(op) => bound(&self.underway.header, op.method),
                None => 0,
            },
        }
    }

    #[inline(always)]
    fn between(&self) -> bool {
        self.underway.progress.is_none()
    }
}

/// The sum of the bounds of operations.
fn sum_of_bounds(header: &Header, ops: &[Op]) -> u64
    requires { length ops.now ≤ most_ops }
    ensures sum { result ≡ bounds_of header.now ops.now }
    ensures small { result ≤ most_ops * most_op_events }
{
    let mut sum = 0;
    for op in ops {
        sum += bound(header, op.method);
    }
    sum
}
