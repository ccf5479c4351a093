//! The specification of the string buffers: the text of each buffer.

ghost use Rattle.std.specs.Prelude.{◌≡◌, ◌<◌, ◌≤◌, ◌^◌, true, false, length, Some, None, refl};
ghost use Rattle.vyrd_base.specs.Subjects.{is_built_in};
ghost use Rattle.vyrd_base.specs.Rules.{built_in};
ghost use Rattle.vyrd_base.specs.States.{showing};
ghost use Rattle.vyrd_base.specs.declared.subject.Subject.TheVariants.{Buffers};
ghost use Rattle.vyrd_spec.specs.Touching.{touched_by, is_touched};
ghost use Rattle.vyrd_spec.specs.Touching.Buffers.{touches};
ghost use Rattle.vyrd_base.specs.Subjects.{never_commits};
ghost use Rattle.vyrd_base.specs.Buffers.{commits, next};
ghost use Rattle.vyrd_spec.specs.Bounds.{AreTexts, small_texts};
ghost use Rattle.vyrd_spec.specs.Rows.{row_amounts, row_formed};
ghost use Rattle.vyrd_spec.specs.Texts.{next_text};

use crate::buffer_words::texts_of;
use crate::row::{amount_at, empty_row, row_shown, set_amount};
use crate::spec::{BuiltIn, Spec};
use crate::text::{cut_to, joined, text_length};
use crate::touched::Touched;
use std::alloc::{AllocError, Global};
use vyrd_base::{Args, BuffersMethod, Header, Method, View};
use vyrd_view::Compared;

/// The specification of the string buffers. The amount of a buffer is its text as one number.
/// The texts stand in a list by buffer, so that a step costs constant time and no memory.
#[derive(Drop)]
pub struct BufferSpec {
    header: Header,
    made: u64,
    touched: Touched,
    texts: Vec<u64>,
    ghost subject: { header.subject ≡ Buffers },
    ghost few: { made ≤ 2 ^ 62 },
    ghost count: { length texts.items ≡ header.size },
    ghost small: { AreTexts (row_amounts texts.items) },
}

impl Spec for BufferSpec {
    ghost charter = { λ s. built_in s.header };

    ghost state = { λ s. showing (row_amounts s.texts.items) };

    ghost made = { λ s. s.made };

    ghost touches = { λ s method args reply. touched_by method args };

    ghost touched = { λ s. s.touched };

    ghost affects = { λ s method args. is_touched s.touched args.a };

    ghost most_touched = { λ charter. 2 };

    ghost owes = { λ s. 0 };

    type Compared = Compared;

    fn header(&self) -> Header {
        self.header
    }

    #[tactic(auto, using(crate::proofs::StepMeets::step_laws))]
    fn step(&mut self, method: Method, args: Args, reply: u64) -> Result<bool, AllocError> {
        let Method::Buffers(method) = method else {
            unreachable!()
        };
        let allowed = next(&mut self.texts, method, args, reply);
        if allowed {
            self.made += 1;
            self.touched = touches(method, args);
        }
        Ok(allowed)
    }

    fn answer(&self, method: Method, args: Args) -> u64 {
        let text = amount_at(&self.texts, u64::from(args.a));
        if method == Method::Buffers(BuffersMethod::Length) {
            u64::from(text_length(text))
        } else {
            text
        }
    }

    fn amount(&self, key: u64) -> u64 {
        amount_at(&self.texts, key)
    }

    fn touched(&self) -> &[u64] {
        self.touched.keys()
    }

    fn affects(&self, _method: Method, args: Args) -> bool {
        self.touched.has(u64::from(args.a))
    }

    fn compared(&self, alloc: Global) -> Result<Compared, AllocError> {
        Compared::new(alloc, self.header)
    }

    fn view(&self, alloc: Global) -> Result<View, AllocError> {
        row_shown(alloc, &self.texts)
    }
}

impl BuiltIn for BufferSpec {
    ghost use Rattle.std.proofs.Common.{ap};

    ghost serves = { λ subject. subject ≡ Buffers };

    ghost has_built_in_rules = { λ s. refl };

    ghost has_built_in_subject = { λ s. ap is_built_in s.subject };

    ghost is_formed = { λ s. row_formed s.texts.items };

    ghost is_small = { λ s. small_texts (row_amounts s.texts.items) s.small };

    fn start(alloc: Global, header: Header) -> Result<Self, AllocError> {
        Ok(BufferSpec {
            header,
            made: 0,
            touched: Touched::none(),
            texts: empty_row(alloc, header.size() as usize)?,
        })
    }

    fn start_from(
        alloc: Global,
        header: Header,
        words: &[u64],
    ) -> Result<Option<Self>, AllocError> {
        match texts_of(alloc, header.size() as usize, words)? {
            Some(texts) => Ok(Some(BufferSpec {
                header,
                made: 0,
                touched: Touched::none(),
                texts,
            })),
            None => Ok(None),
        }
    }
}

/// The keys that a step with this call can change. A buffer has at most 7 characters, so that a cut
/// to 7 or more changes none.
fn touches(method: BuffersMethod, args: Args) -> Touched
    ensures { result ≡ touches method args }
{
    match method {
        BuffersMethod::Append | BuffersMethod::AppendFrom => Touched::one(args.a),
        BuffersMethod::Cut if args.b < 7 => Touched::one(args.a),
        BuffersMethod::Cut | BuffersMethod::Length | BuffersMethod::Read => Touched::none(),
    }
}

/// Changes the texts by a mutator's call with its reply, and says whether the reply is allowed: 1
/// if the call can do its work, and 0 if it can't.
fn next(texts: &mut Vec<u64>, method: BuffersMethod, args: Args, reply: u64) -> bool
    requires mutator { never_commits (commits method) ≡ false }
    requires buffer { args.a < length texts.old.items }
    requires small { AreTexts (row_amounts texts.old.items) }
    ensures allowed { result ≡ true
        → next method args reply (row_amounts texts.old.items)
        ≡ Some (row_amounts texts.new.items) }
    ensures refused { result ≡ false
        → next method args reply (row_amounts texts.old.items) ≡ None }
    ensures count { length texts.new.items ≡ length texts.old.items }
    ensures unchanged { result ≡ false → texts.new ≡ texts.old }

    // Arguments have 32 bits.
    ensures numbers { (args.a < 2 ^ 32) × (args.b < 2 ^ 32) }
{
    match (reply, next_text(texts, method, args)) {
        (0, None) => true,
        (1, Some(text)) => {
            set_amount(texts, args.a as usize, text);
            true
        }
        _ => false,
    }
}

/// The text of the call's buffer once a mutator's call has done its work, and `None` if the buffer
/// has no room for it.
fn next_text(texts: &[u64], method: BuffersMethod, args: Args) -> Option<u64>
    requires { AreTexts (row_amounts texts.now) }
    ensures { result ≡ next_text method args (row_amounts texts.now) }
{
    let text = amount_at(texts, u64::from(args.a));
    match method {
        BuffersMethod::Append => joined(text, u64::from(args.b) + 1),
        BuffersMethod::AppendFrom => joined(text, amount_at(texts, u64::from(args.b))),
        BuffersMethod::Cut => Some(cut_to(args.b, text)),
        BuffersMethod::Length | BuffersMethod::Read => None,
    }
}
