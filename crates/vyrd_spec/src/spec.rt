//! What every specification offers.

ghost use Rattle.std.specs.Prelude.{◌≡◌, ◌≢◌, ◌+◌, ◌++◌, ◌<◌, ◌≤◌, ◌^◌, ℕ, Bool, true, false};
ghost use Rattle.std.specs.Prelude.{List, [], length, replicate, All, IfOk, IfSome, Some, None, Ok};
ghost use Rattle.std.specs.Option.{option_map};
ghost use Rattle.vyrd_base.specs.declared.subject.Args.{Args};
ghost use Rattle.vyrd_base.specs.declared.subject.Method.{Method};
ghost use Rattle.vyrd_base.specs.Rules.{Charter, built_in, rules_by};
ghost use Rattle.vyrd_base.specs.declared.subject.Subject.{Subject};
ghost use Rattle.vyrd_base.specs.Amounts.{IsAmounts, amount_of};
ghost use Rattle.vyrd_base.specs.States.{State, showing};
ghost use Rattle.vyrd_base.specs.Layout.{plain_words, lock_words};
ghost use Rattle.vyrd_base.specs.Represented.{state_of_words};
ghost use Rattle.vyrd_base.specs.Subjects.{subject_of, is_observer, must_commit, are_args};
ghost use Rattle.vyrd_base.specs.Subjects.{is_built_in};
ghost use Rattle.vyrd_spec.specs.Bounds.{AllAmounts};
ghost use Rattle.vyrd_spec.specs.Touching.{with_touched};
ghost use Rattle.vyrd_view.specs.Known.{IsNew, by_rules, view_by};

use std::alloc::{AllocError, Global};
use vyrd_base::{Args, Header, Method, View};
use vyrd_view::Compare;

/// A specification that runs: a state that steps with each mutator, in the order of the commits,
/// by rules that stay the same.
///
/// Arguments are those that a well-formed call has.
pub trait Spec: Sized + Drop {
    // What names the rules by which it steps and answers.
    ghost charter: { Self → Charter };

    // The state.
    ghost state: { Self → State };

    // How many steps were allowed since the start.
    ghost made: { Self → ℕ };

    // The keys whose shown amount a step with this call and reply can change, in this state.
    ghost touches: { Self → Method → Args → ℕ → List ℕ };

    // The keys that the last step has touched.
    ghost touched: { Self → List ℕ };

    // Whether the last step can have changed what an observer answers.
    ghost affects: { Self → Method → Args → Bool };

    // How many keys each step pays for, by the rules alone.
    ghost most_touched: { Charter → ℕ };

    // How many keys later steps may touch beyond what they pay for.
    ghost owes: { Self → ℕ };

    /// What compares the words with its states.
    type Compared: Compare;

    /// The header of the rules.
    fn header(&self) -> Header
        ensures { result ≡ (rules_by (charter self.now)).header };

    /// Makes a step with the call of an execution that commits, and its reply. `false` says that
    /// the reply isn't allowed in this state. After `false`, and when memory runs out, all is as it
    /// was.
    fn step(&mut self, method: Method, args: Args, reply: u64) -> Result<bool, AllocError>
        requires subject { subject_of method ≡ (rules_by (charter self.old)).header.subject }
        requires args { are_args (rules_by (charter self.old)).header.size method args ≡ true }
        requires mutator { is_observer method ≡ false }
        requires few { made self.old < 2 ^ 62 }
        ensures allowed { result ≡ Ok true
            → (rules_by (charter self.old)).next method args reply (state self.old)
            ≡ Some (state self.new) }
        ensures refused { result ≡ Ok false
            → (rules_by (charter self.old)).next method args reply (state self.old) ≡ None }
        ensures unchanged { result ≢ Ok true → state self.new ≡ state self.old }
        ensures charter { charter self.new ≡ charter self.old }
        ensures counted { result ≡ Ok true → made self.new ≡ made self.old + 1 }
        ensures uncounted { result ≢ Ok true → made self.new ≡ made self.old }
        ensures touches { result ≡ Ok true
            → touched self.new ≡ touches self.old method args reply }
        ensures touched { result ≡ Ok true
            → with_touched (touched self.new)
            ((rules_by (charter self.old)).shown (state self.new))
            ((rules_by (charter self.old)).shown (state self.old))
            ≡ (rules_by (charter self.old)).shown (state self.new) }
        ensures answers { result ≡ Ok true → (m : Method) (a : Args)
            → affects self.new m a ≡ false
            → (rules_by (charter self.old)).answer (state self.new) m a
            ≡ (rules_by (charter self.old)).answer (state self.old) m a }
        ensures paid { result ≡ Ok true → length (touched self.new) + owes self.new
            ≤ owes self.old + most_touched (charter self.old) }
        ensures unpaid { result ≢ Ok true → owes self.new ≡ owes self.old };

    /// What an execution without a commit answers in this state: an observer's, or one of another
    /// method that may return without a commit.
    fn answer(&self, method: Method, args: Args) -> u64
        requires subject { subject_of method ≡ (rules_by (charter self.now)).header.subject }
        requires args { are_args (rules_by (charter self.now)).header.size method args ≡ true }
        requires may_answer { must_commit method ≡ false }
        ensures { result ≡ (rules_by (charter self.now)).answer (state self.now) method args };

    /// The shown amount of a key, 0 if the key isn't there.
    fn amount(&self, key: u64) -> u64
        ensures { result ≡ amount_of ((rules_by (charter self.now)).shown (state self.now)) key };

    /// The keys that the last step has touched, if it was allowed: no other shown amount differs
    /// from the one before.
    fn touched(&self) -> &[u64]
        ensures { result.now ≡ touched self.now };

    /// Whether the last step can have changed what an observer answers, if it was allowed.
    fn affects(&self, method: Method, args: Args) -> bool
        ensures { result ≡ affects self.now method args };

    /// The keys whose shown amount isn't 0, with their amounts.
    fn view(&self, alloc: Global) -> Result<View, AllocError>
        ensures { IfOk result (λ v. v ≡ (rules_by (charter self.now)).shown (state self.now)) };

    /// What compares words by its rules, which was told nothing yet: zeroed words against nothing.
    fn compared(&self, alloc: Global) -> Result<Self::Compared, AllocError>
        ensures new { IfOk result (λ c. IsNew
            (plain_words (rules_by (charter self.now)).header) (Self.Compared.known c)) }
        ensures view { IfOk result (λ c. view_by (Self.Compared.known c).shows
            ≡ (rules_by (charter self.now)).view) }
        ensures shows { IfOk result
            (λ c. (Self.Compared.known c).shows ≡ by_rules (charter self.now)) };
}

/// A specification that is built in. It is made from a header, and its rules are those of the
/// header.
pub trait BuiltIn: Spec {
    // Whether it is the specification of this subject.
    ghost serves: { Subject → Type 0 };

    /// The empty state. It takes memory in proportion to the header's words.
    fn start(alloc: Global, header: Header) -> Result<Self, AllocError>
        requires serves { Self.serves header.subject }
        ensures state { IfOk result (λ s. Self.state s ≡ showing []) }
        ensures charter { IfOk result (λ s. Self.charter s ≡ built_in header) }
        ensures made { IfOk result (λ s. Self.made s ≡ 0) }
        ensures owes { IfOk result (λ s. Self.owes s ≡ 0) };

    /// The state for which these words stand when all locks are 0, and `None` if they stand for
    /// none. The words are the plain words of the header, each below 2^63. `start` is the case of
    /// zeroed words: the law `zeroed_words_are_the_start`. Time and memory are in proportion to the
    /// words, except that a tree takes time in proportion to the square of its nodes in use.
    fn start_from(alloc: Global, header: Header, words: &[u64]) -> Result<Option<Self>, AllocError>
        requires serves { Self.serves header.subject }
        requires count { length words.now ≡ plain_words header }
        requires small { All (λ word. word < 2 ^ 63) words.now }
        ensures state { IfOk result (λ found. option_map Self.state found
            ≡ option_map showing
            (state_of_words header (words.now ++ replicate (lock_words header) 0))) }
        ensures charter { IfOk result
            (λ found. IfSome found (λ s. Self.charter s ≡ built_in header)) }
        ensures made { IfOk result (λ found. IfSome found (λ s. Self.made s ≡ 0)) }
        ensures owes { IfOk result (λ found. IfSome found (λ s. Self.owes s ≡ 0)) };

    // Its rules are those of its header, whose subject is built in.
    ghost has_built_in_rules: { (s : Self)
        → Self.charter s ≡ built_in (rules_by (Self.charter s)).header };

    ghost has_built_in_subject: { (s : Self)
        → is_built_in (rules_by (Self.charter s)).header.subject ≡ true };

    // The keys that a state shows rise, and no amount is 0.
    ghost is_formed: { (s : Self) → IsAmounts (Self.state s).shown };

    // A key that is shown is below 2^63, and its amount is below 2^64.
    ghost is_small: { (s : Self)
        → AllAmounts (λ key amount. (key < 2 ^ 63) × (amount < 2 ^ 64)) (Self.state s).shown };
}
