//! What a table keeps of a key.

ghost use Rattle.std.specs.Prelude.{◌≡◌, Bool, true, refl, ◌==◌};
ghost use Rattle.vyrd_table.specs.Laws.Values.{only_zero};

/// What a table keeps of a key. One value is nothing: a key with that value isn't there, and takes
/// no memory.
pub trait Value: Copy + Drop {
    /// the value of a key that isn't there
    ghost nothing: { Self };

    /// whether a value is that one
    ghost is_nothing: { Self → Bool };

    /// The value of a key that isn't there.
    fn nothing() -> Self
        ensures { result ≡ nothing };

    /// Whether this is the value of a key that isn't there.
    fn is_nothing(self) -> bool
        ensures { result ≡ is_nothing self };

    /// no other value passes the test
    ghost only_nothing: { (value : Self) → is_nothing value ≡ true → value ≡ nothing };

    /// and this one passes it
    ghost nothing_passes: { is_nothing nothing ≡ true };

    /// a clone of a value is that value
    ghost clones_equal: { (value clone : Self) → Self.is_clone value clone → clone ≡ value };
}

/// An amount; 0 is nothing.
impl Value for u64 {
    ghost nothing = { 0 };

    ghost is_nothing = { λ amount. amount == 0 };

    #[inline(always)]
    fn nothing() -> u64 {
        0
    }

    #[inline(always)]
    fn is_nothing(self) -> bool {
        self == 0
    }

    ghost only_nothing = { only_zero };

    ghost nothing_passes = { refl };

    ghost clones_equal = { λ value clone same. same };
}
