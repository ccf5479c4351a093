//! Entries and prices, worked out by the definitions. Each function does nothing: its contract has
//! the cases.

ghost use Rattle.std.specs.Prelude.{◌≡◌, ℕ, ◌*◌, ◌==◌, [], ◌∷◌};
ghost use Rattle.vyrd_table.specs.Entries.{value_of, with_value};
ghost use Rattle.vyrd_table.specs.Places.{place_count, entries_in, names_in};
ghost use Rattle.vyrd_table.specs.Prices.{digits, look_up_price, set_price, moving_price};
ghost use Rattle.vyrd_table.specs.Prices.{saved_by, first_room, growing_share};

/// Amounts as the values, of which 0 is nothing.
#[tactic(auto, unfolding(crate::specs::Places::entries_in))]
pub fn entries()
    ensures comes { with_value (λ amount. amount == 0) ((3, 1) ∷ []) 2 5 ≡ (2, 5) ∷ (3, 1) ∷ [] }
    ensures changes { with_value (λ amount. amount == 0) ((3, 1) ∷ []) 3 5 ≡ (3, 5) ∷ [] }
    ensures goes { with_value (λ amount. amount == 0) ((2, 5) ∷ (3, 1) ∷ []) 2 0 ≡ (3, 1) ∷ [] }
    ensures there { value_of {V = ℕ} 0 ((2, 5) ∷ (3, 1) ∷ []) 3 ≡ 1 }
    ensures missing { value_of {V = ℕ} 0 ((2, 5) ∷ (3, 1) ∷ []) 4 ≡ 0 }
    ensures in_places { entries_in (λ amount. amount == 0)
        ((0, 0) ∷ (7, 4) ∷ (9, 0) ∷ (3, 2) ∷ []) ((5, 1) ∷ [])
        ≡ (3, 2) ∷ (5, 1) ∷ (7, 4) ∷ [] }
    ensures named { names_in {V = ℕ} ((0, 0) ∷ (7, 4) ∷ (9, 0) ∷ (3, 2) ∷ []) ((5, 1) ∷ []) ≡ 5 }
{}

/// What calls cost among few keys.
#[tactic(auto, unfolding(crate::specs::Prices::digits))]
pub fn prices()
    ensures none { digits 0 ≡ 0 }
    ensures one { digits 1 ≡ 1 }
    ensures seven { digits 7 ≡ 3 }
    ensures eight { digits 8 ≡ 4 }
    ensures look_up { look_up_price 8 ≡ 9 }
    ensures set { set_price 8 ≡ 142 }
{}

/// A table with 2^6 places that grows to 2^8 with 32 keys.
pub fn growing()
    ensures places { place_count 6 ≡ 67 }
    ensures at_first { first_room 6 8 ≡ 16 }
    ensures grown { first_room 8 8 ≡ 0 }
    ensures nothing_saved { saved_by 6 16 ≡ 0 }
    ensures one_to_come { saved_by 6 1 ≡ 1860 }
    ensures saved { growing_share * 16 ≡ 1984 }
    ensures used { moving_price 32 67 259 ≡ 1926 }
{}
