//! The laws of the format. Each function's contract is the law; none does anything when it runs.
ghost use Rattle.std.specs.Prelude.{◌≡◌, ◌↔◌, ℕ, List, ◌∷◌, ◌++◌, Ok};
ghost use Rattle.htl_segment.specs.Numbers.{IsBytes};
ghost use Rattle.htl_state.specs.Format.{spelling};
ghost use Rattle.htl_state.specs.Reading.{state_in};
ghost use Rattle.htl_state.specs.Rows.{State};
ghost use Rattle.htl_state.specs.WellFormed.{WellFormed, Spells};

/// A written state is read again, and written again it has the same bytes: no bytes are a state but
/// those that `encode` writes of it.
pub fn written_is_read_again()
    ensures read { (s : State) → WellFormed s → state_in (spelling s) ≡ Ok s }
    ensures written { (bytes : List ℕ) (s : State) → IsBytes bytes → state_in bytes ≡ Ok s
        → bytes ≡ spelling s }
{}

/// Bytes are read as a state exactly where they are the bytes of rows that are well-formed.
pub fn states_are_read()
    ensures { (bytes : List ℕ) (s : State) → IsBytes bytes
        → (state_in bytes ≡ Ok s) ↔ Spells bytes s }
{}

/// A state has one spelling, and a spelling is of one state.
pub fn one_spelling()
    ensures one { (a b : List ℕ) (s : State) → Spells a s → Spells b s → a ≡ b }
    ensures of_one { (a : List ℕ) (s t : State) → Spells a s → Spells a t → s ≡ t }
{}

/// Bytes of a state in which one byte is changed are no state.
pub fn a_changed_byte_is_refused()
    ensures { (front rest : List ℕ) (x y : ℕ) (s t : State) → IsBytes (front ++ x ∷ rest)
        → IsBytes (front ++ y ∷ rest) → Spells (front ++ x ∷ rest) s
        → Spells (front ++ y ∷ rest) t → x ≡ y }
{}
