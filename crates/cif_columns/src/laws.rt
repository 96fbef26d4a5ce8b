//! Laws: how values are ordered, and how many lines may be asked for.
ghost use Rattle.std.specs.Prelude.{◌≡◌, ◌↔◌, ◌≤◌, ℕ, IsTrue, List, length};
ghost use Rattle.std.specs.{Cmp.Lexicographic.slice_cmp, Ordering.nat_cmp};
ghost use Rattle.cif_columns.specs.Text.{IsText, left_justified as justified};
ghost use Rattle.cif_columns.specs.declared.line_reader.TheConstants.{MAX_LINES};

use crate::day::Day;
use crate::text::{Text, Uid};

/// The most lines that may be asked for.
pub fn most_lines()
    ensures { MAX_LINES ≡ 100000000 }
{}

/// Days are equal and ordered as their numbers are.
pub fn order_of_days()
    ensures equality { (a b : ℕ) → IsTrue (⟦<Day as PartialEq>⟧.eq a b) ↔ (a ≡ b) }
    ensures order { (a b : ℕ) → ⟦<Day as Ord>⟧.cmp a b ≡ nat_cmp a b }
{}

/// Identities are equal and ordered as their bytes are.
pub fn order_of_uids()
    ensures equality { (a b : List ℕ) → IsTrue (⟦<Uid as PartialEq>⟧.eq a b) ↔ (a ≡ b) }
    ensures order { (a b : List ℕ) → ⟦<Uid as Ord>⟧.cmp a b ≡ slice_cmp nat_cmp a b }
{}

/// Texts compare as their columns do, whatever the width.
pub fn order_of_columns()
    ensures { (width : ℕ) (a b : List ℕ) → IsText a → IsText b
        → length a ≤ width → length b ≤ width
        → slice_cmp nat_cmp (justified width a) (justified width b) ≡ slice_cmp nat_cmp a b }
{}

/// Texts are equal where their bytes are, and ordered as the columns that
/// `write` gives.
pub fn order_of_texts<const N: usize>()
    ensures equality { (a b : List ℕ) → IsTrue (⟦<Text<N> as PartialEq>⟧.eq a b) ↔ (a ≡ b) }
    ensures order { (a b : List ℕ) → IsText a → IsText b → length a ≤ N → length b ≤ N
        → ⟦<Text<N> as Ord>⟧.cmp a b ≡ slice_cmp nat_cmp (justified N a) (justified N b) }
{}
