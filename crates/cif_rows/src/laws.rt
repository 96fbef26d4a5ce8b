//! Law: a text in TSV or in JSON says its rows, and nothing else.
ghost use Rattle.std.specs.Prelude.{◌≡◌, ◌≢◌, ◌<◌, List, ℕ, length, map};
ghost use Rattle.std.specs.List.{flat_map};
ghost use Rattle.cif_rows.specs.Row.{Field, row_text};
ghost use Rattle.cif_rows.specs.ToldRows.{AreRowsOf, cells_in, kinds_in};
ghost use Rattle.cif_rows.specs.declared.format.{Format.Format, Format.TheVariants.Text};

/// Rows with given names are told by their text, and make it.
pub fn texts_tell_their_rows()
    // Equal texts are of rows with equal cells, and of as many.
    ensures cells { (format : Format) → format ≢ Text → (names : List (List ℕ)) → 0 < length names
        → (one other : List (List Field)) → AreRowsOf names one → AreRowsOf names other
        → flat_map (row_text format) one ≡ flat_map (row_text format) other
        → map cells_in one ≡ map cells_in other }
    // Rows with equal cells, of which the same are numbers, have equal texts.
    ensures texts { (format : Format) → format ≢ Text → (names : List (List ℕ)) → (one other : List (List Field))
        → AreRowsOf names one → AreRowsOf names other
        → map cells_in one ≡ map cells_in other → map kinds_in one ≡ map kinds_in other
        → flat_map (row_text format) one ≡ flat_map (row_text format) other }
{}
