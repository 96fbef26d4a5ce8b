//! Laws for proofs: which extract bytes spell, and what the text of an extract spells.
ghost use Rattle.std.specs.Prelude.{◌≡◌, ◌≤◌, ℕ, All, List, [], ◌∷◌, length, IfErr, IfOk, Result};
ghost use Rattle.cif_columns.specs.{Contents.contents_of, Line.IsLine, Source.Unread};
ghost use Rattle.cif_extract.specs.{ExtractParts.ExtractParts, FirstRefusal.NoneRefused, Grammar.BeginExtract, OrderOfRecords.AreInOrder};
ghost use Rattle.cif_extract.specs.{ReadFault.IsReadAs, ReadFault.reading_extract, Texts.FitsColumns, Texts.extract_lines};
ghost use Rattle.cif_extract.specs.SpellsExtract.{BytesSpell, BytesSpellWithin, SpellAll, SpellExtract};
ghost use Rattle.cif_extract.specs.{Texts.extract_text, declared.extract.Extract.Extract, declared.fault.Fault.Fault};
ghost use Rattle.cif_records.specs.declared.record.Record.{Record};

/// Lines, and bytes, spell one extract at most.
pub fn bytes_spell_one_extract()
    ensures lines { (lines : List (List ℕ)) (x y : ExtractParts)
        → SpellExtract lines x → SpellExtract lines y → x ≡ y }
    ensures bytes { (bytes : List ℕ) (x y : ExtractParts)
        → BytesSpell bytes x → BytesSpell bytes y → x ≡ y }
    // The limit only counts the lines: what is spelled within one is spelled within a greater one.
    ensures greater { (max greater : ℕ) (bytes : List ℕ) (x : ExtractParts)
        → BytesSpellWithin max bytes x → max ≤ greater → BytesSpellWithin greater bytes x }
{}

/// What bytes spell is what is read of them, where it is a result of
/// `read_extract`, unless the source fails or memory runs out.
pub fn what_bytes_spell_is_read()
    ensures { (max : ℕ) (bytes : List ℕ) (after : Unread) (x : ExtractParts)
        (result : Result Extract Fault) → BytesSpellWithin max bytes x
        → IfOk result ((reading_extract max).IsAnswer bytes)
        → IfErr result ((reading_extract max).IsFault bytes after) → IsReadAs x result }
{}

/// The text of an extract spells it, in so many lines as the extract has plain lines, where what it
/// says fits the columns of lines: as what bytes spell does.
pub fn texts_spell_their_extracts()
    ensures fits { (bytes : List ℕ) (x : ExtractParts) → BytesSpell bytes x → FitsColumns x }
    ensures spells { (x : ExtractParts) → FitsColumns x → BytesSpell (extract_text x) x }
    ensures lines { (x : ExtractParts) → FitsColumns x
        → contents_of (extract_text x) ≡ extract_lines x }
{}

/// The order of records is that of the grammar, no less and no more.
pub fn order_of_lines_is_the_grammar()
    // The lines of an extract are in order, and none of them is refused where they are not too many.
    ensures in_order { (lines : List (List ℕ)) (x : ExtractParts)
        → SpellExtract lines x → AreInOrder [] lines }
    ensures fine { (max : ℕ) (lines : List (List ℕ)) (x : ExtractParts) → length lines ≤ max
        → All IsLine lines → SpellExtract lines x → NoneRefused max lines }
    // Lines that spell records, and are in order, begin an extract: so a line that is out of order is
    // one after which no extract goes on, and no other line is.
    ensures begins { (line : List ℕ) (lines : List (List ℕ)) (records : List Record)
        → All IsLine (line ∷ lines) → SpellAll (line ∷ lines) records
        → AreInOrder [] (line ∷ lines) → BeginExtract records }
{}
