//! Laws for proofs: what a line says of its record.
ghost use Rattle.std.specs.Prelude.{◌≡◌, ℕ, List};
ghost use Rattle.cif_columns.specs.{Field.AllFit, Field.plain_line, Line.IsLine};
ghost use Rattle.cif_records.specs.{Record.SpellsRecord, Record.record_table, declared.record.Record.Record};

/// A line spells one record at most.
pub fn lines_spell_one_record()
    ensures { (line : List ℕ) (r q : Record) → SpellsRecord line r → SpellsRecord line q → r ≡ q }
{}

/// The plain line of a record that a line spells is a line, and spells the record again: what stands
/// in the columns of a line fits them, and where the values of a record fit their columns, its plain
/// line is a line and spells it.
pub fn plain_lines_spell_again()
    ensures fits { (line : List ℕ) (r : Record) → IsLine line → SpellsRecord line r
        → AllFit (record_table r) }
    ensures line { (r : Record) → AllFit (record_table r) → IsLine (plain_line (record_table r)) }
    ensures spells { (r : Record) → AllFit (record_table r)
        → SpellsRecord (plain_line (record_table r)) r }
{}
