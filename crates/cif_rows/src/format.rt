//! The formats in which rows are written.

/// How rows are written.
#[derive(Clone, Copy, PartialEq, Eq)]
pub enum Format {
    /// As lines of text, whose fields have all their columns and a space between them.
    Text,
    /// As lines with a tab between the fields, after a line of their names.
    Tsv,
    /// As objects of JSON, one a line.
    Json,
}

/// A format as a type, so that no field asks for its format while the program runs.
pub trait RowFormat {
    ghost use Rattle.cif_rows.specs.declared.format.Format.{Format};

    ghost FORMAT: { Format };

    /// The format.
    const FORMAT: Format;
}

/// `Format::Text`.
#[derive(Clone, Copy)]
pub struct Padded;

/// `Format::Tsv`.
#[derive(Clone, Copy)]
pub struct Tsv;

/// `Format::Json`.
#[derive(Clone, Copy)]
pub struct Json;

impl RowFormat for Padded {
    ghost use Rattle.cif_rows.specs.declared.format.Format.TheVariants as format;

    ghost FORMAT = { format.Text };

    const FORMAT: Format = Format::Text;
}

impl RowFormat for Tsv {
    ghost use Rattle.cif_rows.specs.declared.format.Format.TheVariants as format;

    ghost FORMAT = { format.Tsv };

    const FORMAT: Format = Format::Tsv;
}

impl RowFormat for Json {
    ghost use Rattle.cif_rows.specs.declared.format.Format.TheVariants as format;

    ghost FORMAT = { format.Json };

    const FORMAT: Format = Format::Json;
}
