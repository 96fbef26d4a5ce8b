//! Writing texts one after another: the sink keeps its failure, so that only the end asks for it.
ghost use Rattle.std.specs.Prelude.{◌≡◌, IfErr, OnOk, false, true};
ghost use Rattle.std.specs.List.{flat_map};
ghost use Rattle.cif_columns.specs.Sink.{sink_failed};
ghost use Rattle.cif_extract.specs.declared.fault.Fault.TheVariants.{Write};
ghost use Rattle.cif_canon.specs.Appended.{IsAppended};

use cif_columns::{Sink, WriteDevice};
use cif_extract::Fault;

/// Appends the text, unless the sink has failed.
pub fn append<W: WriteDevice>(text: &str, sink: &mut Sink<W>)
    ensures { IsAppended W.contents W.write_errors text.now sink.old sink.new }
{
    let _ = sink.write_all(text.as_bytes());
}

/// What is written of items: a text for each.
pub trait Texts<T> {
    ghost use Rattle.std.specs.Prelude.{ℕ, List};

    // The text of an item.
    ghost text: { Self → T → List ℕ };

    /// Appends the text of the item.
    fn write<W: WriteDevice>(&self, item: &T, sink: &mut Sink<W>)
        ensures { IsAppended W.contents W.write_errors (text self.now item.now) sink.old sink.new };
}

/// Appends the texts of the items, one after another.
pub fn write_each<T, L: Texts<T>, W: WriteDevice>(texts: &L, items: &[T], sink: &mut Sink<W>)
    ensures { IsAppended W.contents W.write_errors (flat_map (L.text texts.now) items.now) sink.old sink.new }
{
    for item in items {
        texts.write(item, sink);
    }
}

/// The answer of a call that has written to the sink: `Write` where the sink has failed.
pub fn answer<W: WriteDevice>(sink: &Sink<W>) -> Result<(), Fault>
    ensures ok { OnOk result (sink_failed sink.now ≡ false) }
    ensures failed { IfErr result (λ _. sink_failed sink.now ≡ true) }
    ensures fault { IfErr result (λ fault. fault ≡ Write) }
{
    if sink.failed() {
        Err(Fault::Write)
    } else {
        Ok(())
    }
}
