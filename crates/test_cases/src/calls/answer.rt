//! What a call answers, again where memory ran out to it.
use crate::calls::call::Call;
use cif_canon::report;
use cif_columns::{Sink, WriteFault};
use cif_extract::Fault;
use std::alloc::Global;
use std::io::Stdout;

/// Makes the call and writes what it answers; where that is Memory, once more.
pub(crate) fn answer(
    alloc: Global,
    call: &Call,
    sink: &mut Sink<Stdout>,
) -> Result<(), WriteFault> {
    if is_refused_memory(alloc, call, sink)? {
        is_refused_memory(alloc, call, sink)?;
    }
    Ok(())
}

/// Makes the call and writes what it answers, and whether what is handed in is as before; whether the
/// answer is Memory.
fn is_refused_memory(
    alloc: Global,
    call: &Call,
    sink: &mut Sink<Stdout>,
) -> Result<bool, WriteFault> {
    let before = call.checksum()?;
    let outcome = call.make(alloc, sink);
    if let Err(fault) = &outcome {
        report(fault, sink)?;
    }
    if call.checksum()? == before {
        sink.write_all(b"as before\n")?;
    } else {
        sink.write_all(b"changed\n")?;
    }
    Ok(outcome == Err(Fault::Memory))
}
