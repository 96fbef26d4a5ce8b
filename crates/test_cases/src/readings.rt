//! Reads extracts, and says what each came to.
//!
//! The lines of a case are those of an extract, whole or damaged, and CALL is one of these, where
//! `max=N` is how many lines may come (100 if left out):
//!
//! - `read`: reads the input, and compares what it is read as with what a plain look at its whole
//!   contents says. The answer is what the reading came to.
//! - `cuts`: reads each prefix of the input, from no byte to all.
//! - `failing-cuts`: reads each prefix from a reader that fails after it.
//! - `limits`: reads the input with each `max` from 0 to N.
//! - `replace byte=NN`: reads the input with the byte NN, in hexadecimal digits, in place of each of
//!   its bytes in turn.
//! - `kinds others=NAME`: puts each line of the case NAME behind each prefix of whole lines, as it
//!   stands and then with other columns 3 to 80, and tells of those that are not out of order.
//! - `damage count=N others=NAME`: compares so N inputs that are made from this one by damages that
//!   look random, the same in each run: lines are swapped, dropped, repeated, or stand beside or in
//!   place of lines of the case NAME, and then bytes are. The answer has the numbers of the refusals
//!   that were met, 0 for none. An input that is read in another way is printed.
//! - `keep`: keeps the input for other cases.
//!
//! Each reading is done of a slice and again with one byte a read (`failing-cuts`: with one byte a
//! read and again with a hundred; `damage`: of a slice alone). Where these differ, the answer says so.

pub(crate) mod answer;
mod comparisons;
mod damage;
mod kinds;
mod numbers;
mod plain_reading;
mod read;
mod sweeps;

use crate::case::Case;
use crate::output::Output;
use comparisons::{push_damage, push_reading};
use kinds::push_kinds;
use std::alloc::Global;
use sweeps::{push_cuts, push_failing_cuts, push_limits, push_replaced};

/// Appends what the case's call answers, if it is one of these.
pub(crate) fn push_answer(alloc: Global, out: &mut Output, case: &Case, cases: &[Case]) -> bool {
    let bytes = case.input.as_slice();
    let max_lines = case.number("max", 100);
    match case.call {
        "read" => push_reading(alloc, out, bytes, max_lines),
        "cuts" => push_cuts(alloc, out, bytes, max_lines),
        "failing-cuts" => push_failing_cuts(alloc, out, bytes, max_lines),
        "limits" => push_limits(alloc, out, bytes, max_lines),
        "replace" => push_replaced(alloc, out, bytes, byte_of(case), max_lines),
        "kinds" => push_kinds(alloc, out, bytes, case.named("others", cases)),
        "damage" => {
            let others = case.named("others", cases);
            push_damage(alloc, out, bytes, others, case.number("count", 1));
        }
        "keep" => writeln!(out, "{} bytes", bytes.len()),
        _ => return false,
    }
    true
}

/// The byte of a case of `replace`.
fn byte_of(case: &Case) -> u8 {
    let digits = case.value("byte").unwrap_or("");
    u8::from_str_radix(digits, 16).unwrap_or(b'?')
}
