//! Makes the calls of the libraries that the cases on its standard input ask for, and prints what
//! each answers; or, if it has arguments, the one call that they ask for. It is a test program, and no
//! part of the product.
//!
//! `case` says how a case is written. `values`, `readings`, `calendars` and `devices` say which
//! calls there are, and `calls` which the arguments can ask for.
#![tactic(auto)]

mod calendars;
mod calls;
mod case;
mod devices;
mod output;
mod readings;
mod values;

use calls::answer_words;
use case::{Case, cases_of};
use cif_columns::Sink;
use output::Output;
use std::alloc::Global;
use std::{env, io};

fn main(rt: HostRuntime) -> io::Result<()> {
    let words = env::args(&rt)?.collect::<Vec<String>>(rt.alloc())?;
    let text = io::read_to_string(rt.alloc(), rt.reader())?;
    if words.len() < 2 {
        return print_answers(rt, text.as_str());
    }
    let mut sink = Sink::new(rt.stdout());
    match answer_words(rt.alloc(), words.as_slice(), text.as_str(), &mut sink) {
        Ok(()) => Ok(()),
        Err(_) => Err(io::ErrorKind::Other.into()),
    }
}

fn print_answers(rt: HostRuntime, text: &str) -> io::Result<()> {
    let cases = cases_of(rt.alloc(), text)?;
    for case in &cases {
        print_answer(rt, case, cases.as_slice())?;
    }
    Ok(())
}

fn print_answer(rt: HostRuntime, case: &Case, cases: &[Case]) -> io::Result<()> {
    let mut out = Output::new(rt.alloc());
    push_answer(rt.alloc(), &mut out, case, cases);
    let text = out.finish()?;
    print!(&rt; "== {}\n{}", case.name, text.as_str())
}

/// Appends what the case's call answers. A call that no other module has is one of `values`.
fn push_answer(alloc: Global, out: &mut Output, case: &Case, cases: &[Case]) {
    if !readings::push_answer(alloc, out, case, cases)
        && !calendars::push_answer(alloc, out, case)
        && !devices::push_answer(alloc, out, case)
    {
        values::push_answers(out, case);
    }
}
