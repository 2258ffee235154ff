//! A test program of what no output of `mlir_work` shows: the events that a listener is notified of, and rules where
//! ids run out. Standard input has cases, and standard output has their answers, each followed by a line `====`.
//! `tests/generate/mlir_work_cases.py` writes both.
#![tactic(auto)]

mod answers;
mod events;
mod rules;
mod texts;
mod traces;
mod witness;
mod worlds;

use std::alloc::AllocError;
use std::io;
use std::io::{ErrorKind, Read};

/// Prints the answer to a case.
fn print_answer(rt: &HostRuntime, case: &str) -> Result<(), AllocError> {
    let mut answer = String::new(rt.alloc());
    answers::write_case(rt.alloc(), &mut answer, case)?;
    let _ = println!(rt; "{answer}\n====");
    Ok(())
}

/// Prints the answer to each case.
fn print_answers(rt: &HostRuntime, text: &str) -> Result<(), AllocError> {
    for case in text.split_terminator("====\n") {
        print_answer(rt, case)?;
    }
    Ok(())
}

/// Prints all answers.
fn answer_all(rt: &HostRuntime, text: &str) -> io::Result<()> {
    match print_answers(rt, text) {
        Ok(()) => Ok(()),
        Err(_) => Err(io::Error::from(ErrorKind::OutOfMemory)),
    }
}

fn main(rt: HostRuntime) -> io::Result<()> {
    let mut text = String::new(rt.alloc());
    rt.stdin().read_to_string(&mut text)?;
    answer_all(&rt, text.as_str())
}
