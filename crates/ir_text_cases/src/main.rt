//! Reads texts from standard input, one a line, and prints one answer a line. `tests/generate/ir_text_cases.py` writes
//! the texts and the expected answers.
#![tactic(auto)]

mod answers;
mod lexemes;
mod near;
mod shown;
mod tokens;

use ir_types::refusal::Refusal;
use std::io;
use std::io::{ErrorKind, Read};

/// Prints the answer to a line.
fn print_answer(rt: &HostRuntime, line: &str) -> Result<(), Refusal> {
    let answer = answers::answer(rt.alloc(), line)?;
    let _ = println!(rt; "{answer}");
    Ok(())
}

/// Prints the answer to each line.
fn print_answers(rt: &HostRuntime, text: &str) -> Result<(), Refusal> {
    for line in text.lines() {
        print_answer(rt, line)?;
    }
    Ok(())
}

fn answer_all(rt: &HostRuntime, text: &str) -> io::Result<()> {
    match print_answers(rt, text) {
        Ok(()) => Ok(()),
        Err(_) => Err(io::Error::from(ErrorKind::OutOfMemory)),
    }
}

fn main(rt: HostRuntime) -> io::Result<()> {
    let mut text = String::new(rt.alloc());
    rt.stdin().read_to_string(&mut text)?;
    answer_all(&rt, text.as_str())
}
