//! Answers calls of the operation table and of folds. Standard input has one call a line, and each is answered with one
//! line.
#![tactic(auto)]

mod answers;
mod parts;

use dialects_int::tables::registry;
use ir_types::context::Context;
use ir_types::refusal::Refusal;
use op_registry::registry::Registry;
use std::io;
use std::io::{ErrorKind, Read};

/// Prints the answer to a line.
fn print_answer(
    rt: &HostRuntime,
    context: &mut Context,
    table: &Registry,
    line: &str,
) -> Result<(), Refusal> {
    let answer = answers::answer(rt.alloc(), context, table, line)?;
    let _ = println!(rt; "{answer}");
    Ok(())
}

/// Prints the answer to each line of `text`.
fn print_answers(
    rt: &HostRuntime,
    context: &mut Context,
    table: &Registry,
    text: &str,
) -> Result<(), Refusal> {
    for line in text.lines() {
        print_answer(rt, context, table, line)?;
    }
    Ok(())
}

/// Prints the answers of a context.
fn answer_in(rt: &HostRuntime, context: &mut Context, text: &str) -> Result<(), Refusal> {
    let table = registry(context)?;
    print_answers(rt, context, &table, text)
}

/// Prints the answers of a new context.
fn answer_all(rt: &HostRuntime, text: &str) -> Result<(), Refusal> {
    let mut context = Context::new(rt.alloc())?;
    answer_in(rt, &mut context, text)
}

fn main(rt: HostRuntime) -> io::Result<()> {
    let mut text = String::new(rt.alloc());
    rt.stdin().read_to_string(&mut text)?;
    match answer_all(&rt, text.as_str()) {
        Ok(()) => Ok(()),
        Err(_) => Err(io::Error::from(ErrorKind::OutOfMemory)),
    }
}
