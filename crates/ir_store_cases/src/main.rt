//! Answers calls of a module under edits. Standard input has one call a line, and each is answered with one line. The
//! answer is followed by the module after the call, or a sum over all that can be read of it.
#![tactic(auto)]

mod calls;
mod edits;
mod may;
mod moves;
mod reads;
mod state;
mod undone;

use crate::state::{Loaded, Show, fill};
use ir_types::context::Context;
use ir_types::refusal::Refusal;
use std::io;
use std::io::{ErrorKind, Read};

/// Prints the answer to a line.
fn print_answer(
    rt: &HostRuntime,
    ctx: &Context,
    loaded: &mut Loaded,
    line: &str,
) -> Result<(), Refusal> {
    let mut answer = String::new(rt.alloc());
    calls::write_line(rt.alloc(), &mut answer, ctx, loaded, line)?;
    let _ = println!(rt; "{answer}");
    Ok(())
}

/// Prints the answer to each line.
fn print_answers(
    rt: &HostRuntime,
    ctx: &Context,
    loaded: &mut Loaded,
    text: &str,
) -> Result<(), Refusal> {
    for line in text.lines() {
        print_answer(rt, ctx, loaded, line)?;
    }
    Ok(())
}

/// Prints the answers of a context, without a module at first.
fn answer_in(rt: &HostRuntime, ctx: &Context, text: &str) -> Result<(), Refusal> {
    let mut loaded = Loaded {
        store: None,
        show: Show::Tree,
    };
    print_answers(rt, ctx, &mut loaded, text)
}

/// Fills a context, and prints its answers.
fn answer_filled(rt: &HostRuntime, ctx: &mut Context, text: &str) -> Result<(), Refusal> {
    fill(rt.alloc(), ctx)?;
    answer_in(rt, ctx, text)
}

/// Prints the answers of a new context.
fn answer_all(rt: &HostRuntime, text: &str) -> Result<(), Refusal> {
    let mut ctx = Context::new(rt.alloc())?;
    answer_filled(rt, &mut ctx, text)
}

fn main(rt: HostRuntime) -> io::Result<()> {
    let mut text = String::new(rt.alloc());
    rt.stdin().read_to_string(&mut text)?;
    match answer_all(&rt, text.as_str()) {
        Ok(()) => Ok(()),
        Err(_) => Err(io::Error::from(ErrorKind::OutOfMemory)),
    }
}
