//! The events that a listener is notified of by a script.
ghost use Rattle.std.specs.Prelude.{◌≡◌, []};

use crate::events::write_event;
use crate::texts::write_bytes;
use crate::witness::Witness;
use ir_event::event::Event;
use ir_event::types::context::Context;
use mlir_work_session::Bench;
use mlir_work_session::analysis_source::AnalysisSource;
use mlir_work_session::options::SessionOptions;
use mlir_work_session::registry::PatternRegistry;
use mlir_work_session::script::run_script;
use std::alloc::{AllocError, Global};
use std::fmt::Write;

/// Writes events, each after a space.
fn write_events(out: &mut String, ctx: &Context, events: &[Event]) -> Result<(), AllocError> {
    for event in events {
        out.push(' ')?;
        write_event(out, ctx, event)?;
    }
    Ok(())
}

/// Writes an event, if there is one, after a space.
fn write_found(out: &mut String, ctx: &Context, event: &Option<Event>) -> Result<(), AllocError> {
    let Some(event) = event else {
        return Ok(());
    };
    out.push(' ')?;
    write_event(out, ctx, event)
}

/// Writes the events of the journal, the oldest first, each after a space.
fn write_journal(out: &mut String, bench: &Bench<Witness>) -> Result<(), AllocError> {
    let ctx = &bench.world().ctx;
    for place in 0..bench.journal_len() {
        write_found(out, ctx, &bench.journal_at(place))?;
    }
    Ok(())
}

/// Writes what the listeners have heard, and the journal.
fn write_trace(out: &mut String, bench: &Bench<Witness>) -> Result<(), AllocError> {
    let ctx = &bench.world().ctx;
    for witness in bench.listeners() {
        out.push_str(" heard")?;
        write_events(out, ctx, witness.notified())?;
    }
    write!(out, " journal {}", bench.journal_len())?;
    write_journal(out, bench)
}

/// Writes what a script wrote, its status, the events and the journal.
fn write_run(
    out: &mut String,
    bench: &Bench<Witness>,
    status: u8,
    written: &[u8],
) -> Result<(), AllocError> {
    write_bytes(out, written)?;
    write!(out, "status {status}")?;
    write_trace(out, bench)
}

/// Attaches a listener to a bench without any, and runs the script of an input of so many bytes over it. Returns the
/// status.
fn run_notified<L: AnalysisSource>(
    alloc: Global,
    bytes: usize,
    bench: &mut Bench<L>,
    listener: L,
    script: &[u8],
    written: &mut Vec<u8>,
) -> Result<u8, AllocError>
    requires { bench.old.listeners ≡ [] }
{
    if bench.attach(listener).is_err() {
        return Err(AllocError);
    }
    let session_options = SessionOptions {
        brief: true,
        bytes,
        limit: 1000,
        ends: false,
        opaque: bench.world().ctx.is_opaque(),
        explain: false,
        strict: false,
    };
    let mut registry = PatternRegistry::new(alloc);
    Ok(run_script(
        alloc,
        &session_options,
        bench,
        &mut registry,
        script,
        written,
    )
    .unwrap_or(4))
}

/// Runs the script of an input of so many bytes over a bench with a witness. Writes the output, the status, the events
/// that the witness was notified of, and the journal that is left.
pub fn write_traced(
    alloc: Global,
    out: &mut String,
    bytes: usize,
    bench: &mut Bench<Witness>,
    script: &[u8],
) -> Result<(), AllocError>
    requires { bench.old.listeners ≡ [] }
{
    let mut written: Vec<u8> = Vec::new(alloc);
    let witness = Witness::new(alloc, 102);
    let status = run_notified(alloc, bytes, bench, witness, script, &mut written)?;
    write_run(out, bench, status, &written)
}
