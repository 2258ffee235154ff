//! A rule at an operation of a module.
use crate::texts::write_bytes;
use crate::witness::Witness;
use crate::worlds::text_of;
use ir_event::types::ids::OpId;
use mlir_work_session::Bench;
use mlir_work_session::greedy::patterns::apply::apply;
use mlir_work_session::greedy::patterns::rule::Rule;
use std::alloc::{AllocError, Global};
use std::fmt::Write;

/// Applies a rule. Writes whether it applied, or why it didn't.
fn write_applied(
    alloc: Global,
    out: &mut String,
    bench: &mut Bench<Witness>,
    rule: u32,
    op: OpId,
) -> Result<(), AllocError> {
    let Some(rule) = Rule::by_number(rule) else {
        return out.push_str("no rule\n");
    };
    match apply(alloc, bench, rule, op) {
        Ok(true) => out.push_str("applied\n"),
        Ok(false) => out.push_str("none\n"),
        Err(refusal) => write!(out, "{refusal}\n"),
    }
}

/// Writes the module of a rewriter.
fn write_module(alloc: Global, out: &mut String, bench: &Bench<Witness>) -> Result<(), AllocError> {
    match text_of(alloc, bench.world()) {
        Ok(text) => write_bytes(out, &text),
        Err(_) => Err(AllocError),
    }
}

/// Writes whether a rule applies at an operation of a module, and the module after it.
pub fn write_answer(
    alloc: Global,
    out: &mut String,
    bench: &mut Bench<Witness>,
    rule: u32,
    op: OpId,
) -> Result<(), AllocError> {
    write_applied(alloc, out, bench, rule, op)?;
    write_module(alloc, out, bench)
}
