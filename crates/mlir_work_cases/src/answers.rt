//! The answer to a case.
ghost use Rattle.std.specs.Prelude.{◌≡◌, []};

use crate::texts::{first_word, parse_number};
use crate::witness::Witness;
use crate::worlds::rewriter_from;
use crate::{rules, traces};
use ir_event::types::ids::OpId;
use mlir_work_session::Bench;
use mlir_work_session::input::split;
use std::alloc::{AllocError, Global};
use std::fmt::Write;

/// Writes the answer to a call over a module: `trace`, or a rule and an operation. The input has this many bytes.
fn write_answer(
    alloc: Global,
    out: &mut String,
    bench: &mut Bench<Witness>,
    call: (&str, &str),
    bytes: usize,
    script: &[u8],
) -> Result<(), AllocError>
    requires { bench.old.listeners ≡ [] }
{
    let (what, op) = call;
    match what {
        "trace" => traces::write_traced(alloc, out, bytes, bench, script),
        _ => {
            let (rule, op) = (parse_number(what), OpId::new(parse_number(op)));
            rules::write_answer(alloc, out, bench, rule, op)
        }
    }
}

/// Writes the answer to a case: a line with `trace`, or with a rule, an operation and the least next free id, and the
/// lines of an input.
pub fn write_case(alloc: Global, out: &mut String, case: &str) -> Result<(), AllocError> {
    let (call, input) = case.split_once('\n').unwrap_or((case, ""));
    let (what, rest) = first_word(call);
    let (op, least) = first_word(rest);
    let (module, script) = split(input.as_bytes());
    match rewriter_from(alloc, module, parse_number(least)) {
        Ok(mut bench) => write_answer(alloc, out, &mut bench, (what, op), input.len(), script),
        Err(refusal) => write!(out, "{refusal}"),
    }
}
