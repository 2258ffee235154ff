//! Computes the answer to a line.
use crate::lines::{bytes_of, shown, summed};
use ir_text_modules::expansion::{Expansion, expand};
use ir_text_tokens::fault::Fault;
use ir_types_interner::keyed::Keyed;
use std::alloc::{AllocError, Global};

/// The maximum number of offsets that are summed.
const MOST_PLACES: usize = 1_000;

/// Returns a sum over the origins of the bytes of an expansion, and of its end. A long expansion is sampled at about
/// `MOST_PLACES` bytes.
fn sum_of_places(text: &[u8], found: &Expansion) -> u64 {
    let step = found.text.len() / MOST_PLACES + 1;
    let mut sum = 0;
    for at in 0..found.text.len() {
        if at % step == 0 {
            sum = summed(sum, found.place(text, at) as u64);
        }
    }
    summed(sum, found.place(text, found.text.len()) as u64)
}

fn fault_shown(alloc: Global, text: &[u8], fault: Option<Fault>) -> Result<String, AllocError> {
    match fault {
        Some(fault) => format!(in alloc;
            "{} at {}",
            fault.refusal.refusal().number(),
            fault.offset(text)
        ),
        None => format!(in alloc; "whole"),
    }
}

fn expansion_shown(alloc: Global, text: &[u8], found: &Expansion) -> Result<String, AllocError> {
    let fault = fault_shown(alloc, text, found.fault)?;
    let places = sum_of_places(text, found);
    let shown = shown(alloc, &found.text)?;
    format!(in alloc; "{fault}, places {places:016x}, {shown}")
}

/// Returns the fault at which the expansion of a line's text ends, the sum of its origins, and the expanded text.
pub fn answer(alloc: Global, line: &str) -> Result<String, AllocError> {
    let text = bytes_of(alloc, line)?;
    let found = expand(alloc, Keyed::new(0), &text)?;
    expansion_shown(alloc, &text, &found)
}
