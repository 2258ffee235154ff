//! Runs several inputs one after another, and says which run a command line asks for.
ghost use Rattle.std.specs.Prelude.{◌≡◌, ◌⊎◌, ℕ, List, Bool, IfOk, OnErr, map, max, true};
ghost use Rattle.mlir_work_cli.specs.Runs.{AreRun, names_input, names_output, route_of};

use crate::files::file_if;
use crate::options::CommandLine;
use std::alloc::AllocError;

/// Which run a command line asks for.
#[derive(Clone, Copy, Debug, PartialEq, Eq)]
pub enum Route {
    /// The named inputs, one after another.
    Inputs,
    /// The lines of standard input, each answered at once.
    Lines,
    /// The whole standard input.
    Whole,
}

/// What runs one input after another and writes their outputs.
pub trait Runs {
    /// An input ended with this status.
    ghost ends: { List ℕ → ℕ → Type 0 };

    /// Whether a read or a write failed.
    ghost failed: { Self → Bool };

    /// Runs an input and returns its status.
    fn run(&mut self, input: &[u8]) -> Result<u8, AllocError>
        ensures ended { IfOk result (λ status. ends input.now status) }
        ensures fault { IfOk result (λ status. status ≡ 4 → failed self.new ≡ true) };

    /// Writes the separator between two outputs. Returns whether it was written.
    fn divide(&mut self) -> bool
        ensures { (result ≡ true) ⊎ (failed self.new ≡ true) };
}

/// Returns whether the command line names an input.
fn names_input(given: &CommandLine<'_>) -> bool
    ensures { result ≡ names_input given.now }
{
    given.split || given.module.is_some() || !given.scripts.is_empty() || !given.commands.is_empty()
}

/// Returns whether the command line names an output file.
fn names_output(given: &CommandLine<'_>) -> bool
    ensures { result ≡ names_output given.now }
{
    file_if(given.output).is_some()
}

/// Returns which run a command line asks for.
pub fn route_of(given: &CommandLine<'_>) -> Route
    ensures { result ≡ route_of given.now }
{
    if names_input(given) || names_output(given) {
        return Route::Inputs;
    }
    if given.options.ends {
        return Route::Lines;
    }
    Route::Whole
}

/// Returns the greater of two statuses.
fn worse(status: u8, other: u8) -> u8
    ensures { result ≡ max status other }
{
    if status < other { other } else { status }
}

/// Runs inputs one after another, with a separator between their outputs. Returns the greatest of their statuses. With
/// status 4, a read or a write failed, and later inputs are not run.
///
/// Errors: memory runs out.
pub fn run_inputs<R: Runs>(runs: &mut R, inputs: &[Vec<u8>]) -> Result<u8, AllocError>
    ensures { IfOk result (λ status. AreRun R.ends (map (λ i. i.items) inputs.now) status
        ⊎ ((status ≡ 4) × (R.failed runs.new ≡ true))) }
{
    let mut worst = 0;
    let mut rest = inputs;
    'inputs: while let [input, tail @ ..] = rest {
        if rest.len() < inputs.len() && !runs.divide() {
            return Ok(4);
        }
        let status = runs.run(input)?;
        if status == 4 {
            return Ok(4);
        }
        worst = worse(worst, status);
        rest = tail;
    }
    Ok(worst)
}
