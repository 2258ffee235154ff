//! Runs the inputs of the command line one after another, with comments on standard error.
ghost use Rattle.std.specs.Prelude.{⊤, true};

use crate::messages::{module_message, summary, tell};
use mlir_work_analyses::any_analysis::listed_listeners;
use mlir_work_cli::count::op_count;
use mlir_work_cli::dry_run::Bytes;
use mlir_work_cli::files::file_if;
use mlir_work_cli::formats::{Start, divider_in, run_given};
use mlir_work_cli::input::split;
use mlir_work_cli::options::CommandLine;
use mlir_work_cli::positions::line_feeds;
use mlir_work_cli::run::{ParseError, tree_of};
use mlir_work_cli::runs::Runs;
use mlir_work_cli::watched::Watched;
use mlir_work_cli::writing::write;
use std::alloc::AllocError;
use std::io;
use std::io::BufWriter;

/// The runs of a command line's inputs.
#[derive(Drop)]
pub(crate) struct InputRuns<'r, 's, 'g, 'p, 'a, W: io::Write + Drop> {
    pub(crate) rt: &'r HostRuntime,
    pub(crate) start: &'s Start<'g, 'p, 'a>,
    /// The line of the module's file at which the next input begins. It stays 1 if the file isn't split.
    pub(crate) line: usize,
    /// The writer of all outputs, or `None` if memory ran out in a run.
    pub(crate) writer: Option<Watched<BufWriter<W>>>,
}

/// Returns how many operations are in the module of a text, without the root.
fn count_in(rt: &HostRuntime, start: &Start<'_, '_, '_>, text: &[u8]) -> Result<u64, ParseError> {
    let read = tree_of(rt.alloc(), start.key, start.given.options.opaque, text)?;
    Ok(op_count(&read.1).saturating_sub(1))
}

/// Prints where and why the module of a file was refused, or how many operations it has if there is no command.
/// `first` is the line of the file at which the input begins.
fn comment(
    rt: &HostRuntime,
    start: &Start<'_, '_, '_>,
    first: usize,
    input: &[u8],
) -> Result<(), AllocError> {
    let Some(name) = file_if(start.given.module) else {
        return Ok(());
    };
    let (text, script) = split(input);
    match count_in(rt, start, text) {
        Ok(count) => {
            if script.is_empty() {
                tell(rt, &summary(rt.alloc(), name, count)?);
            }
        }
        Err(unparsed) => tell(
            rt,
            &module_message(rt.alloc(), name, first, text, &unparsed)?,
        ),
    }
    Ok(())
}

/// Returns whether the command line has a command, by its first one. If not, the input may still have some.
fn names_command(given: &CommandLine<'_>) -> bool {
    match given.commands.first() {
        Some(command) => !command.is_empty(),
        None => false,
    }
}

/// Returns whether a run calls for a comment: its module was refused, or it has no command. The text is searched for
/// commands only if the command line names none.
fn needs_comment(given: &CommandLine<'_>, input: &[u8], status: u8) -> bool {
    status == 3 || status == 0 && !names_command(given) && split(input).1.is_empty()
}

/// Returns the line of a file at which the next module begins, after the divider.
fn line_after(first: usize, input: &[u8]) -> usize {
    let (text, _) = split(input);
    first.saturating_add(line_feeds(text)).saturating_add(1)
}

impl<W: io::Write + Drop> Runs for InputRuns<'_, '_, '_, '_, '_, W> {
    ghost ends = { λ input status. ⊤ };

    ghost failed = { λ runs. true };

    fn run(&mut self, input: &[u8]) -> Result<u8, AllocError> {
        let Some(writer) = self.writer.take() else {
            return Err(AllocError);
        };
        let (rt, given) = (self.rt, self.start.given);
        let boxes = listed_listeners(rt.alloc(), given.options.opaque, &given.analyses)?;
        let mut reader = Bytes { rest: input };
        let (status, writer) = run_given(rt.alloc(), self.start, &mut reader, writer, boxes)?;
        self.writer = Some(writer);
        if needs_comment(given, input, status) {
            comment(rt, self.start, self.line, input)?;
        }
        if given.split {
            self.line = line_after(self.line, input);
        }
        Ok(status)
    }

    fn divide(&mut self) -> bool {
        let divider = divider_in(self.start.given.format);
        match &mut self.writer {
            Some(writer) => write(writer, divider).is_ok(),
            None => false,
        }
    }
}
