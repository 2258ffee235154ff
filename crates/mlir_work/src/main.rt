//! The program: runs a script on a module. `mlir_work [OPTIONS] [MODULE]`.
#![tactic(auto)]

mod files;
mod input_runs;
mod messages;

use crate::files::HostFiles;
use crate::input_runs::InputRuns;
use crate::messages::{pattern_message, tell};
use clap::Error;
use clap::error::ErrorKind;
use mlir_work_analyses::any_analysis::listed_listeners;
use mlir_work_cli::error::PatternError;
use mlir_work_cli::files::{FileError, FileFault, file_if, inputs};
use mlir_work_cli::formats::{Start, answer_given, run_given};
use mlir_work_cli::options::{CommandLine, options_of};
use mlir_work_cli::pattern_files::{PatternFile, PatternsFault, pattern_files, registry_of};
use mlir_work_cli::runs::{Route, route_of, run_inputs};
use mlir_work_cli::watched::Watched;
use std::alloc::{AllocError, Global};
use std::io::BufWriter;
use std::process::ExitCode;
use std::random::RandomSource;
use std::{env, fs, io};

/// Prints that there is no memory to begin a run. Returns the status.
fn no_memory(rt: &HostRuntime) -> u8 {
    let _ = rt.eprintln("no memory");
    2
}

/// Returns the words of the command line, or an error if one isn't UTF-8.
fn words_of(rt: &HostRuntime) -> io::Result<Vec<String>> {
    Ok(env::args(rt)?.collect(rt.alloc())?)
}

/// Prints why the command line can't be read. Returns the status.
fn refuse_words(rt: &HostRuntime, error: &io::Error) -> u8 {
    if error.kind() == io::ErrorKind::OutOfMemory {
        return no_memory(rt);
    }
    let _ = rt.eprintln("error: an argument is not UTF-8");
    2
}

/// Returns a random key for hashing names, or 0 if there is no source of randomness. A secret key keeps an attacker
/// from choosing names that collide.
fn key_of<R: RandomSource>(rt: &R) -> u64 {
    let mut bytes = [0u8; 8];
    match rt.fill_bytes(&mut bytes) {
        Ok(()) => u64::from_le_bytes(bytes),
        Err(_) => 0,
    }
}

/// Prints the requested help or version, or the error in the command line. Returns the status.
fn answer_words(rt: &HostRuntime, error: &Error) -> u8 {
    if error.kind() == ErrorKind::OutOfMemory {
        return no_memory(rt);
    }
    let printed = error.print(rt);
    if error.use_stderr() {
        return 2;
    }
    if printed.is_ok() { 0 } else { 4 }
}

/// Prints why a file wasn't read. Returns the status.
fn refuse_input(rt: &HostRuntime, fault: FileFault<'_>) -> u8 {
    let name = fault.name;
    match fault.error {
        FileError::Memory => return no_memory(rt),
        FileError::Missing => {
            let _ = eprintln!(rt; "error: {name}: found no such file: correct the name");
        }
        FileError::Unreadable => {
            let _ = eprintln!(rt;
                "error: {name}: this file can't be read: name a file that you may read"
            );
        }
        FileError::TooLong => {
            let _ = eprintln!(rt; "error: {name}: this file is longer than 32 MiB: split it");
        }
    }
    2
}

/// Prints where and why a line of a pattern file was refused. Returns the status.
fn refuse_pattern(
    rt: &HostRuntime,
    patterns: &[PatternFile<'_>],
    fault: PatternsFault,
) -> Result<u8, AllocError> {
    let unparsed = fault.error;
    let (PatternError::Refused(refused), Some(file)) = (unparsed.error, patterns.get(fault.file))
    else {
        return Ok(no_memory(rt));
    };
    let refusal = refused.refusal.refusal();
    let message = pattern_message(
        rt.alloc(),
        file.name,
        &file.text,
        unparsed.line,
        unparsed.at,
        refusal,
    )?;
    tell(rt, &message);
    Ok(2)
}

/// Returns a writer that records whether a write failed.
fn watched<W: io::Write + Drop>(
    alloc: Global,
    writer: W,
) -> Result<Watched<BufWriter<W>>, AllocError> {
    match BufWriter::new(alloc, writer) {
        Ok(writer) => Ok(Watched::new(writer)),
        Err(_) => Err(AllocError),
    }
}

/// Runs inputs one after another. Returns the status.
fn run_all<W: io::Write + Drop>(
    rt: &HostRuntime,
    start: &Start<'_, '_, '_>,
    inputs: &[Vec<u8>],
    writer: W,
) -> Result<u8, AllocError> {
    let writer = watched(rt.alloc(), writer)?;
    let mut runs = InputRuns {
        rt,
        start,
        line: 1,
        writer: Some(writer),
    };
    run_inputs(&mut runs, inputs)
}

/// Runs the inputs that the command line names. Returns the status.
fn run_named(rt: &HostRuntime, start: &Start<'_, '_, '_>) -> Result<u8, AllocError> {
    let inputs = match inputs(rt.alloc(), &mut HostFiles { rt }, start.given) {
        Ok(inputs) => inputs,
        Err(fault) => return Ok(refuse_input(rt, fault)),
    };
    let Some(name) = file_if(start.given.output) else {
        return run_all(rt, start, &inputs, io::writer(rt));
    };
    match fs::create(rt, name) {
        Ok(file) => run_all(rt, start, &inputs, file),
        Err(_) => {
            let _ = eprintln!(rt;
                "error: {name}: this file can't be written: name one that you may write"
            );
            Ok(2)
        }
    }
}

/// Runs standard input, or answers each of its lines at once. Returns the status.
fn run_standard(rt: &HostRuntime, start: &Start<'_, '_, '_>, live: bool) -> Result<u8, AllocError> {
    let given = start.given;
    let boxes = listed_listeners(rt.alloc(), given.options.opaque, &given.analyses)?;
    let mut reader = Watched::new(rt.stdin());
    let writer = watched(rt.alloc(), io::writer(rt))?;
    let ended = if live {
        answer_given(rt.alloc(), start, &mut reader, writer, boxes)
    } else {
        run_given(rt.alloc(), start, &mut reader, writer, boxes)
    };
    match ended {
        Ok((status, _)) => Ok(status),
        Err(fault) => Err(fault),
    }
}

/// Runs as the command line says, with the patterns of its files. Returns the status.
fn run_with(rt: &HostRuntime, start: &Start<'_, '_, '_>) -> Result<u8, AllocError> {
    match route_of(start.given) {
        Route::Inputs => run_named(rt, start),
        Route::Lines => run_standard(rt, start, true),
        Route::Whole => run_standard(rt, start, false),
    }
}

/// Runs as the command line says. Returns the status. Nothing runs if one of the named patterns is refused.
fn run_line(rt: &HostRuntime, given: &CommandLine<'_>) -> Result<u8, AllocError> {
    let patterns = match pattern_files(rt.alloc(), &mut HostFiles { rt }, given) {
        Ok(patterns) => patterns,
        Err(fault) => return Ok(refuse_input(rt, fault)),
    };
    match registry_of(rt.alloc(), &patterns) {
        Ok(_) => {}
        Err(fault) => return refuse_pattern(rt, &patterns, fault),
    }
    let start = Start {
        given,
        patterns: &patterns,
        key: key_of(rt),
    };
    run_with(rt, &start)
}

fn main(rt: HostRuntime) -> ExitCode {
    let words = match words_of(&rt) {
        Ok(words) => words,
        Err(error) => return ExitCode::from(refuse_words(&rt, &error)),
    };
    let given = match options_of(rt.alloc(), &words) {
        Ok(given) => given,
        Err(error) => return ExitCode::from(answer_words(&rt, &error)),
    };
    match run_line(&rt, &given) {
        Ok(status) => ExitCode::from(status),
        Err(_) => ExitCode::from(no_memory(&rt)),
    }
}
