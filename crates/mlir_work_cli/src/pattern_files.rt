//! Reads the pattern files that a command line names, and defines their patterns.
ghost use Rattle.std.specs.Prelude.{◌≡◌, ◌++◌, ◌∷◌, [], Some, IfOk, map};
ghost use Rattle.user_patterns_registry.specs.Registry.{registry_model};
ghost use Rattle.mlir_work_cli.specs.Files.{ArePatternFiles};
ghost use Rattle.mlir_work_cli.specs.Starts.{HasPatterns};

use crate::files::{FileError, FileFault, Files};
use crate::options::CommandLine;
use crate::reading::{PatternFileError, read_patterns};
use std::alloc::{AllocError, Global};
use user_patterns_registry::registry::PatternRegistry;

/// A file of user patterns: its name and its text.
#[derive(Drop)]
pub struct PatternFile<'a> {
    /// The name on the command line.
    pub name: &'a str,
    /// The text, with a pattern a line.
    pub text: Vec<u8>,
}

/// The line of a pattern file that was refused.
#[derive(Clone, Copy)]
pub struct PatternsFault {
    /// The number of the file, from 0.
    pub file: usize,
    /// The line, and why it was refused.
    pub error: PatternFileError,
}

/// Reads a pattern file.
fn text_of_file<'a, F: Files>(
    alloc: Global,
    files: &mut F,
    name: &'a str,
) -> Result<Vec<u8>, FileFault<'a>>
    ensures { IfOk result (λ text. F.has (Some name.entry.now) text.items) }
{
    match files.read(alloc, Some(name)) {
        Ok(text) => Ok(text),
        Err(error) => Err(FileFault { name, error }),
    }
}

/// Appends a pattern file.
fn push_file<'a>(
    found: &mut Vec<PatternFile<'a>>,
    name: &'a str,
    text: Vec<u8>,
) -> Result<(), FileFault<'a>>
    ensures names { IfOk result (λ _. map (λ f. f.name.now) found.new.items ≡ map (λ f. f.name.now) found.old.items ++ name.entry.now ∷ []) }
    ensures texts { IfOk result (λ _. map (λ f. f.text.items) found.new.items ≡ map (λ f. f.text.items) found.old.items ++ text.items ∷ []) }
{
    match found.push(PatternFile { name, text }) {
        Ok(()) => Ok(()),
        Err(_) => Err(FileFault {
            name,
            error: FileError::Memory,
        }),
    }
}

/// Reads the pattern files that a command line names, in order. Here `-` isn't standard input.
///
/// Errors: a file that can't be read; memory runs out.
pub fn pattern_files<'a, F: Files>(
    alloc: Global,
    files: &mut F,
    given: &CommandLine<'a>,
) -> Result<Vec<PatternFile<'a>>, FileFault<'a>>
    ensures { IfOk result (λ found. ArePatternFiles F.has given.now (map (λ f. f.name.now) found.items) (map (λ f. f.text.items) found.items)) }
{
    let mut found = Vec::new(alloc);
    let mut rest: &[&'a str] = &given.patterns;
    'names: while let [name, tail @ ..] = rest {
        let text = match text_of_file(alloc, files, *name) {
            Ok(text) => text,
            Err(fault) => return Err(fault),
        };
        match push_file(&mut found, *name, text) {
            Ok(()) => {}
            Err(fault) => return Err(fault),
        }
        rest = tail;
    }
    Ok(found)
}

/// Returns the registry with the patterns of all files, in order.
///
/// Errors: the first line that is refused, or for which memory runs out.
pub fn registry_of(
    alloc: Global,
    files: &[PatternFile<'_>],
) -> Result<PatternRegistry, PatternsFault>
    ensures { IfOk result (λ registry. HasPatterns (map (λ f. f.text.items) files.now) (registry_model registry)) }
{
    let mut registry = PatternRegistry::new(alloc);
    let mut rest = files;
    let mut file = 0;
    'files: while let [first, tail @ ..] = rest {
        match read_patterns(alloc, &mut registry, &first.text) {
            Ok(()) => {}
            Err(error) => return Err(PatternsFault { file, error }),
        }
        rest = tail;
        file += 1;
    }
    Ok(registry)
}

/// Returns the registry with the patterns of files that were accepted before. Fails only if memory runs out.
pub(crate) fn registry_again(
    alloc: Global,
    files: &[PatternFile<'_>],
) -> Result<PatternRegistry, AllocError>
    ensures { IfOk result (λ registry. HasPatterns (map (λ f. f.text.items) files.now) (registry_model registry)) }
{
    match registry_of(alloc, files) {
        Ok(registry) => Ok(registry),
        Err(_) => Err(AllocError),
    }
}
