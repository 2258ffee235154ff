//! Reads the files that a command line names.
ghost use Rattle.std.specs.Prelude.{◌≡◌, ◌++◌, ◌∷◌, [], ℕ, List, Option, Some, IfOk, map, option_map};
ghost use Rattle.mlir_work_cli.specs.Files.{AllHave, AreInputs, AreScripts, file_if, file_named, inputs_with, modules_of};
ghost use Rattle.mlir_work_cli.specs.Inputs.{input_of};

use crate::inputs::{input_of, parts_of};
use crate::options::CommandLine;
use std::alloc::{AllocError, Global};

/// The name of standard input and of standard output.
const STANDARD: &str = "-";

/// Why a text wasn't read.
#[derive(Clone, Copy, Debug, PartialEq, Eq)]
pub enum FileError {
    /// Memory ran out.
    Memory,
    /// There is no such file.
    Missing,
    /// The file can't be opened or read.
    Unreadable,
    /// The file is longer than an input may be.
    TooLong,
}

/// A file that wasn't read. `None` is standard input.
#[derive(Clone, Copy)]
pub struct FileFault<'a> {
    /// The name of the file on the command line.
    pub name: &'a str,
    /// Why it wasn't read.
    pub error: FileError,
}

/// Readers of files by their names.
pub trait Files {
    /// A file, or standard input, had these bytes when it was read.
    ghost has: { Option (List ℕ) → List ℕ → Type 0 };

    /// Reads a file to its end, or standard input if there is no file.
    fn read(&mut self, alloc: Global, file: Option<&str>) -> Result<Vec<u8>, FileError>
        ensures { IfOk result (λ text. has (option_map (λ s. s.now) file.entry) text.items) };
}

/// Returns the file of a name, or `None` for standard input or output.
fn file_named(name: &str) -> Option<&str>
    ensures { option_map (λ s. s.now) result ≡ file_named name.now }
{
    if name == STANDARD { None } else { Some(name) }
}

/// Returns the file of a name that may be left out, or `None` for standard input or output.
pub fn file_if<'a>(name: Option<&'a str>) -> Option<&'a str>
    ensures { option_map (λ s. s.now) result ≡ file_if (option_map (λ s. s.now) name.entry) }
{
    match name {
        Some(name) => file_named(name),
        None => None,
    }
}

/// Reads a file of a name, or standard input.
fn text_of<'a, F: Files>(
    alloc: Global,
    files: &mut F,
    name: &'a str,
) -> Result<Vec<u8>, FileFault<'a>>
    ensures { IfOk result (λ text. F.has (file_named name.entry.now) text.items) }
{
    match files.read(alloc, file_named(name)) {
        Ok(text) => Ok(text),
        Err(error) => Err(FileFault { name, error }),
    }
}

/// Appends a text.
fn push_text<'a>(
    texts: &mut Vec<Vec<u8>>,
    text: Vec<u8>,
    name: &'a str,
) -> Result<(), FileFault<'a>>
    ensures { IfOk result (λ _. map (λ t. t.items) texts.new.items ≡ map (λ t. t.items) texts.old.items ++ text.items ∷ []) }
{
    match texts.push(text) {
        Ok(()) => Ok(()),
        Err(_) => Err(FileFault {
            name,
            error: FileError::Memory,
        }),
    }
}

/// Reads files in order.
fn texts_of<'a, F: Files>(
    alloc: Global,
    files: &mut F,
    names: &[&'a str],
) -> Result<Vec<Vec<u8>>, FileFault<'a>>
    ensures { IfOk result (λ texts. AllHave F.has (map (λ s. file_named s.now) names.now) (map (λ t. t.items) texts.items)) }
{
    let mut texts = Vec::new(alloc);
    let mut rest = names;
    'names: while let [name, tail @ ..] = rest {
        let text = match text_of(alloc, files, *name) {
            Ok(text) => text,
            Err(fault) => return Err(fault),
        };
        match push_text(&mut texts, text, *name) {
            Ok(()) => {}
            Err(fault) => return Err(fault),
        }
        rest = tail;
    }
    Ok(texts)
}

/// Appends a copy of a command.
fn push_command(alloc: Global, scripts: &mut Vec<Vec<u8>>, command: &str) -> Result<(), AllocError>
    ensures { IfOk result (λ _. map (λ t. t.items) scripts.new.items ≡ map (λ t. t.items) scripts.old.items ++ command.now ∷ []) }
{
    let text = Vec::from_slice(alloc, command.as_bytes())?;
    scripts.push(text)?;
    Ok(())
}

/// Appends commands.
fn push_commands(
    alloc: Global,
    scripts: &mut Vec<Vec<u8>>,
    commands: &[&str],
) -> Result<(), AllocError>
    ensures { IfOk result (λ _. map (λ t. t.items) scripts.new.items ≡ map (λ t. t.items) scripts.old.items ++ map (λ s. s.now) commands.now) }
{
    let mut rest = commands;
    'commands: while let [command, tail @ ..] = rest {
        push_command(alloc, scripts, *command)?;
        rest = tail;
    }
    Ok(())
}

/// Returns a list of one text.
fn one(alloc: Global, text: Vec<u8>) -> Result<Vec<Vec<u8>>, AllocError>
    ensures { IfOk result (λ texts. map (λ t. t.items) texts.items ≡ text.items ∷ []) }
{
    let mut texts = Vec::new(alloc);
    texts.push(text)?;
    Ok(texts)
}

/// Appends the input of a module and scripts.
fn push_input(
    alloc: Global,
    inputs: &mut Vec<Vec<u8>>,
    text: &[u8],
    scripts: &[Vec<u8>],
) -> Result<(), AllocError>
    ensures { IfOk result (λ _. map (λ t. t.items) inputs.new.items
        ≡ map (λ t. t.items) inputs.old.items ++ input_of text.now (map (λ s. s.items) scripts.now) ∷ []) }
{
    let text = Vec::from_slice(alloc, text)?;
    let input = input_of(alloc, text, scripts)?;
    inputs.push(input)?;
    Ok(())
}

/// Returns the inputs of modules, each with the same scripts.
fn inputs_with(
    alloc: Global,
    modules: &[Vec<u8>],
    scripts: &[Vec<u8>],
) -> Result<Vec<Vec<u8>>, AllocError>
    ensures { IfOk result (λ inputs. map (λ i. i.items) inputs.items
        ≡ inputs_with (map (λ s. s.items) scripts.now) (map (λ m. m.items) modules.now)) }
{
    let mut inputs = Vec::new(alloc);
    let mut rest = modules;
    'modules: while let [module, tail @ ..] = rest {
        push_input(alloc, &mut inputs, module, scripts)?;
        rest = tail;
    }
    Ok(inputs)
}

/// Returns the inputs of a text, which has one module, or several if it is to be split, each with the same scripts.
fn inputs_of_text(
    alloc: Global,
    split: bool,
    text: Vec<u8>,
    scripts: &[Vec<u8>],
) -> Result<Vec<Vec<u8>>, AllocError>
    ensures { IfOk result (λ inputs. map (λ i. i.items) inputs.items
        ≡ inputs_with (map (λ s. s.items) scripts.now) (modules_of split text.items)) }
{
    if split {
        let modules = parts_of(alloc, &text)?;
        return inputs_with(alloc, &modules, scripts);
    }
    let input = input_of(alloc, text, scripts)?;
    one(alloc, input)
}

/// Returns why a command line's texts didn't make inputs: memory ran out.
fn no_memory(name: &str) -> FileFault<'_> {
    FileFault {
        name,
        error: FileError::Memory,
    }
}

/// Returns the name of the module on a command line: `-` if none is given.
fn module_name<'a>(given: &CommandLine<'a>) -> &'a str
    ensures { file_named result.now ≡ file_if (option_map (λ s. s.now) given.now.module) }
{
    match given.module {
        Some(name) => name,
        None => STANDARD,
    }
}

/// Reads the script files of a command line, and appends its commands.
fn scripts_of<'a, F: Files>(
    alloc: Global,
    files: &mut F,
    given: &CommandLine<'a>,
) -> Result<Vec<Vec<u8>>, FileFault<'a>>
    ensures { IfOk result (λ scripts. AreScripts F.has given.now (map (λ s. s.items) scripts.items)) }
{
    let mut scripts = match texts_of(alloc, files, &given.scripts) {
        Ok(scripts) => scripts,
        Err(fault) => return Err(fault),
    };
    match push_commands(alloc, &mut scripts, &given.commands) {
        Ok(()) => Ok(scripts),
        Err(_) => Err(no_memory(STANDARD)),
    }
}

/// Returns the inputs that a command line names: each module of its file, or of standard input if no file is named,
/// followed by the scripts and then the commands, in order.
///
/// Errors: a file that can't be read; memory runs out.
pub fn inputs<'a, F: Files>(
    alloc: Global,
    files: &mut F,
    given: &CommandLine<'a>,
) -> Result<Vec<Vec<u8>>, FileFault<'a>>
    ensures { IfOk result (λ inputs. AreInputs F.has given.now (map (λ i. i.items) inputs.items)) }
{
    let name = module_name(given);
    let text = match text_of(alloc, files, name) {
        Ok(text) => text,
        Err(fault) => return Err(fault),
    };
    let scripts = match scripts_of(alloc, files, given) {
        Ok(scripts) => scripts,
        Err(fault) => return Err(fault),
    };
    match inputs_of_text(alloc, given.split, text, &scripts) {
        Ok(inputs) => Ok(inputs),
        Err(_) => Err(no_memory(name)),
    }
}
