//! Builds one input from a module and scripts.
ghost use Rattle.std.specs.Prelude.{◌≡◌, ◌++◌, [], ◌∷◌, map, IfOk, List, ℕ};
ghost use Rattle.mlir_work_cli.specs.Inputs.{divided, ends_line, input_of, is_divided, one_script, parts_of};
ghost use Rattle.mlir_work_cli.specs.Inputs.{whole_lines};

use mlir_work_script_base::input::split;
use std::alloc::{AllocError, Global};

/// The line between the module and the script, with its line feed.
const DIVIDER_LINE: &[u8] = b"// -----\n";

/// Returns whether a text is empty or ends with a line feed.
fn ends_line(text: &[u8]) -> bool
    ensures { result ≡ ends_line text.now }
{
    match text.last() {
        None => true,
        Some(byte) => *byte == b'\n',
    }
}

/// Returns whether a text has a divider line.
fn is_divided(text: &[u8]) -> bool
    ensures { result ≡ is_divided text.now }
{
    let (module, _) = split(text);
    module.len() < text.len()
}

/// Appends a text, and a line feed if its last line has none.
fn write_lines(input: &mut Vec<u8>, text: &[u8]) -> Result<(), AllocError>
    ensures { IfOk result (λ _. input.new.items ≡ input.old.items ++ whole_lines text.now) }
{
    input.extend_from_slice(text)?;
    if !ends_line(text) {
        input.push(b'\n')?;
    }
    Ok(())
}

/// Appends a module, and the divider if it has none.
fn write_divided(input: &mut Vec<u8>, text: &[u8]) -> Result<(), AllocError>
    ensures { IfOk result (λ _. input.new.items ≡ input.old.items ++ divided text.now) }
{
    write_lines(input, text)?;
    if !is_divided(text) {
        input.extend_from_slice(DIVIDER_LINE)?;
    }
    Ok(())
}

/// Appends scripts one after another.
fn write_scripts(input: &mut Vec<u8>, scripts: &[Vec<u8>]) -> Result<(), AllocError>
    ensures { IfOk result (λ _. input.new.items ≡ input.old.items ++ one_script (map (λ s. s.items) scripts.now)) }
{
    let mut rest = scripts;
    'scripts: while let [script, tail @ ..] = rest {
        write_lines(input, script)?;
        rest = tail;
    }
    Ok(())
}

/// Builds one input from a text and further scripts. The text is a module, or a module and a script with the divider
/// between them. The lines of the scripts are appended in order. Without scripts, the input is the text unchanged.
pub fn input_of(alloc: Global, text: Vec<u8>, scripts: &[Vec<u8>]) -> Result<Vec<u8>, AllocError>
    ensures { IfOk result (λ input. input.items ≡ input_of text.items (map (λ s. s.items) scripts.now)) }
{
    if scripts.is_empty() {
        return Ok(text);
    }
    let mut input = Vec::new(alloc);
    write_divided(&mut input, &text)?;
    write_scripts(&mut input, scripts)?;
    Ok(input)
}

/// Appends a text to a list.
fn write_part(alloc: Global, parts: &mut Vec<Vec<u8>>, text: &[u8]) -> Result<(), AllocError>
    ensures { IfOk result (λ _. map (λ s. s.items) parts.new.items
        ≡ map (λ s. s.items) parts.old.items ++ text.now ∷ []) }
{
    let part = Vec::from_slice(alloc, text)?;
    parts.push(part)?;
    Ok(())
}

/// Splits a text at the lines that are exactly `// -----` (`mlir-opt --split-input-file`). Returns the modules
/// between them in order.
pub fn parts_of(alloc: Global, text: &[u8]) -> Result<Vec<Vec<u8>>, AllocError>
    ensures { IfOk result (λ parts. map (λ s. s.items) parts.items ≡ parts_of text.now) }
{
    let mut parts = Vec::new(alloc);
    let mut rest = text;
    let mut most = text.len();
    'parts: while most > 0 && is_divided(rest) {
        let (module, trailing) = split(rest);
        write_part(alloc, &mut parts, module)?;
        rest = trailing;
        most -= 1;
    }
    write_part(alloc, &mut parts, rest)?;
    Ok(parts)
}
