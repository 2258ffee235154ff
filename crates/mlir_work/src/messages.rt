//! The messages on standard error that say where and why a module or a pattern of a file was refused: what was found,
//! what was expected, and what to do.

use itoa::Buffer;
use mlir_work_cli::pattern_reasons::write_pattern_reason;
use mlir_work_cli::positions::{column_of, indentation, line_at, line_feeds, preceding};
use mlir_work_cli::refusal::Refusal;
use mlir_work_cli::run::ParseError;
use mlir_work_cli::text_tokens::{token_at, write_found};
use mlir_work_cli::unsupported::UnsupportedConstruct;
use mlir_work_cli::words::trim;
use std::alloc::{AllocError, Global};
use std::io::Write;

/// Writes a message to standard error. Nothing can be done if that fails.
pub(crate) fn tell(rt: &HostRuntime, message: &[u8]) {
    let mut end = rt.stderr();
    let _ = end.write_all(message);
}

/// Returns what was expected in a module, and what to do.
fn wanted(refusal: Refusal) -> &'static str {
    match refusal {
        Refusal::BadToken => "expected a token: remove the byte, or close the string on its line",
        Refusal::Unexpected =>
            "expected another token: an operation is %r = \"name\"(%x) <{..}> ({..}) {..} : (i32) -> i32",
        Refusal::UnknownValue => "expected a value defined above: define it, or correct the name",
        Refusal::Redefined => "expected a new name: rename one of the two values",
        Refusal::TypeMismatch => "expected types that fit: correct the types after the colon",
        Refusal::BadWidth => "expected 1 to 128 bits: correct the width",
        Refusal::BadValue => "expected a number in range: correct the number, or its type",
        Refusal::MultipleBlocks => "expected one block in a region: try mlir-opt --lift-cf-to-scf",
        Refusal::Successors => "expected no successors: try mlir-opt --lift-cf-to-scf",
        Refusal::TooDeep =>
            "expected at most 128 operations around one, and 32 levels of a type: nest less",
        Refusal::TooMany => "expected fewer: the limits are in docs/REFUSALS.md",
        Refusal::DuplicateKey => "expected each key once: remove one of the two entries",
        Refusal::NotUtf8 => "expected UTF-8: save the file as UTF-8",
        _ => "expected another text: docs/REFUSALS.md says which",
    }
}

/// Returns whether a construct is a type, an attribute or a location that `--opaque` accepts.
fn is_unmodelled(unsupported: UnsupportedConstruct) -> bool {
    match unsupported {
        UnsupportedConstruct::CustomForm => false,
        UnsupportedConstruct::Symbol => false,
        UnsupportedConstruct::BetweenLines => false,
        UnsupportedConstruct::Word => false,
        UnsupportedConstruct::Other => false,
        _ => true,
    }
}

/// Returns what was expected in place of a construct that isn't supported, and what to do.
fn unsupported_expected(unsupported: UnsupportedConstruct) -> &'static str {
    match unsupported {
        UnsupportedConstruct::CustomForm =>
            "expected a name in quotes: run it through mlir-opt --mlir-print-op-generic, or open it with mlir-work",
        UnsupportedConstruct::Symbol =>
            "expected no symbol inside an opaque type or attribute: remove it",
        UnsupportedConstruct::BetweenLines =>
            "expected an opaque type or attribute on one line, without tabs and comments: write it so",
        UnsupportedConstruct::Word => "expected a type or an attribute: write a string in quotes",
        _ => "expected an operation, a type or an attribute in generic form: correct the text",
    }
}

/// Appends that the token at a byte isn't modelled, and what to do.
fn write_unmodelled(out: &mut Vec<u8>, text: &[u8], offset: usize) -> Result<(), AllocError> {
    out.extend_from_slice(token_at(text, offset))?;
    out.extend_from_slice(
        b" is not modelled: add --opaque (expected an integer type, index, a memref or their attributes)",
    )
}

/// Appends why a module was refused at a byte.
fn write_reason(
    out: &mut Vec<u8>,
    text: &[u8],
    offset: usize,
    refusal: Refusal,
    unsupported: Option<UnsupportedConstruct>,
) -> Result<(), AllocError> {
    let Some(unsupported) = unsupported else {
        write_found(out, text, offset)?;
        return out.extend_from_slice(wanted(refusal).as_bytes());
    };
    if is_unmodelled(unsupported) {
        return write_unmodelled(out, text, offset);
    }
    write_found(out, text, offset)?;
    out.extend_from_slice(unsupported_expected(unsupported).as_bytes())
}

/// Appends a number.
fn write_number(out: &mut Vec<u8>, number: usize) -> Result<(), AllocError> {
    let mut buffer = Buffer::new();
    out.extend_from_slice(buffer.format(number).as_bytes())
}

/// Appends a place in a file: `FILE:LINE:COLUMN: `.
fn write_place(
    out: &mut Vec<u8>,
    file: &str,
    line: usize,
    column: usize,
) -> Result<(), AllocError> {
    out.extend_from_slice(file.as_bytes())?;
    out.extend_from_slice(b":")?;
    write_number(out, line)?;
    out.extend_from_slice(b":")?;
    write_number(out, column)?;
    out.extend_from_slice(b": ")
}

/// Appends the place of a byte of a text that begins in a line of a file.
fn write_place_of(
    out: &mut Vec<u8>,
    file: &str,
    first_line: usize,
    text: &[u8],
    offset: usize,
) -> Result<(), AllocError> {
    let before = preceding(text, offset);
    let line = first_line.saturating_add(line_feeds(before));
    write_place(out, file, line, column_of(before))
}

/// Appends the number and the word of a refusal, and a colon.
fn write_refusal(out: &mut Vec<u8>, refusal: Refusal) -> Result<(), AllocError> {
    let mut buffer = Buffer::new();
    out.extend_from_slice(buffer.format(refusal.number()).as_bytes())?;
    out.extend_from_slice(b" ")?;
    out.extend_from_slice(refusal.word().as_bytes())?;
    out.extend_from_slice(b": ")
}

/// Appends the message on a module for which memory ran out.
fn write_memory(out: &mut Vec<u8>, file: &str, refusal: Refusal) -> Result<(), AllocError> {
    out.extend_from_slice(file.as_bytes())?;
    out.extend_from_slice(b": ")?;
    write_refusal(out, refusal)?;
    out.extend_from_slice(b"memory ran out: free some, or split the module\n")
}

/// Returns the message on a refused module whose text begins in a line of a file, such as
/// "m.mlir:1:5: 3 UnknownValue: found `%d`, expected a value that is defined before this use: ..".
pub(crate) fn module_message(
    alloc: Global,
    file: &str,
    first_line: usize,
    text: &[u8],
    unparsed: &ParseError,
) -> Result<Vec<u8>, AllocError> {
    let mut out = Vec::new(alloc);
    let Some(offset) = unparsed.offset else {
        write_memory(&mut out, file, unparsed.refusal)?;
        return Ok(out);
    };
    write_place_of(&mut out, file, first_line, text, offset)?;
    write_refusal(&mut out, unparsed.refusal)?;
    write_reason(
        &mut out,
        text,
        offset,
        unparsed.refusal,
        unparsed.unsupported,
    )?;
    out.push(b'\n')?;
    Ok(out)
}

/// Returns the message on a refused line of a pattern file. `at` is the byte of the line's pattern.
pub(crate) fn pattern_message(
    alloc: Global,
    file: &str,
    text: &[u8],
    number: usize,
    at: usize,
    refusal: Refusal,
) -> Result<Vec<u8>, AllocError> {
    let line = line_at(text, number);
    let column = at.saturating_add(indentation(line)).saturating_add(1);
    let mut out = Vec::new(alloc);
    write_place(&mut out, file, number, column)?;
    write_refusal(&mut out, refusal)?;
    write_pattern_reason(&mut out, trim(line), at, refusal)?;
    out.push(b'\n')?;
    Ok(out)
}

/// Returns the line on a module for which there is no command: how many operations were read.
pub(crate) fn summary(alloc: Global, file: &str, count: u64) -> Result<Vec<u8>, AllocError> {
    let mut buffer = Buffer::new();
    let mut out = Vec::new(alloc);
    out.extend_from_slice(file.as_bytes())?;
    out.extend_from_slice(b": read a module of ")?;
    out.extend_from_slice(buffer.format(count).as_bytes())?;
    out.extend_from_slice(b" operations: add a command, as -e 'print ids', or --help\n")?;
    Ok(out)
}
