//! The definitions of aliases before the first operation.
ghost use Rattle.std.specs.Prelude.{◌≡◌, ◌≤◌, ◌++◌, ◌-◌, [], ◌∷◌, true, false, if◌then◌else◌, Ok, Err, None, Some, length, OnOk, IfOk, IfErr};
ghost use Rattle.ir_text_tokens.specs.Bodies.{begins};
ghost use Rattle.ir_text_aliases.specs.Lexemes.{is_gap, name_of};
ghost use Rattle.ir_text_modules.specs.Definitions.{defined, definitions, is_known, value_at, value_of_name, value_up_to, value_walk, with_alias};
ghost use Rattle.ir_text_modules.specs.Recursion.{repeats_own_head};
ghost use Rattle.ir_text_modules.specs.Steps.{Adds};
ghost use Rattle.ir_text_aliases.specs.Walk.{fault_at};
ghost use Rattle.ir_text_tokens.specs.declared.refusal.TextRefusal.TheVariants.{LeftOut};
ghost use Rattle.ir_text_tokens.specs.declared.fault.Fault.{Fault as Reason};

use crate::recursion::repeats_own_head;
use ir_text_aliases::lexemes::{after_lexeme, is_gap, name_len};
use ir_text_aliases::part::TextPart;
use ir_text_aliases::scan_state::BracketContents;
use ir_text_aliases::terms::value_end;
use ir_text_aliases::values::definition;
use ir_text_aliases::walk::{ExpandedText, walk};
use ir_text_tokens::fault::Fault;
use ir_text_tokens::names::ScopedNames;
use ir_text_tokens::refusal::TextRefusal;
use std::alloc::{AllocError, Global};

/// The known aliases. Each name is bound to the start and the end of its value in `values`, the concatenation of all
/// values.
#[derive(Drop)]
pub(crate) struct Known<'a> {
    pub names: ScopedNames<'a, (usize, usize)>,
    pub values: Vec<u8>,
}

// ---- one value

/// Appends the expansion of the value, up to where `left` bytes of the text are left. Returns its first fault.
fn append_value<'a>(
    alloc: Global,
    known: &Known<'a>,
    bytes: &'a [u8],
    left: usize,
    out: &mut ExpandedText,
) -> Result<Option<Fault>, AllocError>
    requires text { out.old.text.items ≡ [] }
    requires marks { out.old.marks.items ≡ [] }
    ensures fault { IfOk result (λ f. (value_walk known.now.values.items known.now.names.here bytes.now left).fault ≡ f) }
    ensures text { IfOk result (λ _. (value_walk known.now.values.items known.now.names.here bytes.now left).text ≡ out.new.text.items) }
{
    let part = TextPart {
        before: known.values.len(),
        left,
        reads: true,
    };
    let (_, fault) = walk(
        alloc,
        &part,
        &known.names,
        &known.values,
        BracketContents::Others,
        bytes,
        out,
    )?;
    Ok(fault)
}

/// Returns the fault of a value that doesn't end: the first fault of its expansion, or else `fault`.
fn open_value<'a>(
    alloc: Global,
    known: &Known<'a>,
    bytes: &'a [u8],
    fault: Fault,
    out: &mut ExpandedText,
) -> Result<Fault, AllocError>
    requires text { out.old.text.items ≡ [] }
    requires marks { out.old.marks.items ≡ [] }
    ensures { IfOk result (λ f. value_up_to known.now.values.items known.now.names.here bytes.now (Err fault) ≡ Err f) }
{
    match append_value(alloc, known, bytes, fault.left, out)? {
        Some(first) => Ok(first),
        None => Ok(fault),
    }
}

/// Returns the fault `LeftOut` if the value contains a dialect's type inside itself.
fn itself(bytes: &[u8], out: &ExpandedText) -> Option<Fault>
    ensures { result ≡ (if repeats_own_head out.now.text.items then Some (fault_at bytes.now LeftOut) else None) }
{
    if repeats_own_head(&out.text) {
        Some(Fault::at(TextRefusal::LeftOut, bytes))
    } else {
        None
    }
}

/// Appends the expansion of the value at the start of `bytes`, up to `rest`. Returns its fault.
fn closed_value<'a>(
    alloc: Global,
    known: &Known<'a>,
    bytes: &'a [u8],
    rest: &'a [u8],
    out: &mut ExpandedText,
) -> Result<Option<Fault>, AllocError>
    requires text { out.old.text.items ≡ [] }
    requires marks { out.old.marks.items ≡ [] }
    ensures ok { IfOk result (λ f. f ≡ None → value_up_to known.now.values.items known.now.names.here bytes.now (Ok rest.now) ≡ Ok (out.new.text.items, rest.now)) }
    ensures err { IfOk result (λ f. (x : Reason) → f ≡ Some x → value_up_to known.now.values.items known.now.names.here bytes.now (Ok rest.now) ≡ Err x) }
{
    match append_value(alloc, known, bytes, rest.len(), out)? {
        None => Ok(itself(bytes, out)),
        Some(fault) => Ok(Some(fault)),
    }
}

/// Appends the expansion of the value at the start of `bytes`, and returns the rest of the text after the value. The
/// fault is that of an alias in the value, or of a value that is no type or no attribute. A value that contains a
/// dialect's type inside itself is refused with `LeftOut`.
fn value<'a>(
    alloc: Global,
    known: &Known<'a>,
    of_type: bool,
    bytes: &'a [u8],
    out: &mut ExpandedText,
) -> Result<Result<&'a [u8], Fault>, AllocError>
    requires text { out.old.text.items ≡ [] }
    requires marks { out.old.marks.items ≡ [] }
    ensures ok { IfOk result (λ s. IfOk s (λ r. value_at known.now.values.items known.now.names.here of_type bytes.now ≡ Ok (out.new.text.items, r.now))) }
    ensures err { IfOk result (λ s. IfErr s (λ f. value_at known.now.values.items known.now.names.here of_type bytes.now ≡ Err f)) }
{
    match value_end(of_type, bytes) {
        Ok(rest) => match closed_value(alloc, known, bytes, rest, out)? {
            None => Ok(Ok(rest)),
            Some(fault) => Ok(Err(fault)),
        },
        Err(fault) => Ok(Err(open_value(alloc, known, bytes, fault, out)?)),
    }
}

// ---- one definition

/// Returns whether an alias has the name.
pub(crate) fn is_known<'a>(names: &ScopedNames<'a, (usize, usize)>, name: &'a [u8]) -> bool
    ensures { result ≡ is_known name.now names.now.here }
{
    match names.find(name) {
        Some(_) => true,
        None => false,
    }
}

/// Returns the name at the start of `all`, with its sigil.
pub(crate) fn name_of<'a>(byte: u8, all: &'a [u8], tail: &'a [u8]) -> &'a [u8]
    requires all { all.now ≡ byte ∷ tail.now }
    ensures { result.now ≡ name_of byte tail.now }
{
    &all[..name_len(tail) + 1]
}

/// Adds an alias, and appends its value to the other values.
fn add<'a>(known: &mut Known<'a>, name: &'a [u8], value: &[u8]) -> Result<(), AllocError>
    ensures values { OnOk result (known.new.values.items ≡ known.old.values.items ++ value.now) }
    ensures names { OnOk result (known.new.names.here ≡ with_alias name.now (length known.old.values.items) (length known.new.values.items) known.old.names.here) }
{
    let start = known.values.len();
    known.values.extend_from_slice(value)?;
    let past = known.values.len();
    known.names.bind(name, (start, past))
}

/// Returns whether the text begins with `!`, the sigil of a type alias.
fn is_type(all: &[u8]) -> bool
    ensures { result ≡ begins 33 all.now }
{
    matches!(all, [b'!', ..])
}

/// Appends the value of the definition of `name`, and returns the rest of the text after the value. A name that is
/// already defined is refused with `Redefined`.
fn defined_value<'a>(
    alloc: Global,
    known: &Known<'a>,
    name: &'a [u8],
    all: &'a [u8],
    bytes: &'a [u8],
    out: &mut ExpandedText,
) -> Result<Result<&'a [u8], Fault>, AllocError>
    requires text { out.old.text.items ≡ [] }
    requires marks { out.old.marks.items ≡ [] }
    ensures ok { IfOk result (λ s. IfOk s (λ r. value_of_name known.now.values.items known.now.names.here name.now all.now bytes.now ≡ Ok (out.new.text.items, r.now))) }
    ensures err { IfOk result (λ s. IfErr s (λ f. value_of_name known.now.values.items known.now.names.here name.now all.now bytes.now ≡ Err f)) }
{
    if is_known(&known.names, name) {
        return Ok(Err(Fault::at(TextRefusal::Redefined, all)));
    }
    value(alloc, known, is_type(all), bytes, out)
}

/// Adds the alias of a definition, and returns the rest of the text after its value. `bytes` begins with the value.
fn define<'a>(
    alloc: Global,
    known: &mut Known<'a>,
    name: &'a [u8],
    all: &'a [u8],
    bytes: &'a [u8],
) -> Result<Result<&'a [u8], Fault>, AllocError>
    ensures ok { IfOk result (λ s. IfOk s (λ r. Adds name.now all.now bytes.now known.old.values.items known.old.names.here r.now known.new.values.items known.new.names.here)) }
    ensures err { IfOk result (λ s. IfErr s (λ f. (value_of_name known.old.values.items known.old.names.here name.now all.now bytes.now ≡ Err f) × (known.new.values.items ≡ known.old.values.items) × (known.new.names.here ≡ known.old.names.here))) }
{
    let mut out = ExpandedText {
        text: Vec::new(alloc),
        marks: Vec::new(alloc),
    };
    match defined_value(alloc, known, name, all, bytes, &mut out)? {
        Ok(rest) => {
            add(known, name, &out.text)?;
            Ok(Ok(rest))
        }
        Err(fault) => Ok(Err(fault)),
    }
}

// ---- all definitions

/// Adds the definition that begins with `byte`, and returns the rest of the text after it. The error ends the
/// definitions: it has the text after the last definition if no definition begins here, or the fault.
fn definition_step<'a>(
    alloc: Global,
    known: &mut Known<'a>,
    byte: u8,
    all: &'a [u8],
    tail: &'a [u8],
    trailing: &'a [u8],
) -> Result<Result<&'a [u8], (&'a [u8], Option<Fault>)>, AllocError>
    requires all { all.now ≡ byte ∷ tail.now }
    requires lexeme { is_gap byte tail.now ≡ false }
    ensures on { IfOk result (λ s. IfOk s (λ r. definitions known.old.values.items known.old.names.here trailing.now 0 all.now ≡ definitions known.new.values.items known.new.names.here r.now 0 r.now)) }
    ensures ends { IfOk result (λ s. IfErr s (λ e. definitions known.old.values.items known.old.names.here trailing.now 0 all.now ≡ defined known.new.values.items known.new.names.here e.0.now e.1)) }
    ensures shorter { IfOk result (λ s. IfOk s (λ r. length r.now ≤ length tail.now)) }
{
    let Some(value) = definition(byte, all, tail) else {
        return Ok(Err((trailing, None)));
    };
    let name = name_of(byte, all, tail);
    match define(alloc, known, name, all, value)? {
        Ok(rest) => Ok(Ok(rest)),
        Err(fault) => Ok(Err((all, Some(fault)))),
    }
}

/// Skips a blank or a comment, or adds the definition that begins with `byte`. Returns the rest of the text, and the
/// rest after the last definition. The error ends the definitions, as in `definition_step`.
fn next<'a>(
    alloc: Global,
    known: &mut Known<'a>,
    byte: u8,
    all: &'a [u8],
    tail: &'a [u8],
    trailing: &'a [u8],
) -> Result<Result<(&'a [u8], &'a [u8]), (&'a [u8], Option<Fault>)>, AllocError>
    requires all { all.now ≡ byte ∷ tail.now }
    ensures on { IfOk result (λ s. IfOk s (λ x. definitions known.old.values.items known.old.names.here trailing.now 0 all.now ≡ definitions known.new.values.items known.new.names.here x.1.now 0 x.0.now)) }
    ensures ends { IfOk result (λ s. IfErr s (λ e. definitions known.old.values.items known.old.names.here trailing.now 0 all.now ≡ defined known.new.values.items known.new.names.here e.0.now e.1)) }
    ensures shorter { IfOk result (λ s. IfOk s (λ x. length x.0.now ≤ length tail.now)) }
{
    if is_gap(byte, tail) {
        return Ok(Ok((after_lexeme(byte, all, tail), trailing)));
    }
    match definition_step(alloc, known, byte, all, tail, trailing)? {
        Ok(rest) => Ok(Ok((rest, rest))),
        Err(end) => Ok(Err(end)),
    }
}

/// Adds the definitions before the first operation, and returns the rest of the text after the last value. The fault
/// is `Redefined` at the second definition of a name, or the fault of a value.
pub(crate) fn definitions<'a>(
    alloc: Global,
    known: &mut Known<'a>,
    bytes: &'a [u8],
) -> Result<(&'a [u8], Option<Fault>), AllocError>
    ensures { IfOk result (λ x. definitions known.old.values.items known.old.names.here bytes.now 0 bytes.now ≡ defined known.new.values.items known.new.names.here x.0.now x.1) }
{
    let mut rest = bytes;
    let mut trailing = bytes;
    'lexemes: while let [byte, tail @ ..] = rest {
        match next(alloc, known, *byte, rest, tail, trailing)? {
            Ok((extra, after)) => {
                rest = extra;
                trailing = after;
            }
            Err(end) => return Ok(end),
        }
    }
    Ok((trailing, None))
}
