//! Removes the aliases and locations of a text.
ghost use Rattle.std.specs.Prelude.{◌≡◌, ◌≤◌, ◌-◌, [], ◌∷◌, ◌++◌, None, Some, not, length, OnOk, IfOk};
ghost use Rattle.ir_text_modules.specs.Expanded.{expanded, operations_expanded, place_in, located_refusal};
ghost use Rattle.ir_text_modules.specs.Expansions.{expansion_of};
ghost use Rattle.ir_text_modules.specs.Marks.{carried};

use crate::definitions::{Known, definitions};
use crate::endings::endings;
use ir_text_aliases::mark::Mark;
use ir_text_aliases::part::TextPart;
use ir_text_aliases::scan_state::BracketContents;
use ir_text_aliases::walk::{ExpandedText, walk};
use ir_text_tokens::fault::Fault;
use ir_text_tokens::names::ScopedNames;
use ir_text_tokens::refusal::TextRefusal;
use ir_types_interner::keyed::Keyed;
use std::alloc::{AllocError, Global};

/// The expansion of a text: the expanded text, the origin of its bytes, and the fault at which it ends, if there is
/// one.
#[derive(Drop)]
pub struct Expansion {
    pub text: Vec<u8>,
    pub marks: Vec<Mark>,
    pub fault: Option<Fault>,
}

/// Appends a mark at the end of the operations.
fn mark_end(out: &mut ExpandedText, left: usize) -> Result<(), AllocError>
    ensures text { OnOk result (out.new.text.items ≡ out.old.text.items) }
    ensures marks { OnOk result (out.new.marks.items ≡ out.old.marks.items ++ record { scanned = length out.old.text.items; past = length out.old.text.items; left = left } ∷ []) }
{
    let len = out.text.len();
    let mark = Mark {
        scanned: len,
        past: len,
        left,
    };
    out.marks.push(mark)?;
    Ok(())
}

/// Appends the expansion of the operations at the start of `bytes`. Definitions of locations follow them.
fn operations<'a>(
    alloc: Global,
    known: &mut Known<'a>,
    bytes: &'a [u8],
    out: &mut ExpandedText,
) -> Result<Option<Fault>, AllocError>
    requires text { out.old.text.items ≡ [] }
    requires marks { out.old.marks.items ≡ [] }
    ensures { IfOk result (λ f. operations_expanded known.old.values.items known.old.names.here bytes.now ≡ record { text = out.new.text.items; marks = out.new.marks.items; fault = f }) }
{
    let part = TextPart {
        before: 0,
        left: 0,
        reads: !known.values.is_empty(),
    };
    let (rest, fault) = walk(
        alloc,
        &part,
        &known.names,
        &known.values,
        BracketContents::Operations,
        bytes,
        out,
    )?;
    mark_end(out, rest.len())?;
    match fault {
        Some(fault) => Ok(Some(fault)),
        None => endings(&mut known.names, rest),
    }
}

/// Appends the whole expansion.
fn push_expansion<'a>(
    alloc: Global,
    known: &mut Known<'a>,
    bytes: &'a [u8],
    out: &mut ExpandedText,
) -> Result<Option<Fault>, AllocError>
    requires values { known.old.values.items ≡ [] }
    requires names { known.old.names.here ≡ [] }
    requires text { out.old.text.items ≡ [] }
    requires marks { out.old.marks.items ≡ [] }
    ensures { IfOk result (λ f. expanded bytes.now ≡ record { text = out.new.text.items; marks = out.new.marks.items; fault = f }) }
{
    let (rest, fault) = definitions(alloc, known, bytes)?;
    match fault {
        Some(fault) => Ok(Some(fault)),
        None => operations(alloc, known, rest, out),
    }
}

/// Returns the expansion of a text. `keyed` is the hash key for its names. MLIR Language Reference, "Type Aliases"
/// and "Attribute Value Aliases"; Builtin Dialect, "Location Attributes".
///
/// Definitions of aliases precede the first operation, and each later use is replaced by the value. If the text has
/// no definition, no alias is replaced. Locations are removed after the function type of an operation, after the type
/// of a block argument, and in definitions after the last operation.
///
/// The expansion ends at its first fault: `Redefined` at the second definition of a name; `UnknownValue` at an
/// unknown alias; `TooMany` at an alias whose value makes the text, or all values together, longer than a text may
/// be; or the fault of a value or a location that doesn't end.
pub fn expand(alloc: Global, keyed: Keyed, bytes: &[u8]) -> Result<Expansion, AllocError>
    ensures { IfOk result (λ e. expansion_of e ≡ expanded bytes.now) }
{
    let mut known = Known {
        names: ScopedNames::new(alloc, keyed),
        values: Vec::new(alloc),
    };
    let mut out = ExpandedText {
        text: Vec::new(alloc),
        marks: Vec::new(alloc),
    };
    let fault = push_expansion(alloc, &mut known, bytes, &mut out)?;
    Ok(Expansion {
        text: out.text,
        marks: out.marks,
        fault,
    })
}

// ---- the origin of bytes

/// Returns the offset in the original text, which has `len` bytes, of the byte `at` of the expansion. Returns `end`
/// for a byte after all marks.
#[tactic(auto, unfolding(crate::specs::Marks::carried))]
fn carried(len: usize, marks: &[Mark], end: usize, at: usize) -> usize
    ensures { result ≡ carried len marks.now end at }
{
    let mut rest = marks;
    'marks: while let [mark, tail @ ..] = rest {
        let place = len.saturating_sub(mark.left);
        if at < mark.scanned {
            return place.saturating_sub(mark.scanned - at);
        }
        if at < mark.past {
            return place;
        }
        rest = tail;
    }
    end
}

impl Expansion {
    /// Returns the offset in the original text of the byte `at` of the expansion. A byte of a replacement is mapped
    /// to its alias.
    pub fn place(&self, text: &[u8], at: usize) -> usize
        ensures { result ≡ place_in (length text.now) (expansion_of self.now) at }
    {
        let len = text.len();
        let end = match self.fault {
            Some(fault) => len.saturating_sub(fault.left),
            None => len,
        };
        carried(len, &self.marks, end, at)
    }

    /// Returns the refusal to report for a fault in the expanded text, and its offset in the original text. The
    /// expansion's own fault is reported instead if it isn't after that offset.
    pub fn located_refusal(&self, text: &[u8], fault: Fault) -> (TextRefusal, usize)
        ensures { result ≡ located_refusal text.now (expansion_of self.now) fault }
    {
        let place = self.place(text, self.text.len().saturating_sub(fault.left));
        match self.fault {
            Some(own) if place >= own.offset(text) => (own.refusal, own.offset(text)),
            _ => (fault.refusal, place),
        }
    }
}
