//! Reads modules.
ghost use Rattle.std.specs.Prelude.{◌≡◌, ◌≤◌, ℕ, IfOk, IfErr, Err, false, true, length};
ghost use Rattle.ir_types.specs.Refusals.{number_of};
ghost use Rattle.ir_tree.specs.Meaning.{IsSoundIn};
ghost use Rattle.ir_text.specs.Public.{IsNone, IsOnly, IsTextRefusal, Spells};
ghost use Rattle.ir_text_modules.specs.Expanded.{expanded};
ghost use Rattle.ir_text_modules.specs.Expansions.{expansion_of};
ghost use Rattle.ir_text_modules.specs.Stays.{has_more};
ghost use Rattle.ir_text_modules.specs.Modules.{SpellsModule};

use crate::expansion::{Expansion, expand};
use crate::unchanged::has_more;
use ir_text::error::ReadError;
use ir_text::reader::read_new;
use ir_text_tokens::refusal::TextRefusal;
use ir_tree::tree::TreeOp;
use ir_types::context::Context;
use ir_types::refusal::Refusal;
use ir_types_interner::keyed::Keyed;
use std::alloc::Global;

/// Returns the module of a text and its context. The ids are 0, 1, .. in pre-order. `key` is the hash key of the
/// context; no result depends on it.
///
/// `opaque` says whether unknown types and attributes are read as opaque ones, here and in every later text that is
/// read into the context. If it is set, the text may also define aliases before its operations (Language Reference,
/// "Type Aliases", "Attribute Value Aliases") and have locations (Builtin Dialect, "Location Attributes"), which are
/// removed.
///
/// Refusals: those of reading a text; with `opaque` also `Redefined` for a name that is defined twice, `UnknownValue`
/// for an undefined alias, and `TooMany` for a text that is too long after the expansion. The offset is that in
/// `text`; a fault in the value of an alias is reported at the alias. `Full` is never returned.
pub fn read_module(
    alloc: Global,
    key: u64,
    opaque: bool,
    text: &[u8],
) -> Result<(Context, TreeOp), ReadError>
    ensures read { IfOk result (λ x. IsOnly (SpellsModule opaque text.now) x.0 x.1) }
    ensures sound { IfOk result (λ x. IsSoundIn x.0 x.1) }
    ensures mode { IfOk result (λ x. x.0.opaque ≡ opaque) }
    ensures refused { (r : Refusal) (o : ℕ) → result ≡ Err (ReadError.Refused r o) → IsNone (SpellsModule opaque text.now) }
    ensures reported { IfErr result (λ e. IsTextRefusal text.now e) }
    ensures headroom { (o : ℕ) → result ≡ Err (ReadError.Full o) → ⊥ }
{
    if !opaque {
        return read_plain(alloc, key, text);
    }
    if has_more(text) {
        read_expanded(alloc, key, text)
    } else {
        read_unchanged(alloc, key, text)
    }
}

/// Reads a module of a text without opaque types and attributes.
#[tactic(auto, using(crate::proofs::Reading::only_module, crate::proofs::Reading::no_module))]
fn read_plain(alloc: Global, key: u64, text: &[u8]) -> Result<(Context, TreeOp), ReadError>
    ensures read { IfOk result (λ x. IsOnly (SpellsModule false text.now) x.0 x.1) }
    ensures sound { IfOk result (λ x. IsSoundIn x.0 x.1) }
    ensures mode { IfOk result (λ x. x.0.opaque ≡ false) }
    ensures refused { (r : Refusal) (o : ℕ) → result ≡ Err (ReadError.Refused r o) → IsNone (SpellsModule false text.now) }
    ensures reported { IfErr result (λ e. IsTextRefusal text.now e) }
    ensures headroom { (o : ℕ) → result ≡ Err (ReadError.Full o) → ⊥ }
{
    read_new(alloc, key, false, text)
}

/// Reads a module of a text that may have aliases and locations but has none.
#[tactic(auto, using(crate::proofs::Reading::only_unchanged, crate::proofs::Reading::none_unchanged))]
fn read_unchanged(alloc: Global, key: u64, text: &[u8]) -> Result<(Context, TreeOp), ReadError>
    requires { has_more 0 text.now ≡ false }
    ensures read { IfOk result (λ x. IsOnly (SpellsModule true text.now) x.0 x.1) }
    ensures sound { IfOk result (λ x. IsSoundIn x.0 x.1) }
    ensures mode { IfOk result (λ x. x.0.opaque ≡ true) }
    ensures refused { (r : Refusal) (o : ℕ) → result ≡ Err (ReadError.Refused r o) → IsNone (SpellsModule true text.now) }
    ensures reported { IfErr result (λ e. IsTextRefusal text.now e) }
    ensures headroom { (o : ℕ) → result ≡ Err (ReadError.Full o) → ⊥ }
{
    read_new(alloc, key, true, text)
}

/// Reads a module of a text with aliases and locations.
#[tactic(auto, using(crate::proofs::Reading::only_module, crate::proofs::Reading::no_module, crate::proofs::Reading::faulty))]
fn read_expanded(alloc: Global, key: u64, text: &[u8]) -> Result<(Context, TreeOp), ReadError>
    ensures read { IfOk result (λ x. IsOnly (SpellsModule true text.now) x.0 x.1) }
    ensures sound { IfOk result (λ x. IsSoundIn x.0 x.1) }
    ensures mode { IfOk result (λ x. x.0.opaque ≡ true) }
    ensures refused { (r : Refusal) (o : ℕ) → result ≡ Err (ReadError.Refused r o) → IsNone (SpellsModule true text.now) }
    ensures reported { IfErr result (λ e. IsTextRefusal text.now e) }
    ensures headroom { (o : ℕ) → result ≡ Err (ReadError.Full o) → ⊥ }
{
    let Ok(expansion) = expand(alloc, Keyed::new(key), text) else {
        return Err(ReadError::Memory);
    };
    match read_new(alloc, key, true, &expansion.text) {
        Ok(found) => match expansion.fault {
            None => Ok(found),
            Some(fault) => Err(ReadError::Refused {
                refusal: fault.refusal.refusal(),
                offset: fault.offset(text),
            }),
        },
        Err(ReadError::Refused { refusal, offset }) => {
            let (refusal, offset) = extra_left(text, &expansion, refusal, offset);
            Err(ReadError::Refused { refusal, offset })
        }
        Err(ReadError::Memory) => Err(ReadError::Memory),
        Err(ReadError::Full { offset }) => Err(ReadError::Full { offset }),
    }
}

/// Returns the refusal to report for a refusal in the expanded text, and its offset in `text`. The expansion's own
/// fault is reported instead if it isn't after that offset.
fn extra_left(
    text: &[u8],
    expansion: &Expansion,
    refusal: Refusal,
    offset: usize,
) -> (Refusal, usize)
    requires expansion { expansion_of expansion.now ≡ expanded text.now }
    requires refusal { number_of refusal ≤ 14 }
    ensures refusal { number_of result.0 ≤ 14 }
    ensures offset { result.1 ≤ length text.now }
{
    let place = expansion.place(text, offset);
    if let Some(fault) = expansion.fault {
        let own: TextRefusal = fault.refusal;
        let at = fault.offset(text);
        if place >= at {
            return (own.refusal(), at);
        }
    }
    (refusal, place)
}
