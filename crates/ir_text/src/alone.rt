//! Reads the text of a module into a new context. Language Reference, "High-Level Structure".
ghost use Rattle.std.specs.Prelude.{◌≡◌, ℕ, IfOk, IfErr, Err};
ghost use Rattle.ir_tree.specs.Meaning.{IsSoundIn};
ghost use Rattle.ir_text_tokens.specs.declared.fault.Fault.{Fault as TextFault};
ghost use Rattle.ir_text_operations.specs.Claims.{IsOnly, IsNone, IsRootOrNone, IsBody, IsSource};
ghost use Rattle.ir_text_operations.specs.Filling.{new_things, RootFills, BodyFills, OpsFill, Fills};
ghost use Rattle.ir_text_operations.specs.Limits.{most_levels};
ghost use Rattle.ir_text_operations.specs.Spelling.{Spells};

use ir_text_operations::module::{Root, as_written, check_dominance, explicit, implicit};
use ir_text_tokens::fault::Fault;
use ir_text_types::error::{ReadError, within_limits};
use ir_tree::tree::TreeOp;
use ir_types::context::Context;
use std::alloc::Global;

/// Returns a context that has only the words of the operation table. `key` is its hash key.
fn new_context(alloc: Global, key: u64, opaque: bool) -> Result<Context, ReadError>
    ensures ok { IfOk result (λ c. c ≡ new_things opaque) }
    ensures err { IfErr result (λ e. e ≡ ReadError.Memory) }
{
    match Context::in_mode(alloc, key, opaque) {
        Ok(ctx) => Ok(ctx),
        Err(_) => Err(ReadError::Memory),
    }
}

/// Parses the explicit root of a text, which is one module without operands and results.
fn root_alone(
    alloc: Global,
    key: u64,
    opaque: bool,
    bytes: &[u8],
) -> Result<(Context, Root), ReadError>
    ensures ok { IfOk result (λ x. IsRootOrNone opaque bytes.now x.0 x.1) }
    ensures mode { IfOk result (λ x. x.0.opaque ≡ opaque) }
    ensures err { (f : TextFault) → result ≡ Err (ReadError.Refused f) → ⊥ }
    ensures full { (left : ℕ) → result ≡ Err (ReadError.Full left) → RootFills bytes.now (new_things opaque) }
{
    let mut ctx = match new_context(alloc, key, opaque) {
        Ok(ctx) => ctx,
        Err(_) => return Err(ReadError::Memory),
    };
    match explicit(alloc, &mut ctx, bytes) {
        Ok(root) => Ok((ctx, root)),
        Err(e) => Err(e),
    }
}

/// Parses the operations of a text into an implicit root.
fn body_alone(
    alloc: Global,
    key: u64,
    opaque: bool,
    bytes: &[u8],
) -> Result<(Context, TreeOp), ReadError>
    ensures read { IfOk result (λ x. IsOnly (IsBody opaque bytes.now) x.0 x.1) }
    ensures mode { IfOk result (λ x. x.0.opaque ≡ opaque) }
    ensures refused { (f : TextFault) → result ≡ Err (ReadError.Refused f) → IsNone (IsBody opaque bytes.now) }
    ensures full { (left : ℕ) → result ≡ Err (ReadError.Full left) → BodyFills bytes.now (new_things opaque) }
{
    let mut ctx = match new_context(alloc, key, opaque) {
        Ok(ctx) => ctx,
        Err(_) => return Err(ReadError::Memory),
    };
    match implicit(alloc, &mut ctx, bytes) {
        Ok(tree) => Ok((ctx, tree)),
        Err(e) => Err(e),
    }
}

/// Returns the fault to report for a text without an explicit root.
fn fault_alone(
    alloc: Global,
    key: u64,
    opaque: bool,
    bytes: &[u8],
    fault: Fault,
) -> Result<Fault, ReadError>
    ensures { (left : ℕ) → result ≡ Err (ReadError.Full left) → OpsFill most_levels 0 bytes.now (new_things opaque) }
{
    let mut ctx = match new_context(alloc, key, opaque) {
        Ok(ctx) => ctx,
        Err(_) => return Err(ReadError::Memory),
    };
    match as_written(alloc, &mut ctx, bytes, fault) {
        Ok(fault) => Ok(fault),
        Err(e) => Err(e),
    }
}

/// Parses the operations of a text that has no explicit root into an implicit one. If both fail, the fault of the
/// explicit root is returned first.
fn without_root(
    alloc: Global,
    key: u64,
    opaque: bool,
    bytes: &[u8],
    other: Option<Fault>,
) -> Result<(Context, TreeOp), ReadError>
    ensures read { IfOk result (λ x. IsOnly (IsBody opaque bytes.now) x.0 x.1) }
    ensures mode { IfOk result (λ x. x.0.opaque ≡ opaque) }
    ensures refused { (f : TextFault) → result ≡ Err (ReadError.Refused f) → IsNone (IsBody opaque bytes.now) }
    ensures full { (left : ℕ) → result ≡ Err (ReadError.Full left) → Fills opaque bytes.now }
{
    match body_alone(alloc, key, opaque, bytes) {
        Ok(found) => Ok(found),
        Err(ReadError::Refused(fault)) => match other {
            Some(other) => Err(ReadError::Refused(other)),
            None => match fault_alone(alloc, key, opaque, bytes, fault) {
                Ok(fault) => Err(ReadError::Refused(fault)),
                Err(e) => Err(e),
            },
        },
        Err(e) => Err(e),
    }
}

/// Parses the tree of a text, before its limits are checked.
fn source_alone(
    alloc: Global,
    key: u64,
    opaque: bool,
    bytes: &[u8],
) -> Result<(Context, TreeOp), ReadError>
    ensures read { IfOk result (λ x. IsOnly (IsSource opaque bytes.now) x.0 x.1) }
    ensures mode { IfOk result (λ x. x.0.opaque ≡ opaque) }
    ensures refused { (f : TextFault) → result ≡ Err (ReadError.Refused f) → IsNone (IsSource opaque bytes.now) }
    ensures full { (left : ℕ) → result ≡ Err (ReadError.Full left) → Fills opaque bytes.now }
{
    let (ctx, root) = match root_alone(alloc, key, opaque, bytes) {
        Ok(found) => found,
        Err(e) => return Err(e),
    };
    match root {
        Root::Explicit(tree) => Ok((ctx, tree)),
        Root::Other(other) => without_root(alloc, key, opaque, bytes, other),
    }
}

/// Returns the tree of a text, and a new context for it. No text within its limit fills the context.
pub(crate) fn tree_alone(
    alloc: Global,
    key: u64,
    opaque: bool,
    bytes: &[u8],
) -> Result<(Context, TreeOp), ReadError>
    ensures read { IfOk result (λ x. IsOnly (Spells opaque bytes.now) x.0 x.1) }
    ensures mode { IfOk result (λ x. x.0.opaque ≡ opaque) }
    ensures sound { IfOk result (λ x. IsSoundIn x.0 x.1) }
    ensures refused { (f : TextFault) → result ≡ Err (ReadError.Refused f) → IsNone (Spells opaque bytes.now) }
    ensures headroom { (left : ℕ) → result ≡ Err (ReadError.Full left) → ⊥ }
{
    match within_limits(bytes) {
        Ok(()) => {}
        Err(error) => return Err(error),
    }
    let (ctx, tree) = match source_alone(alloc, key, opaque, bytes) {
        Ok(found) => found,
        Err(e) => return Err(e),
    };
    match check_dominance(alloc, &ctx, &tree) {
        Ok(()) => Ok((ctx, tree)),
        Err(e) => Err(e),
    }
}
