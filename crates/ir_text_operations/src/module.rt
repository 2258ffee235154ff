//! Modules. Language Reference, "High-Level Structure"; Builtin Dialect, "builtin.module".
ghost use Rattle.std.specs.Prelude.{◌≡◌, ◌&&◌, ℕ, IfOk, IfErr, Err, Some, is_some};
ghost use Rattle.ir_types.specs.Interning.{with_name};
ghost use Rattle.ir_types.specs.Reasons.{name_reason};
ghost use Rattle.ir_types.specs.Things.{IsExtendedBy};
ghost use Rattle.ir_text_tokens.specs.declared.token.Mark.TheVariants.{End};
ghost use Rattle.ir_text_types.specs.Marks.{after};
ghost use Rattle.ir_types.specs.Terms.{name_term};
ghost use Rattle.ir_types.specs.Words.{is_table};
ghost use Rattle.ir_tree.specs.Meaning.{meaning, IsSoundIn, Operation};
ghost use Rattle.ir_tree.specs.Tree.{head};
ghost use Rattle.ir_text_tokens.specs.declared.fault.Fault.{Fault as TextFault};
ghost use Rattle.ir_text_operations.specs.Limits.{most_levels};
ghost use Rattle.ir_text_operations.specs.Spelling.{begins_module, is_root, module_word, Spells};
ghost use Rattle.ir_text_types.specs.Laws.{IsFull};
ghost use Rattle.ir_text_operations.specs.Filling.{RootFills, BodyFills, OpsFill};
ghost use Rattle.ir_text_operations.specs.Claims.{IsOnly, IsNone, IsRootOrNone, IsBody, IsSource, IsModuleTree, module_with};

use crate::limits::{MOST_LEVELS, MOST_OPS};
use crate::ops::{op, ops};
use crate::outer_names::{NoOuter, OuterScope};
use crate::places::is_outside;
use ir_text_names::scope::Scope;
use ir_text_names::spares::Spares;
use ir_text_tokens::fault::Fault;
use ir_text_tokens::lexer::token;
use ir_text_tokens::names::ScopedNames;
use ir_text_tokens::refusal::TextRefusal;
use ir_text_tokens::strings::string_value;
use ir_text_tokens::token::{Mark, Token};
use ir_text_types::error::{ReadError, within_limits, wrong};
use ir_text_types::full::check_full;
use ir_text_types::steps::after;
use ir_tree::check::check;
use ir_tree::numbered::numbered;
use ir_tree::sound::sound;
use ir_tree::tree::{TreeOp, TreeRegion};
use ir_types::context::Context;
use ir_types::ids::{NameId, OpId};
use ir_types::refusal::Refusal;
use std::alloc::{AllocError, Global};

/// The explicit root of a text; otherwise the fault that prevented one, or `None` if the text just has no explicit
/// root.
#[derive(Drop)]
pub enum Root {
    Explicit(TreeOp),
    Other(Option<Fault>),
}

/// Returns whether a text begins with the name of a module.
fn begins_module(alloc: Global, bytes: &[u8]) -> Result<bool, ReadError>
    ensures ok { IfOk result (λ b. b ≡ begins_module bytes.now) }
    ensures err { IfErr result (λ e. e ≡ ReadError.Memory) }
{
    let found = match token(bytes) {
        Ok((found, _)) => found,
        Err(_) => return Ok(false),
    };
    match found {
        Token::String(raw) => {
            let name = string_value(alloc, raw)?;
            Ok(name.as_slice() == b"builtin.module".as_slice())
        }
        _ => Ok(false),
    }
}

/// Returns whether an operation is a module without operands and results.
fn is_root(ctx: &Context, op: &TreeOp) -> bool
    ensures { result ≡ is_root (meaning ctx.now op.now) }
{
    ctx.table(op.name) && op.operands.is_empty() && op.results.is_empty()
}

/// Returns whether an operation is a module without operands and results, and the end of the text follows it.
fn is_whole(ctx: &Context, op: &TreeOp, rest: &[u8]) -> bool
    ensures { result ≡ (is_some (after End rest.now) && is_root (meaning ctx.now op.now)) }
{
    after(rest, Mark::End).is_some() && is_root(ctx, op)
}

/// Interns the name of a module and returns its id.
#[tactic(auto, using(ir_types::proofs::Growth::grows_refl, ir_types::proofs::Growth::grows_trans))]
fn module_name(ctx: &mut Context, rest: &[u8]) -> Result<NameId, ReadError>
    ensures ok { IfOk result (λ n. (n, ctx.new) ≡ with_name module_word ctx.old) }
    ensures err { (f : TextFault) → result ≡ Err (ReadError.Refused f) → ⊥ }
    ensures grows { IsExtendedBy ctx.old ctx.new }
    ensures full { (left : ℕ) → result ≡ Err (ReadError.Full left) → name_reason module_word ctx.old ≡ Some Refusal.TooMany }
{
    match ctx.name(b"builtin.module") {
        Ok(id) => Ok(id),
        Err(Refusal::TooMany) => Err(ReadError::Full(rest.len())),
        Err(_) => Err(ReadError::Memory),
    }
}

/// Parses the explicit root of a text, which is one module without operands and results.
#[tactic(auto, using(ir_types::proofs::Growth::grows_refl, ir_types::proofs::Growth::grows_trans))]
pub fn explicit(alloc: Global, ctx: &mut Context, bytes: &[u8]) -> Result<Root, ReadError>
    ensures ok { IfOk result (λ r. IsRootOrNone ctx.old.opaque bytes.now ctx.new r) }
    ensures err { (f : TextFault) → result ≡ Err (ReadError.Refused f) → ⊥ }
    ensures grows { IsExtendedBy ctx.old ctx.new }
    ensures full { (left : ℕ) → result ≡ Err (ReadError.Full left) → RootFills bytes.now ctx.old }
{
    ctx.sound();
    match begins_module(alloc, bytes) {
        Ok(true) => {}
        Ok(false) => return Ok(Root::Other(None)),
        Err(_) => return Err(ReadError::Memory),
    }
    let mut scope = Scope {
        names: ScopedNames::new(alloc, ctx.hasher()),
        next: 0,
        spares: Spares::new(alloc),
    };
    let around = OuterScope {
        outer: &NoOuter,
        last: MOST_OPS,
    };
    match op(alloc, &mut scope, ctx, &around, bytes, MOST_LEVELS) {
        Ok((tree, rest)) => {
            if is_whole(ctx, &tree, rest) {
                Ok(Root::Explicit(tree))
            } else {
                Ok(Root::Other(None))
            }
        }
        Err(ReadError::Refused(fault)) => Ok(Root::Other(Some(fault))),
        Err(e) => Err(e),
    }
}

/// Returns a module of these operations.
fn root_of(alloc: Global, name: NameId, body: Vec<TreeOp>) -> Result<TreeOp, AllocError>
    ensures { IfOk result (λ t. t ≡ module_with name body.items) }
{
    let args = Vec::new(alloc);
    let mut regions = Vec::new(alloc);
    regions.push(TreeRegion::Block { args, ops: body })?;
    Ok(TreeOp {
        id: OpId::new(0),
        name,
        operands: Vec::new(alloc),
        results: Vec::new(alloc),
        props: Vec::new(alloc),
        attrs: Vec::new(alloc),
        regions,
    })
}

/// Parses the operations of a text into an implicit root.
#[tactic(auto, using(ir_types::proofs::Growth::grows_refl, ir_types::proofs::Growth::grows_trans))]
pub fn implicit(alloc: Global, ctx: &mut Context, bytes: &[u8]) -> Result<TreeOp, ReadError>
    ensures read { IfOk result (λ t. IsOnly (IsBody ctx.old.opaque bytes.now) ctx.new t) }
    ensures refused { (f : TextFault) → result ≡ Err (ReadError.Refused f) → IsNone (IsBody ctx.old.opaque bytes.now) }
    ensures grows { IsExtendedBy ctx.old ctx.new }
    ensures full { (left : ℕ) → result ≡ Err (ReadError.Full left) → BodyFills bytes.now ctx.old }
{
    let name = match module_name(ctx, bytes) {
        Ok(name) => name,
        Err(e) => return Err(e),
    };
    ctx.sound();
    let mut scope = Scope {
        names: ScopedNames::new(alloc, ctx.hasher()),
        next: 1,
        spares: Spares::new(alloc),
    };
    let around = OuterScope {
        outer: &NoOuter,
        last: MOST_OPS,
    };
    let (body, _) = match ops(
        alloc,
        &mut scope,
        ctx,
        &around,
        Mark::End,
        bytes,
        MOST_LEVELS - 1,
    ) {
        Ok(found) => found,
        Err(e) => return Err(e),
    };
    match root_of(alloc, name, body) {
        Ok(tree) => Ok(tree),
        Err(_) => Err(ReadError::Memory),
    }
}

/// Returns the fault, with `Unexpected` for a label outside all regions.
pub(crate) fn fault_of_label(bytes: &[u8], fault: Fault) -> Fault {
    match fault.refusal {
        TextRefusal::MultipleBlocks if is_outside(bytes, fault.left) => Fault {
            refusal: TextRefusal::Unexpected,
            left: fault.left,
        },
        _ => fault,
    }
}

/// Returns the fault of the operations of a text if they are parsed without a root, or the fault at the end of the
/// text if they have none.
#[tactic(auto, using(ir_types::proofs::Growth::grows_refl, ir_types::proofs::Growth::grows_trans))]
fn without_root(
    alloc: Global,
    ctx: &mut Context,
    bytes: &[u8],
    fault: Fault,
) -> Result<Fault, ReadError>
    ensures grows { IsExtendedBy ctx.old ctx.new }
    ensures full { (left : ℕ) → result ≡ Err (ReadError.Full left) → OpsFill most_levels 0 bytes.now ctx.old }
{
    let mut scope = Scope {
        names: ScopedNames::new(alloc, ctx.hasher()),
        next: 0,
        spares: Spares::new(alloc),
    };
    let around = OuterScope {
        outer: &NoOuter,
        last: MOST_OPS,
    };
    match ops(
        alloc,
        &mut scope,
        ctx,
        &around,
        Mark::End,
        bytes,
        MOST_LEVELS,
    ) {
        Ok(_) => Ok(Fault {
            refusal: fault.refusal,
            left: 0,
        }),
        Err(ReadError::Refused(fault)) => Ok(fault_of_label(bytes, fault)),
        Err(e) => Err(e),
    }
}

/// Returns the fault of a text without an explicit root. A depth or a count that only the implicit root makes too
/// large is reported at the end of the text, and a label outside all regions as `Unexpected`.
pub fn as_written(
    alloc: Global,
    ctx: &mut Context,
    bytes: &[u8],
    fault: Fault,
) -> Result<Fault, ReadError>
    ensures grows { IsExtendedBy ctx.old ctx.new }
    ensures full { (left : ℕ) → result ≡ Err (ReadError.Full left) → OpsFill most_levels 0 bytes.now ctx.old }
{
    match fault.refusal {
        TextRefusal::TooDeep | TextRefusal::TooMany => without_root(alloc, ctx, bytes, fault),
        _ => Ok(fault_of_label(bytes, fault)),
    }
}

/// Parses the tree of a text, before its limits are checked.
#[tactic(auto, using(ir_types::proofs::Growth::grows_refl, ir_types::proofs::Growth::grows_trans))]
fn source(alloc: Global, ctx: &mut Context, bytes: &[u8]) -> Result<TreeOp, ReadError>
    ensures read { IfOk result (λ t. IsOnly (IsSource ctx.old.opaque bytes.now) ctx.new t) }
    ensures refused { (f : TextFault) → result ≡ Err (ReadError.Refused f) → IsNone (IsSource ctx.old.opaque bytes.now) }
    ensures grows { IsExtendedBy ctx.old ctx.new }
{
    let other = match explicit(alloc, ctx, bytes) {
        Ok(Root::Explicit(tree)) => return Ok(tree),
        Ok(Root::Other(other)) => other,
        Err(e) => return Err(e),
    };
    match implicit(alloc, ctx, bytes) {
        Ok(tree) => Ok(tree),
        Err(ReadError::Refused(fault)) => match other {
            Some(other) => Err(ReadError::Refused(other)),
            None => match as_written(alloc, ctx, bytes, fault) {
                Ok(fault) => Err(ReadError::Refused(fault)),
                Err(e) => Err(e),
            },
        },
        Err(e) => Err(e),
    }
}

/// Checks a tree that was parsed: its operands are visible, it is within all limits, its ids are 0, 1, .., and its
/// dictionaries are sorted.
pub fn check_dominance(alloc: Global, ctx: &Context, tree: &TreeOp) -> Result<(), ReadError>
    ensures ok { IfOk result (λ _. IsModuleTree ctx.now tree.now) }
    ensures refused { (f : TextFault) → result ≡ Err (ReadError.Refused f) → IsModuleTree ctx.now tree.now → ⊥ }
    ensures headroom { (left : ℕ) → result ≡ Err (ReadError.Full left) → ⊥ }
{
    match check(alloc, ctx, tree) {
        Ok(()) => {}
        Err(Refusal::Memory) => return Err(ReadError::Memory),
        Err(refusal) => {
            return Err(ReadError::Refused(Fault {
                refusal: TextRefusal::from_refusal(refusal),
                left: 0,
            }));
        }
    }
    if !numbered(tree, 0) || !sound(ctx, tree) {
        return Err(ReadError::Refused(Fault {
            refusal: TextRefusal::Unexpected,
            left: 0,
        }));
    }
    Ok(())
}

/// Parses the tree of a text. The error may be `Full` even if the context isn't full.
#[tactic(auto, using(ir_types::proofs::Growth::grows_refl, ir_types::proofs::Growth::grows_trans))]
fn tree_of_text(alloc: Global, ctx: &mut Context, bytes: &[u8]) -> Result<TreeOp, ReadError>
    ensures read { IfOk result (λ t. IsOnly (Spells ctx.old.opaque bytes.now) ctx.new t) }
    ensures sound { IfOk result (λ t. IsSoundIn ctx.new t) }
    ensures refused { (f : TextFault) → result ≡ Err (ReadError.Refused f) → IsNone (Spells ctx.old.opaque bytes.now) }
    ensures grows { IsExtendedBy ctx.old ctx.new }
{
    match within_limits(bytes) {
        Ok(()) => {}
        Err(error) => return Err(error),
    }
    let tree = match source(alloc, ctx, bytes) {
        Ok(tree) => tree,
        Err(e) => return Err(e),
    };
    match check_dominance(alloc, ctx, &tree) {
        Ok(()) => Ok(tree),
        Err(e) => Err(e),
    }
}

/// Parses the tree of a text. Its ids are 0, 1, .. in pre-order, and its names, types and attributes are interned.
/// The context only grows, on success and on errors. If the text is one `builtin.module` without operands and
/// results, that module is the root; otherwise the text is the body of an implicit root (Language Reference,
/// "High-Level Structure").
///
/// Refusals: those of texts and tokens; `Unexpected`, `UnknownValue`, `Redefined`, `TypeMismatch`, `BadWidth`,
/// `BadValue`, `MultipleBlocks`, `Successors`, `TooDeep`, `TooMany`, `DuplicateKey` and `LeftOut`, each with the
/// number of bytes left at the fault. `Full` is returned if the context fills up, and `Memory` if memory runs out.
pub fn read(alloc: Global, ctx: &mut Context, bytes: &[u8]) -> Result<TreeOp, ReadError>
    ensures read { IfOk result (λ t. IsOnly (Spells ctx.old.opaque bytes.now) ctx.new t) }
    ensures sound { IfOk result (λ t. IsSoundIn ctx.new t) }
    ensures refused { (f : TextFault) → result ≡ Err (ReadError.Refused f) → IsNone (Spells ctx.old.opaque bytes.now) }
    ensures grows { IsExtendedBy ctx.old ctx.new }
    ensures full { (left : ℕ) → result ≡ Err (ReadError.Full left) → IsFull ctx.new }
{
    match tree_of_text(alloc, ctx, bytes) {
        Ok(tree) => Ok(tree),
        Err(e) => Err(check_full(ctx, e)),
    }
}
