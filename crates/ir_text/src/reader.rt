//! Reads modules, operations and attributes. `read` reads a module into an existing context, and `read_new` into a
//! new one.
ghost use Rattle.std.specs.Prelude.{◌≡◌, ℕ, IfOk, IfErr, IfSome, Err};
ghost use Rattle.ir_types.specs.Things.{IsType, IsExtendedBy};
ghost use Rattle.ir_tree.specs.declared.value.Value.{Value as TreeValue};
ghost use Rattle.ir_tree.specs.Meaning.{IsSoundIn};
ghost use Rattle.ir_text_types.specs.Laws.{IsFull};
ghost use Rattle.ir_text_operations.specs.attributes.Spelling.{SpellsAttr};
ghost use Rattle.ir_text_operations.specs.attributes.Claims.{IsOnlyAttr, IsNoAttr};
ghost use Rattle.ir_text_operations.specs.Free.{free_term};
ghost use Rattle.ir_text_operations.specs.Spelling.{Spells, SpellsOp};
ghost use Rattle.ir_text_operations.specs.Claims.{IsOnly, IsNone};
ghost use Rattle.ir_text.specs.Answers.{IsTextRefusal, IsOpRefusal};

use crate::alone::tree_alone;
pub use crate::error::ReadError;
use ir_text_operations::attributes::single as attributes;
use ir_text_operations::module;
use ir_text_operations::single::{self, OpError};
use ir_tree::outer::Outer;
use ir_tree::tree::TreeOp;
use ir_types::context::Context;
use ir_types::ids::AttrId;
use ir_types::refusal::Refusal;
use std::alloc::Global;

/// Returns the only tree that a text denotes. Its ids are 0, 1, .. in pre-order, and its names, types and attributes
/// are interned. The context only grows, on success and on errors. If the text is one `builtin.module` without
/// operands and results, that module is the root; otherwise the text is the body of an implicit root (Language
/// Reference, "High-Level Structure").
///
/// `Refused` has the reason and its byte offset; such a text denotes no tree. Refusals: `BadToken`, `Unexpected`,
/// `UnknownValue`, `Redefined`, `TypeMismatch`, `BadWidth`, `BadValue`, `MultipleBlocks`, `Successors`, `TooDeep`,
/// `TooMany`, `DuplicateKey`, `LeftOut`, `NotUtf8`. `Full` is returned if the context fills up, and `Memory` if
/// memory runs out.
pub fn read(alloc: Global, ctx: &mut Context, bytes: &[u8]) -> Result<TreeOp, ReadError>
    ensures read { IfOk result (λ t. IsOnly (Spells ctx.old.opaque bytes.now) ctx.new t) }
    ensures sound { IfOk result (λ t. IsSoundIn ctx.new t) }
    ensures refused { (r : Refusal) (o : ℕ) → result ≡ Err (ReadError.Refused r o) → IsNone (Spells ctx.old.opaque bytes.now) }
    ensures reported { IfErr result (λ e. IsTextRefusal bytes.now e) }
    ensures grows { IsExtendedBy ctx.old ctx.new }
    ensures full { (o : ℕ) → result ≡ Err (ReadError.Full o) → IsFull ctx.new }
{
    match module::read(alloc, ctx, bytes) {
        Ok(tree) => Ok(tree),
        Err(e) => Err(ReadError::at(e, bytes)),
    }
}

/// Returns the tree of a text, and a new context for it. The ids are 0, 1, .. in pre-order. If the text is one
/// `builtin.module` without operands and results, that module is the root; otherwise the text is the body of an
/// implicit root.
///
/// `key` is the hash key of the context; no result depends on it. Choose a key that the author of the text doesn't
/// know, so that names can't be made to collide. `opaque` says whether unknown types and attributes are read as
/// opaque ones, here and in every later text that is read into the context.
///
/// Refusals: those of `read`. `Full` is never returned: no text within its limit fills a new context.
pub fn read_new(
    alloc: Global,
    key: u64,
    opaque: bool,
    bytes: &[u8],
) -> Result<(Context, TreeOp), ReadError>
    ensures read { IfOk result (λ x. IsOnly (Spells opaque bytes.now) x.0 x.1) }
    ensures sound { IfOk result (λ x. IsSoundIn x.0 x.1) }
    ensures mode { IfOk result (λ x. x.0.opaque ≡ opaque) }
    ensures refused { (r : Refusal) (o : ℕ) → result ≡ Err (ReadError.Refused r o) → IsNone (Spells opaque bytes.now) }
    ensures reported { IfErr result (λ e. IsTextRefusal bytes.now e) }
    ensures headroom { (o : ℕ) → result ≡ Err (ReadError.Full o) → ⊥ }
{
    match tree_alone(alloc, key, opaque, bytes) {
        Ok(found) => Ok(found),
        Err(e) => Err(ReadError::at(e, bytes)),
    }
}

/// Returns the operation of a text, which has nothing after the operation. The ids are in pre-order from the outer
/// module's next id on, each less than 4,294,967,295. Names, types and attributes are interned; the context only
/// grows, on success and on errors. An unbound name of the form `%v12.0` or `%a12.0.1` denotes that value of the
/// outer module, also inside an isolated operation.
///
/// Refusals: those of `read` except those of a root, and `IdsExhausted` at the end of the text if there is no other.
/// `Full` is returned if the context fills up.
pub fn read_op<O: Outer>(
    alloc: Global,
    ctx: &mut Context,
    bytes: &[u8],
    outer: &O,
) -> Result<TreeOp, ReadError>
    requires { (v : TreeValue) → IfSome (O.types outer.now v) (λ ty. IsType ctx.old ty) }
    ensures read { IfOk result (λ t. IsOnly (SpellsOp ctx.old.opaque (free_term (O.types outer.now) ctx.old) (O.next outer.now) bytes.now) ctx.new t) }
    ensures sound { IfOk result (λ t. IsSoundIn ctx.new t) }
    ensures refused { (r : Refusal) (o : ℕ) → result ≡ Err (ReadError.Refused r o) → IsNone (SpellsOp ctx.old.opaque (free_term (O.types outer.now) ctx.old) (O.next outer.now) bytes.now) }
    ensures reported { IfErr result (λ e. IsOpRefusal bytes.now e) }
    ensures grows { IsExtendedBy ctx.old ctx.new }
    ensures full { (o : ℕ) → result ≡ Err (ReadError.Full o) → IsFull ctx.new }
{
    match single::read_op(alloc, ctx, bytes, outer) {
        Ok(tree) => Ok(tree),
        Err(OpError::Text(e)) => Err(ReadError::at(e, bytes)),
        Err(OpError::IdsExhausted) => Err(ReadError::Refused {
            refusal: Refusal::IdsExhausted,
            offset: bytes.len(),
        }),
    }
}

/// Returns the attribute of a text, which has nothing after the attribute. The attribute and its parts are interned;
/// the context only grows, on success and on errors.
///
/// `Refused` has the reason and its byte offset; such a text denotes no attribute. Refusals: `TooMany` for a text
/// over its limit, and `NotUtf8`; those of attributes; `Unexpected` for a token after the attribute. `Full` is
/// returned if the context fills up, and `Memory` if memory runs out.
pub fn parse_attr(alloc: Global, ctx: &mut Context, bytes: &[u8]) -> Result<AttrId, ReadError>
    ensures read { IfOk result (λ n. IsOnlyAttr (SpellsAttr ctx.old.opaque bytes.now) ctx.new n) }
    ensures grows { IsExtendedBy ctx.old ctx.new }
    ensures refused { (r : Refusal) (o : ℕ) → result ≡ Err (ReadError.Refused r o) → IsNoAttr (SpellsAttr ctx.old.opaque bytes.now) }
    ensures reported { IfErr result (λ e. IsTextRefusal bytes.now e) }
    ensures full { (o : ℕ) → result ≡ Err (ReadError.Full o) → IsFull ctx.new }
{
    let opaque = ctx.is_opaque();
    match attributes::parse_attr(alloc, ctx, bytes, opaque) {
        Ok(id) => Ok(id),
        Err(e) => Err(ReadError::at(e, bytes)),
    }
}
