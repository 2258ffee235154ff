//! Replies to texts that can't be parsed.
ghost use Rattle.std.specs.Prelude.{◌≡◌, ◌≤◌, ◌⊎◌, ℕ, Bool, List, IsTrue};
ghost use Rattle.ir_event.specs.types.Refusals.{number_of};
ghost use Rattle.ir_event.specs.types.declared.refusal.Refusal.{Refusal as Reason};
ghost use Rattle.ir_event.specs.types.declared.refusal.Refusal.TheVariants.{IdsExhausted as IdsRefusal};
ghost use Rattle.ir_event.specs.types.declared.refusal.Refusal.TheVariants.{Memory as MemoryRefusal};
ghost use Rattle.ir_event.specs.Modules.{Module as Contents};
ghost use Rattle.ir_text.specs.Public.{IsOpRefusal as IsOpReported, IsTextRefusal};
ghost use Rattle.ir_text.specs.declared.error.ReadError.{ReadError as Unparsed};
ghost use Rattle.ir_text.specs.Public.{IsNoAttr};
ghost use Rattle.ir_text.specs.Public.{SpellsAttr};
ghost use Rattle.ir_text.specs.Public.{IsNone};
ghost use Rattle.mlir_work_transforms.specs.rewriter.Texts.{SpellsNextTo};
ghost use Rattle.mlir_work_transforms.specs.rewriter.Commands.{CanFill, IsAttrRefusal};
ghost use Rattle.mlir_work_transforms.specs.rewriter.Commands.{IsOpRefusal, Replied, TextRefusedAt};
ghost use Rattle.mlir_work_transforms.specs.rewriter.Machine.{Refused};
ghost use Rattle.mlir_work_transforms.specs.registry.Replies.{IsBounded};
ghost use Rattle.mlir_work_session.specs.Texts.{NotRead};
ghost use Rattle.mlir_work_session.specs.Machine.{response_of};

use crate::reply::Reply;
use ir_event::types::limits::MOST_THINGS;
use ir_event::types::refusal::Refusal;
use ir_text::reader::ReadError;

/// The number of names in a new context.
const WORDS: usize = 54;

/// Returns the reply for a text that was refused at a byte. A refusal because ids ran out gives no byte.
fn refused_at(refusal: Refusal, offset: usize) -> Reply
    ensures attr { (bytes : ℕ) (opaque : Bool) (text : List ℕ) → number_of refusal ≤ 14 → IsNoAttr (SpellsAttr opaque text) → NotRead bytes IsAttrRefusal (SpellsAttr opaque text) (response_of result) }
    ensures op { (bytes : ℕ) (opaque : Bool) (m : Contents) (text : List ℕ) → (number_of refusal ≤ 14) ⊎ (refusal ≡ IdsRefusal) → IsNone (SpellsNextTo opaque m text) → NotRead bytes IsOpRefusal (SpellsNextTo opaque m text) (response_of result) }
{
    if refusal == Refusal::IdsExhausted {
        return Reply::Refused(refusal);
    }
    Reply::RefusedAt(refusal, offset)
}

/// Returns whether an input of `bytes` bytes can fill a context. A context starts with `WORDS` names, and each new
/// name, type or attribute takes at least one byte of input.
fn can_fill(bytes: usize) -> bool
    ensures { IsTrue result → CanFill bytes }
{
    bytes >= MOST_THINGS as usize - WORDS
}

/// Returns the reply if the context has no room for a name, type or attribute of the text. An input too short to fill
/// a context can't get here, so its reply says that memory ran out.
fn full_at(bytes: usize, offset: usize) -> Reply
    ensures attr { (opaque : Bool) (text : List ℕ) → NotRead bytes IsAttrRefusal (SpellsAttr opaque text) (response_of result) }
    ensures op { (opaque : Bool) (m : Contents) (text : List ℕ) → NotRead bytes IsOpRefusal (SpellsNextTo opaque m text) (response_of result) }
{
    if can_fill(bytes) {
        Reply::RefusedAt(Refusal::TooMany, offset)
    } else {
        Reply::Refused(Refusal::Memory)
    }
}

/// Returns the reply for a text that can't be parsed; `bytes` is the length of the whole input.
pub(crate) fn reply_unparsed(bytes: usize, error: &ReadError) -> Reply
    ensures attr { (opaque : Bool) (text : List ℕ) → IsTextRefusal text error.now → ((r : Reason) (o : ℕ) → error.now ≡ Unparsed.Refused r o → IsNoAttr (SpellsAttr opaque text)) → NotRead bytes IsAttrRefusal (SpellsAttr opaque text) (response_of result) }
    ensures op { (opaque : Bool) (m : Contents) (text : List ℕ) → IsOpReported text error.now → ((r : Reason) (o : ℕ) → error.now ≡ Unparsed.Refused r o → IsNone (SpellsNextTo opaque m text)) → NotRead bytes IsOpRefusal (SpellsNextTo opaque m text) (response_of result) }
{
    match *error {
        ReadError::Memory => Reply::Refused(Refusal::Memory),
        ReadError::Full { offset } => full_at(bytes, offset),
        ReadError::Refused { refusal, offset } => refused_at(refusal, offset),
    }
}

/// Returns the reply, and replaces it by `Memory` if it has an offset past `bytes`. The replacement never happens: a
/// refused text is a part of the input, so its offset is in range.
pub(crate) fn reply_within(bytes: usize, reply: Reply) -> Reply
    ensures bounded { IsBounded bytes (response_of result) }
    ensures same { (response_of result ≡ response_of reply) ⊎ ((refusal : Reason) × (offset : ℕ) × (response_of reply ≡ TextRefusedAt refusal offset) × (response_of result ≡ Replied (Refused MemoryRefusal))) }
{
    match reply {
        Reply::RefusedAt(_, offset) => {
            if offset <= bytes {
                reply
            } else {
                Reply::Refused(Refusal::Memory)
            }
        }
        _ => reply,
    }
}
