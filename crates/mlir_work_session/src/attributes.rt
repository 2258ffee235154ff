//! Attribute keys and attribute texts of commands: parses an attribute text and interns a key.
ghost use Rattle.std.specs.Prelude.{◌≡◌, ℕ, Err, IfOk, IfErr, IfSome};
ghost use Rattle.ir_event.specs.types.Things.{IsName, IsAttr};
ghost use Rattle.ir_event.specs.types.Terms.{name_term, attr_term};
ghost use Rattle.ir_event.specs.types.declared.refusal.Refusal.{Refusal as Reason};
ghost use Rattle.ir_text.specs.Public.{IsTextRefusal};
ghost use Rattle.ir_text.specs.Public.{IsNoAttr};
ghost use Rattle.ir_text.specs.Public.{SpellsAttr};
ghost use Rattle.mlir_work_script_base.specs.Keys.{key_bytes};
ghost use Rattle.mlir_work_transforms.specs.rewriter.Commands.{IsAttrRefusal};
ghost use Rattle.mlir_work_session.specs.Texts.{Grown, NotRead};
ghost use Rattle.mlir_work_session.specs.Machine.{response_of};

use crate::parse_error::reply_unparsed;
use crate::reply::Reply;
use ir_event::analysis::Analysis;
use ir_event::types::ids::{AttrId, NameId};
use ir_event::types::refusal::Refusal;
use ir_text::reader::ReadError;
use mlir_work_script_base::keys::{Key, bytes_of};
use mlir_work_transforms::rewriter::Bench;
use mlir_work_transforms::rewriter::laws::led_benches_are_kept;
use std::alloc::Global;

/// Parses an attribute text.
fn parse<L: Analysis>(bench: &mut Bench<L>, text: &[u8]) -> Result<AttrId, ReadError>
    ensures attr { IfOk result (λ a. IsAttr bench.new.transaction.ctx a × SpellsAttr bench.old.transaction.ctx.opaque text.now (attr_term bench.new.transaction.ctx a)) }
    ensures refused { (r : Reason) (o : ℕ) → result ≡ Err (ReadError.Refused r o) → IsNoAttr (SpellsAttr bench.old.transaction.ctx.opaque text.now) }
    ensures reported { IfErr result (λ e. IsTextRefusal text.now e) }
    ensures grown { Grown L.meaning bench.old bench.new }
{
    led_benches_are_kept::<L>();
    bench.world().ctx.sound();
    let read = bench.parse_attr(text);
    bench.world().ctx.sound();
    read
}

/// Parses an attribute text. Returns the reply to write if parsing fails; `bytes` is the length of the whole input.
fn attribute_of<L: Analysis>(
    bytes: usize,
    bench: &mut Bench<L>,
    text: &[u8],
) -> Result<AttrId, Reply>
    ensures attr { IfOk result (λ a. IsAttr bench.new.transaction.ctx a × SpellsAttr bench.old.transaction.ctx.opaque text.now (attr_term bench.new.transaction.ctx a)) }
    ensures unparsed { IfErr result (λ reply. NotRead bytes IsAttrRefusal (SpellsAttr bench.old.transaction.ctx.opaque text.now) (response_of reply)) }
    ensures grown { Grown L.meaning bench.old bench.new }
{
    match parse(bench, text) {
        Ok(attribute) => Ok(attribute),
        Err(error) => Err(reply_unparsed(bytes, &error)),
    }
}

/// Interns a name in the context and returns its number, or `None` if memory or the name table runs out.
fn intern<L: Analysis>(bench: &mut Bench<L>, bytes: &[u8]) -> Option<NameId>
    ensures name { IfSome result (λ k. IsName bench.new.transaction.ctx k × (name_term bench.new.transaction.ctx k ≡ bytes.now)) }
    ensures grown { Grown L.meaning bench.old bench.new }
{
    led_benches_are_kept::<L>();
    bench.world().ctx.sound();
    let named = bench.name(bytes);
    bench.world().ctx.sound();
    match named {
        Ok(name) => Some(name),
        Err(_) => None,
    }
}

/// Interns the name of a key and returns its number, or `None` if there is no room for the name.
pub(crate) fn name_of<L: Analysis>(
    alloc: Global,
    bench: &mut Bench<L>,
    key: &Key<'_>,
) -> Option<NameId>
    ensures name { IfSome result (λ k. IsName bench.new.transaction.ctx k × (name_term bench.new.transaction.ctx k ≡ key_bytes key.now)) }
    ensures grown { Grown L.meaning bench.old bench.new }
{
    led_benches_are_kept::<L>();
    bench.world().ctx.sound();
    let Ok(bytes) = bytes_of(alloc, key) else {
        return None;
    };
    intern(bench, &bytes)
}

/// Interns a key and parses its attribute text. Returns the reply to write if the text is refused or there is no room
/// for the key.
pub(crate) fn entry_of<L: Analysis>(
    alloc: Global,
    bytes: usize,
    bench: &mut Bench<L>,
    key: &Key<'_>,
    text: &[u8],
) -> Result<(NameId, AttrId), Reply>
    ensures key { IfOk result (λ x. IsName bench.new.transaction.ctx x.0 × (name_term bench.new.transaction.ctx x.0 ≡ key_bytes key.now)) }
    ensures attr { IfOk result (λ x. IsAttr bench.new.transaction.ctx x.1 × SpellsAttr bench.old.transaction.ctx.opaque text.now (attr_term bench.new.transaction.ctx x.1)) }
    ensures unparsed { IfErr result (λ reply. NotRead bytes IsAttrRefusal (SpellsAttr bench.old.transaction.ctx.opaque text.now) (response_of reply)) }
    ensures grown { Grown L.meaning bench.old bench.new }
{
    let attribute = match attribute_of(bytes, bench, text) {
        Ok(attribute) => attribute,
        Err(reply) => return Err(reply),
    };
    let Some(name) = name_of(alloc, bench, key) else {
        return Err(Reply::Refused(Refusal::Memory));
    };
    Ok((name, attribute))
}
