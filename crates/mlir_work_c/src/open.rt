//! Opens a session on the text of a module.
ghost use Rattle.std.specs.Prelude.{◌≡◌, [], IfOk, IfErr, IfSome, None};
ghost use Rattle.ir_event.specs.types.declared.refusal.Refusal.TheVariants.{Memory};
ghost use Rattle.ir_event.specs.Modules.{module_in};
ghost use Rattle.rewriter.specs.RewriterCalls.{AgreesOrStale, state_of};
ghost use Rattle.rewriter_machine.specs.Journals.{TracksRemovedKeys, HasNoStaleIds};
ghost use Rattle.mlir_work_analyses.specs.Listeners.{any_analysis};
ghost use Rattle.mlir_work_run.specs.Whole.{IsWorldOf, WhyNot};
ghost use Rattle.mlir_work_c.specs.Opened.{AllAttached, Opened, WhyNotOpened};

use crate::session::Session;
use ir_event::types::refusal::Refusal;
use ir_event::world::World;
use mlir_work_analyses::any_analysis::{AnyAnalysis, all_listeners};
use mlir_work_run::attach::attach_all;
use mlir_work_run::input::MAX_INPUT_BYTES;
use mlir_work_run::registry::PatternRegistry;
use mlir_work_run::run::{hold, tree_of};
use rewriter::Bench;
use std::alloc::Global;

/// Why a text can't be opened, and at which byte. There is no byte if memory ran out.
#[derive(Clone, Copy)]
pub struct OpenError {
    /// The refusal: a number from 1 to 14, or 36 if memory ran out.
    pub refusal: Refusal,
    /// The refused byte of the text.
    pub offset: Option<usize>,
}

/// Returns the error that memory ran out.
fn no_memory() -> OpenError
    ensures refusal { result.refusal ≡ Memory }
    ensures offset { result.offset ≡ None }
{
    OpenError {
        refusal: Refusal::Memory,
        offset: None,
    }
}

/// Parses a module's text and builds its IR state.
fn world_of(alloc: Global, key: u64, opaque: bool, text: &[u8]) -> Result<World, OpenError>
    ensures world { IfOk result (λ w. IsWorldOf opaque text.now (module_in w)) }
    ensures mode { IfOk result (λ w. w.ctx.opaque ≡ opaque) }
    ensures slotted { IfOk result (λ w. TracksRemovedKeys w.store) }
    ensures tidy { IfOk result (λ w. HasNoStaleIds w.store) }
    ensures unparsed { IfErr result (λ e. WhyNot opaque text.now e.refusal e.offset) }
{
    let (ctx, tree) = match tree_of(alloc, key, opaque, text) {
        Ok(found) => found,
        Err(unparsed) => {
            return Err(OpenError {
                refusal: unparsed.refusal,
                offset: unparsed.offset,
            });
        }
    };
    match hold(alloc, ctx, tree) {
        Some(world) => Ok(world),
        None => Err(no_memory()),
    }
}

/// Returns a rewriter on an IR state with all seven analyses attached, or `None` if one of them is refused.
fn rewriter_over(alloc: Global, world: World) -> Option<Bench<AnyAnalysis>>
    requires slotted { TracksRemovedKeys world.store }
    requires tidy { HasNoStaleIds world.store }
    ensures held { IfSome result (λ b. (state_of any_analysis b).held ≡ module_in world) }
    ensures unmarked { IfSome result (λ b. (state_of any_analysis b).marks ≡ []) }
    ensures attached { IfSome result (λ b. AllAttached world.ctx.opaque (state_of any_analysis b).panel) }
    ensures kept { IfSome result (λ b. AgreesOrStale any_analysis b) }
    ensures mode { IfSome result (λ b. b.transaction.ctx.opaque ≡ world.ctx.opaque) }
{
    let Ok(boxes) = all_listeners(alloc, world.ctx.is_opaque()) else {
        return None;
    };
    let mut bench = Bench::from_world(alloc, world);
    let mut refusals = Vec::new(alloc);
    match attach_all(&mut bench, boxes, &mut refusals) {
        Ok(true) => Some(bench),
        Ok(false) => None,
        Err(_) => None,
    }
}

/// Opens a session on the module of a text, without marks and with all seven analyses. `opaque` says whether
/// unregistered types and attributes are accepted as opaque ones, in the text and in each line.
///
/// Errors: the text is too long or malformed, or memory runs out.
pub fn open(
    alloc: Global,
    key: u64,
    limit: u32,
    opaque: bool,
    text: &[u8],
) -> Result<Session, OpenError>
    ensures opened { IfOk result (λ s. Opened opaque text.now limit s) }
    ensures kept { IfOk result (λ s. AgreesOrStale any_analysis s.bench) }
    ensures not_opened { IfErr result (λ e. WhyNotOpened opaque text.now e.refusal e.offset) }
{
    let bytes = text.len();
    if bytes > MAX_INPUT_BYTES {
        return Err(OpenError {
            refusal: Refusal::TooMany,
            offset: Some(MAX_INPUT_BYTES),
        });
    }
    let world = match world_of(alloc, key, opaque, text) {
        Ok(world) => world,
        Err(not_opened) => return Err(not_opened),
    };
    let Some(bench) = rewriter_over(alloc, world) else {
        return Err(no_memory());
    };
    let registry = PatternRegistry::new(alloc);
    Ok(Session {
        bench,
        registry,
        limit,
        bytes,
        shows: Vec::new(alloc),
    })
}
