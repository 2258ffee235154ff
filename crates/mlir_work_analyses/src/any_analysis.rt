//! The seven analyses as one type. A list of it needs no boxes, and a C struct can store it, unlike `dyn Analysis`.
ghost use Rattle.std.specs.Prelude.{◌≡◌, ◌++◌, IfOk};
ghost use Rattle.rewriter_machine.specs.Panels.{all_shown};
ghost use Rattle.mlir_work_analyses.specs.Listeners.{AreListed, AreSeven, any_analysis, is_listed, seven_supply, shown_if};
ghost use Rattle.mlir_work_analyses.specs.Listeners as the;

use constants::constants::Constants;
use effects::dead::Dead;
use effects::effects::Effects;
use ir_event::analysis::Analysis;
use ir_event::event::Event;
use ir_event::row::{Kind, Memory, ReportFault, Row};
use ir_event::subject::Subject;
use ir_event::view::View;
use ir_event::world::World;
use ir_verify::diagnostics::Diagnostics;
use listeners::unreached::Unreached;
use listeners::uses::Uses;
use listeners::{Definers, Symbols};
use mlir_work_script_base::kind::KINDS;
use mlir_work_session_base::analysis_source::AnalysisSource;
use std::alloc::{AllocError, Global};

/// One of the seven analyses.
pub enum AnyAnalysis {
    Uses(Uses),
    Symbols(Symbols),
    Diagnostics(Diagnostics),
    Effects(Effects),
    Dead(Dead),
    Constants(Constants),
    Unreached(Unreached),
}

impl Drop for AnyAnalysis {
    /// Frees the analysis. It is written out, so that the crates above call one function.
    fn drop(self) {
        match self {
            AnyAnalysis::Uses(listener) => drop(listener),
            AnyAnalysis::Symbols(listener) => drop(listener),
            AnyAnalysis::Diagnostics(listener) => drop(listener),
            AnyAnalysis::Effects(listener) => drop(listener),
            AnyAnalysis::Dead(listener) => drop(listener),
            AnyAnalysis::Constants(listener) => drop(listener),
            AnyAnalysis::Unreached(listener) => drop(listener),
        }
    }
}

impl Analysis for AnyAnalysis {
    ghost use Rattle.mlir_work_analyses.specs.Listeners.{any_analysis};

    ghost meaning = { any_analysis };

    fn kind(&self) -> Kind {
        match self {
            AnyAnalysis::Uses(it) => it.kind(),
            AnyAnalysis::Symbols(it) => it.kind(),
            AnyAnalysis::Diagnostics(it) => it.kind(),
            AnyAnalysis::Effects(it) => it.kind(),
            AnyAnalysis::Dead(it) => it.kind(),
            AnyAnalysis::Constants(it) => it.kind(),
            AnyAnalysis::Unreached(it) => it.kind(),
        }
    }

    fn begin(&mut self, world: &World) -> Result<(), Memory> {
        match self {
            AnyAnalysis::Uses(it) => it.begin(world),
            AnyAnalysis::Symbols(it) => it.begin(world),
            AnyAnalysis::Diagnostics(it) => it.begin(world),
            AnyAnalysis::Effects(it) => it.begin(world),
            AnyAnalysis::Dead(it) => it.begin(world),
            AnyAnalysis::Constants(it) => it.begin(world),
            AnyAnalysis::Unreached(it) => it.begin(world),
        }
    }

    fn told<'a>(&mut self, view: View<'a>, event: Event) -> View<'a> {
        match self {
            AnyAnalysis::Uses(it) => it.told(view, event),
            AnyAnalysis::Symbols(it) => it.told(view, event),
            AnyAnalysis::Diagnostics(it) => it.told(view, event),
            AnyAnalysis::Effects(it) => it.told(view, event),
            AnyAnalysis::Dead(it) => it.told(view, event),
            AnyAnalysis::Constants(it) => it.told(view, event),
            AnyAnalysis::Unreached(it) => it.told(view, event),
        }
    }

    fn stale(&self) -> bool {
        match self {
            AnyAnalysis::Uses(it) => it.stale(),
            AnyAnalysis::Symbols(it) => it.stale(),
            AnyAnalysis::Diagnostics(it) => it.stale(),
            AnyAnalysis::Effects(it) => it.stale(),
            AnyAnalysis::Dead(it) => it.stale(),
            AnyAnalysis::Constants(it) => it.stale(),
            AnyAnalysis::Unreached(it) => it.stale(),
        }
    }

    fn report(&self) -> Result<Vec<Row>, ReportFault> {
        match self {
            AnyAnalysis::Uses(it) => it.report(),
            AnyAnalysis::Symbols(it) => it.report(),
            AnyAnalysis::Diagnostics(it) => it.report(),
            AnyAnalysis::Effects(it) => it.report(),
            AnyAnalysis::Dead(it) => it.report(),
            AnyAnalysis::Constants(it) => it.report(),
            AnyAnalysis::Unreached(it) => it.report(),
        }
    }

    fn report_about(&self, world: &World, subject: &Subject) -> Result<Vec<Row>, ReportFault> {
        match self {
            AnyAnalysis::Uses(it) => it.report_about(world, subject),
            AnyAnalysis::Symbols(it) => it.report_about(world, subject),
            AnyAnalysis::Diagnostics(it) => it.report_about(world, subject),
            AnyAnalysis::Effects(it) => it.report_about(world, subject),
            AnyAnalysis::Dead(it) => it.report_about(world, subject),
            AnyAnalysis::Constants(it) => it.report_about(world, subject),
            AnyAnalysis::Unreached(it) => it.report_about(world, subject),
        }
    }
}

impl AnalysisSource for AnyAnalysis {
    ghost use Rattle.mlir_work_analyses.specs.Listeners.{seven_supply};

    ghost supply = { seven_supply };

    fn new_of_kind(alloc: Global, opaque: bool, kind: Kind) -> Option<AnyAnalysis> {
        match kind.number() {
            1 => Some(AnyAnalysis::Uses(Uses::new(alloc))),
            2 => Some(AnyAnalysis::Symbols(Symbols::new(alloc, definers_of(opaque)))),
            3 => Some(AnyAnalysis::Diagnostics(Diagnostics::new(alloc))),
            4 => Some(AnyAnalysis::Effects(Effects::new(alloc))),
            5 => Some(AnyAnalysis::Dead(Dead::new(alloc))),
            6 => Some(AnyAnalysis::Constants(Constants::new(alloc))),
            7 => Some(AnyAnalysis::Unreached(Unreached::new(alloc))),
            _ => None,
        }
    }
}

/// Returns which operations may define symbols: the listed ones, or any operation with a symbol name if `opaque` is
/// set.
fn definers_of(opaque: bool) -> Definers
    ensures { result ≡ the.definers_of opaque }
{
    if opaque {
        Definers::AnyNamed
    } else {
        Definers::Listed
    }
}

/// Returns the seven analyses in the order of their kinds. None has begun. `opaque` says whether unregistered types
/// and attributes are accepted as opaque ones.
///
/// Errors: memory runs out.
pub fn all_listeners(alloc: Global, opaque: bool) -> Result<Vec<AnyAnalysis>, AllocError>
    ensures { IfOk result (λ all. AreSeven opaque all.items) }
{
    let mut all = Vec::new(alloc);
    all.push(AnyAnalysis::Uses(Uses::new(alloc)))?;
    all.push(AnyAnalysis::Symbols(Symbols::new(alloc, definers_of(opaque))))?;
    all.push(AnyAnalysis::Diagnostics(Diagnostics::new(alloc)))?;
    all.push(AnyAnalysis::Effects(Effects::new(alloc)))?;
    all.push(AnyAnalysis::Dead(Dead::new(alloc)))?;
    all.push(AnyAnalysis::Constants(Constants::new(alloc)))?;
    all.push(AnyAnalysis::Unreached(Unreached::new(alloc)))?;
    Ok(all)
}

/// Returns whether a kind is listed.
fn is_listed(listed: &[Kind], kind: Kind) -> bool
    ensures { result ≡ is_listed listed.now kind }
{
    listed.contains(&kind)
}

/// Appends a new analysis of a kind, if the kind is listed and has an analysis.
fn add_listed(
    alloc: Global,
    opaque: bool,
    listed: &[Kind],
    kind: Kind,
    all: &mut Vec<AnyAnalysis>,
) -> Result<(), AllocError>
    ensures { IfOk result (λ _. all_shown any_analysis all.new.items
        ≡ all_shown any_analysis all.old.items ++ shown_if (is_listed listed.now kind) (seven_supply opaque kind)) }
{
    if !is_listed(listed, kind) {
        return Ok(());
    }
    match AnyAnalysis::new_of_kind(alloc, opaque, kind) {
        Some(analysis) => {
            all.push(analysis)?;
            Ok(())
        }
        None => Ok(()),
    }
}

/// Returns the ones of the seven analyses whose kinds are listed, in the order of their kinds. None has begun. The
/// order of the list doesn't matter, nor does a kind that is listed twice. `opaque` says whether unregistered types and
/// attributes are accepted as opaque ones.
///
/// Errors: memory runs out.
pub fn listed_listeners(
    alloc: Global,
    opaque: bool,
    listed: &[Kind],
) -> Result<Vec<AnyAnalysis>, AllocError>
    ensures { IfOk result (λ all. AreListed opaque listed.now all.items) }
{
    let mut all = Vec::new(alloc);
    let mut rest: &[Kind] = &KINDS;
    'all_kinds: while let [kind, tail @ ..] = rest {
        add_listed(alloc, opaque, listed, *kind, &mut all)?;
        rest = tail;
    }
    Ok(all)
}
