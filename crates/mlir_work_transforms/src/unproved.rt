//! The lines that list the patterns of a command that no check proves for the module.
ghost use Rattle.std.specs.Prelude.{◌≡◌, ◌∷◌, ◌++◌, [], IfOk, OnOk, Some, false};
ghost use Rattle.std.specs.List.{list_any};
ghost use Rattle.ir_event.specs.Modules.{module_in};
ghost use Rattle.mlir_work_script_base.specs.RuleNames.{name_of};
ghost use Rattle.mlir_work_registry.specs.CheckSummary.TheVariants.{Holds as SaysHolds};
ghost use Rattle.mlir_work_registry.specs.Registry.{registry_model, kept_view};
ghost use Rattle.mlir_work_registry.specs.RuleLists.{names_of};
ghost use Rattle.mlir_work_transforms.specs.RuleLists.{pattern_named};
ghost use Rattle.mlir_work_transforms.specs.Unproved.{and_once, and_user_pattern, is_noted, noted_after, noted_of, proves};
ghost use Rattle.mlir_work_transforms.specs.Unproved.{unproved_line, unproved_of, unproved_one, unproved_text, verdict_text};
ghost use Rattle.mlir_work_transforms.specs.Views.{IsCopy, noted_view, noted_views};

use crate::named_patterns::find_pattern;
use crate::narrow::has_narrow_types;
use ir_event::trees::tree::TreeOp;
use ir_event::world::World;
use mlir_work_registry::check_result::CheckSummary;
use mlir_work_registry::registry::{PatternRegistry, RegisteredPattern};
use mlir_work_registry::rows::write_summary;
use mlir_work_registry::rule_lists::{names_in, next_name};
use mlir_work_script_base::rule_name::RuleName;
use std::alloc::{AllocError, Global};

/// A pattern with its name, whether all its types are concrete, and the result of its last check.
#[derive(Clone, Copy)]
pub(crate) struct Noted<'a> {
    name: &'a [u8],
    is_typed: bool,
    said: Option<CheckSummary>,
}

/// Returns whether a pattern of the list has this name.
fn has_name(noted: &[Noted<'_>], name: &[u8]) -> bool
    ensures { result ≡ list_any (λ n. is_noted name.now (noted_view n)) noted.now }
{
    noted.iter().any(|one| one.name == name)
}

fn noted_of(held: &RegisteredPattern) -> Noted<'_>
    ensures { noted_view result ≡ noted_of (kept_view held.now) }
{
    Noted {
        name: held.name.as_slice(),
        is_typed: held.pattern.types == 0,
        said: held.said,
    }
}

/// Appends a pattern, unless the list has one of the same name.
fn add_once<'a>(noted: &mut Vec<Noted<'a>>, held: &'a RegisteredPattern) -> Result<(), AllocError>
    ensures { OnOk result (noted_views noted.new.items ≡ and_once (noted_views noted.old.items) (noted_of (kept_view held.now))) }
{
    if has_name(noted, &held.name) {
        return Ok(());
    }
    noted.push(noted_of(held))?;
    Ok(())
}

/// Appends the registered pattern with this name, if there is one and the list doesn't have it yet.
fn add_named<'a>(
    noted: &mut Vec<Noted<'a>>,
    registry: &'a PatternRegistry,
    name: &RuleName<'_>,
) -> Result<(), AllocError>
    ensures { OnOk result (noted_views noted.new.items ≡ and_user_pattern (noted_views noted.old.items) (pattern_named (name_of name.now) (registry_model registry.now))) }
{
    match find_pattern(registry, name) {
        Some(held) => add_once(noted, held),
        None => Ok(()),
    }
}

/// Returns the registered patterns that a list names, in order and each once.
fn noted_in<'a>(
    alloc: Global,
    registry: &'a PatternRegistry,
    list: &[u8],
) -> Result<Vec<Noted<'a>>, AllocError>
    ensures { IfOk result (λ v. noted_views v.items ≡ noted_after (registry_model registry.now) [] (names_of list.now)) }
{
    let mut noted = Vec::new(alloc);
    let mut names = names_in(list, true);
    'names: while let Some(name) = next_name(&mut names) {
        add_named(&mut noted, registry, &name)?;
    }
    Ok(noted)
}

/// Returns the cached copy of the module's tree, and copies the tree if there is none.
fn copied(world: &World, tree: Option<TreeOp>) -> Result<TreeOp, AllocError>
    requires { IsCopy tree world.now.store.module_of.tree }
    ensures { IfOk result (λ t. t ≡ world.now.store.module_of.tree) }
{
    if let Some(tree) = tree {
        return Ok(tree);
    }
    match world.store.tree() {
        Ok(tree) => Ok(tree),
        Err(_) => Err(AllocError),
    }
}

/// Returns whether a check up to `width` proves a pattern with type variables for the module. Caches the module's
/// tree.
fn is_narrow(world: &World, width: u32, tree: &mut Option<TreeOp>) -> Result<bool, AllocError>
    requires { IsCopy tree.old world.now.store.module_of.tree }
    ensures narrow { IfOk result (λ b. b ≡ proves false (Some (SaysHolds width)) (module_in world.now).tree) }
    ensures copy { IsCopy tree.new world.now.store.module_of.tree }
{
    let copy = copied(world, tree.take())?;
    let narrow = has_narrow_types(&world.ctx, width, &copy);
    *tree = Some(copy);
    Ok(narrow)
}

/// Returns whether the last check of a pattern proves it for the module. Caches the module's tree if it copied it.
fn is_proved(
    world: &World,
    noted: &Noted<'_>,
    tree: &mut Option<TreeOp>,
) -> Result<bool, AllocError>
    requires { IsCopy tree.old world.now.store.module_of.tree }
    ensures proved { IfOk result (λ b. b ≡ proves noted.now.is_typed noted.now.said (module_in world.now).tree) }
    ensures copy { IsCopy tree.new world.now.store.module_of.tree }
{
    match noted.said {
        Some(CheckSummary::Holds(_)) if noted.is_typed => Ok(true),
        Some(CheckSummary::Holds(width)) => is_narrow(world, width, tree),
        Some(CheckSummary::AllWidths) => Ok(true),
        Some(CheckSummary::Vacuous(_)) => Ok(false),
        Some(CheckSummary::Fails(_)) => Ok(false),
        Some(CheckSummary::Sampled(_)) => Ok(false),
        None => Ok(false),
    }
}

/// Appends the result of a check, or that there was no check.
fn write_verdict(out: &mut Vec<u8>, said: Option<CheckSummary>) -> Result<(), AllocError>
    ensures { OnOk result (out.new.items ≡ out.old.items ++ verdict_text said) }
{
    match said {
        Some(said) => write_summary(out, said),
        None => out.extend_from_slice(b"unchecked"),
    }
}

/// Appends the line of a pattern.
fn write_line(out: &mut Vec<u8>, noted: &Noted<'_>) -> Result<(), AllocError>
    ensures { OnOk result (out.new.items ≡ out.old.items ++ unproved_line (noted_view noted.now)) }
{
    out.extend_from_slice(b"unproved ")?;
    out.extend_from_slice(noted.name)?;
    out.extend_from_slice(b" ")?;
    write_verdict(out, noted.said)?;
    out.extend_from_slice(b"\n")
}

/// Appends the line of a pattern, unless its last check proves it for the module. Caches the module's tree if it
/// copied it.
fn write_unless_proved(
    out: &mut Vec<u8>,
    world: &World,
    noted: &Noted<'_>,
    tree: &mut Option<TreeOp>,
) -> Result<(), AllocError>
    requires { IsCopy tree.old world.now.store.module_of.tree }
    ensures put { OnOk result (out.new.items ≡ out.old.items ++ unproved_text (module_in world.now).tree (noted_view noted.now ∷ [])) }
    ensures copy { IsCopy tree.new world.now.store.module_of.tree }
{
    if is_proved(world, noted, tree)? {
        return Ok(());
    }
    write_line(out, noted)
}

/// Returns a line for each pattern that no check proves for the module.
fn text_of(alloc: Global, world: &World, noted: &[Noted<'_>]) -> Result<Vec<u8>, AllocError>
    ensures { IfOk result (λ v. v.items ≡ unproved_text (module_in world.now).tree (noted_views noted.now)) }
{
    let mut out = Vec::new(alloc);
    let mut tree = None;
    let mut rest = noted;
    'noted: while let [one, tail @ ..] = rest {
        write_unless_proved(&mut out, world, one, &mut tree)?;
        rest = tail;
    }
    Ok(out)
}

/// Returns the line of a pattern that no check proves for the module. The text is empty if the pattern is proved.
pub fn unproved_one(
    alloc: Global,
    world: &World,
    held: &RegisteredPattern,
) -> Result<Vec<u8>, AllocError>
    ensures { IfOk result (λ v. v.items ≡ unproved_one (kept_view held.now) (module_in world.now).tree) }
{
    text_of(alloc, world, &[noted_of(held)])
}

/// Returns a line for each pattern of a list that no check proves for the module, in the order of the list and each
/// once.
pub fn unproved_of(
    alloc: Global,
    world: &World,
    registry: &PatternRegistry,
    list: &[u8],
) -> Result<Vec<u8>, AllocError>
    ensures { IfOk result (λ v. v.items ≡ unproved_of (registry_model registry.now) (names_of list.now) (module_in world.now).tree) }
{
    let noted = noted_in(alloc, registry, list)?;
    text_of(alloc, world, &noted)
}
