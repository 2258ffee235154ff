//! Laws of registry commands.
ghost use Rattle.mlir_work_registry.specs.Changing.{CommandsChange, CommandsReach, NewIsReached};

/// Whatever the response to a registry command is, the registry that it leaves comes from the one that was there by
/// definitions, removals, replacements and recorded checks (`changes`). So each registry of a session is reached from
/// the empty one by such changes (`empty`, `reached`). A summary `holds` without a width is recorded only if a check
/// without a width found that the pattern holds at all widths.
pub fn commands_keep_registries_reached()
    ensures changes { CommandsChange }
    ensures empty { NewIsReached }
    ensures reached { CommandsReach }
{}
