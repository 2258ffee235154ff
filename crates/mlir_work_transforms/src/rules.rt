//! Rules by their numbers.
ghost use Rattle.std.specs.Prelude.{◌≡◌, IfOk, IfErr, option_map};
ghost use Rattle.std.specs.Option.{option_copied};
ghost use Rattle.ir_event.specs.types.declared.refusal.Refusal.TheVariants.{Memory as NoMemory};
ghost use Rattle.conversion.specs.Converting.{rules_of};
ghost use Rattle.conversion.specs.RuleNames.{by_number};
ghost use Rattle.mlir_work_script_base.specs.Items.{number_or_zero};
ghost use Rattle.mlir_work_script_base.specs.Numbers.{number_of};
ghost use Rattle.mlir_work_transforms.specs.Interned.{numbers_after};

use conversion::rule::Rule;
use ir_event::types::refusal::Refusal;
use mlir_work_script_base::items::split_item;
use mlir_work_script_base::numbers::parse_number;
use std::alloc::Global;

/// Returns the rule whose number an item is, or `None` if the item isn't a rule's number.
fn numbered_rule(item: &[u8]) -> Option<Rule>
    ensures { result ≡ by_number (number_or_zero (number_of item.now)) }
{
    match parse_number(item) {
        Some(number) => Rule::by_number(number),
        None => Rule::by_number(0),
    }
}

/// Returns the rules with the numbers of a list, or `None` if an item isn't a rule's number. An absent list has none.
pub(crate) fn rules_in(alloc: Global, list: Option<&[u8]>) -> Result<Option<Vec<Rule>>, Refusal>
    ensures rules { IfOk result (λ found. option_map (λ v. v.items) found ≡ rules_of (numbers_after (option_copied list.entry))) }
    ensures want { IfErr result (λ refusal. refusal ≡ NoMemory) }
{
    let mut rules = Vec::new(alloc);
    let mut rest = list;
    'items: while let Some(items) = rest {
        let (item, trailing) = split_item(items);
        let Some(rule) = numbered_rule(item) else {
            return Ok(None);
        };
        match rules.push(rule) {
            Ok(()) => {}
            Err(_) => return Err(Refusal::Memory),
        }
        rest = trailing;
    }
    Ok(Some(rules))
}
