//! A list of rules, indexed by operation name.
ghost use Rattle.std.specs.Prelude.{◌≡◌, IfOk};
ghost use Rattle.std.specs.List.{filter, list_any};
ghost use Rattle.patterns_soundness.specs.base.RuleNames.{same_rule};
ghost use Rattle.patterns.specs.Rows.{AreRowsOf, IsByName, row_at};

use ir_event::types::ids::NameId;
use patterns_soundness::base::rule::Rule;
use patterns_soundness::base::table::rules_of;
use std::alloc::{AllocError, Global};

/// A list of rules in the order in which they are tried. For each operation name it also has the rules that the table
/// lists for that name, so that no other rule is tried there.
#[derive(Drop)]
pub struct RulesByName<'a> {
    pub rules: &'a [Rule],
    pub rows: Vec<Vec<Rule>>,
}

/// Returns whether a rule is in a list.
fn is_among(rule: Rule, listed: &[Rule]) -> bool
    ensures { result ≡ list_any (same_rule rule) listed.now }
{
    let mut rest = listed;
    'listed: while let [other, tail @ ..] = rest {
        if rule.is(*other) {
            return true;
        }
        rest = tail;
    }
    false
}

/// Returns the rules of one list that are in the other, in order.
fn row_among(alloc: Global, rules: &[Rule], listed: &[Rule]) -> Result<Vec<Rule>, AllocError>
    ensures { IfOk result (λ v. v.items ≡ filter (λ r. list_any (same_rule r) listed.now) rules.now) }
{
    let mut row = Vec::new(alloc);
    let mut rest = rules;
    'rules: while let [rule, tail @ ..] = rest {
        if is_among(*rule, listed) {
            row.push(*rule)?;
        }
        rest = tail;
    }
    Ok(row)
}

/// The number of listed operation names.
const COUNT: u32 = 39;

/// Returns, for the number of each operation name, the rules of the list that may apply at operations with that name.
fn by_name(alloc: Global, rules: &[Rule]) -> Result<Vec<Vec<Rule>>, AllocError>
    ensures { IfOk result (λ v. AreRowsOf rules.now v.items) }
{
    let mut rows = Vec::with_capacity(alloc, COUNT as usize)?;
    let mut number = 0;
    'numbers: while number < COUNT {
        let listed = rules_of(NameId::new(number));
        let row = row_among(alloc, rules, listed)?;
        rows.push(row)?;
        number += 1;
    }
    Ok(rows)
}

impl<'a> RulesByName<'a> {
    /// Returns the index of a list of rules.
    pub fn new(alloc: Global, rules: &'a [Rule]) -> Result<RulesByName<'a>, AllocError>
        ensures list { IfOk result (λ made. made.rules.now ≡ rules.now) }
        ensures rows { IfOk result IsByName }
    {
        let rows = by_name(alloc, rules)?;
        Ok(RulesByName { rules, rows })
    }

    /// Returns the rules of the list that may apply at operations with `name`, in order.
    pub(crate) fn rules_for(&self, name: NameId) -> &[Rule]
        ensures { result.now ≡ row_at self.now.rows.items name }
    {
        let number = name.number() as usize;
        if number < self.rows.len() {
            &self.rows[number]
        } else {
            &[]
        }
    }
}
