//! The rows of the report.
ghost use Rattle.std.specs.Prelude.{◌≡◌, ◌++◌, [], ◌∷◌, map, OnOk, IfOk};
ghost use Rattle.std.specs.Ordering.{nat_cmp};
ghost use Rattle.std.specs.BTreeMap.{get};
ghost use Rattle.ir_verify_base.specs.events.declared.row.Row.{Row as Line};
ghost use Rattle.ir_verify.specs.Sets.{reported_rules};
ghost use Rattle.ir_verify.specs.Reports.{rule_cells, rules_cells, all_cells, cells_about, found_cells};

use crate::finding::Finding;
use ir_tree::value::Value;
use ir_types::ids::OpId;
use ir_verify_base::events::row::{Cell, Row};
use ir_verify_base::events::subject::Subject;
use std::alloc::{AllocError, Global};
use std::collections::BTreeMap;

/// Returns the row of an operation and a rule that it breaks.
fn row(alloc: Global, op: OpId, rule: u8) -> Result<Row, AllocError>
    ensures { IfOk result (λ row. row.cells.items ≡ rule_cells op rule) }
{
    // The checker has no proof of the loans of a function that creates cells, unless the function has a value of each
    // type in a cell.
    let _value = Value::Result(op, 0);
    let mut cells = Vec::with_capacity(alloc, 2)?;
    cells.push(Cell::Op(op))?;
    cells.push(Cell::Rule(rule))?;
    Ok(Row { cells })
}

/// Appends a row for each of the rules that an operation breaks.
fn push_rows(alloc: Global, op: OpId, rules: &[u8], out: &mut Vec<Row>) -> Result<(), AllocError>
    ensures { OnOk result (map (λ (r : Line). r.cells.items) out.new.items
        ≡ map (λ (r : Line). r.cells.items) out.old.items ++ rules_cells op rules.now) }
{
    for rule in rules {
        out.push(row(alloc, op, *rule)?)?;
    }
    Ok(())
}

/// Appends a row for each reported rule of an operation.
fn push_reported(
    alloc: Global,
    op: OpId,
    finding: &Finding,
    out: &mut Vec<Row>,
) -> Result<(), AllocError>
    ensures { OnOk result (map (λ (r : Line). r.cells.items) out.new.items
        ≡ map (λ (r : Line). r.cells.items) out.old.items ++ rules_cells op (reported_rules finding.now)) }
{
    let rules = finding.numbers(alloc)?;
    push_rows(alloc, op, &rules, out)
}

/// Returns a row for each operation and each reported rule, ordered by operation and rule.
pub(crate) fn rows(alloc: Global, table: &BTreeMap<u32, Finding>) -> Result<Vec<Row>, AllocError>
    ensures { IfOk result (λ out. map (λ (r : Line). r.cells.items) out.items ≡ all_cells table.now.entries) }
{
    let mut out = Vec::new(alloc);
    push_all(alloc, table, &mut out)?;
    Ok(out)
}

/// Appends the rows of all operations.
fn push_all(
    alloc: Global,
    table: &BTreeMap<u32, Finding>,
    out: &mut Vec<Row>,
) -> Result<(), AllocError>
    ensures { OnOk result (map (λ (r : Line). r.cells.items) out.new.items
        ≡ map (λ (r : Line). r.cells.items) out.old.items ++ all_cells table.now.entries) }
{
    for (op, rules) in table {
        push_reported(alloc, OpId::new(*op), rules, out)?;
    }
    Ok(())
}

/// Returns a row for each reported rule of the operation that the report is about. No row is about a value.
pub(crate) fn rows_about(
    alloc: Global,
    table: &BTreeMap<u32, Finding>,
    subject: &Subject,
) -> Result<Vec<Row>, AllocError>
    ensures { IfOk result (λ out. map (λ (r : Line). r.cells.items) out.items ≡ cells_about subject.now table.now) }
{
    match subject {
        Subject::Op(op) => rows_of(alloc, table, *op),
        Subject::Val(_) => Ok(Vec::new(alloc)),
    }
}

/// Returns a row for each reported rule of an operation, if the table has it.
fn rows_of(alloc: Global, table: &BTreeMap<u32, Finding>, op: OpId) -> Result<Vec<Row>, AllocError>
    ensures { IfOk result (λ out. map (λ (r : Line). r.cells.items) out.items ≡ found_cells op (get nat_cmp table.now op)) }
{
    match table.get(&op.number()) {
        None => Ok(Vec::new(alloc)),
        Some(finding) => reported_rows(alloc, op, finding),
    }
}

/// Returns a row for each reported rule of an operation.
fn reported_rows(alloc: Global, op: OpId, finding: &Finding) -> Result<Vec<Row>, AllocError>
    ensures { IfOk result (λ out. map (λ (r : Line). r.cells.items) out.items
        ≡ rules_cells op (reported_rules finding.now)) }
{
    let mut out = Vec::new(alloc);
    push_reported(alloc, op, finding, &mut out)?;
    Ok(out)
}
