//! The capacity that a tree needs in a store. The numbers are hints: a store with less capacity grows.

use ir_store_arena::FEW;
use ir_store_arena::trees::tree::{TreeOp, TreeRegion};

/// The expected number of each kind of item.
#[derive(Drop)]
pub struct Capacity {
    /// Operations.
    pub ops: usize,
    /// Slots of operations and blocks.
    pub slots: usize,
    /// Nodes of values and operands.
    pub uses: usize,
    /// Operations with few operands and results, and without entries and regions.
    pub short: usize,
    /// Other operations without entries and regions.
    pub simple: usize,
    /// Operations with entries and without regions.
    pub entered: usize,
    /// Operations with regions.
    pub whole: usize,
}

impl Capacity {
    fn add_op(&mut self, op: &TreeOp) {
        let uses = op.operands.len().saturating_add(op.results.len());
        self.ops = self.ops.saturating_add(1);
        self.slots = self.slots.saturating_add(1);
        self.uses = self.uses.saturating_add(uses);
        if !op.regions.is_empty() {
            self.whole = self.whole.saturating_add(1);
        } else if !op.props.is_empty() || !op.attrs.is_empty() {
            self.entered = self.entered.saturating_add(1);
        } else if op.operands.len() > FEW || op.results.len() > FEW {
            self.simple = self.simple.saturating_add(1);
        } else {
            self.short = self.short.saturating_add(1);
        }
    }

    fn add_block(&mut self, args: usize) {
        self.slots = self.slots.saturating_add(1);
        self.uses = self.uses.saturating_add(args);
    }
}

/// Returns the capacity that a tree needs.
pub fn capacity_for(tree: &TreeOp) -> Capacity {
    let mut headroom = Capacity {
        ops: 0,
        slots: 0,
        uses: 0,
        short: 0,
        simple: 0,
        entered: 0,
        whole: 0,
    };
    count_op(&mut headroom, tree);
    headroom
}

/// Counts an operation, and everything inside it.
#[cycle(count)]
fn count_op(headroom: &mut Capacity, op: &TreeOp) {
    headroom.add_op(op);
    for region in &op.regions {
        count_region(headroom, region);
    }
}

/// Counts the block of a region, if it has one, and everything inside it.
#[cycle(count)]
fn count_region(headroom: &mut Capacity, region: &TreeRegion) {
    if let TreeRegion::Block { args, ops } = region {
        headroom.add_block(args.len());
        for op in ops {
            count_op(headroom, op);
        }
    }
}
