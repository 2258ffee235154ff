//! Parses a tree from a line of words.
//!
//! `op:3` starts an operation, `op` starts one with the next id, and `end` ends it. The words in between are: `name:5`;
//! `use:2.0` and `use:1.0.0` for operands; `res:0`; `prop:39=0`; `attr:39=0`; `hole` for a region without a block; and
//! `block`, followed by the block's `arg:0` and its operations. `4*res:0` is `res:0` four times. `nest` is short for
//! `op block`, and `leaf` for `op end`.
use crate::words::{attr_id, entry, name_id, number, type_id, value};
use ir_tree::tree::{TreeOp, TreeRegion};
use ir_tree::value::Value;
use ir_types::ids::{AttrId, NameId, OpId, TypeId};
use std::alloc::{AllocError, Global};

/// The id of `arith.constant`, which isn't isolated.
const CONSTANT: u32 = 5;

type Entries = Vec<(NameId, AttrId)>;

/// The state of the parser: the open operations, outermost first, and the next id.
#[derive(Drop)]
struct Reading {
    alloc: Global,
    open: Vec<TreeOp>,
    next: u32,
}

/// Returns an empty operation with this id.
pub fn bare(alloc: Global, id: u32) -> TreeOp {
    TreeOp {
        id: OpId::new(id),
        name: NameId::new(CONSTANT),
        operands: Vec::new(alloc),
        results: Vec::new(alloc),
        props: Vec::new(alloc),
        attrs: Vec::new(alloc),
        regions: Vec::new(alloc),
    }
}

/// Appends an operation to the last block.
fn push_last(regions: &mut Vec<TreeRegion>, op: TreeOp) -> Result<(), AllocError> {
    match regions.last_mut() {
        Some(TreeRegion::Block { ops, .. }) => Ok(ops.push(op)?),
        _ => Ok(()),
    }
}

/// Appends an argument to those of the last block.
fn push_argument(regions: &mut Vec<TreeRegion>, ty: TypeId) -> Result<(), AllocError> {
    match regions.last_mut() {
        Some(TreeRegion::Block { args, .. }) => push_type(args, ty),
        _ => Ok(()),
    }
}

fn push_type(types: &mut Vec<TypeId>, ty: TypeId) -> Result<(), AllocError> {
    Ok(types.push(ty)?)
}

fn push_value(values: &mut Vec<Value>, value: Value) -> Result<(), AllocError> {
    Ok(values.push(value)?)
}

fn put_entry(entries: &mut Entries, entry: (NameId, AttrId)) -> Result<(), AllocError> {
    Ok(entries.push(entry)?)
}

fn push_region(regions: &mut Vec<TreeRegion>, region: TreeRegion) -> Result<(), AllocError> {
    Ok(regions.push(region)?)
}

/// Returns an empty block.
fn empty_block(alloc: Global) -> TreeRegion {
    TreeRegion::Block {
        args: Vec::new(alloc),
        ops: Vec::new(alloc),
    }
}

/// Changes the name of an operation.
fn rename(op: &mut TreeOp, name: NameId) -> Result<(), AllocError> {
    op.name = name;
    Ok(())
}

/// Adds the item of a word to an operation.
fn add(alloc: Global, op: &mut TreeOp, kind: &str, rest: &str) -> Result<(), AllocError> {
    match kind {
        "name" => rename(op, name_id(rest)),
        "use" => push_value(&mut op.operands, value(rest)),
        "res" => push_type(&mut op.results, type_id(rest)),
        "prop" => put_entry(&mut op.props, entry(rest)),
        "attr" => put_entry(&mut op.attrs, entry(rest)),
        "arg" => push_argument(&mut op.regions, type_id(rest)),
        "block" => push_region(&mut op.regions, empty_block(alloc)),
        _ => push_region(&mut op.regions, TreeRegion::Empty),
    }
}

impl Reading {
    /// Starts an operation.
    fn begin(&mut self, id: u32) -> Result<(), AllocError> {
        self.next = id.saturating_add(1);
        Ok(self.open.push(bare(self.alloc, id))?)
    }

    /// Starts an operation with a block.
    fn nest(&mut self) -> Result<(), AllocError> {
        self.begin(self.next)?;
        self.say("block", "")
    }

    /// Adds an operation without regions.
    fn leaf(&mut self) -> Result<(), AllocError> {
        self.begin(self.next)?;
        self.close()
    }

    /// Ends an operation inside another.
    fn close(&mut self) -> Result<(), AllocError> {
        if self.open.len() < 2 {
            return Ok(());
        }
        match self.open.pop() {
            Some(op) => self.hold(op),
            None => Ok(()),
        }
    }

    /// Adds an operation to the innermost open one.
    fn hold(&mut self, op: TreeOp) -> Result<(), AllocError> {
        match self.open.last_mut() {
            Some(outer) => push_last(&mut outer.regions, op),
            None => Ok(()),
        }
    }

    /// Adds the item of a word to the innermost open operation.
    fn say(&mut self, kind: &str, rest: &str) -> Result<(), AllocError> {
        match self.open.last_mut() {
            Some(op) => add(self.alloc, op, kind, rest),
            None => Ok(()),
        }
    }

    /// Handles a word.
    fn obey(&mut self, word: &str) -> Result<(), AllocError> {
        let (kind, rest) = word.split_once(':').unwrap_or((word, ""));
        match kind {
            "op" if rest.is_empty() => self.begin(self.next),
            "op" => self.begin(number(rest)),
            "nest" => self.nest(),
            "leaf" => self.leaf(),
            "end" => self.close(),
            _ => self.say(kind, rest),
        }
    }

    /// Handles a word, repeatedly if it has a count.
    fn read(&mut self, word: &str) -> Result<(), AllocError> {
        let (count, word) = word.split_once('*').unwrap_or(("1", word));
        for _ in 0..number(count) {
            self.obey(word)?;
        }
        Ok(())
    }

    /// Handles each word of a text.
    fn read_all(&mut self, text: &str) -> Result<(), AllocError> {
        for word in text.split_whitespace() {
            self.read(word)?;
        }
        Ok(())
    }

    /// Ends all open operations except the outermost.
    fn close_all(&mut self) -> Result<(), AllocError> {
        for _ in 0..self.open.len() {
            self.close()?;
        }
        Ok(())
    }

    /// Returns the outermost operation, or an empty one if there is none.
    fn root(&mut self) -> TreeOp {
        match self.open.pop() {
            Some(op) => op,
            None => bare(self.alloc, 0),
        }
    }
}

/// Returns the tree of a line of words.
pub fn tree(alloc: Global, text: &str) -> Result<TreeOp, AllocError> {
    let mut reading = Reading {
        alloc,
        open: Vec::new(alloc),
        next: 0,
    };
    reading.read_all(text)?;
    reading.close_all()?;
    Ok(reading.root())
}
