//! Tables of operations, regions, blocks and types.
ghost use Rattle.std.specs.Prelude.{◌≡◌, ◌<◌, [], ◌∷◌, length, slice_get, IfSome, IfOk, OnOk};
ghost use Rattle.std.specs.Prelude.{OnErr};
ghost use Rattle.std.specs.Option.{ForSome};
ghost use Rattle.ir_store.specs.Rows.{no_rows, top_with, blocks_with, with_op, with_region};
ghost use Rattle.ir_store.specs.Rows.{with_block};
ghost use Rattle.ir_store.specs.Rows.{head_at, first_at, args_at, regions_at, blocks_at, ops_at};
ghost use Rattle.ir_store.specs.Store.{head_of};

use crate::rows::{BlockId, OpId, OpRow, RegionId};
use attr_value::{List, ValueId};
use std::alloc::{AllocError, Global};
use std::marker::Model;

/// A row, the number of its first result, and its regions.
#[derive(Drop)]
struct OpEntry {
    row: OpRow,
    first: usize,
    regions: List<RegionId>,
}

/// The blocks of a region.
#[derive(Drop)]
struct RegionRow {
    blocks: List<BlockId>,
}

/// The number of a block's first argument, how many it has, and its operations.
#[derive(Drop)]
struct BlockEntry {
    first: usize,
    count: usize,
    ops: List<OpId>,
}

/// The tables. An id is a place in its table, and a value's number a place among the types.
#[derive(Drop)]
pub(crate) struct Tables {
    top: List<OpId>,
    ops: Vec<OpEntry>,
    regions: Vec<RegionRow>,
    blocks: Vec<BlockEntry>,
    types: Vec<ValueId>,
    alloc: Global,
}

impl Model for Tables {
    ghost use Rattle.std.specs.Prelude.{map};
    ghost use Rattle.ir_store.specs.Rows.{Rows, node_of};

    ghost Value = { Rows };

    ghost view = { λ s. record {
      top = s.top;
      ops = map node_of s.ops.items;
      regions = s.regions.items;
      blocks = s.blocks.items;
      types = s.types.items;
    } };
}

impl Tables {
    /// Tables without rows. It takes no memory.
    pub(crate) fn new(alloc: Global) -> Tables
        ensures { result ≡ no_rows }
    {
        Tables {
            top: List::new(alloc),
            ops: Vec::new(alloc),
            regions: Vec::new(alloc),
            blocks: Vec::new(alloc),
            types: Vec::new(alloc),
            alloc,
        }
    }

    /// How many operations there are. It takes no memory.
    pub(crate) fn op_count(&self) -> usize
        ensures { result ≡ length self.now.ops }
    {
        self.ops.len()
    }

    /// How many values there are. It takes no memory.
    pub(crate) fn values(&self) -> usize
        ensures { result ≡ length self.now.types }
    {
        self.types.len()
    }

    /// The type of a value. It takes no memory.
    pub(crate) fn type_of(&self, value: usize) -> Option<ValueId>
        ensures { result ≡ slice_get self.now.types value }
    {
        self.types.get(value).copied()
    }

    /// The operations at top level. It takes no memory.
    pub(crate) fn top(&self) -> &[OpId]
        ensures { result.now ≡ self.now.top }
    {
        self.top.as_slice()
    }

    /// An operation's row. It takes no memory.
    pub(crate) fn op(&self, op: OpId) -> &OpRow
        requires { op.0 < length self.now.ops }
        ensures { head_at self.now op.0 ≡ Some (head_of result.now) }
    {
        &self.ops[op.0].row
    }

    /// The number of an operation's first result. It takes no memory.
    pub(crate) fn first_result(&self, op: OpId) -> usize
        requires { op.0 < length self.now.ops }
        ensures { first_at self.now op.0 ≡ Some result }
    {
        self.ops[op.0].first
    }

    /// The number of a block's first argument, and how many it has. It takes no memory.
    pub(crate) fn args_of(&self, block: BlockId) -> (usize, usize)
        requires { block.0 < length self.now.blocks }
        ensures { args_at self.now block.0 ≡ Some result }
    {
        let block = &self.blocks[block.0];
        (block.first, block.count)
    }

    /// An operation's regions. It takes no memory.
    pub(crate) fn regions_of(&self, op: OpId) -> &[RegionId]
        requires { op.0 < length self.now.ops }
        ensures { regions_at self.now op.0 ≡ Some result.now }
    {
        self.ops[op.0].regions.as_slice()
    }

    /// A region's blocks. It takes no memory.
    pub(crate) fn blocks_of(&self, region: RegionId) -> &[BlockId]
        requires { region.0 < length self.now.regions }
        ensures { blocks_at self.now region.0 ≡ Some result.now }
    {
        self.regions[region.0].blocks.as_slice()
    }

    /// A block's operations. It takes no memory.
    pub(crate) fn ops_of(&self, block: BlockId) -> &[OpId]
        requires { block.0 < length self.now.blocks }
        ensures { ops_at self.now block.0 ≡ Some result.now }
    {
        self.blocks[block.0].ops.as_slice()
    }

    /// Puts an operation last in a block, or last at top level.
    pub(crate) fn add_op(&mut self, block: Option<BlockId>, row: OpRow) -> Result<OpId, AllocError>
        requires { ForSome block (λ b. b.0 < length self.old.blocks) }
        ensures id { IfOk result (λ id. id.0 ≡ length self.old.ops) }
        ensures ok { OnOk result (self.new ≡ with_op self.old block (head_of row)) }
        ensures err { OnErr result (self.new ≡ self.old) }
    {
        let id = OpId(self.ops.len());
        self.types.reserve(row.results.len())?;
        self.ops.reserve(1)?;
        hang(&mut self.top, &mut self.blocks, block, id)?;
        let first = self.types.len();
        let _ = self.types.extend_from_slice(row.results.as_slice());
        self.ops.push_reserved(OpEntry {
            row,
            first,
            regions: List::new(self.alloc),
        });
        Ok(id)
    }

    /// Puts an empty region last in an operation.
    pub(crate) fn add_region(&mut self, op: OpId) -> Result<RegionId, AllocError>
        requires { op.0 < length self.old.ops }
        ensures id { IfOk result (λ id. id.0 ≡ length self.old.regions) }
        ensures ok { OnOk result (self.new ≡ with_region self.old op) }
        ensures err { OnErr result (self.new ≡ self.old) }
    {
        let id = RegionId(self.regions.len());
        self.regions.reserve(1)?;
        let entry = &mut self.ops[op.0];
        entry.regions.push(id)?;
        self.regions.push_reserved(RegionRow {
            blocks: List::new(self.alloc),
        });
        Ok(id)
    }

    /// Puts an empty block last in a region.
    pub(crate) fn add_block(
        &mut self,
        region: RegionId,
        args: &[ValueId],
    ) -> Result<BlockId, AllocError>
        requires { region.0 < length self.old.regions }
        ensures id { IfOk result (λ id. id.0 ≡ length self.old.blocks) }
        ensures ok { OnOk result (self.new ≡ with_block self.old region args.now) }
        ensures err { OnErr result (self.new ≡ self.old) }
    {
        let id = BlockId(self.blocks.len());
        self.types.reserve(args.len())?;
        self.blocks.reserve(1)?;
        let entry = &mut self.regions[region.0];
        entry.blocks.push(id)?;
        let first = self.types.len();
        let _ = self.types.extend_from_slice(args);
        self.blocks.push_reserved(BlockEntry {
            first,
            count: args.len(),
            ops: List::new(self.alloc),
        });
        Ok(id)
    }
}

/// Puts the operation last in the block, or last at top level.
fn hang(
    top: &mut List<OpId>,
    blocks: &mut Vec<BlockEntry>,
    block: Option<BlockId>,
    op: OpId,
) -> Result<(), AllocError>
    requires { ForSome block (λ b. b.0 < length blocks.old.items) }
    ensures top { OnOk result (top.new ≡ top_with block (op ∷ []) top.old) }
    ensures blocks { OnOk result (blocks.new.items ≡ blocks_with block (op ∷ []) blocks.old.items) }
    ensures err { OnErr result ((top.new ≡ top.old) × (blocks.new.items ≡ blocks.old.items)) }
{
    match block {
        None => top.push(op),
        Some(block) => {
            let entry = &mut blocks[block.0];
            entry.ops.push(op)?;
            Ok(())
        }
    }
}
