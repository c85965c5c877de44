//! The store: a module that is built by calls, and lent part by part.

ghost use Rattle.std.specs.Prelude.{◌≡◌, ◌<◌, ◌++◌, length, slice_get, IfOk, OnOk, OnErr};
ghost use Rattle.std.specs.Option.{ForSome};
ghost use Rattle.ir_store.specs.Modules.{no_ops, types_in};
ghost use Rattle.ir_store.specs.Numbering.{first_numbers, past_op, past_region, past_block};
ghost use Rattle.ir_store.specs.Numbering.{ops_in, regions_in, blocks_in};
ghost use Rattle.ir_store.specs.Named.{op_at, region_at, block_at, HaveTypes, AttrsAreRight};
ghost use Rattle.ir_store.specs.Named.{AreOps, AreRegions, AreBlocks};
ghost use Rattle.ir_store.specs.Growth.{in_block, in_op, in_region, IsOpen, Opens};
ghost use Rattle.ir_store.specs.Growth.{added, to_block, to_op, to_region};
ghost use Rattle.ir_store.specs.Growth.{one_op, one_region, one_block};
ghost use Rattle.ir_store.specs.Store.{head_of};

use crate::rows::{BlockId, OpId, OpRow, RegionId};
use crate::tables::Tables;
use attr_value::ValueId;
use std::alloc::{AllocError, Global};
use std::marker::Model;

/// A module, kept as tables of its operations, regions and blocks.
///
/// Contracts see the module itself. It is built in text order: what is added goes last in a place
/// that is open. So ids and value numbers are always those of the text: operations, regions and
/// blocks each count from 0 in text order, and values in order of definition.
#[derive(Drop)]
pub struct Store {
    tables: Tables,
}

impl Model for Store {
    ghost use Rattle.ir_store.specs.Store.{Module};
    ghost use Rattle.ir_store.specs.Code.{module_code};

    ghost Value = { Module };

    ghost coded = { module_code };

    ghost use Rattle.ir_store.specs.Read.{module_of, IsSound};

    ghost view = { λ s. module_of s.tables };

    ghost invariant = { λ s. IsSound s.tables };
}

impl Store {
    /// The module without operations. It takes no memory.
    pub fn new(alloc: Global) -> Store
        ensures { result ≡ no_ops }
    {
        Store {
            tables: Tables::new(alloc),
        }
    }

    /// How many operations the module has. It takes no memory.
    pub fn op_count(&self) -> usize
        ensures { result ≡ length (ops_in self.now) }
    {
        self.tables.op_count()
    }

    /// How many values the module has. It takes no memory.
    pub fn values(&self) -> usize
        ensures { result ≡ length (types_in self.now) }
    {
        self.tables.values()
    }

    /// The type of a value; `None` exactly where its number isn't below `values`. It takes no
    /// memory.
    pub fn type_of(&self, value: usize) -> Option<ValueId>
        ensures { result ≡ slice_get (types_in self.now) value }
    {
        self.tables.type_of(value)
    }

    /// The operations at top level. It takes no memory.
    pub fn top(&self) -> &[OpId]
        ensures { AreOps self.now first_numbers result.now self.now }
    {
        self.tables.top()
    }

    /// An operation's row. It takes no memory.
    pub fn op(&self, op: OpId) -> &OpRow
        requires { op.0 < length (ops_in self.now) }
        ensures head { ForSome (op_at self.now op) (λ x. x.head ≡ head_of result.now) }
        ensures attrs { AttrsAreRight (head_of result.now) }
    {
        self.tables.op(op)
    }

    /// The number of an operation's first result, or the number that it would have. It takes no
    /// memory.
    pub fn first_result(&self, op: OpId) -> usize
        requires { op.0 < length (ops_in self.now) }
        ensures number { ForSome (op_at self.now op) (λ x. result ≡ x.at.values) }
        ensures types { ForSome (op_at self.now op)
            (λ x. HaveTypes self.now result x.head.results) }
    {
        self.tables.first_result(op)
    }

    /// The regions of an operation. It takes no memory.
    pub fn regions_of(&self, op: OpId) -> &[RegionId]
        requires { op.0 < length (ops_in self.now) }
        ensures { ForSome (op_at self.now op)
            (λ x. AreRegions self.now (past_op x.at x.head) result.now x.regions) }
    {
        self.tables.regions_of(op)
    }

    /// The blocks of a region. It takes no memory.
    pub fn blocks_of(&self, region: RegionId) -> &[BlockId]
        requires { region.0 < length (regions_in self.now) }
        ensures { ForSome (region_at self.now region)
            (λ x. AreBlocks self.now (past_region x.at) result.now x.blocks) }
    {
        self.tables.blocks_of(region)
    }

    /// The number of a block's first argument, or the number that it would have, and how many
    /// arguments there are. It takes no memory.
    pub fn args_of(&self, block: BlockId) -> (usize, usize)
        requires { block.0 < length (blocks_in self.now) }
        ensures numbers { ForSome (block_at self.now block)
            (λ x. (result.0 ≡ x.at.values) × (result.1 ≡ length x.args)) }
        ensures types { ForSome (block_at self.now block)
            (λ x. HaveTypes self.now result.0 x.args) }
    {
        self.tables.args_of(block)
    }

    /// The operations of a block. It takes no memory.
    pub fn ops_of(&self, block: BlockId) -> &[OpId]
        requires { block.0 < length (blocks_in self.now) }
        ensures { ForSome (block_at self.now block)
            (λ x. AreOps self.now (past_block x.at x.args) result.now x.ops) }
    {
        self.tables.ops_of(block)
    }

    /// Puts an operation last in a block, or last at top level. Its results take the next value
    /// numbers. Operands may name values that come later.
    pub fn add_op(&mut self, block: Option<BlockId>, row: OpRow) -> Result<OpId, AllocError>
        requires open { IsOpen self.old (in_block block) }
        requires attrs { AttrsAreRight (head_of row) }
        ensures ok { OnOk result
            (self.new ≡ added self.old (to_block block (one_op (head_of row)))) }
        ensures id { IfOk result (λ id. id.0 ≡ length (ops_in self.old)) }
        ensures types { OnOk result
            (types_in self.new ≡ types_in self.old ++ (head_of row).results) }
        ensures opens { IfOk result (λ id. Opens self.old self.new (in_block block) (in_op id)) }
        ensures err { OnErr result (self.new ≡ self.old) }
    {
        self.tables.add_op(block, row)
    }

    /// Puts an empty region last in an operation.
    pub fn add_region(&mut self, op: OpId) -> Result<RegionId, AllocError>
        requires { IsOpen self.old (in_op op) }
        ensures ok { OnOk result (self.new ≡ added self.old (to_op op one_region)) }
        ensures id { IfOk result (λ id. id.0 ≡ length (regions_in self.old)) }
        ensures types { OnOk result (types_in self.new ≡ types_in self.old) }
        ensures opens { IfOk result (λ id. Opens self.old self.new (in_op op) (in_region id)) }
        ensures err { OnErr result (self.new ≡ self.old) }
    {
        self.tables.add_region(op)
    }

    /// Puts an empty block last in a region. Its arguments take the next value numbers.
    pub fn add_block(&mut self, region: RegionId, args: &[ValueId]) -> Result<BlockId, AllocError>
        requires { IsOpen self.old (in_region region) }
        ensures ok { OnOk result
            (self.new ≡ added self.old (to_region region (one_block args.now))) }
        ensures id { IfOk result (λ id. id.0 ≡ length (blocks_in self.old)) }
        ensures types { OnOk result (types_in self.new ≡ types_in self.old ++ args.now) }
        ensures opens { IfOk result
            (λ id. Opens self.old self.new (in_region region) (in_block (Some id))) }
        ensures err { OnErr result (self.new ≡ self.old) }
    {
        self.tables.add_block(region, args)
    }
}
