//! Tests of what the judges ask for.

ghost use Rattle.std.specs.Prelude.{◌<◌, ◌↔◌, length, IsTrue, IfSome};
ghost use Rattle.std.specs.List.{AllByRecursion};
ghost use Rattle.std.specs.Option.{ForSome};
ghost use Rattle.attr_value.specs.Ids.{AreKnown};
ghost use Rattle.dialect_defs.specs.Bodies.{AreBelow};
ghost use Rattle.ir_store.specs.Modules.{types_in};
ghost use Rattle.ir_store.specs.Named.{op_at};
ghost use Rattle.ir_store.specs.Numbering.{ops_in};
ghost use Rattle.op_verifier.specs.Meets.{IsJudgeable, CanJudge};
ghost use Rattle.op_verifier.specs.Seen.{HasIds};
ghost use Rattle.op_verifier.specs.Sound.{EntriesAreBelow, AttrsAreBelow, RegionsAreBelow};
ghost use Rattle.op_verifier.specs.Sound.{NamesAreBelow, IsSoundOp, AreSoundOps};

use crate::operands::type_of;
use attr_value::ValueId;
use constraint_solver::{are_below, is_sound_body};
use dialect_defs::{AttrEntry, ENTRY_LIMIT, Entry, OpDef, RegionEntry};
use ir_store::{OpId, Store};

/// Whether each entry names one of the first `n` variables.
fn are_entries_below(n: usize, entries: &[Entry]) -> bool
    ensures { IsTrue result ↔ EntriesAreBelow n entries.now }
{
    for entry in entries {
        if entry.var.0 >= n {
            return false;
        }
    }
    true
}

/// The same of attributes.
fn are_attrs_below(n: usize, entries: &[AttrEntry]) -> bool
    ensures { IsTrue result ↔ AttrsAreBelow n entries.now }
{
    for entry in entries {
        if entry.var.0 >= n {
            return false;
        }
    }
    true
}

/// Whether the declared arguments of a region are some of the first `n` variables.
fn is_region_below(n: usize, entry: &RegionEntry) -> bool
    ensures { IsTrue result ↔ IfSome entry.now.args (AreBelow n) }
{
    match &entry.args {
        Some(vars) => are_below(n, vars.as_slice()),
        None => true,
    }
}

/// The same of each region.
fn are_regions_below(n: usize, entries: &[RegionEntry]) -> bool
    ensures { IsTrue result ↔ RegionsAreBelow n entries.now }
{
    for entry in entries {
        if !is_region_below(n, entry) {
            return false;
        }
    }
    true
}

/// Whether a definition names the first `n` variables alone, and has few entries.
fn are_names_below(n: usize, def: &OpDef) -> bool
    ensures { IsTrue result ↔ NamesAreBelow n def.now }
{
    are_entries_below(n, def.operands.as_slice())
        && are_entries_below(n, def.results.as_slice())
        && are_attrs_below(n, def.attrs.as_slice())
        && are_regions_below(n, def.regions.as_slice())
        && def.operands.as_slice().len() <= ENTRY_LIMIT
        && def.results.as_slice().len() <= ENTRY_LIMIT
}

/// Whether an operation may be judged by a definition.
fn is_sound_op(def: &OpDef, len: usize, count: usize) -> bool
    ensures { IsTrue result ↔ IsSoundOp len count def.now }
{
    is_sound_body(&def.body, len, count) && are_names_below(def.body.vars.as_slice().len(), def)
}

/// Whether operations may be judged by these definitions, over a table of `len` values and with
/// `count` predicates: their bodies are sound, each variable that they name is one of their body,
/// and none has more than [`ENTRY_LIMIT`] entries of operands or of results. It takes no memory.
pub fn are_sound_ops(defs: &[OpDef], len: usize, count: usize) -> bool
    ensures { IsTrue result ↔ AreSoundOps len count defs.now }
{
    for def in defs {
        if !is_sound_op(def, len, count) {
            return false;
        }
    }
    true
}

/// Whether each id is that of one of `len` values. It takes no memory.
pub fn are_known(len: usize, ids: &[ValueId]) -> bool
    ensures { IsTrue result ↔ AreKnown len ids.now }
{
    for id in ids {
        if id.0 >= len {
            return false;
        }
    }
    true
}

/// Whether each number is below `n`.
fn are_values(n: usize, numbers: &[usize]) -> bool
    ensures { IsTrue result ↔ AllByRecursion (λ k. k < n) numbers.now }
{
    for number in numbers {
        if *number >= n {
            return false;
        }
    }
    true
}

/// Whether an operation names one of `count` definitions and values of the module, and its
/// attributes have values of a table of `len`.
fn is_judgeable(store: &Store, op: OpId, count: usize, len: usize) -> bool
    requires { op.0 < length (ops_in store.now) }
    ensures { ForSome (op_at store.now op) (λ x.
        IsTrue result ↔ IsJudgeable count len store.now x) }
{
    let row = store.op(op);
    row.def < count
        && are_values(store.values(), row.operands.as_slice())
        && are_known(len, row.values.as_slice())
}

/// Whether the operations of a module may be judged by `count` definitions over a table of `len`
/// values: each names one of the definitions, operands are values of the module, and its types and
/// the values of its attributes are in the table. It takes no memory.
pub fn can_judge(store: &Store, count: usize, len: usize) -> bool
    ensures { IsTrue result ↔ CanJudge count len store.now }
{
    are_judgeable(store, count, len) && has_types(store, len)
}

/// Whether each operation may.
fn are_judgeable(store: &Store, count: usize, len: usize) -> bool
    ensures { IsTrue result ↔ AllByRecursion (IsJudgeable count len store.now) (ops_in store.now) }
{
    for i in 0..store.op_count() {
        if !is_judgeable(store, OpId(i), count, len) {
            return false;
        }
    }
    true
}

/// Whether the types of all values are in a table of `len` values.
fn has_types(store: &Store, len: usize) -> bool
    ensures { IsTrue result ↔ AreKnown len (types_in store.now) }
{
    for i in 0..store.values() {
        if type_of(store, i).0 >= len {
            return false;
        }
    }
    true
}

/// Whether `meets` takes a module, over a table of `len` values: the types of its values and the
/// values of its attributes are in the table. It takes no memory.
pub fn has_ids(store: &Store, len: usize) -> bool
    ensures { IsTrue result ↔ HasIds len store.now }
{
    has_types(store, len) && has_attrs(store, len)
}

/// Whether an operation's attributes have values of a table of `len`.
fn has_attrs_at(store: &Store, op: OpId, len: usize) -> bool
    requires { op.0 < length (ops_in store.now) }
    ensures { ForSome (op_at store.now op) (λ x. IsTrue result ↔ AreKnown len x.head.values) }
{
    are_known(len, store.op(op).values.as_slice())
}

/// Whether the attributes of each operation do.
fn has_attrs(store: &Store, len: usize) -> bool
    ensures { IsTrue result
        ↔ AllByRecursion (λ site. AreKnown len site.head.values) (ops_in store.now) }
{
    for i in 0..store.op_count() {
        if !has_attrs_at(store, OpId(i), len) {
            return false;
        }
    }
    true
}
