//! The trees of the rows of tests.

use attr_value::{List, Text};
use generic_syntax::{
    AliasCst, ArgCst, BlockCst, FormCst, GenericCst, ModuleCst, NameCst, NumberCst, OpCst,
    RegionCst, ResultCst, UseCst, ValueCst, ValueNode,
};
use std::alloc::{AllocError, Global};

/// A place, and the name or the digits that stand there.
pub type At = (u32, &'static str);

/// A value name with the number behind it.
pub type Counted = (At, Option<At>);

/// An alias of types, and the alias that its value is, or a word.
pub type AliasRow = (At, Result<At, At>);

/// The label of a block, its argument, and an operation in it: its uses, its successors, and the
/// labels of the blocks of its region.
pub struct BlockRow {
    pub label: Option<At>,
    pub arg: Option<At>,
    pub uses: &'static [Counted],
    pub successors: &'static [At],
    pub inner: &'static [At],
}

/// Aliases, and one operation: its results, its uses, the aliases that are its results' types, and
/// the blocks of its region.
pub struct Row {
    pub aliases: &'static [AliasRow],
    pub results: &'static [Counted],
    pub uses: &'static [Counted],
    pub types: &'static [At],
    pub blocks: &'static [BlockRow],
    /// The place and the number of the first fault.
    pub fault: Option<(u32, u32)>,
}

fn text(alloc: Global, spelled: &str) -> Result<Text, AllocError> {
    Text::from_slice(alloc, spelled.as_bytes())
}

fn number(alloc: Global, row: Option<At>) -> Result<Option<NumberCst>, AllocError> {
    let Some((place, digits)) = row else {
        return Ok(None);
    };
    let digits = text(alloc, digits)?;
    Ok(Some(NumberCst { place, digits }))
}

fn name(alloc: Global, row: At) -> Result<NameCst, AllocError> {
    let (place, name) = row;
    let name = text(alloc, name)?;
    Ok(NameCst { place, name })
}

fn label(alloc: Global, row: Option<At>) -> Result<Option<NameCst>, AllocError> {
    match row {
        Some(at) => Ok(Some(name(alloc, at)?)),
        None => Ok(None),
    }
}

fn names(alloc: Global, rows: &[At]) -> Result<List<NameCst>, AllocError> {
    let mut list = List::new(alloc);
    for row in rows {
        list.push(name(alloc, *row)?)?;
    }
    Ok(list)
}

fn uses(alloc: Global, rows: &[Counted]) -> Result<List<UseCst>, AllocError> {
    let mut list = List::new(alloc);
    for row in rows {
        let ((place, name), count) = *row;
        let name = text(alloc, name)?;
        let number = number(alloc, count)?;
        list.push(UseCst {
            place,
            name,
            number,
        })?;
    }
    Ok(list)
}

fn results(alloc: Global, rows: &[Counted]) -> Result<List<ResultCst>, AllocError> {
    let mut list = List::new(alloc);
    for row in rows {
        let ((place, name), count) = *row;
        let name = text(alloc, name)?;
        let pack = number(alloc, count)?;
        list.push(ResultCst { place, name, pack })?;
    }
    Ok(list)
}

/// A mention of an alias of types.
fn mention(alloc: Global, row: At) -> Result<ValueCst, AllocError> {
    let (place, name) = row;
    let node = ValueNode::TypeAlias(text(alloc, name)?);
    Ok(ValueCst { place, node })
}

fn word(alloc: Global, row: At) -> Result<ValueCst, AllocError> {
    let (place, name) = row;
    let node = ValueNode::Word(text(alloc, name)?);
    Ok(ValueCst { place, node })
}

fn types(alloc: Global, rows: &[At]) -> Result<List<ValueCst>, AllocError> {
    let mut list = List::new(alloc);
    for row in rows {
        list.push(mention(alloc, *row)?)?;
    }
    Ok(list)
}

fn aliases(alloc: Global, rows: &[AliasRow]) -> Result<List<AliasCst>, AllocError> {
    let mut list = List::new(alloc);
    for row in rows {
        let ((place, name), value) = *row;
        let name = text(alloc, name)?;
        let value = match value {
            Ok(at) => mention(alloc, at)?,
            Err(at) => word(alloc, at)?,
        };
        list.push(AliasCst {
            place,
            is_type: true,
            name,
            value,
        })?;
    }
    Ok(list)
}

fn args(alloc: Global, row: Option<At>) -> Result<List<ArgCst>, AllocError> {
    let mut list = List::new(alloc);
    if let Some((place, name)) = row {
        let name = text(alloc, name)?;
        let ty = word(alloc, (place.wrapping_add(5), "i8"))?;
        list.push(ArgCst { place, name, ty })?;
    }
    Ok(list)
}

/// A list of one item, or of none.
fn one_region(alloc: Global, blocks: List<BlockCst>) -> Result<List<RegionCst>, AllocError> {
    let mut list = List::new(alloc);
    if !blocks.is_empty() {
        list.push(RegionCst { place: 0, blocks })?;
    }
    Ok(list)
}

fn op(
    alloc: Global,
    results: List<ResultCst>,
    operands: List<UseCst>,
    successors: List<NameCst>,
    outputs: List<ValueCst>,
    regions: List<RegionCst>,
) -> Result<OpCst, AllocError> {
    let name = text(alloc, "t.op")?;
    let form = FormCst::Generic(GenericCst {
        name,
        operands,
        successors,
        props: List::new(alloc),
        regions,
        attrs: List::new(alloc),
        inputs: List::new(alloc),
        outputs,
    });
    Ok(OpCst {
        place: 0,
        results,
        form,
    })
}

/// Blocks with labels, and no more.
fn labelled(alloc: Global, rows: &[At]) -> Result<List<BlockCst>, AllocError> {
    let mut list = List::new(alloc);
    for row in rows {
        list.push(BlockCst {
            label: Some(name(alloc, *row)?),
            args: List::new(alloc),
            ops: List::new(alloc),
        })?;
    }
    Ok(list)
}

fn block(alloc: Global, row: &BlockRow) -> Result<BlockCst, AllocError> {
    let regions = one_region(alloc, labelled(alloc, row.inner)?)?;
    let inner = op(
        alloc,
        List::new(alloc),
        uses(alloc, row.uses)?,
        names(alloc, row.successors)?,
        List::new(alloc),
        regions,
    )?;
    let mut ops = List::new(alloc);
    ops.push(inner)?;
    Ok(BlockCst {
        label: label(alloc, row.label)?,
        args: args(alloc, row.arg)?,
        ops,
    })
}

fn blocks(alloc: Global, rows: &[BlockRow]) -> Result<List<BlockCst>, AllocError> {
    let mut list = List::new(alloc);
    for row in rows {
        list.push(block(alloc, row)?)?;
    }
    Ok(list)
}

/// The tree of a row.
pub fn tree(alloc: Global, row: &Row) -> Result<ModuleCst, AllocError> {
    let regions = one_region(alloc, blocks(alloc, row.blocks)?)?;
    let outer = op(
        alloc,
        results(alloc, row.results)?,
        uses(alloc, row.uses)?,
        List::new(alloc),
        types(alloc, row.types)?,
        regions,
    )?;
    let mut ops = List::new(alloc);
    ops.push(outer)?;
    Ok(ModuleCst {
        aliases: aliases(alloc, row.aliases)?,
        ops,
    })
}
