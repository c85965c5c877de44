//! The table of definitions.

ghost use Rattle.std.specs.Prelude.{◌<◌, ◌^◌, length};

/// A definition: the number of its name, its region, the size of its pack or the number of its
/// block, and the definition before it in its region.
#[derive(Clone, Copy)]
pub struct BindingRow {
    pub name: u32,
    pub region: u32,
    pub number: u32,
    pub next: Option<u32>,
}

/// The definitions, and the last one of each region.
#[derive(Drop)]
pub struct Listed {
    pub rows: Vec<BindingRow>,
    pub heads: Vec<Option<u32>>,
    ghost few: { length rows.items < 2 ^ 32 },
}
