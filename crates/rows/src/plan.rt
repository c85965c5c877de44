//! What is planned for a row.

use anyhow::{Result, bail};

/// What is planned for a row. The numbers of calls count from 1, and 0 is that of none.
#[derive(Clone, Copy, Default)]
pub struct Plan {
    /// How many spaces stand behind the text.
    pub spaces: u64,
    /// The call of the files that fails.
    pub call: u64,
    /// The write to standard error that fails.
    pub write: u64,
    /// How many bytes standard output gets, where these are more than the row spells.
    pub out: u64,
    /// The row is also run with each stream that has too little room.
    pub fronts: bool,
}

impl Plan {
    /// The plan of these items.
    pub fn of_items(items: &str) -> Result<Plan> {
        let mut plan = Plan::default();
        for item in items.split_whitespace() {
            let (key, number) = item.split_once('=').unwrap_or((item, "0"));
            let number: u64 = number.parse()?;
            match key {
                "spaces" => plan.spaces = number,
                "call" => plan.call = number,
                "write" => plan.write = number,
                "out" => plan.out = number,
                "fronts" => plan.fronts = true,
                _ => bail!("no item of a plan: {item}"),
            }
        }
        Ok(plan)
    }
}
