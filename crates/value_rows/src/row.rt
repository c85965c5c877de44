//! Rows, as they are listed.

use anyhow::{Context, Result};

/// What a line asks for.
#[derive(Clone, Copy)]
pub enum Row<'a> {
    /// The text comes to this: the canonical text of its value, or where and why it is refused.
    Value {
        text: &'a str,
        wanted: &'a str,
    },
    /// An alias of this name, without its sign, has the text's value.
    Alias {
        is_type: bool,
        name: &'a str,
        text: &'a str,
    },
}

impl<'a> Row<'a> {
    /// The row of a line, or none where the line is empty or a comment.
    pub fn of_line(line: &'a str) -> Result<Option<Row<'a>>> {
        if line.is_empty() || line.starts_with("//") {
            return Ok(None);
        }
        let (first, second) = line.split_once(';').context("a line without `;`")?;
        let (first, second) = (first.trim(), second.trim());
        let row = match first.strip_prefix("alias ") {
            Some(title) => Row::alias(title, second).context("an alias without a sign")?,
            None => Row::Value {
                text: first,
                wanted: second,
            },
        };
        Ok(Some(row))
    }

    /// The row of an alias of this name, with its sign; none where it has no sign.
    fn alias(title: &'a str, text: &'a str) -> Option<Row<'a>> {
        if let Some(name) = title.strip_prefix('!') {
            return Some(Row::Alias {
                is_type: true,
                name,
                text,
            });
        }
        let name = title.strip_prefix('#')?;
        Some(Row::Alias {
            is_type: false,
            name,
            text,
        })
    }
}
