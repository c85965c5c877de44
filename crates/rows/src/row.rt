//! Rows, as they are listed and as they are drawn.

use crate::plan::Plan;
use anyhow::{Context, Result, bail};
use std::alloc::{AllocError, Global};
use std::fs;

/// The names of the files of a listed row, in the order of its texts.
const LISTED_NAMES: [&str; 3] = ["f.irdl", "g.irdl", "h.irdl"];

/// The name of the module of a listed row, which is the last of its texts.
const MODULE_NAME: &str = "m.mlir";

/// The commands that read a module, without its name.
const MODULE_COMMANDS: [&str; 2] = ["verify", "print generic"];

/// What stands between a module and its printed text.
const OUTCOME: &str = "// ---->\n";

/// A file in memory.
#[derive(Drop)]
pub struct File<'a> {
    pub name: &'a str,
    pub text: Vec<u8>,
}

/// A run of the program over files, and what it has to answer.
#[derive(Drop)]
pub struct Row<'a> {
    /// The row as it is told where it differs.
    pub title: &'a str,
    pub words: Vec<&'a str>,
    pub files: Vec<File<'a>>,
    pub plan: Plan,
    pub status: u8,
    /// What standard output has to get.
    pub out: Vec<u8>,
    /// What standard error has to get.
    pub err: Vec<u8>,
}

impl<'a> Row<'a> {
    /// The row of a line of the list.
    pub fn listed(alloc: Global, line: &'a str) -> Result<Row<'a>> {
        let fields: Vec<&str> = line.split(';').map(|field| field.trim()).collect(alloc)?;
        let [words, plan, status, out, err, texts @ ..] = fields.as_slice() else {
            bail!("a row has five fields before its texts: {line}");
        };
        let plan = Plan::of_items(plan)?;
        let has_module = words.starts_with("verify") || words.starts_with("print");
        Ok(Row {
            title: line,
            words: words_of(alloc, words)?,
            files: listed_files(alloc, texts, has_module, plan.spaces)?,
            plan,
            status: status.parse()?,
            out: unescaped(alloc, out)?,
            err: unescaped(alloc, err)?,
        })
    }

    /// The row of a part of a drawn file.
    pub fn drawn(rt: &HostRuntime, name: &'a str, part: &'a str) -> Result<Row<'a>> {
        if name.ends_with(".mlir") {
            Row::of_module(rt, name, part)
        } else {
            Row::of_definitions(rt.alloc(), name, part)
        }
    }

    /// The row of a drawn definition file.
    fn of_definitions(alloc: Global, name: &'a str, part: &'a str) -> Result<Row<'a>> {
        let err = drawn_line(alloc, name, part)?;
        let text = part.as_bytes().to_vec(alloc)?;
        Ok(Row {
            title: part,
            words: vec![in alloc; "check", name]?,
            files: vec![in alloc; File { name, text }]?,
            plan: Plan::default(),
            status: if err.is_empty() { 0 } else { 1 },
            out: Vec::new(alloc),
            err,
        })
    }

    /// The row of a drawn module, with the definition files that its first line names.
    fn of_module(rt: &HostRuntime, name: &'a str, part: &'a str) -> Result<Row<'a>> {
        let alloc = rt.alloc();
        let (command, defs) = command_in(part).context("a module begins with its command")?;
        let mut words: Vec<&str> = command.split_whitespace().collect(alloc)?;
        words.push(name)?;
        let (text, printed) = part.split_once(OUTCOME).unwrap_or((part, ""));
        let text = text.as_bytes().to_vec(alloc)?;
        let mut files = vec![in alloc; File { name, text }]?;
        for def in defs.split_whitespace() {
            words.push(def)?;
            let text = fs::read(rt, def).context("reading a definition file")?;
            files.push(File { name: def, text })?;
        }
        let err = drawn_line(alloc, name, part)?;
        let out = if command == "verify" || !err.is_empty() {
            Vec::new(alloc)
        } else if part.contains(OUTCOME) {
            printed.as_bytes().to_vec(alloc)?
        } else {
            without_comments(alloc, part)?
        };
        Ok(Row {
            title: part,
            words,
            files,
            plan: Plan::default(),
            status: if err.is_empty() { 0 } else { 2 },
            out,
            err,
        })
    }

    /// How many bytes standard output has to get.
    pub fn out_length(&self) -> usize {
        self.out.len().max(self.plan.out as usize)
    }
}

/// The command in the first line of a module, and the definition files behind it.
fn command_in(part: &str) -> Option<(&'static str, &str)> {
    let line = part.lines().next()?.strip_prefix("// ")?;
    for command in MODULE_COMMANDS {
        if let Some(defs) = line.strip_prefix(command) {
            return Some((command, defs));
        }
    }
    None
}

/// The lines of a text that are no comments.
fn without_comments(alloc: Global, text: &str) -> Result<Vec<u8>, AllocError> {
    let mut bytes = Vec::new(alloc);
    for line in text.lines() {
        if !line.starts_with("//") {
            bytes.extend_from_slice(line.as_bytes())?;
            bytes.push(b'\n')?;
        }
    }
    Ok(bytes)
}

/// The files of these texts, of which the last may be a module. So many spaces stand behind the
/// first.
fn listed_files(
    alloc: Global,
    texts: &[&str],
    has_module: bool,
    spaces: u64,
) -> Result<Vec<File<'static>>> {
    let mut files = Vec::new(alloc);
    for (file, text) in texts.iter().enumerate() {
        let is_last = file.saturating_add(1) == texts.len();
        let name = if has_module && is_last {
            MODULE_NAME
        } else {
            *LISTED_NAMES
                .get(file)
                .context("a row has three texts at most")?
        };
        let mut text = unescaped(alloc, text)?;
        if file == 0 {
            for _ in 0..spaces {
                text.push(b' ')?;
            }
        }
        files.push(File { name, text })?;
    }
    Ok(files)
}

fn words_of<'a>(alloc: Global, words: &'a str) -> Result<Vec<&'a str>, AllocError> {
    words
        .split_whitespace()
        .map(|word| if word == "''" { "" } else { word })
        .collect(alloc)
}

/// The bytes that a field stands for.
fn unescaped(alloc: Global, field: &str) -> Result<Vec<u8>> {
    let mut bytes = Vec::new(alloc);
    let mut is_first = true;
    for part in field.split('\\') {
        if is_first {
            bytes.extend_from_slice(part.as_bytes())?;
        } else {
            let (byte, rest) = escaped_byte(part).context("no byte behind a backslash")?;
            bytes.push(byte)?;
            bytes.extend_from_slice(rest.as_bytes())?;
        }
        is_first = false;
    }
    Ok(bytes)
}

/// The byte that is spelled behind a backslash, and what follows it.
fn escaped_byte(text: &str) -> Option<(u8, &str)> {
    if let Some(rest) = text.strip_prefix('n') {
        return Some((b'\n', rest));
    }
    let digits = text.strip_prefix('x')?;
    let byte = u8::from_str_radix(digits.get(..2)?, 16).ok()?;
    Some((byte, digits.get(2..)?))
}

/// The line for the refusal that is drawn into a file, or nothing.
fn drawn_line(alloc: Global, name: &str, part: &str) -> Result<Vec<u8>, AllocError> {
    for (above, line) in part.lines().enumerate() {
        if let Some((column, message)) = caret(line) {
            return Ok(format!(in alloc; "{name}:{above}:{column}: {message}\n")?.into_bytes());
        }
    }
    Ok(Vec::new(alloc))
}

/// The column of the caret in a comment that draws a refusal, from 1, and the message behind it.
fn caret(line: &str) -> Option<(usize, &str)> {
    let (before, message) = line.split_once("^ ")?;
    let is_drawn = before.trim() == "//" && message.starts_with("error ");
    is_drawn.then_some((before.len().saturating_add(1), message))
}
