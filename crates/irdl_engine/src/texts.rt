//! The texts of definition files.

ghost use Rattle.std.specs.Prelude.{◌≡◌, ◌≤◌, IsTrue, IfOk, IfErr};
ghost use Rattle.irdl_engine.specs.Obeyed.{files_seen};
ghost use Rattle.irdl_engine.specs.Said.{bytes_of, AreWhole, IsReadingStop, ReadsText};
ghost use Rattle.irdl_engine.specs.Words as words;

use crate::stop::Stop;
use irdl_bytes::{Files, ReadError, read_whole};
use std::alloc::Global;

/// Reads the file of this name whole. It is told by its number.
pub fn read_text<F: Files>(
    alloc: Global,
    files: &mut F,
    file: usize,
    name: &str,
) -> Result<Vec<u8>, Stop>
    ensures reads { ReadsText (files_seen F.file_map F.steady F.faults files.old files.new)
        name.now file result }
    ensures same_map { F.file_map files.new ≡ F.file_map files.old }
    ensures stays_steady { IsTrue (F.steady files.old) → IsTrue (F.steady files.new) }
    ensures later { F.faults files.old ≤ F.faults files.new }
{
    match read_whole(alloc, files, name) {
        Ok(text) => Ok(text),
        Err(ReadError::ReadFault) => Err(Stop::Unreadable(file)),
        Err(ReadError::InputLimit) => Err(Stop::TooLong(file)),
        Err(ReadError::OutOfMemory) => Err(Stop::OutOfMemory),
    }
}

/// Reads the files of these names whole, in their order, up to the first that can't be read. One
/// that is named twice is read twice.
pub fn read_texts<F: Files>(
    alloc: Global,
    files: &mut F,
    names: &[&str],
) -> Result<Vec<Vec<u8>>, Stop>
    ensures ok { IfOk result (λ texts.
        AreWhole (F.file_map files.old) (words.texts names.now) (bytes_of texts.items)) }
    ensures err { IfErr result (IsReadingStop
        (files_seen F.file_map F.steady F.faults files.old files.new) (words.texts names.now)) }
    ensures same_map { F.file_map files.new ≡ F.file_map files.old }
    ensures stays_steady { IsTrue (F.steady files.old) → IsTrue (F.steady files.new) }
    ensures later { F.faults files.old ≤ F.faults files.new }
{
    let mut texts = Vec::new(alloc);
    for (file, name) in names.iter().enumerate() {
        let text = read_text(alloc, files, file, name)?;
        texts.push(text).map_err(|_| Stop::OutOfMemory)?;
    }
    Ok(texts)
}
