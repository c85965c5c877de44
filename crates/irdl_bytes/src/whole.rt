//! A file's bytes as a whole, up to a limit.
ghost use Rattle.std.specs.Prelude.{◌≡◌, ◌<◌, ◌≤◌, IfOk, IsErrOf, IsTrue, length, vec_len};
ghost use Rattle.irdl_bytes.specs.Outside.{Rose, Lacks};
ghost use Rattle.irdl_bytes.specs.Whole.{TellsBytes, IsPastLimit};

use crate::outside::Files;
use std::alloc::{AllocError, Global};
use thiserror::Error;

/// The greatest length of a file that is read, in bytes.
pub const FILE_LIMIT: usize = 16_777_216;

// How many bytes are asked for at once.
const PIECE_LEN: usize = 65_536;

/// Why the bytes of a file weren't given.
#[derive(Clone, Copy, Debug, PartialEq, Eq, Error)]
pub enum ReadError {
    /// A call of `open` or `read` failed, and the count of faults rose.
    #[error("ReadFault")]
    ReadFault,
    /// The file has more than [`FILE_LIMIT`] bytes.
    #[error("InputLimit")]
    InputLimit,
    /// Memory ran out.
    #[error("OutOfMemory")]
    OutOfMemory,
}

// A buffer for one piece. What reads into it knows of it only that it has room.
fn new_buffer(alloc: Global) -> Result<Vec<u8>, AllocError>
    ensures { IfOk result (λ buffer. 0 < vec_len buffer) }
{
    vec![in alloc; 0u8; PIECE_LEN]
}

/// All bytes of the file of this name, which is opened and read to its end. A file that is too long
/// is read to one byte past the limit, and no further.
#[tactic(auto, using(crate::proofs::Reading::reading))]
pub fn read_whole<F: Files>(alloc: Global, files: &mut F, name: &str) -> Result<Vec<u8>, ReadError>
    ensures told { TellsBytes (F.file_map files.old) name.now result }
    ensures within { IfOk result (λ bytes. length bytes.items ≤ FILE_LIMIT) }
    ensures past_limit { IsErrOf result ReadError.InputLimit →
        IsPastLimit (F.file_map files.old) name.now (F.open_file files.new) }

    // A read fault has its cause, and a name that the map lacks always gives one.
    ensures cause { IsErrOf result ReadError.ReadFault →
        Rose (F.faults files.old) (F.faults files.new) }
    ensures lacking { Lacks (F.file_map files.old) name.now → IsErrOf result ReadError.ReadFault }
    ensures steady_lacks { IsTrue (F.steady files.old) →
        IsErrOf result ReadError.ReadFault → Lacks (F.file_map files.old) name.now }

    ensures same_map { F.file_map files.new ≡ F.file_map files.old }
    ensures stays_steady { IsTrue (F.steady files.old) → IsTrue (F.steady files.new) }
    ensures later { F.faults files.old ≤ F.faults files.new }
{
    if files.open(name).is_err() {
        return Err(ReadError::ReadFault);
    }
    let mut buffer = new_buffer(alloc).map_err(|_| ReadError::OutOfMemory)?;
    let mut bytes = Vec::new(alloc);
    loop {
        let space = FILE_LIMIT - bytes.len();
        let len = buffer.len().min(space + 1);
        let piece = &mut buffer[..len];
        let Ok(count) = files.read(piece) else {
            return Err(ReadError::ReadFault);
        };
        if count == 0 {
            return Ok(bytes);
        }
        if count > space {
            return Err(ReadError::InputLimit);
        }
        bytes
            .extend_from_slice(&piece[..count])
            .map_err(|_| ReadError::OutOfMemory)?;
    }
}
