//! That `run` succeeds where memory is ample, which no clause can say. Its answers are rows of the
//! program `rows`.

use super::*;
use irdl_bytes::{MemFiles, MemSink};
use native_predicate::Natives;
use std::test::Fail;

#[test]
fn definition_files_are_accepted(rt: HostRuntime) -> Result<(), Fail> {
    let natives = Natives::new(Vec::new(rt.alloc()));
    let mut files = MemFiles::new(rt.alloc());
    files.add("f.irdl", b"irdl.dialect @a {}")?;
    files.add("g.irdl", b"irdl.dialect @b {}")?;
    let mut out = MemSink::new(rt.alloc(), 0)?;
    let mut err = MemSink::new(rt.alloc(), 0)?;
    let words = ["check", "f.irdl", "g.irdl"];
    let status = run(rt.alloc(), &words, &natives, &mut files, &mut out, &mut err);
    assert_eq!(rt; status.number(), 0);
    Ok(())
}
