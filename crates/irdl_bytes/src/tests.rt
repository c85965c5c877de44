//! What no clause says: that calls succeed, that limits are met at their edge, what the machine
//! does, and the names of errors. Expected values are counted by hand.
use super::*;
use std::test::Fail;

// A text under "a", an empty one under "b", and nothing else.
fn some_files(rt: &HostRuntime) -> Result<MemFiles, Fail> {
    let mut files = MemFiles::new(rt.alloc());
    files.add("a", b"one")?;
    files.add("b", b"")?;
    files.add("a", b"two")?;
    Ok(files)
}

#[test]
fn a_name_has_the_bytes_added_last(rt: HostRuntime) -> Result<(), Fail> {
    let mut files = some_files(&rt)?;
    for (name, want) in [("a", b"two".as_slice()), ("b", b"")] {
        assert_eq!(rt;
            read_whole(rt.alloc(), &mut files, name)?.as_slice(),
            want,
            "{name}"
        );
    }
    let missing = read_whole(rt.alloc(), &mut files, "c");
    assert!(rt; matches!(&missing, Err(ReadError::ReadFault)));
    Ok(())
}

#[test]
fn an_open_file_stays_open_where_its_bytes_change(rt: HostRuntime) -> Result<(), Fail> {
    let mut files = some_files(&rt)?;
    let mut into = [0; 2];
    assert!(rt; files.open("a").is_ok());
    assert_eq!(rt; files.read(&mut into), Ok(2));
    for (bytes, count, front) in [
        (b"after".as_slice(), 2, b"te".as_slice()),
        (b"four.", 1, b"."),
        (b"x", 0, b""),
    ] {
        files.add("a", bytes)?;
        assert_eq!(rt; files.read(&mut into), Ok(count));
        assert_eq!(rt; &into[..count], front);
    }
    Ok(())
}

#[test]
fn planned_calls_fail_and_no_others(rt: HostRuntime) -> Result<(), Fail> {
    let mut into = [0; 4];
    for k in 0..5 {
        let mut files = some_files(&rt)?;
        files.fail_call(k)?;
        assert_eq!(rt; files.open("a").is_err(), k == 1, "open, {k}");
        assert_eq!(rt; files.read(&mut into).is_err(), k == 2, "first read, {k}");
        assert_eq!(rt; files.read(&mut into).is_err(), k == 3, "second read, {k}");
        assert_eq!(rt; files.open("c").is_err(), true, "unknown name, {k}");
        assert_eq!(rt; files.read(&mut into), Ok(0), "nothing open, {k}");
    }
    Ok(())
}

#[test]
fn a_sink_fails_as_planned(rt: HostRuntime) -> Result<(), Fail> {
    let mut sink = MemSink::new(rt.alloc(), 5)?;
    sink.fail_call(2)?;
    for (piece, fails, bytes) in [
        (b"ab".as_slice(), false, b"ab".as_slice()),
        (b"cd", true, b"ab"),
        (b"cdef", true, b"abcde"),
        (b"", false, b"abcde"),
        (b"f", true, b"abcde"),
    ] {
        assert_eq!(rt; sink.write_all(piece).is_err(), fails);
        assert_eq!(rt; sink.bytes(), bytes);
    }
    sink.fail_after(1);
    assert!(rt; sink.write_all(b"").is_ok());
    assert!(rt; sink.write_all(b"x").is_err());
    Ok(())
}

#[test]
fn a_file_at_the_limit_is_read_and_a_longer_one_refused(rt: HostRuntime) -> Result<(), Fail> {
    let mut bytes = vec![in rt.alloc(); b' '; FILE_LIMIT]?;
    let mut files = MemFiles::new(rt.alloc());
    files.add("a", &bytes)?;
    assert_eq!(rt; read_whole(rt.alloc(), &mut files, "a")?.len(), 16_777_216);
    bytes.push(b' ')?;
    files.add("a", &bytes)?;
    let longer = read_whole(rt.alloc(), &mut files, "a");
    assert!(rt; matches!(&longer, Err(ReadError::InputLimit)));
    Ok(())
}

#[test]
fn errors_are_called_by_their_names(rt: HostRuntime) -> Result<(), Fail> {
    for (error, name) in [
        (ReadError::ReadFault, "ReadFault"),
        (ReadError::InputLimit, "InputLimit"),
        (ReadError::OutOfMemory, "OutOfMemory"),
    ] {
        assert_eq!(rt; format!(in rt.alloc(); "{error}")?.as_str(), name);
    }
    Ok(())
}

#[test]
fn the_machines_files_are_read(rt: HostRuntime) -> Result<(), Fail> {
    std::fs::write(&rt, "f.txt", "text")?;
    let mut files = HostFiles::new(&rt)?;
    assert_eq!(rt;
        read_whole(rt.alloc(), &mut files, "f.txt")?.as_slice(),
        b"text".as_slice()
    );
    assert!(rt; files.open("g.txt").is_err());
    assert!(rt; files.open(".").is_ok());
    assert!(rt; files.read(&mut [0; 4]).is_err(), "a directory");
    std::fs::remove_file(&rt, "f.txt")?;
    Ok(())
}

#[test]
fn standard_output_is_written(rt: HostRuntime) -> Result<(), Fail> {
    let mut sink = HostSink::out(&rt)?;
    assert!(rt; sink.write_all(b"to standard output\n").is_ok());
    Ok(())
}

#[test]
fn standard_error_is_written(rt: HostRuntime) -> Result<(), Fail> {
    let mut sink = HostSink::err(&rt)?;
    assert!(rt; sink.write_all(b"to standard error\n").is_ok());
    Ok(())
}
