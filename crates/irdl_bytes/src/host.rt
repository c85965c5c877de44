//! The machine's files and streams.
//!
//! They tell no content, only how many calls failed: what a real file or stream holds is outside
//! any proof. This is the trusted edge of the program.
ghost use Rattle.std.specs.Prelude.{◌≡◌, ◌<◌, ◌≤◌, length, IfOk, OnOk, OnErr};
ghost use Rattle.irdl_bytes.specs.Outside.{Rose};

use crate::outside::{Failed, Files, Sink};
use std::alloc::AllocError;
use std::fs::File;
use std::io::{self, ErrorKind, Read, Write};
use std::marker::Model;
use std::rt::{HostRuntime, Stderr, Stdout};

/// How many times a read is tried that a signal interrupts.
const READ_TRIES: u32 = 1_000_000;

/// The machine's files, of which one at a time is read.
#[derive(Drop)]
pub struct HostFiles {
    rt: HostRuntime,
    file: Option<File>,
    faults: u64,
}

impl Model for HostFiles {
    ghost use Rattle.irdl_bytes.specs.HostState.{HostState};

    ghost Value = { HostState };

    ghost view = { λ s. record { faults = s.faults } };
}

impl HostFiles {
    /// The machine's files, none of which is open. Paths are the machine's, and a relative one
    /// starts at the working directory.
    pub fn new(rt: &HostRuntime) -> Result<HostFiles, AllocError>
        ensures { IfOk result (λ files. files.faults ≡ 0) }
    {
        Ok(HostFiles {
            rt: rt.clone()?,
            file: None,
            faults: 0,
        })
    }
}

// Reads once, and again where a signal interrupted the read.
fn read_uninterrupted(file: &mut File, into: &mut [u8]) -> io::Result<usize>
    ensures { IfOk result (λ n. n ≤ length into.new) }
{
    for _ in 1..READ_TRIES {
        match file.read(into) {
            Err(error) if error.kind() == ErrorKind::Interrupted => {}
            answer => return answer,
        }
    }
    file.read(into)
}

impl Files for HostFiles {
    ghost use Rattle.std.specs.Prelude.{None, false};

    ghost file_map = { λ _. None };

    ghost open_file = { λ _. None };

    ghost steady = { λ _. false };

    ghost faults = { λ s. s.faults };

    /// As the trait's. A call that succeeds counts no fault.
    fn open(&mut self, name: &str) -> Result<(), Failed>
        ensures no_fault { OnOk result (self.new.faults ≡ self.old.faults) }

        // What the trait asks for.
        ensures later { self.old.faults ≤ self.new.faults }
        ensures cause { OnErr result (Rose self.old.faults self.new.faults) }
    {
        self.file = File::open(&self.rt, name).ok();
        if self.file.is_some() {
            return Ok(());
        }
        self.faults = self.faults.saturating_add(1);
        Err(Failed)
    }

    /// As the trait's. Where no file is open, no bytes are read. A call that succeeds counts no
    /// fault.
    fn read(&mut self, into: &mut [u8]) -> Result<usize, Failed>
        requires { 0 < length into.old }
        ensures no_fault { OnOk result (self.new.faults ≡ self.old.faults) }

        // What the trait asks for.
        ensures within { IfOk result (λ n. n ≤ length into.new) }
        ensures later { self.old.faults ≤ self.new.faults }
        ensures cause { OnErr result (Rose self.old.faults self.new.faults) }
    {
        let Some(file) = &mut self.file else {
            return Ok(0);
        };
        match read_uninterrupted(file, into) {
            Ok(count) => Ok(count),
            Err(_) => {
                self.faults = self.faults.saturating_add(1);
                Err(Failed)
            }
        }
    }
}

#[derive(Drop)]
enum Stream {
    Out(Stdout),
    Err(Stderr),
}

/// Standard output or standard error. Each write goes to the machine at once, so write large
/// pieces.
#[derive(Drop)]
pub struct HostSink {
    stream: Stream,
    faults: u64,
}

impl Model for HostSink {
    ghost use Rattle.irdl_bytes.specs.HostState.{HostState};

    ghost Value = { HostState };

    ghost view = { λ s. record { faults = s.faults } };
}

impl HostSink {
    /// Standard output.
    pub fn out(rt: &HostRuntime) -> Result<HostSink, AllocError>
        ensures { IfOk result (λ sink. sink.faults ≡ 0) }
    {
        Ok(HostSink {
            stream: Stream::Out(rt.stdout()),
            faults: 0,
        })
    }

    /// Standard error.
    pub fn err(rt: &HostRuntime) -> Result<HostSink, AllocError>
        ensures { IfOk result (λ sink. sink.faults ≡ 0) }
    {
        Ok(HostSink {
            stream: Stream::Err(rt.stderr()),
            faults: 0,
        })
    }
}

impl Sink for HostSink {
    ghost use Rattle.std.specs.Prelude.{None};

    ghost written = { λ _. None };

    ghost faults = { λ s. s.faults };

    /// As the trait's. A call that succeeds counts no fault.
    fn write_all(&mut self, piece: &[u8]) -> Result<(), Failed>
        ensures no_fault { OnOk result (self.new.faults ≡ self.old.faults) }

        // What the trait asks for.
        ensures later { self.old.faults ≤ self.new.faults }
        ensures cause { OnErr result (Rose self.old.faults self.new.faults) }
    {
        let written = match &mut self.stream {
            Stream::Out(out) => out.write_all(piece),
            Stream::Err(err) => err.write_all(piece),
        };
        if written.is_ok() {
            return Ok(());
        }
        self.faults = self.faults.saturating_add(1);
        Err(Failed)
    }
}
