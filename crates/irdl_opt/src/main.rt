//! The program: the words, the predicates, the machine's files and the standard streams, handed to
//! `run`.
#![tactic(auto)]

use irdl_bytes::{HostFiles, HostSink};
use irdl_engine::{Status, run};
use native_predicate::{
    IsFloat, IsNonempty, IsPositive, IsSignless, IsStatic, IsType, NativePredicate, Natives,
};
use std::alloc::AllocError;
use std::env;
use std::io::ErrorKind;
use std::process::ExitCode;

fn main(rt: HostRuntime) -> ExitCode {
    let status = match answer(&rt) {
        Ok(status) => status,
        Err(_) => Status::OutOfMemory,
    };
    ExitCode::from(status.number())
}

/// Hands all to `run`, with the six predicates. Its only refusal is want of memory.
fn answer(rt: &HostRuntime) -> Result<Status, AllocError> {
    let alloc = rt.alloc();
    let mut list: Vec<Box<dyn NativePredicate>> = Vec::new(alloc);
    list.push(Box::new(alloc, IsType::new())?)?;
    list.push(Box::new(alloc, IsFloat::new())?)?;
    list.push(Box::new(alloc, IsSignless::new())?)?;
    list.push(Box::new(alloc, IsPositive::new())?)?;
    list.push(Box::new(alloc, IsNonempty::new())?)?;
    list.push(Box::new(alloc, IsStatic::new())?)?;
    let natives = Natives::new(list);
    let mut files = HostFiles::new(rt)?;
    let mut out = HostSink::out(rt)?;
    let mut err = HostSink::err(rt)?;
    let words = words(rt)?;
    let words: Vec<&str> = words.iter().map(|word| word.as_str()).collect(alloc)?;
    Ok(run(alloc, &words, &natives, &mut files, &mut out, &mut err))
}

/// The words behind the program's name. Where one isn't UTF-8 they are no command, as no words are.
fn words(rt: &HostRuntime) -> Result<Vec<String>, AllocError> {
    match env::args(rt) {
        Ok(args) => args.skip(1).collect(rt.alloc()),
        Err(error) if error.kind() == ErrorKind::OutOfMemory => Err(AllocError),
        Err(_) => Ok(Vec::new(rt.alloc())),
    }
}
