//! Files in memory, whose calls fail as planned.
//!
//! They serve tests and callers that hold their texts already. Everything is told, so each clause
//! here is exact: `specs/MemFiles.antt` says what a call leaves.
ghost use Rattle.std.specs.Prelude.{◌≡◌, ◌≢◌, ◌≤◌, ◌+◌, ◌∷◌, ◌++◌, ◌<◌, ℕ, List, [], Some, None, min, take, drop, length, position, is_err, is_some, IsTrue, IsSome, IfOk, IfSome, OnOk, OnErr, IsOk};
ghost use Rattle.std.specs.Option.{option_map};
ghost use Rattle.irdl_bytes.specs.MemFiles.{is_named, map_of, rest_of, open_fails, after_open, read_fails, after_read};
ghost use Rattle.irdl_bytes.specs.OpenAt.{opened, moved_by, name_at, IsFirstNamed, SameFirst};
ghost use Rattle.irdl_bytes.specs.Outside.{Rose, Lacks, ReadsTold, first_byte};
ghost use Rattle.irdl_bytes.specs.Planned.{none_later};

use crate::mem_file::MemFile;
use crate::outside::{Failed, Files};
use crate::plan::Plan;
use sqlite_items::Items;
use std::alloc::{AllocError, Global};
use std::marker::Model;

/// Files in memory, of which one at a time is read.
#[derive(Drop)]
pub struct MemFiles {
    alloc: Global,
    files: Vec<MemFile>,
    cursor: Option<Cursor>,
    plan: Plan,
}

// The index of the open file, and how many of its bytes were read.
#[derive(Clone, Copy)]
struct Cursor {
    file: usize,
    place: usize,
}

impl Model for MemFiles {
    ghost use Rattle.std.specs.Prelude.{IfSome};
    ghost use Rattle.irdl_bytes.specs.MemFiles.{FilesState};
    ghost use Rattle.irdl_bytes.specs.OpenAt.{IsFirstNamed, opened};

    ghost Value = { FilesState };

    ghost view = { λ s. record {
      files = s.files.items;
      open_file = opened s.files.items s.cursor;
      calls = s.plan.calls;
      planned = s.plan.planned.items;
      faults = s.plan.faults;
    } };

    ghost invariant = { λ s. IfSome s.cursor (λ cursor. IsFirstNamed s.files.items cursor.file) };
}

impl MemFiles {
    /// No file, and no failure planned. It takes no memory.
    pub fn new(alloc: Global) -> MemFiles
        ensures { result ≡ record {
          files = [];
          open_file = None;
          calls = 0;
          planned = [];
          faults = 0;
        } }
    {
        MemFiles {
            alloc,
            files: Vec::new(alloc),
            cursor: None,
            plan: Plan::new(alloc),
        }
    }

    /// Gives a name these bytes, in place of those that it has. A file that is open stays open at
    /// its place, also where that is past the end of its new bytes.
    pub fn add(&mut self, name: &str, bytes: &[u8]) -> Result<(), AllocError>
        ensures ok { OnOk result (map_of self.new.files name.now ≡ Some bytes.now) }
        ensures others { (other : List ℕ) → other ≢ name.now →
            map_of self.new.files other ≡ map_of self.old.files other }
        ensures kept { self.new ≡ record self.old { files = self.new.files } }
        ensures err { OnErr result (self.new ≡ self.old) }
    {
        set_bytes(self.alloc, &mut self.files, name, bytes)
    }

    /// Plans that call number `k` of `open` and `read` fails, counted together from 1 since `new`.
    /// A number that isn't of a call to come fails none.
    pub fn fail_call(&mut self, k: u64) -> Result<(), AllocError>
        ensures ok { OnOk result
            (self.new ≡ record self.old { planned = self.old.planned ++ k ∷ [] }) }
        ensures err { OnErr result (self.new ≡ self.old) }
    {
        self.plan.fail_call(k)
    }
}

// The index of the first file of a name.
fn position_of(files: &[MemFile], name: &[u8]) -> Option<usize>
    ensures { result ≡ position (is_named name.now) files.now }
{
    files.iter().position(|file| file.name.as_slice() == name)
}

// The same, said of the map of names.
fn index_of(files: &[MemFile], name: &[u8]) -> Option<usize>
    ensures known { is_some result ≡ is_some (map_of files.now name.now) }
    ensures first { IfSome result (λ at. IsFirstNamed files.now at) }
    ensures named { IfSome result (λ at. name_at files.now at ≡ name.now) }
{
    position_of(files, name)
}

// Gives a name these bytes. Each file that is there stays at its index.
fn set_bytes(
    alloc: Global,
    files: &mut Vec<MemFile>,
    name: &str,
    bytes: &[u8],
) -> Result<(), AllocError>
    ensures ok { OnOk result (map_of files.new.items name.now ≡ Some bytes.now) }
    ensures others { (other : List ℕ) → other ≢ name.now →
        map_of files.new.items other ≡ map_of files.old.items other }
    ensures firsts { (at : ℕ) → IsFirstNamed files.old.items at →
        SameFirst files.old.items files.new.items at }
    ensures err { OnErr result (files.new.items ≡ files.old.items) }
{
    let bytes = Items::from_slice(alloc, bytes)?;
    match index_of(files, name.as_bytes()) {
        Some(at) => {
            files[at].bytes = bytes;
        }
        None => {
            let name = Items::from_slice(alloc, name.as_bytes())?;
            files.push(MemFile { name, bytes })?;
        }
    }
    Ok(())
}

// Puts the next bytes of the open file at the front of `into`, moves the cursor past them, and
// answers how many they are.
fn read_on(files: &[MemFile], cursor: &mut Option<Cursor>, into: &mut [u8]) -> usize
    requires room { 0 < length into.old }
    requires first { IfSome cursor.old (λ c. IsFirstNamed files.now c.file) }
    ensures count { result ≡
        min (length into.old) (length (rest_of files.now (opened files.now cursor.old))) }
    ensures front { take result into.new ≡
        take result (rest_of files.now (opened files.now cursor.old)) }
    ensures moved { cursor.new ≡ option_map (moved_by result) cursor.old }
    ensures told { ReadsTold (Some (map_of files.now))
        (opened files.now cursor.old) (opened files.now cursor.new) result into.new }
{
    let Some(cursor) = cursor else { return 0 };
    let count = copy_from(files[cursor.file].bytes.as_slice(), cursor.place, into);
    cursor.place += count;
    count
}

// Copies the bytes from a place on as far as there is room, and answers how many they are.
fn copy_from(bytes: &[u8], place: usize, into: &mut [u8]) -> usize
    ensures count { result ≡ min (length into.old) (length (drop place bytes.now)) }
    ensures front { take result into.new ≡ take result (drop place bytes.now) }
{
    let rest = &bytes[place.min(bytes.len())..];
    let count = rest.len().min(into.len());
    into[..count].copy_from_slice(&rest[..count]);
    count
}

impl Files for MemFiles {
    ghost use Rattle.std.specs.Prelude.{Some};
    ghost use Rattle.irdl_bytes.specs.MemFiles.{map_of};
    ghost use Rattle.irdl_bytes.specs.Planned.{none_later};

    ghost file_map = { λ s. Some (map_of s.files) };

    ghost open_file = { λ s. s.open_file };

    ghost steady = { λ s. none_later s.calls s.planned };

    ghost faults = { λ s. s.faults };

    /// As the trait's. After a failure no file is open.
    fn open(&mut self, name: &str) -> Result<(), Failed>
        ensures fails { is_err result ≡ open_fails self.old name.now }
        ensures after { self.new ≡ after_open self.old name.now }

        // What the trait asks for.
        ensures same_map { Some (map_of self.new.files) ≡ Some (map_of self.old.files) }
        ensures has { OnOk result (IsSome (map_of self.old.files name.now)) }
        ensures opened { OnOk result (self.new.open_file ≡ Some (first_byte name.now)) }
        ensures stays_steady { IsTrue (none_later self.old.calls self.old.planned) →
            IsTrue (none_later self.new.calls self.new.planned) }
        ensures lacking { IsTrue (none_later self.old.calls self.old.planned) →
            OnErr result (Lacks (Some (map_of self.old.files)) name.now) }
        ensures later { self.old.faults ≤ self.new.faults }
        ensures cause { OnErr result (Rose self.old.faults self.new.faults) }
    {
        let planned = self.plan.count_call();
        match index_of(&self.files, name.as_bytes()) {
            Some(file) if !planned => {
                self.cursor = Some(Cursor { file, place: 0 });
                Ok(())
            }
            _ => {
                self.cursor = None;
                self.plan.count_fault();
                Err(Failed)
            }
        }
    }

    /// As the trait's. Where no file is open, no bytes are read; a failure leaves the place.
    fn read(&mut self, into: &mut [u8]) -> Result<usize, Failed>
        requires { 0 < length into.old }
        ensures fails { is_err result ≡ read_fails self.old }
        ensures count { IfOk result (λ n. n ≡
            min (length into.old) (length (rest_of self.old.files self.old.open_file))) }
        ensures front { IfOk result (λ n. take n into.new ≡
            take n (rest_of self.old.files self.old.open_file)) }
        ensures after { self.new ≡ after_read self.old
            (min (length into.old) (length (rest_of self.old.files self.old.open_file))) }

        // What the trait asks for.
        ensures same_map { Some (map_of self.new.files) ≡ Some (map_of self.old.files) }
        ensures within { IfOk result (λ n. n ≤ length into.new) }
        ensures bytes { IfOk result (λ n. ReadsTold (Some (map_of self.old.files))
            self.old.open_file self.new.open_file n into.new) }
        ensures stays_steady { IsTrue (none_later self.old.calls self.old.planned) →
            IsTrue (none_later self.new.calls self.new.planned) }
        ensures steady_reads { IsTrue (none_later self.old.calls self.old.planned) → IsOk result }
        ensures later { self.old.faults ≤ self.new.faults }
        ensures cause { OnErr result (Rose self.old.faults self.new.faults) }
    {
        if self.plan.count_call() {
            self.plan.count_fault();
            return Err(Failed);
        }
        Ok(read_on(&self.files, &mut self.cursor, into))
    }
}
