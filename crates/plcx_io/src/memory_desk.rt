ghost use Rattle.std.specs.Prelude.{◌≡◌, ◌≤◌, ◌<◌, ◌-◌, ◌^◌, ℕ, List, length, take, position, min, if◌then◌else◌, Some, IfOk, IfSome, OnErr, string_bytes};
ghost use Rattle.std.specs.Io.{ReadsAtMost};
ghost use Rattle.std.specs.Option.{option_map, option_copied};
ghost use Rattle.std.specs.Result.{is_err};
ghost use Rattle.std.specs.Str.{bytes_eq};
ghost use Rattle.plcx_io.specs.Counts.{raised, Rose};
ghost use Rattle.plcx_io.specs.Told.{ReadsFrom};
ghost use Rattle.plcx_io.specs.Memory.{after_fault, file_named, contents_of, faults_of, call_fails, count_after};

use crate::desk::{Desk, Failed};
use std::marker::Model;

/// A file in memory, with its name and its count of failed calls.
#[derive(Debug, Drop)]
pub struct MemFile {
    name: String,
    bytes: Vec<u8>,
    faults: u64,
}

impl Model for MemFile {
    ghost use Rattle.std.specs.Prelude.{string_bytes};
    ghost use Rattle.plcx_io.specs.Memory.{StoredFile};

    ghost Value = { StoredFile };

    ghost view = { λ file. record {
      name = string_bytes file.name;
      bytes = file.bytes.items;
      faults = file.faults;
    } };
}

impl MemFile {
    /// No call for it has failed so far.
    pub fn new(name: String, bytes: Vec<u8>) -> MemFile
        ensures { result ≡ record { name = string_bytes name; bytes = bytes.items; faults = 0 } }
    {
        MemFile {
            name,
            bytes,
            faults: 0,
        }
    }

    fn is_named(&self, name: &str) -> bool
        ensures { result ≡ bytes_eq self.now.name name.now }
    {
        self.name.as_str() == name
    }

    fn fail(&mut self)
        ensures counted { self.new ≡ after_fault self.old }
        ensures range { self.old.faults < 2 ^ 64 }
    {
        self.faults = self.faults.saturating_add(1);
    }

    fn copy_from(&self, from: u64, buf: &mut [u8]) -> usize
        ensures count { result ≡ min (length self.now.bytes - from) (length buf.old) }
        ensures piece { ReadsFrom (Some self.now.bytes) from (length buf.new) (take result buf.new) }
    {
        if from >= self.bytes.len() as u64 {
            return 0;
        }
        let rest = &self.bytes[from as usize..];
        let count = rest.len().min(buf.len());
        buf[..count].copy_from_slice(&rest[..count]);
        count
    }
}

/// Files in memory. It tells their bytes; of two files of one name the first counts.
#[derive(Debug, Drop)]
pub struct MemDesk {
    files: Vec<MemFile>,
    failing: Vec<u64>,
    calls: u64,
    missing: u64,
}

impl Model for MemDesk {
    ghost use Rattle.plcx_io.specs.Memory.{MemoryDesk};

    ghost Value = { MemoryDesk };

    ghost view = { λ desk. record {
      files = desk.files.items;
      failing = desk.failing.items;
      calls = desk.calls;
      missing = desk.missing;
    } };
}

impl MemDesk {
    /// The files, and the numbers of the calls that fail, counted from 1.
    pub fn new(files: Vec<MemFile>, failing: Vec<u64>) -> MemDesk
        ensures { result
            ≡ record { files = files.items; failing = failing.items; calls = 0; missing = 0 } }
    {
        MemDesk {
            files,
            failing,
            calls: 0,
            missing: 0,
        }
    }
}

fn first_named<'a>(files: &'a [MemFile], name: &str) -> Option<&'a MemFile>
    ensures { option_copied result ≡ file_named files.now name.now }
{
    files.iter().find(|file| file.is_named(name))
}

fn place_of(files: &[MemFile], name: &str) -> Option<usize>
    ensures { result ≡ position (λ file. bytes_eq file.name name.now) files.now }
{
    files.iter().position(|file| file.is_named(name))
}

/// Counts a failed call for the first file of the name.
fn count_fault(files: &mut [MemFile], name: &str)
    ensures counted { (other : List ℕ) → let was = file_named files.old other in
        file_named files.new other ≡ (if bytes_eq name.now other then option_map after_fault was else was) }
    ensures range { IfSome (file_named files.old name.now) (λ file. file.faults < 2 ^ 64) }
{
    if let Some(at) = place_of(files, name) {
        files[at].fail();
    }
}

impl Desk for MemDesk {
    ghost file = { contents_of };

    ghost faults = { faults_of };

    fn read(&mut self, name: &str, from: u64, buf: &mut [u8]) -> Result<usize, Failed>
        ensures bound { ReadsAtMost result buf.new }
        ensures piece { IfOk result (λ count.
            ReadsFrom (contents_of self.old name.now) from (length buf.new) (take count buf.new)) }
        ensures files { (other : List ℕ) → contents_of self.new other ≡ contents_of self.old other }
        ensures later { (other : List ℕ) → faults_of self.old other ≤ faults_of self.new other }
        ensures cause { OnErr result
            (Rose (faults_of self.old name.now) (faults_of self.new name.now)) }

        // Beyond any desk: which calls fail, how much the others give, and what is counted.
        ensures calls { self.new.calls ≡ raised self.old.calls }
        ensures failing { self.new.failing ≡ self.old.failing }
        ensures fails { is_err result ≡ call_fails self.old name.now }
        ensures count { IfOk result (λ count. IfSome (contents_of self.old name.now)
            (λ bytes. count ≡ min (length bytes - from) (length buf.new))) }
        ensures counted { (other : List ℕ) →
            faults_of self.new other ≡ count_after self.old name.now (is_err result) other }
    {
        self.calls = self.calls.saturating_add(1);
        let fails = self.failing.contains(&self.calls);
        match first_named(&self.files, name) {
            None => {
                self.missing = self.missing.saturating_add(1);
                Err(Failed)
            }
            Some(_) if fails => {
                count_fault(&mut self.files, name);
                Err(Failed)
            }
            Some(file) => Ok(file.copy_from(from, buf)),
        }
    }
}
