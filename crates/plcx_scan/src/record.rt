//! The records of a file, by the crate `csv`.
ghost use Rattle.std.specs.Prelude.{◌≡◌, ◌∷◌, [], IfOk, length, if◌then◌else◌};
ghost use Rattle.std.specs.Str.{bytes_eq};
ghost use Rattle.plcx_scan.specs.Files.{records_of};
ghost use Rattle.plcx_scan.specs.ReadFiles.{field, has_word, is_word_alone};

use csv::{ByteRecord, Reader, ReaderBuilder};
use plcx_types::NoMemory;
use std::alloc::Global;
use std::marker::Model;

/// A record, seen as its fields.
#[derive(Drop)]
pub struct Record {
    row: ByteRecord,
}

impl Model for Record {
    ghost use Rattle.std.specs.Prelude.{ℕ, List};
    ghost use Rattle.csv.specs.Records.{fields_of};

    ghost Value = { List (List ℕ) };

    ghost view = { λ r. fields_of r.row };
}

fn is_word(field: &[u8], word: &[u8]) -> bool
    ensures { result ≡ bytes_eq field.now word.now }
{
    field == word
}

impl Record {
    /// A record into which others are read.
    pub fn new(alloc: Global) -> Record {
        Record {
            row: ByteRecord::new(alloc),
        }
    }

    /// How many fields it has.
    pub fn len(&self) -> usize
        ensures { result ≡ length self.now }
    {
        self.row.len()
    }

    /// The field at a place, which is empty past the end.
    pub fn field(&self, i: usize) -> &[u8]
        ensures { result.now ≡ field self.now i }
    {
        match self.row.get(i) {
            Some(field) => field,
            None => &[],
        }
    }

    /// Whether the field at a place is this word.
    pub fn has_word(&self, i: usize, word: &[u8]) -> bool
        ensures { result ≡ has_word self.now i word.now }
    {
        is_word(self.field(i), word)
    }

    /// Whether all fields behind the first are empty.
    pub fn is_word_alone(&self) -> bool
        ensures { result ≡ is_word_alone self.now }
    {
        for i in 1..self.len() {
            if !self.field(i).is_empty() {
                return false;
            }
        }
        true
    }
}

/// The records of a file that are left to read, one after another into the same record.
#[derive(Drop)]
pub struct Records<'a> {
    reader: Reader<&'a [u8]>,
    ended: bool,
}

impl<'a> Model for Records<'a> {
    ghost use Rattle.std.specs.Prelude.{◌≡◌, ℕ, List, [], false, if◌then◌else◌};
    ghost use Rattle.plcx_scan.specs.Readers.{IsReading, left_of};

    ghost Value = { List (List (List ℕ)) };

    ghost view = { λ r. if r.ended then [] else left_of r.reader };

    ghost invariant = { λ r. r.ended ≡ false → IsReading r.reader };
}

impl<'a> Records<'a> {
    /// The records of a file: commas, double quotes, no trimming, any lengths, and none of them apart as a header.
    pub fn of(alloc: Global, bytes: &'a [u8]) -> Records<'a>
        ensures { result ≡ records_of bytes.now }
    {
        let reader = ReaderBuilder::new()
            .has_headers(false)
            .flexible(true)
            .from_reader(alloc, bytes);
        Records {
            reader,
            ended: false,
        }
    }

    /// Reads the next record, if there is one.
    pub fn read(&mut self, row: &mut Record) -> Result<bool, NoMemory>
        ensures { IfOk result (λ found. self.old ≡ (if found then row.new ∷ self.new else [])) }
    {
        if self.ended {
            return Ok(false);
        }
        match self.reader.read_byte_record(&mut row.row) {
            Ok(true) => Ok(true),
            Ok(false) => {
                self.ended = true;
                Ok(false)
            }
            // Nothing but want of memory is left: a slice can be read, and lengths may differ.
            Err(_) => {
                self.ended = true;
                Err(NoMemory)
            }
        }
    }
}
