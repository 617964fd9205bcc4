//! The other records of an event file: scans and restarts.
ghost use Rattle.std.specs.Prelude.{◌≡◌, ◌≤◌, ◌+◌, ◌++◌, [], true, Some, None, IfOk, IfSome, length, map, drop, option_map, if◌then◌else◌};
ghost use Rattle.std.specs.List.{list_all};
ghost use Rattle.plcx_types.specs.Duration.{number};
ghost use Rattle.plcx_types.specs.Limits.{max_event_time};
ghost use Rattle.plcx_types.specs.Numeral.{is_digit};
ghost use Rattle.plcx_scan.specs.Entries.{WasRead, count_of, event_of};
ghost use Rattle.plcx_scan.specs.Files.{max_time_digits};
ghost use Rattle.plcx_scan.specs.ReadFiles.{within_limit, time_of, field_inputs, inputs_of, scan_event, restart_event, row_event};

use crate::column::Column;
use crate::event::{Entry, Input};
use crate::record::Record;
use plcx_types::limits::MAX_EVENT_TIME;
use plcx_types::{NoMemory, read_value};

const MAX_TIME_DIGITS: usize = 19;

fn are_digits(text: &[u8]) -> bool
    ensures { result ≡ list_all (is_digit 10) text.now }
{
    text.iter().all(|byte| byte.is_ascii_digit())
}

/// The number that decimal digits stand for.
fn number(text: &[u8]) -> u64
    requires few { length text.now ≤ max_time_digits }
    requires digits { list_all (is_digit 10) text.now ≡ true }
    ensures { result ≡ number text.now }
{
    let mut n = 0;
    for byte in text {
        n = n * 10 + u64::from(*byte - b'0');
    }
    n
}

fn within_limit(time: u64) -> Option<u64>
    ensures value { result ≡ within_limit time }
    ensures within { IfSome result (λ t. t ≤ max_event_time) }
{
    if time <= MAX_EVENT_TIME as u64 {
        Some(time)
    } else {
        None
    }
}

/// The time that a text stands for: decimal digits for a number within the limit.
pub fn read_time(text: &[u8]) -> Option<u64>
    ensures value { result ≡ time_of text.now }
    ensures within { IfSome result (λ time. time ≤ max_event_time) }
{
    if !text.is_empty() && text.len() <= MAX_TIME_DIGITS && are_digits(text) {
        within_limit(number(text))
    } else {
        None
    }
}

/// Takes the input of a field, if it gives one; not where it has something that is no value of the leaf.
fn push_input(inputs: &mut Vec<Input>, column: Column, field: &[u8]) -> Result<bool, NoMemory>
    ensures { IfOk result (λ went. option_map (λ some. inputs.old.items ++ some) (field_inputs column field.now) ≡ (if went then Some inputs.new.items else None)) }
{
    if field.is_empty() {
        return Ok(true);
    }
    let Ok(value) = read_value(column.ty, field) else {
        return Ok(false);
    };
    inputs.push(Input {
        leaf: column.leaf,
        value,
    })?;
    Ok(true)
}

/// Takes the inputs of the fields of a scan; not where one has something that is no value of its leaf.
fn read_inputs(inputs: &mut Vec<Input>, columns: &[Column], row: &Record) -> Result<bool, NoMemory>
    requires { length row.now ≡ length columns.now + 2 }
    ensures { IfOk result (λ went. option_map (λ some. inputs.old.items ++ some) (inputs_of columns.now (drop 2 row.now)) ≡ (if went then Some inputs.new.items else None)) }
{
    for i in 0..columns.len() {
        let went = push_input(inputs, columns[i], row.field(i + 2))?;
        if !went {
            return Ok(false);
        }
    }
    Ok(true)
}

/// A scan, if its time is not before the last one, and each field is empty or a value.
#[tactic(auto, unfolding(crate::specs::ReadFiles::scan_event))]
fn read_scan(
    inputs: &mut Vec<Input>,
    columns: &[Column],
    last: u64,
    row: &Record,
) -> Result<Option<Entry>, NoMemory>
    requires { length row.now ≡ length columns.now + 2 }
    ensures { IfOk result (WasRead (scan_event columns.now last row.now) inputs.old.items inputs.new.items) }
{
    let Some(time) = read_time(row.field(1)) else {
        return Ok(None);
    };
    if time < last {
        return Ok(None);
    }
    let before = inputs.len();
    if !read_inputs(inputs, columns, row)? {
        return Ok(None);
    }
    Ok(Some(Entry::Scan {
        time: time as i64,
        count: inputs.len() - before,
    }))
}

/// A restart, if there is nothing behind its word.
#[tactic(auto, unfolding(crate::specs::ReadFiles::restart_event))]
fn read_restart(row: &Record) -> Option<Entry>
    ensures value { option_map (λ e. event_of e []) result ≡ restart_event row.now }
    ensures alone { IfSome result (λ e. count_of e ≡ 0) }
{
    if !row.is_word_alone() {
        None
    } else if row.has_word(0, b"warm") {
        Some(Entry::Warm)
    } else if row.has_word(0, b"cold") {
        Some(Entry::Cold)
    } else {
        None
    }
}

/// The event that a record stands for, where the last scan was at this time. Its inputs come behind the others.
#[tactic(auto, unfolding(crate::specs::ReadFiles::row_event))]
pub(crate) fn read_row(
    inputs: &mut Vec<Input>,
    columns: &[Column],
    last: u64,
    row: &Record,
) -> Result<Option<Entry>, NoMemory>
    ensures { IfOk result (WasRead (row_event columns.now last row.now) inputs.old.items inputs.new.items) }
{
    if row.len() != columns.len() + 2 {
        return Ok(None);
    }
    if row.has_word(0, b"scan") {
        return read_scan(inputs, columns, last, row);
    }
    Ok(read_restart(row))
}
