//! The lines that tell a broken rule, a program that isn't there, and files that are refused.
ghost use Rattle.std.specs.Prelude.{◌≡◌, ◌++◌, [], ◌∷◌, codes, string_bytes, IfOk};
ghost use Rattle.std.specs.Option.{option_map};
ghost use Rattle.plcx_command.specs.Answer.{line, front, broken_line, place_words, program_line, retained_line, row_line, task_kind, tasks_line, text_kind, text_line};

use plcx_model::{Broken, Place};
use plcx_plan::TaskKind;
use plcx_text_file::{BrokenText, TextRule};
use plcx_types::NoMemory;
use std::alloc::Global;

/// The project file that a line is about: the one that is read first, or the new one of a migration.
#[derive(Clone, Copy, Debug, PartialEq, Eq)]
pub enum ProjectFile {
    First,
    New,
}

/// What the words about a project file have in front.
fn front(file: ProjectFile) -> &'static str
    ensures { result.now ≡ front file }
{
    match file {
        ProjectFile::First => "",
        ProjectFile::New => "new file: ",
    }
}

fn byte_words(alloc: Global, byte: u64) -> Result<String, NoMemory>
    ensures { IfOk result (λ text. string_bytes text ≡ codes "byte " ++ decimal byte) }
{
    Ok(format!(in alloc; "byte {byte}")?)
}

ghost use Rattle.std.specs.Fmt.{decimal};

fn place_words(alloc: Global, place: &Place) -> Result<Vec<u8>, NoMemory>
    ensures { IfOk result (λ words. words.items ≡ place_words place.now) }
{
    match place {
        Place::Byte(byte) => Ok(byte_words(alloc, *byte)?.into_bytes()),
        Place::Element { pou, local_id } => {
            let number = format!(in alloc; "{local_id}")?;
            let mut words = pou.text().to_vec(alloc)?;
            words.push(b' ')?;
            words.extend_from_slice(number.as_bytes())?;
            Ok(words)
        }
    }
}

fn rule_words(alloc: Global, file: ProjectFile, rule: u8) -> Result<String, NoMemory>
    ensures { IfOk result (λ text. string_bytes text ≡ codes "plcx: " ++ (front file ++ (codes "rule " ++ (decimal rule ++ codes " at ")))) }
{
    let front = front(file);
    Ok(format!(in alloc; "plcx: {front}rule {rule} at ")?)
}

/// The line of the first rule that a project file breaks, and its place.
pub fn broken_line(alloc: Global, file: ProjectFile, broken: &Broken) -> Result<Vec<u8>, NoMemory>
    ensures { IfOk result (λ line. line.items ≡ broken_line file broken.now) }
{
    let place = place_words(alloc, &broken.place)?;
    let mut line = rule_words(alloc, file, broken.rule.0)?.into_bytes();
    line.extend_from_slice(&place)?;
    line.push(b'\n')?;
    Ok(line)
}

fn named_line(alloc: Global, file: ProjectFile, name: &str) -> Result<String, NoMemory>
    ensures { IfOk result (λ text. string_bytes text ≡ line (front file ++ (codes "no program " ++ name.now))) }
{
    let front = front(file);
    Ok(format!(in alloc; "plcx: {front}no program {name}\n")?)
}

fn counted_line(alloc: Global, file: ProjectFile, programs: u64) -> Result<String, NoMemory>
    ensures { IfOk result (λ text. string_bytes text ≡ line (front file ++ (decimal programs ++ codes " programs, name one"))) }
{
    let front = front(file);
    Ok(format!(in alloc; "plcx: {front}{programs} programs, name one\n")?)
}

/// The line where a project file has no such program: its name, or how many there are where none is named.
pub fn program_line(
    alloc: Global,
    file: ProjectFile,
    program: Option<&str>,
    programs: u64,
) -> Result<Vec<u8>, NoMemory>
    ensures { IfOk result (λ line. line.items ≡ program_line file (option_map (λ s. s.now) program.entry) programs) }
{
    match program {
        Some(name) => Ok(named_line(alloc, file, name)?.into_bytes()),
        None => Ok(counted_line(alloc, file, programs)?.into_bytes()),
    }
}

/// What a text breaks, in one word.
fn text_kind(rule: TextRule) -> &'static str
    ensures { result.now ≡ text_kind rule }
{
    match rule {
        TextRule::Length => "length",
        TextRule::Lex => "lex",
        TextRule::Syntax => "syntax",
        TextRule::Depth => "depth",
        TextRule::Name => "name",
        TextRule::Types => "type",
        TextRule::Recursion => "recursion",
        TextRule::Literal => "literal",
    }
}

fn text_words(alloc: Global, kind: &str) -> Result<String, NoMemory>
    ensures { IfOk result (λ text. string_bytes text ≡ codes "plcx: text " ++ kind.now) }
{
    Ok(format!(in alloc; "plcx: text {kind}")?)
}

/// What stands behind the kind, with the end of the line.
fn byte_end(alloc: Global, at: u64) -> Result<String, NoMemory>
    ensures { IfOk result (λ text. string_bytes text ≡ codes " at byte " ++ (decimal at ++ 10 ∷ [])) }
{
    Ok(format!(in alloc; " at byte {at}\n")?)
}

/// The line of what a text breaks first, and of its place.
pub fn text_line(alloc: Global, broken: &BrokenText) -> Result<Vec<u8>, NoMemory>
    ensures { IfOk result (λ text. text.items ≡ text_line broken.now) }
{
    let end = byte_end(alloc, broken.at)?;
    let mut line = text_words(alloc, text_kind(broken.rule))?.into_bytes();
    line.extend_from_slice(end.as_bytes())?;
    Ok(line)
}

/// What is wrong with tasks, in one word.
fn task_kind(kind: TaskKind) -> &'static str
    ensures { result.now ≡ task_kind kind }
{
    match kind {
        TaskKind::Count => "count",
        TaskKind::Task => "task",
        TaskKind::Instance => "instance",
        TaskKind::Program => "program",
    }
}

/// The line of what is wrong first with the tasks of a file, and of its place.
pub fn tasks_line(alloc: Global, kind: TaskKind, at: u64) -> Result<Vec<u8>, NoMemory>
    ensures { IfOk result (λ text. text.items ≡ tasks_line kind at) }
{
    let kind = task_kind(kind);
    Ok(format!(in alloc; "plcx: tasks {kind} at byte {at}\n")?.into_bytes())
}

/// The line where a retained line is wrong.
pub fn retained_line(alloc: Global, line: u64) -> Result<Vec<u8>, NoMemory>
    ensures { IfOk result (λ text. text.items ≡ retained_line line) }
{
    Ok(format!(in alloc; "plcx: retained line {line}\n")?.into_bytes())
}

/// The line where a row of events is wrong.
pub fn row_line(alloc: Global, row: u64) -> Result<Vec<u8>, NoMemory>
    ensures { IfOk result (λ text. text.items ≡ row_line row) }
{
    Ok(format!(in alloc; "plcx: events row {row}\n")?.into_bytes())
}
