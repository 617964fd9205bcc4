//! Words of the text, which stand nowhere yet: declared names, and the names that the compiler gives.
ghost use Rattle.std.specs.Prelude.{◌≡◌, ◌++◌, IsTrue, IfOk, codes, decimal};
ghost use Rattle.plcx_types.specs.Name.{is_identifier};
ghost use Rattle.plcx_funcs.specs.Names.{function_name};
ghost use Rattle.plcx_meaning.specs.Base.{AtEdge, AtOutput};
ghost use Rattle.plcx_meaning.specs.Templates.{suffix, wire_name, memory_name, counter_name};

use itoa::Buffer;
use plcx_funcs::Func;
use plcx_st::Word;
use plcx_types::{Ident, IdentError, NoMemory, Span};
use std::alloc::Global;

/// A name that stands nowhere.
fn word_of(name: Ident) -> Word
    ensures { result.name ≡ name }
{
    Word {
        name,
        span: Span { start: 0, end: 0 },
    }
}

/// A copy of a name.
pub fn word_like(alloc: Global, name: &Ident) -> Result<Word, NoMemory>
    ensures { IfOk result (λ word. word.name ≡ name.now) }
{
    Ok(word_of(name.copy(alloc)?))
}

/// The name of that spelling.
pub fn word_named(alloc: Global, spelling: &[u8]) -> Result<Word, NoMemory>
    requires { IsTrue (is_identifier spelling.now) }
    ensures { IfOk result (λ word. word.name ≡ spelling.now) }
{
    match Ident::new(alloc, spelling) {
        Ok(name) => Ok(word_of(name)),
        Err(IdentError::NoMemory) => Err(NoMemory),
        Err(IdentError::NotIdent) => unreachable!(),
    }
}

/// A prefix, a number, and the name of a pin behind it, if there is one.
fn spelled(alloc: Global, prefix: &[u8], id: u64, pin: &[u8]) -> Result<Vec<u8>, NoMemory>
    ensures { IfOk result (λ bytes. bytes.items ≡ prefix.now ++ (decimal id ++ suffix pin.now)) }
{
    let mut digits = Buffer::new();
    let mut bytes = Vec::with_capacity(alloc, 32)?;
    bytes.extend_from_slice(prefix)?;
    bytes.extend_from_slice(digits.format(id).as_bytes())?;
    if !pin.is_empty() {
        bytes.push(b'_')?;
        bytes.extend_from_slice(pin)?;
    }
    Ok(bytes)
}

/// The temporary of a wire, by its element and its pin.
pub fn wire_word(alloc: Global, id: u64, pin: &[u8]) -> Result<Word, NoMemory>
    requires { IsTrue (is_identifier (wire_name id pin.now)) }
    ensures { IfOk result (λ word. word.name ≡ wire_name id pin.now) }
{
    let name = spelled(alloc, b"PLCX_W", id, pin)?;
    word_named(alloc, &name)
}

/// The variable of what an element remembers at its edge.
pub fn edge_word(alloc: Global, id: u64) -> Result<Word, NoMemory>
    requires { IsTrue (is_identifier (memory_name (AtEdge id))) }
    ensures { IfOk result (λ word. word.name ≡ memory_name (AtEdge id)) }
{
    let name = spelled(alloc, b"PLCX_M", id, b"")?;
    word_named(alloc, &name)
}

/// The variable of an output that feeds back, by its element and its pin.
pub fn fed_word(alloc: Global, id: u64, pin: &[u8]) -> Result<Word, NoMemory>
    requires { IsTrue (is_identifier (memory_name (AtOutput id pin.now))) }
    ensures { IfOk result (λ word. word.name ≡ memory_name (AtOutput id pin.now)) }
{
    let name = spelled(alloc, b"PLCX_F", id, pin)?;
    word_named(alloc, &name)
}

/// The temporary of the number of the network that follows.
pub fn counter_word(alloc: Global) -> Result<Word, NoMemory>
    ensures { IfOk result (λ word. word.name ≡ counter_name) }
{
    word_named(alloc, b"PLCX_N")
}

/// The name of a function.
pub fn function_word(alloc: Global, func: Func) -> Result<Word, NoMemory>
    requires { IsTrue (is_identifier (function_name func)) }
    ensures { IfOk result (λ word. word.name ≡ function_name func) }
{
    let name = func.name();
    let mut bytes = Vec::with_capacity(alloc, 16)?;
    bytes.extend_from_slice(name.first.as_bytes())?;
    bytes.extend_from_slice(name.joint.as_bytes())?;
    bytes.extend_from_slice(name.last.as_bytes())?;
    word_named(alloc, &bytes)
}
