//! Paths: the names of instances, the outermost first, and the name of a variable in the last of them.
ghost use Rattle.std.specs.Prelude.{◌≡◌, ◌↔◌, ◌++◌, ◌∷◌, IsTrue, IfOk, OnOk, not, map, codes};
ghost use Rattle.std.specs.List.{list_all};
ghost use Rattle.plcx_types.specs.Lists.{Each};
ghost use Rattle.plcx_types.specs.Name.{in_lower_case};
ghost use Rattle.plcx_types.specs.Reserved.{is_own};
ghost use Rattle.plcx_meaning.specs.Base.{same_path, is_declared};
ghost use Rattle.plcx_state.specs.Layouts.{meant_path, dotted};
ghost use Rattle.plcx_state.specs.Tables.{IsPlain};

use plcx_types::{Ident, NoMemory};
use std::alloc::Global;
use std::marker::Model;

/// Names in order.
#[derive(Debug, Drop)]
pub struct Path {
    names: Vec<Ident>,
}

impl Model for Path {
    ghost use Rattle.std.specs.Prelude.{ℕ, List};

    ghost Value = { List (List ℕ) };

    ghost view = { λ p. p.names.items };
}

fn is_own(word: &[u8]) -> bool
    ensures { result ≡ is_own word.now }
{
    5 <= word.len() && word[..5].eq_ignore_ascii_case(b"PLCX_")
}

fn are_declared(names: &[Ident]) -> bool
    ensures { result ≡ list_all (λ name. not (is_own name)) names.now }
{
    names.iter().all(|name| !is_own(name.text()))
}

fn is_same_name(left: &Ident, right: &Ident) -> bool
    ensures { IsTrue result ↔ (in_lower_case left.now ≡ in_lower_case right.now) }
{
    left.same(right)
}

fn are_same(left: &[Ident], right: &[Ident]) -> bool
    ensures { IsTrue result ↔ (map in_lower_case left.now ≡ map in_lower_case right.now) }
{
    if left.len() != right.len() {
        return false;
    }
    for i in 0..left.len() {
        if !is_same_name(&left[i], &right[i]) {
            return false;
        }
    }
    true
}

/// A name more at the end of a path that has one, behind a point.
fn push_name(text: &mut Vec<u8>, name: &Ident) -> Result<(), NoMemory>
    ensures text { OnOk result (text.new.items ≡ text.old.items ++ (codes "." ++ name.now)) }
    ensures plain { OnOk result (IsPlain name.now) }
{
    text.push(b'.')?;
    text.extend_from_slice(name.text())?;
    Ok(())
}

fn first_name(alloc: Global, name: &Ident) -> Result<Vec<u8>, NoMemory>
    ensures text { IfOk result (λ text. text.items ≡ name.now) }
    ensures plain { IfOk result (λ _. IsPlain name.now) }
{
    Ok(name.text().to_vec(alloc)?)
}

fn with_others(alloc: Global, first: &Ident, others: &[Ident]) -> Result<Vec<u8>, NoMemory>
    ensures text { IfOk result (λ text. text.items ≡ dotted (first.now ∷ others.now)) }
    ensures plain { IfOk result (λ _. IsPlain first.now × Each IsPlain others.now) }
{
    let mut text = first_name(alloc, first)?;
    for name in others {
        push_name(&mut text, name)?;
    }
    Ok(text)
}

fn dotted(alloc: Global, names: &[Ident]) -> Result<Vec<u8>, NoMemory>
    ensures text { IfOk result (λ text. text.items ≡ dotted names.now) }
    ensures plain { IfOk result (λ _. Each IsPlain names.now) }
{
    match names.split_first() {
        Some((first, others)) => Ok(with_others(alloc, first, others)?),
        None => Ok(Vec::new(alloc)),
    }
}

impl Path {
    /// The path of these names.
    pub fn new(names: Vec<Ident>) -> Path
        ensures { result ≡ names.items }
    {
        Path { names }
    }

    /// Its names, the outermost first.
    pub fn names(&self) -> &[Ident]
        ensures { result.now ≡ self.now }
    {
        self.names.as_slice()
    }

    /// Whether both are one path, whatever the case of their letters.
    pub fn same(&self, other: &Path) -> bool
        ensures { result ≡ same_path (meant_path other.now) (meant_path self.now) }
    {
        are_same(self.names(), other.names())
    }

    /// Whether no name on it is one of the compiler's own.
    #[tactic(auto, using(crate::proofs::Paths::declared_meant))]
    pub fn is_declared(&self) -> bool
        ensures { result ≡ is_declared (meant_path self.now) }
    {
        are_declared(self.names())
    }

    /// Its names with points between them.
    pub fn text(&self, alloc: Global) -> Result<Vec<u8>, NoMemory>
        ensures text { IfOk result (λ text. text.items ≡ dotted self.now) }
        ensures plain { IfOk result (λ _. Each IsPlain self.now) }
    {
        dotted(alloc, self.names())
    }
}
