ghost use Rattle.std.specs.Prelude.{◌≡◌};
ghost use Rattle.plcx_read.specs.Reading as spec;
ghost use Rattle.plcx_read.specs.Gives.{Gives};

use crate::lexemes::Lexemes;
use crate::lists::several_parts;
use crate::token::{Part, behind, expect, literal_at, name_at, next, same, sees, unexpected};
use plcx_st::{Decl, Mark, Number, Terminal, TextBlock, TextClass};
use sqlite_items::Items;
use std::alloc::Global;

#[tactic(auto, unfolding(crate::specs::Reading::address_token))]
fn address_token<'t>(alloc: Global, end: u64, tokens: &Lexemes<'t>) -> Part<'t, Option<Items<u8>>>
    ensures { Gives end (λ x. (x.0, 0, x.1)) result (spec.address_token tokens.now) }
{
    match tokens.split() {
        None => Err(unexpected(end, tokens)),
        Some((x, rest)) => {
            if !same(x.terminal(), Terminal::Address) {
                return Err(unexpected(end, tokens));
            }
            Ok((Some(x.address(alloc)?), rest))
        }
    }
}

#[tactic(auto, unfolding(crate::specs::Reading::address_at))]
fn address_at<'t>(alloc: Global, end: u64, tokens: &Lexemes<'t>) -> Part<'t, Option<Items<u8>>>
    ensures { Gives end (λ x. (x.0, 0, x.1)) result (spec.address_at tokens.now) }
{
    if !sees(Terminal::At, tokens) {
        return Ok((None, tokens.same()));
    }
    address_token(alloc, end, &behind(tokens))
}

#[tactic(auto, unfolding(crate::specs::Reading::initial_at))]
fn initial_at<'t>(end: u64, tokens: &Lexemes<'t>) -> Part<'t, Option<Number>>
    ensures { Gives end (λ x. (x.0, 0, x.1)) result (spec.initial_at tokens.now) }
{
    if !sees(Terminal::Assign, tokens) {
        return Ok((None, tokens.same()));
    }
    let (number, rest) = literal_at(end, &behind(tokens))?;
    Ok((Some(number), rest))
}

#[tactic(auto, unfolding(crate::specs::Reading::decl))]
fn decl<'t>(alloc: Global, end: u64, tokens: &Lexemes<'t>) -> Part<'t, Decl>
    ensures { Gives end (λ x. (x.0, 0, x.1)) result (spec.decl tokens.now) }
{
    let (name, rest) = name_at(alloc, end, tokens)?;
    let (address, rest) = address_at(alloc, end, &rest)?;
    let rest = expect(end, Terminal::Colon, &rest)?;
    let (ty, rest) = name_at(alloc, end, &rest)?;
    let (initial, rest) = initial_at(end, &rest)?;
    let rest = expect(end, Terminal::Semicolon, &rest)?;
    let decl = Decl {
        name,
        address,
        ty,
        initial,
    };
    Ok((decl, rest))
}

#[tactic(auto, unfolding(crate::specs::Reading::bare_decl))]
fn bare_decl<'t>(alloc: Global, end: u64, tokens: &Lexemes<'t>) -> Part<'t, Decl>
    ensures { Gives end (λ x. (x.0, 0, x.1)) result (spec.bare_decl tokens.now) }
{
    let (name, rest) = name_at(alloc, end, tokens)?;
    let rest = expect(end, Terminal::Colon, &rest)?;
    let (ty, rest) = name_at(alloc, end, &rest)?;
    let rest = expect(end, Terminal::Semicolon, &rest)?;
    let decl = Decl {
        name,
        address: None,
        ty,
        initial: None,
    };
    Ok((decl, rest))
}

fn begins_decl(terminal: Terminal) -> bool
    ensures { result ≡ spec.begins_decl terminal }
{
    matches!(terminal, Terminal::Name)
}

#[tactic(auto, unfolding(crate::specs::Reading::several))]
fn decls<'t>(alloc: Global, end: u64, tokens: &Lexemes<'t>) -> Part<'t, Items<Decl>>
    ensures { Gives end (λ x. (x.0, 0, x.1)) result (spec.all_of spec.begins_decl spec.decl tokens.now) }
{
    several_parts!(
        alloc,
        end,
        tokens,
        begins_decl,
        |rest| decl(alloc, end, &rest)
    )
}

#[tactic(auto, unfolding(crate::specs::Reading::several))]
fn bare_decls<'t>(alloc: Global, end: u64, tokens: &Lexemes<'t>) -> Part<'t, Items<Decl>>
    ensures { Gives end (λ x. (x.0, 0, x.1)) result (spec.all_of spec.begins_decl spec.bare_decl tokens.now) }
{
    several_parts!(
        alloc,
        end,
        tokens,
        begins_decl,
        |rest| bare_decl(alloc, end, &rest)
    )
}

fn mark_at<'t>(tokens: &Lexemes<'t>) -> (Mark, Lexemes<'t>)
    ensures mark { result.0 ≡ (spec.mark_at tokens.now).0 }
    ensures rest { result.1 ≡ (spec.mark_at tokens.now).2 }
{
    match next(tokens) {
        Terminal::Constant => (Mark::Constant, behind(tokens)),
        Terminal::Retain => (Mark::Retain, behind(tokens)),
        _ => (Mark::Plain, tokens.same()),
    }
}

#[tactic(auto, unfolding(crate::specs::Reading::block_of))]
fn block_of<'t>(
    alloc: Global,
    end: u64,
    class: TextClass,
    mark: Mark,
    tokens: &Lexemes<'t>,
) -> Part<'t, TextBlock>
    ensures { Gives end (λ x. (x.0, 0, x.1)) result (spec.block_of spec.decl class mark tokens.now) }
{
    let (decls, rest) = decls(alloc, end, tokens)?;
    let rest = expect(end, Terminal::EndVar, &rest)?;
    Ok((TextBlock { class, mark, decls }, rest))
}

#[tactic(auto, unfolding(crate::specs::Reading::block_of))]
fn bare_block<'t>(alloc: Global, end: u64, tokens: &Lexemes<'t>) -> Part<'t, TextBlock>
    ensures { Gives end (λ x. (x.0, 0, x.1)) result (spec.block_of spec.bare_decl TextClass.InOut Mark.Plain tokens.now) }
{
    let (decls, rest) = bare_decls(alloc, end, tokens)?;
    let rest = expect(end, Terminal::EndVar, &rest)?;
    let block = TextBlock {
        class: TextClass::InOut,
        mark: Mark::Plain,
        decls,
    };
    Ok((block, rest))
}

fn marked_block<'t>(
    alloc: Global,
    end: u64,
    class: TextClass,
    tokens: &Lexemes<'t>,
) -> Part<'t, TextBlock>
    ensures { Gives end (λ x. (x.0, 0, x.1)) result (spec.marked_block class tokens.now) }
{
    let (mark, rest) = mark_at(tokens);
    block_of(alloc, end, class, mark, &rest)
}

#[tactic(auto, unfolding(crate::specs::Reading::block))]
fn block<'t>(alloc: Global, end: u64, tokens: &Lexemes<'t>) -> Part<'t, TextBlock>
    ensures { Gives end (λ x. (x.0, 0, x.1)) result (spec.block tokens.now) }
{
    match tokens.split() {
        None => Err(unexpected(end, tokens)),
        Some((x, rest)) => match x.terminal() {
            Terminal::Var => marked_block(alloc, end, TextClass::Var, &rest),
            Terminal::VarInput => marked_block(alloc, end, TextClass::Input, &rest),
            Terminal::VarOutput => marked_block(alloc, end, TextClass::Output, &rest),
            Terminal::VarTemp => block_of(alloc, end, TextClass::Temp, Mark::Plain, &rest),
            Terminal::VarInOut => bare_block(alloc, end, &rest),
            _ => Err(unexpected(end, tokens)),
        },
    }
}

fn begins_block(terminal: Terminal) -> bool
    ensures { result ≡ spec.begins_block terminal }
{
    matches!(
        terminal,
        Terminal::Var
            | Terminal::VarInput
            | Terminal::VarOutput
            | Terminal::VarTemp
            | Terminal::VarInOut
    )
}

/// Blocks of declarations.
#[tactic(auto, unfolding(crate::specs::Reading::several))]
pub fn blocks<'t>(alloc: Global, end: u64, tokens: &Lexemes<'t>) -> Part<'t, Items<TextBlock>>
    ensures { Gives end (λ x. (x.0, 0, x.1)) result (spec.all_of spec.begins_block spec.block tokens.now) }
{
    several_parts!(
        alloc,
        end,
        tokens,
        begins_block,
        |rest| block(alloc, end, &rest)
    )
}
