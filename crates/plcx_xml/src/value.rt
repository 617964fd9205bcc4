//! The value that is written between two quotes.
ghost use Rattle.std.specs.Prelude.{◌≡◌, ◌++◌, [], length, OnOk, IfOk};
ghost use Rattle.std.specs.Option.{option_map};
ghost use Rattle.plcx_xml.specs.Pieces.{shown, shown_piece, Pieced};
ghost use Rattle.plcx_xml.specs.Reads.{piece_at, value_of, many};

use crate::content::Content;
use crate::lexing::plain_len;
use crate::reference::reference_of;
use std::alloc::{AllocError, Global};

/// Bytes that stand for themselves, or the character of a reference.
#[derive(Clone, Copy)]
pub enum Piece<'a> {
    Plain(&'a [u8]),
    Character(char),
}

fn piece_of(bytes: &[u8]) -> Option<(Piece<'_>, &[u8])>
    ensures { option_map shown_piece result ≡ piece_at bytes.now }
{
    if !bytes.is_empty() && bytes[0] != b'&' {
        let (plain, rest) = bytes.split_at(plain_len(bytes));
        return Some((Piece::Plain(plain), rest));
    }
    let (character, rest) = reference_of(bytes)?;
    Some((Piece::Character(character), rest))
}

fn put(value: &mut Vec<u8>, piece: Piece<'_>) -> Result<(), AllocError>
    ensures { OnOk result (value.new.items ≡ value.old.items ++ shown piece.entry) }
{
    match piece {
        Piece::Plain(bytes) => value.extend_from_slice(bytes),
        Piece::Character(character) => {
            let mut buffer = [0; 4];
            value.extend_from_slice(character.encode_utf8(&mut buffer).as_bytes())
        }
    }
}

/// All pieces from here on, one behind another, and what follows them.
fn pieces_of(alloc: Global, written: &[u8]) -> Result<(Vec<u8>, &[u8]), AllocError>
    ensures { IfOk result (λ found. Pieced found.0.items ([], found.1.now) (many piece_at (length written.now) written.now)) }
{
    let mut value = Vec::new(alloc);
    let mut rest = written;
    for turn in 0..written.len() {
        match piece_of(rest) {
            None => return Ok((value, rest)),
            Some((piece, after)) => {
                put(&mut value, piece)?;
                rest = after;
            }
        }
    }
    Ok((value, rest))
}

/// The value that is written so, if each `&` in it begins a reference. Without a `&` it stands there as it is.
#[tactic(auto, using(crate::proofs::WrittenLaws::plain_written))]
pub fn value_of(alloc: Global, written: &[u8]) -> Result<Option<Content<'_>>, AllocError>
    ensures { IfOk result (λ found. found ≡ value_of written.now) }
{
    if plain_len(written) == written.len() {
        return Ok(Some(Content::spelled(written)));
    }
    let (value, rest) = pieces_of(alloc, written)?;
    if rest.is_empty() {
        Ok(Some(Content::made(value)))
    } else {
        Ok(None)
    }
}
