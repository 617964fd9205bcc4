//! The tree of a whole file.
ghost use Rattle.std.specs.Prelude.{◌≡◌, ◌≤◌, [], IfOk, IfErr, List, ℕ, length, drop};
ghost use Rattle.plcx_xml.specs.Built.{Reached};
ghost use Rattle.plcx_xml.specs.Character.{front_of};
ghost use Rattle.plcx_xml.specs.Faults.{Fails, Stops};
ghost use Rattle.plcx_xml.specs.StandsForTree.{IsTreeOf, mark_len};
ghost use Rattle.plcx_xml.specs.declared.tree.Element.{Element};
ghost use Rattle.plcx_xml.specs.declared.tree.Node.TheVariants as node;

use crate::building::{Build, finish, take_token};
use crate::error::XmlError;
use crate::front::front_of;
use crate::tokens::token_of;
use crate::tree::Node;
use simdutf8::compat::from_utf8;
use std::alloc::Global;

/// What follows a byte order mark, if there is one.
fn behind_mark(bytes: &[u8]) -> &[u8]
    ensures { result.now ≡ drop (mark_len bytes.now) bytes.now }
{
    if bytes.len() >= 3 && bytes[..3] == [0xEF, 0xBB, 0xBF] {
        &bytes[3..]
    } else {
        bytes
    }
}

/// What all tokens build, or where none stands.
fn build_of(alloc: Global, front: &[u8]) -> Result<Build<'_>, XmlError>
    ensures built { IfOk result (Reached front.now []) }
    ensures stops { IfErr result (Stops front.now) }
{
    let last = front.len() as u64;
    let mut build = Build::Open(Vec::new(alloc));
    let mut rest = behind_mark(front);
    while !rest.is_empty() {
        let Some((token, after)) = token_of(alloc, last, rest)? else {
            return Err(XmlError::Token {
                at: last.saturating_sub(rest.len() as u64),
            });
        };
        build = take_token(alloc, build, token)?;
        rest = after;
    }
    Ok(build)
}

/// The tree that the bytes stand for, which is always an element, or their first fault: where they aren't UTF-8,
/// where no token stands, where the tags don't nest, or the first element that lies in 64 others.
pub fn read_tree(alloc: Global, bytes: &[u8]) -> Result<Node<'_>, XmlError>
    ensures tree { IfOk result (λ tree. (root : Element) × (tree ≡ node.Element root) × IsTreeOf bytes.now root) }
    ensures fails { IfErr result (Fails bytes.now) }
{
    let text = match from_utf8(bytes) {
        Ok(text) => text,
        Err(error) => {
            return Err(XmlError::NotUtf8 {
                at: error.valid_up_to() as u64,
            });
        }
    };
    let front = front_of(text);
    let build = build_of(alloc, front)?;
    if front.len() < bytes.len() {
        return Err(XmlError::Token {
            at: front.len() as u64,
        });
    }
    let root = finish(build, bytes.len() as u64)?;
    Ok(Node::Element(root))
}
