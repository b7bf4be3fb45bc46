ghost use Rattle.std.specs.Prelude.{◌≡◌, IfOk};
ghost use Rattle.std.specs.Option.{option_copied, option_map};
ghost use Rattle.address_text.specs.Fields.{parts_of};
ghost use Rattle.schedule_text.specs.Fields.{bytes_of, configured, is_node, next_word, node_at, node_of};
ghost use Rattle.schedule_text.specs.Fields.{number_at, outside, outside_at};

use address_text::{cut, read_number, read_socket};
use hex::{FromHexError, decode};
use std::alloc::{AllocError, Global};
use vip_config::{Config, Who};
use wire_core::{FrameBytes, Items, NoMemory, NodeId, Socket};

/// The most bytes of a datagram.
const MAX_BYTES: usize = 65_507;

/// The next word of a line, and what is left behind it.
pub fn next_word(words: Option<&[u8]>) -> Option<(&[u8], Option<&[u8]>)>
    ensures { option_map (λ w. (w.0.now, parts_of 32 (option_copied w.1))) result
        ≡ next_word (parts_of 32 (option_copied words.entry)) }
{
    Some(cut(words?, b' '))
}

/// A number of 64 bits.
#[tactic(auto, unfolding(crate::specs::Fields::number_at))]
pub fn number_at(words: Option<&[u8]>) -> Option<(u64, Option<&[u8]>)>
    ensures { option_map (λ w. (w.0, parts_of 32 (option_copied w.1))) result
        ≡ number_at (parts_of 32 (option_copied words.entry)) }
{
    let (word, rest) = next_word(words)?;
    let n = read_number(word, u64::MAX)?;
    Some((n, rest))
}

/// A role and a number.
fn node_of(role: &[u8], index: &[u8]) -> Option<NodeId>
    ensures { result ≡ node_of role.now index.now }
{
    if role == b"replica".as_slice() {
        Some(NodeId::Replica(read_number(index, 255)? as u8))
    } else if role == b"mux".as_slice() {
        Some(NodeId::Mux(read_number(index, 65535)? as u16))
    } else if role == b"agent".as_slice() {
        Some(NodeId::Agent(read_number(index, 65535)? as u16))
    } else {
        None
    }
}

fn configured(cfg: &Config, node: NodeId) -> Option<NodeId>
    ensures { result ≡ configured cfg.now node }
{
    if cfg.socket(&node).is_some() {
        Some(node)
    } else {
        None
    }
}

/// A node that is configured.
#[tactic(auto, unfolding(crate::specs::Fields::node_at))]
pub fn node_at<'a>(cfg: &Config, words: Option<&'a [u8]>) -> Option<(NodeId, Option<&'a [u8]>)>
    ensures { option_map (λ w. (w.0, parts_of 32 (option_copied w.1))) result
        ≡ node_at cfg.now (parts_of 32 (option_copied words.entry)) }
{
    let (role, rest) = next_word(words)?;
    let (index, rest) = next_word(rest)?;
    let named = node_of(role, index)?;
    let node = configured(cfg, named)?;
    Some((node, rest))
}

fn is_node(who: Who) -> bool
    ensures { result ≡ is_node who }
{
    match who {
        Who::Replica(_) | Who::Mux(_) | Who::Agent(_) => true,
        Who::Machine(_) | Who::Outside => false,
    }
}

fn outside(cfg: &Config, socket: Socket) -> Option<Socket>
    ensures { result ≡ outside cfg.now socket }
{
    if is_node(cfg.who(&socket)) {
        None
    } else {
        Some(socket)
    }
}

/// A socket that isn't a node's.
#[tactic(auto, unfolding(crate::specs::Fields::outside_at))]
pub fn outside_at<'a>(cfg: &Config, words: Option<&'a [u8]>) -> Option<(Socket, Option<&'a [u8]>)>
    ensures { option_map (λ w. (w.0, parts_of 32 (option_copied w.1))) result
        ≡ outside_at cfg.now (parts_of 32 (option_copied words.entry)) }
{
    let (word, rest) = next_word(words)?;
    let socket = read_socket(word)?;
    let from = outside(cfg, socket)?;
    Some((from, rest))
}

/// 1 to 65,507 bytes in hexadecimal, of either case. `None` exactly where the text is no such.
pub fn read_bytes(alloc: Global, text: &[u8]) -> Result<Option<FrameBytes>, NoMemory>
    ensures { IfOk result (λ bytes. bytes ≡ bytes_of text.now) }
{
    match decode(alloc, text) {
        Ok(bytes) => {
            if bytes.is_empty() || bytes.len() > MAX_BYTES {
                Ok(None)
            } else {
                Ok(Some(Items::from_vec(bytes)))
            }
        }
        Err(FromHexError::OutOfMemory) => Err(AllocError),
        Err(_) => Ok(None),
    }
}
