//! The lines of a script.

ghost use Rattle.std.specs.Prelude.{◌≡◌, IfOk, option_map, option_and_then};
ghost use Rattle.lab.specs.Words.{parts_at_space};
ghost use Rattle.lab.specs.Script.{batch_repl_of, line_of, line_with, node_of, pass_line_with, public_of};
ghost use Rattle.lab.specs.Script.{conn_of, send_of, close_of, repl_of, turn_named, turn_of};
ghost use Rattle.lab.specs.Lines.{said_by};

use crate::escapes::unescape;
use crate::repl_line::{PassWords, read_batch_pass, read_pass};
use crate::turn::Turn;
use crate::words::{is_node_name, is_word, read_name, split_at_space};
use couch_json::Got;
use std::alloc::Global;
use store::DbName;

/// A line of a script.
#[derive(Debug, Drop)]
pub enum Line<'a> {
    /// `node A`: there is a node A.
    Node(&'a [u8]),
    /// `public A db`: node A has a database of this name that is open to everyone.
    Public(&'a [u8], DbName),
    /// `conn A c`: c is a connection to node A.
    Conn(&'a [u8], &'a [u8]),
    /// `send c TEXT`: connection c is sent the bytes that TEXT spells.
    Send(&'a [u8], Vec<u8>),
    /// `close c`: connection c is closed.
    Close(&'a [u8]),
    /// `repl r A/db B/db SESSION [NAME]`: r is a replication pass; `batch N r A/db B/db SESSION [NAME]`: it
    /// lists N changes at a time.
    Repl(PassWords<'a>),
    /// `step r`, `lose r`, `unsent r` or `run r`: pass r makes exchanges.
    Turn(Turn, &'a [u8]),
}

/// Reads a line, without its line feed; `None` where the bytes are no line of a script.
///
/// Words are separated by one space. A node's name is of ASCII letters and digits, a connection's
/// and a pass's of any bytes but space. The text of a `send` is the rest of its line, and may be
/// empty. A pass's session and user are UTF-8.
pub fn read_line<'a>(alloc: Global, bytes: &'a [u8]) -> Got<Option<Line<'a>>>
    ensures { IfOk result (λ line. option_map said_by line ≡ line_of bytes.now) }
{
    match split_at_space(bytes) {
        Some((word, rest)) => read_with(alloc, word, rest),
        None => Ok(None),
    }
}

/// Reads the line whose first word this is, with what stands behind it.
fn read_with<'a>(alloc: Global, word: &[u8], rest: &'a [u8]) -> Got<Option<Line<'a>>>
    ensures { IfOk result (λ line. option_map said_by line ≡ line_with word.now rest.now) }
{
    if word == b"node".as_slice() {
        return Ok(read_node(rest));
    }
    if word == b"public".as_slice() {
        return read_public(alloc, rest);
    }
    if word == b"conn".as_slice() {
        return Ok(read_conn(rest));
    }
    if word == b"send".as_slice() {
        return read_send(alloc, rest);
    }
    if word == b"close".as_slice() {
        return Ok(read_close(rest));
    }
    read_pass_line(alloc, word, rest)
}

/// Reads the line of a replication pass whose first word this is, with what stands behind it.
fn read_pass_line<'a>(alloc: Global, word: &[u8], rest: &'a [u8]) -> Got<Option<Line<'a>>>
    ensures { IfOk result (λ line. option_map said_by line ≡ pass_line_with word.now rest.now) }
{
    if word == b"repl".as_slice() {
        return read_repl(alloc, rest);
    }
    if word == b"batch".as_slice() {
        return read_batch_repl(alloc, rest);
    }
    match turn_of(word) {
        Some(turn) => Ok(read_turn(turn, rest)),
        None => Ok(None),
    }
}

/// Returns what the first word of a line has a pass do.
fn turn_of(word: &[u8]) -> Option<Turn>
    ensures { result ≡ turn_named word.now }
{
    if word == b"step".as_slice() {
        return Some(Turn::Step);
    }
    if word == b"lose".as_slice() {
        return Some(Turn::Lose);
    }
    if word == b"unsent".as_slice() {
        return Some(Turn::Unsent);
    }
    if word == b"run".as_slice() {
        return Some(Turn::Run);
    }
    None
}

fn read_turn<'a>(turn: Turn, name: &'a [u8]) -> Option<Line<'a>>
    ensures { option_map said_by result ≡ turn_of turn name.now }
{
    if is_word(name) {
        Some(Line::Turn(turn, name))
    } else {
        None
    }
}

fn read_node<'a>(name: &'a [u8]) -> Option<Line<'a>>
    ensures { option_map said_by result ≡ node_of name.now }
{
    if is_node_name(name) {
        Some(Line::Node(name))
    } else {
        None
    }
}

fn read_public<'a>(alloc: Global, rest: &'a [u8]) -> Got<Option<Line<'a>>>
    ensures { IfOk result (λ line. option_map said_by line ≡ option_and_then (λ p. public_of p.0 p.1) (parts_at_space rest.now)) }
{
    let Some((node, name)) = split_at_space(rest) else {
        return Ok(None);
    };
    if !is_node_name(node) {
        return Ok(None);
    }
    match read_name(alloc, name)? {
        Some(name) => Ok(Some(Line::Public(node, name))),
        None => Ok(None),
    }
}

fn read_conn<'a>(rest: &'a [u8]) -> Option<Line<'a>>
    ensures { option_map said_by result ≡ option_and_then (λ p. conn_of p.0 p.1) (parts_at_space rest.now) }
{
    match split_at_space(rest) {
        Some((node, name)) if is_node_name(node) && is_word(name) => Some(Line::Conn(node, name)),
        _ => None,
    }
}

fn read_send<'a>(alloc: Global, rest: &'a [u8]) -> Got<Option<Line<'a>>>
    ensures { IfOk result (λ line. option_map said_by line ≡ option_and_then (λ p. send_of p.0 p.1) (parts_at_space rest.now)) }
{
    let Some((name, text)) = split_at_space(rest) else {
        return Ok(None);
    };
    if !is_word(name) {
        return Ok(None);
    }
    match unescape(alloc, text)? {
        Some(piece) => Ok(Some(Line::Send(name, piece))),
        None => Ok(None),
    }
}

fn read_close<'a>(name: &'a [u8]) -> Option<Line<'a>>
    ensures { option_map said_by result ≡ close_of name.now }
{
    if is_word(name) {
        Some(Line::Close(name))
    } else {
        None
    }
}

fn read_repl<'a>(alloc: Global, words: &'a [u8]) -> Got<Option<Line<'a>>>
    ensures { IfOk result (λ line. option_map said_by line ≡ repl_of words.now) }
{
    match read_pass(alloc, None, words)? {
        Some(pass) => Ok(Some(Line::Repl(pass))),
        None => Ok(None),
    }
}

fn read_batch_repl<'a>(alloc: Global, words: &'a [u8]) -> Got<Option<Line<'a>>>
    ensures { IfOk result (λ line. option_map said_by line ≡ batch_repl_of words.now) }
{
    match read_batch_pass(alloc, words)? {
        Some(pass) => Ok(Some(Line::Repl(pass))),
        None => Ok(None),
    }
}
