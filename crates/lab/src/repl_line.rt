//! The line that names a replication pass.

ghost use Rattle.std.specs.Prelude.{◌≡◌, IfOk, option_map};
ghost use Rattle.repl.specs.Configuration.{batch_size};
ghost use Rattle.lab.specs.Lines.{pass_said, session_said, side_said, side_then_said};
ghost use Rattle.lab.specs.PassLines.{batch_in, batch_pass_of, pass_from, pass_named, pass_words_of, session_alone};
ghost use Rattle.lab.specs.PassLines.{session_and_user, session_of, side_of, side_then_of};

use crate::words::{is_node_name, is_word, read_name, read_text, split_at_slash, split_at_space};
use command_line::read_number;
use couch_json::Got;
use repl::Batch;
use std::alloc::Global;
use std::str;
use store::DbName;

/// A database of a node.
#[derive(Debug, Drop)]
pub struct PassSide<'a> {
    /// Both names as they are written: `A/db`.
    pub text: &'a str,
    pub node: &'a [u8],
    pub database: DbName,
}

/// A replication pass, as a line names it.
#[derive(Debug, Drop)]
pub struct PassWords<'a> {
    pub name: &'a [u8],
    pub source: PassSide<'a>,
    pub target: PassSide<'a>,
    pub session: &'a str,
    /// The user in whose name the pass asks.
    pub user: Option<&'a str>,
    /// How many changes it lists at a time; without one, all at once.
    pub batch: Option<Batch>,
}

/// A side, and what stands behind its space.
#[derive(Debug, Drop)]
pub struct SideThen<'a> {
    pub side: PassSide<'a>,
    pub rest: &'a [u8],
}

/// The session of a pass, and its user where one is named.
#[derive(Debug, Drop)]
pub struct PassSession<'a> {
    pub session: &'a str,
    pub user: Option<&'a str>,
}

/// Reads `N r A/db B/db SESSION [NAME]`, a pass with a batch; `None` where the bytes are no such words.
pub fn read_batch_pass<'a>(alloc: Global, words: &'a [u8]) -> Got<Option<PassWords<'a>>>
    ensures { IfOk result (λ pass. option_map pass_said pass ≡ batch_pass_of words.now) }
{
    let Some((size, rest)) = split_at_space(words) else {
        return Ok(None);
    };
    match read_batch(size) {
        Some(batch) => read_pass(alloc, Some(batch), rest),
        None => Ok(None),
    }
}

/// Reads how many changes a pass lists at a time.
fn read_batch(bytes: &[u8]) -> Option<Batch>
    ensures { option_map batch_size result ≡ batch_in bytes.now }
{
    let text = read_text(bytes)?;
    let size = read_number(text, 1, 1_000)?;
    Batch::new(u64::from(size))
}

/// Reads `r A/db B/db SESSION [NAME]`, for a pass with this batch, if any; `None` where the bytes are no
/// such words.
pub fn read_pass<'a>(
    alloc: Global,
    batch: Option<Batch>,
    words: &'a [u8],
) -> Got<Option<PassWords<'a>>>
    ensures { IfOk result (λ pass. option_map pass_said pass ≡ pass_words_of (option_map batch_size batch) words.now) }
{
    match split_at_space(words) {
        Some((name, rest)) => read_named(alloc, batch, name, rest),
        None => Ok(None),
    }
}

/// Reads `A/db B/db SESSION [NAME]` behind the name of the pass.
fn read_named<'a>(
    alloc: Global,
    batch: Option<Batch>,
    name: &'a [u8],
    words: &'a [u8],
) -> Got<Option<PassWords<'a>>>
    ensures { IfOk result (λ pass. option_map pass_said pass ≡ pass_named (option_map batch_size batch) name.now words.now) }
{
    if !is_word(name) {
        return Ok(None);
    }
    match read_side_then(alloc, words)? {
        Some(first) => read_from(alloc, batch, name, first.side, first.rest),
        None => Ok(None),
    }
}

/// Reads `B/db SESSION [NAME]` behind the source of the pass.
fn read_from<'a>(
    alloc: Global,
    batch: Option<Batch>,
    name: &'a [u8],
    source: PassSide<'a>,
    words: &'a [u8],
) -> Got<Option<PassWords<'a>>>
    ensures { IfOk result (λ pass. option_map pass_said pass ≡ pass_from (option_map batch_size batch) name.now (side_said source.entry) words.now) }
{
    let Some(second) = read_side_then(alloc, words)? else {
        return Ok(None);
    };
    let Some(last) = read_session(second.rest) else {
        return Ok(None);
    };
    Ok(Some(PassWords {
        name,
        source,
        target: second.side,
        session: last.session,
        user: last.user,
        batch,
    }))
}

/// Reads `A/db`, a space, and what stands behind it.
fn read_side_then<'a>(alloc: Global, words: &'a [u8]) -> Got<Option<SideThen<'a>>>
    ensures { IfOk result (λ side. option_map side_then_said side ≡ side_then_of words.now) }
{
    let Some((text, rest)) = split_at_space(words) else {
        return Ok(None);
    };
    match read_side(alloc, text)? {
        Some(side) => Ok(Some(SideThen { side, rest })),
        None => Ok(None),
    }
}

/// Reads `A/db`. Both names are ASCII, so bytes that are no text are no side.
fn read_side<'a>(alloc: Global, bytes: &'a [u8]) -> Got<Option<PassSide<'a>>>
    ensures { IfOk result (λ side. option_map side_said side ≡ side_of bytes.now) }
{
    let Ok(text) = str::from_utf8(bytes) else {
        return Ok(None);
    };
    let Some((node, name)) = split_at_slash(bytes) else {
        return Ok(None);
    };
    if !is_node_name(node) {
        return Ok(None);
    }
    match read_name(alloc, name)? {
        Some(database) => Ok(Some(PassSide {
            text,
            node,
            database,
        })),
        None => Ok(None),
    }
}

/// Reads `SESSION` or `SESSION NAME`.
fn read_session<'a>(words: &'a [u8]) -> Option<PassSession<'a>>
    ensures { option_map session_said result ≡ session_of words.now }
{
    match split_at_space(words) {
        Some((session, user)) => read_session_and_user(session, user),
        None => read_session_alone(words),
    }
}

fn read_session_and_user<'a>(session: &'a [u8], user: &'a [u8]) -> Option<PassSession<'a>>
    ensures { option_map session_said result ≡ session_and_user session.now user.now }
{
    let session = read_text(session)?;
    let user = read_text(user)?;
    Some(PassSession {
        session,
        user: Some(user),
    })
}

fn read_session_alone<'a>(session: &'a [u8]) -> Option<PassSession<'a>>
    ensures { option_map session_said result ≡ session_alone session.now }
{
    let session = read_text(session)?;
    Some(PassSession {
        session,
        user: None,
    })
}
