//! What a side remembers of the passes that ended there (CouchDB manual, replication/protocol).

ghost use Rattle.std.specs.Prelude.{◌≡◌, ◌++◌, [], ◌∷◌, ℕ, List, map, IfOk, OnOk, option_map, string_bytes, codes};
ghost use Rattle.std.specs.Option.{option_or};
ghost use Rattle.hex.specs.Hex.{encode_lower};
ghost use Rattle.md5.specs.Md5.{md5};
ghost use Rattle.couch_json.specs.Canonical.{canonical};
ghost use Rattle.couch_json.specs.View.{members_view, view};
ghost use Rattle.repl.specs.Checkpoints.{Session, checkpoint_id, checkpoint_in, common_sequence, history_of, name_or_null, next_checkpoint, next_history};
ghost use Rattle.repl.specs.Checkpoints.{others_of, replication_value, sequence_of_session, session_in, session_value, start_from, start_of, start_with, with_revision};
ghost use Rattle.repl.specs.Configuration.{account_of, configuration_of};
ghost use Rattle.repl.specs.Kept.{checkpoint_of, sequence_at, session_of};
ghost use Rattle.repl.specs.Shapes.{count_at, list_at, list_in, text_at};

use crate::config::{Config, User};
use crate::count::Count;
use crate::element::{Shape, read_each};
use crate::members::{count_at, put_text, text_at};
use couch_json::{Got, Json, NameMap, canon, put_member};
use md5::{Digest, Md5};
use std::alloc::Global;
use std::collections::BTreeMap;

/// How many sessions a checkpoint keeps at most.
const MOST_SESSIONS: usize = 50;

/// A session, and the sequence of the source up to which it came.
#[derive(Drop)]
pub struct KeptSession {
    pub session: String,
    pub sequence: Count,
}

/// The last session, its sequence, and the sessions, newest first.
pub struct KeptCheckpoint {
    pub session: String,
    pub sequence: Count,
    pub history: Vec<KeptSession>,
}

// Written out, so that callers do not prove again how each part is dropped.
impl Drop for KeptCheckpoint {
    fn drop(self) {
        let KeptCheckpoint {
            session: _,
            sequence: _,
            history: _,
        } = self;
    }
}

/// Reads the checkpoint that a document says, if it says one.
pub fn checkpoint_in(alloc: Global, value: &Json) -> Got<Option<KeptCheckpoint>>
    ensures { IfOk result (λ c. option_map checkpoint_of c ≡ checkpoint_in (view value.now)) }
{
    let Some(session) = text_at(value, "session_id") else {
        return Ok(None);
    };
    let Some(sequence) = count_at(value, "source_last_seq") else {
        return Ok(None);
    };
    let Some(history) = history_in(alloc, value)? else {
        return Ok(None);
    };
    let session = String::from_str(alloc, session)?;
    Ok(Some(KeptCheckpoint {
        session,
        sequence,
        history,
    }))
}

/// Reads the sessions of a checkpoint.
fn history_in(alloc: Global, value: &Json) -> Got<Option<Vec<KeptSession>>>
    ensures { IfOk result (λ h. option_map (λ ss. map session_of ss.items) h ≡ list_at (codes "history") session_in (view value.now)) }
{
    match value.member("history") {
        Some(history) => match history.items() {
            Some(items) => read_each::<SessionShape>(alloc, items),
            None => Ok(None),
        },
        None => Ok(None),
    }
}

/// A session of a history.
struct SessionShape;

impl Shape for SessionShape {
    type Element = KeptSession;

    ghost Said = { Session };

    ghost said = { session_of };

    ghost said_in = { session_in };

    fn read(alloc: Global, value: &Json) -> Got<Option<KeptSession>> {
        let Some(session) = text_at(value, "session_id") else {
            return Ok(None);
        };
        let Some(sequence) = count_at(value, "recorded_seq") else {
            return Ok(None);
        };
        let session = String::from_str(alloc, session)?;
        Ok(Some(KeptSession { session, sequence }))
    }
}

/// Finds the sequence after which a pass begins: 0 where it is told so.
pub fn start_with(
    alloc: Global,
    is_from_start: bool,
    source: &Option<KeptCheckpoint>,
    target: &Option<KeptCheckpoint>,
) -> Got<Count>
    ensures { IfOk result
        (λ start. start.value ≡ start_with is_from_start (option_map checkpoint_of source.now) (option_map checkpoint_of target.now)) }
{
    if is_from_start {
        return Ok(Count::ZERO);
    }
    start_of(alloc, source, target)
}

/// Finds the sequence after which a pass begins by the checkpoints.
fn start_of(
    alloc: Global,
    source: &Option<KeptCheckpoint>,
    target: &Option<KeptCheckpoint>,
) -> Got<Count>
    ensures { IfOk result (λ start. start.value ≡ start_of (option_map checkpoint_of source.now) (option_map checkpoint_of target.now)) }
{
    match source {
        Some(source) => match target {
            Some(target) => start_from(alloc, source, target),
            None => Ok(Count::ZERO),
        },
        None => Ok(Count::ZERO),
    }
}

/// Finds the start from two checkpoints.
fn start_from(alloc: Global, source: &KeptCheckpoint, target: &KeptCheckpoint) -> Got<Count>
    ensures { IfOk result (λ start. start.value ≡ start_from (checkpoint_of source.now) (checkpoint_of target.now)) }
{
    if source.session.as_str() == target.session.as_str() {
        return Ok(source.sequence.smaller(target.sequence));
    }
    common_sequence(alloc, &source.history, &target.history)
}

/// Finds the smaller sequence of the first of the source's sessions that the target has too.
fn common_sequence(alloc: Global, source: &[KeptSession], target: &[KeptSession]) -> Got<Count>
    ensures { IfOk result (λ common. common.value ≡ common_sequence (map session_of source.now) (map session_of target.now)) }
{
    let index = index_sessions(alloc, target)?;
    for session in source {
        if let Some(sequence) = sequence_at(&index, session.session.as_str()) {
            return Ok(session.sequence.smaller(sequence));
        }
    }
    Ok(Count::ZERO)
}

/// Returns the sequence that an index has for a session.
fn sequence_at(index: &BTreeMap<String, Count>, name: &str) -> Option<Count>
    ensures { option_map (λ c. c.value) result ≡ sequence_at index.now name.now }
{
    index.get(name).copied()
}

/// Makes an index of sessions: for each name the sequence of the first one.
fn index_sessions(alloc: Global, sessions: &[KeptSession]) -> Got<BTreeMap<String, Count>>
    ensures { IfOk result (λ index. (name : List ℕ) → sequence_at index name ≡ sequence_of_session name (map session_of sessions.now)) }
{
    let mut index = BTreeMap::new(alloc);
    for session in sessions {
        add_session(&mut index, session)?;
    }
    Ok(index)
}

/// Adds a session to an index, unless one of its name is there.
fn add_session(index: &mut BTreeMap<String, Count>, session: &KeptSession) -> Got<()>
    ensures { OnOk result ((name : List ℕ) → sequence_at index.new name
        ≡ option_or (sequence_at index.old name) (sequence_of_session name (session_of session.now ∷ []))) }
{
    match sequence_at(index, session.session.as_str()) {
        Some(_) => Ok(()),
        None => {
            drop(index.insert(session.session.clone()?, session.sequence)?);
            Ok(())
        }
    }
}

/// Makes the checkpoint that a session writes.
pub fn next_checkpoint(
    alloc: Global,
    session: &str,
    sequence: Count,
    older: &[KeptSession],
    rev: &Option<String>,
) -> Got<Json>
    ensures { IfOk result (λ c. view c
        ≡ next_checkpoint session.now sequence.value (map session_of older.now) (option_map string_bytes rev.now)) }
{
    let history = Json::Array(next_history(alloc, session, sequence, older)?);
    let mut members = NameMap::new(alloc);
    put_member(alloc, &mut members, "history", history)?;
    put_text(alloc, &mut members, "session_id", session)?;
    put_member(alloc, &mut members, "source_last_seq", sequence.to_json())?;
    put_revision(alloc, &mut members, rev)?;
    Ok(Json::Object(members))
}

/// Puts the revision that is replaced, if there is one.
fn put_revision(alloc: Global, members: &mut NameMap<Json>, rev: &Option<String>) -> Got<()>
    ensures { OnOk result (members_view members.new.entries
        ≡ with_revision (option_map string_bytes rev.now) (members_view members.old.entries)) }
{
    match rev {
        Some(rev) => put_text(alloc, members, "_rev", rev.as_str()),
        None => Ok(()),
    }
}

/// Makes the sessions of the next checkpoint.
fn next_history(
    alloc: Global,
    session: &str,
    sequence: Count,
    older: &[KeptSession],
) -> Got<Vec<Json>>
    ensures { IfOk result (λ h. map view h.items
        ≡ map session_value (next_history session.now sequence.value (map session_of older.now))) }
{
    let mut history = all_sessions(alloc, session, sequence, older)?;
    history.truncate(MOST_SESSIONS);
    Ok(history)
}

/// Makes a session and the older ones of another name.
fn all_sessions(
    alloc: Global,
    session: &str,
    sequence: Count,
    older: &[KeptSession],
) -> Got<Vec<Json>>
    ensures { IfOk result (λ h. map view h.items
        ≡ session_value (record { session = session.now; sequence = sequence.value })
        ∷ map session_value (others_of session.now (map session_of older.now))) }
{
    let mut history = Vec::new(alloc);
    history.push(session_value(alloc, session, sequence)?)?;
    push_others(alloc, &mut history, session, older)?;
    Ok(history)
}

/// Adds the sessions of another name.
fn push_others(
    alloc: Global,
    history: &mut Vec<Json>,
    session: &str,
    older: &[KeptSession],
) -> Got<()>
    ensures { OnOk result (map view history.new.items
        ≡ map view history.old.items
        ++ map session_value (others_of session.now (map session_of older.now))) }
{
    for other in older {
        if other.session.as_str() != session {
            history.push(session_value(alloc, other.session.as_str(), other.sequence)?)?;
        }
    }
    Ok(())
}

/// Makes the JSON value of a session.
fn session_value(alloc: Global, session: &str, sequence: Count) -> Got<Json>
    ensures { IfOk result (λ s. view s ≡ session_value (record { session = session.now; sequence = sequence.value })) }
{
    let mut members = NameMap::new(alloc);
    put_member(alloc, &mut members, "recorded_seq", sequence.to_json())?;
    put_text(alloc, &mut members, "session_id", session)?;
    Ok(Json::Object(members))
}

/// Computes the id under which each side keeps the checkpoint.
pub fn checkpoint_id(alloc: Global, config: &Config) -> Got<String>
    ensures { IfOk result (λ id. string_bytes id ≡ checkpoint_id (configuration_of config.now)) }
{
    let text = canon(alloc, &replication_value(alloc, config)?)?;
    let digest = Md5::digest(text.as_bytes());
    Ok(hex::encode(alloc, digest)?)
}

/// Makes what the id is taken of.
fn replication_value(alloc: Global, config: &Config) -> Got<Json>
    ensures { IfOk result (λ v. view v ≡ replication_value (configuration_of config.now)) }
{
    let mut items = Vec::with_capacity(alloc, 3)?;
    items.push(Json::Text(config.source.clone()?))?;
    items.push(Json::Text(config.target.clone()?))?;
    items.push(name_or_null(&config.user)?)?;
    Ok(Json::Array(items))
}

/// Makes the user's name a value, or null where there is no user.
fn name_or_null(user: &Option<User>) -> Got<Json>
    ensures { IfOk result (λ v. view v ≡ name_or_null (option_map account_of user.now)) }
{
    match user {
        Some(user) => Ok(Json::Text(user.name.clone()?)),
        None => Ok(Json::Null),
    }
}
