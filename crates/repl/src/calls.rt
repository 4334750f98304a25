//! The requests that the calls of a pass are.

ghost use Rattle.std.specs.Prelude.{◌≡◌, ◌++◌, [], ◌∷◌, IfOk, OnOk, Some, None, map, option_map, string_bytes, codes};
ghost use Rattle.std.specs.List.{join_with_byte};
ghost use Rattle.couch_json.specs.Canonical.{canonical};
ghost use Rattle.couch_json.specs.View.{view};
ghost use Rattle.couch_http.specs.Message.{header_field, message_of};
ghost use Rattle.repl.specs.Calls.{account_fields, changes_call_query, limit_part, compare_revisions, open_revisions, push_documents, headers_of};
ghost use Rattle.repl.specs.Calls.{page_path, read_checkpoint, list_changes, request_of, request_with, write_checkpoint};
ghost use Rattle.repl.specs.Configuration.{account_of, batch_size, configuration_of, database_of_side};
ghost use Rattle.repl.specs.inner.Joined.{after_commas};
ghost use Rattle.repl.specs.Listed.{revisions_of};
ghost use Rattle.repl.specs.Spelling.{segment};

use crate::batch::Batch;
use crate::bodies::{compare_body, open_query, push_body};
use crate::config::{Config, User};
use crate::revisions::DocumentRevisions;
use crate::side::Side;
use crate::spelling::{push_document, push_segment};
use couch_http::{Header, Request};
use couch_json::{Got, Json, canon};
use http::Method;
use std::alloc::Global;

/// Makes the request that reads a checkpoint.
pub fn read_checkpoint(alloc: Global, config: &Config, side: Side, id: &str) -> Got<Request>
    ensures { IfOk result (λ r. message_of r ≡ request_of (configuration_of config.now) side (read_checkpoint id.now)) }
{
    let page = checkpoint_page(alloc, id)?;
    request(
        alloc,
        config,
        side,
        Method::GET,
        page.as_str(),
        None,
        Vec::new(alloc),
    )
}

/// Makes the request that writes a checkpoint.
pub fn write_checkpoint(
    alloc: Global,
    config: &Config,
    side: Side,
    id: &str,
    checkpoint: &Json,
) -> Got<Request>
    ensures { IfOk result (λ r. message_of r
        ≡ request_of (configuration_of config.now) side (write_checkpoint id.now (view checkpoint.now))) }
{
    let page = checkpoint_page(alloc, id)?;
    let body = canon(alloc, checkpoint)?.into_bytes();
    request(alloc, config, side, Method::PUT, page.as_str(), None, body)
}

/// Makes the request that lists the changes after a sequence: a batch of them, or all.
pub fn list_changes(alloc: Global, config: &Config, side: Side, since: u64) -> Got<Request>
    ensures { IfOk result (λ r. message_of r
        ≡ request_of (configuration_of config.now) side (list_changes since (option_map batch_size config.now.batch))) }
{
    let query = changes_query(alloc, since, config.batch)?;
    request(
        alloc,
        config,
        side,
        Method::GET,
        "_changes",
        Some(query),
        Vec::new(alloc),
    )
}

/// Makes the query that lists the changes after a sequence.
fn changes_query(alloc: Global, since: u64, batch: Option<Batch>) -> Got<String>
    ensures { IfOk result (λ query. string_bytes query ≡ changes_call_query since (option_map batch_size batch)) }
{
    let mut query = format!(in alloc; "since={since}&style=all_docs")?;
    push_limit(&mut query, batch)?;
    Ok(query)
}

/// Writes how many changes are wanted at most, where not all are.
fn push_limit(query: &mut String, batch: Option<Batch>) -> Got<()>
    ensures { OnOk result (string_bytes query.new ≡ string_bytes query.old ++ limit_part (option_map batch_size batch)) }
{
    if let Some(batch) = batch {
        let most = batch.size();
        write!(query, "&limit={most}")?;
    }
    Ok(())
}

/// Makes the request that asks which revisions are missing.
pub fn compare_revisions(
    alloc: Global,
    config: &Config,
    side: Side,
    listed: &[DocumentRevisions],
) -> Got<Request>
    ensures { IfOk result (λ r. message_of r
        ≡ request_of (configuration_of config.now) side (compare_revisions (map revisions_of listed.now))) }
{
    let body = canon(alloc, &compare_body(alloc, listed)?)?.into_bytes();
    request(alloc, config, side, Method::POST, "_revs_diff", None, body)
}

/// Makes the request that opens revisions of a document.
pub fn open_revisions(
    alloc: Global,
    config: &Config,
    side: Side,
    document: &DocumentRevisions,
) -> Got<Request>
    ensures { IfOk result (λ r. message_of r
        ≡ request_of (configuration_of config.now) side (open_revisions (revisions_of document.now))) }
{
    let mut page = String::new(alloc);
    push_document(&mut page, document.id.as_str())?;
    let query = open_query(alloc, &document.revisions)?;
    request(
        alloc,
        config,
        side,
        Method::GET,
        page.as_str(),
        Some(query),
        Vec::new(alloc),
    )
}

/// Makes the request that pushes documents.
pub fn push_documents(
    alloc: Global,
    config: &Config,
    side: Side,
    documents: &[Json],
) -> Got<Request>
    ensures { IfOk result (λ r. message_of r
        ≡ request_of (configuration_of config.now) side (push_documents (map view documents.now))) }
{
    let body = push_body(alloc, documents)?.into_bytes();
    request(alloc, config, side, Method::POST, "_bulk_docs", None, body)
}

/// Makes the request of these parts to a side.
fn request(
    alloc: Global,
    config: &Config,
    side: Side,
    method: Method,
    page: &str,
    query: Option<String>,
    body: Vec<u8>,
) -> Got<Request>
    ensures { IfOk result (λ r. message_of r
        ≡ request_with (configuration_of config.now) side method page.now (option_map string_bytes query) body.items) }
{
    let path = path(alloc, database(config, side), page)?;
    let headers = headers(alloc, &config.user)?;
    Ok(Request {
        method,
        path,
        query,
        headers,
        body,
        last: false,
    })
}

/// Returns the name of the database of a side.
fn database(config: &Config, side: Side) -> &str
    ensures { result.now ≡ database_of_side (configuration_of config.now) side }
{
    match side {
        Side::Source => config.source_db.as_str(),
        Side::Target => config.target_db.as_str(),
    }
}

/// Makes the path of a page of a database.
fn path(alloc: Global, db: &str, page: &str) -> Got<String>
    ensures { IfOk result (λ path. string_bytes path ≡ page_path db.now page.now) }
{
    let mut path = String::from_str(alloc, "/")?;
    push_segment(&mut path, db)?;
    path.push_str("/")?;
    path.push_str(page)?;
    Ok(path)
}

/// Makes the page of a checkpoint.
fn checkpoint_page(alloc: Global, id: &str) -> Got<String>
    ensures { IfOk result (λ page. string_bytes page ≡ codes "_local/" ++ segment id.now) }
{
    let mut page = String::from_str(alloc, "_local/")?;
    push_segment(&mut page, id)?;
    Ok(page)
}

/// Makes the headers that name the user.
fn headers(alloc: Global, user: &Option<User>) -> Got<Vec<Header>>
    ensures { IfOk result (λ headers. map header_field headers.items ≡ headers_of (option_map account_of user.now)) }
{
    match user {
        Some(user) => user_headers(alloc, user),
        None => Ok(Vec::new(alloc)),
    }
}

/// Makes the three headers of a user.
fn user_headers(alloc: Global, user: &User) -> Got<Vec<Header>>
    ensures { IfOk result (λ headers. map header_field headers.items ≡ account_fields (account_of user.now)) }
{
    let roles = join_roles(alloc, &user.roles)?;
    let mut headers = Vec::with_capacity(alloc, 3)?;
    push_header(
        &mut headers,
        alloc,
        "X-Auth-CouchDB-UserName",
        user.name.as_str(),
    )?;
    push_header(&mut headers, alloc, "X-Auth-CouchDB-Roles", roles.as_str())?;
    push_header(
        &mut headers,
        alloc,
        "X-Auth-CouchDB-Token",
        user.token.as_str(),
    )?;
    Ok(headers)
}

/// Adds a header.
fn push_header(headers: &mut Vec<Header>, alloc: Global, name: &str, value: &str) -> Got<()>
    ensures { OnOk result (map header_field headers.new.items
        ≡ map header_field headers.old.items ++ (record { name = name.now; value = value.now } ∷ [])) }
{
    headers.push(Header {
        name: Vec::from_slice(alloc, name.as_bytes())?,
        value: Vec::from_slice(alloc, value.as_bytes())?,
    })?;
    Ok(())
}

/// Joins roles by commas.
#[tactic(auto, using(crate::proofs::Joins::join_after_first))]
fn join_roles(alloc: Global, roles: &[String]) -> Got<String>
    ensures { IfOk result (λ text. string_bytes text ≡ join_with_byte 44 (map string_bytes roles.now)) }
{
    match roles.split_first() {
        None => Ok(String::new(alloc)),
        Some((first, others)) => {
            let mut text = String::from_str(alloc, first.as_str())?;
            push_roles(&mut text, others)?;
            Ok(text)
        }
    }
}

/// Writes further roles, each after a comma.
fn push_roles(text: &mut String, roles: &[String]) -> Got<()>
    ensures { OnOk result (string_bytes text.new ≡ string_bytes text.old ++ after_commas (map string_bytes roles.now)) }
{
    for role in roles {
        text.push_str(",")?;
        text.push_str(role.as_str())?;
    }
    Ok(())
}
