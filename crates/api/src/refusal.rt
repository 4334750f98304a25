ghost use Rattle.std.specs.Prelude.{◌≡◌, IfOk, option_copied};
ghost use Rattle.couch_json.specs.View.{members_view, view};
ghost use Rattle.api.specs.Refusals.{error_of, name_of_rule, reason_of, reason_of_rule, refusal_members, refusal_value, rule_of, status_of};

use crate::members::put_text;
use couch_json::{Got, Json, NameMap};
use policy::Rule;
use std::alloc::Global;

/// Why a request is refused. Nothing has changed then.
#[derive(Debug, Drop)]
pub enum Refusal {
    /// A rule refuses an anonymous caller, or the proxy's token is wrong: 401.
    Unauthorized(Rule),
    /// A rule refuses a caller with a name: 403.
    Forbidden(Rule),
    /// The server has no such path: 404.
    Path,
    /// The path has no such method: 405.
    Method,
    /// What should name a database can't be a name: 400.
    DatabaseName,
    /// There is no database of this name: 404.
    NoDatabase,
    /// There is a database of this name already: 412.
    Exists,
    /// What should be a document's id is none: 400.
    Id,
    /// A parameter of the query is not known here: 400.
    Query,
    /// The body is no JSON text, has a number that is not whole or out of range, or nests too deep: 400.
    Syntax,
    /// The body is not of the shape that the page wants: 400.
    Body,
    /// What was sent is no document: 400.
    BadDocument,
    /// The revisions that a document comes with make no path, or one that does not fit in: 400.
    BadHistory,
    /// The edit does not follow what is stored: 409.
    Conflict,
    /// No revision follows the one with the greatest number: 400.
    Generation,
    /// The document was never written: 404.
    Missing,
    /// The document is deleted: 404.
    Deleted,
}

impl Refusal {
    /// Tells the status of the reply (RFC 9110, section 15).
    pub fn status(&self) -> u16
        ensures { result ≡ status_of self.now }
    {
        match self {
            Refusal::Unauthorized(_) => 401,
            Refusal::Forbidden(_) => 403,
            Refusal::Path => 404,
            Refusal::Method => 405,
            Refusal::DatabaseName => 400,
            Refusal::NoDatabase => 404,
            Refusal::Exists => 412,
            Refusal::Id => 400,
            Refusal::Query => 400,
            Refusal::Syntax => 400,
            Refusal::Body => 400,
            Refusal::BadDocument => 400,
            Refusal::BadHistory => 400,
            Refusal::Conflict => 409,
            Refusal::Generation => 400,
            Refusal::Missing => 404,
            Refusal::Deleted => 404,
        }
    }

    /// Returns the short word for the refusal.
    fn error(&self) -> &'static str
        ensures { result.now ≡ error_of self.now }
    {
        match self {
            Refusal::Unauthorized(_) => "unauthorized",
            Refusal::Forbidden(_) => "forbidden",
            Refusal::Path => "not_found",
            Refusal::Method => "method_not_allowed",
            Refusal::DatabaseName => "illegal_database_name",
            Refusal::NoDatabase => "not_found",
            Refusal::Exists => "file_exists",
            Refusal::Id => "bad_request",
            Refusal::Query => "bad_request",
            Refusal::Syntax => "bad_request",
            Refusal::Body => "bad_request",
            Refusal::BadDocument => "doc_validation",
            Refusal::BadHistory => "bad_history",
            Refusal::Conflict => "conflict",
            Refusal::Generation => "generation",
            Refusal::Missing => "not_found",
            Refusal::Deleted => "not_found",
        }
    }

    /// Tells what is wrong.
    fn reason(&self) -> &'static str
        ensures { result.now ≡ reason_of self.now }
    {
        match self {
            Refusal::Unauthorized(rule) => reason_of_rule(rule),
            Refusal::Forbidden(rule) => reason_of_rule(rule),
            Refusal::Path => "path",
            Refusal::Method => "method",
            Refusal::DatabaseName => "name",
            Refusal::NoDatabase => "Database does not exist.",
            Refusal::Exists => { "The database could not be created, the file already exists." }
            Refusal::Id => "id",
            Refusal::Query => "query",
            Refusal::Syntax => "JSON",
            Refusal::Body => "body",
            Refusal::BadDocument => "Bad document.",
            Refusal::BadHistory => "Bad revision history.",
            Refusal::Conflict => "Document update conflict.",
            Refusal::Generation => "No further generation.",
            Refusal::Missing => "missing",
            Refusal::Deleted => "deleted",
        }
    }

    /// Returns the name of the rule, where a rule refuses.
    fn rule(&self) -> Option<&str>
        ensures { option_copied result ≡ rule_of self.now }
    {
        match self {
            Refusal::Unauthorized(rule) => Some(name_of_rule(rule)),
            Refusal::Forbidden(rule) => Some(name_of_rule(rule)),
            _ => None,
        }
    }

    /// Makes the body of the reply (CouchDB manual, api/basics).
    pub fn value(&self, alloc: Global) -> Got<Json>
        ensures { IfOk result (λ value. view value ≡ refusal_value self.now) }
    {
        Ok(Json::Object(self.members(alloc)?))
    }

    /// Makes what is said of the refusal: `error`, `reason`, and `rule` where a rule refuses.
    pub fn members(&self, alloc: Global) -> Got<NameMap<Json>>
        ensures { IfOk result (λ members. members_view members.entries ≡ refusal_members self.now) }
    {
        let mut members = NameMap::new(alloc);
        put_text(alloc, &mut members, "error", self.error())?;
        put_text(alloc, &mut members, "reason", self.reason())?;
        if let Some(rule) = self.rule() {
            put_text(alloc, &mut members, "rule", rule)?;
        }
        Ok(members)
    }
}

/// Tells why a rule refuses.
fn reason_of_rule(rule: &Rule) -> &'static str
    ensures { result.now ≡ reason_of_rule rule.now }
{
    match rule {
        Rule::ProxyToken => "Bad proxy token.",
        Rule::ServerAdmin => "You are not a server admin.",
        Rule::DbMember => "You are not allowed to access this db.",
        Rule::DbAdmin => "You are not a db or server admin.",
        Rule::DesignDocument => "You are not a db or server admin.",
        Rule::Update(_) => "Refused by an update rule.",
    }
}

/// Returns the name of a rule; an update rule is named by the id of its design document.
fn name_of_rule(rule: &Rule) -> &str
    ensures { result.now ≡ name_of_rule rule.now }
{
    match rule {
        Rule::ProxyToken => "proxy_token",
        Rule::ServerAdmin => "server_admin",
        Rule::DbMember => "db_member",
        Rule::DbAdmin => "db_admin",
        Rule::DesignDocument => "design_document",
        Rule::Update(id) => id.as_str(),
    }
}
