ghost use Rattle.std.specs.Prelude.{◌≡◌, [], IfOk, OnOk, map, nat_eq, option_copied};
ghost use Rattle.std.specs.List.{starts_with};
ghost use Rattle.api.specs.Routing.{AreApart, Fits, begins_local, page_by, page_of, routes, table, with_route, with_routes};
ghost use Rattle.matchit.specs.Route.{parse_route};
ghost use Rattle.percent_encoding.specs.Iter.{decoded_bytes};

use crate::page::Page;
use crate::path::part;
use couch_json::{Got, NoMemory};
use matchit::{InsertError, Router};
use percent_encoding::{PercentDecode, percent_decode};
use std::alloc::Global;
use std::marker::Model;

/// The paths that the server has, each with its page.
const ROUTES: [(&str, Page); 15] = [
    ("/", Page::Welcome),
    ("/_all_dbs", Page::AllDatabases),
    ("/{db}", Page::Database),
    ("/{db}/", Page::Database),
    ("/{db}/_security", Page::Security),
    ("/{db}/_bulk_docs", Page::BulkDocuments),
    ("/{db}/_all_docs", Page::AllDocuments),
    ("/{db}/_changes", Page::Changes),
    ("/{db}/_revs_diff", Page::Differences),
    ("/{db}/_find", Page::Find),
    ("/{db}/_index", Page::Index),
    ("/{db}/_design/{name}/_view/{index}", Page::View),
    ("/{db}/_design/{name}", Page::Document),
    ("/{db}/_local/{name}", Page::LocalDocument),
    ("/{db}/{id}", Page::Document),
];

/// The router of the server: which page a path leads to.
pub struct Routes {
    router: Router<Page>,
}

// Written out, so that callers do not prove again how each part is dropped.
impl Drop for Routes {
    fn drop(self) {
        let Routes { router: _ } = self;
    }
}

impl Model for Routes {
    ghost use Rattle.std.specs.Prelude.{◌≡◌};
    ghost use Rattle.api.specs.Routing.{table};

    ghost Value = { Unit {0} };

    ghost view = { λ _. tt };

    ghost invariant = { λ r. r.router ≡ table };
}

impl Routes {
    /// Makes the router. Lack of memory is its one refusal.
    #[tactic(auto, unfolding(crate::specs::Routing::table))]
    pub fn new(alloc: Global) -> Got<Routes> {
        let router = build_router(alloc, &ROUTES)?;
        Ok(Routes { router })
    }

    /// Finds the page that a path leads to.
    pub fn page(&self, path: &str) -> Option<Page>
        ensures { result ≡ page_of path.now }
    {
        match self.router.at(path) {
            Ok(found) => Some(page_by(path, *found.value)),
            Err(_) => None,
        }
    }
}

/// Finds the page of a route on this path: that of a document is the one of a local document where
/// its id begins so.
fn page_by(path: &str, page: Page) -> Page
    ensures { result ≡ page_by path.now page }
{
    match page {
        Page::Document if begins_local(part(path.as_bytes(), 2)) => Page::LocalDocument,
        _ => page,
    }
}

/// Tells whether a part of a path stands for a text that begins as the id of a local document.
fn begins_local(part: Option<&[u8]>) -> bool
    ensures { result ≡ begins_local (option_copied part.entry) }
{
    match part {
        Some(part) => begins_with(percent_decode(part), b"_local/"),
        None => false,
    }
}

/// Tells whether what is decoded begins with these bytes.
fn begins_with(decoded: PercentDecode<'_>, front: &[u8]) -> bool
    ensures { result ≡ starts_with nat_eq (decoded_bytes decoded.entry) front.now }
{
    let mut decoded = decoded;
    for wanted in front {
        match decoded.next() {
            Some(byte) if byte == *wanted => {}
            _ => return false,
        }
    }
    true
}

/// Builds a router with these routes, which are apart.
fn build_router(alloc: Global, routes: &[(&str, Page)]) -> Got<Router<Page>>
    requires { AreApart (map (λ r. (r.0.now, r.1)) routes.now) [] }
    ensures { IfOk result (λ router. router ≡ with_routes (map (λ r. (r.0.now, r.1)) routes.now) []) }
{
    let mut router = Router::new(alloc);
    for (text, page) in routes {
        add(&mut router, text, *page)?;
    }
    Ok(router)
}

/// Adds a route, which fits. Lack of memory is its one refusal.
fn add(router: &mut Router<Page>, text: &str, page: Page) -> Got<()>
    requires { Fits (parse_route text.now) router.old }
    ensures { OnOk result (router.new ≡ with_route (text.now, page) router.old) }
{
    match router.insert(text, page) {
        Ok(()) => Ok(()),
        Err(InsertError::OutOfMemory) => Err(NoMemory),
        Err(InsertError::Conflict { with: _ }) => unreachable!(),
        Err(InsertError::InvalidParamSegment) => unreachable!(),
        Err(InsertError::InvalidParam) => unreachable!(),
        Err(InsertError::InvalidCatchAll) => unreachable!(),
    }
}
