ghost use Rattle.std.specs.Prelude.{◌≡◌, ◌<◌, ◌++◌, ◌∷◌, [], IfNone, IfOk, IfSome, OnErr, OnOk, None, Some, length};
ghost use Rattle.std.specs.Prelude.{option_map, slice_set, slice_get, vec_len, map as list_map};
ghost use Rattle.std.specs.FinMap as map;
ghost use Rattle.store.specs.Contents.{new_database, with_local, with_security};
ghost use Rattle.store.specs.Database.{with_all};
ghost use Rattle.store.specs.Plain.{content, contents_of, place_from};
ghost use Rattle.store.specs.Writing.{additions, writings_in};
ghost use Rattle.std.specs.Ordering.{nat_cmp, eq_by_cmp};
ghost use Rattle.std.specs.Cmp.Lexicographic.{slice_cmp};

use crate::database_name::DbName;
use crate::local_document::LocalDocument;
use crate::locals::put_local;
use crate::order::put_sorted;
use crate::plain::{Databases, PlainDatabase};
use crate::replay::copies;
use crate::write::Write;
use couch_json::Got;
use policy::Security;
use std::alloc::Global;
use std::collections::BTreeMap;
use tree::DocId;

/// Finds the place of the database of this name, if there is one.
pub(crate) fn place_of(databases: &Databases, name: &DbName) -> Option<usize>
    ensures place { result ≡ place_from 0 name.now databases.now.items }
    ensures within { IfSome result (λ at. at < vec_len databases.now) }
    ensures absent { IfNone result (map.get (contents_of databases.now.items) name.now ≡ None) }
{
    for (at, entry) in databases.iter().enumerate() {
        if is_same(&entry.0, name) {
            return Some(at);
        }
    }
    None
}

fn is_same(entry: &DbName, name: &DbName) -> bool
    ensures { result ≡ eq_by_cmp (slice_cmp nat_cmp) name.now entry.now }
{
    name.as_str() == entry.as_str()
}

/// Finds the database of this name, if there is one.
pub(crate) fn database_of<'a>(databases: &'a Databases, name: &DbName) -> Option<&'a PlainDatabase>
    ensures { option_map (λ d. content d.now) result ≡ map.get (contents_of databases.now.items) name.now }
{
    let at = place_of(databases, name)?;
    Some(&databases[at].1)
}

/// Adds a new database.
pub(crate) fn add(alloc: Global, databases: &mut Databases, name: &DbName) -> Got<()>
    requires { map.get (contents_of databases.old.items) name.now ≡ None }
    ensures ok { OnOk result (contents_of databases.new.items
        ≡ map.insert (contents_of databases.old.items) name.now new_database) }
    ensures err { OnErr result (contents_of databases.new.items ≡ contents_of databases.old.items) }
{
    let database = PlainDatabase {
        writes: Vec::new(alloc),
        security: Security::closed(alloc)?,
        locals: BTreeMap::new(alloc),
    };
    databases.push((name.copy(alloc)?, database))?;
    Ok(())
}

/// Gives the database at a place another security object.
pub(crate) fn secure(databases: &mut Databases, at: usize, name: &DbName, security: Security)
    requires { place_from 0 name.now databases.old.items ≡ Some at }
    ensures { option_map (λ db. map.insert (contents_of databases.old.items) name.now (with_security db security))
        (map.get (contents_of databases.old.items) name.now) ≡ Some (contents_of databases.new.items) }
{
    databases[at].1.security = security;
}

/// Appends copies of the writes to the database at a place, or none.
pub(crate) fn append(
    alloc: Global,
    databases: &mut Databases,
    at: usize,
    name: &DbName,
    writes: &[Write],
) -> Got<()>
    requires { place_from 0 name.now databases.old.items ≡ Some at }
    ensures ok { OnOk result (option_map (λ db. map.insert (contents_of databases.old.items) name.now (with_all db (writings_in db (additions writes.now))))
        (map.get (contents_of databases.old.items) name.now) ≡ Some (contents_of databases.new.items)) }
    ensures err { OnErr result (contents_of databases.new.items ≡ contents_of databases.old.items) }
{
    let mut more = copies(alloc, writes)?;
    databases[at].1.writes.append(&mut more)?;
    Ok(())
}

/// Gives the database at a place a copy of a local document, or leaves it as it was.
pub(crate) fn write_local(
    alloc: Global,
    databases: &mut Databases,
    at: usize,
    name: &DbName,
    id: &DocId,
    document: &LocalDocument,
) -> Got<()>
    requires { place_from 0 name.now databases.old.items ≡ Some at }
    ensures ok { OnOk result (option_map (λ db. map.insert (contents_of databases.old.items) name.now (with_local db id.now document.now))
        (map.get (contents_of databases.old.items) name.now) ≡ Some (contents_of databases.new.items)) }
    ensures err { OnErr result (contents_of databases.new.items ≡ contents_of databases.old.items) }
{
    put_local(alloc, &mut databases[at].1.locals, id, document)
}

/// Removes the database of this name.
pub(crate) fn remove(databases: &mut Databases, name: &DbName)
    ensures { contents_of databases.new.items ≡ map.remove (contents_of databases.old.items) name.now }
{
    databases.retain(|entry| !is_same(&entry.0, name));
}

/// Returns the names of the databases, in the order of their bytes.
pub(crate) fn names_of(alloc: Global, databases: &Databases) -> Got<Vec<DbName>>
    ensures { IfOk result (λ names. names.items ≡ map.keys (contents_of databases.now.items)) }
{
    let mut names = BTreeMap::new(alloc);
    for at in (0..databases.len()).rev() {
        put_sorted(&mut names, databases[at].0.copy(alloc)?, ())?;
    }
    Ok(list_keys(alloc, names)?)
}

fn list_keys(alloc: Global, names: BTreeMap<DbName, ()>) -> Got<Vec<DbName>>
    ensures { IfOk result (λ keys. keys.items ≡ list_map (λ e. e.0) names.entries) }
{
    Ok(names.into_keys().collect(alloc)?)
}
