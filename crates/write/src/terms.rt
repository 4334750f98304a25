//! The terms on which a caller writes.

ghost use Rattle.std.specs.Prelude.{◌≡◌, true, IfOk, IfErr, None, OnOk, Some, flat_map, is_some};
ghost use Rattle.std.specs.FinMap as map;
ghost use Rattle.store.specs.Calls.{OnlyReads};
ghost use Rattle.store.specs.Contents.{IfThere};
ghost use Rattle.store.specs.Database.{Database};
ghost use Rattle.tree.specs.DocumentId.{is_design_id};
ghost use Rattle.policy.specs.UpdateRules.{rules_of, with_rules};
ghost use Rattle.write.specs.Refusing.{IsDecided, IsOfStoreOrMemory, Refuses};
ghost use Rattle.store.specs.Indexes.{winning_body};
ghost use Rattle.write.specs.Terms.{as_design_document, rules_in, terms_in};
ghost use Rattle.write.specs.TermsRead.{document_at, terms_of};

use crate::fault::WriteFault;
use auth::Caller;
use couch_json::Got;
use policy::{RuleSet, Security};
use std::alloc::Global;
use store::{DbName, IdRow, Store, design_range, find_winning_body, read_winning};
use tree::{DocId, History};

/// The terms on which a caller writes into a database, as a request finds it.
pub struct Terms<'a> {
    /// Who writes.
    pub caller: &'a Caller,
    /// The name of the database.
    pub name: &'a DbName,
    /// Its security object.
    pub security: Security,
    /// Its update rules: those of the design documents whose winner is not deleted.
    pub rules: RuleSet,
}

// Written out, so that callers do not prove again how each part is dropped.
impl Drop for Terms<'_> {
    fn drop(self) {
        let Terms {
            caller: _,
            name: _,
            security: _,
            rules: _,
        } = self;
    }
}

/// Reads the terms on which a caller writes. Nothing changes.
///
/// `Store(NoDatabase)` comes if and only if there is no database of this name; else nothing but want
/// of memory and faults of the store refuse. See the CouchDB manual, ddocs/ddocs.
pub fn read_terms<'a, S: Store>(
    alloc: Global,
    store: &mut S,
    db: &'a DbName,
    caller: &'a Caller,
) -> Result<Terms<'a>, WriteFault>
    ensures there { S.is_honest store.new → IsDecided result → is_some (map.get (S.contents store.old) db.now) ≡ true }
    ensures terms { S.is_honest store.new
        → IfOk result (λ t. IfThere (map.get (S.contents store.old) db.now) (λ d. terms_of t ≡ terms_in caller.now db.now d)) }
    ensures only { IfErr result IsOfStoreOrMemory }
    ensures passed { IfErr result (Refuses S.Store store.old store.new (map.get (S.contents store.old) db.now ≡ None) ⊥) }
    ensures reads { OnlyReads S.Store store.old store.new }
{
    let security = store.security(db)?;
    let rules = read_rules(alloc, store, db)?;
    Ok(Terms {
        caller,
        name: db,
        security,
        rules,
    })
}

/// Reads the update rules of a database.
fn read_rules<S: Store>(alloc: Global, store: &mut S, db: &DbName) -> Result<RuleSet, WriteFault>
    ensures rules { S.is_honest store.new → IfOk result (λ rules. IfThere (map.get (S.contents store.old) db.now) (λ d. rules ≡ rules_in d)) }
    ensures only { IfErr result IsOfStoreOrMemory }
    ensures passed { IfErr result (Refuses S.Store store.old store.new (map.get (S.contents store.old) db.now ≡ None) ⊥) }
    ensures reads { OnlyReads S.Store store.old store.new }
{
    let range = design_range(alloc)?;
    let page = store.page_by_id(db, &range)?;
    take_rules(alloc, store, db, &page.rows)
}

/// Takes the rules of those of the rows that are design documents.
fn take_rules<S: Store>(
    alloc: Global,
    store: &mut S,
    db: &DbName,
    rows: &[IdRow],
) -> Result<RuleSet, WriteFault>
    ensures rules { S.is_honest store.new → IfOk result (λ rules. (d : Database) → map.get (S.contents store.old) db.now ≡ Some d
        → rules ≡ rules_of (flat_map (λ r. document_at d r.id) rows.now)) }
    ensures only { IfErr result IsOfStoreOrMemory }
    ensures passed { IfErr result (Refuses S.Store store.old store.new (map.get (S.contents store.old) db.now ≡ None) ⊥) }
    ensures reads { OnlyReads S.Store store.old store.new }
{
    let mut rules = RuleSet::new(alloc);
    for row in rows {
        take_rule(alloc, store, db, &row.id, &mut rules)?;
    }
    Ok(rules)
}

/// Takes in the rule of a document, if it is a design document and declares one.
#[tactic(auto, using(store::proofs::Winnings::body_alone))]
fn take_rule<S: Store>(
    alloc: Global,
    store: &mut S,
    db: &DbName,
    id: &DocId,
    rules: &mut RuleSet,
) -> Result<(), WriteFault>
    ensures rules { S.is_honest store.new → OnOk result ((d : Database) → map.get (S.contents store.old) db.now ≡ Some d
        → rules.new ≡ with_rules rules.old (document_at d id.now)) }
    ensures only { IfErr result IsOfStoreOrMemory }
    ensures passed { IfErr result (Refuses S.Store store.old store.new (map.get (S.contents store.old) db.now ≡ None) ⊥) }
    ensures reads { OnlyReads S.Store store.old store.new }
{
    if !id.is_design() {
        return Ok(());
    }
    let history = read_winning(alloc, store, db, id)?;
    put_rule(rules, id, &history)?;
    Ok(())
}

/// Puts in the rule of a design document with this history, if its winner is not deleted and
/// declares one.
fn put_rule(rules: &mut RuleSet, id: &DocId, history: &History) -> Got<()>
    requires { is_design_id id.now ≡ true }
    ensures ok { OnOk result (rules.new ≡ with_rules rules.old (as_design_document id.now (winning_body history.now))) }
{
    match find_winning_body(history) {
        Some(body) => rules.put(id, body),
        None => Ok(()),
    }
}
