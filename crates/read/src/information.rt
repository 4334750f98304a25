ghost use Rattle.std.specs.Prelude.{◌≡◌, ◌≢◌, ◌<◌, ◌^◌, IfOk, IfErr, Ok, option_map};
ghost use Rattle.std.specs.FinMap as map;
ghost use Rattle.store.specs.Calls.{OnlyReads};
ghost use Rattle.read.specs.Answers.{AnswersValue};
ghost use Rattle.read.specs.Information.{information, information_by};

use crate::fault::ReadFault;
use crate::numbers::whole;
use couch_json::{Got, Json, JsonText, NameMap, put_member};
use std::alloc::Global;
use store::{DbName, DocumentCounts, SeqRange, Store};

/// Tells what a database says of itself: an object with `db_name`, `doc_count`, `doc_del_count` and
/// `update_seq`. The counts are of documents by winner, not deleted and deleted.
///
/// `Store(NoDatabase)` comes if and only if there is no database of this name; else nothing but
/// lack of memory and faults of the store refuse. Nothing changes. See the CouchDB manual,
/// api/database/common.
pub fn info<S: Store>(alloc: Global, store: &mut S, db: &DbName) -> Result<JsonText, ReadFault>
    ensures answer { AnswersValue S.Store store.old store.new (option_map (λ d. Ok (information db.now d)) (map.get (S.contents store.old) db.now)) result }
    ensures only { IfErr result (λ fault. fault ≢ ReadFault.Memory → ((cause : _) → fault ≢ ReadFault.Store cause) → ⊥) }
    ensures reads { OnlyReads S.Store store.old store.new }
{
    let range = SeqRange {
        since: 0,
        limit: Some(0),
        all_leaves: false,
        counted: true,
    };
    let page = store.page_by_seq(db, &range)?;
    match page.counts {
        Some(counts) => Ok(build_information(alloc, db, counts, page.sequence)?),
        None => unreachable!(),
    }
}

/// Builds that object.
fn build_information(
    alloc: Global,
    db: &DbName,
    counts: DocumentCounts,
    sequence: u64,
) -> Got<JsonText>
    requires documents { counts.documents < 2 ^ 63 }
    requires deleted { counts.deleted < 2 ^ 63 }
    requires sequence { sequence < 2 ^ 63 }
    ensures { IfOk result (λ value. value ≡ information_by db.now counts.documents counts.deleted sequence) }
{
    let name = String::from_str(alloc, db.as_str())?;
    let mut members = NameMap::new(alloc);
    put_member(alloc, &mut members, "db_name", Json::Text(name))?;
    put_member(alloc, &mut members, "doc_count", whole(counts.documents))?;
    put_member(alloc, &mut members, "doc_del_count", whole(counts.deleted))?;
    put_member(alloc, &mut members, "update_seq", whole(sequence))?;
    JsonText::of(alloc, &Json::Object(members))
}
