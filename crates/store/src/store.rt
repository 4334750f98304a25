ghost use Rattle.std.specs.Prelude.{◌≡◌, ◌≢◌, ℕ, List, IfOk, IfErr, IfSome, OnOk, Err, Some, None, is_some, true, option_map};
ghost use Rattle.std.specs.FinMap as map;
ghost use Rattle.store.specs.Causes.{IsCaused};
ghost use Rattle.store.specs.Contents.{Contents, AreAcceptable, IfThere, IsThereWith, local_at, new_database, with_local, with_security};
ghost use Rattle.store.specs.Database.{DocumentWrite, history_at, with_all};
ghost use Rattle.store.specs.KeyPages.{page_of_keys};
ghost use Rattle.store.specs.KeyPageStructs.{HasKeyCounts, key_page_in};
ghost use Rattle.store.specs.Lawful.{AllEndAtLast, AreLawful, IsLocalDocument};
ghost use Rattle.store.specs.Leaving.{Answers, ChangesWhole, OnlyReads};
ghost use Rattle.store.specs.Pages.{page_of_ids, page_by_sequence};
ghost use Rattle.store.specs.PageStructs.{IsBounded, IsCounted, id_page_of, sequence_page_of};
ghost use Rattle.store.specs.Writing.{additions, writings_in};
ghost use Rattle.tree.specs.Outline.{marked_winner, outline_of};

use crate::database_name::DbName;
use crate::fault::StoreFault;
use crate::index_page::{KeyRange, PageByKey};
use crate::listing::{IdRange, PageById, PageBySeq, SeqRange};
use crate::local_document::LocalDocument;
use crate::write::Write;
use policy::Security;
use tree::{DocId, Entry, History, MarkedRev, Outline, Rev};

/// A store of databases.
///
/// All that anybody sees of it is its contents: databases by name. Each call that changes them makes
/// one change, whole or not at all. Readers take `&mut self`, since a store over a disk does.
pub trait Store {
    /// The databases by name.
    ghost contents: { Self → Contents };

    /// What the store stands on has returned what was written, and what the store opened was laid out
    /// as it lays out. Clauses about contents say something only where this holds at the return; in
    /// memory it always does.
    ghost is_honest: { Self → Type 0 };

    /// What the store stands on has returned what was written, whatever the store opened.
    ghost is_clean: { Self → Type 0 };

    /// How many faults of what it stands on the store has met.
    ghost fault_count: { Self → ℕ };

    /// The store has no numbers left for these writes in the database of this name.
    ghost lacks_room: { Self → List ℕ → List DocumentWrite → Type 0 };

    /// The store has no number left for a new database.
    ghost lacks_number: { Self → Type 0 };

    /// Makes a new database, closed to all but server admins. `Exists` comes if and only if there is
    /// one of this name.
    fn create(&mut self, name: &DbName) -> Result<(), StoreFault>
        ensures ok { is_honest self.new → OnOk result (contents self.new ≡ map.insert (contents self.old) name.now new_database) }
        ensures absent { is_honest self.new → OnOk result (map.get (contents self.old) name.now ≡ None) }
        ensures exists { is_honest self.new → result ≡ Err StoreFault.Exists → is_some (map.get (contents self.old) name.now) ≡ true }
        ensures others { result ≢ Err StoreFault.NoDatabase }
        ensures caused { IfErr result (λ fault. IsCaused (fault_count self.old) (fault_count self.new) (is_honest self.new)
            (is_honest self.new → lacks_number self.old) fault) }
        ensures changes { ChangesWhole contents is_honest is_clean fault_count self.old self.new result };

    /// Removes a database with all that it holds. `NoDatabase` comes if and only if there is none of
    /// this name.
    fn remove(&mut self, name: &DbName) -> Result<(), StoreFault>
        ensures ok { is_honest self.new → OnOk result (contents self.new ≡ map.remove (contents self.old) name.now) }
        ensures there { is_honest self.new → OnOk result (is_some (map.get (contents self.old) name.now) ≡ true) }
        ensures missing { is_honest self.new → result ≡ Err StoreFault.NoDatabase → map.get (contents self.old) name.now ≡ None }
        ensures others { result ≢ Err StoreFault.Exists }
        ensures caused { IfErr result (λ fault. IsCaused (fault_count self.old) (fault_count self.new) (is_honest self.new) ⊥ fault) }
        ensures changes { ChangesWhole contents is_honest is_clean fault_count self.old self.new result };

    /// Returns the names of all databases, in the order of their bytes.
    fn names(&mut self) -> Result<Vec<DbName>, StoreFault>
        ensures answer { Answers is_honest fault_count self.old self.new (λ names. names.items) (Some (map.keys (contents self.old))) result }
        ensures others { result ≢ Err StoreFault.NoDatabase }
        ensures reads { OnlyReads contents is_honest is_clean fault_count lacks_room lacks_number self.old self.new };

    /// Returns the security object of a database. `NoDatabase` comes if and only if there is none.
    fn security(&mut self, name: &DbName) -> Result<Security, StoreFault>
        ensures answer { Answers is_honest fault_count self.old self.new (λ security. security)
            (option_map (λ db. db.security) (map.get (contents self.old) name.now)) result }
        ensures reads { OnlyReads contents is_honest is_clean fault_count lacks_room lacks_number self.old self.new };

    /// Gives a database another security object. `NoDatabase` comes if and only if there is none.
    fn set_security(&mut self, name: &DbName, security: &Security) -> Result<(), StoreFault>
        ensures ok { is_honest self.new
            → OnOk result (option_map (λ db. map.insert (contents self.old) name.now (with_security db security.now))
            (map.get (contents self.old) name.now) ≡ Some (contents self.new)) }
        ensures missing { is_honest self.new → result ≡ Err StoreFault.NoDatabase → map.get (contents self.old) name.now ≡ None }
        ensures others { result ≢ Err StoreFault.Exists }
        ensures caused { IfErr result (λ fault. IsCaused (fault_count self.old) (fault_count self.new) (is_honest self.new) ⊥ fault) }
        ensures changes { ChangesWhole contents is_honest is_clean fault_count self.old self.new result };

    /// Returns the history of a document, empty where it was never written. `NoDatabase` comes if and only if
    /// there is no database of this name.
    fn history(&mut self, name: &DbName, id: &DocId) -> Result<History, StoreFault>
        ensures answer { Answers is_honest fault_count self.old self.new (λ history. history)
            (option_map (λ db. history_at db id.now) (map.get (contents self.old) name.now)) result }
        ensures reads { OnlyReads contents is_honest is_clean fault_count lacks_room lacks_number self.old self.new };

    /// Returns the same history without its bodies: revisions, parents and marks.
    fn outline(&mut self, name: &DbName, id: &DocId) -> Result<Outline, StoreFault>
        ensures answer { Answers is_honest fault_count self.old self.new (λ outline. outline)
            (option_map (λ db. outline_of (history_at db id.now)) (map.get (contents self.old) name.now)) result }
        ensures reads { OnlyReads contents is_honest is_clean fault_count lacks_room lacks_number self.old self.new };

    /// Returns the winner of a document with its mark, or `None` where it was never written. `NoDatabase`
    /// comes if and only if there is no database of this name.
    fn winner(&mut self, name: &DbName, id: &DocId) -> Result<Option<MarkedRev>, StoreFault>
        ensures answer { Answers is_honest fault_count self.old self.new (λ found. found)
            (option_map (λ db. marked_winner (history_at db id.now)) (map.get (contents self.old) name.now)) result }
        ensures reads { OnlyReads contents is_honest is_clean fault_count lacks_room lacks_number self.old self.new };

    /// Returns what is known of one revision of a document, its parent, and the mark and the body that are
    /// held, or `None` where it is not known. `NoDatabase` comes if and only if there is no database of
    /// this name.
    fn revision(
        &mut self,
        name: &DbName,
        id: &DocId,
        rev: &Rev,
    ) -> Result<Option<Entry>, StoreFault>
        ensures answer { Answers is_honest fault_count self.old self.new (λ found. found)
            (option_map (λ db. map.get (history_at db id.now) rev.now) (map.get (contents self.old) name.now)) result }
        ensures reads { OnlyReads contents is_honest is_clean fault_count lacks_room lacks_number self.old self.new };

    /// Returns the documents of a database whose winner is not deleted, by id and cut by a range, with their
    /// counts where those are asked for. `NoDatabase` comes if and only if there is none of this name.
    fn page_by_id(&mut self, name: &DbName, range: &IdRange) -> Result<PageById, StoreFault>
        ensures answer { Answers is_honest fault_count self.old self.new id_page_of
            (option_map (λ db. page_of_ids range.now db) (map.get (contents self.old) name.now)) result }
        ensures counted { IfOk result (IsCounted range.now) }
        ensures reads { OnlyReads contents is_honest is_clean fault_count lacks_room lacks_number self.old self.new };

    /// Returns the documents of a database, each once at the sequence of its latest write, ascending and cut
    /// by a range, with the database's counts where those are asked for. `NoDatabase` comes exactly
    /// where there is none of this name.
    fn page_by_seq(&mut self, name: &DbName, range: &SeqRange) -> Result<PageBySeq, StoreFault>
        ensures answer { Answers is_honest fault_count self.old self.new sequence_page_of
            (option_map (λ db. page_by_sequence range.now db) (map.get (contents self.old) name.now)) result }
        ensures bounded { IfOk result (IsBounded range.now) }
        ensures reads { OnlyReads contents is_honest is_clean fault_count lacks_room lacks_number self.old self.new };

    /// Returns the rows of the index that a design document of a database declares under a name, by key
    /// and cut by a range, with their counts where those are asked for; `None` where it declares none of
    /// this name. `NoDatabase` comes if and only if there is no database of this name.
    fn page_by_key(
        &mut self,
        name: &DbName,
        design: &DocId,
        index: &str,
        range: &KeyRange,
    ) -> Result<Option<PageByKey>, StoreFault>
        ensures answer { Answers is_honest fault_count self.old self.new key_page_in
            (option_map (λ db. page_of_keys range.now design.now index.now db) (map.get (contents self.old) name.now)) result }
        ensures counted { IfOk result (λ page. IfSome page (HasKeyCounts range.now)) }
        ensures reads { OnlyReads contents is_honest is_clean fault_count lacks_room lacks_number self.old self.new };

    /// Appends all the writes to a database, or none of them. `NoDatabase` comes if and only if there
    /// is none of this name.
    ///
    /// A write's path goes on with what the history, once the writes before it are in, knows behind
    /// its parent. The caller owes that each path is whole, that its head is not known and that it
    /// gives no known revision another parent, that each body is an object at most 100 deep without
    /// special members, and that no id is a local one.
    fn commit(&mut self, name: &DbName, writes: &[Write]) -> Result<(), StoreFault>
        requires { is_honest self.old → IfThere (map.get (contents self.old) name.now)
            (λ db. AreAcceptable db (writings_in db (additions writes.now))) }
        ensures ok { is_honest self.new
            → OnOk result (option_map (λ db. map.insert (contents self.old) name.now (with_all db (writings_in db (additions writes.now))))
            (map.get (contents self.old) name.now) ≡ Some (contents self.new)) }
        ensures missing { is_honest self.new → result ≡ Err StoreFault.NoDatabase → map.get (contents self.old) name.now ≡ None }
        ensures others { result ≢ Err StoreFault.Exists }
        ensures caused { IfErr result (λ fault. IsCaused (fault_count self.old) (fault_count self.new) (is_honest self.new)
            (is_honest self.new → IsThereWith (map.get (contents self.old) name.now)
            (λ db. lacks_room self.old name.now (writings_in db (additions writes.now)))) fault) }
        ensures changes { ChangesWhole contents is_honest is_clean fault_count self.old self.new result };

    /// Returns a local document, or `None` if none of this id was written. `NoDatabase` comes if and
    /// only if there is no database of this name.
    fn local(&mut self, name: &DbName, id: &DocId) -> Result<Option<LocalDocument>, StoreFault>
        ensures answer { Answers is_honest fault_count self.old self.new (λ found. found)
            (option_map (λ db. local_at db id.now) (map.get (contents self.old) name.now)) result }
        ensures reads { OnlyReads contents is_honest is_clean fault_count lacks_room lacks_number self.old self.new };

    /// Writes a local document in the place of the one of this id, whatever its number. `NoDatabase`
    /// comes if and only if there is no database of this name; `Full` never comes.
    ///
    /// The caller owes that the id is a local one, `_local/` and a name, that the number lies from 1 to
    /// 2^31 - 1, and that the body is an object at most 100 deep without special members.
    fn set_local(
        &mut self,
        name: &DbName,
        id: &DocId,
        document: &LocalDocument,
    ) -> Result<(), StoreFault>
        requires { is_honest self.old → IfThere (map.get (contents self.old) name.now) (λ _. IsLocalDocument id.now document.now) }
        ensures ok { is_honest self.new
            → OnOk result (option_map (λ db. map.insert (contents self.old) name.now (with_local db id.now document.now))
            (map.get (contents self.old) name.now) ≡ Some (contents self.new)) }
        ensures missing { is_honest self.new → result ≡ Err StoreFault.NoDatabase → map.get (contents self.old) name.now ≡ None }
        ensures others { result ≢ Err StoreFault.Exists }
        ensures caused { IfErr result (λ fault. IsCaused (fault_count self.old) (fault_count self.new) (is_honest self.new) ⊥ fault) }
        ensures changes { ChangesWhole contents is_honest is_clean fault_count self.old self.new result };

    /// Counts how many faults of what it stands on the store has met; it stays at 2^64 - 1.
    fn faults(&self) -> u64
        ensures { result ≡ fault_count self.now };

    /// What an honest store holds is lawful.
    ghost lawful: { (s : Self) → is_honest s → ∥ AreLawful (contents s) ∥₁ };

    /// In an honest store the sequence of a database is that of its last document, or 0.
    ghost ends: { (s : Self) → is_honest s → ∥ AllEndAtLast (contents s) ∥₁ };
}
