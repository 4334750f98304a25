//! Whether the tables of a connection are those of a store. They are made where there is none, and those
//! of the first version are carried over.

ghost use Rattle.std.specs.Prelude.{◌≡◌, ◌≢◌, ◌⊎◌, false, true, Err, IfErr, IsTrue, OnErr, OnOk};
ghost use Rattle.sqlite.specs.Held.{state};
ghost use Rattle.sqlite.specs.State.{HasCleanDisk};
ghost use Rattle.tables.specs.Layout.{IsFirstStore, IsNew, IsStore};
ghost use Rattle.tables.specs.Presence.{has_all, has_any, version_in};
ghost use Rattle.tables.specs.Schema.{meta_tree, no_schema, schema};
ghost use Rattle.transactions.specs.Endings.{IsUndone, Turns};
ghost use Rattle.transactions.specs.Renewing.{IsCarriedOver};
ghost use Rattle.sqlstore.specs.Opening.{FailsToRead, IsForeign, IsUnreadable, version_of};

use crate::open_fault::{OpenFault, open_fault};
use sqlite::{Alter, Connection};
use std::alloc::Global;
use store::StoreFault;
use tables::{FileVersion, FoundTables, read_version, tables_in};
use transactions::{CommitFault, begin_tables, carry_over};

/// Finds the tables of a store, which it carries over where they are of the first version, or makes them
/// where there is none of them.
pub(crate) fn find_tables<S: Alter>(
    alloc: Global,
    conn: &mut Connection<S>,
) -> Result<(), OpenFault>
    requires { conn.old.in_transaction ≡ false }
    // Where there was a store it is found as it was, where there was one of the first version it is
    // carried over, and where there was nothing it is made.
    ensures found { HasCleanDisk (state S.Store conn.new) → IsStore (state S.Store conn.old).now
        → OnOk result ((state S.Store conn.new).now ≡ (state S.Store conn.old).now) }
    ensures carried { HasCleanDisk (state S.Store conn.new) → IsFirstStore (state S.Store conn.old).now
        → OnOk result (IsCarriedOver (state S.Store conn.old).now (state S.Store conn.new).now) }
    ensures made { HasCleanDisk (state S.Store conn.new) → conn.old.schema ≡ no_schema → OnOk result (IsNew (state S.Store conn.new).now) }
    ensures not_ours { result ≡ Err OpenFault.NotOurs → HasCleanDisk (state S.Store conn.new) → ¬ IsStore (state S.Store conn.old).now }
    ensures not_first { result ≡ Err OpenFault.NotOurs → HasCleanDisk (state S.Store conn.new) → ¬ IsFirstStore (state S.Store conn.old).now }

    // Whose tables they are not: some alone, never none of them; or all, which say so by their rows.
    ensures foreign { result ≡ Err OpenFault.NotOurs → IsForeign S.Store conn.old conn.new }
    ensures fresh { has_any conn.old.schema ≡ false → result ≢ Err OpenFault.NotOurs }
    ensures part { has_any conn.old.schema ≡ true → has_all conn.old.schema ≡ false → result ≡ Err OpenFault.NotOurs }
    ensures failed { HasCleanDisk (state S.Store conn.new) → conn.old.schema ≡ schema → version_of (state S.Store conn.old).now ≢ FileVersion.First
        → IfErr result (λ fault. fault ≢ OpenFault.NotOurs → FailsToRead S.Store conn.old conn.new fault) }

    // What is opened has none of the tables or all, and if they are those of this layout, one of the two versions.
    ensures all { OnOk result (has_any conn.old.schema ≡ true → has_all conn.old.schema ≡ true) }
    ensures version { HasCleanDisk (state S.Store conn.new) → conn.old.schema ≡ schema
        → OnOk result (version_in ((state S.Store conn.old).now.trees meta_tree) ≢ FileVersion.Other) }

    // Where it is refused the rows are as they were, if tables of these names are those of this layout.
    ensures refused { (has_all conn.old.schema ≡ true → conn.old.schema ≡ schema) → HasCleanDisk (state S.Store conn.new)
        → IsTrue (state S.Store conn.new).is_open
        → OnErr result (((state S.Store conn.new).now ≡ (state S.Store conn.old).now) ⊎ ((state S.Store conn.new).now ≡ (state S.Store conn.old).committed)) }
    ensures turns { Turns S.Store conn.old conn.new }
    ensures served { HasCleanDisk (state S.Store conn.new) → OnOk result (IsTrue (state S.Store conn.old).is_open) }
{
    match tables_in(conn.schema()) {
        FoundTables::All => find_version(alloc, conn),
        FoundTables::Part => Err(OpenFault::NotOurs),
        FoundTables::Nothing => make_tables(conn),
        FoundTables::Others => make_tables(conn),
    }
}

/// Carries a file of the first version over to this one.
fn renew_file<S: Alter>(alloc: Global, conn: &mut Connection<S>) -> Result<(), OpenFault>
    requires { conn.old.in_transaction ≡ false }
    ensures ok { HasCleanDisk (state S.Store conn.new) → IsFirstStore (state S.Store conn.old).now
        → OnOk result (IsCarriedOver (state S.Store conn.old).now (state S.Store conn.new).now) }
    ensures not_ours { result ≡ Err OpenFault.NotOurs → HasCleanDisk (state S.Store conn.new) → ¬ IsFirstStore (state S.Store conn.old).now }
    ensures turns { Turns S.Store conn.old conn.new }
    ensures undone { conn.old.schema ≡ schema → IsUndone S.Store conn.old conn.new result }
    ensures served { HasCleanDisk (state S.Store conn.new) → OnOk result (IsTrue (state S.Store conn.old).is_open) }
{
    match carry_over(alloc, conn) {
        Ok(()) => Ok(()),
        Err(CommitFault::Sqlite(error)) => Err(open_fault(error)),
        Err(CommitFault::Store(StoreFault::Memory)) => Err(OpenFault::Memory),
        Err(CommitFault::Store(_)) => Err(OpenFault::NotOurs),
    }
}

/// Finds the tables at their version, and carries those of the first version over.
fn find_version<S: Alter>(alloc: Global, conn: &mut Connection<S>) -> Result<(), OpenFault>
    requires { conn.old.in_transaction ≡ false }
    ensures found { HasCleanDisk (state S.Store conn.new) → IsStore (state S.Store conn.old).now
        → OnOk result ((state S.Store conn.new).now ≡ (state S.Store conn.old).now) }
    ensures carried { HasCleanDisk (state S.Store conn.new) → IsFirstStore (state S.Store conn.old).now
        → OnOk result (IsCarriedOver (state S.Store conn.old).now (state S.Store conn.new).now) }
    ensures not_ours { result ≡ Err OpenFault.NotOurs → HasCleanDisk (state S.Store conn.new) → ¬ IsStore (state S.Store conn.old).now }
    ensures not_first { result ≡ Err OpenFault.NotOurs → HasCleanDisk (state S.Store conn.new) → ¬ IsFirstStore (state S.Store conn.old).now }
    ensures unreadable { result ≡ Err OpenFault.NotOurs → HasCleanDisk (state S.Store conn.new) → conn.old.schema ≡ schema
        → IsUnreadable (state S.Store conn.old).now }
    ensures failed { HasCleanDisk (state S.Store conn.new) → conn.old.schema ≡ schema → version_of (state S.Store conn.old).now ≢ FileVersion.First
        → IfErr result (λ fault. fault ≢ OpenFault.NotOurs → FailsToRead S.Store conn.old conn.new fault) }
    ensures version { HasCleanDisk (state S.Store conn.new) → conn.old.schema ≡ schema
        → OnOk result (version_in ((state S.Store conn.old).now.trees meta_tree) ≢ FileVersion.Other) }
    ensures refused { conn.old.schema ≡ schema → HasCleanDisk (state S.Store conn.new) → IsTrue (state S.Store conn.new).is_open
        → OnErr result (((state S.Store conn.new).now ≡ (state S.Store conn.old).now) ⊎ ((state S.Store conn.new).now ≡ (state S.Store conn.old).committed)) }
    ensures turns { Turns S.Store conn.old conn.new }
    ensures served { HasCleanDisk (state S.Store conn.new) → OnOk result (IsTrue (state S.Store conn.old).is_open) }
{
    match read_version(conn) {
        Ok(FileVersion::Second) => Ok(()),
        Ok(FileVersion::First) => renew_file(alloc, conn),
        Ok(FileVersion::Other) => Err(OpenFault::NotOurs),
        Err(error) => Err(open_fault(error)),
    }
}

/// Makes the tables, where there is none of them.
fn make_tables<S: Alter>(conn: &mut Connection<S>) -> Result<(), OpenFault>
    requires { conn.old.in_transaction ≡ false }
    ensures ok { HasCleanDisk (state S.Store conn.new) → conn.old.schema ≡ no_schema → OnOk result (IsNew (state S.Store conn.new).now) }
    ensures ours { result ≡ Err OpenFault.NotOurs → ⊥ }
    ensures turns { Turns S.Store conn.old conn.new }
    ensures undone { IsUndone S.Store conn.old conn.new result }
    ensures served { HasCleanDisk (state S.Store conn.new) → OnOk result (IsTrue (state S.Store conn.old).is_open) }
{
    match begin_tables(conn) {
        Ok(()) => Ok(()),
        Err(error) => Err(open_fault(error)),
    }
}
