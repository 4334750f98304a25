//! What follows from the definitions alone. Each function has an empty body: its contract is the law.

ghost use Rattle.std.specs.Prelude.{◌≡◌, ◌≢◌, ◌≤◌, ℕ, AllPairs, Contains, length, true};
ghost use Rattle.couch_json.specs.Value.{Value};
ghost use Rattle.store.specs.Database.{Database};
ghost use Rattle.find.specs.Found.{IsFindable, found_documents, id_of, is_before, matching_documents, place_of};
ghost use Rattle.find.specs.declared.query.Query.{Query};

/// What a query finds matches its selector, and is a document that queries look at and that has all
/// fields of the sort. Each such document is found where nothing is skipped and the limit is not
/// below their number.
pub fn found_documents()
    ensures there { (query : Query) (db : Database) (v : Value) → Contains (found_documents query db) v → IsFindable query db v }
    ensures whole { (query : Query) (db : Database) (v : Value) → query.skip ≡ 0 → length (matching_documents query db) ≤ query.limit
        → IsFindable query db v → Contains (found_documents query db) v }
{}

/// Of any two documents that a query finds, the place of the first is strictly before that of the
/// second, in the direction of its sort: by the values at the fields of the sort, and by id where these
/// tie. Without a sort they go by id. No id stands there twice.
pub fn order_of_found_documents()
    ensures ordered { (query : Query) (db : Database)
        → AllPairs (λ v w. is_before query.descending (place_of query.sort v) (place_of query.sort w) ≡ true) (found_documents query db) }
    ensures once { (query : Query) (db : Database) → AllPairs (λ v w. id_of v ≢ id_of w) (found_documents query db) }
{}
