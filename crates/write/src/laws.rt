//! What follows from the definitions alone. Each function has an empty body: its contract is the law.

ghost use Rattle.std.specs.Prelude.{◌≡◌, ◌↔◌, ◌⊎◌, ◌∷◌, ◌++◌, Bool, false, true, List, ℕ, Ok, Err, Option, Some, None};
ghost use Rattle.couch_json.specs.Value.{Value};
ghost use Rattle.tree.specs.DocumentId.{is_local_id};
ghost use Rattle.tree.specs.History.{ancestors_of_parent, is_known, placement};
ghost use Rattle.tree.specs.NextRevision.{next_revision};
ghost use Rattle.tree.specs.Revision.{Revision};
ghost use Rattle.policy.specs.declared.rule.Rule.{Rule};
ghost use Rattle.tree.specs.declared.placement.Placed.{Placed};
ghost use Rattle.tree.specs.declared.placement.TreeFault.{TreeFault};
ghost use Rattle.store.specs.Contents.{AreAcceptable, IsAcceptable};
ghost use Rattle.store.specs.Database.{Database, DocumentWrite, history_at, with_all};
ghost use Rattle.store.specs.Lawful.{IsLawfulDatabase};
ghost use Rattle.write.specs.Admission.{admission, parent_for_edit, replication, revision_after, unnamed_deletion, write_at};
ghost use Rattle.write.specs.Bulk.{Histories, DocumentOutcome, outcome_in, outcomes, writes_in};
ghost use Rattle.write.specs.Denials.{EditHasLeave, EditIsDueTo, IsDesignDenial, ReplicationHasLeave, ReplicationIsDueTo};
ghost use Rattle.write.specs.Document.{id_in};
ghost use Rattle.write.specs.Settling.{AreKnownOrRefused, after_all};
ghost use Rattle.write.specs.Terms.{Terms};
ghost use Rattle.write.specs.declared.fault.WriteFault.TheVariants.{Denied, Generation};

/// Of documents that are replicated together, each is refused, or the revision that it brings is
/// known for its id once all of them are in; whatever the terms and the histories they come to.
pub fn replicated_is_known_or_refused()
    ensures known { (terms : Terms) (histories : Histories) (documents : List Value)
        → AreKnownOrRefused (after_all histories (outcomes terms false histories documents)) documents (outcomes terms false histories documents) }
    ensures stored { (terms : Terms) (db : Database) (documents : List Value)
        → AreKnownOrRefused (history_at (with_all db (writes_in (outcomes terms false (history_at db) documents)))) documents
        (outcomes terms false (history_at db) documents) }
{}

/// The histories after several outcomes are those of the database with their writes.
pub fn outcomes_are_written()
    ensures { (db : Database) (os : List DocumentOutcome) → after_all (history_at db) os ≡ history_at (with_all db (writes_in os)) }
{}

/// In a lawful database the path of an edit fits in: where there is a revision to follow, or none is
/// needed, the tree takes the write in if and only if its new revision is not known, else it knows the
/// write or one with another parent. So an edit is judged without its path.
pub fn edits_fit()
    ensures added { (db : Database) (id : List ℕ) (named parent : Option Revision) (deleted : Bool) (body : Value) → IsLawfulDatabase db
        → parent_for_edit (history_at db id) named ≡ Some parent
        → (placement (history_at db id) (next_revision parent deleted body ∷ ancestors_of_parent (history_at db id) parent) ≡ Ok Placed.Added)
        ↔ (is_known (history_at db id) (next_revision parent deleted body) ≡ false) }
    ensures known { (db : Database) (id : List ℕ) (named parent : Option Revision) (deleted : Bool) (body : Value) → IsLawfulDatabase db
        → parent_for_edit (history_at db id) named ≡ Some parent → is_known (history_at db id) (next_revision parent deleted body) ≡ true
        → (placement (history_at db id) (next_revision parent deleted body ∷ ancestors_of_parent (history_at db id) parent) ≡ Ok Placed.Known)
        ⊎ (placement (history_at db id) (next_revision parent deleted body ∷ ancestors_of_parent (history_at db id) parent) ≡ Err TreeFault.OtherParent) }
{}

/// In a lawful database what is planned may be made: the write of an edit and that of a replicated
/// document, where its id is no local one, and those of several documents, one after another.
pub fn plans_are_acceptable()
    ensures edited { (terms : Terms) (db : Database) (id : List ℕ) (query : Option Revision) (document : Value) (w : DocumentWrite) → IsLawfulDatabase db
        → is_local_id id ≡ false → admission terms db id query document ≡ Ok w → IsAcceptable db w }
    ensures replicated { (terms : Terms) (db : Database) (id : List ℕ) (document : Value) (w : DocumentWrite)
        → is_local_id id ≡ false → replication terms db id document ≡ Ok (Some w) → IsAcceptable db w }
    ensures together { (terms : Terms) (new_edits : Bool) (db : Database) (documents : List Value) → IsLawfulDatabase db
        → AreAcceptable db (writes_in (outcomes terms new_edits (history_at db) documents)) }
{}

/// A denial names the first rule that refuses: of a design document the first condition on writing
/// one that the caller doesn't meet, of another document the first update rule of the terms that does
/// not hold of it. An update rule denies only where the document could be written else: an edit follows
/// a leaf that was found and its revision is not known, a replicated document has a place in the tree.
/// A deletion that names no revision is denied of a design document alone.
pub fn denials_name_the_first_refusing_rule()
    ensures edited { (terms : Terms) (db : Database) (id : List ℕ) (query : Option Revision) (document : Value) (rule : Rule)
        → admission terms db id query document ≡ Err (Denied rule) → EditIsDueTo terms id (history_at db id) query document rule }
    ensures replicated { (terms : Terms) (db : Database) (id : List ℕ) (document : Value) (rule : Rule)
        → replication terms db id document ≡ Err (Denied rule) → ReplicationIsDueTo terms id (history_at db id) document rule }
    ensures unnamed { (terms : Terms) (id : List ℕ) (rule : Rule) → unnamed_deletion terms id ≡ Err (Denied rule) → IsDesignDenial terms id rule }
{}

/// A write that is appended is refused by no rule: a design document's caller may write it, and of
/// another document each update rule of the terms holds. An edit has followed a leaf that was found,
/// and its revision was not known; a replicated document had a place in the tree.
pub fn appended_writes_have_leave()
    ensures edited { (terms : Terms) (db : Database) (id : List ℕ) (query : Option Revision) (document : Value) (w : DocumentWrite)
        → admission terms db id query document ≡ Ok w → EditHasLeave terms id (history_at db id) query document }
    ensures replicated { (terms : Terms) (db : Database) (id : List ℕ) (document : Value) (w : DocumentWrite)
        → replication terms db id document ≡ Ok (Some w) → ReplicationHasLeave terms id (history_at db id) document }
{}

/// The converse of that: what has leave and is no conflict is appended. An edit that has leave is the
/// write of its next revision (`edited`), and is refused only where there is no further one (`ended`); a
/// replicated document that has leave is the write of its path (`replicated`). So is each document of
/// several, whose histories are those that the documents in front of it have left.
pub fn writes_with_leave_are_appended()
    ensures edited { (terms : Terms) (db : Database) (id : List ℕ) (query : Option Revision) (document : Value) (rev : Revision)
        → (leave : EditHasLeave terms id (history_at db id) query document) → revision_after leave.sent leave.parent ≡ Some rev
        → admission terms db id query document ≡ Ok (write_at id (rev ∷ ancestors_of_parent (history_at db id) leave.parent) leave.sent) }
    ensures ended { (terms : Terms) (db : Database) (id : List ℕ) (query : Option Revision) (document : Value)
        → (leave : EditHasLeave terms id (history_at db id) query document) → revision_after leave.sent leave.parent ≡ None
        → admission terms db id query document ≡ Err Generation }
    ensures replicated { (terms : Terms) (db : Database) (id : List ℕ) (document : Value)
        → (leave : ReplicationHasLeave terms id (history_at db id) document)
        → replication terms db id document ≡ Ok (Some (write_at id leave.ancestry.path leave.sent)) }
    ensures edited_together { (terms : Terms) (histories : Histories) (id : List ℕ) (document : Value) (rev : Revision) → id_in document ≡ Some id
        → (leave : EditHasLeave terms id (histories id) None document) → revision_after leave.sent leave.parent ≡ Some rev
        → outcome_in terms true histories document ≡ Ok (Some (write_at id (rev ∷ ancestors_of_parent (histories id) leave.parent) leave.sent)) }
    ensures replicated_together { (terms : Terms) (histories : Histories) (id : List ℕ) (document : Value) → id_in document ≡ Some id
        → (leave : ReplicationHasLeave terms id (histories id) document)
        → outcome_in terms false histories document ≡ Ok (Some (write_at id leave.ancestry.path leave.sent)) }
{}

/// Where a denial is due, it is the outcome, and it names the rule that is due: of an edit, of a
/// replicated document, of a deletion that names no revision, and of each document of several. So
/// neither a conflict nor a missing generation hides a denial that is due.
pub fn due_denials_are_answered()
    ensures edited { (terms : Terms) (db : Database) (id : List ℕ) (query : Option Revision) (document : Value) (rule : Rule)
        → EditIsDueTo terms id (history_at db id) query document rule → admission terms db id query document ≡ Err (Denied rule) }
    ensures replicated { (terms : Terms) (db : Database) (id : List ℕ) (document : Value) (rule : Rule)
        → ReplicationIsDueTo terms id (history_at db id) document rule → replication terms db id document ≡ Err (Denied rule) }
    ensures unnamed { (terms : Terms) (id : List ℕ) (rule : Rule) → IsDesignDenial terms id rule → unnamed_deletion terms id ≡ Err (Denied rule) }
    ensures edited_together { (terms : Terms) (histories : Histories) (id : List ℕ) (document : Value) (rule : Rule) → id_in document ≡ Some id
        → EditIsDueTo terms id (histories id) None document rule → outcome_in terms true histories document ≡ Err (Denied rule) }
    ensures replicated_together { (terms : Terms) (histories : Histories) (id : List ℕ) (document : Value) (rule : Rule) → id_in document ≡ Some id
        → ReplicationIsDueTo terms id (histories id) document rule → outcome_in terms false histories document ≡ Err (Denied rule) }
{}

/// Of several documents each is judged by the histories that those in front of it have left, and by
/// nothing behind it.
pub fn documents_are_judged_in_order()
    ensures { (terms : Terms) (new_edits : Bool) (histories : Histories) (front back : List Value)
        → outcomes terms new_edits histories (front ++ back)
        ≡ outcomes terms new_edits histories front ++ outcomes terms new_edits (after_all histories (outcomes terms new_edits histories front)) back }
{}

/// A denied document changes nothing: those behind it have the outcomes that they have without it,
/// and the same writes are appended.
pub fn denied_writes_change_nothing()
    ensures others { (terms : Terms) (new_edits : Bool) (histories : Histories) (document : Value) (documents : List Value) (rule : Rule)
        → outcome_in terms new_edits histories document ≡ Err (Denied rule)
        → outcomes terms new_edits histories (document ∷ documents) ≡ Err (Denied rule) ∷ outcomes terms new_edits histories documents }
    ensures writes { (terms : Terms) (new_edits : Bool) (histories : Histories) (document : Value) (documents : List Value) (rule : Rule)
        → outcome_in terms new_edits histories document ≡ Err (Denied rule)
        → writes_in (outcomes terms new_edits histories (document ∷ documents)) ≡ writes_in (outcomes terms new_edits histories documents) }
{}
