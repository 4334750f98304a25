//! What follows from the definitions alone. Each function has an empty body: its contract is the law.

ghost use Rattle.std.specs.Prelude.{◌≡◌, ◌≢◌, ◌≤◌, ◌∷◌, [], ℕ, List, codes, false, true, None, Some, Ok, Err, is_none, if◌then◌else◌};
ghost use Rattle.std.specs.FinMap.{get};
ghost use Rattle.auth.specs.Callers.{Configuration, Identity};
ghost use Rattle.couch_http.specs.Message.{Message};
ghost use Rattle.couch_json.specs.Value.{object};
ghost use Rattle.policy.specs.declared.rule.Rule.{Rule};
ghost use Rattle.store.specs.Contents.{Contents};
ghost use Rattle.store.specs.Database.{Database};
ghost use Rattle.store.specs.Lawful.{AreLawful};
ghost use Rattle.tree.specs.History.{ancestors_of_parent};
ghost use Rattle.tree.specs.Revision.{Revision};
ghost use Rattle.write.specs.Admission.{revision_after, write_at};
ghost use Rattle.write.specs.Denials.{EditHasLeave, EditIsDueTo, ReplicationHasLeave, ReplicationIsDueTo};
ghost use Rattle.write.specs.Document.{member_text};
ghost use Rattle.write.specs.declared.fault.WriteFault.TheVariants.{Denied};
ghost use Rattle.node.specs.Answer.{answer, judgement, removal, with_change};
ghost use Rattle.node.specs.Bulk.{failed_members, failure_listed, made_members};
ghost use Rattle.node.specs.Denials.{IsDenied, rule_denied_by};
ghost use Rattle.node.specs.Leave.{EditMayBeMade, IsAmong, answer_with, edit_answer, histories_left, shared_terms};
ghost use Rattle.node.specs.Effects.{IsLaterThan, IsOfAll};
ghost use Rattle.api.specs.Asking.{denial};
ghost use Rattle.api.specs.Paths.{database_name_in};
ghost use Rattle.api.specs.Refusals.{name_of_rule, rule_of, status_of};
ghost use Rattle.api.specs.declared.method.RequestMethod.TheVariants.{Put, Delete};
ghost use Rattle.api.specs.declared.refusal.Refusal.{Refusal};
ghost use Rattle.node.specs.Hidden.{AreAlike, AreHidden, CallerGroup, Names, is_struck};
ghost use Rattle.node.specs.Runs.{AreServed, IsRun, Stepped, Steps, end_of, messages_of};

/// No answer has a status that stands for a failure; one from 400 on changes nothing.
#[tactic(auto, using(crate::proofs::Steps::answer_served, crate::proofs::Steps::refused_changes_nothing))]
pub fn answers_have_statuses()
    ensures served { (c : Configuration) (databases : Contents) (m : Message)
        → ((answer c databases m).status ≢ 500) × ((answer c databases m).status ≢ 503) }
    ensures refused { (c : Configuration) (databases : Contents) (m : Message) → 400 ≤ (answer c databases m).status
        → with_change (answer c databases m).change databases ≡ databases }
{}

/// A request reads and changes the database that its path names, and no other: where two states
/// agree on that database, all requests but the one that lists all databases are answered alike, and
/// the databases of other names stay.
#[tactic(auto, using(crate::proofs::Steps::answer_alike, crate::proofs::Steps::answer_others))]
pub fn answers_are_of_one_database()
    ensures reads { (c : Configuration) (a b : Contents) (m : Message) → ¬ (IsOfAll m)
        → ((name : List ℕ) → database_name_in m.path ≡ Some name → get a name ≡ get b name) → answer c a m ≡ answer c b m }
    ensures changes { (c : Configuration) (a : Contents) (m : Message) (other : List ℕ) → database_name_in m.path ≢ Some other
        → get (with_change (answer c a m).change a) other ≡ get a other }
{}

/// Each request that doesn't remove a database leaves it as it is, or makes it a later one.
#[tactic(auto, using(crate::proofs::Steps::answer_later))]
pub fn answers_make_later_databases()
    ensures { (c : Configuration) (a : Contents) (m : Message) (name : List ℕ) (db : Database) → (answer c a m).change ≢ removal name
        → get a name ≡ Some db → IsLaterThan db (get (with_change (answer c a m).change a) name) }
{}

/// Lawful databases stay lawful, at each answer and so in each run.
pub fn answers_keep_databases_lawful()
    ensures answers { (c : Configuration) (a : Contents) (m : Message) → AreLawful a → AreLawful (with_change (answer c a m).change a) }
    ensures runs { (c : Configuration) (before : Contents) (ss : List (Stepped Contents)) → IsRun (Steps c) before ss → AreLawful before
        → AreLawful (end_of before ss) }
{}

/// A denial is told rightly. Where no proxy vouches for the caller whom the headers name, the rule is
/// that of the token. Else the caller is known, and the rule is the first that refuses: of the
/// policy's conditions for an action that page and method ask for, under the security object of the
/// database or, of who administers the server, the closed one; or of those of the edit of the document.
/// A caller without a name is answered with 401, one with a name with 403, and no other refusal has one
/// of these statuses.
#[tactic(auto, using(crate::proofs::Denials::denial_forms))]
pub fn denials_name_the_first_refusing_rule()
    ensures due { (c : Configuration) (databases : Contents) (m : Message) (refusal : Refusal) (rule : Rule) → judgement c databases m ≡ Err refusal
        → rule_denied_by refusal ≡ Some rule → IsDenied c databases m refusal rule }
    ensures statuses { (caller : Identity) (rule : Rule) → status_of (denial caller rule) ≡ (if is_none caller.name then 401 else 403) }
    ensures others { (refusal : Refusal) → rule_denied_by refusal ≡ None → (status_of refusal ≢ 401) × (status_of refusal ≢ 403) }
    ensures rule { (refusal : Refusal) (rule : Rule) → rule_denied_by refusal ≡ Some rule → rule_of refusal ≡ Some (name_of_rule rule) }
{}

/// The converse: where a denial is due, the request is refused by it, whatever else it could be refused
/// for (`request`). A document of several that are written together is denied for itself: it makes no
/// write, and the reply has the denial in its place (`edit`, `replicated`).
pub fn due_denials_are_answered()
    ensures request { (c : Configuration) (databases : Contents) (m : Message) (refusal : Refusal) (rule : Rule)
        → IsDenied c databases m refusal rule → judgement c databases m ≡ Err refusal }
    ensures edit { (c : Configuration) (databases : Contents) (m : Message) (rule : Rule) → (among : IsAmong c databases m true)
        → EditIsDueTo (shared_terms among) among.id (histories_left among among.id) None among.document rule
        → answer c databases m
        ≡ answer_with among (Err (Denied rule)) (object (failed_members among.place.caller (Some among.id) (Denied rule)) ∷ []) }
    ensures replicated { (c : Configuration) (databases : Contents) (m : Message) (rule : Rule) → (among : IsAmong c databases m false)
        → ReplicationIsDueTo (shared_terms among) among.id (histories_left among among.id) among.document rule
        → answer c databases m ≡ answer_with among (Err (Denied rule))
        (failure_listed among.place.caller (Some among.id) (member_text (codes "_rev") among.document) (Denied rule) ∷ []) }
{}

/// What has leave and is no conflict is appended, and the reply says so. The edit of a document that
/// has leave is accepted, where there is a further revision: 201 of a PUT (`put`), 200 of a DELETE
/// (`deletion`), with the id and that revision. So is each document of several that are written together:
/// its write has its place among theirs, the reply has the revision of a new edit (`edit`), and nothing of
/// a replicated document (`replicated`).
pub fn writes_with_leave_are_accepted()
    ensures put { (c : Configuration) (databases : Contents) (m : Message) (edit : EditMayBeMade c databases m Put)
        → answer c databases m ≡ edit_answer 201 edit }
    ensures deletion { (c : Configuration) (databases : Contents) (m : Message) (edit : EditMayBeMade c databases m Delete)
        → answer c databases m ≡ edit_answer 200 edit }
    ensures edit { (c : Configuration) (databases : Contents) (m : Message) (rev : Revision) → (among : IsAmong c databases m true)
        → (leave : EditHasLeave (shared_terms among) among.id (histories_left among among.id) None among.document)
        → revision_after leave.sent leave.parent ≡ Some rev
        → answer c databases m
        ≡ answer_with among (Ok (Some (write_at among.id (rev ∷ ancestors_of_parent (histories_left among among.id) leave.parent) leave.sent)))
        (object (made_members (Some among.id) rev) ∷ []) }
    ensures replicated { (c : Configuration) (databases : Contents) (m : Message) → (among : IsAmong c databases m false)
        → (leave : ReplicationHasLeave (shared_terms among) among.id (histories_left among among.id) among.document)
        → answer c databases m ≡ answer_with among (Ok (Some (write_at among.id leave.ancestry.path leave.sent))) [] }
{}

/// Databases that are hidden from a group of callers tell them nothing: where two states are the same but
/// for what these databases hold, each request is answered alike by both, but those of other callers on
/// these databases, which may as well be struck. States that can't be told apart stay so, through
/// each request that is answered by both, and where one of them alone answers a struck one.
pub fn hidden_databases_tell_nothing()
    ensures answers { (c : Configuration) (group : CallerGroup) (names : Names) (a b : Contents) (m : Message) → AreAlike names a b → AreHidden group names a
        → is_struck c group names m ≡ false → answer c a m ≡ answer c b m }
    ensures stays { (c : Configuration) (group : CallerGroup) (names : Names) (a b : Contents) (m : Message) → AreAlike names a b → AreHidden group names a
        → is_struck c group names m ≡ false → AreAlike names (with_change (answer c a m).change a) (with_change (answer c b m).change b) }
    ensures struck { (c : Configuration) (group : CallerGroup) (names : Names) (a b : Contents) (m : Message) → is_struck c group names m ≡ true
        → AreAlike names a b → AreAlike names (with_change (answer c a m).change a) b }
{}

/// Two runs of the same requests from the same databases in which all were served have the same
/// replies, and the same databases after each step.
#[tactic(auto, using(crate::proofs::Steps::one_run))]
pub fn served_runs_are_determined()
    ensures { (c : Configuration) (before : Contents) (ss ts : List (Stepped Contents)) → IsRun (Steps c) before ss → IsRun (Steps c) before ts
        → AreServed ss → AreServed ts → messages_of ss ≡ messages_of ts → ss ≡ ts }
{}
