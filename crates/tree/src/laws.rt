//! What follows from the definitions alone. Each function has an empty body: its contract is the law.

ghost use Rattle.std.specs.Prelude.{◌≡◌, ◌≢◌, ◌⊎◌, ◌↔◌, ℕ, false, not, List, [], ◌∷◌, ◌++◌, Option, Some, Ok, Err, IsTrue, MatchOption, is_some, option_map};
ghost use Rattle.std.specs.FinMap.{find, get};
ghost use Rattle.std.specs.FinMap as map;
ghost use Rattle.tree.specs.Revision.{Revision, is_revision, revision_cmp, revision_read, text_of};
ghost use Rattle.tree.specs.Write.{Write, IsKnown, AreLawfulWrites, IsParent, IsPathEnd, StandsIn};
ghost use Rattle.tree.specs.History.{HistoryContent, AreBestFirst, IsBetter, IsRooted, LooksAlike, Shows, ancestors_of_parent, chain, content_of};
ghost use Rattle.tree.specs.History.{entry_after, held_of};
ghost use Rattle.tree.specs.History.{content_after, is_deleted, is_known, is_leaf, is_live, leaves, parent_of, placement, winner, with_entries, with_write};
ghost use Rattle.tree.specs.Outline.{all_bare, bare, outline_of};
ghost use Rattle.tree.specs.Convergence.{AreConsistent, BringOne, HaveSame, replica_of};
ghost use Rattle.tree.specs.declared.entry.Entry.{Entry};
ghost use Rattle.tree.specs.declared.placement.Placed.{Placed};
ghost use Rattle.tree.specs.declared.placement.TreeFault.{TreeFault};

/// A lawful revision is read from its text, and what is read is written as that text.
pub fn text_and_revision()
    ensures read { (r : Revision) → IsTrue (is_revision r) → revision_read (text_of r) ≡ Some r }
    ensures written { (text : List ℕ) (r : Revision) → revision_read text ≡ Some r → IsTrue (is_revision r) × (text_of r ≡ text) }
{}

/// The content of a lawful list of writes shows just what is known by the writes, and no other
/// content does.
pub fn content_shows_its_writes()
    ensures shows { (ws : List Write) → AreLawfulWrites ws → Shows ws (content_of ws) }
    ensures only { (ws : List Write) (h k : HistoryContent) → Shows ws h → Shows ws k → h ≡ k }
{}

/// One more write at the end of a list is one write more in its content.
pub fn content_of_one_more_write()
    ensures { (ws : List Write) (w : Write) → content_of (ws ++ w ∷ []) ≡ with_write (content_of ws) w }
{}

/// A write is added if and only if the list with it at its end is lawful.
pub fn added_where_lawful()
    ensures { (ws : List Write) (w : Write) → AreLawfulWrites ws
        → (placement (content_of ws) w.path ≡ Ok Placed.Added) ↔ AreLawfulWrites (ws ++ w ∷ []) }
{}

/// A write keeps what is known of each known revision.
pub fn entry_kept()
    ensures { (h : HistoryContent) (w : Write) (r : Revision) → IsTrue (is_known h r) → get (with_write h w) r ≡ get h r }
{}

/// A write brings just what its path says of the revisions that were not known.
pub fn path_entries()
    ensures { (h : HistoryContent) (w : Write) (r : Revision) → get (with_write h w) r ≡ entry_after h w r }
{}

/// Rows that say of each revision what a history knows of it make the history, in whatever order they
/// come in.
pub fn rows_make_the_history()
    ensures { (h : HistoryContent) (rows : List (Revision × Entry)) → ((r : Revision) → find revision_cmp r rows ≡ get h r)
        → with_entries map.empty rows ≡ h }
{}

/// After a write that was added or known, its whole path is known.
pub fn path_known()
    ensures { (ws : List Write) (w : Write) (p : Placed) (r : Revision) → AreLawfulWrites ws
        → placement (content_of ws) w.path ≡ Ok p → StandsIn w.path r → IsTrue (is_known (content_after (content_of ws) w) r) }
{}

/// Parents are known, numbers go down by one from child to parent, and roots have number 1.
pub fn whole()
    ensures { (ws : List Write) → AreLawfulWrites ws → IsRooted (content_of ws) }
{}

/// A path that some write brought, or its end, is the chain of its newest revision.
pub fn chain_is_path()
    ensures { (ws : List Write) (r : Revision) (rest : List Revision) → AreLawfulWrites ws
        → IsPathEnd ws (r ∷ rest) → chain (content_of ws) r ≡ Some (r ∷ rest) }
{}

/// Behind a write that follows a known revision stands the path of that revision, of which all is
/// known; behind one that follows no known revision stands nothing.
pub fn behind_is_chain()
    ensures known { (h : HistoryContent) (p : Revision) → IsTrue (is_known h p) → chain h p ≡ Some (ancestors_of_parent h (Some p)) }
    ensures unknown { (h : HistoryContent) (p : Revision) → is_known h p ≡ false → ancestors_of_parent h (Some p) ≡ [] }
    ensures all_known { (h : HistoryContent) (p : Option Revision) (r : Revision) → StandsIn (ancestors_of_parent h p) r → IsTrue (is_known h r) }
    ensures path { (ws : List Write) (p : Revision) (rest : List Revision) → AreLawfulWrites ws
        → IsPathEnd ws (p ∷ rest) → ancestors_of_parent (content_of ws) (Some p) ≡ p ∷ rest }
{}

/// States that a leaf is known, and that no revision follows it.
pub fn leaf_is_childless()
    ensures { (h : HistoryContent) (r : Revision)
        → IsTrue (is_leaf h r) ↔ (IsTrue (is_known h r) × ((s : Revision) → parent_of h s ≢ Some r)) }
{}

/// Something is held of each leaf.
pub fn leaf_is_held()
    ensures { (ws : List Write) (r : Revision) → AreLawfulWrites ws → IsTrue (is_leaf (content_of ws) r)
        → IsTrue (is_some (held_of (content_of ws) r)) }
{}

/// The list of leaves has each leaf, and nothing else, each before all that it is better than; so
/// each once.
pub fn leaves_are()
    ensures members { (h : HistoryContent) (r : Revision) → StandsIn (leaves h) r ↔ IsTrue (is_leaf h r) }
    ensures order { (h : HistoryContent) → AreBestFirst h (leaves h) }
    ensures strict { (h : HistoryContent) (r s : Revision) → IsBetter h r s → IsBetter h s r → ⊥ }
    ensures once { (h : HistoryContent) (r : Revision) → IsBetter h r r → ⊥ }
{}

/// The winner is a leaf that is better than each other, and there is none where there is no leaf.
pub fn winner_is_best()
    ensures { (h : HistoryContent)
        → MatchOption (winner h) ((r : Revision) → IsTrue (is_leaf h r) → ⊥)
        (λ r. IsTrue (is_leaf h r) × ((s : Revision) → IsTrue (is_leaf h s) → (s ≡ r) ⊎ IsBetter h r s)) }
{}

/// A history is live where some leaf is not deleted; just then its winner is not deleted.
pub fn live_winner()
    ensures leaf { (h : HistoryContent) → IsTrue (is_live h) ↔ ((r : Revision) × IsTrue (is_leaf h r) × (is_deleted (held_of h r) ≡ false)) }
    ensures winner { (h : HistoryContent) (r : Revision) → winner h ≡ Some r → is_live h ≡ not (is_deleted (held_of h r)) }
{}

/// Leaves and winner depend on the known revisions, their parents and the marks of the leaves
/// alone: replicas that agree in these agree in the winner, though a body is held by one of them.
pub fn leaves_same()
    ensures leaves { (h k : HistoryContent) → LooksAlike h k → leaves h ≡ leaves k }
    ensures winner { (h k : HistoryContent) → LooksAlike h k → winner h ≡ winner k }
{}

/// An outline agrees with its history in all but the bodies; and the rows of a history without their bodies
/// make its outline.
pub fn outline_agrees()
    ensures revisions { (h : HistoryContent) (r : Revision) → get (outline_of h) r ≡ option_map bare (get h r) }
    ensures leaves { (h : HistoryContent) → leaves (outline_of h) ≡ leaves h }
    ensures winner { (h : HistoryContent) → winner (outline_of h) ≡ winner h }
    ensures chain { (h : HistoryContent) (r : Revision) → chain (outline_of h) r ≡ chain h r }
    ensures placement { (h : HistoryContent) (path : List Revision) → placement (outline_of h) path ≡ placement h path }
    ensures rows { (rows : List (Revision × Entry)) → with_entries map.empty (all_bare rows) ≡ outline_of (with_entries map.empty rows) }
{}

/// Replicas that were offered the same writes have the same leaves and the same winner, in whatever
/// order the writes came, and however often each of them.
///
/// The writes have to fit together. Where all writes of a leaf bring the same, the replicas hold the
/// same of it. Of a revision that is no leaf they may hold different things: one that was first known
/// from the path of a later revision stays without its body.
pub fn replicas_converge()
    ensures leaves { (ws vs : List Write) → AreConsistent ws → HaveSame ws vs → leaves (replica_of ws) ≡ leaves (replica_of vs) }
    ensures winner { (ws vs : List Write) → AreConsistent ws → HaveSame ws vs → winner (replica_of ws) ≡ winner (replica_of vs) }
    ensures held { (ws vs : List Write) (r : Revision) → AreConsistent ws → HaveSame ws vs → BringOne ws r
        → IsTrue (is_leaf (replica_of ws) r) → held_of (replica_of ws) r ≡ held_of (replica_of vs) r }
{}

/// Of writes that fit together none is refused, and all revisions of their paths are known, with the
/// parents that the paths give them, and nothing else.
pub fn merged_has_all_writes()
    ensures fit { (ws : List Write) (w : Write) (fault : TreeFault) → AreConsistent (ws ++ w ∷ []) → placement (replica_of ws) w.path ≢ Err fault }
    ensures known { (ws : List Write) (r : Revision) → AreConsistent ws → IsTrue (is_known (replica_of ws) r) ↔ IsKnown ws r }
    ensures parents { (ws : List Write) (r p : Revision) → AreConsistent ws → (parent_of (replica_of ws) r ≡ Some p) ↔ IsParent ws r p }
{}

/// A lawful list fits together, and what is offered its writes has their content.
pub fn lawful_writes_merge()
    ensures fit { (ws : List Write) → AreLawfulWrites ws → AreConsistent ws }
    ensures content { (ws : List Write) → AreLawfulWrites ws → replica_of ws ≡ content_of ws }
{}
