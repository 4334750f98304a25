//! What follows from the definitions alone. Each function has an empty body: its contract is the law.

ghost use Rattle.world.specs.Network.{AreHonest, Network, over_databases};
ghost use Rattle.replication.specs.Finished.{AreAllLawful};
ghost use Rattle.replication.specs.CaughtUp.{OnePassCatchesUp, QuietNetworksAgree, QuietRingsAgree};
ghost use Rattle.replication.specs.Converged.{LeavesMeet, PassesKeepAgreement, ShownIsSaid, TwoPassesConverge};
ghost use Rattle.replication.specs.Converged.{NewRevisionsKeepAgreement, WritesKeepAgreement, WritesKeepOthersAgreement};
ghost use Rattle.replication.specs.Groups.{CallsArrangeForGroups, GroupsKeepAgreement, SparingGroups};
ghost use Rattle.replication.specs.Networks.{CallsArrange, CoursesKeepAgreement, CoursesKeepBoth, PassesOfANetworkConverge, SparingRuns};
ghost use Rattle.replication.specs.Replicable.{CoursesKeepWritable, DonePassesOweNoLeaf, NodesAreWritable};
ghost use Rattle.replication.specs.Replicable.{RunsKeepWritable, StepsKeepWritable};
ghost use Rattle.replication.specs.Ways.{RingsMeet, WaysMeet};
ghost use Rattle.replication.specs.Written.{OpenedAreShown, OtherCallsWriteNothing, PushesAppendWhatIsSaid};

use store::Store;

/// Two lawful histories that agree, and of which each knows the leaves of the other, are one tree: with the
/// same leaves and the same winner.
pub fn leaves_meet()
    ensures { LeavesMeet }
{}

/// What a document says that a database shows is a write that comes from there: a revision that the
/// database holds, with its path, its mark and its body.
pub fn shown_documents_say_what_is_held()
    ensures { ShownIsSaid }
{}

/// Writes that come from one database keep its agreement with the other one, in which they are appended. Nor
/// do they touch the other one's agreement with a third one, with which the source agrees too. And writes keep
/// agreement, wherever they come from, if their new revisions are unknown to the other database.
pub fn writes_keep_agreement()
    ensures both { WritesKeepAgreement }
    ensures third { WritesKeepOthersAgreement }
    ensures fresh { NewRevisionsKeepAgreement }
{}

/// Two passes in opposite directions that are done, with nothing refused, make one tree of each document, with
/// the same leaves and the same winner in both databases, where nobody else writes and the databases agreed at
/// first. Until then they agree at every moment.
pub fn two_passes_converge()
    ensures converge { TwoPassesConverge }
    ensures agree { PassesKeepAgreement }
{}

/// A pass's push appends in its target what the documents say, or some of it, or nothing, and writes no
/// document elsewhere. A pass's other calls write no document at all. So it is whatever the node replies.
pub fn passes_write_what_they_push()
    ensures push { PushesAppendWhatIsSaid }
    ensures others { OtherCallsWriteNothing }
{}

/// The documents in a reply to a pass's call to open revisions that the pass takes in are those that the
/// source shows, each with its path.
pub fn opened_documents_are_shown()
    ensures { OpenedAreShown }
{}

/// Whatever a node answers, revisions can be written as text, where they could before. So it is through
/// each run of a network, and through each course.
pub fn answers_keep_revisions_writable()
    ensures steps { StepsKeepWritable }
    ensures runs { RunsKeepWritable }
    ensures courses { CoursesKeepWritable }
{}

/// Two passes of a network in opposite directions make one tree of each document, with the same leaves and the
/// same winner in both databases, where both have copied all, and nobody else wrote a document meanwhile.
/// Nobody else writes where the requests of others spare both databases: they are handled by another node,
/// lead into another database, or ask for nothing that writes a document. Between its runs connections may be
/// opened and closed, and passes started, the two among them. The databases stay there, and agree at every
/// moment.
pub fn passes_of_a_network_converge()
    ensures converge { PassesOfANetworkConverge }
    ensures agree { CoursesKeepAgreement }
    ensures stay { CoursesKeepBoth }
    ensures sparing { SparingRuns }
    ensures arrangements { CallsArrange }
{}

/// Honest stores have lawful databases, so the nodes of a network that stand on them have.
pub fn honest_nodes_are_lawful<S: Store>()
    ensures { (old : Network S) → AreHonest S.Store old.nodes → AreAllLawful (over_databases S.Store old).nodes }
{}

/// Nodes that stand on honest stores have revisions that can be written as text, where such stores have them, as
/// those in tables do.
pub fn nodes_are_writable<S: Store>()
    ensures { NodesAreWritable S.Store }
{}

/// A pass that is done owes its target no leaf, where at first each revision that a database knows can be
/// written as text. That stays so.
pub fn done_passes_owe_no_leaf()
    ensures { DonePassesOweNoLeaf }
{}

/// Where ways lead from one database to another and back, and each database on them knows the leaves of the one
/// before, both have the same tree of each document. So have all databases of a ring.
pub fn rings_meet()
    ensures ways { WaysMeet }
    ensures rings { RingsMeet }
{}

/// Passes between the databases of a group keep all of them in agreement, two by two, at every moment, where
/// whatever others write leaves them in agreement. So it is where the requests of others spare them. Between the
/// runs connections may be opened and closed, and passes started.
pub fn groups_keep_agreement()
    ensures agree { GroupsKeepAgreement }
    ensures sparing { SparingGroups }
    ensures arrangements { CallsArrangeForGroups }
{}

/// A quiet network agrees: when nobody writes any more, and passes have copied all that their sources have now,
/// from database to database there and back, all these databases have the same tree of each document, with the
/// same leaves and the same winner. That is so for any number of databases, and for passes that begin at
/// checkpoints, one going on where another ended.
pub fn a_quiet_network_agrees()
    ensures networks { QuietNetworksAgree }
    ensures rings { QuietRingsAgree }
    ensures counts { OnePassCatchesUp }
{}
