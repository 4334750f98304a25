//! What follows from the definitions alone. Each function has an empty body: its contract is the law.

ghost use Rattle.std.specs.Prelude.{◌≡◌, ◌+◌, ℕ, length};
ghost use Rattle.hub.specs.Answering.{StoreSteps};
ghost use Rattle.store.specs.Contents.{Contents};
ghost use Rattle.node.specs.Runs.{Steps};
ghost use Rattle.repl.specs.Configuration.{configuration_of};
ghost use Rattle.repl.specs.Passes.{first_pass};
ghost use Rattle.world.specs.Network.{AreHonest, Network, Transfer, over_databases};
ghost use Rattle.world.specs.Service.{alike};
ghost use Rattle.replication.specs.Courses.{CallsArrange, CoursesWithoutRemovals, DonePassesHaveListedInCourses};
ghost use Rattle.replication.specs.Courses.{DonePassesOweNothingInCourses, RoundsCoverInCourses};
ghost use Rattle.replication.specs.Finished.{PassBegins, DonePassesHaveListed, DonePassesOweNothing, IsTold};
ghost use Rattle.replication.specs.Parted.{OpeningChangesNothing, OpeningMayComeBetween};
ghost use Rattle.replication.specs.Parted.{StartingChangesNothing, StartingMayComeBetween};
ghost use Rattle.replication.specs.Parted.{PlaysHaveOneOutcome, Serves, SightsTellService, TwoCallsAreOne, TwoCallsAreSeenAsOne, with_pass};
ghost use Rattle.replication.specs.Reported.{PassesGoByTurns, ReportsAreToldInCourses, StartsAreReadInCourses, StopsHaveCausesInCourses, TurnsAreSeen};
ghost use Rattle.replication.specs.Requests.{RunsThatKeep, RunsThatServe};

use repl::Config;
use store::Store;

/// A pass that is done owes its target nothing: each leaf that its source had when it was listed last, of
/// the documents whose sequence is above the start, is known at the target or reported. This is so when
/// the pass ends and at every later event, in each run in which both databases stay there, and in each such
/// course. A pass that is done has listed its source, and its start is that of the first two replies.
pub fn done_pass_owes_nothing()
    ensures owed { DonePassesOweNothing }
    ensures listed { DonePassesHaveListed }
    ensures owed_in_courses { DonePassesOweNothingInCourses }
    ensures listed_in_courses { DonePassesHaveListedInCourses }
{}

/// A pass that writes its checkpoints, or is done, has settled what it listed in all its rounds: of the
/// source as it was at the last list, and as it is now. That is so at every later event, in each course in
/// which both databases stay there.
pub fn rounds_cover_what_they_list()
    ensures { RoundsCoverInCourses }
{}

/// Where nobody asks to remove a database of a pass, both stay there.
pub fn databases_stay_unless_removed()
    ensures { CoursesWithoutRemovals }
{}

/// Opening and closing connections, and starting passes, asks nothing of a node: it may come between the
/// runs of a course.
pub fn calls_arrange<S: Store>()
    ensures stores { CallsArrange S }
    ensures databases { CallsArrange Contents }
{}

/// Through a course a pass becomes what its turns make of it, over any store, and over databases alone. Of
/// each turn its status is seen.
pub fn passes_go_by_turns<S: Store>()
    ensures stores { PassesGoByTurns (StoreSteps S.Store) }
    ensures databases { PassesGoByTurns Steps }
    ensures seen { TurnsAreSeen (StoreSteps S.Store) }
    ensures seen_of_databases { TurnsAreSeen Steps }
{}

/// At the end of a course a pass reports what the replies that it took in say, in order. Its start is that
/// of the first two replies, and where it has stopped, one of its turns is the cause.
pub fn passes_report_what_was_told<S: Store>()
    ensures reports { ReportsAreToldInCourses (StoreSteps S.Store) }
    ensures starts { StartsAreReadInCourses (StoreSteps S.Store) }
    ensures stops { StopsHaveCausesInCourses (StoreSteps S.Store) }
    ensures reports_of_databases { ReportsAreToldInCourses Steps }
    ensures starts_of_databases { StartsAreReadInCourses Steps }
    ensures stops_of_databases { StopsHaveCausesInCourses Steps }
{}

/// States that it makes no difference whether events are played in one call or in two, where each request is
/// served: none is answered with 500 or 503. Where no reply is lost, what is seen tells whether that is so.
pub fn two_calls_are_one()
    ensures calls { TwoCallsAreOne }
    ensures seen { TwoCallsAreSeenAsOne }
    ensures outcome { PlaysHaveOneOutcome }
{}

/// Where no reply to a pass is lost, and none that is seen is a 500 or a 503, each request was served.
pub fn sights_tell_service<S: Store>()
    ensures stores { SightsTellService (StoreSteps S.Store) }
    ensures databases { SightsTellService Steps }
{}

/// A connection that is opened, or a pass that is started, after some events changes nothing of them. So it is
/// of served events too.
pub fn additions_change_nothing<S: Store>()
    ensures opening { OpeningChangesNothing (alike (StoreSteps S.Store)) }
    ensures starting { StartingChangesNothing (alike (StoreSteps S.Store)) }
    ensures opening_of_databases { OpeningChangesNothing (alike Steps) }
    ensures starting_of_databases { StartingChangesNothing (alike Steps) }
    ensures opening_where_served { OpeningChangesNothing (Serves (StoreSteps S.Store)) }
    ensures starting_where_served { StartingChangesNothing (Serves (StoreSteps S.Store)) }
{}

/// A connection may be opened, or a pass started, between two calls: it makes no difference to playing all
/// events in one call after that, where each request is served, whatever is lost of passes.
pub fn additions_may_come_between()
    ensures opening { OpeningMayComeBetween }
    ensures starting { StartingMayComeBetween }
{}

/// A run in which both databases of a pass stay there is one that keeps them, and one in which each request
/// is served is one that serves, with the same events, sights and turns.
pub fn runs_are_told_by_their_requests()
    ensures keep { RunsThatKeep }
    ensures serve { RunsThatServe }
{}

/// A pass that is started begins, where the stores of all nodes are honest.
pub fn started_passes_begin<S: Store>()
    ensures { (old : Network S) (t : Transfer) → AreHonest S.Store old.nodes → t.pass ≡ first_pass t.pass.configuration → IsTold t.pass.configuration
        → PassBegins (length old.transfers + 1) t (with_pass t (over_databases S.Store old)) }
{}

/// The names of databases that a pass is told are bytes, and its batch has 1 to 1,000 changes.
pub fn configurations_are_told(config: &Config)
    ensures { IsTold (configuration_of config.now) }
{}
