ghost use Rattle.cyp_crew.specs.Laws.{OnePathLaw, PrefixLaw, CommitLaw, StayLaw, StageLaw, PublishedLaw, OrderlyLaw, KilledLaw, CrewLaw, CrewIsReport, TwoJournalsLaw, FreshBoardLaw};

/// Law: a journal goes through exactly one list of states.
pub fn journal_goes_through_one_list_of_states<R, N>()
    ensures { OnePathLaw R N }
{}

/// Law: what a journal begins with is a journal, and what comes behind goes on from the state
/// that it leaves.
pub fn journal_begins_with_journals<R, N>()
    ensures { PrefixLaw R N }
{}

/// Law: a commit is the one step from a stage of the search to the next, whatever was published
/// and when.
pub fn commit_is_one_step<R, N>()
    ensures { CommitLaw R N }
{}

/// Law: no event but a commit changes the stage of the search.
pub fn other_events_keep_the_stage<R, N>()
    ensures { StayLaw R N }
{}

/// Law: the stage after a journal has the number of its commits.
pub fn stage_is_the_number_of_commits<R, N>()
    ensures { StageLaw R N }
{}

/// Law: where the test of nodes tells equal ones, a node is published exactly where it is in the
/// list of published nodes.
pub fn published_nodes_are_listed<R, N>()
    ensures { PublishedLaw R N }
{}

/// Law: after each journal the outstanding claims are in rising serial, none above the number of
/// claims that were made, which is at most 2^62; workers are below 32 and have at most four each.
pub fn claims_are_in_order<R, N>()
    ensures { OrderlyLaw R N }
{}

/// Law: after a commit each claim whose leaf was live before it and isn't live after it may be
/// cancelled, one after the other in rising serial.
pub fn killed_claims_may_be_cancelled<R, N>()
    ensures { KilledLaw R N }
{}

/// Law: each decided journal of a root and settings has the report of the search by one thread.
pub fn decided_journal_has_the_report<R, N>()
    ensures { CrewLaw R N }
{}

/// Law: the report of a decided journal is that of the least stage that ends the search.
pub fn decided_journal_ends_at_the_least_stage<R, N>()
    ensures { CrewIsReport R N }
{}

/// Law: two decided journals of a root and settings have the same number of commits and the
/// same report.
pub fn decided_journals_agree<R, N>()
    ensures { TwoJournalsLaw R N }
{}

/// Law: a fresh board stands for its search and the empty journal.
pub fn fresh_board_stands<R, N>()
    ensures { FreshBoardLaw R N }
{}
