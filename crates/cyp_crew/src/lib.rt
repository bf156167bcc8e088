//! The machine of a crew: claims, publications, commits and journals.
#![tactic(auto)]

mod event;
mod laws;

pub use event::Event;
pub use laws::{
    claims_are_in_order, commit_is_one_step, decided_journal_ends_at_the_least_stage,
    decided_journal_has_the_report, decided_journals_agree, fresh_board_stands,
    journal_begins_with_journals, journal_goes_through_one_list_of_states,
    killed_claims_may_be_cancelled, other_events_keep_the_stage, published_nodes_are_listed,
    stage_is_the_number_of_commits,
};
