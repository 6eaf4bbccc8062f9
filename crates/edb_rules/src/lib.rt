//! The rules of a session's journal: what a session's entries may be, and what follows from that.
#![tactic(auto)]

mod laws;

pub use laws::{
    a_move_stands_between_stops, a_process_is_interpreted_between, a_process_is_stopped_between,
    a_stop_is_followed_by_its_trigger, commands_go_before_turns, commands_in_order,
    erasure_is_plain, journals_weigh_so, leases_have_their_budget, least_console_goes_first,
    no_move_passes_a_due_beginning, no_stop_comes_again, one_journal, own_starts_and_last_awaits,
    plain_runs_agree, processes_enter_and_leave, quiet_comes_last, refusals_are_told_by_entries,
    replies_are_the_servers, slices_keep_to_their_budget, statuses_are_told_by_entries,
    stopped_processes_have_no_turn, stops_stand_before, stops_tell_their_level, stops_were_due,
    taken_in_at_the_lease, the_server_agrees, the_table_is_what_was_made, turns_go_round,
    what_is_due_is_stopped_at,
};
