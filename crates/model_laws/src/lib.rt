//! Laws about the definitions of `trace_model` that stand beside it, so that it can stay as it is;
//! there is no program code here.
//! A layer above may cite them: they are public functions with empty bodies whose contracts are the
//! statements.
#![tactic(auto)]

mod laws;

pub use laws::{
    chunk_counts_are_reached, counts_are_balanced, counts_are_of_outcomes, deliveries_are_counted,
    every_image_is_counted, every_page_is_counted, fixed_places_are_starts, losses_change_no_shape,
    marks_tell_what_is_missing, more_calls_take_more, reports_count_deliveries,
    rising_lists_are_sets, second_close_changes_nothing, spoilt_cuts_are_refused,
    stop_places_are_first, unreadable_is_first, worked_report,
};
