//! The traces that a text gives, in the form of a listing of an adapted document.
#![tactic(auto)]

mod candidates;
mod event_texts;
mod heads;
mod known_types;
mod line_words;
mod passages;
mod quoted_names;
mod reading;
mod signature_texts;
mod traces;

pub use reading::{TracePair, TracePairs, TracesError, read_traces};
pub use traces::{
    a_line_says_at_most_one_event, a_listing_shows_its_own_events,
    a_text_gives_at_most_one_list_of_traces, at_most_one_line_is_unfit, own_listings_are_read_back,
    own_traces_are_read_back, traces_leave_no_line_unfit,
};
