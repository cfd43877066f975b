//! What printed replies tell: a reply is read from its text in one way, and so are those of a script, whole or cut off; and the places that
//! are printed with them number its journal.
#![tactic(auto)]

pub use known::known_words;
pub use laws::{
    a_printed_prefix_tells_its_replies, no_reply_begins_another, one_lane_keeps_script_order,
    printed_places_number_the_journal, printed_replies_are_read_in_one_way,
    served_replies_are_to_their_requests,
};

mod known;
mod laws;
