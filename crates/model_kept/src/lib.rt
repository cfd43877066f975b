//! What stays of a store's storage files and instances, whatever fails and whenever a crash comes.
#![tactic(auto)]

pub use laws::{idle_calls_keep_mail, kept_mail_at_rest, kept_mail_stays_kept, mail_kept_for_less};

mod laws;
