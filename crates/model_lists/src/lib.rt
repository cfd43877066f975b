//! Mailbox lists: what a user sees of a store.
#![tactic(auto)]
