//! Lemmas on lists, numbers and octets that name nothing of the store.
#![tactic(auto)]
