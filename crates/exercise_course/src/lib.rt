//! What an exercise comes to: the requests of each lane stand in a mailbox of its own, so they find what they ask for in whatever order
//! the lanes go on, and leave what the script leaves in its own order.
#![tactic(auto)]

pub use laws::{
    exercises_add_records, exercises_are_done, exercises_copy_little, exercises_keep_counts,
    small_exercises,
};

mod laws;
