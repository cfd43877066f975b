// What a worker calls outside its turns.

/// What a lane's worker calls outside its turns, so that a test can hold it back. It has no clause.
pub trait Pause {
    /// How many turns a lane has one after another, at the most: 1 to 8. Nothing is called between them.
    fn turns(&self) -> u32;

    /// Before them, with the number of the first of them in that lane, counted from 1.
    fn before(&self, lane: u32, event: u64);

    /// After them, with the lane's number of replies.
    fn after(&self, lane: u32, replies: u64);
}

/// Nothing is held back.
#[derive(Drop)]
pub struct NoPause;

impl Pause for NoPause {
    fn turns(&self) -> u32 {
        8
    }

    fn before(&self, lane: u32, event: u64) {
        let _ = (lane, event);
    }

    fn after(&self, lane: u32, replies: u64) {
        let _ = (lane, replies);
    }
}
