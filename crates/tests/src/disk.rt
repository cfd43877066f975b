// A disk in memory: what it does call by call, and what a crash leaves of it.

mod calls;
mod crashes;
