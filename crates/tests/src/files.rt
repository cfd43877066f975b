// Storage files on a disk in memory: which is taken, and what a crash leaves while one is made and added to.

mod placing;
mod taking;
