// Instances on a disk in memory: which is found and which is made, who holds which, and what a crash leaves.

mod finding;
mod placing;
mod removing;
mod saving;
