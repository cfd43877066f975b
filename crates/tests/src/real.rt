// The system's files in the folder that the tests run in, the program's disk over them, and the system's clock.

mod disk;
mod folder;
mod whole;
