//! What no clause of the crates below says, shown through their public calls: that calls succeed with ample memory,
//! outside vectors, threads, and bodies that must agree.

mod boards;
mod checks;
mod command_line;
mod cores;
mod cuts;
mod devices;
mod fakes;
mod first_searches;
mod histories;
mod meetings;
mod objects;
mod prefixes;
mod random;
mod refusals;
mod reports;
mod searches;
mod stalls;
mod steps_back;
mod tables;
mod watched;
mod work;
mod workers;
