//! Calls that are refused memory, threads, reads and writes, at each growth, step, read and write in turn.
//!
//! | What refuses | Refuses |
//! |---|---|
//! | a process that has nothing left, and 16 bytes more each time (`starved`) | each growth that needs more than was in use before |
//! | an object that is refused memory at one step or copy (`Refusing` in `searching`) | each step and copy in turn |
//! | a memo that is refused memory at one note (`Full` in `searching`) | each note in turn |
//! | a reader, a writer (`runs`) | the read or write after each number of bytes |
//!
//! Each test shows how often it was refused at the least. A test that refuses nothing fails.

mod checking;
mod histories;
mod printing;
mod runs;
mod searching;
mod starved;
mod stepping;
mod stores;
