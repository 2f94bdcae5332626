//! Runs `lincheck` on every history of the folder in which it is started, and shows each whose answer is not the one
//! that is beside it.
#![tactic(auto)]

mod case;
mod choice;
mod repeat;
#[cfg(test)]
mod tests;

use case::is_answered;
use std::thread::Threads;
use std::time::Clock;
use std::{fs, io};

// The names of the cases of this folder, in order: each has a file `NAME.status`.
fn case_names(rt: &HostRuntime) -> io::Result<Vec<String>> {
    let mut names = Vec::new(rt.alloc());
    for entry in fs::read_dir(rt, ".")? {
        if let Some(name) = entry?.file_name().strip_suffix(".status") {
            names.push(String::from_str(rt.alloc(), name)?)?;
        }
    }
    names.sort()?;
    Ok(names)
}

// Whether a case is answered so; if not, its name is told. A case that can't be read is not answered.
fn holds<R: AllocGlobal + Threads + Clock + Sync>(
    rt: &HostRuntime,
    threads: &R,
    name: &str,
) -> io::Result<bool> {
    let answered = is_answered(rt, threads, name).unwrap_or(false);
    if !answered {
        println!(rt; "differs: {name}")?;
    }
    Ok(answered)
}

fn main(rt: HostRuntime) -> io::Result<()> {
    let mut right = 0u64;
    let mut wrong = 0u64;
    for name in &case_names(&rt)? {
        if holds(&rt, &rt, name.as_str())? {
            right = right.wrapping_add(1);
        } else {
            wrong = wrong.wrapping_add(1);
        }
    }
    println!(rt; "{right} answered as they should be, {wrong} not")
}
