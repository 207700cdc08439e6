// fitlist_runs: the stored runs of fitlist. Each argument names a job; prints the name, and then what fitlist prints for that job.
#![tactic(auto)]

use std::env::{Env, FillError};
use std::fs::File;
use std::{io, str};

// Opens the file of a name for reading, where it is text and there is such a file.
fn open(rt: &HostRuntime, name: &[u8]) -> Option<File> {
    let path = str::from_utf8(name).ok()?;
    File::open(rt, path).ok()
}

// Prints the name of a job, and what is printed for it.
fn run(rt: &HostRuntime, name: &[u8]) -> io::Result<()> {
    rt.write_all(name)?;
    rt.write_all(b"\n")?;
    match open(rt, name) {
        None => rt.write_all(b"cannot be opened\n"),
        Some(mut from) => job_io::run_from(rt, &mut from),
    }
}

fn main(rt: HostRuntime) -> io::Result<()> {
    let mut name = [0u8; 64];
    for i in 1..usize::MAX {
        match rt.arg(i, &mut name) {
            Ok(n) => run(&rt, &name[0..n])?,
            Err(FillError::TooLong) => run(&rt, b"")?,
            Err(FillError::NotPresent) => break,
        }
    }
    Ok(())
}
