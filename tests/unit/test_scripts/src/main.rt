//! The worked rows of `radlimit replay`, which are data and no code.
//!
//! The folder that this program runs in has the rows (data/ of this crate). Each `NAME.script` is
//! replayed, and what comes of it is compared with `NAME.stdout`, or with `NAME.fault` where the
//! replay is to fail. Each `NAME.lines` is a table of lines that are right or wrong where they
//! stand alone. A line is printed for each script and each table: `ok NAME`, or what was expected
//! and what was found, and then the status is 1.
#![tactic(auto)]

mod lines;
mod row;

use std::alloc::Global;
use std::process::ExitCode;
use std::{fs, io};

fn main(rt: HostRuntime) -> ExitCode {
    match is_every_row_right(&rt) {
        Ok(true) => ExitCode::SUCCESS,
        Ok(false) => ExitCode::FAILURE,
        Err(error) => {
            let _ = eprintln!(rt; "{error}");
            ExitCode::FAILURE
        }
    }
}

/// Tries every row of this folder, in the order of their names, and prints how each ended.
fn is_every_row_right(rt: &HostRuntime) -> io::Result<bool> {
    let mut is_right = true;
    for file in files_here(rt)? {
        let failure = match file.as_str().rsplit_once('.') {
            Some((name, "script")) => row::failure_of(rt, name)?,
            Some((_, "lines")) => lines::failure_of(rt, file.as_str())?,
            _ => continue,
        };
        match failure {
            None => println!(rt; "ok {file}")?,
            Some(failure) => {
                is_right = false;
                println!(rt; "FAILED {file}\n{failure}")?;
            }
        }
    }
    Ok(is_right)
}

/// The names of the files of this folder, in order.
fn files_here(rt: &HostRuntime) -> io::Result<Vec<String>> {
    let mut files = Vec::new(rt.alloc());
    for entry in fs::read_dir(rt, ".")? {
        files.push(String::from_str(rt.alloc(), entry?.file_name())?)?;
    }
    files.sort_unstable();
    Ok(files)
}

/// Both texts of a row that failed.
fn differing(alloc: Global, expected: &str, found: &str) -> io::Result<Option<String>> {
    if found == expected {
        return Ok(None);
    }
    Ok(Some(format!(in alloc; "expected:\n{expected}found:\n{found}")?))
}
