//! Pieces of work to be timed from outside: `studio_bench WORKLOAD SIZE ROUNDS` does one piece so many times, and prints a number that
//! depends on what was done. It takes no time itself.
#![tactic(auto)]

mod cards;
mod images;
mod lines;
mod marks;
mod random;
mod tied;
mod tiles;
mod workload;

use crate::workload::Workload;
use std::alloc::Global;
use std::process::ExitCode;
use std::rt::Env;
use std::{env, io};

fn main(rt: HostRuntime) -> ExitCode {
    let alloc = rt.alloc();
    let Ok(words) = words(&rt) else {
        return ExitCode::from(1);
    };
    let Some((workload, rounds)) = asked(&words) else {
        return ExitCode::from(2);
    };
    let Some(told) = workload.run(alloc, rounds) else {
        return ExitCode::from(1);
    };
    match println!(rt; "{told}") {
        Ok(()) => ExitCode::from(0),
        Err(_) => ExitCode::from(1),
    }
}

// The arguments without the program's name.
fn words<R: Env + Alloc<A = Global>>(rt: &R) -> io::Result<Vec<String>> {
    let mut words = Vec::new(rt.alloc());
    for word in env::args(rt)?.skip(1) {
        words.push(word)?;
    }
    Ok(words)
}

// The piece of work that the words name, and how many times it is to be done.
fn asked(words: &[String]) -> Option<(Workload, u32)> {
    if words.len() != 3 {
        return None;
    }
    let workload = Workload::named(&words[0], &words[1])?;
    let rounds = mill_base::words::number(words[2].as_bytes())?;
    Some((workload, rounds))
}
