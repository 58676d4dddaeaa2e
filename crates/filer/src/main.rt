//! `filer`: an NFS version 3 server in memory.
//!
//! `filer replay FILE` runs a script of events, and prints a line for each. `filer serve` serves
//! connections over TCP.
#![tactic(auto)]

use filer_commands::{ProgramFault, print_fault, program};
use std::alloc::AllocError;
use std::process::ExitCode;
use std::{env, io};

/// The words of the command line.
fn arguments(rt: &(impl env::Env + AllocGlobal)) -> Result<Vec<String>, ProgramFault> {
    let mut words = Vec::new(rt.alloc());
    for word in env::args(rt).map_err(|error| ProgramFault::of_words(&error))? {
        words.push(word).map_err(|_| ProgramFault::NoMemory)?;
    }
    Ok(words)
}

fn main(rt: HostRuntime) -> ExitCode {
    let mut out = io::writer(&rt);
    let mut err = rt.stderr();
    let status = match arguments(&rt) {
        Ok(words) => program(rt, &words, &mut out, &mut err),
        Err(fault) => {
            print_fault(&mut out, fault);
            fault.status()
        }
    };
    ExitCode::from(status)
}
