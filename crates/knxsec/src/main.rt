//! The program: the words of the command line, the host's files and standard output, handed to `run`.
#![tactic(auto)]

use knx_base::{HostFiles, HostSink};
use knxsec_app::{Status, conclude, run};
use std::alloc::{AllocGlobal, Global};
use std::process::ExitCode;
use std::{env, io, rt};

fn main(rt: HostRuntime) -> ExitCode {
    conclude(obey(&rt), &rt)
}

// How the command ended that the words ask for, or None where they cannot be had.
fn obey<R: rt::Env + rt::Files + Print + AllocGlobal>(rt: &R) -> Option<Status> {
    let words = words_after_name(rt.alloc(), rt).ok()?;
    let mut files = HostFiles::new(rt);
    let mut out = HostSink::new(rt);
    let mut played = None;
    Some(run(rt.alloc(), &words, &mut files, &mut out, &mut played))
}

fn words_after_name<R: rt::Env + AllocGlobal>(alloc: Global, rt: &R) -> io::Result<Vec<String>> {
    let words = env::args(rt)?.skip(1).collect(alloc)?;
    Ok(words)
}
