//! The program over the machine that it runs on: all that it does is in `ananta_top::run`, and what it touches in
//! `real_io`.
#![tactic(auto)]

use ananta_top::{Status, run};
use outside_io::Reading;
use real_io::{RealHost, SteadyClock, Stream, StreamSink};
use std::alloc::AllocError;
use std::env;
use std::process::ExitCode;

// The words after the program's name. Where they can't be had, none, so that the command line is a faulty one.
fn words(rt: &HostRuntime) -> Result<Vec<String>, AllocError> {
    let mut words = Vec::new(rt.alloc());
    if let Ok(args) = env::args(rt) {
        for word in args.skip(1) {
            words.push(word)?;
        }
    }
    Ok(words)
}

fn main(rt: HostRuntime) -> ExitCode {
    let mut out = StreamSink::new(Stream::Out(rt.stdout()));
    let mut err = StreamSink::new(Stream::Err(rt.stderr()));
    let mut input = Reading::new(rt.stdin());
    let mut host = RealHost::new(&rt);
    let mut clock = SteadyClock::new(&rt);
    let status = match words(&rt) {
        Ok(words) => run(
            rt.alloc(),
            &words,
            &mut input,
            &mut out,
            &mut err,
            &mut host,
            &mut clock,
        ),
        Err(AllocError) => Status::NoMemory,
    };
    ExitCode::from(status as u8)
}
