//! The program `fbrv`: one command of its words over the files and the streams of the host.
#![tactic(auto)]

use fb_top::tool_call;
use host_edge::{FileStore, ReaderSource, WriterSink};
use std::env;
use std::process::ExitCode;

/// The status of words that can't be read.
const FAULTY_WORDS: u8 = 64;

/// The status of want of memory.
const WANT_OF_MEMORY: u8 = 71;

fn main(rt: HostRuntime) -> ExitCode {
    let Ok(arguments) = env::args(&rt) else {
        return ExitCode::from(FAULTY_WORDS);
    };
    let mut words = Vec::new(rt.alloc());
    for word in arguments.skip(1) {
        if words.push(word).is_err() {
            return ExitCode::from(WANT_OF_MEMORY);
        }
    }
    let report = tool_call(
        rt.alloc(),
        words.as_slice(),
        FileStore::new(&rt),
        ReaderSource::new(rt.stdin()),
        WriterSink::new(rt.stdout()),
        WriterSink::new(rt.stderr()),
    );
    ExitCode::from(report.status)
}
