ghost use Rattle.std.specs.Prelude.{◌≡◌, ℕ, List, [], None, map, string_bytes, IfSome, IfNone};
ghost use Rattle.host_edge.specs.Streams.{SameTelling};
ghost use Rattle.fb_top.specs.Answers.{AskToRun, EndsAs, FileEndsAs, IsNamed, TextEndsAs, status_of};

use crate::compiler::{CompileErr, compile};
use fb_base::{Ending, Schedule, Text, UsageWhy};
use host_edge::{LoadErr, Loaded, Sink, Source, Store};
use main_run::{Solo, solo};
use std::alloc::Global;

/// The most bytes that a program's text may have.
const TEXT_LIMIT: usize = 1_048_576;

/// The most turns that a segment may take.
const TURN_LIMIT: u64 = 10_000_000;

/// The most entries that a run may make.
const ENTRY_LIMIT: u32 = 1_000_000;

/// What a command did, with everything that was handed in.
#[derive(Drop)]
pub struct Report<T, S, K, E> {
    /// The exit status: 0 where the program ended, 64 for faulty words, 65 for a text that is refused, 66 where there
    /// is no such file, 67 where it is too long, 70 and 73 for faults of the store and of the output, 71 for want of
    /// memory, 80 for a trap, 83 and 84 where the turns of a segment or the entries of the run were spent.
    pub status: u8,
    /// How it ended.
    pub ending: Ending,
    /// The ending that a fault of the messages took the place of; there are no messages yet.
    pub replaced: Option<Ending>,
    /// The threads of the entries that were made, in order.
    pub schedule: Schedule,
    pub store: T,
    pub input: S,
    pub out: K,
    pub err: E,
}

/// The exit status of an ending.
fn status(ending: &Ending) -> u8
    ensures { result ≡ status_of ending.now }
{
    match ending {
        Ending::Ended { status } => *status,
        Ending::Usage { .. } => 64,
        Ending::Refused { .. } => 65,
        Ending::NoFile { .. } => 66,
        Ending::TooLong { .. } => 67,
        Ending::StoreFault => 70,
        Ending::NoMemory => 71,
        Ending::WriteFault { .. } => 73,
        Ending::Trapped { .. } => 80,
        Ending::TurnsSpent { .. } => 83,
        Ending::EntriesSpent { .. } => 84,
    }
}

/// A command that ended without a run.
fn without_run<S: Drop, K: Drop>(alloc: Global, ending: Ending, input: S, out: K) -> Solo<S, K>
    ensures ending { result.ending ≡ ending }
    ensures schedule { result.schedule.items ≡ [] }
    ensures input { result.input ≡ input }
    ensures out { result.out ≡ out }
{
    Solo {
        ending,
        schedule: Schedule::new(alloc),
        input,
        out,
    }
}

/// Compiles a text and runs it.
fn run_text<S: Source, K: Sink>(alloc: Global, text: &[u8], input: S, out: K) -> Solo<S, K>
    ensures ends { TextEndsAs text.now (K.written out) (K.written result.out) (K.faults out) (K.faults result.out) result.schedule.items result.ending }
    ensures input { result.input ≡ input }
    ensures told { SameTelling (K.written out) (K.written result.out) }
{
    match compile(alloc, text) {
        Err(CompileErr::NoMemory) => without_run(alloc, Ending::NoMemory, input, out),
        Err(CompileErr::Fault(fault)) => without_run(alloc, Ending::Refused { fault }, input, out),
        Ok(image) => solo(alloc, image, input, out, TURN_LIMIT, ENTRY_LIMIT),
    }
}

/// The file that the words ask to run, if they are `run` and its name.
fn asked_file<'a>(words: &'a [String]) -> Option<&'a str>
    ensures asked { IfSome result (λ name. AskToRun (map (λ word. string_bytes word) words.now) name.now) }
    ensures none { IfNone result ((name : List ℕ) → AskToRun (map (λ word. string_bytes word) words.now) name → ⊥) }
{
    match words {
        [command, name] if command.as_str() == "run" => Some(name.as_str()),
        _ => None,
    }
}

/// The ending of a file that isn't run, under its name.
fn named(alloc: Global, name: &str, too_long: bool) -> Ending
    ensures { IsNamed name.now too_long result }
{
    match Text::of(alloc, name.as_bytes()) {
        Err(_) => Ending::NoMemory,
        Ok(name) => {
            if too_long {
                Ending::TooLong { name }
            } else {
                Ending::NoFile { name }
            }
        }
    }
}

/// Runs the text of a file.
fn run_file<T: Store, S: Source, K: Sink>(
    alloc: Global,
    name: &str,
    store: &mut T,
    input: S,
    out: K,
) -> Solo<S, K>
    ensures ends { FileEndsAs
        (record { held = T.held store.old; store_faults = T.faults store.old; out = K.written out; out_faults = K.faults out })
        (record { held = T.held store.new; store_faults = T.faults store.new; out = K.written result.out; out_faults = K.faults result.out })
        name.now result.schedule.items result.ending }
    ensures held { T.held store.new ≡ T.held store.old }
    ensures input { result.input ≡ input }
    ensures told { SameTelling (K.written out) (K.written result.out) }
{
    match store.load(name, TEXT_LIMIT) {
        Err(LoadErr::Failed) => without_run(alloc, Ending::StoreFault, input, out),
        Err(LoadErr::NoMemory) => without_run(alloc, Ending::NoMemory, input, out),
        Ok(Loaded::Absent) => without_run(alloc, named(alloc, name, false), input, out),
        Ok(Loaded::TooLong) => without_run(alloc, named(alloc, name, true), input, out),
        Ok(Loaded::Bytes(text)) => run_text(alloc, text.bytes(), input, out),
    }
}

/// Does what the words of a command line ask for. `run FILE` runs a program's text; there is no other command yet.
///
/// `words` don't have the program's own name. Nothing is read from `input`, and nothing is written to `err`. What was
/// handed in comes back in the report.
pub fn tool_call<T: Store, S: Source, K: Sink, E: Sink>(
    alloc: Global,
    words: &[String],
    store: T,
    input: S,
    out: K,
    err: E,
) -> Report<T, S, K, E>
    // The table of answers: each ending exactly where, and with what, its row says.
    ensures ends { EndsAs (map (λ word. string_bytes word) words.now)
        (record { held = T.held store; store_faults = T.faults store; out = K.written out; out_faults = K.faults out })
        (record { held = T.held result.store; store_faults = T.faults result.store; out = K.written result.out; out_faults = K.faults result.out })
        result.schedule.items result.ending }
    ensures status { result.status ≡ status_of result.ending }
    ensures replaced { result.replaced ≡ None }

    // What was handed in comes back.
    ensures held { T.held result.store ≡ T.held store }
    ensures input { result.input ≡ input }
    ensures err { result.err ≡ err }
    ensures told { SameTelling (K.written out) (K.written result.out) }
{
    let mut store = store;
    let Solo {
        ending,
        schedule,
        input,
        out,
    } = match asked_file(words) {
        None => without_run(
            alloc,
            Ending::Usage {
                why: UsageWhy::Words,
            },
            input,
            out,
        ),
        Some(name) => run_file(alloc, name, &mut store, input, out),
    };
    let status = status(&ending);
    Report {
        status,
        ending,
        replaced: None,
        schedule,
        store,
        input,
        out,
        err,
    }
}
