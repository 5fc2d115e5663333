//! Times what the runtime does for a run: accesses of guest memory, and strings. With an argument it prints how long they
//! take, without one what it found in a line. Its tests are those of the crates of the runtime.
#![tactic(auto)]

mod memory_times;
#[cfg(test)]
mod places_tests;
#[cfg(test)]
mod rt_text_tests;
#[cfg(test)]
mod rt_threads_tests;
#[cfg(test)]
mod str_heap_tests;
#[cfg(test)]
mod text_calls_tests;
#[cfg(test)]
mod text_functions_tests;
mod text_times;

use std::{env, io};

fn main(rt: HostRuntime) -> io::Result<()> {
    let alloc = rt.alloc();
    if env::args(&rt)?.count() > 1 {
        memory_times::print_memory(&rt, alloc)?;
        return text_times::print_texts(&rt, alloc);
    }
    match (
        memory_times::few_words(alloc),
        text_times::few_strings(alloc),
    ) {
        (Some((written, sum)), Some((joined, stored))) => {
            println!(rt;
                "{written} words written to 10 places add up to {sum}; {joined} times two strings joined, {stored} times one stored and released"
            )
        }
        _ => println!(rt; "no memory"),
    }
}
