//! How fast texts are read: texts of one line many times.
use crate::count::{read_in, tokens};
use fb_lexer::lex;
use parse_stmt::parse;
use std::alloc::{AllocError, Global};
use std::io;
use std::time::{Clock, Instant};

/// 128 bytes with seven tokens.
pub const COMMENTED: &str =
    "    total += value_of(first_index)  ' adds the next of the values; the rest of this line is a \
comment, as long as others may be\n";

/// Twelve tokens.
pub const TESTED: &str = "    If value_of(first_index) > 2 Then total += 1\n";

// How many times a text is read.
const ROUNDS: u32 = 20;

// So many lines.
fn text_of(alloc: Global, line: &str, count: u32) -> Result<Vec<u8>, AllocError> {
    let mut text = Vec::new(alloc);
    for _ in 0..count {
        text.extend_from_slice(line.as_bytes())?;
    }
    Ok(text)
}

/// Prints picoseconds a byte of the lexer on 1 MiB.
pub fn print_lexer<R: Print + Clock>(rt: &R, alloc: Global) -> io::Result<()> {
    let text = text_of(alloc, COMMENTED, 8192)?;
    let mut found = 0;
    let mut least = u64::MAX;
    for _ in 0..ROUNDS {
        let start = Instant::now(rt)?;
        found = tokens(alloc, text.as_slice());
        let taken = u64::try_from(start.elapsed(rt)?.as_nanos()).unwrap_or(u64::MAX);
        least = least.min(taken);
    }
    let picoseconds = least.saturating_mul(1000) / 1_048_576;
    println!(rt; "{found} tokens in 1 MiB, {picoseconds} picoseconds a byte")?;
    Ok(())
}

/// Prints nanoseconds a token of the parser on 64,992 tokens.
pub fn print_parser<R: Print + Clock>(rt: &R, alloc: Global) -> io::Result<()> {
    let text = text_of(alloc, TESTED, 5416)?;
    if text.len() > 2_000_000 {
        return Ok(());
    }
    let Ok(tokens) = lex(alloc, text.as_slice()) else {
        return Ok(());
    };
    // a tree is parsed beside the one before it, and so in memory that the program has used before
    let mut last = parse(alloc, &tokens);
    let mut least = u64::MAX;
    for _ in 0..ROUNDS {
        let start = Instant::now(rt)?;
        let read = parse(alloc, &tokens);
        let taken = u64::try_from(start.elapsed(rt)?.as_nanos()).unwrap_or(u64::MAX);
        least = least.min(taken);
        last = read;
    }
    let found = read_in(&last);
    let all = tokens.len();
    let each = least / 64_992;
    println!(rt; "{found} statements in {all} tokens, {each} nanoseconds a token")?;
    Ok(())
}
