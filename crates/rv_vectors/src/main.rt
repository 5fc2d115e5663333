//! The program `rv_vectors KIND`: tries the rows of a table of instruction words or of results, which come on
//! standard input, with `decode`, `encode` and `step`. It prints each row that disagrees, and last how many did.
#![tactic(auto)]

mod forms;
mod spelling;
mod trial;

use std::alloc::Global;
use std::process::ExitCode;
use std::{env, io};

/// The status of words that can't be read.
const FAULTY_WORDS: u8 = 64;

/// The kinds of tables.
#[derive(Clone, Copy)]
enum Kind {
    /// A word, and the text of its instruction.
    Encode,
    /// A word that is no instruction.
    Invalid,
    /// An instruction's name, its two operands, and what it gives.
    Alu,
}

fn kind_of(word: &str) -> Option<Kind> {
    match word {
        "encode" => Some(Kind::Encode),
        "invalid" => Some(Kind::Invalid),
        "alu" => Some(Kind::Alu),
        _ => None,
    }
}

// Tries the rows, prints those that disagree, and says how many rows there were and how many of them disagree.
fn tally<R: Input + Print>(alloc: Global, rt: &R, kind: Kind) -> io::Result<(u64, u64)> {
    let mut rows: u64 = 0;
    let mut wrong: u64 = 0;
    for line in rt.lines(alloc) {
        let line = line?;
        if line.starts_with('#') {
            continue;
        }
        rows = rows.saturating_add(1);
        let agrees = match kind {
            Kind::Encode => trial::encode_row(alloc, line.as_str())?,
            Kind::Invalid => trial::invalid_row(alloc, line.as_str())?,
            Kind::Alu => trial::alu_row(alloc, line.as_str())?,
        };
        if !agrees {
            wrong = wrong.saturating_add(1);
            println!(rt; "{line}")?;
        }
    }
    println!(rt; "{rows} rows, {wrong} disagree")?;
    Ok((rows, wrong))
}

fn main(rt: HostRuntime) -> io::Result<ExitCode> {
    let mut arguments = env::args(&rt)?.skip(1);
    let Some(kind) = arguments.next().and_then(|word| kind_of(word.as_str())) else {
        return Ok(ExitCode::from(FAULTY_WORDS));
    };
    let (rows, wrong) = tally(rt.alloc(), &rt, kind)?;
    Ok(if rows > 0 && wrong == 0 {
        ExitCode::SUCCESS
    } else {
        ExitCode::FAILURE
    })
}
