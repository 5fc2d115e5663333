//! Times the lexer and the parser. With the word `time` it prints how long they take, with `deep` how many of the deepest
//! texts have a tree, and without one what was found in a line each. Its tests are those of the crates of the front end.
#![tactic(auto)]

#[cfg(test)]
mod const_tests;
mod count;
mod deep;
#[cfg(test)]
mod expr_tests;
#[cfg(test)]
mod lexer_tests;
#[cfg(test)]
mod parser_tests;
#[cfg(test)]
mod pick_tests;
#[cfg(test)]
mod scope_tests;
mod times;
#[cfg(test)]
mod tree_tests;
#[cfg(test)]
mod type_table_tests;

use std::{env, io};

fn main(rt: HostRuntime) -> io::Result<()> {
    let alloc = rt.alloc();
    if let Some(word) = env::args(&rt)?.nth(1) {
        if word.as_str() == "deep" {
            let found = deep::deep_texts(alloc)?;
            return println!(rt; "{found} of the deepest texts have a tree");
        }
        times::print_lexer(&rt, alloc)?;
        return times::print_parser(&rt, alloc);
    }
    let tokens = count::tokens(alloc, times::COMMENTED.as_bytes());
    let statements = count::statements(alloc, times::TESTED.as_bytes());
    println!(rt; "{tokens} tokens in a line; {statements} statement in another")
}
