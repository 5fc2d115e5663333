//! How much was found in a text.
use fb_ast::Tree;
use fb_lexer::lex;
use parse_expr::ParseErr;
use parse_stmt::parse;
use std::alloc::Global;

/// How many tokens a text has, and 0 where it has a fault.
pub fn tokens(alloc: Global, text: &[u8]) -> usize {
    if text.len() > 2_000_000 {
        return 0;
    }
    match lex(alloc, text) {
        Ok(tokens) => tokens.len(),
        Err(_) => 0,
    }
}

/// How many statements were read, and 0 where there is a fault.
pub fn read_in(read: &Result<Tree, ParseErr>) -> usize {
    match read {
        Ok(tree) => tree.items.len(),
        Err(_) => 0,
    }
}

/// How many statements a text has, and 0 where it has a fault.
pub fn statements(alloc: Global, text: &[u8]) -> usize {
    if text.len() > 2_000_000 {
        return 0;
    }
    match lex(alloc, text) {
        Ok(tokens) => read_in(&parse(alloc, &tokens)),
        Err(_) => 0,
    }
}
