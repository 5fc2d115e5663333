//! The deepest texts: for each block the deepest nest of it, and in the innermost statement of each nest the deepest
//! expression of each kind.
use fb_lexer::lex;
use parse_stmt::parse;
use std::alloc::{AllocError, Global};

/// How deep a block or an expression stands that has one more inside.
const DEEPEST: u32 = 199;

// What begins a block and what ends it.
const BLOCKS: [(&str, &str); 11] = [
    ("If a Then ", ""),
    ("If a Then b Else ", ""),
    ("If a Then:", ":End If"),
    ("If a Then:Else:", ":End If"),
    ("If a Then:ElseIf a Then:", ":End If"),
    ("For i=1 To 2:", ":Next"),
    ("While a:", ":Wend"),
    ("Do:", ":Loop"),
    ("Do While a:", ":Loop"),
    ("Select Case a:Case 1:", ":End Select"),
    ("Scope:", ":End Scope"),
];

// What stands before an expression in an expression, and what behind it.
const VALUES: [(&str, &str); 16] = [
    ("(", ")"),
    ("a[", "]"),
    ("f(", ")"),
    ("f(1,", ")"),
    ("-", ""),
    ("*", ""),
    ("@", ""),
    ("Not ", ""),
    ("1+", ""),
    ("Cast(Long,", ")"),
    ("CPtr(Any Ptr,", ")"),
    ("New T(", ")"),
    ("New T[", "]"),
    ("IIf(", ",1,2)"),
    ("IIf(1,2,", ")"),
    ("Len(", ")"),
];

// So many fronts, a middle, and as many backs.
fn nested(
    alloc: Global,
    (front, back): (&str, &str),
    count: u32,
    middle: &str,
) -> Result<String, AllocError> {
    let mut text = String::new(alloc);
    for _ in 0..count {
        text.push_str(front)?;
    }
    text.push_str(middle)?;
    for _ in 0..count {
        text.push_str(back)?;
    }
    Ok(text)
}

// Whether a text has a tree.
fn is_read(alloc: Global, text: &str) -> bool {
    if text.len() > 2_000_000 {
        return false;
    }
    match lex(alloc, text.as_bytes()) {
        Ok(tokens) => parse(alloc, &tokens).is_ok(),
        Err(_) => false,
    }
}

/// How many of the deepest texts have a tree.
pub fn deep_texts(alloc: Global) -> Result<u32, AllocError> {
    let mut found = 0u32;
    for value in VALUES {
        let value = nested(alloc, value, DEEPEST, "a")?;
        for block in BLOCKS {
            let middle = format!(in alloc; "Print {value}")?;
            let text = nested(alloc, block, DEEPEST, middle.as_str())?;
            if is_read(alloc, text.as_str()) {
                found = found.saturating_add(1);
            }
        }
    }
    Ok(found)
}
