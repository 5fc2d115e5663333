use crate::{Expr, Operator, Program, Stmt, read_program};
use std::alloc::Global;
use std::test::Fail;

fn sign(op: Operator) -> &'static str {
    match op {
        Operator::Times => "*",
        Operator::Quotient => "\\",
        Operator::Remainder => "%",
        Operator::Plus => "+",
        Operator::Minus => "-",
        Operator::Same => "=",
        Operator::Other => "<>",
        Operator::Less => "<",
        Operator::AtMost => "<=",
        Operator::More => ">",
        Operator::AtLeast => ">=",
    }
}

/// Writes an expression with brackets round each operator and its sides.
fn write_expression(alloc: Global, shown: &mut String, tree: &Expr) -> Result<(), Fail> {
    match tree {
        Expr::Literal(n) => shown.push_str(format!(in alloc; "{n}")?.as_str())?,
        Expr::Variable(x) => shown.push_str(format!(in alloc; "v{x}")?.as_str())?,
        Expr::Parenthesised(inside) => {
            shown.push_str("(")?;
            write_expression(alloc, shown, inside.get())?;
            shown.push_str(")")?;
        }
        Expr::Apply(op, left, right) => {
            shown.push_str("[")?;
            write_expression(alloc, shown, left.get())?;
            shown.push_str(sign(*op))?;
            write_expression(alloc, shown, right.get())?;
            shown.push_str("]")?;
        }
    }
    Ok(())
}

/// Writes a statement with its lines.
fn write_statement(alloc: Global, shown: &mut String, statement: &Stmt) -> Result<(), Fail> {
    match statement {
        Stmt::Declare(x, line) => {
            shown.push_str(format!(in alloc; "{line}: dim v{x}")?.as_str())?;
        }
        Stmt::DeclareWith(x, value, line) => {
            shown.push_str(format!(in alloc; "{line}: dim v{x} = ")?.as_str())?;
            write_expression(alloc, shown, value)?;
        }
        Stmt::Assign(x, value, line) => {
            shown.push_str(format!(in alloc; "{line}: v{x} = ")?.as_str())?;
            write_expression(alloc, shown, value)?;
        }
        Stmt::Print(value, line) => {
            shown.push_str(format!(in alloc; "{line}: print ")?.as_str())?;
            write_expression(alloc, shown, value)?;
        }
        Stmt::If(test, body, line) => {
            shown.push_str(format!(in alloc; "{line}: if ")?.as_str())?;
            write_expression(alloc, shown, test)?;
            shown.push_str(" {")?;
            for part in body.as_slice() {
                write_statement(alloc, shown, part)?;
            }
            shown.push_str("}")?;
        }
        Stmt::While(test, body, line, back) => {
            shown.push_str(format!(in alloc; "{line}-{back}: while ")?.as_str())?;
            write_expression(alloc, shown, test)?;
            shown.push_str(" {")?;
            for part in body.as_slice() {
                write_statement(alloc, shown, part)?;
            }
            shown.push_str("}")?;
        }
    }
    shown.push_str("; ")?;
    Ok(())
}

/// What a text is read as.
fn shown(alloc: Global, text: &[u8]) -> Result<String, Fail> {
    let mut shown = String::new(alloc);
    match read_program(alloc, text)? {
        None => shown.push_str("none")?,
        Some(
            Program {
                statements,
                variables,
                last_line,
            },
        ) => {
            for statement in statements.as_slice() {
                write_statement(alloc, &mut shown, statement)?;
            }
            shown.push_str(format!(in alloc; "{variables}, {last_line}")?.as_str())?;
        }
    }
    Ok(shown)
}

#[test]
fn texts_have_their_programs(rt: HostRuntime) -> Result<(), Fail> {
    let rows: [(&str, &str); 24] = [
        ("", "0, 1"),
        (" \t\r\n\n", "0, 3"),
        ("Print 1", "1: print 1; 0, 1"),
        ("\t pRINT\t007 \r\n", "1: print 7; 0, 2"),
        ("PRINT(1)", "1: print (1); 0, 1"),
        ("Print 2+3*4", "1: print [2+[3*4]]; 0, 1"),
        ("Print (2+3)*4", "1: print [([2+3])*4]; 0, 1"),
        ("Print 8-3+2", "1: print [[8-3]+2]; 0, 1"),
        ("Print 9\\2*3\\4", "1: print [[9\\[2*3]]\\4]; 0, 1"),
        ("Print 9 Mod 4\\2 MOD 3", "1: print [[9%[4\\2]]%3]; 0, 1"),
        ("Print 1+7Mod 2", "1: print [1+[7%2]]; 0, 1"),
        ("Print 1+2=3<>4-5", "1: print [[[1+2]=3]<>[4-5]]; 0, 1"),
        ("Print 1<2<=3>4>=5", "1: print [[[[1<2]<=3]>4]>=5]; 0, 1"),
        (
            "Print 9223372036854775807",
            "1: print 9223372036854775807; 0, 1",
        ),
        ("Dim a As Integer\nA=a+1", "1: dim v0; 2: v0 = [v0+1]; 1, 2"),
        (
            "dim Ab_1 as integer=5\nDIM _x AS INTEGER = aB_1\nPrint _X",
            "1: dim v0 = 5; 2: dim v1 = v0; 3: print v1; 2, 3",
        ),
        ("If 1 Then\nEnd If", "1: if 1 {}; 0, 2"),
        (
            "If(1)Then\n\nPrint 2\nEND   IF\n",
            "1: if (1) {3: print 2; }; 0, 5",
        ),
        ("While 0\nWend", "1-2: while 0 {}; 0, 2"),
        (
            "Dim i As Integer\nWhile i<3\nIf i Then\n\nPrint i\nEnd If\ni=i+1\nWend\nPrint i=3",
            "1: dim v0; 2-8: while [v0<3] {3: if v0 {5: print v0; }; 7: v0 = [v0+1]; }; 9: print [v0=3]; 1, 9",
        ),
        (
            "While 1\nWhile 2\nWend\nWend\nDim a As Integer",
            "1-4: while 1 {2-3: while 2 {}; }; 5: dim v0; 1, 5",
        ),
        (
            "Dim printer As Integer\nprinter=1",
            "1: dim v0; 2: v0 = 1; 1, 2",
        ),
        (
            "Dim a As Integer\nDim b As Integer\nPrint b-a",
            "1: dim v0; 2: dim v1; 3: print [v1-v0]; 2, 3",
        ),
        ("Dim a As Integer\na=a=1", "1: dim v0; 2: v0 = [v0=1]; 1, 2"),
    ];
    for (text, program) in rows {
        assert_eq!(rt; shown(rt.alloc(), text.as_bytes())?.as_str(), program);
    }
    Ok(())
}

#[test]
fn other_texts_have_none(rt: HostRuntime) -> Result<(), Fail> {
    let rows: [&str; 50] = [
        "Print",
        "Print-1",
        "Print1",
        "Print 1 2",
        "Print 1 : Print 2",
        "Print 1+",
        "Print *1",
        "Print ()",
        "Print (1",
        "Print 1)",
        "Print 7 Mod2",
        "Print 1.5",
        "Print 1_",
        "Print 9223372036854775808",
        "Print 99999999999999999999",
        "Print &h10",
        "Print 1 And 2",
        "Print \"a\"",
        "Print 1 ' one",
        "Rem",
        "1",
        "+",
        "a",
        "Print a",
        "a=1",
        "a=1\nDim a As Integer",
        "Dim a As Integer = a",
        "Dim a As Integer\nDim A As Integer",
        "Dim End As Integer",
        "Dim GoTo As Integer",
        "Dim sleep As Integer",
        "Dim _ As Integer",
        "Dim 1a As Integer",
        "Dim a As Long",
        "Dim a",
        "Dim a As Integer =",
        "Dim a As Integer 1",
        "Dim a As Integer, b As Integer",
        "If 1 Then\nDim a As Integer\nEnd If",
        "While 1\nDim a As Integer = 1\nWend",
        "If 1 Then\nPrint 2",
        "If 1 Then Print 2\nEnd If",
        "If 1\nEnd If",
        "If Then\nEnd If",
        "End If",
        "Wend",
        "While 1\nEnd If",
        "If 1 Then\nWend",
        "If 1 Then\nWhile 2\nEnd If\nWend",
        "If 1 Then\nElse\nEnd If",
    ];
    for text in rows {
        assert_eq!(rt; shown(rt.alloc(), text.as_bytes())?.as_str(), "none");
    }
    Ok(())
}

/// These bytes, so many times a piece, other bytes, so many times a last piece.
fn repeated(
    alloc: Global,
    begin: &str,
    piece: &str,
    times: usize,
    middle: &str,
    last: &str,
) -> Result<Vec<u8>, Fail> {
    let mut text = Vec::from_slice(alloc, begin.as_bytes())?;
    for _ in 0..times {
        text.extend_from_slice(piece.as_bytes())?;
    }
    text.extend_from_slice(middle.as_bytes())?;
    for _ in 0..times {
        text.extend_from_slice(last.as_bytes())?;
    }
    Ok(text)
}

#[test]
fn texts_are_read_to_a_depth(rt: HostRuntime) -> Result<(), Fail> {
    let rows: [(&str, &str, usize, &str, &str, bool); 16] = [
        ("Print 1", "+1", 199, "", "", true),
        ("Print 1", "+1", 200, "", "", false),
        ("Print 1", "=1", 199, "", "", true),
        ("Print 1", "=1", 200, "", "", false),
        ("Print ", "(", 199, "1", ")", true),
        ("Print ", "(", 200, "1", ")", false),
        ("Print ", "1+(", 99, "1", ")", true),
        ("Print ", "1+(", 100, "1", ")", false),
        ("", "If 1 Then\n", 200, "", "End If\n", true),
        ("", "If 1 Then\n", 201, "", "End If\n", false),
        ("", "While 1\n", 199, "Print 2\n", "Wend\n", true),
        ("", "While 1\n", 200, "Print 2\n", "Wend\n", false),
        ("Dim a As Integer\n", "a = a + 1\n", 20_000, "", "", true),
        ("Print 1", "+1", 500_000, "", "", false),
        ("Print ", "(", 500_000, "", "", false),
        ("", "If 1 Then\n", 200_000, "", "", false),
    ];
    for (begin, piece, times, middle, last, is_read) in rows {
        let text = repeated(rt.alloc(), begin, piece, times, middle, last)?;
        let program = read_program(rt.alloc(), text.as_slice())?;
        assert_eq!(rt; program.is_some(), is_read);
    }
    Ok(())
}
