ghost use Rattle.std.specs.Prelude.{◌≡◌, ◌+◌, ◌<◌, ◌^◌, [], ◌∷◌, ◌++◌, length, slice_set, IfOk, OnOk};
ghost use Rattle.mid_code.specs.declared.reg.Reg.TheVariants.{Temp, Var};
ghost use Rattle.mid_code.specs.declared.op.MidOp.TheVariants.{Unless};
ghost use Rattle.mid_flow.specs.Flat.{lined};
ghost use Rattle.first_lowering.specs.Lowering.{operation, keep, call, call_with_value};

use fb_base::NoMemory;
use first_language::Operator;
use mid_code::{Division, LinedOp, MidOp, Reg, WordOp};

/// The register of an expression's value.
pub const FIRST: Reg = Reg::Temp { number: 0 };

/// A number of middle code, which has 32 bits. The error is want of memory: a program with more variables, lines or
/// operations than that has no room.
pub fn number(n: u64) -> Result<u32, NoMemory>
    ensures { IfOk result (λ m. (m ≡ n) × (n < 2 ^ 32)) }
{
    if n < 0x1_0000_0000 {
        Ok(n as u32)
    } else {
        Err(NoMemory)
    }
}

/// The register of a value at a height.
pub fn temp(d: u64) -> Result<Reg, NoMemory>
    ensures { IfOk result (λ r. (r ≡ Temp d) × (d < 2 ^ 32)) }
{
    Ok(Reg::Temp { number: number(d)? })
}

/// The register of a variable.
pub fn variable(x: u64) -> Result<Reg, NoMemory>
    ensures { IfOk result (λ r. r ≡ Var x) }
{
    Ok(Reg::Var { number: number(x)? })
}

fn word(op: WordOp, low: Reg, left: Reg, right: Reg) -> MidOp
    ensures { result ≡ MidOp.Both op low left right }
{
    MidOp::Both {
        op,
        to: low,
        left,
        right,
    }
}

fn division(op: Division, low: Reg, high: Reg) -> MidOp
    ensures { result ≡ MidOp.Divide op low low high }
{
    MidOp::Divide {
        op,
        to: low,
        left: low,
        right: high,
    }
}

/// The operation between the values at a height and the next one.
pub fn operation(op: Operator, d: u64) -> Result<MidOp, NoMemory>
    ensures { IfOk result (λ m. (m ≡ operation op d) × (d < 2 ^ 32)) }
{
    let low = temp(d)?;
    let high = temp(d + 1)?;
    Ok(match op {
        Operator::Times => word(WordOp::Times, low, low, high),
        Operator::Quotient => division(Division::DivS, low, high),
        Operator::Remainder => division(Division::RemS, low, high),
        Operator::Plus => word(WordOp::Plus, low, low, high),
        Operator::Minus => word(WordOp::Minus, low, low, high),
        Operator::Same => word(WordOp::Same, low, low, high),
        Operator::Other => word(WordOp::Other, low, low, high),
        Operator::Less => word(WordOp::LessS, low, low, high),
        Operator::AtMost => word(WordOp::AtMostS, low, low, high),
        Operator::More => word(WordOp::LessS, low, high, low),
        Operator::AtLeast => word(WordOp::AtMostS, low, high, low),
    })
}

/// The first temporary register into that of a variable.
pub fn keep(x: u64) -> Result<MidOp, NoMemory>
    ensures { IfOk result (λ op. op ≡ keep x) }
{
    Ok(MidOp::Copy {
        to: variable(x)?,
        from: FIRST,
    })
}

/// A runtime call without arguments.
pub fn call(number: u8) -> MidOp
    ensures { result ≡ call number }
{
    MidOp::Runtime {
        number,
        first: None,
        second: None,
        third: None,
        fourth: None,
        to: None,
    }
}

/// A runtime call with the first temporary register as its argument.
pub fn call_with_value(number: u8) -> MidOp
    ensures { result ≡ call_with_value number }
{
    MidOp::Runtime {
        number,
        first: Some(FIRST),
        second: None,
        third: None,
        fourth: None,
        to: None,
    }
}

/// Puts an operation of some line behind the others.
pub fn put(ops: &mut Vec<LinedOp>, op: MidOp, line: u32) -> Result<(), NoMemory>
    ensures { OnOk result (ops.new.items ≡ ops.old.items ++ lined op line ∷ []) }
{
    ops.push(LinedOp { op, line })?;
    Ok(())
}

/// A test that goes to where the operations end now, where the first temporary register is 0: it takes the place that was
/// held for it.
pub fn put_test(ops: &mut Vec<LinedOp>, at: usize, line: u32) -> Result<(), NoMemory>
    requires { at < length ops.old.items }
    ensures { OnOk result (ops.new.items ≡ slice_set ops.old.items at (lined (Unless (Temp 0) (length ops.old.items)) line)) }
{
    let target = number(ops.len() as u64)?;
    ops[at] = LinedOp {
        op: MidOp::Unless {
            test: FIRST,
            target,
        },
        line,
    };
    Ok(())
}
