ghost use Rattle.std.specs.Prelude.{◌≡◌};

use crate::forms::{Form, form_of};
use crate::spelling::text_of;
use fb_base::TrapKind;
use fb_image::read;
use rv_isa::{Reg, decode, encode};
use rv_step::{Bus, BusErr, Cpu, Program, Stop, step};
use std::alloc::{AllocError, Global};

// No memory but the own stack.
#[derive(Drop)]
struct Nothing;

impl Bus for Nothing {
    ghost use Rattle.std.specs.Prelude.{None};

    ghost mem = { λ nothing a. None };

    ghost seen = { λ nothing. None };

    ghost at = { λ nothing. 0 };

    fn load(&mut self, _addr: u64, _width: u8) -> Result<u64, BusErr> {
        Err(BusErr::Unmapped)
    }

    fn store(&mut self, _addr: u64, _width: u8, _value: u64) -> Result<(), BusErr> {
        Err(BusErr::Unmapped)
    }
}

// A program of four code words, with one procedure, the shape of an empty place, and one line.
fn program_of(alloc: Global, code: [u32; 4]) -> Option<Program> {
    let mut bytes: [u8; 68] = [
        0x46, 0x42, 0x52, 0x56, 1, 0, 0, 0, 4, 0, 0, 0, 1, 0, 0, 0, 1, 0, 0, 0, 0, 0, 0, 0, 1, 0,
        0, 0, 0, 0, 0, 0, 0, 0, 0, 0, 0, 0, 0, 0, 0, 0, 0, 0, 0, 0, 0, 0, 0, 0, 0, 0, 1, 0, 0, 0,
        0, 0, 0, 0, 0, 0, 0, 0, 1, 0, 0, 0,
    ];
    for i in 0..4 {
        let word = code[i].to_le_bytes();
        bytes[28 + 4 * i] = word[0];
        bytes[29 + 4 * i] = word[1];
        bytes[30 + 4 * i] = word[2];
        bytes[31 + 4 * i] = word[3];
    }
    Program::new(alloc, read(alloc, &bytes).ok()?).ok()
}

fn hexadecimal(text: &str) -> Option<u64> {
    u64::from_str_radix(text, 16).ok()
}

fn word_in(text: &str) -> Option<u32> {
    u32::from_str_radix(text, 16).ok()
}

/// Whether a word is that of an instruction with this text, both ways.
pub fn encode_row(alloc: Global, line: &str) -> Result<bool, AllocError> {
    let mut columns = line.split('\t');
    let Some(word) = columns.next().and_then(word_in) else {
        return Ok(false);
    };
    let (Some(text), Some(inst)) = (columns.next(), decode(word)) else {
        return Ok(false);
    };
    Ok(encode(inst) == word && text_of(alloc, word, inst)?.as_str() == text)
}

/// Whether a word is that of no instruction, and a step on it is the trap BadCode.
pub fn invalid_row(alloc: Global, line: &str) -> Result<bool, AllocError> {
    let Some(word) = line.split('\t').next().and_then(word_in) else {
        return Ok(false);
    };
    let Some(program) = program_of(alloc, [word, 0, 0, 0]) else {
        return Ok(false);
    };
    let mut cpu = Cpu::new(alloc, 0, 0, 0);
    let mut bus = Nothing;
    let stop = step(&program, &mut cpu, &mut bus);
    Ok(decode(word).is_none() && stop == Ok(Stop::Trap(TrapKind::BadCode)))
}

// A thread over some code, with its operands in registers 1 and 2, all ones in register 4, and so many steps done,
// each of them by a copy of the thread.
fn ran(alloc: Global, code: [u32; 4], first: u64, second: u64, steps: u8) -> Option<Cpu> {
    let program = program_of(alloc, code)?;
    let mut cpu = Cpu::new(alloc, 0, 0, 0);
    cpu.set_register(Reg::new(1), first);
    cpu.set_register(Reg::new(2), second);
    cpu.set_register(Reg::new(4), u64::MAX);
    let mut bus = Nothing;
    for _ in 0..steps {
        cpu = cpu.copy().ok()?;
        match step(&program, &mut cpu, &mut bus) {
            Ok(Stop::Next | Stop::Turn) => (),
            _ => return None,
        }
    }
    Some(cpu)
}

// Where loads and stores are tried: in the own stack.
const BASE: u64 = 0x4000_0000_0000_2000;

// What an instruction gives for two operands.
fn given(alloc: Global, name: &str, first: u64, second: u64) -> Option<u64> {
    let (word, form) = form_of(name)?;
    let low = (second % 4096) as u32;
    let result = Reg::new(3);
    match form {
        Form::Registers => Some(ran(alloc, [word, 0, 0, 0], first, second, 1)?.register(result)),
        Form::Immediate => Some(ran(alloc, [word | (low << 20), 0, 0, 0], first, 0, 1)?.register(
            result,
        )),
        Form::Upper => {
            let upper = (second % 0x10_0000) as u32;
            Some(
                ran(alloc, [word | (upper << 12), 0, 0, 0], 0, 0, 1)?
                    .register(result)
                    .wrapping_add(first),
            )
        }
        // sd x2, 0(x1), and the load
        Form::Load => Some(ran(
            alloc,
            [0x0020_b023, word | (low << 20), 0, 0],
            BASE,
            first,
            2,
        )?
        .register(result)),
        // sd x4, 0(x1), the store, and ld x3, 0(x1)
        Form::Store => {
            let store = word | (low % 32) << 7 | (low / 32) << 25;
            Some(ran(alloc, [0x0040_b023, store, 0x0000_b183, 0], BASE, first, 3)?.register(result))
        }
        Form::Branch => Some(ran(alloc, [word, 0, 0, 0], first, second, 1)?.pc() / 8),
        Form::Jump => Some(ran(alloc, [word | (low << 20), 0, 0, 0], first, 0, 1)?.pc()),
    }
}

/// Whether an instruction gives this result for two operands.
pub fn alu_row(alloc: Global, line: &str) -> Result<bool, AllocError> {
    let mut columns = line.split('\t');
    let Some(name) = columns.next() else {
        return Ok(false);
    };
    let first = columns.next().and_then(hexadecimal);
    let second = columns.next().and_then(hexadecimal);
    let wanted = columns.next().and_then(hexadecimal);
    match (first, second, wanted) {
        (Some(first), Some(second), Some(wanted)) => Ok(
            given(alloc, name, first, second) == Some(wanted),
        ),
        _ => Ok(false),
    }
}
