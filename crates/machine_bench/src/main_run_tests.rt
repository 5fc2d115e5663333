use fb_base::{Ending, Schedule, Text, TrapKind, WhichSink};
use fb_image::{Image, read};
use host_edge::{MemSink, SureSource};
use main_run::{Solo, solo};
use rv_isa::{Imm, Inst, Jump, Reg, encode};
use std::alloc::Global;
use std::process::Abort;
use std::test::Fail;

/// The word of `addi rd, x0, value`.
fn put(rd: u8, value: u16) -> u32 {
    if rd > 31 || value > 4095 {
        return 0;
    }
    let (rd, rs1, imm) = (Reg::new(rd), Reg::new(0), Imm::new(value));
    encode(Inst::Addi { rd, rs1, imm })
}

/// The word of `ecall`.
fn call() -> u32 {
    encode(Inst::Ecall)
}

/// The word of `ld x5, 0(x0)`.
fn load_from_zero() -> u32 {
    let (rd, rs1, imm) = (Reg::new(5), Reg::new(0), Imm::new(0));
    encode(Inst::Ld { rd, rs1, imm })
}

/// The word of `jal x0, 0`, which goes to itself.
fn stay() -> u32 {
    let (rd, offset) = (Reg::new(0), Jump::new(0));
    encode(Inst::Jal { rd, offset })
}

/// The bytes of an image of these code words, with one procedure and the shape of an empty place; each word has a line
/// of its own, from 11 on.
fn spelt(alloc: Global, words: &[u32]) -> Result<Vec<u8>, Fail> {
    let mut bytes = Vec::from_slice(alloc, b"FBRV")?;
    let count = u32::try_from(words.len()).unwrap_or(0);
    for number in [1, count, 1, 1, 0, count] {
        bytes.extend_from_slice(&number.to_le_bytes())?;
    }
    for word in words {
        bytes.extend_from_slice(&word.to_le_bytes())?;
    }
    for number in [0, 0, 1, 0] {
        bytes.extend_from_slice(&u32::to_le_bytes(number))?;
    }
    for index in 0..count {
        bytes.extend_from_slice(&index.to_le_bytes())?;
        bytes.extend_from_slice(&index.wrapping_add(11).to_le_bytes())?;
    }
    Ok(bytes)
}

/// The run of an image of these code words, with an output whose puts of these numbers fail.
fn run(
    rt: &impl Abort,
    alloc: Global,
    words: &[u32],
    turns: u64,
    entries: u32,
    failing: &[u32],
) -> Result<Solo<SureSource, MemSink>, Fail> {
    let bytes = spelt(alloc, words)?;
    assert!(rt; bytes.len() < 1000);
    let image = read(alloc, bytes.as_slice())
        .ok()
        .expect(rt, "the bytes are an image");
    let input = SureSource::new(Text::of(alloc, b"left")?, 1);
    let out = MemSink::new(alloc, Schedule::of(alloc, failing)?);
    Ok(solo(alloc, image, input, out, turns, entries))
}

/// An ending: the exit status that it stands for, its trap, and its status, line or limit.
type Told = (u8, Option<TrapKind>, u32);

/// What an ending of thread 0 says.
fn told(ending: &Ending) -> Option<Told> {
    match ending {
        Ending::Ended { status } => Some((0, None, u32::from(*status))),
        Ending::Trapped {
            kind,
            line,
            thread: 0,
        } => Some((80, Some(*kind), *line)),
        Ending::TurnsSpent { thread: 0, line } => Some((83, None, *line)),
        Ending::EntriesSpent { limit } => Some((84, None, *limit)),
        Ending::WriteFault {
            sink: WhichSink::Out,
        } => Some((73, None, 0)),
        _ => None,
    }
}

/// Whether a run has this ending, this output and so many entries, all of thread 0, and its input as it was.
fn comes_to(run: &Solo<SureSource, MemSink>, ending: Told, output: &[u8], entries: usize) -> bool {
    let threads = run.schedule.threads();
    told(&run.ending) == Some(ending)
        && run.out.bytes() == output
        && threads.len() == entries
        && threads.iter().all(|thread| *thread == 0)
}

#[test]
fn a_program_prints_and_ends(rt: HostRuntime) -> Result<(), Fail> {
    // 7, then the answer of that call, then -3 and a line end
    let words = [
        put(10, 7),
        put(17, 40),
        call(),
        call(),
        put(10, 4093),
        call(),
        put(17, 45),
        call(),
        put(17, 64),
        call(),
    ];
    let run = run(&rt, rt.alloc(), &words, 0, 100, &[])?;
    assert!(rt; comes_to(&run, (0, None, 0), b" 7 0-3\n", 5));
    Ok(())
}

#[test]
fn traps_have_their_lines(rt: HostRuntime) -> Result<(), Fail> {
    let none = TrapKind::BadCode;
    let rows: [(&[u32], Told); 7] = [
        // no instruction, EBREAK, and the end of the code
        (&[put(5, 1), 0xffff_ffff], (80, Some(none), 12)),
        (&[0x0010_0073], (80, Some(none), 11)),
        (&[put(5, 1)], (80, Some(none), 11)),
        // a load from address 0
        (
            &[put(5, 1), load_from_zero(), call()],
            (80, Some(TrapKind::BadPointer), 12),
        ),
        // call 70 with the number of a trap, and with none
        (
            &[put(10, 3), put(17, 70), call()],
            (80, Some(TrapKind::DivZero), 13),
        ),
        (
            &[put(10, 12), put(17, 70), call(), call()],
            (80, Some(none), 13),
        ),
        // a call that there isn't
        (&[put(17, 99), call(), call()], (80, Some(none), 12)),
    ];
    for (words, ending) in rows {
        let run = run(&rt, rt.alloc(), words, 9, 9, &[])?;
        assert!(rt; comes_to(&run, ending, b"", 1));
    }
    Ok(())
}

#[test]
fn limits_end_a_run(rt: HostRuntime) -> Result<(), Fail> {
    let endless = run(&rt, rt.alloc(), &[put(5, 1), stay()], 3, 9, &[])?;
    assert!(rt; comes_to(&endless, (83, None, 12), b"", 1));
    let printing = [put(17, 45), call(), call(), put(17, 64), call()];
    let rows: [(u32, Told, &[u8], usize); 4] = [
        (0, (84, None, 0), b"", 0),
        (1, (84, None, 1), b"\n", 1),
        (2, (84, None, 2), b"\n\n", 2),
        (3, (0, None, 0), b"\n\n", 3),
    ];
    for (entries, ending, output, made) in rows {
        let run = run(&rt, rt.alloc(), &printing, 9, entries, &[])?;
        assert!(rt; comes_to(&run, ending, output, made));
    }
    Ok(())
}

#[test]
fn a_fault_of_the_output_ends_a_run(rt: HostRuntime) -> Result<(), Fail> {
    let words = [put(10, 7), put(17, 40), call(), call(), call()];
    let run = run(&rt, rt.alloc(), &words, 9, 9, &[2])?;
    assert!(rt; comes_to(&run, (73, None, 0), b" 7", 2));
    Ok(())
}
