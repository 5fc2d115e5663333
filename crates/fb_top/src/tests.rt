use crate::{Report, compile, tool_call};
use fb_base::{Ending, Schedule, Text, TrapKind};
use host_edge::{Files, MemSink, MemStore, SureSink, SureSource, SureStore};
use rv_isa::decode;
use std::alloc::Global;
use std::test::Fail;

/// The command of these words over one file `f`, with an output whose puts of these numbers fail.
fn command(
    alloc: Global,
    words: &[&str],
    text: &[u8],
    failing: &[u32],
) -> Result<Report<SureStore, SureSource, MemSink, SureSink>, Fail> {
    let mut files = Files::new(alloc);
    files.add("f", text)?;
    let mut owned = Vec::new(alloc);
    for word in words {
        owned.push(String::from_str(alloc, word)?)?;
    }
    let input = SureSource::new(Text::of(alloc, b"")?, 1);
    let out = MemSink::new(alloc, Schedule::of(alloc, failing)?);
    let store = SureStore::new(alloc, files);
    Ok(tool_call(
        alloc,
        owned.as_slice(),
        store,
        input,
        out,
        SureSink::new(alloc),
    ))
}

/// A row of this many operands with `+` between them, after `Print`.
fn row(alloc: Global, operands: usize) -> Result<Vec<u8>, Fail> {
    let mut text = Vec::from_slice(alloc, b"Print 1")?;
    for _ in 1..operands {
        text.extend_from_slice(b"+1")?;
    }
    Ok(text)
}

// The examples of the language's description are among these.
#[test]
fn texts_print_what_they_say(rt: HostRuntime) -> Result<(), Fail> {
    let rows: [(&[u8], &[u8], u8); 30] = [
        (b"", b"", 0),
        (b" \t\r\n\n", b"", 0),
        (b"Print 2 + 3 * 4", b" 14\n", 0),
        (b"Print 2 - 5\n", b"-3\n", 0),
        (
            b"Print 9223372036854775807 + 1",
            b"-9223372036854775808\n",
            0,
        ),
        (b" Print\t007*7 \nPrint 8-3-2\r\n", b" 49\n 3\n", 0),
        (b"Print 9223372036854775808", b"", 65),
        (b"print 1", b" 1\n", 0),
        (b"Print1", b"", 65),
        (b"Print", b"", 65),
        (b"Print 1 2", b"", 65),
        (b"Print 1\nPrint (2)", b" 1\n 2\n", 0),
        (
            b"Dim a As Integer = 7\nDim b As Integer\nPrint a + b",
            b" 7\n",
            0,
        ),
        (b"Dim a As Integer = 2\na = a * a + 1\nPrint a", b" 5\n", 0),
        (
            b"Dim a As Integer = 5\nIf a Mod 2 Then\n  Print 1\nEnd If",
            b" 1\n",
            0,
        ),
        (
            b"Dim n As Integer = 3\nWhile n > 0\n  Print n\n  n = n - 1\nWend",
            b" 3\n 2\n 1\n",
            0,
        ),
        (
            b"Print (1 - 8) \\ 2\nPrint (1 - 8) Mod 2\nPrint 3 < 5",
            b"-3\n-1\n-1\n",
            0,
        ),
        (
            b"Print (0 - 9223372036854775807 - 1) \\ (0 - 1)\nPrint (0 - 9223372036854775807 - 1) Mod (0 - 1)",
            b"-9223372036854775808\n 0\n",
            0,
        ),
        (
            b"If 0 - 1 Then\nPrint 1\nEnd If\nIf 0 Then\nPrint 2\nEnd If",
            b" 1\n",
            0,
        ),
        (b"Print 7 Mod 0", b"", 80),
        (
            b"Dim a As Integer\nPrint 1\nWhile 1 \\ a\nWend",
            b" 1\n",
            80,
        ),
        (b"Print a\nDim a As Integer", b"", 65),
        (b"Dim a As Integer = a", b"", 65),
        (b"Dim a As Integer\nDim A As Integer", b"", 65),
        (b"Dim Print As Integer", b"", 65),
        (b"If 1 Then\nDim a As Integer\nEnd If", b"", 65),
        (b"If 1 Then\nPrint 1", b"", 65),
        (b"While 1\nEnd If", b"", 65),
        (b"Wend", b"", 65),
        (b"Print -1", b"", 65),
    ];
    for (text, output, status) in rows {
        let report = command(rt.alloc(), &["run", "f"], text, &[])?;
        assert_eq!(rt; report.status, status);
        assert_eq!(rt; report.out.bytes(), output);
    }
    Ok(())
}

#[test]
fn a_zero_divisor_traps_at_its_line(rt: HostRuntime) -> Result<(), Fail> {
    let text = b"Dim a As Integer = 7\nDim b As Integer\nPrint a \\ b";
    let report = command(rt.alloc(), &["run", "f"], text, &[])?;
    assert!(rt;
        matches!(
            &report.ending,
            Ending::Trapped {
                kind: TrapKind::DivZero,
                line: 3,
                thread: 0
            }
        )
    );
    assert_eq!(rt; report.status, 80);
    assert_eq!(rt; report.out.bytes(), b"".as_slice());
    assert_eq!(rt; report.schedule.threads(), [0].as_slice());
    Ok(())
}

#[test]
fn a_loop_without_end_spends_its_turns(rt: HostRuntime) -> Result<(), Fail> {
    let report = command(rt.alloc(), &["run", "f"], b"While 1\nWend", &[])?;
    assert!(rt; matches!(&report.ending, Ending::TurnsSpent { thread: 0, line: 2 }));
    assert_eq!(rt; report.status, 83);
    assert_eq!(rt; report.schedule.threads(), [0].as_slice());
    Ok(())
}

#[test]
fn a_run_has_its_limit_of_entries(rt: HostRuntime) -> Result<(), Fail> {
    let report = command(rt.alloc(), &["run", "f"], b"While 1\nPrint 1\nWend", &[])?;
    assert!(rt; matches!(&report.ending, Ending::EntriesSpent { limit: 1_000_000 }));
    assert_eq!(rt; report.status, 84);
    assert_eq!(rt; report.schedule.threads().len(), 1_000_000);
    assert_eq!(rt; report.out.bytes().len(), 1_500_000);
    Ok(())
}

#[test]
fn schedules_have_the_entries_that_were_made(rt: HostRuntime) -> Result<(), Fail> {
    let report = command(rt.alloc(), &["run", "f"], b"Print 2 + 3 * 4", &[])?;
    assert_eq!(rt; report.schedule.threads(), [0, 0, 0].as_slice());
    assert!(rt; report.replaced.is_none());
    let report = command(rt.alloc(), &["run", "f"], b"Print 1\nPrint 2", &[2])?;
    assert_eq!(rt; report.status, 73);
    assert_eq!(rt; report.out.bytes(), b" 1".as_slice());
    assert_eq!(rt; report.schedule.threads(), [0, 0].as_slice());
    Ok(())
}

/// So many blocks inside each other round a Print statement.
fn blocks(alloc: Global, count: usize) -> Result<Vec<u8>, Fail> {
    let mut text = Vec::new(alloc);
    for _ in 0..count {
        text.extend_from_slice(b"If 1 Then\n")?;
    }
    text.extend_from_slice(b"Print 1\n")?;
    for _ in 0..count {
        text.extend_from_slice(b"End If\n")?;
    }
    Ok(text)
}

#[test]
fn depth_has_its_limit(rt: HostRuntime) -> Result<(), Fail> {
    for (operands, status) in [(200, 0), (201, 65), (500_000, 65)] {
        let text = row(rt.alloc(), operands)?;
        let report = command(rt.alloc(), &["run", "f"], text.as_slice(), &[])?;
        assert_eq!(rt; report.status, status);
    }
    for (count, status) in [(199, 0), (200, 65)] {
        let text = blocks(rt.alloc(), count)?;
        let report = command(rt.alloc(), &["run", "f"], text.as_slice(), &[])?;
        assert_eq!(rt; report.status, status);
    }
    Ok(())
}

#[test]
fn length_has_its_limit(rt: HostRuntime) -> Result<(), Fail> {
    for (bytes, status) in [(1_048_576, 0), (1_048_577, 67)] {
        let text = vec![in rt.alloc(); b' '; bytes]?;
        let report = command(rt.alloc(), &["run", "f"], text.as_slice(), &[])?;
        assert_eq!(rt; report.status, status);
    }
    Ok(())
}

#[test]
fn words_and_files_have_their_answers(rt: HostRuntime) -> Result<(), Fail> {
    let report = command(rt.alloc(), &["run", "none"], b"Print 1", &[])?;
    assert_eq!(rt; report.status, 66);
    assert!(rt;
        matches!(&report.ending, Ending::NoFile { name } if name.bytes() == b"none".as_slice())
    );
    let faulty: [&[&str]; 4] = [&[], &["run"], &["run", "f", "f"], &["walk", "f"]];
    for words in faulty {
        let report = command(rt.alloc(), words, b"Print 1", &[])?;
        assert_eq!(rt; report.status, 64);
    }
    Ok(())
}

#[test]
fn a_store_may_fail(rt: HostRuntime) -> Result<(), Fail> {
    let alloc = rt.alloc();
    let mut words = Vec::new(alloc);
    words.push(String::from_str(alloc, "run")?)?;
    words.push(String::from_str(alloc, "f")?)?;
    let store = MemStore::new(alloc, Files::new(alloc), Schedule::of(alloc, &[1])?);
    let input = SureSource::new(Text::of(alloc, b"")?, 1);
    let report = tool_call(
        alloc,
        words.as_slice(),
        store,
        input,
        SureSink::new(alloc),
        SureSink::new(alloc),
    );
    assert_eq!(rt; report.status, 70);
    Ok(())
}

#[test]
fn code_is_made_of_instructions(rt: HostRuntime) -> Result<(), Fail> {
    match compile(rt.alloc(), b"Print 1 - 2") {
        Err(_) => assert!(rt; false),
        Ok(image) => {
            for word in image.code() {
                assert!(rt; decode(*word).is_some());
            }
            assert_eq!(rt; image.entry(0), Some(0));
            assert_eq!(rt; image.line_of(0), 1);
        }
    }
    Ok(())
}
