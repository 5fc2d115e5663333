//! Tests of rv_select: the words and lines of a program, by hand, and the first register beyond a frame.

use fb_base::{NoMemory, Sequence};
use fb_image::Image;
use mid_code::{LinedOp, MidOp, MidProc, MidProgram, Reg};
use rv_select::select;
use std::alloc::Global;

/// Prints 7 on line 2, and ends on line 3.
fn printing(alloc: Global, variable: u32) -> Result<Image, NoMemory> {
    let seven = Reg::Var { number: variable };
    let mut ops = Vec::new(alloc);
    ops.push(LinedOp {
        op: MidOp::Const {
            to: seven,
            value: 7,
        },
        line: 1,
    })?;
    ops.push(LinedOp {
        op: MidOp::Runtime {
            number: 40,
            first: Some(seven),
            second: None,
            third: None,
            fourth: None,
            to: None,
        },
        line: 2,
    })?;
    ops.push(LinedOp {
        op: MidOp::Runtime {
            number: 64,
            first: None,
            second: None,
            third: None,
            fourth: None,
            to: None,
        },
        line: 3,
    })?;
    let mut procs = Sequence::new(alloc);
    procs.add(MidProc::of(alloc, ops)?)?;
    select(alloc, &MidProgram { procs })
}

/// The words by hand, from the formats of the RISC-V Instruction Set Manual.
const WORDS: [u32; 17] = [
    0xff80_03b7,
    0x0071_0133,
    0x0070_0293,
    0x1051_3023,
    0x1001_3503,
    0x0000_0593,
    0x0000_0613,
    0x0000_0693,
    0x0280_0893,
    0x0000_0073,
    0x0000_0513,
    0x0000_0593,
    0x0000_0613,
    0x0000_0693,
    0x0400_0893,
    0x0000_0073,
    0x0010_0073,
];

/// The line of each word.
const LINES: [u32; 17] = [1, 1, 1, 1, 2, 2, 2, 2, 2, 2, 3, 3, 3, 3, 3, 3, 3];

#[test]
fn words_and_lines_of_a_program(rt: HostRuntime) {
    let Ok(image) = printing(rt.alloc(), 0) else {
        assert!(rt; false);
        return;
    };
    assert!(rt; image.code() == WORDS.as_slice());
    for (k, line) in LINES.iter().enumerate() {
        assert!(rt; image.line_of(k as u32) == *line);
    }
    assert!(rt; image.entry(0) == Some(0));
    assert!(rt; image.entry(1) == None);
}

#[test]
fn registers_beyond_the_frame_are_want_of_memory(rt: HostRuntime) {
    assert!(rt; printing(rt.alloc(), 262_111).is_ok());
    assert!(rt; printing(rt.alloc(), 262_112).is_err());
}
