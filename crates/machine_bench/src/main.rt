//! Times the main thread's run on five loops: with an argument it prints nanoseconds an instruction, without one
//! whether each comes to its end. Its tests are those of the machine's crates.
#![tactic(auto)]

ghost use Rattle.std.specs.Prelude.{◌≡◌, ◌<◌, ◌≤◌, ◌^◌, length, IfOk};

use fb_base::{Cells, Ending, LineAt, NoMemory, Sequence, Shape, Text};
use fb_image::{CodeWords, Image, ImageParts, Literals, build};
use host_edge::{SureSink, SureSource};
use main_run::solo;
use std::alloc::Global;
use std::time::Instant;
use std::{env, io};

#[cfg(test)]
mod fb_image_tests;
#[cfg(test)]
mod first_lowering_tests;
#[cfg(test)]
mod main_run_tests;
#[cfg(test)]
mod mid_code_tests;
#[cfg(test)]
mod rv_isa_tests;
#[cfg(test)]
mod rv_select_tests;
#[cfg(test)]
mod word64_tests;

// How many times each loop is run.
const ROUNDS: u32 = 5;

// lui t1, 1024; addi sp, sp, -8; then the turn: ld t0, 0(sp); addi t0, t0, 1; sd t0, 0(sp); slt t2, t0, t1;
// xori t2, t2, 1; beq t2, zero, the turn.
const COUNTING: [u32; 10] = [
    0x0040_0337,
    0xff81_0113,
    0x0001_3283,
    0x0012_8293,
    0x0051_3023,
    0x0062_a3b3,
    0x0013_c393,
    0xfe03_86e3,
    0x0400_0893,
    0x0000_0073,
];

// 1,000 times 2,000 turns of: mul a0, a0, a1; addi a0, a0, 1; rem a2, a0, a3; div a5, a0, a3; slt a4, a2, a5;
// add a6, a6, a4; addi s1, s1, 1; blt s1, s3, the turn.
const NESTED: [u32; 18] = [
    0x0030_0593,
    0x0070_0693,
    0x0000_0413,
    0x3e80_0913,
    0x7d00_0993,
    0x0000_0493,
    0x02b5_0533,
    0x0015_0513,
    0x02d5_6633,
    0x02d5_47b3,
    0x00f6_2733,
    0x00e8_0833,
    0x0014_8493,
    0xff34_c2e3,
    0x0014_0413,
    0xfd24_4ce3,
    0x0400_0893,
    0x0000_0073,
];

// Turns of: ld a0, 0(sp); ld a1, 8(sp); sd a0, 16(sp); sd a1, 24(sp); ld a2, 32(sp); sd a2, 40(sp); addi t0, t0, 1;
// bne t0, t1, the turn.
const LONGS: [u32; 12] = [
    0x0020_0337,
    0xfc01_0113,
    0x0001_3503,
    0x0081_3583,
    0x00a1_3823,
    0x00b1_3c23,
    0x0201_3603,
    0x02c1_3423,
    0x0012_8293,
    0xfe62_92e3,
    0x0400_0893,
    0x0000_0073,
];

// Turns of: lw a0, 0(sp); sw a0, 4(sp); lhu a1, 8(sp); sh a1, 10(sp); lb a2, 12(sp); sb a2, 13(sp); addi t0, t0, 1;
// bne t0, t1, the turn.
const SHORTS: [u32; 12] = [
    0x0020_0337,
    0xfc01_0113,
    0x0001_2503,
    0x00a1_2223,
    0x0081_5583,
    0x00b1_1523,
    0x00c1_0603,
    0x00c1_06a3,
    0x0012_8293,
    0xfe62_92e3,
    0x0400_0893,
    0x0000_0073,
];

// 4,096 times a procedure that calls itself 900 deep, each with a frame of 64 bytes: addi sp, sp, -64; sd ra, 56(sp);
// sd a0, 48(sp); beq a0, zero, the last ld; addi a0, a0, -1; jal ra, itself; ld a0, 48(sp); ld ra, 56(sp);
// addi sp, sp, 64; jalr zero, 0(ra).
const CALLS: [u32; 17] = [
    0x0000_14b7,
    0x3840_0513,
    0x0140_00ef,
    0x0014_0413,
    0xfe94_1ae3,
    0x0400_0893,
    0x0000_0073,
    0xfc01_0113,
    0x0211_3c23,
    0x02a1_3823,
    0x0005_0863,
    0xfff5_0513,
    0xfedf_f0ef,
    0x0301_3503,
    0x0381_3083,
    0x0401_0113,
    0x0000_8067,
];

// The words of a loop.
fn code_of(alloc: Global, words: &[u32]) -> Result<CodeWords, NoMemory>
    ensures { IfOk result (λ code. code ≡ words.now) }
{
    let mut code = Sequence::new(alloc);
    for word in words {
        code.add(*word)?;
    }
    Ok(code)
}

// The image of a loop, with one line.
fn image_of(alloc: Global, words: &[u32]) -> Result<Image, NoMemory>
    requires some { 1 ≤ length words.now }
    requires few { length words.now < 2 ^ 32 }
{
    let code = code_of(alloc, words)?;
    let mut entries = Sequence::new(alloc);
    entries.add(0)?;
    let mut shapes = Sequence::new(alloc);
    shapes.add(Shape {
        size: 0,
        align: 1,
        cells: Cells::new(alloc),
    })?;
    let mut lines = Sequence::new(alloc);
    lines.add(LineAt { index: 0, line: 1 })?;
    Ok(build(ImageParts {
        code,
        entries,
        shapes,
        literals: Literals::new(alloc),
        lines,
    }))
}

// Runs a loop, and answers whether it came to its end.
fn ends(alloc: Global, words: &[u32]) -> Result<bool, NoMemory> {
    if words.is_empty() || words.len() > 99 {
        return Ok(false);
    }
    let image = image_of(alloc, words)?;
    let input = SureSource::new(Text::of(alloc, b"")?, 1);
    let ran = solo(alloc, image, input, SureSink::new(alloc), u64::MAX, 9);
    Ok(matches!(ran.ending, Ending::Ended { status: 0 }))
}

fn main(rt: HostRuntime) -> io::Result<()> {
    let alloc = rt.alloc();
    let arguments = env::args(&rt)?;
    let rounds = if arguments.len() < 2 { 1 } else { ROUNDS };
    let loops: [(&str, &[u32], u64); 5] = [
        ("a counting loop", &COUNTING, 6 * 4096 * 1024),
        ("multiply, divide, compare", &NESTED, 8 * 2_000_000),
        ("loads and stores of 8 bytes", &LONGS, 8 * 4096 * 512),
        ("loads and stores of 4, 2, 1", &SHORTS, 8 * 4096 * 512),
        ("calls 900 deep", &CALLS, 4096 * 9011),
    ];
    for (name, words, count) in loops {
        let mut least = u64::MAX;
        let mut ended = true;
        for _ in 0..rounds {
            let start = Instant::now(&rt)?;
            ended = ended && ends(alloc, words).unwrap_or(false);
            let taken = u64::try_from(start.elapsed(&rt)?.as_nanos()).unwrap_or(u64::MAX);
            least = least.min(taken);
        }
        if arguments.len() < 2 {
            println!(rt; "{name}: {ended}")?;
        } else {
            let picoseconds = least.saturating_mul(1000) / count.max(1);
            println!(rt; "{name}: {ended}, {picoseconds} picoseconds an instruction")?;
        }
    }
    Ok(())
}
