//! Each item that Print writes, with the column after it.
use fb_base::{NoMemory, Text};
use rt_text::{Item, item_bytes};
use std::alloc::Global;
use std::process::Abort;
use std::test::Fail;

// Compares what is written and the column then.
fn prints(
    rt: &impl Abort,
    printed: Result<(Text, u64), NoMemory>,
    bytes: &[u8],
    after: u64,
) -> Result<(), Fail> {
    let (text, column) = printed?;
    assert_eq!(rt; text.bytes(), bytes);
    assert_eq!(rt; column, after);
    Ok(())
}

#[test]
fn each_item_is_printed(rt: HostRuntime) -> Result<(), Fail> {
    let alloc: Global = rt.alloc();
    for (number, text, after) in [
        (0, " 0", 2),
        (21, " 21", 3),
        (u64::MAX, "-1", 2),
        (1 << 63, "-9223372036854775808", 20),
        ((1 << 63) - 1, " 9223372036854775807", 20),
    ] {
        let printed = item_bytes(alloc, 0, Item::Signed(number));
        prints(&rt, printed, text.as_bytes(), after)?;
    }
    for (number, text, after) in [(200, "200", 8), (u64::MAX, "18446744073709551615", 25)] {
        let printed = item_bytes(alloc, 5, Item::Unsigned(number));
        prints(&rt, printed, text.as_bytes(), after)?;
    }
    for (column, text, after) in [
        (3, "           ", 14),
        (13, " ", 14),
        (14, "              ", 28),
    ] {
        prints(
            &rt,
            item_bytes(alloc, column, Item::Tab),
            text.as_bytes(),
            after,
        )?;
    }
    prints(
        &rt,
        item_bytes(alloc, 14, Item::Signed(u64::MAX)),
        b"-1",
        16,
    )?;
    prints(&rt, item_bytes(alloc, 16, Item::Truth(true)), b"true", 20)?;
    prints(&rt, item_bytes(alloc, 1, Item::Truth(false)), b"false", 6)?;
    prints(&rt, item_bytes(alloc, 9, Item::Line), b"\n", 0)?;
    let text = Text::of(alloc, b"ab\ncde")?;
    prints(&rt, item_bytes(alloc, 9, Item::Bytes(text)), b"ab\ncde", 3)?;
    let empty = Text::of(alloc, b"")?;
    prints(&rt, item_bytes(alloc, 9, Item::Bytes(empty)), b"", 9)
}
