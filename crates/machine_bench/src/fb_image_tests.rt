ghost use Rattle.std.specs.Prelude.{◌<◌, ◌-◌, ◌^◌, length, IfOk};
ghost use Rattle.fb_image.specs.Format.{KeepsRules};

use fb_base::{Cells, ImageWhy, LineAt, NoMemory, Sequence, Shape};
use fb_image::{ImageErr, ImageParts, Literals, build, image_laws, read, write};
use std::alloc::Global;
use std::test::*;

/// The smallest image that ends: two instructions, one procedure, the place of shared variables, no literal, one line.
const SMALLEST: [u8; 60] = [
    0x46, 0x42, 0x52, 0x56, 1, 0, 0, 0, 2, 0, 0, 0, 1, 0, 0, 0, 1, 0, 0, 0, 0, 0, 0, 0, 1, 0, 0, 0,
    0x93, 0x08, 0x00, 0x04, 0x73, 0, 0, 0, 0, 0, 0, 0, 0, 0, 0, 0, 1, 0, 0, 0, 0, 0, 0, 0, 0, 0, 0,
    0, 1, 0, 0, 0,
];

/// An image of four code words, two procedures, three shapes with cells, two literals and three lines.
const LARGER: [u8; 134] = [
    0x46, 0x42, 0x52, 0x56, 1, 0, 0, 0, 4, 0, 0, 0, 2, 0, 0, 0, 3, 0, 0, 0, 2, 0, 0, 0, 3, 0, 0, 0,
    0x93, 0x08, 0x00, 0x04, 0x73, 0, 0, 0, 0x13, 0, 0, 0, 0xff, 0xff, 0xff, 0xff, 0, 0, 0, 0, 2, 0,
    0, 0, 0, 0, 0, 0, 1, 0, 0, 0, 0, 0, 0, 0, 32, 0, 0, 0, 8, 0, 0, 0, 1, 0, 0, 0, 8, 0, 0, 0, 72,
    0, 0, 0, 4, 0, 0, 0, 2, 0, 0, 0, 0, 0, 0, 0, 48, 0, 0, 0, 2, 0, 0, 0, 104, 105, 0, 0, 0, 0, 0,
    0, 0, 0, 1, 0, 0, 0, 1, 0, 0, 0, 3, 0, 0, 0, 3, 0, 0, 0, 7, 0, 0, 0,
];

/// Whether the bytes have this fault first, or none.
fn has_fault(alloc: Global, bytes: &[u8], expected: Option<(u32, ImageWhy)>) -> bool
    requires { length bytes.now < 2 ^ 32 - 1 }
{
    match (read(alloc, bytes), expected) {
        (Ok(_), None) => true,
        (Err(ImageErr::At { at, why }), Some((place, reason))) => at == place && why == reason,
        _ => false,
    }
}

/// Whether the bytes are an image, and a copy of it is written as they are.
fn is_spelling(alloc: Global, bytes: &[u8]) -> bool
    requires { length bytes.now < 2 ^ 32 - 1 }
{
    let Ok(image) = read(alloc, bytes) else {
        return false;
    };
    let Ok(copy) = image.copy(alloc) else {
        return false;
    };
    match write(alloc, &copy) {
        Ok(text) => text.bytes() == bytes,
        Err(_) => false,
    }
}

/// What another byte of the smallest image gives, for the bytes below each place: a fault, or an image.
const CHANGES: [(usize, Option<(u32, ImageWhy)>); 13] = [
    (4, Some((0, ImageWhy::Magic))),
    (8, Some((4, ImageWhy::Version))),
    (16, Some((60, ImageWhy::Short))),
    (20, Some((52, ImageWhy::ShapeRule))),
    (28, Some((60, ImageWhy::Short))),
    (36, None),
    (40, Some((36, ImageWhy::Entry))),
    (43, None),
    (44, Some((40, ImageWhy::ShapeRule))),
    (48, Some((44, ImageWhy::ShapeRule))),
    (52, Some((52, ImageWhy::ShapeRule))),
    (56, Some((52, ImageWhy::LineRule))),
    (60, None),
];

/// The bytes that give something else at a place.
const OTHERS: [(usize, u8, Option<(u32, ImageWhy)>); 16] = [
    (8, 0, Some((8, ImageWhy::Count))),
    (8, 1, Some((32, ImageWhy::Entry))),
    (8, 3, Some((48, ImageWhy::ShapeRule))),
    (8, 4, Some((52, ImageWhy::ShapeRule))),
    (12, 0, Some((12, ImageWhy::Count))),
    (12, 2, Some((48, ImageWhy::ShapeRule))),
    (12, 3, Some((52, ImageWhy::ShapeRule))),
    (16, 0, Some((16, ImageWhy::Count))),
    (20, 1, Some((56, ImageWhy::LineRule))),
    (24, 0, Some((24, ImageWhy::Count))),
    (36, 1, None),
    (43, 1, None),
    (44, 2, None),
    (44, 4, None),
    (44, 8, None),
    (56, 0, Some((56, ImageWhy::LineRule))),
];

fn fault_of_change(at: usize, byte: u8) -> Option<(u32, ImageWhy)> {
    for (place, other, fault) in OTHERS {
        if place == at && other == byte {
            return fault;
        }
    }
    for (end, fault) in CHANGES {
        if at < end {
            return fault;
        }
    }
    None
}

/// A place of the larger image, another number there, and the fault.
const FAULTS: [(usize, u32, u32, ImageWhy); 22] = [
    (0, 0x5652_4247, 0, ImageWhy::Magic),
    (4, 2, 4, ImageWhy::Version),
    (4, 0x0100_0001, 4, ImageWhy::Version),
    (16, 0, 16, ImageWhy::Count),
    (24, 0, 24, ImageWhy::Count),
    (48, 4, 48, ImageWhy::Entry),
    (64, 0, 64, ImageWhy::ShapeRule),
    (64, 16_777_224, 64, ImageWhy::ShapeRule),
    (64, 36, 68, ImageWhy::ShapeRule),
    (68, 16, 68, ImageWhy::ShapeRule),
    (68, 0, 68, ImageWhy::ShapeRule),
    (76, 4, 76, ImageWhy::ShapeRule),
    (76, 16, 76, ImageWhy::ShapeRule),
    (96, 16, 96, ImageWhy::ShapeRule),
    (100, 16_777_217, 100, ImageWhy::LiteralRule),
    (100, 16_777_216, 134, ImageWhy::Short),
    (110, 1, 110, ImageWhy::LineRule),
    (114, 0, 114, ImageWhy::LineRule),
    (118, 0, 118, ImageWhy::LineRule),
    (126, 4, 126, ImageWhy::LineRule),
    (8, 0xffff_ffff, 134, ImageWhy::Short),
    (20, 0xffff_ffff, 119, ImageWhy::LiteralRule),
];

#[test]
fn images_are_read_and_written_back(rt: HostRuntime) {
    assert!(rt; is_spelling(rt.alloc(), &SMALLEST));
    assert!(rt; is_spelling(rt.alloc(), &LARGER));
}

#[test]
fn each_change_of_a_byte_is_an_image_or_the_stated_fault(rt: HostRuntime) {
    for at in 0..60 {
        for byte in 0..=255 {
            if byte != SMALLEST[at] {
                let mut bytes = SMALLEST;
                bytes[at] = byte;
                let expected = fault_of_change(at, byte);
                assert!(rt;
                    has_fault(rt.alloc(), &bytes, expected),
                    "byte {at} as {byte}"
                );
                assert!(rt; is_spelling(rt.alloc(), &bytes) == expected.is_none());
            }
        }
    }
}

#[test]
fn cut_images_are_short_and_longer_ones_have_extra_bytes(rt: HostRuntime) {
    for k in 0..60 {
        assert!(rt;
            has_fault(
                rt.alloc(),
                &SMALLEST[..k],
                Some((k as u32, ImageWhy::Short))
            )
        );
    }
    for k in 0..134 {
        assert!(rt; has_fault(rt.alloc(), &LARGER[..k], Some((k as u32, ImageWhy::Short))));
    }
    let mut longer = [0; 61];
    longer[..60].copy_from_slice(&SMALLEST);
    assert!(rt; has_fault(rt.alloc(), &longer, Some((60, ImageWhy::Extra))));
}

#[test]
fn each_rule_has_its_reason_and_place(rt: HostRuntime) {
    for (place, number, at, why) in FAULTS {
        assert!(rt; place <= 130);
        let mut bytes = LARGER;
        bytes[place..place + 4].copy_from_slice(&number.to_le_bytes());
        assert!(rt;
            has_fault(rt.alloc(), &bytes, Some((at, why))),
            "{number} at {place}"
        );
    }
}

#[test]
fn an_image_has_its_parts(rt: HostRuntime) {
    let image = read(rt.alloc(), &LARGER)
        .ok()
        .expect(&rt, "the bytes are an image");
    assert!(rt; image.code() == [0x0400_0893, 0x73, 0x13, 0xffff_ffff].as_slice());
    for (proc, entry) in [(0, Some(0)), (1, Some(2)), (2, None)] {
        assert!(rt; image.entry(proc) == entry);
    }
    for (k, size) in [(0, Some(0)), (1, Some(32)), (2, Some(72)), (3, None)] {
        assert!(rt; image.shape(k).map(|shape| shape.size) == size);
    }
    for (k, len) in [(0, Some(2)), (1, Some(0)), (2, None)] {
        assert!(rt; image.literal(k).map(|bytes| bytes.len()) == len);
    }
    for (index, line) in [(0, 1), (1, 3), (2, 3), (3, 7), (4_294_967_295, 7)] {
        assert!(rt; image.line_of(index) == line);
    }
    assert!(rt; image.literals().len() == 2 && image.lines().len() == 3);
}

fn smallest_parts(alloc: Global) -> Result<ImageParts, NoMemory>
    ensures { IfOk result KeepsRules }
{
    let mut code = Sequence::new(alloc);
    code.add(0x0400_0893)?;
    code.add(0x73)?;
    let mut entries = Sequence::new(alloc);
    entries.add(0)?;
    let mut shapes = Sequence::new(alloc);
    shapes.add(Shape {
        size: 0,
        align: 1,
        cells: Cells::new(alloc),
    })?;
    let mut lines = Sequence::new(alloc);
    lines.add(LineAt { index: 0, line: 1 })?;
    Ok(ImageParts {
        code,
        entries,
        shapes,
        literals: Literals::new(alloc),
        lines,
    })
}

#[test]
fn an_image_is_built(rt: HostRuntime) {
    image_laws();
    let parts = smallest_parts(rt.alloc())
        .ok()
        .expect(&rt, "there is memory");
    let text = write(rt.alloc(), &build(parts))
        .ok()
        .expect(&rt, "there is memory");
    assert!(rt; text.bytes() == SMALLEST.as_slice());
}

#[test]
fn literals_are_numbered(rt: HostRuntime) {
    let mut literals = Literals::new(rt.alloc());
    assert!(rt; literals.is_empty());
    let first = literals.add(b"ab").ok().expect(&rt, "there is memory");
    assert!(rt; first == 0);
    assert!(rt; literals.get(0) == Some(b"ab".as_slice()));
}
