use crate::fault::{Fault, TrapKind};
use crate::text::Text;

/// The stream that a write fault came from.
#[derive(Clone, Copy, Debug, PartialEq, Eq)]
pub enum WhichSink {
    /// The program's output.
    Out,
    /// The messages.
    Err,
}

/// What is wrong with a command line.
#[derive(Clone, Copy, Debug, PartialEq, Eq)]
pub enum UsageWhy {
    /// The words aren't a command.
    Words,
    /// A number isn't a row of decimal digits, or is outside its range.
    BadNumber,
    /// A number of workers is given beside a schedule to replay.
    Excluded,
    /// The command or the option is part of the language of commands, and isn't built yet.
    NotBuilt,
}

/// What is wrong with the bytes of an image.
#[derive(Clone, Copy, Debug, PartialEq, Eq)]
pub enum ImageWhy {
    /// The first four bytes.
    Magic,
    /// The next four, which have the version.
    Version,
    /// A count of which there has to be at least one.
    Count,
    /// A procedure's first word.
    Entry,
    /// A shape.
    ShapeRule,
    /// A literal.
    LiteralRule,
    /// The line table.
    LineRule,
    /// The bytes end too early.
    Short,
    /// Bytes follow the end.
    Extra,
}

/// How a command ended.
#[derive(Debug, Drop)]
pub enum Ending {
    /// The program ended, with this status.
    Ended {
        status: u8,
    },
    /// A thread was stopped by a trap, at this line of the text.
    Trapped {
        kind: TrapKind,
        line: u32,
        thread: u32,
    },
    /// A thread came to one turn above those that a segment may take, at this line of the text.
    TurnsSpent {
        thread: u32,
        line: u32,
    },
    /// As many entries were made as a run may have, and the program goes on.
    EntriesSpent {
        limit: u32,
    },
    /// A stream took no more bytes.
    WriteFault {
        sink: WhichSink,
    },
    /// The command line is faulty.
    Usage {
        why: UsageWhy,
    },
    /// There is no file of this name.
    NoFile {
        name: Text,
    },
    /// The file of this name has more bytes than are read.
    TooLong {
        name: Text,
    },
    /// A file couldn't be read.
    StoreFault,
    /// Memory ran out.
    NoMemory,
    /// The text isn't a program of this profile; its first fault.
    Refused {
        fault: Fault,
    },
}
