/// The most bytes that a program's text may have.
pub const MOST_TEXT_BYTES: usize = 1_048_576;

/// The most bytes that an image or a schedule file may have.
pub const MOST_FILE_BYTES: usize = 67_108_864;

/// The most tokens of a text.
pub const MOST_TOKENS: usize = 65_536;

/// The greatest depth of an expression, and of a statement or procedure.
pub const MOST_DEPTH: u32 = 200;

/// The most bytes of one Type, and of the place of a scope or a statement.
pub const MOST_PLACE_BYTES: u64 = 16_777_216;

/// The greatest weight of a procedure.
pub const MOST_WEIGHT: u64 = 4_000;

/// The most bytes of all places that are live together.
pub const MOST_LIVE_BYTES: u64 = 67_108_864;

/// The most bytes of one string.
pub const MOST_STRING_BYTES: usize = 16_777_216;

/// The most activations of a thread, the first included.
pub const MOST_ACTIVATIONS: u32 = 1_000;

/// The most threads that have not ended, the main thread included.
pub const MOST_THREADS: u32 = 256;

/// The most workers of a run; there is at least one.
pub const MOST_WORKERS: u64 = 16;

/// The workers of a run where the command line says nothing.
pub const USUAL_WORKERS: u64 = 4;

/// The most turns that a segment may be given; it is given at least one.
pub const MOST_TURNS: u64 = 1_000_000_000;

/// The turns of a segment where the command line says nothing.
pub const USUAL_TURNS: u64 = 10_000_000;

/// The most entries that a run may be given; it is given at least one.
pub const MOST_ENTRIES: u64 = 16_000_000;

/// The entries of a run where the command line says nothing.
pub const USUAL_ENTRIES: u64 = 1_000_000;

/// The greatest number that `load` takes; the least is 1.
pub const MOST_LOAD: u64 = 200;
