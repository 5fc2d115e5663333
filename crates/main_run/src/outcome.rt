use fb_base::{Ending, Schedule};

/// How the run of an image's main thread ended, with what was handed in.
#[derive(Drop)]
pub struct Solo<S, K> {
    /// Ended, Trapped, TurnsSpent, EntriesSpent, WriteFault with Out, or NoMemory.
    pub ending: Ending,
    /// The thread of each entry that was made, which is 0.
    pub schedule: Schedule,
    pub input: S,
    pub out: K,
}
