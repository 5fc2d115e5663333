//! Why bytes are no image.

ghost use Rattle.std.specs.Prelude.{◌≡◌};
ghost use Rattle.fb_image.specs.declared.fault.ReadErr.TheVariants.{NoMemory as WantOfMemory};

use fb_base::ImageWhy;
use std::alloc::{AllocError, AllocFailed};

/// Why an image couldn't be read.
#[derive(Clone, Copy, Debug, PartialEq, Eq)]
pub enum ImageErr {
    /// Memory ran out.
    NoMemory,
    /// The bytes are no image: where their first fault stands, counted from 0, and what it is.
    At { at: u32, why: ImageWhy },
}

/// What stops a reader: want of memory, or a fault and how many bytes there are from its first one to the end.
#[derive(Debug, Drop)]
pub enum ReadErr {
    NoMemory,
    At { left: usize, why: ImageWhy },
}

impl From<AllocError> for ReadErr {
    ghost from_gives = { λ _ e. e ≡ WantOfMemory };

    fn from(_: AllocError) -> ReadErr {
        ReadErr::NoMemory
    }
}

impl<T: Drop> From<AllocFailed<T>> for ReadErr {
    ghost from_gives = { λ _ e. e ≡ WantOfMemory };

    fn from(_: AllocFailed<T>) -> ReadErr {
        ReadErr::NoMemory
    }
}

impl From<fb_base::NoMemory> for ReadErr {
    ghost from_gives = { λ _ e. e ≡ WantOfMemory };

    fn from(_: fb_base::NoMemory) -> ReadErr {
        ReadErr::NoMemory
    }
}
