ghost use Rattle.std.specs.Prelude.{◌≡◌};
ghost use Rattle.fb_names.specs.Kinds.{fault_name, fault_number, image_name, trap_name, trap_number, trap_of};

use fb_base::{FaultKind, ImageWhy, TrapKind};

/// The name of a text's fault, as messages have it.
pub fn fault_name(kind: FaultKind) -> &'static str
    ensures { result.now ≡ fault_name kind }
{
    match kind {
        FaultKind::BadByte => "BadByte",
        FaultKind::OpenText => "OpenText",
        FaultKind::OpenComment => "OpenComment",
        FaultKind::BigNumber => "BigNumber",
        FaultKind::Expected => "Expected",
        FaultKind::ExtraText => "ExtraText",
        FaultKind::Unknown => "Unknown",
        FaultKind::Twice => "Twice",
        FaultKind::NotAType => "NotAType",
        FaultKind::NotAProc => "NotAProc",
        FaultKind::NoMatch => "NoMatch",
        FaultKind::Ambiguous => "Ambiguous",
        FaultKind::BadConvert => "BadConvert",
        FaultKind::NotAPlace => "NotAPlace",
        FaultKind::BadExit => "BadExit",
        FaultKind::BadBounds => "BadBounds",
        FaultKind::NoDefault => "NoDefault",
        FaultKind::MixedReturn => "MixedReturn",
        FaultKind::OutOfProfile => "OutOfProfile",
        FaultKind::ProcTooLarge => "ProcTooLarge",
        FaultKind::TooManyTokens => "TooManyTokens",
        FaultKind::DeepNesting => "DeepNesting",
        FaultKind::TypeCycle => "TypeCycle",
        FaultKind::BigPlace => "BigPlace",
    }
}

/// The number of a text's fault: of two at one place the lower comes first.
pub fn fault_number(kind: FaultKind) -> u8
    ensures { result ≡ fault_number kind }
{
    match kind {
        FaultKind::BadByte => 1,
        FaultKind::OpenText => 2,
        FaultKind::OpenComment => 3,
        FaultKind::BigNumber => 4,
        FaultKind::Expected => 5,
        FaultKind::ExtraText => 6,
        FaultKind::Unknown => 7,
        FaultKind::Twice => 8,
        FaultKind::NotAType => 9,
        FaultKind::NotAProc => 10,
        FaultKind::NoMatch => 11,
        FaultKind::Ambiguous => 12,
        FaultKind::BadConvert => 13,
        FaultKind::NotAPlace => 14,
        FaultKind::BadExit => 15,
        FaultKind::BadBounds => 16,
        FaultKind::NoDefault => 17,
        FaultKind::MixedReturn => 18,
        FaultKind::OutOfProfile => 19,
        FaultKind::ProcTooLarge => 20,
        FaultKind::TooManyTokens => 21,
        FaultKind::DeepNesting => 22,
        FaultKind::TypeCycle => 23,
        FaultKind::BigPlace => 24,
    }
}

/// The name of a trap, as messages and traces have it.
pub fn trap_name(kind: TrapKind) -> &'static str
    ensures { result.now ≡ trap_name kind }
{
    match kind {
        TrapKind::BadPointer => "BadPointer",
        TrapKind::BadFree => "BadFree",
        TrapKind::DivZero => "DivZero",
        TrapKind::Bounds => "Bounds",
        TrapKind::StrIndex => "StrIndex",
        TrapKind::BadString => "BadString",
        TrapKind::StrLimit => "StrLimit",
        TrapKind::BadHandle => "BadHandle",
        TrapKind::Depth => "Depth",
        TrapKind::PlaceLimit => "PlaceLimit",
        TrapKind::BadCode => "BadCode",
    }
}

/// The number of a trap, which the call Trap is given.
pub fn trap_number(kind: TrapKind) -> u8
    ensures { result ≡ trap_number kind }
{
    match kind {
        TrapKind::BadPointer => 1,
        TrapKind::BadFree => 2,
        TrapKind::DivZero => 3,
        TrapKind::Bounds => 4,
        TrapKind::StrIndex => 5,
        TrapKind::BadString => 6,
        TrapKind::StrLimit => 7,
        TrapKind::BadHandle => 8,
        TrapKind::Depth => 9,
        TrapKind::PlaceLimit => 10,
        TrapKind::BadCode => 11,
    }
}

/// The trap of a number, if there is one.
pub fn trap_of(number: u64) -> Option<TrapKind>
    ensures { result ≡ trap_of number }
{
    match number {
        1 => Some(TrapKind::BadPointer),
        2 => Some(TrapKind::BadFree),
        3 => Some(TrapKind::DivZero),
        4 => Some(TrapKind::Bounds),
        5 => Some(TrapKind::StrIndex),
        6 => Some(TrapKind::BadString),
        7 => Some(TrapKind::StrLimit),
        8 => Some(TrapKind::BadHandle),
        9 => Some(TrapKind::Depth),
        10 => Some(TrapKind::PlaceLimit),
        11 => Some(TrapKind::BadCode),
        _ => None,
    }
}

/// The name of what is wrong with an image, as messages have it.
pub fn image_name(kind: ImageWhy) -> &'static str
    ensures { result.now ≡ image_name kind }
{
    match kind {
        ImageWhy::Magic => "Magic",
        ImageWhy::Version => "Version",
        ImageWhy::Count => "Count",
        ImageWhy::Entry => "Entry",
        ImageWhy::ShapeRule => "ShapeRule",
        ImageWhy::LiteralRule => "LiteralRule",
        ImageWhy::LineRule => "LineRule",
        ImageWhy::Short => "Short",
        ImageWhy::Extra => "Extra",
    }
}
