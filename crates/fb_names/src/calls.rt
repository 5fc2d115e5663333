ghost use Rattle.std.specs.Prelude.{◌≡◌, ◌==◌, ℕ, Some, find};
ghost use Rattle.fb_names.specs.Calls.{all_calls, call_name, call_number, call_of};

/// A call of the runtime. Its number stands in register 17 at an ECALL.
#[derive(Clone, Copy, Debug, PartialEq, Eq)]
pub enum RuntimeCall {
    /// 1: makes a place of a scope.
    PlaceOpen,
    /// 2: frees it.
    PlaceFree,
    /// 3: notes that an object was made.
    ObjMade,
    /// 4: closes the bytes of an object.
    ObjDead,
    /// 5: makes a place for New.
    NewPlace,
    /// 6: begins to free a place of New.
    DeleteBegin,
    /// 7: frees it.
    DeleteEnd,
    /// 10: makes an empty string.
    StrInit,
    /// 11: drops a string.
    StrDrop,
    /// 12: makes a string of a literal.
    StrLit,
    /// 13: makes a copy of a string.
    StrCopy,
    /// 14: makes a string of two.
    StrCat,
    /// 15: sets a string to another.
    StrSet,
    /// 16: compares two strings.
    StrCmp,
    /// 17: gives the length of a string.
    StrLen,
    /// 18: makes a string of the first bytes.
    StrLeft,
    /// 19: makes a string of the last bytes.
    StrRight,
    /// 20: makes a string of the bytes from a position on.
    StrMid,
    /// 21: makes a string of one byte.
    StrChr,
    /// 22: gives a byte of a string, 0 where there is none.
    StrAsc,
    /// 23: makes the decimal text of a signed number.
    StrSigned,
    /// 24: makes the decimal text of an unsigned number.
    StrUnsigned,
    /// 25: gives the number that a string begins with.
    StrVal,
    /// 26: gives where a string stands in another.
    StrFind,
    /// 27: makes a copy in capital letters.
    StrUpper,
    /// 28: makes a copy in small letters.
    StrLower,
    /// 29: makes a string of spaces.
    StrSpace,
    /// 30: makes a copy without the spaces in front.
    StrLTrim,
    /// 31: makes a copy without the spaces at the end.
    StrRTrim,
    /// 32: gives a byte of a string.
    StrGet,
    /// 33: sets a byte of a string.
    StrPut,
    /// 40: prints a signed number.
    PrintSigned,
    /// 41: prints an unsigned number.
    PrintUnsigned,
    /// 42: prints a Boolean.
    PrintBool,
    /// 43: prints a string.
    PrintStr,
    /// 44: prints spaces up to the next column.
    PrintTab,
    /// 45: prints a line end.
    PrintLine,
    /// 46: sets a string to the next line of the input.
    LineInput,
    /// 50: creates a thread.
    ThreadCreate,
    /// 51: waits for the end of a thread.
    ThreadWait,
    /// 52: gives the number of a thread up.
    ThreadDetach,
    /// 53: ends the thread.
    ThreadEnd,
    /// 54: creates a mutex.
    MutexCreate,
    /// 55: takes a mutex, or waits for it.
    MutexLock,
    /// 56: gives a mutex up.
    MutexUnlock,
    /// 57: destroys a mutex.
    MutexDestroy,
    /// 58: creates a condition.
    CondCreate,
    /// 59: waits in a condition.
    CondWait,
    /// 60: wakes the first that waits in a condition.
    CondSignal,
    /// 61: wakes all that wait in a condition.
    CondBroadcast,
    /// 62: destroys a condition.
    CondDestroy,
    /// 63: changes nothing.
    Sleep,
    /// 64: ends the main module.
    MainEnd,
    /// 65: ends the run with a status.
    End,
    /// 70: traps with the kind of a number.
    Trap,
}

/// Every call, in the order of the numbers.
static CALLS: [RuntimeCall; 55] = [
    RuntimeCall::PlaceOpen,
    RuntimeCall::PlaceFree,
    RuntimeCall::ObjMade,
    RuntimeCall::ObjDead,
    RuntimeCall::NewPlace,
    RuntimeCall::DeleteBegin,
    RuntimeCall::DeleteEnd,
    RuntimeCall::StrInit,
    RuntimeCall::StrDrop,
    RuntimeCall::StrLit,
    RuntimeCall::StrCopy,
    RuntimeCall::StrCat,
    RuntimeCall::StrSet,
    RuntimeCall::StrCmp,
    RuntimeCall::StrLen,
    RuntimeCall::StrLeft,
    RuntimeCall::StrRight,
    RuntimeCall::StrMid,
    RuntimeCall::StrChr,
    RuntimeCall::StrAsc,
    RuntimeCall::StrSigned,
    RuntimeCall::StrUnsigned,
    RuntimeCall::StrVal,
    RuntimeCall::StrFind,
    RuntimeCall::StrUpper,
    RuntimeCall::StrLower,
    RuntimeCall::StrSpace,
    RuntimeCall::StrLTrim,
    RuntimeCall::StrRTrim,
    RuntimeCall::StrGet,
    RuntimeCall::StrPut,
    RuntimeCall::PrintSigned,
    RuntimeCall::PrintUnsigned,
    RuntimeCall::PrintBool,
    RuntimeCall::PrintStr,
    RuntimeCall::PrintTab,
    RuntimeCall::PrintLine,
    RuntimeCall::LineInput,
    RuntimeCall::ThreadCreate,
    RuntimeCall::ThreadWait,
    RuntimeCall::ThreadDetach,
    RuntimeCall::ThreadEnd,
    RuntimeCall::MutexCreate,
    RuntimeCall::MutexLock,
    RuntimeCall::MutexUnlock,
    RuntimeCall::MutexDestroy,
    RuntimeCall::CondCreate,
    RuntimeCall::CondWait,
    RuntimeCall::CondSignal,
    RuntimeCall::CondBroadcast,
    RuntimeCall::CondDestroy,
    RuntimeCall::Sleep,
    RuntimeCall::MainEnd,
    RuntimeCall::End,
    RuntimeCall::Trap,
];

impl RuntimeCall {
    /// Every call, in the order of the numbers.
    pub fn all() -> &'static [RuntimeCall]
        ensures { result.now ≡ all_calls }
    {
        CALLS.as_slice()
    }

    /// The call's number.
    pub fn number(self) -> u8
        ensures { result ≡ call_number self }
    {
        match self {
            RuntimeCall::PlaceOpen => 1,
            RuntimeCall::PlaceFree => 2,
            RuntimeCall::ObjMade => 3,
            RuntimeCall::ObjDead => 4,
            RuntimeCall::NewPlace => 5,
            RuntimeCall::DeleteBegin => 6,
            RuntimeCall::DeleteEnd => 7,
            RuntimeCall::StrInit => 10,
            RuntimeCall::StrDrop => 11,
            RuntimeCall::StrLit => 12,
            RuntimeCall::StrCopy => 13,
            RuntimeCall::StrCat => 14,
            RuntimeCall::StrSet => 15,
            RuntimeCall::StrCmp => 16,
            RuntimeCall::StrLen => 17,
            RuntimeCall::StrLeft => 18,
            RuntimeCall::StrRight => 19,
            RuntimeCall::StrMid => 20,
            RuntimeCall::StrChr => 21,
            RuntimeCall::StrAsc => 22,
            RuntimeCall::StrSigned => 23,
            RuntimeCall::StrUnsigned => 24,
            RuntimeCall::StrVal => 25,
            RuntimeCall::StrFind => 26,
            RuntimeCall::StrUpper => 27,
            RuntimeCall::StrLower => 28,
            RuntimeCall::StrSpace => 29,
            RuntimeCall::StrLTrim => 30,
            RuntimeCall::StrRTrim => 31,
            RuntimeCall::StrGet => 32,
            RuntimeCall::StrPut => 33,
            RuntimeCall::PrintSigned => 40,
            RuntimeCall::PrintUnsigned => 41,
            RuntimeCall::PrintBool => 42,
            RuntimeCall::PrintStr => 43,
            RuntimeCall::PrintTab => 44,
            RuntimeCall::PrintLine => 45,
            RuntimeCall::LineInput => 46,
            RuntimeCall::ThreadCreate => 50,
            RuntimeCall::ThreadWait => 51,
            RuntimeCall::ThreadDetach => 52,
            RuntimeCall::ThreadEnd => 53,
            RuntimeCall::MutexCreate => 54,
            RuntimeCall::MutexLock => 55,
            RuntimeCall::MutexUnlock => 56,
            RuntimeCall::MutexDestroy => 57,
            RuntimeCall::CondCreate => 58,
            RuntimeCall::CondWait => 59,
            RuntimeCall::CondSignal => 60,
            RuntimeCall::CondBroadcast => 61,
            RuntimeCall::CondDestroy => 62,
            RuntimeCall::Sleep => 63,
            RuntimeCall::MainEnd => 64,
            RuntimeCall::End => 65,
            RuntimeCall::Trap => 70,
        }
    }

    /// The call's name, as it stands in a trace.
    pub fn name(self) -> &'static str
        ensures { result.now ≡ call_name self }
    {
        match self {
            RuntimeCall::PlaceOpen => "PlaceOpen",
            RuntimeCall::PlaceFree => "PlaceFree",
            RuntimeCall::ObjMade => "ObjMade",
            RuntimeCall::ObjDead => "ObjDead",
            RuntimeCall::NewPlace => "NewPlace",
            RuntimeCall::DeleteBegin => "DeleteBegin",
            RuntimeCall::DeleteEnd => "DeleteEnd",
            RuntimeCall::StrInit => "StrInit",
            RuntimeCall::StrDrop => "StrDrop",
            RuntimeCall::StrLit => "StrLit",
            RuntimeCall::StrCopy => "StrCopy",
            RuntimeCall::StrCat => "StrCat",
            RuntimeCall::StrSet => "StrSet",
            RuntimeCall::StrCmp => "StrCmp",
            RuntimeCall::StrLen => "StrLen",
            RuntimeCall::StrLeft => "StrLeft",
            RuntimeCall::StrRight => "StrRight",
            RuntimeCall::StrMid => "StrMid",
            RuntimeCall::StrChr => "StrChr",
            RuntimeCall::StrAsc => "StrAsc",
            RuntimeCall::StrSigned => "StrSigned",
            RuntimeCall::StrUnsigned => "StrUnsigned",
            RuntimeCall::StrVal => "StrVal",
            RuntimeCall::StrFind => "StrFind",
            RuntimeCall::StrUpper => "StrUpper",
            RuntimeCall::StrLower => "StrLower",
            RuntimeCall::StrSpace => "StrSpace",
            RuntimeCall::StrLTrim => "StrLTrim",
            RuntimeCall::StrRTrim => "StrRTrim",
            RuntimeCall::StrGet => "StrGet",
            RuntimeCall::StrPut => "StrPut",
            RuntimeCall::PrintSigned => "PrintSigned",
            RuntimeCall::PrintUnsigned => "PrintUnsigned",
            RuntimeCall::PrintBool => "PrintBool",
            RuntimeCall::PrintStr => "PrintStr",
            RuntimeCall::PrintTab => "PrintTab",
            RuntimeCall::PrintLine => "PrintLine",
            RuntimeCall::LineInput => "LineInput",
            RuntimeCall::ThreadCreate => "ThreadCreate",
            RuntimeCall::ThreadWait => "ThreadWait",
            RuntimeCall::ThreadDetach => "ThreadDetach",
            RuntimeCall::ThreadEnd => "ThreadEnd",
            RuntimeCall::MutexCreate => "MutexCreate",
            RuntimeCall::MutexLock => "MutexLock",
            RuntimeCall::MutexUnlock => "MutexUnlock",
            RuntimeCall::MutexDestroy => "MutexDestroy",
            RuntimeCall::CondCreate => "CondCreate",
            RuntimeCall::CondWait => "CondWait",
            RuntimeCall::CondSignal => "CondSignal",
            RuntimeCall::CondBroadcast => "CondBroadcast",
            RuntimeCall::CondDestroy => "CondDestroy",
            RuntimeCall::Sleep => "Sleep",
            RuntimeCall::MainEnd => "MainEnd",
            RuntimeCall::End => "End",
            RuntimeCall::Trap => "Trap",
        }
    }

    /// The call of a number, if there is one.
    pub fn of_number(number: u64) -> Option<RuntimeCall>
        ensures { result ≡ call_of number }
    {
        call_in(RuntimeCall::all(), number)
    }
}

/// The first of these calls that has the number.
fn call_in(calls: &[RuntimeCall], number: u64) -> Option<RuntimeCall>
    ensures { result ≡ find (λ call. call_number call == number) calls.now }
{
    calls
        .iter()
        .copied()
        .find(|call| u64::from(call.number()) == number)
}

/// A law, which does nothing when it runs: numbers and calls belong to each other, so no two calls share a number.
pub fn call_numbers()
    ensures found { (call : RuntimeCall) → call_of (call_number call) ≡ Some call }
    ensures only { (number : ℕ) (call : RuntimeCall) → call_of number ≡ Some call → call_number call ≡ number }
{}
