// What a decoder expected.

/// What a decoder expected instead of the value.
#[derive(Clone, Copy, Debug, PartialEq, Eq)]
pub enum Wanted {
    /// A string.
    Text,
    /// A boolean.
    Truth,
    /// A word of a table.
    Word,
    /// A set of words.
    Set,
    /// A list.
    List,
    /// An array.
    Row,
    /// An array that begins with a tag.
    Tagged,
    /// A further array element.
    FurtherPart,
    /// The end of the array.
    NothingMore,
    /// An integer from 0 to 255.
    Unsigned8,
    /// An integer from 0 to 65535.
    Unsigned16,
    /// An integer from 0 to 4294967295.
    Unsigned32,
    /// An integer from 0 to 18446744073709551615.
    Unsigned64,
    /// An integer from -32768 to 32767.
    Signed16,
    /// An integer from -2147483648 to 2147483647.
    Signed32,
    /// An integer from -9223372036854775808 to 9223372036854775807.
    Signed64,
    /// A handle, an integer from 0 to 4294967294.
    Handle,
    /// An integer from 1 to 4294967295.
    Count,
    /// 2, 3 or 4.
    VectorSize,
    /// 8 or 16.
    CooperativeSize,
    /// A built-in.
    BuiltIn,
    /// A string of four of the letters x, y, z and w.
    Letters,
    /// An item that the list does not have yet.
    Distinct,
    /// The version 1.
    Version,
    /// A value that is nested less deeply.
    Nesting,
}

impl Wanted {
    /// The text of the expectation.
    pub fn text(self) -> &'static str {
        match self {
            Wanted::Text => "a text",
            Wanted::Truth => "true or false",
            Wanted::Word => "a word of its set",
            Wanted::Set => "a set of words",
            Wanted::List => "a list",
            Wanted::Row => "an array",
            Wanted::Tagged => "an array that begins with a word",
            Wanted::FurtherPart => "a further part",
            Wanted::NothingMore => "no further part",
            Wanted::Unsigned8 => "a whole number up to 255",
            Wanted::Unsigned16 => "a whole number up to 65535",
            Wanted::Unsigned32 => "a whole number up to 4294967295",
            Wanted::Unsigned64 => "a whole number up to 18446744073709551615",
            Wanted::Signed16 => "a whole number from -32768 to 32767",
            Wanted::Signed32 => "a whole number from -2147483648 to 2147483647",
            Wanted::Signed64 => "a whole number from -9223372036854775808 to 9223372036854775807",
            Wanted::Handle => "a handle, a whole number up to 4294967294",
            Wanted::Count => "a whole number from 1 to 4294967295",
            Wanted::VectorSize => "2, 3 or 4",
            Wanted::CooperativeSize => "8 or 16",
            Wanted::BuiltIn => "a built-in",
            Wanted::Letters => "a text of four letters out of x, y, z and w",
            Wanted::Distinct => "what does not stand there yet",
            Wanted::Version => "the version 1",
            Wanted::Nesting => "what nests less deep",
        }
    }
}
