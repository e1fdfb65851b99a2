// Errors of a text, with their location.

/// A part of a text: the bytes from `start` on, before `end`.
#[derive(Clone, Copy)]
pub struct Extent {
    /// Its first byte.
    pub start: u32,
    /// The first byte after it.
    pub end: u32,
}

impl Extent {
    /// No bytes, at the beginning.
    pub const NONE: Extent = Extent { start: 0, end: 0 };

    /// From the start of this one to the end of the other.
    pub fn until(self, other: Extent) -> Extent {
        Extent {
            start: self.start,
            end: other.end,
        }
    }
}

/// Why no module was read.
#[derive(Clone, Copy, PartialEq, Eq)]
pub enum Cause {
    /// Out of memory.
    Memory,
    /// The text is not WGSL.
    Malformed,
    /// The IR can't express it, or the translation does not support it.
    Unsupported,
}

/// How the message quotes the part of the text that it is about.
#[derive(Clone, Copy, PartialEq, Eq)]
pub enum Quote {
    /// Not at all.
    Nothing,
    /// As a name, between `before` and `after`.
    Name,
    /// As the token found in place of the expected one.
    Found,
}

/// Why no module was read, and where.
#[derive(Clone, Copy)]
pub struct WgslError {
    /// The cause.
    pub cause: Cause,
    /// The message, or the part of it before the quotation.
    pub before: &'static str,
    /// How the part is quoted.
    pub quote: Quote,
    /// The message after the quotation.
    pub after: &'static str,
    /// The part of the text.
    pub extent: Extent,
}

impl WgslError {
    /// Out of memory.
    pub const MEMORY: WgslError = WgslError {
        cause: Cause::Memory,
        before: "out of memory",
        quote: Quote::Nothing,
        after: "",
        extent: Extent::NONE,
    };

    /// The text is not WGSL.
    pub fn malformed(before: &'static str, extent: Extent) -> WgslError {
        WgslError {
            cause: Cause::Malformed,
            before,
            quote: Quote::Nothing,
            after: "",
            extent,
        }
    }

    /// The text is not WGSL: the message quotes the name.
    pub fn of_name(before: &'static str, extent: Extent, after: &'static str) -> WgslError {
        WgslError {
            cause: Cause::Malformed,
            before,
            quote: Quote::Name,
            after,
            extent,
        }
    }

    /// Another token was expected.
    pub fn expected(wanted: &'static str, extent: Extent) -> WgslError {
        WgslError {
            cause: Cause::Malformed,
            before: wanted,
            quote: Quote::Found,
            after: "",
            extent,
        }
    }

    /// The translation does not support it.
    pub fn unsupported(what: &'static str, extent: Extent) -> WgslError {
        WgslError {
            cause: Cause::Unsupported,
            before: what,
            quote: Quote::Nothing,
            after: "",
            extent,
        }
    }

    /// The translation does not support what the name denotes.
    pub fn unsupported_name(what: &'static str, extent: Extent) -> WgslError {
        WgslError {
            cause: Cause::Unsupported,
            before: what,
            quote: Quote::Name,
            after: "",
            extent,
        }
    }
}
