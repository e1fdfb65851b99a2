// Keywords and reserved words.

use crate::lookup::find;

/// The lexical class of a word.
#[derive(Clone, Copy, PartialEq, Eq)]
pub enum Keyword {
    /// An identifier.
    None,
    /// A reserved word.
    Reserved,
    /// `_`.
    Underscore,
    /// A word that begins with `__`.
    ReservedPrefix,
    /// `alias`.
    Alias,
    /// `break`.
    Break,
    /// `case`.
    Case,
    /// `const`.
    Const,
    /// `const_assert`.
    ConstAssert,
    /// `continue`.
    Continue,
    /// `continuing`.
    Continuing,
    /// `default`.
    Default,
    /// `diagnostic`.
    Diagnostic,
    /// `discard`.
    Discard,
    /// `else`.
    Else,
    /// `enable`.
    Enable,
    /// `false`.
    False,
    /// `fn`.
    Fn,
    /// `for`.
    For,
    /// `if`.
    If,
    /// `let`.
    Let,
    /// `loop`.
    Loop,
    /// `override`.
    Override,
    /// `requires`.
    Requires,
    /// `return`.
    Return,
    /// `struct`.
    Struct,
    /// `switch`.
    Switch,
    /// `true`.
    True,
    /// `var`.
    Var,
    /// `while`.
    While,
}

static KEYWORDS: [(&str, Keyword); 26] = [
    ("alias", Keyword::Alias),
    ("break", Keyword::Break),
    ("case", Keyword::Case),
    ("const", Keyword::Const),
    ("const_assert", Keyword::ConstAssert),
    ("continue", Keyword::Continue),
    ("continuing", Keyword::Continuing),
    ("default", Keyword::Default),
    ("diagnostic", Keyword::Diagnostic),
    ("discard", Keyword::Discard),
    ("else", Keyword::Else),
    ("enable", Keyword::Enable),
    ("false", Keyword::False),
    ("fn", Keyword::Fn),
    ("for", Keyword::For),
    ("if", Keyword::If),
    ("let", Keyword::Let),
    ("loop", Keyword::Loop),
    ("override", Keyword::Override),
    ("requires", Keyword::Requires),
    ("return", Keyword::Return),
    ("struct", Keyword::Struct),
    ("switch", Keyword::Switch),
    ("true", Keyword::True),
    ("var", Keyword::Var),
    ("while", Keyword::While),
];

static RESERVED: [(&str, ()); 146] = [
    ("NULL", ()),
    ("Self", ()),
    ("abstract", ()),
    ("active", ()),
    ("alignas", ()),
    ("alignof", ()),
    ("as", ()),
    ("asm", ()),
    ("asm_fragment", ()),
    ("async", ()),
    ("attribute", ()),
    ("auto", ()),
    ("await", ()),
    ("become", ()),
    ("cast", ()),
    ("catch", ()),
    ("class", ()),
    ("co_await", ()),
    ("co_return", ()),
    ("co_yield", ()),
    ("coherent", ()),
    ("column_major", ()),
    ("common", ()),
    ("compile", ()),
    ("compile_fragment", ()),
    ("concept", ()),
    ("const_cast", ()),
    ("consteval", ()),
    ("constexpr", ()),
    ("constinit", ()),
    ("crate", ()),
    ("debugger", ()),
    ("decltype", ()),
    ("delete", ()),
    ("demote", ()),
    ("demote_to_helper", ()),
    ("do", ()),
    ("dynamic_cast", ()),
    ("enum", ()),
    ("explicit", ()),
    ("export", ()),
    ("extends", ()),
    ("extern", ()),
    ("external", ()),
    ("fallthrough", ()),
    ("filter", ()),
    ("final", ()),
    ("finally", ()),
    ("friend", ()),
    ("from", ()),
    ("fxgroup", ()),
    ("get", ()),
    ("goto", ()),
    ("groupshared", ()),
    ("highp", ()),
    ("impl", ()),
    ("implements", ()),
    ("import", ()),
    ("inline", ()),
    ("instanceof", ()),
    ("interface", ()),
    ("layout", ()),
    ("lowp", ()),
    ("macro", ()),
    ("macro_rules", ()),
    ("match", ()),
    ("mediump", ()),
    ("meta", ()),
    ("mod", ()),
    ("module", ()),
    ("move", ()),
    ("mut", ()),
    ("mutable", ()),
    ("namespace", ()),
    ("new", ()),
    ("nil", ()),
    ("noexcept", ()),
    ("noinline", ()),
    ("nointerpolation", ()),
    ("non_coherent", ()),
    ("noncoherent", ()),
    ("noperspective", ()),
    ("null", ()),
    ("nullptr", ()),
    ("of", ()),
    ("operator", ()),
    ("package", ()),
    ("packoffset", ()),
    ("partition", ()),
    ("pass", ()),
    ("patch", ()),
    ("pixelfragment", ()),
    ("precise", ()),
    ("precision", ()),
    ("premerge", ()),
    ("priv", ()),
    ("protected", ()),
    ("pub", ()),
    ("public", ()),
    ("readonly", ()),
    ("ref", ()),
    ("regardless", ()),
    ("register", ()),
    ("reinterpret_cast", ()),
    ("require", ()),
    ("resource", ()),
    ("restrict", ()),
    ("self", ()),
    ("set", ()),
    ("shared", ()),
    ("sizeof", ()),
    ("smooth", ()),
    ("snorm", ()),
    ("static", ()),
    ("static_assert", ()),
    ("static_cast", ()),
    ("std", ()),
    ("subroutine", ()),
    ("super", ()),
    ("target", ()),
    ("template", ()),
    ("this", ()),
    ("thread_local", ()),
    ("throw", ()),
    ("trait", ()),
    ("try", ()),
    ("type", ()),
    ("typedef", ()),
    ("typeid", ()),
    ("typename", ()),
    ("typeof", ()),
    ("union", ()),
    ("unless", ()),
    ("unorm", ()),
    ("unsafe", ()),
    ("unsized", ()),
    ("use", ()),
    ("using", ()),
    ("varying", ()),
    ("virtual", ()),
    ("volatile", ()),
    ("wgsl", ()),
    ("where", ()),
    ("with", ()),
    ("writeonly", ()),
    ("yield", ()),
];

/// The lexical class of a word.
pub fn keyword_of(word: &[u8]) -> Keyword {
    match word {
        [b'_'] => return Keyword::Underscore,
        [b'_', b'_', ..] => return Keyword::ReservedPrefix,
        _ => {}
    }
    match find(&KEYWORDS, word) {
        Some(keyword) => keyword,
        None if find(&RESERVED, word).is_some() => Keyword::Reserved,
        None => Keyword::None,
    }
}
