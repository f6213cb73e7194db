//! Why a text is refused.
ghost use Rattle.std.specs.Prelude.{◌≡◌};
ghost use Rattle.jskw_text.specs.NotJsonReason.{reason_word, reason_sentence};

use std::fmt;

/// Why bytes are refused that are not JSON, or are JSON that this library does not read.
#[derive(Clone, Copy, Debug, PartialEq, Eq)]
pub enum NotJsonReason {
    /// The bytes are not UTF-8.
    NotUtf8,
    /// The text begins with a byte order mark.
    ByteOrderMark,
    /// The text ends before its value does, and not within a string, number or word.
    EarlyEnd,
    /// There is more behind the value.
    MoreText,
    /// A comma where none may be.
    Comma,
    /// A comma is missing between two items or members.
    MissingComma,
    /// The end of an array or object comes behind a comma.
    TrailingComma,
    /// A colon where none may be.
    Colon,
    /// The colon behind a name is missing.
    MissingColon,
    /// The name of a member does not begin with a quote.
    Name,
    /// A closing bracket or brace where none may be.
    Bracket,
    /// A word that is neither `true`, `false` nor `null`, nor like a number.
    Word,
    /// A number in a form that JSON does not have, such as `01`, `1.` or `+1`.
    Number,
    /// A string without the quote at its end.
    UnclosedString,
    /// A string has a character below U+0020 that is not escaped.
    ControlCharacter,
    /// A string has a backslash that begins no escape.
    Escape,
    /// A string has the escape of a lone surrogate, which JSON allows.
    LoneSurrogate,
    /// Arrays and objects nest deeper than 127 levels, which JSON allows.
    TooDeep,
}

impl NotJsonReason {
    /// Returns the name of the reason as one word, such as `missingComma`: that of the variant, with a
    /// small letter first.
    pub fn as_str(self) -> &'static str
        ensures { result.now ≡ reason_word self }
    {
        match self {
            NotJsonReason::NotUtf8 => "notUtf8",
            NotJsonReason::ByteOrderMark => "byteOrderMark",
            NotJsonReason::EarlyEnd => "earlyEnd",
            NotJsonReason::MoreText => "moreText",
            NotJsonReason::Comma => "comma",
            NotJsonReason::MissingComma => "missingComma",
            NotJsonReason::TrailingComma => "trailingComma",
            NotJsonReason::Colon => "colon",
            NotJsonReason::MissingColon => "missingColon",
            NotJsonReason::Name => "name",
            NotJsonReason::Bracket => "bracket",
            NotJsonReason::Word => "word",
            NotJsonReason::Number => "number",
            NotJsonReason::UnclosedString => "unclosedString",
            NotJsonReason::ControlCharacter => "controlCharacter",
            NotJsonReason::Escape => "escape",
            NotJsonReason::LoneSurrogate => "loneSurrogate",
            NotJsonReason::TooDeep => "tooDeep",
        }
    }

    /// Returns the reason for people, as a sentence without a subject or a full stop: `not JSON: a comma
    /// is missing`.
    pub fn sentence(self) -> &'static str
        ensures { result.now ≡ reason_sentence self }
    {
        match self {
            NotJsonReason::NotUtf8 => "not JSON: the bytes are not UTF-8",
            NotJsonReason::ByteOrderMark => "not JSON: the text begins with a byte order mark",
            NotJsonReason::EarlyEnd => "not JSON: the text ends too early",
            NotJsonReason::MoreText => "not JSON: there is more behind the value",
            NotJsonReason::Comma => "not JSON: a comma where a value should be",
            NotJsonReason::MissingComma => "not JSON: a comma is missing",
            NotJsonReason::TrailingComma =>
                "not JSON: a comma before the end of an array or object",
            NotJsonReason::Colon => "not JSON: a colon where none may be",
            NotJsonReason::MissingColon => "not JSON: a colon is missing behind a name",
            NotJsonReason::Name => "not JSON: a name must be in double quotes",
            NotJsonReason::Bracket => "not JSON: a closing bracket where none may be",
            NotJsonReason::Word => "not JSON: a word that is not true, false or null",
            NotJsonReason::Number => "not JSON: a number in a form that JSON does not have",
            NotJsonReason::UnclosedString => "not JSON: a string without its closing quote",
            NotJsonReason::ControlCharacter => "not JSON: a control character in a string",
            NotJsonReason::Escape => "not JSON: an escape that JSON does not have",
            NotJsonReason::LoneSurrogate => {
                "has the escape of a lone surrogate, which JSON allows and jskw does not"
            }
            NotJsonReason::TooDeep =>
                "nests more than 127 levels, which JSON allows and jskw does not",
        }
    }
}

impl fmt::Display for NotJsonReason {
    ghost use Rattle.std.specs.Prelude.{Some};

    ghost output = { λ r. Some (reason_sentence r) };

    fn fmt<W: fmt::Write>(&self, f: &mut fmt::Formatter<W>) -> fmt::Result {
        f.write_str(self.sentence())
    }
}
