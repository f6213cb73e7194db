//! What is wanted of the value that a text denotes, level by level.
ghost use Rattle.std.specs.Prelude.{◌≡◌, map, string_bytes};
ghost use Rattle.std.specs.Set.{is_member};
ghost use Rattle.std.specs.Str.{bytes_eq};
ghost use Rattle.jskw_text.specs.Wanted.{is_name_wanted, is_text_wanted, of_items, of_values, wants_name};

use jskw_value::is_same_name;

/// What is wanted of a value. Its type, and its value if it is a number or a boolean, always are. A list
/// of levels says what is wanted of a value, of the items of an array, of their items, and so on; behind
/// its end nothing more is.
#[derive(Debug, Drop)]
pub enum Level {
    /// All of it. What the levels below say counts no more.
    Whole,
    /// The text of a string, if the mark is true. How many items an array has, and of these what the next
    /// level says. Which of the names an object has, but not its values.
    Part(bool, Names),
}

/// Names of an object.
#[derive(Debug, Drop)]
pub enum Names {
    /// All of them.
    All,
    /// Those of the list.
    Those(Vec<String>),
}

impl Names {
    /// Returns whether a name is one of them.
    #[inline(always)]
    pub fn has(&self, name: &str) -> bool
        ensures { result ≡ wants_name self.now name.now }
    {
        match self {
            Names::All => true,
            Names::Those(names) => is_among(names, name),
        }
    }
}

// Returns whether a name is one of these.
#[inline(always)]
fn is_among(names: &[String], name: &str) -> bool
    ensures { result ≡ is_member bytes_eq (map string_bytes names.now) name.now }
{
    'names: for one in names {
        if is_same_name(name, one.as_str()) {
            return true;
        }
    }
    false
}

// Returns whether the text of a string is wanted.
#[inline(always)]
pub(crate) fn is_text_wanted(wanted: &[Level]) -> bool
    ensures { result ≡ is_text_wanted wanted.now }
{
    match wanted {
        [Level::Whole, ..] => true,
        [Level::Part(text, _), ..] => *text,
        [] => false,
    }
}

// Returns what is wanted of the items of an array.
#[inline(always)]
pub(crate) fn below(wanted: &[Level]) -> &[Level]
    ensures { result.now ≡ of_items wanted.now }
{
    match wanted {
        [Level::Part(..), rest @ ..] => rest,
        _ => wanted,
    }
}

// Returns what is wanted of the values of an object.
#[inline(always)]
pub(crate) fn of_values(wanted: &[Level]) -> &[Level]
    ensures { result.now ≡ of_values wanted.now }
{
    match wanted {
        [Level::Whole, ..] => wanted,
        _ => &[],
    }
}

// Returns whether a name of an object is wanted.
#[inline(always)]
pub(crate) fn is_name_wanted(wanted: &[Level], name: &str) -> bool
    ensures { result ≡ is_name_wanted wanted.now name.now }
{
    match wanted {
        [Level::Whole, ..] => true,
        [Level::Part(_, names), ..] => names.has(name),
        [] => false,
    }
}
