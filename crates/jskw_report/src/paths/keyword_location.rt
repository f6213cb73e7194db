//! The locations that a compiled schema keeps.
ghost use Rattle.std.specs.Prelude.{◌≡◌, ◌++◌, ◌∷◌, IfOk, IfSome, true};
ghost use Rattle.jskw_value.specs.Pointer.{escape, member_location};
ghost use Rattle.std.specs.Arc.{arc_str_bytes};

use super::short_text::ShortText;
use super::{Location, joined};
use std::alloc::{AllocError, Global};
use std::marker::Model;
use std::sync::ArcStr;

// A location of fewer bytes is kept as a text of its own.
const WHOLE: usize = 128;

/// The keyword location of a schema or of a keyword (JSON Schema Core 12.3.1), as a compiled schema
/// keeps it.
///
/// A location of fewer than 128 bytes is kept as a [`Location`]. Of a longer one the text of a schema
/// above is kept, which all that is below shares, and the few steps from there: many schemas at the
/// end of a deep one take no more memory than others. The text of such a location is made when an
/// error or an evaluation needs it.
#[derive(Debug)]
pub struct KeywordLocation {
    place: Place,
}

impl Drop for KeywordLocation {
    fn drop(self) {
        let KeywordLocation { place: _ } = self;
    }
}

#[derive(Debug, Drop)]
enum Place {
    // As a text.
    Whole(Location),
    // The location of a schema above, and what follows it: that first, so that nothing is left free
    // before it.
    Below(ShortText, ArcStr),
}

impl Model for KeywordLocation {
    ghost use Rattle.jskw_value.specs.Pointer.{Pointer};
    ghost use Rattle.jskw_report.specs.KeywordPlace.{place_location};

    ghost Value = { Pointer };

    ghost view = { λ l. place_location l.place };
}

impl From<Location> for KeywordLocation {
    ghost from_gives = { λ whole l. l ≡ whole };

    fn from(whole: Location) -> KeywordLocation {
        KeywordLocation {
            place: Place::Whole(whole),
        }
    }
}

impl KeywordLocation {
    // Returns whether the location that `step` leads to from `text` is kept as a text of its own.
    pub(crate) fn is_whole(text: &Location, step: &str) -> bool {
        text.as_str().len().saturating_add(step.len()) < WHOLE
    }

    /// Returns the location, if it is kept as a text of its own.
    #[inline(always)]
    pub(crate) fn whole(&self) -> Option<&Location>
        ensures { IfSome result (λ whole. whole.now ≡ self.now) }
    {
        match &self.place {
            Place::Whole(whole) => Some(whole),
            Place::Below(_, _) => None,
        }
    }

    /// Returns the location as a text.
    #[inline(always)]
    pub fn to_location(&self, alloc: Global) -> Result<Location, AllocError>
        ensures { IfOk result (λ l. l ≡ self.now) }
    {
        match &self.place {
            Place::Whole(whole) => whole.copy(),
            Place::Below(rest, above) => joined(alloc, above.as_str(), rest.as_str()),
        }
    }

    /// Returns a copy, which shares the texts.
    pub fn copy(&self) -> Result<KeywordLocation, AllocError>
        ensures { IfOk result (λ l. l ≡ self.now) }
    {
        let place = match &self.place {
            Place::Whole(whole) => Place::Whole(whole.copy()?),
            Place::Below(rest, above) => Place::Below(rest.copy(), above.clone()?),
        };
        Ok(KeywordLocation { place })
    }

    /// Returns true only if this is the location of the member `name`, in which nothing is to be
    /// escaped, of the schema at `schema`. Of a location that is kept in two parts it returns false.
    pub fn is_member(&self, schema: &Location, name: &str) -> bool
        requires { escape name.now ≡ name.now }
        ensures { result ≡ true → self.now ≡ member_location schema.now name.now }
    {
        match self.whole() {
            Some(whole) => is_joined(
                whole.as_str().as_bytes(),
                schema.as_str().as_bytes(),
                name.as_bytes(),
            ),
            None => false,
        }
    }

    // Returns the location that `step` leads to in two parts, or `None` if it is to be kept as a text
    // of its own. `text` is the text of this location.
    pub(crate) fn below(
        &self,
        text: &Location,
        step: &str,
    ) -> Result<Option<KeywordLocation>, AllocError>
        requires { text.now ≡ self.now }
        ensures { IfOk result (λ found. IfSome found (λ l. l ≡ self.now ++ step.now)) }
    {
        if KeywordLocation::is_whole(text, step) {
            return Ok(None);
        }
        if let Place::Below(rest, above) = &self.place {
            let mut rest = rest.copy();
            if rest.push_str(step) {
                return Ok(Some(in_parts(above, rest)?));
            }
        }
        match (text.text.shared(), ShortText::from(step)) {
            (Some(above), Some(rest)) => Ok(Some(in_parts(above, rest)?)),
            _ => Ok(None),
        }
    }
}

// Returns whether the text is that of `above`, a slash and `name`.
fn is_joined(text: &[u8], above: &[u8], name: &[u8]) -> bool
    ensures { result ≡ true → text.now ≡ above.now ++ 47 ∷ name.now }
{
    let Some(step) = text.strip_prefix(above) else {
        return false;
    };
    let Some(rest) = step.strip_prefix(b"/") else {
        return false;
    };
    rest == name
}

// Returns the location of two parts.
fn in_parts(above: &ArcStr, rest: ShortText) -> Result<KeywordLocation, AllocError>
    ensures { IfOk result (λ l. l ≡ arc_str_bytes above.now ++ rest) }
{
    Ok(KeywordLocation {
        place: Place::Below(rest, above.clone()?),
    })
}
