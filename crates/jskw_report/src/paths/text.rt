//! The texts of locations: short ones lie in place, longer ones are shared.
ghost use Rattle.std.specs.Prelude.{◌≡◌, ◌++◌, [], IfOk, IfSome, OnOk, string_bytes, true, false};
ghost use Rattle.std.specs.Arc.{arc_str_bytes};
ghost use Rattle.jskw_value.specs.Pointer.{index_token};
ghost use Rattle.jskw_report.specs.LocationText.{text_bytes, written};

use super::short_text::ShortText;
use std::alloc::{AllocError, Global};
use std::sync::ArcStr;

// The text of a location.
#[derive(Debug, Drop)]
pub(super) enum LocationText {
    // At most 19 bytes, in place.
    Short(ShortText),
    // A text that copies share.
    Shared(ArcStr),
}

impl LocationText {
    // Returns the empty text.
    pub(super) fn empty() -> LocationText
        ensures { text_bytes result ≡ [] }
    {
        LocationText::Short(ShortText::new())
    }

    // Returns the text.
    #[inline(always)]
    pub(super) fn as_str(&self) -> &str
        ensures { result.now ≡ text_bytes self.now }
    {
        match self {
            LocationText::Short(text) => text.as_str(),
            LocationText::Shared(text) => text.as_str(),
        }
    }

    // Returns a copy of the text.
    #[inline(always)]
    pub(super) fn copy(&self) -> Result<LocationText, AllocError>
        ensures { IfOk result (λ copy. text_bytes copy ≡ text_bytes self.now) }
    {
        match self {
            LocationText::Short(text) => Ok(LocationText::Short(text.copy())),
            LocationText::Shared(text) => Ok(LocationText::Shared(text.clone()?)),
        }
    }

    // Returns the text, if it is a shared one.
    pub(super) fn shared(&self) -> Option<&ArcStr>
        ensures { IfSome result (λ text. arc_str_bytes text.now ≡ text_bytes self.now) }
    {
        match self {
            LocationText::Short(_) => None,
            LocationText::Shared(text) => Some(text),
        }
    }
}

// The text of a location, or of some steps, while it is written: in place as long as it is short.
#[derive(Drop)]
pub(crate) enum Writing {
    Short(ShortText),
    Long(String),
}

impl Writing {
    // Begins with nothing.
    pub(super) fn empty() -> Writing
        ensures { written result ≡ [] }
    {
        Writing::Short(ShortText::new())
    }

    // Begins with a text.
    pub(super) fn begin(alloc: Global, text: &str) -> Result<Writing, AllocError>
        ensures { IfOk result (λ w. written w ≡ text.now) }
    {
        match ShortText::from(text) {
            Some(short) => Ok(Writing::Short(short)),
            None => Ok(Writing::Long(longer(alloc, text)?)),
        }
    }

    // Begins with the text of a location.
    pub(super) fn begin_at(alloc: Global, text: &LocationText) -> Result<Writing, AllocError>
        ensures { IfOk result (λ w. written w ≡ text_bytes text.now) }
    {
        match text {
            LocationText::Short(text) => Ok(Writing::Short(text.copy())),
            LocationText::Shared(text) => Ok(Writing::Long(longer(alloc, text.as_str())?)),
        }
    }

    // Appends a part. If memory runs out, a beginning of the text is left.
    #[inline(always)]
    pub(super) fn push(&mut self, alloc: Global, part: &str) -> Result<(), AllocError>
        ensures { OnOk result (written self.new ≡ written self.old ++ part.now) }
    {
        if self.push_in_place(part) {
            return Ok(());
        }
        self.push_long(alloc, part)
    }

    // Appends a part to a text in place, if there is room for it. Returns whether there is.
    #[inline(always)]
    fn push_in_place(&mut self, part: &str) -> bool
        ensures appended { result ≡ true → written self.new ≡ written self.old ++ part.now }
        ensures unchanged { result ≡ false → written self.new ≡ written self.old }
    {
        match self {
            Writing::Short(text) => text.push_str(part),
            Writing::Long(_) => false,
        }
    }

    // Appends a part to a text that is not to be in place. If memory runs out, a beginning of the text
    // is left.
    #[inline(never)]
    fn push_long(&mut self, alloc: Global, part: &str) -> Result<(), AllocError>
        ensures { OnOk result (written self.new ≡ written self.old ++ part.now) }
    {
        match self {
            Writing::Long(text) => text.push_str(part),
            Writing::Short(text) => {
                let mut long = longer(alloc, text.as_str())?;
                long.push_str(part)?;
                *self = Writing::Long(long);
                Ok(())
            }
        }
    }

    // Appends the reference token of an item: a slash and the index in decimal digits (RFC 6901,
    // section 4). If memory runs out, a beginning of the text is left.
    pub(super) fn push_index(&mut self, alloc: Global, index: usize) -> Result<(), AllocError>
        ensures { OnOk result (written self.new ≡ written self.old ++ index_token index) }
    {
        let mut digits = itoa::Buffer::new();
        self.push(alloc, "/")?;
        self.push(alloc, digits.format(index))
    }

    // Returns what was written.
    pub(crate) fn as_str(&self) -> &str
        ensures { result.now ≡ written self.now }
    {
        match self {
            Writing::Short(text) => text.as_str(),
            Writing::Long(text) => text.as_str(),
        }
    }

    // Returns the location text of what was written.
    pub(super) fn finish(self) -> Result<LocationText, AllocError>
        ensures { IfOk result (λ text. text_bytes text ≡ written self) }
    {
        match self {
            Writing::Short(text) => Ok(LocationText::Short(text)),
            Writing::Long(text) => Ok(LocationText::Shared(ArcStr::from_string(text)?)),
        }
    }
}

// Returns a copy of the text with room for a step more.
fn longer(alloc: Global, text: &str) -> Result<String, AllocError>
    ensures { IfOk result (λ s. string_bytes s ≡ text.now) }
{
    let mut long = String::with_capacity(alloc, text.len().saturating_add(24))?;
    long.push_str(text)?;
    Ok(long)
}
