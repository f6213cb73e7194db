//! Locations in schemas and instances: JSON pointers (RFC 6901).
ghost use Rattle.std.specs.Prelude.{◌≡◌, ◌-◌, List, ℕ, [], ◌∷◌, ◌++◌, IfOk, OnOk, OnErr, length};
ghost use Rattle.std.specs.Prelude.{take, string_bytes};
ghost use Rattle.jskw_value.specs.Pointer.{escape, member_location, name_token};
ghost use Rattle.jskw_report.specs.LocationText.{written};
ghost use Rattle.jskw_report.specs.Paths.{segment_location, segment_token, path_of};

mod keyword_location;
mod short_text;
mod text;

use jskw_value::pointer::push_name;
pub use keyword_location::KeywordLocation;
use std::alloc::{AllocError, Global};
use std::marker::Model;
use text::{LocationText, Writing};

/// One step of a location: into a member of an object by its name, or into an item of an array by
/// its index.
#[derive(Clone, Copy, Debug, PartialEq, Eq)]
pub enum LocationSegment<'s> {
    /// The member with this name.
    Name(&'s str),
    /// The item at this index, counted from 0.
    Index(usize),
}

/// A location in a JSON value, as a JSON pointer (RFC 6901). The empty text is the location of the
/// whole value. Two locations are equal if their texts are.
///
/// A text of up to 19 bytes takes no memory of its own; copies share a longer one.
#[derive(Debug)]
pub struct Location {
    text: LocationText,
}

impl Drop for Location {
    fn drop(self) {
        let Location { text: _ } = self;
    }
}

impl Model for Location {
    ghost use Rattle.jskw_value.specs.Pointer.{Pointer};
    ghost use Rattle.jskw_report.specs.LocationText.{text_bytes};

    ghost Value = { Pointer };

    ghost view = { λ l. text_bytes l.text };
}

impl Location {
    /// Returns the location of the whole value: the empty pointer.
    pub fn new(alloc: Global) -> Location
        ensures { result ≡ [] }
    {
        let _ = alloc;
        Location {
            text: LocationText::empty(),
        }
    }

    /// Returns the pointer as text.
    pub fn as_str(&self) -> &str
        ensures { result.now ≡ self.now }
    {
        self.text.as_str()
    }

    /// Returns the location one step further down: the text of this one, a slash, and the name or
    /// index of `segment`. In a name, `~` is written `~0` and `/` is written `~1` (RFC 6901,
    /// section 3).
    pub fn join(&self, alloc: Global, segment: LocationSegment) -> Result<Location, AllocError>
        ensures { IfOk result (λ l. l ≡ segment_location self.now segment.entry) }
    {
        self.join_text(alloc, step(alloc, segment)?.as_str())
    }

    // Returns the location that a step leads to: the text of this one, and that of the step.
    #[inline(always)]
    pub(crate) fn join_text(&self, alloc: Global, step: &str) -> Result<Location, AllocError>
        ensures { IfOk result (λ l. l ≡ self.now ++ step.now) }
    {
        let mut text = Writing::begin_at(alloc, &self.text)?;
        text.push(alloc, step)?;
        Ok(Location {
            text: text.finish()?,
        })
    }

    /// Returns a copy of the location, which shares its text if that is long.
    #[inline(always)]
    pub fn copy(&self) -> Result<Location, AllocError>
        ensures { IfOk result (λ l. l ≡ self.now) }
    {
        Ok(Location {
            text: self.text.copy()?,
        })
    }
}

impl PartialEq for Location {
    ghost use Rattle.std.specs.Str.{bytes_eq};
    ghost use Rattle.std.proofs.Common.{rules};
    ghost use Rattle.std.specs.Cmp.Rules.{comparing};

    ghost eq = { bytes_eq };

    ghost laws = { Prim.search (comparing, rules) };

    fn eq(&self, other: &Location) -> bool {
        self.as_str() == other.as_str()
    }
}

impl Eq for Location {
    ghost use Rattle.std.proofs.Common.{rules};
    ghost use Rattle.std.specs.Cmp.Rules.{comparing};

    ghost laws = { Prim.search (comparing, rules) };
}

/// The instance location of the item that is being validated, as a stack of indices.
///
/// The text of the pointer is built only if an error or a node of an evaluation needs it. The stack
/// has no names: the keywords of this library apply subschemas to items, never to members. It keeps
/// the allocator that it was created with.
#[derive(Debug, Drop)]
pub struct LazyLocation {
    indices: Vec<usize>,
}

impl Model for LazyLocation {
    ghost use Rattle.std.specs.Prelude.{ℕ, List};

    ghost Value = { List ℕ };

    ghost view = { λ l. l.indices.items };
}

impl LazyLocation {
    /// Returns the location of the whole instance.
    pub fn new(alloc: Global) -> LazyLocation
        ensures { result ≡ [] }
    {
        LazyLocation {
            indices: Vec::new(alloc),
        }
    }

    /// Adds an index: goes down to that item. If memory runs out, the location is unchanged.
    pub fn push(&mut self, index: usize) -> Result<(), AllocError>
        ensures pushed { OnOk result (self.new ≡ self.old ++ index ∷ []) }
        ensures unchanged { OnErr result (self.new ≡ self.old) }
    {
        self.indices.push(index)?;
        Ok(())
    }

    /// Removes the last index: goes back up from the item. Does nothing at the whole instance.
    pub fn pop(&mut self)
        ensures { self.new ≡ take (length self.old - 1) self.old }
    {
        let _ = self.indices.pop();
    }

    /// Returns the location as a JSON pointer, the index of the outermost array first.
    #[tactic(auto, using(crate::proofs::Pointers::path_of_push))]
    pub fn render(&self) -> Result<Location, AllocError>
        ensures { IfOk result (λ l. l ≡ path_of self.now) }
    {
        let alloc = self.alloc();
        let mut text = Writing::empty();
        for index in &self.indices {
            text.push_index(alloc, *index)?;
        }
        Ok(Location {
            text: text.finish()?,
        })
    }

    // Returns the allocator.
    pub(crate) fn alloc(&self) -> Global {
        *self.indices.allocator()
    }
}

// Returns the location whose text is that of the two.
#[inline(never)]
fn joined(alloc: Global, above: &str, rest: &str) -> Result<Location, AllocError>
    ensures { IfOk result (λ l. l ≡ above.now ++ rest.now) }
{
    let mut text = Writing::begin(alloc, above)?;
    text.push(alloc, rest)?;
    Ok(Location {
        text: text.finish()?,
    })
}

// Returns the text of a step: a slash, and the name, escaped, or the index (RFC 6901, section 3).
pub(crate) fn step(alloc: Global, segment: LocationSegment) -> Result<Writing, AllocError>
    ensures { IfOk result (λ w. written w ≡ segment_token segment.entry) }
{
    match segment {
        LocationSegment::Name(name) => {
            let mut token = String::new(alloc);
            push_name(&mut token, name)?;
            Ok(Writing::Long(token))
        }
        LocationSegment::Index(index) => {
            let mut token = Writing::empty();
            token.push_index(alloc, index)?;
            Ok(token)
        }
    }
}

// Returns the text of the step into the member of this name, in which nothing is to be escaped.
pub(crate) fn name_step(alloc: Global, name: &str) -> Result<Writing, AllocError>
    requires { escape name.now ≡ name.now }
    ensures { IfOk result (λ w. written w ≡ name_token name.now) }
{
    let mut token = Writing::begin(alloc, "/")?;
    token.push(alloc, name)?;
    Ok(token)
}
