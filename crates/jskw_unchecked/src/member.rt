//! A member of a schema that is not checked.
ghost use Rattle.std.specs.Prelude.{◌≡◌};

use crate::reason::Reason;
use jskw_report::Location;

/// A member of a schema or of a subschema that is not checked.
#[derive(Debug, Drop)]
pub struct UncheckedMember {
    location: Location,
    reason: Reason,
}

impl UncheckedMember {
    // Creates it from these two parts.
    pub(crate) fn new(location: Location, reason: Reason) -> UncheckedMember
        ensures { result ≡ record { location = location; reason = reason } }
    {
        UncheckedMember { location, reason }
    }

    /// Returns the keyword location: that of the member in the whole schema (JSON Schema Core
    /// 12.3.1).
    pub fn location(&self) -> &Location
        ensures { result.now ≡ self.now.location }
    {
        &self.location
    }

    /// Returns why the member is not checked.
    pub fn reason(&self) -> Reason
        ensures { result ≡ self.now.reason }
    {
        self.reason
    }
}
