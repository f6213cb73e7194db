//! The statuses that calls return. `include/jskw.h` and `specs/Status.antt` have the same numbers; those of
//! `jskw_answer` are from `jskw_service::status`.

/// The instance is valid. For `jskw_compile`: the handle has the schema.
pub(crate) const VALID: u32 = 0;
/// The instance has errors.
pub(crate) const INVALID: u32 = 1;
/// The schema or the instance is not JSON.
pub(crate) const NOT_JSON: u32 = 3;
/// The instance contains a number that is not exact.
pub(crate) const INEXACT: u32 = 4;
/// The schema does not compile.
pub(crate) const BAD_SCHEMA: u32 = 5;
/// There is no such draft or set of vocabularies, or the overridden names are not an array of
/// strings.
pub(crate) const BAD_SETTING: u32 = 6;
/// The handle has no schema.
pub(crate) const NO_SCHEMA: u32 = 7;
/// Memory ran out.
pub(crate) const NO_MEMORY: u32 = 8;
/// The buffer is too small for the text.
pub(crate) const TOO_SMALL: u32 = 9;
