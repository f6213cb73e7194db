//! A compiled schema, and how documents are answered.
use crate::compiled::CompiledSchema;
use crate::options::Options;

/// What documents are checked against, and how they are answered.
#[derive(Debug, Drop)]
pub struct Checker {
    /// The compiled schema.
    pub schema: CompiledSchema,
    /// How documents are answered.
    pub options: Options,
}
