//! How documents are answered.

/// What is written of a document.
#[derive(Clone, Copy, Debug, PartialEq, Eq)]
pub enum Output {
    /// A line for each error.
    Text,
    /// A line of JSON for each document, as the basic output has it (JSON Schema Core 12.4.2).
    Basic,
    /// Nothing, unless the document could not be checked.
    Quiet,
}

/// How documents are answered.
#[derive(Clone, Copy, Debug, PartialEq, Eq)]
pub struct Options {
    /// What is written of each document.
    pub output: Output,
    /// Whether [`Output::Text`] says of a valid document that it is valid.
    pub verbose: bool,
    /// How many errors of a document are written at most; 0 for all.
    pub limit: usize,
}
