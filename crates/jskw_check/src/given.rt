//! What the arguments ask for.
ghost use Rattle.std.specs.Prelude.{◌≡◌};
ghost use Rattle.jskw_check.specs.CommandView.{unfinished_view};
ghost use Rattle.jskw_check.specs.Commands.{nothing_said};

use jskw_documents::{Options, Output, SchemaOptions};
use jskw_report::VocabularySet;
use std::alloc::Global;

// How many errors of a document are written at most, unless the arguments say so.
const MOST: usize = 1000;

// What the arguments ask for.
#[derive(Drop)]
pub(crate) enum Command {
    // The text of `--help`.
    Help,
    // The version.
    Version,
    // Nothing that can be done, and why.
    Wrong(String),
    // To check files.
    Check(Given),
}

// A schema, and the files to check.
#[derive(Drop)]
pub(crate) struct Given {
    pub(crate) schema: String,
    pub(crate) schema_options: SchemaOptions,
    pub(crate) options: Options,
    pub(crate) lines: bool,
    pub(crate) progress: bool,
    pub(crate) files: Vec<String>,
}

// What the arguments say that were read so far.
#[derive(Drop)]
pub(crate) struct Unfinished {
    pub(crate) schema: Option<String>,
    pub(crate) schema_options: SchemaOptions,
    pub(crate) options: Options,
    pub(crate) lines: bool,
    pub(crate) progress: bool,
    pub(crate) files: Vec<String>,
}

impl Unfinished {
    // Returns what no arguments say.
    pub(crate) fn new(alloc: Global) -> Unfinished
        ensures { unfinished_view result ≡ nothing_said }
    {
        Unfinished {
            schema: None,
            schema_options: SchemaOptions {
                draft: None,
                vocabularies: VocabularySet::all(),
                overridden: Vec::new(alloc),
                allow_unchecked: false,
            },
            options: Options {
                output: Output::Text,
                verbose: false,
                limit: MOST,
            },
            lines: false,
            progress: false,
            files: Vec::new(alloc),
        }
    }
}
