//! Compiled schemas, with what they look at of a document.
#![tactic(auto, using(jskw_value::proofs::DecimalTrees::lawful_tree))]

ghost use Rattle.std.specs.Prelude.{◌≡◌, true};
ghost use Rattle.jskw_wanted.specs.Seen.{Sees};
ghost use Rattle.jskw_documents.specs.Documents.{verdict_on};

use jskw_array::SchemaNode;
use jskw_report::ValidationContext;
use jskw_service::Verdict;
use jskw_text::{Level, TreeReader};
use jskw_value::DecimalJson;
use std::marker::Model;

/// A compiled schema, and what it looks at of a document. Contracts see it as the node of its schema.
#[derive(Debug)]
pub struct CompiledSchema {
    node: SchemaNode<DecimalJson>,
    wanted: Vec<Level>,
}

// Not derived: then each crate that has one would prove anew how all that a schema holds is dropped.
impl Drop for CompiledSchema {
    fn drop(self) {
        let CompiledSchema { node: _, wanted: _ } = self;
    }
}

impl Model for CompiledSchema {
    ghost use Rattle.jskw_report.specs.Keyword.{Schema};
    ghost use Rattle.jskw_report.specs.SchemaCode.{schema_code};
    ghost use Rattle.jskw_wanted.specs.Seen.{Sees};

    ghost Value = { Schema };

    ghost coded = { schema_code };

    ghost view = { λ c. c.node };

    ghost invariant = { λ c. Sees c.node c.wanted.items };
}

impl CompiledSchema {
    // Creates the schema of a node. `wanted` is what the schema looks at, or more.
    pub(crate) fn new(node: SchemaNode<DecimalJson>, wanted: Vec<Level>) -> CompiledSchema
        requires { Sees node wanted.items }
        ensures { result ≡ node }
    {
        CompiledSchema { node, wanted }
    }

    /// Returns the node.
    pub fn node(&self) -> &SchemaNode<DecimalJson>
        ensures { result.now ≡ self.now }
    {
        &self.node
    }

    // Returns whether a document is found to be valid by what the schema looks at of it, which is all
    // that is read. A schema that looks at all finds none.
    pub(crate) fn finds_valid(&self, document: &[u8], reader: &mut TreeReader) -> bool
        ensures { result ≡ true → verdict_on self.now document.now ≡ Verdict.Valid }
    {
        if let [Level::Whole] = self.wanted.as_slice() {
            return false;
        }
        let Ok(tree) = reader.read_wanted(document, &self.wanted) else {
            return false;
        };
        let is_valid = self.node.is_valid(&tree, &mut ValidationContext::new());
        reader.reuse(tree);
        is_valid
    }
}
