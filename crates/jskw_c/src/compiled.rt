//! Compiled schemas, as a type without parameters.
ghost use Rattle.std.specs.Arc.{arc_value};
ghost use Rattle.std.specs.Prelude.{◌≡◌, IfOk, IfErr, Ok, Some};
ghost use Rattle.jskw_value.specs.DecimalTree.{decimal_tree};
ghost use Rattle.jskw_text.specs.ReadFault.{IsFaultOf};
ghost use Rattle.jskw_text.specs.Reading.{reading};
ghost use Rattle.jskw_wanted.specs.Seen.{Sees};
ghost use Rattle.jskw_c.specs.Asked.{ReadsAlike};

use jskw_array::SchemaNode;
use jskw_text::{Level, ReadFault, TreeReader};
use jskw_value::{DecimalJson, DecimalTree};
use std::alloc::{AllocError, Global};
use std::marker::Model;
use std::sync::Arc;

// Of a longer instance, an owner keeps no room.
const LONGEST: usize = 65536;

/// An owner of a compiled schema over exact decimals. A schema has any number of
/// owners, in any threads, and is freed with the last. Each keeps the room of small instances for those
/// that it reads later. Contracts see an owner as the node of its schema.
#[derive(Debug, Drop)]
pub struct CompiledSchema {
    node: Arc<SchemaNode<DecimalJson>>,
    wanted: Arc<Vec<Level>>,
    reader: TreeReader,
}

impl Model for CompiledSchema {
    ghost use Rattle.jskw_report.specs.Keyword.{Schema};
    ghost use Rattle.jskw_report.specs.SchemaCode.{schema_code};
    ghost use Rattle.jskw_wanted.specs.Seen.{Sees};
    ghost use Rattle.std.specs.Arc.{arc_value};

    ghost Value = { Schema };

    ghost coded = { schema_code };

    ghost view = { λ c. arc_value c.node };

    ghost invariant = { λ c. Sees (arc_value c.node) (arc_value c.wanted).items };
}

impl CompiledSchema {
    /// Creates the first owner of the schema of a node, in a block of its own. `wanted` is what the
    /// schema looks at, or more.
    pub fn new(
        alloc: Global,
        node: SchemaNode<DecimalJson>,
        wanted: Vec<Level>,
    ) -> Result<Box<CompiledSchema>, AllocError>
        requires { Sees node wanted.items }
        ensures { IfOk result (λ owner. owner.value ≡ node) }
    {
        CompiledSchema::owning(alloc, Arc::new(alloc, node)?, Arc::new(alloc, wanted)?)
    }

    /// Creates one more owner of the schema, in a block of its own. Fails if memory runs out, or if
    /// the schema has 2^63 owners.
    pub fn share(&self, alloc: Global) -> Result<Box<CompiledSchema>, AllocError>
        ensures { IfOk result (λ owner. owner.value ≡ self.now) }
    {
        CompiledSchema::owning(
            alloc,
            Arc::try_clone(&self.node)?,
            Arc::try_clone(&self.wanted)?,
        )
    }

    // Creates the owner of a node, in a block of its own.
    fn owning(
        alloc: Global,
        node: Arc<SchemaNode<DecimalJson>>,
        wanted: Arc<Vec<Level>>,
    ) -> Result<Box<CompiledSchema>, AllocError>
        requires { Sees (arc_value node) (arc_value wanted).items }
        ensures { IfOk result (λ owner. owner.value ≡ arc_value node) }
    {
        let reader = TreeReader::keeping(alloc, LONGEST);
        Ok(Box::new(
            alloc,
            CompiledSchema {
                node,
                wanted,
                reader,
            },
        )?)
    }

    /// Reads the tree that an instance denotes.
    pub fn read(&mut self, instance: &[u8]) -> Result<DecimalTree, ReadFault>
        ensures tree { IfOk result (λ tree. reading instance.now ≡ Some (Ok (decimal_tree tree))) }
        ensures fault { IfErr result (IsFaultOf instance.now) }
        ensures kept { self.new ≡ self.old }
    {
        self.reader.read(instance)
    }

    /// Reads what the schema wants of the tree that an instance denotes. It is valid exactly where the
    /// whole tree is.
    pub fn read_wanted(&mut self, instance: &[u8]) -> Result<DecimalTree, ReadFault>
        ensures tree { IfOk result (λ tree.
            ReadsAlike self.old (decimal_tree tree) (reading instance.now)) }
        ensures fault { IfErr result (IsFaultOf instance.now) }
        ensures kept { self.new ≡ self.old }
    {
        self.reader.read_wanted(instance, self.wanted.as_slice())
    }

    /// Takes a tree that is no longer needed, so that later ones use its room.
    pub fn reuse(&mut self, tree: DecimalTree)
        ensures { self.new ≡ self.old }
    {
        self.reader.reuse(tree);
    }

    /// Returns the node.
    pub fn node(&self) -> &SchemaNode<DecimalJson>
        ensures { result.now ≡ self.now }
    {
        &self.node
    }
}
