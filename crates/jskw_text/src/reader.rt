//! Texts that are read one after another.
ghost use Rattle.std.specs.Prelude.{◌≡◌, Some, Ok, IfOk, IfErr};
ghost use Rattle.jskw_value.specs.DecimalTree.{decimal_tree};
ghost use Rattle.jskw_text.specs.ReadFault.{IsFaultOf};
ghost use Rattle.jskw_text.specs.Reading.{reading};
ghost use Rattle.jskw_text.specs.Wanted.{IsRead};

use crate::fault::ReadFault;
use crate::spare::{Spare, free};
use crate::tree::read_with;
use crate::wanted::Level;
use jskw_value::DecimalTree;
use json::Scratch;
use std::alloc::Global;
use std::fmt;

// The longest text whose room is kept.
const LONGEST: usize = 1_000_000;

/// Reads texts one after another. It keeps up to 4 MB of the room of trees that are no longer needed,
/// and the room that a refused text is read with, of a long text neither.
#[derive(Drop)]
pub struct TreeReader {
    alloc: Global,
    spare: Spare,
    // What a refused text is read with.
    scratch: Option<Box<Scratch>>,
    // The most bytes of a text whose room is kept.
    longest: usize,
    // Whether the text that was read last has more.
    is_long: bool,
}

impl fmt::Debug for TreeReader {
    fn fmt<W: fmt::Write>(&self, f: &mut fmt::Formatter<W>) -> fmt::Result {
        f.debug_struct("TreeReader").finish_non_exhaustive()
    }
}

impl TreeReader {
    /// Creates a reader whose trees are allocated with `alloc`. It keeps the room of texts of up to
    /// 1,000,000 bytes.
    pub fn new(alloc: Global) -> TreeReader {
        TreeReader::keeping(alloc, LONGEST)
    }

    /// Creates a reader that keeps the room of texts of up to `longest` bytes.
    pub fn keeping(alloc: Global, longest: usize) -> TreeReader {
        TreeReader {
            alloc,
            spare: Spare::new(alloc),
            scratch: None,
            longest,
            is_long: false,
        }
    }

    /// Reads the tree that bytes denote as JSON text, as [`read_bytes`](crate::read_bytes) does.
    ///
    /// # Errors
    ///
    /// The same as those of [`read_bytes`](crate::read_bytes).
    pub fn read(&mut self, bytes: &[u8]) -> Result<DecimalTree, ReadFault>
        ensures tree { IfOk result (λ tree. reading bytes.now ≡ Some (Ok (decimal_tree tree))) }
        ensures fault { IfErr result (IsFaultOf bytes.now) }
    {
        self.read_wanted(bytes, &[Level::Whole])
    }

    /// Reads what is wanted of the tree that bytes denote as JSON text. What is not wanted may be there,
    /// or may be left out, but all of the text is looked at.
    ///
    /// # Errors
    ///
    /// The same as those of [`read_bytes`](crate::read_bytes).
    pub fn read_wanted(&mut self, bytes: &[u8], wanted: &[Level]) -> Result<DecimalTree, ReadFault>
        ensures tree { IfOk result (λ tree. IsRead wanted.now (decimal_tree tree) (reading bytes.now)) }
        ensures fault { IfErr result (IsFaultOf bytes.now) }
    {
        self.is_long = bytes.len() > self.longest;
        let tree = read_with(
            self.alloc,
            bytes,
            wanted,
            &mut self.spare,
            &mut self.scratch,
        );
        if self.is_long {
            self.scratch = None;
        }
        tree
    }

    /// Takes a tree that is no longer needed. Trees that are read later use its room, so that it need
    /// not be freed and allocated again.
    pub fn reuse(&mut self, tree: DecimalTree) {
        if self.is_long {
            self.spare = Spare::new(self.alloc);
            free(tree);
        } else {
            self.spare.take(tree);
        }
    }
}
