//! What a schema wants of an instance, level by level.
ghost use Rattle.std.specs.Prelude.{IfOk};
ghost use Rattle.serde_json.specs.View.{view};
ghost use Rattle.jskw_wanted.specs.Enough.{IsEnough};

use crate::asked::asked_by;
use jskw_text::Level;
use serde_json::Value;
use std::alloc::{AllocError, Global};

// How many levels are looked at. All is wanted of what nests deeper.
const MOST_LEVELS: usize = 32;

/// Returns what a schema wants of an instance, whatever the settings are that it is compiled under.
///
/// # Errors
///
/// Fails if memory runs out.
pub fn wanted(alloc: Global, schema: &Value) -> Result<Vec<Level>, AllocError>
    ensures { IfOk result (λ levels. IsEnough (view schema.now) levels.items) }
{
    let mut levels = Vec::new(alloc);
    let mut here = Vec::new(alloc);
    here.push(schema)?;
    'levels: for _ in 0..MOST_LEVELS {
        if here.as_slice().is_empty() {
            return Ok(levels);
        }
        let asked = asked_by(alloc, &here)?;
        if asked.is_whole {
            break;
        }
        levels.push(Level::Part(asked.has_text, asked.names))?;
        here = asked.below;
        if asked.are_items_whole {
            break;
        }
    }
    levels.push(Level::Whole)?;
    Ok(levels)
}
