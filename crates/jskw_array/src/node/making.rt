//! How nodes are made.
ghost use Rattle.std.specs.Prelude.{◌≡◌, ◌-◌};
ghost use Rattle.jskw_array.specs.Words.{IfOk, ShapeBegins, boolean_schema, keywords_of, marked, schema_object};

use super::{Assertions, Subschema};
use crate::accepted::Accepted;
use crate::part::{Part, some_part_delegates};
use jskw_number::QuickSet;
use jskw_report::KeywordLocation;
use jskw_value::Json;
use std::alloc::{AllocError, Global};

impl<F: Json> Subschema<F> {
    // Creates the node of a boolean schema. That of `true` has no keywords.
    pub(crate) fn of_boolean(
        alloc: Global,
        location: KeywordLocation,
        accepts: bool,
    ) -> Subschema<F>
        ensures { result ≡ boolean_schema location accepts }
    {
        let (accepted, assertions) = if accepts {
            (
                Accepted::of_values(QuickSet::all()),
                Assertions::Keywords(Vec::new(alloc)),
            )
        } else {
            (Accepted::of_values(QuickSet::none()), Assertions::Never)
        };
        Subschema {
            location,
            delegates: false,
            delegates_any: false,
            accepted,
            assertions,
        }
    }

    // Creates the node of a schema with these keywords. `delegates` is whether its own `required` is
    // delegated. Fails only if memory runs out.
    pub(crate) fn of_keywords(
        alloc: Global,
        location: KeywordLocation,
        delegates: bool,
        parts: Vec<Part<F>>,
    ) -> Result<Subschema<F>, AllocError>
        requires begins { ShapeBegins parts.items }
        ensures { IfOk result (λ node. node ≡ schema_object location (marked delegates parts.items)
            (keywords_of parts.items)) }
    {
        let delegates_any = delegates || some_part_delegates(parts.as_slice());
        let accepted = Accepted::by_parts(alloc, parts.as_slice())?;
        Ok(Subschema {
            location,
            delegates,
            delegates_any,
            accepted,
            assertions: Assertions::Keywords(parts),
        })
    }
}
