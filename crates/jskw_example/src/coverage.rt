//! What a schema says that is not checked.
use crate::value_of;
use lotsibegn::{Context, Draft, SerdeJson, Settings, Value, VocabularySet, unchecked};
use std::io;

const SCHEMA: &str =
    r#"{"type": "object", "properties": {"age": {"minimum": 0}}, "requird": ["age"]}"#;

// Prints the members of a schema that are not checked.
pub(crate) fn print_example(rt: &HostRuntime) -> io::Result<()> {
    print_unchecked(rt, &value_of(rt.alloc(), SCHEMA)?)
}

// Prints each member of a schema that is not checked, and why.
fn print_unchecked(rt: &HostRuntime, schema: &Value) -> io::Result<()> {
    let alloc = rt.alloc();
    let settings = Settings::new(Draft::Draft202012, VocabularySet::all(), Vec::new(alloc));
    let root: Context<SerdeJson> = Context::new(alloc, &settings);
    let list = unchecked(alloc, &root.with_object_layer(false), schema)?;
    for member in &list {
        let (at, reason) = (member.location().as_str(), member.reason().as_str());
        println!(rt; "not checked: {at} ({reason})")?;
    }
    Ok(())
}
