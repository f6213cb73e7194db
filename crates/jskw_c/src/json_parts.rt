//! Parts of JSON texts.
ghost use Rattle.std.specs.Prelude.{◌≡◌, ◌++◌, OnOk, decimal};
ghost use Rattle.json.specs.Print.{quoted};
ghost use Rattle.jskw_c.specs.Evaluated.{boolean_text, comma_if};

use jskw_service::push_bytes;
use serde_json::Value;
use std::alloc::{AllocError, Global};

// Appends a comma, if an item is before.
pub(crate) fn push_comma(text: &mut Vec<u8>, later: bool) -> Result<(), AllocError>
    ensures { OnOk result (text.new.items ≡ text.old.items ++ comma_if later) }
{
    if later {
        push_bytes(text, b",")?;
    }
    Ok(())
}

pub(crate) fn push_boolean(text: &mut Vec<u8>, value: bool) -> Result<(), AllocError>
    ensures { OnOk result (text.new.items ≡ text.old.items ++ boolean_text value) }
{
    if value {
        push_bytes(text, b"true")
    } else {
        push_bytes(text, b"false")
    }
}

pub(crate) fn push_number(
    alloc: Global,
    text: &mut Vec<u8>,
    number: usize,
) -> Result<(), AllocError>
    ensures { OnOk result (text.new.items ≡ text.old.items ++ decimal number) }
{
    let digits = format!(in alloc; "{number}")?;
    push_bytes(text, digits.as_bytes())
}

// Appends a string in quotes.
pub(crate) fn push_string(alloc: Global, text: &mut Vec<u8>, value: &str) -> Result<(), AllocError>
    ensures { OnOk result (text.new.items ≡ text.old.items ++ quoted value.now) }
{
    let value = Value::String(String::from_str(alloc, value)?);
    let quoted = value.to_string(alloc)?;
    push_bytes(text, quoted.as_bytes())
}
