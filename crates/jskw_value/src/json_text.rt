//! The compact JSON text of a node. Each function keeps what the text held, also if memory runs
//! out.
#![tactic(auto, using(crate::proofs::Texts::lemmas))]

ghost use Rattle.std.specs.Prelude.{◌≤◌, string_bytes};
ghost use Rattle.jskw_value.specs.Text.{Extends};

use crate::decimal::{Decimal, ten_to};
use crate::json::{Array, JsonNumber, Node, Object};
use std::alloc::AllocError;

// Appends the text of a node of any type: the items of an array between brackets, the members of an
// object between braces, in the order of their places.
#[tactic(auto, using(crate::proofs::Texts::lemmas, crate::proofs::Depth::below))]
pub(crate) fn write_node<N: Node>(node: &N, out: &mut String) -> Result<(), AllocError>
    ensures { Extends (string_bytes out.old) (string_bytes out.new) }
{
    if node.is_array() {
        out.push('[')?;
        for i in 0..Array::len(node) {
            if i > 0 {
                out.push(',')?;
            }
            write_node(node.item(i), out)?;
        }
        return out.push(']');
    }
    if node.is_object() {
        out.push('{')?;
        let mut is_first = true;
        for (name, member) in node.walk() {
            write_name(is_first, name, out)?;
            is_first = false;
            write_node(member, out)?;
        }
        return out.push('}');
    }
    write_scalar(node, out)
}

// Appends the text of a node that is neither an array nor an object.
fn write_scalar<N: Node>(node: &N, out: &mut String) -> Result<(), AllocError>
    ensures { Extends (string_bytes out.old) (string_bytes out.new) }
{
    if let Some(text) = node.as_string() {
        return write_string(text, out);
    }
    if let Some(number) = node.as_number() {
        return write_number(number, out);
    }
    out.push_str(match node.as_boolean() {
        Some(true) => "true",
        Some(false) => "false",
        None => "null",
    })
}

// Appends the name of a member and a colon, after a comma if the member is not the first.
fn write_name(is_first: bool, name: &str, out: &mut String) -> Result<(), AllocError>
    ensures { Extends (string_bytes out.old) (string_bytes out.new) }
{
    if !is_first {
        out.push(',')?;
    }
    write_string(name, out)?;
    out.push(':')
}

// Appends a string between quotes, escaped as in RFC 8259, section 7.
fn write_string(text: &str, out: &mut String) -> Result<(), AllocError>
    ensures { Extends (string_bytes out.old) (string_bytes out.new) }
{
    out.push('"')?;
    for c in text.chars() {
        write_char(c, out)?;
    }
    out.push('"')
}

// Appends a character of a string, escaped if RFC 8259, section 7, requires it.
fn write_char(c: char, out: &mut String) -> Result<(), AllocError>
    ensures { Extends (string_bytes out.old) (string_bytes out.new) }
{
    match c {
        '"' => out.push_str("\\\""),
        '\\' => out.push_str("\\\\"),
        '\u{8}' => out.push_str("\\b"),
        '\t' => out.push_str("\\t"),
        '\n' => out.push_str("\\n"),
        '\u{c}' => out.push_str("\\f"),
        '\r' => out.push_str("\\r"),
        '\u{0}'..='\u{1f}' => write_control(c, out),
        _ => out.push(c),
    }
}

// Returns the hexadecimal digit for a number from 0 to 15.
fn hexadecimal(number: u32) -> char
    requires { number ≤ 15 }
{
    char::from_digit(number, 16).unwrap()
}

// Appends a control character by its number, in four hexadecimal digits.
fn write_control(c: char, out: &mut String) -> Result<(), AllocError>
    requires { c ≤ 31 }
    ensures { Extends (string_bytes out.old) (string_bytes out.new) }
{
    out.push_str("\\u00")?;
    out.push(hexadecimal(c as u32 / 16))?;
    out.push(hexadecimal(c as u32 % 16))
}

// Appends a decimal with the digits that it is written with, and a float as the word `float`.
fn write_number<A: JsonNumber>(number: &A, out: &mut String) -> Result<(), AllocError>
    ensures { Extends (string_bytes out.old) (string_bytes out.new) }
{
    if number.is_lawful() {
        write_decimal(&number.decimal(), out)
    } else {
        out.push_str("float")
    }
}

// Appends a decimal, with as many digits behind the point as its scale says.
fn write_decimal(decimal: &Decimal, out: &mut String) -> Result<(), AllocError>
    ensures { Extends (string_bytes out.old) (string_bytes out.new) }
{
    if decimal.coefficient() < 0 {
        out.push('-')?;
    }
    let digits = decimal.coefficient().unsigned_abs();
    let unit = ten_to(decimal.scale()) as u128;
    let whole = format!(in *out.allocator(); "{}", digits / unit)?;
    out.push_str(whole.as_str())?;
    write_fraction(digits % unit, decimal.scale(), out)
}

// Appends the point and `scale` digits after it, if there are any.
fn write_fraction(fraction: u128, scale: u8, out: &mut String) -> Result<(), AllocError>
    ensures { Extends (string_bytes out.old) (string_bytes out.new) }
{
    if scale == 0 {
        return Ok(());
    }
    let digits = format!(in *out.allocator(); "{fraction}")?;
    out.push('.')?;
    for _ in digits.len()..scale as usize {
        out.push('0')?;
    }
    out.push_str(digits.as_str())
}
