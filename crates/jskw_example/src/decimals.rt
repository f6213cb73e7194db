//! Values with exact decimals.
ghost use Rattle.std.specs.Prelude.{◌≡◌, IfSome};
ghost use Rattle.lotsibegn.specs.{decimal_tree, holds};

use crate::node_of;
use lotsibegn::{
    Decimal, DecimalJson, DecimalTree, Fault, LazyLocation, Member, Members, Node, SchemaNode,
    ValidationContext, ValidationError,
};
use std::alloc::{AllocError, Global};
use std::io;

const SCHEMA: &str = r#"{"items": {"const": {"price": 20}}}"#;

const PRICED: &str = r#"{"enum": [{"price": 20}, {"price": 30}]}"#;

// Prints the first error of `[{"price": 20.00}, {"price": 20.01}]`.
pub(crate) fn print_example(rt: &HostRuntime) -> io::Result<()> {
    let Some(prices) = prices(rt.alloc(), &[2000, 2001])? else {
        return println!(rt; "a price is out of range");
    };
    print_first(rt, &node_of(rt.alloc(), SCHEMA)?, &prices)
}

// Prints the first error of an instance.
fn print_first(
    rt: &HostRuntime,
    node: &SchemaNode<DecimalJson>,
    instance: &DecimalTree,
) -> io::Result<()> {
    // Always true for a tree of decimals. The proof of the next call needs the test.
    if !instance.is_lawful() {
        return Ok(());
    }
    let (mut location, mut ctx) = (LazyLocation::new(rt.alloc()), ValidationContext::new());
    match node.validate(instance, &mut location, &mut ctx) {
        Ok(()) => println!(rt; "valid"),
        Err(Fault::Invalid(error)) => print_error(rt, &error),
        Err(Fault::Memory(error)) => Err(error)?,
    }
}

// Prints where an error is and what it says.
fn print_error(rt: &HostRuntime, error: &ValidationError<DecimalJson>) -> io::Result<()> {
    let (at, message) = (error.instance_path().as_str(), error.message(rt.alloc())?);
    println!(rt; "{at}: {message}")?;
    Ok(())
}

// Returns the array of `{"price": ..}` for each number of cents, or None if one is out of range.
fn prices(alloc: Global, cents: &[i128]) -> Result<Option<DecimalTree>, AllocError> {
    let mut items = Vec::new(alloc);
    for &cents in cents {
        match priced(alloc, cents)? {
            Some(item) => items.push(item)?,
            None => return Ok(None),
        }
    }
    Ok(Some(DecimalTree::Array(items)))
}

// Returns `{"price": ..}` with this many cents, or None if they are out of range.
fn priced(alloc: Global, cents: i128) -> Result<Option<DecimalTree>, AllocError> {
    let Some(price) = Decimal::new(cents, 2) else {
        return Ok(None);
    };
    let mut pairs = Vec::new(alloc);
    pairs.push(Member {
        name: String::from_str(alloc, "price")?,
        value: DecimalTree::Number(price),
    })?;
    match Members::from_pairs(pairs) {
        Ok(members) => Ok(Some(DecimalTree::Object(members))),
        Err(_) => Ok(None),
    }
}

// Prints whether prices in cents are among those of the shop.
pub(crate) fn print_prices(rt: &HostRuntime) -> io::Result<()> {
    let node = node_of(rt.alloc(), PRICED)?;
    print_price(rt, &node, 2000)?;
    print_price(rt, &node, 2001)
}

fn print_price(rt: &HostRuntime, node: &SchemaNode<DecimalJson>, cents: i128) -> io::Result<()> {
    let Some(item) = priced(rt.alloc(), cents)? else {
        return println!(rt; "out of range");
    };
    let is_priced = is_priced(node, &item) == Some(true);
    println!(rt; "{cents} cents: {is_priced}")
}

// Returns whether an item has a price of the shop, or None if it holds a float.
fn is_priced(schema: &SchemaNode<DecimalJson>, item: &DecimalTree) -> Option<bool>
    ensures { IfSome result (λ valid. valid ≡ holds schema.now (decimal_tree item.now)) }
{
    if item.is_lawful() {
        Some(schema.is_valid(item, &mut ValidationContext::new()))
    } else {
        None
    }
}
