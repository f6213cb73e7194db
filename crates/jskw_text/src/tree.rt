//! The tree of decimals that a JSON text denotes.
ghost use Rattle.std.specs.Prelude.{◌≡◌, ◌<◌, ◌++◌, Some, None, Ok, IfOk, IfErr, OnOk, IsTrue, IsSome};
ghost use Rattle.std.specs.Prelude.{◌↔◌, length, map, string_bytes};
ghost use Rattle.std.specs.Str.{is_utf8};
ghost use Rattle.json.specs.Json.{value, items, members, parse_map};
ghost use Rattle.jskw_value.specs.DecimalTree.{decimal_tree, items_from};
ghost use Rattle.jskw_value.specs.FirstFloat.{below_index, below_name};
ghost use Rattle.jskw_value.specs.Pointer.{index_token, name_token};
ghost use Rattle.jskw_value.specs.Tree.{no_members};
ghost use Rattle.jskw_text.specs.Members.{members_seen};
ghost use Rattle.jskw_text.specs.ReadFault.{IsBrokenAt, IsFaultOf};
ghost use Rattle.jskw_text.specs.Stop.{IsStopOf, Explains, IsAt, IsOutside, location_of};
ghost use Rattle.jskw_text.specs.Reading.{document, reading, tree_of, items_of, members_of};
ghost use Rattle.jskw_text.specs.Wanted.{IsRead};

use crate::broken::break_of;
use crate::cursor::Cursor;
use crate::fault::{ReadFault, Stop};
use crate::not_json::NotJsonReason;
use crate::number::parse_decimal;
use crate::position::{place_in, position_of};
use crate::quick::{Unread, read_quickly};
use crate::spare::Spare;
use crate::wanted::Level;
use jskw_value::pointer::{push_index, push_name};
use jskw_value::{DecimalTree, Member, Members};
use json::{Reader, Scratch, Token};
use std::alloc::{AllocError, Global};

// How deep arrays and objects may nest.
pub(crate) const MAX_DEPTH: usize = 127;

/// Reads the tree that bytes denote as JSON text.
///
/// # Errors
///
/// [`ReadFault::NotJson`] if the bytes are not JSON, [`ReadFault::Inexact`] if they are and a number
/// is not exact. The numbers of a member whose name comes again count, too.
pub fn read_bytes(alloc: Global, bytes: &[u8]) -> Result<DecimalTree, ReadFault>
    ensures tree { IfOk result (λ tree. reading bytes.now ≡ Some (Ok (decimal_tree tree))) }
    ensures fault { IfErr result (IsFaultOf bytes.now) }
{
    read_with(
        alloc,
        bytes,
        &[Level::Whole],
        &mut Spare::new(alloc),
        &mut None,
    )
}

// Reads what is wanted of the tree that bytes denote as JSON text, in room of trees that are no longer
// needed. A text that is refused is read once more, to find why, in a `Scratch` of 16 KB. They are cleared
// when it is made: so it is made for the first one, and kept for the next.
pub(crate) fn read_with(
    alloc: Global,
    bytes: &[u8],
    wanted: &[Level],
    spare: &mut Spare,
    kept: &mut Option<Box<Scratch>>,
) -> Result<DecimalTree, ReadFault>
    ensures tree { IfOk result (λ tree. IsRead wanted.now (decimal_tree tree) (reading bytes.now)) }
    ensures fault { IfErr result (IsFaultOf bytes.now) }
{
    match simdutf8::compat::from_utf8(bytes) {
        Ok(text) => read_text(alloc, text, wanted, spare, kept),
        Err(e) => Err(not_utf8(bytes, e.valid_up_to())),
    }
}

// Returns the fault of bytes that are UTF-8 up to this offset.
#[cold]
#[tactic(auto, using(crate::proofs::Places::is_place, crate::proofs::Utf8::broken_there))]
fn not_utf8(bytes: &[u8], offset: usize) -> ReadFault
    requires { IsBrokenAt bytes.now offset }
    ensures { IsFaultOf bytes.now result }
{
    ReadFault::NotJson(NotJsonReason::NotUtf8, position_of(bytes, offset))
}

// Reads what is wanted of the tree that a text denotes.
fn read_text(
    alloc: Global,
    text: &str,
    wanted: &[Level],
    spare: &mut Spare,
    kept: &mut Option<Box<Scratch>>,
) -> Result<DecimalTree, ReadFault>
    requires { IsTrue (is_utf8 text.now) }
    ensures tree { IfOk result (λ tree. IsRead wanted.now (decimal_tree tree) (reading text.now)) }
    ensures fault { IfErr result (IsFaultOf text.now) }
{
    let mut cursor = Cursor::new(text);
    match read_quickly(&mut cursor, spare, wanted) {
        Ok(tree) => Ok(tree),
        Err(Unread::Text) => {
            let given_up = given_up_at(&cursor, wanted);
            read_slowly(alloc, text, given_up, kept)
        }
        Err(Unread::Memory(e)) => Err(ReadFault::Memory(e)),
    }
}

// Returns the offset at which a text was given up, if it is known: of one that was read whole.
fn given_up_at(cursor: &Cursor<'_>, wanted: &[Level]) -> Option<usize> {
    match wanted {
        [Level::Whole, ..] => Some(cursor.offset()),
        _ => None,
    }
}

// Reads the tree that a text denotes, or finds why it is refused. It was given up at this offset, if that
// is known.
#[cold]
#[inline(never)]
fn read_slowly(
    alloc: Global,
    text: &str,
    given_up: Option<usize>,
    kept: &mut Option<Box<Scratch>>,
) -> Result<DecimalTree, ReadFault>
    requires { IsTrue (is_utf8 text.now) }
    ensures tree { IfOk result (λ tree. reading text.now ≡ Some (Ok (decimal_tree tree))) }
    ensures fault { IfErr result (IsFaultOf text.now) }
{
    let scratch = scratch_in(alloc, kept)?;
    if !is_json(text, scratch)? {
        return Err(broken(text));
    }
    match read_all(alloc, text, scratch) {
        Ok(tree) => Ok(tree),
        Err(stop) => Err(fault_of(alloc, text, given_up, stop)?),
    }
}

// Returns the `Scratch` that is kept, and makes it if there is none.
#[inline(always)]
fn scratch_in(alloc: Global, kept: &mut Option<Box<Scratch>>) -> Result<&mut Scratch, AllocError> {
    let scratch = match kept.take() {
        Some(scratch) => scratch,
        None => Box::new(alloc, Scratch::new(alloc))?,
    };
    Ok(kept.insert(scratch))
}

// Returns whether a text is JSON.
#[cold]
fn is_json(text: &str, scratch: &mut Scratch) -> Result<bool, AllocError>
    ensures { IfOk result (λ valid. IsTrue valid ↔ IsSome (document text.now)) }
{
    let mut reader = Reader::new(text, scratch)?;
    Ok(reader.skip_value(MAX_DEPTH).is_ok() && reader.next().is_none())
}

// Returns the fault of a text that is not JSON.
#[cold]
fn broken(text: &str) -> ReadFault
    requires utf8 { IsTrue (is_utf8 text.now) }
    requires unread { reading text.now ≡ None }
    ensures { IsFaultOf text.now result }
{
    let (reason, offset) = break_of(text.as_bytes());
    ReadFault::NotJson(reason, place_in(text, offset))
}

// Returns the fault of a text that is JSON, for a stop.
#[cold]
#[inline(never)]
fn fault_of(
    alloc: Global,
    text: &str,
    given_up: Option<usize>,
    stop: Stop,
) -> Result<ReadFault, AllocError>
    requires utf8 { IsTrue (is_utf8 text.now) }
    requires json { IsSome (document text.now) }
    requires stop { IsStopOf text.now stop }
    ensures { IfOk result (IsFaultOf text.now) }
{
    match stop {
        Stop::Memory(e) => Ok(ReadFault::Memory(e)),
        Stop::Broken => Ok(broken(text)),
        Stop::Inexact(steps) => {
            let location = location_of(alloc, &steps)?;
            let offset = match given_up {
                Some(offset) => offset,
                None => whole_given_up_at(alloc, text)?,
            };
            Ok(ReadFault::Inexact(location, place_in(text, offset)))
        }
    }
}

// Returns the offset at which a text is given up that is read whole: if it is JSON, that of the first number
// that is not exact.
#[cold]
fn whole_given_up_at(alloc: Global, text: &str) -> Result<usize, AllocError>
    requires { IsTrue (is_utf8 text.now) }
{
    let mut cursor = Cursor::new(text);
    match read_quickly(&mut cursor, &mut Spare::new(alloc), &[Level::Whole]) {
        Err(Unread::Memory(e)) => Err(e),
        _ => Ok(cursor.offset()),
    }
}

// Reads the tree that a text denotes, up to the first stop.
fn read_all(alloc: Global, text: &str, scratch: &mut Scratch) -> Result<DecimalTree, Stop>
    requires { IsTrue (is_utf8 text.now) }
    ensures tree { IfOk result (λ tree. reading text.now ≡ Some (Ok (decimal_tree tree))) }
    ensures stop { IfErr result (IsStopOf text.now) }
{
    let mut reader = Reader::new(text, scratch)?;
    let tree = read(alloc, &mut reader, MAX_DEPTH)?;
    if reader.next().is_some() {
        return Err(Stop::Broken);
    }
    Ok(tree)
}

// Reads the tree of the next value.
#[cycle(read)]
#[inline(always)]
fn read(alloc: Global, reader: &mut Reader<'_>, depth: usize) -> Result<DecimalTree, Stop>
    ensures ok { IfOk result (λ tree. parse_map tree_of (value depth reader.old)
        ≡ Some (Ok (decimal_tree tree), reader.new)) }
    ensures shorter { OnOk result (length reader.new < length reader.old) }
    ensures err { IfErr result (λ e. Explains e (parse_map tree_of (value depth reader.old))) }
{
    let token = reader.next().ok_or(Stop::Broken)?;
    match token {
        Token::String(text) => Ok(DecimalTree::Text(String::from_str(alloc, text)?)),
        Token::Number(text) => match parse_decimal(text) {
            Some(decimal) => Ok(DecimalTree::Number(decimal)),
            None => Err(Stop::Inexact(Vec::new(alloc))),
        },
        Token::Bool(boolean) => Ok(DecimalTree::Bool(boolean)),
        Token::Null => Ok(DecimalTree::Null),
        Token::EndObject | Token::EndArray | Token::Key(_) | Token::Bad => Err(Stop::Broken),
        Token::BeginArray => {
            if depth == 0 {
                return Err(Stop::Broken);
            }
            Ok(DecimalTree::Array(read_items(alloc, reader, depth - 1)?))
        }
        Token::BeginObject => {
            if depth == 0 {
                return Err(Stop::Broken);
            }
            Ok(DecimalTree::Object(read_members(alloc, reader, depth - 1)?))
        }
    }
}

// Reads the trees of the items up to the end of an array.
#[cycle(read)]
#[inline(never)]
fn read_items(
    alloc: Global,
    reader: &mut Reader<'_>,
    depth: usize,
) -> Result<Vec<DecimalTree>, Stop>
    ensures ok { IfOk result
        (λ v. parse_map (items_of 0) (items (value depth) (length reader.old) reader.old)
        ≡ Some (Ok (items_from (map decimal_tree v.items)), reader.new)) }
    ensures shorter { OnOk result (length reader.new < length reader.old) }
    ensures err { IfErr result (λ e. Explains e
        (parse_map (items_of 0) (items (value depth) (length reader.old) reader.old))) }
{
    let mut found = Vec::new(alloc);
    'items: while !reader.take_end_array() {
        let item = match read(alloc, reader, depth) {
            Ok(item) => item,
            Err(stop) => return Err(in_item(alloc, found.len(), stop)),
        };
        found.push(item)?;
    }
    Ok(found)
}

// Reads the members up to the end of an object.
#[cycle(read)]
#[inline(never)]
fn read_members(alloc: Global, reader: &mut Reader<'_>, depth: usize) -> Result<Members, Stop>
    ensures ok { IfOk result (λ ms. parse_map (members_of no_members)
        (members (value depth) (length reader.old) reader.old)
        ≡ Some (Ok (members_seen ms), reader.new)) }
    ensures shorter { OnOk result (length reader.new < length reader.old) }
    ensures err { IfErr result (λ e. Explains e (parse_map (members_of no_members)
        (members (value depth) (length reader.old) reader.old))) }
{
    let mut found = Vec::new(alloc);
    'members: while let Some(name) = reader.next_key()? {
        let key = String::from_str(alloc, name)?;
        let value = match read(alloc, reader, depth) {
            Ok(value) => value,
            Err(stop) => return Err(in_member(alloc, key.as_str(), stop)),
        };
        found.push(Member { name: key, value })?;
    }
    Ok(Members::from_last_pairs(found)?)
}

// Returns a stop in an item as one of its array.
#[cold]
fn in_item(alloc: Global, index: usize, stop: Stop) -> Stop
    ensures { IsOutside (below_index index) stop result }
{
    match stop {
        Stop::Inexact(steps) => match item_step(alloc, index) {
            Ok(step) => with_step(steps, step),
            Err(e) => Stop::Memory(e),
        },
        _ => stop,
    }
}

// Returns a stop in a member as one of its object.
#[cold]
fn in_member(alloc: Global, name: &str, stop: Stop) -> Stop
    ensures { IsOutside (below_name name.now) stop result }
{
    match stop {
        Stop::Inexact(steps) => match member_step(alloc, name) {
            Ok(step) => with_step(steps, step),
            Err(e) => Stop::Memory(e),
        },
        _ => stop,
    }
}

// Returns the step into an item.
fn item_step(alloc: Global, index: usize) -> Result<String, AllocError>
    ensures { IfOk result (λ step. string_bytes step ≡ index_token index) }
{
    let mut step = String::new(alloc);
    push_index(&mut step, index)?;
    Ok(step)
}

// Returns the step into a member.
fn member_step(alloc: Global, name: &str) -> Result<String, AllocError>
    ensures { IfOk result (λ step. string_bytes step ≡ name_token name.now) }
{
    let mut step = String::new(alloc);
    push_name(&mut step, name)?;
    Ok(step)
}

// Returns the stop at a number whose location has one step more in front.
fn with_step(mut steps: Vec<String>, step: String) -> Stop
    ensures { IsAt (string_bytes step ++ location_of (map string_bytes steps.items)) result }
{
    match steps.push(step) {
        Ok(()) => Stop::Inexact(steps),
        Err(e) => Stop::from(e),
    }
}

// Returns the location that has these steps, the innermost first.
fn location_of(alloc: Global, steps: &[String]) -> Result<String, AllocError>
    ensures { IfOk result (λ location. string_bytes location
        ≡ location_of (map string_bytes steps.now)) }
{
    let mut location = String::new(alloc);
    let mut at = steps.len();
    while at > 0 {
        at -= 1;
        location.push_str(steps[at].as_str())?;
    }
    Ok(location)
}
