//! What is wanted of the tree of a text, in one pass. It gives a text up that is refused, and does not
//! say why.
ghost use Rattle.std.specs.Prelude.{◌≡◌, ◌≤◌, [], ◌∷◌, IfOk, IfSome, IfNone, IsTrue, OnOk, length, map};
ghost use Rattle.std.specs.Prelude.{string_bytes};
ghost use Rattle.std.specs.Str.{is_utf8};
ghost use Rattle.json.specs.Lex.{token};
ghost use Rattle.json.specs.Token.{string};
ghost use Rattle.json.specs.Word.{head};
ghost use Rattle.jskw_value.specs.DecimalTree.{decimal_tree, items_from};
ghost use Rattle.jskw_text.specs.Members.{members_seen};
ghost use Rattle.jskw_text.specs.Passing.{Passes, PassesLeaf, PassesName, PassesText, PassesUnwanted, ReadsWanted};
ghost use Rattle.jskw_text.specs.Passing.{ReadsItemsWanted, ReadsMembersWanted};
ghost use Rattle.jskw_text.specs.Reading.{reading};
ghost use Rattle.jskw_text.specs.Wanted.{IsRead, is_text_wanted};

use crate::cursor::Cursor;
use crate::sorted::put;
use crate::spare::Spare;
use crate::tree::MAX_DEPTH;
use crate::wanted::{Level, below, is_name_wanted, is_text_wanted, of_values};
use jskw_value::{DecimalTree, Member, Members};
use std::alloc::{AllocError, AllocFailed};

// Why a text was not read.
#[derive(Drop)]
pub(crate) enum Unread {
    // It is no JSON, or has a number that is not exact.
    Text,
    // Memory ran out.
    Memory(AllocError),
}

impl From<AllocError> for Unread {
    fn from(e: AllocError) -> Unread {
        Unread::Memory(e)
    }
}

impl<T: Drop> From<AllocFailed<T>> for Unread {
    fn from(e: AllocFailed<T>) -> Unread {
        Unread::Memory(AllocError::from(e))
    }
}

// Reads what is wanted of the tree that a text denotes, or gives up and leaves the cursor where it does:
// if the text is JSON, at its first number that is not exact.
pub(crate) fn read_quickly(
    cursor: &mut Cursor<'_>,
    spare: &mut Spare,
    wanted: &[Level],
) -> Result<DecimalTree, Unread>
    requires { IsTrue (is_utf8 cursor.old) }
    ensures { IfOk result (λ tree. IsRead wanted.now (decimal_tree tree) (reading cursor.old)) }
{
    let tree = read(cursor, spare, wanted, is_text_wanted(wanted), MAX_DEPTH)?;
    cursor.skip_spaces();
    if !cursor.is_at_end() {
        return Err(Unread::Text);
    }
    Ok(tree)
}

// Reads what is wanted of the tree of the next value. `has_text` says whether the text of a string is.
#[cycle(read)]
#[inline(always)]
fn read(
    cursor: &mut Cursor<'_>,
    spare: &mut Spare,
    wanted: &[Level],
    has_text: bool,
    depth: usize,
) -> Result<DecimalTree, Unread>
    requires { has_text ≡ is_text_wanted wanted.now }
    ensures ok { IfOk result (λ tree. ReadsWanted wanted.now depth cursor.old (decimal_tree tree) cursor.new) }
    ensures shorter { OnOk result (length cursor.new ≤ length cursor.old) }
{
    cursor.skip_spaces();
    match cursor.peek() {
        b'"' => read_text(cursor, spare, has_text),
        b'[' => {
            if depth == 0 {
                return Err(Unread::Text);
            }
            cursor.advance();
            Ok(DecimalTree::Array(read_items(cursor, spare, wanted, depth - 1)?))
        }
        b'{' => {
            if depth == 0 {
                return Err(Unread::Text);
            }
            cursor.advance();
            Ok(DecimalTree::Object(read_members(cursor, spare, wanted, depth - 1)?))
        }
        _ => read_word(cursor),
    }
}

// Reads a string, whose text is left out if it is not wanted. What a call out of line returns is put
// into a new result: with one result for both, the value of each item would go through memory.
#[inline(always)]
fn read_text(
    cursor: &mut Cursor<'_>,
    spare: &mut Spare,
    is_wanted: bool,
) -> Result<DecimalTree, Unread>
    requires { head cursor.old ≡ 34 }
    ensures { IfOk result (λ tree. PassesText is_wanted cursor.old (decimal_tree tree) cursor.new) }
{
    match cursor.string() {
        Some(text) if is_wanted => Ok(DecimalTree::Text(spare.text(text)?)),
        Some(_) => Ok(DecimalTree::Text(String::new(spare.alloc))),
        None => Ok(DecimalTree::Text(read_escaped(cursor, spare)?)),
    }
}

// Reads the content of a string that has escapes.
#[cold]
#[inline(never)]
fn read_escaped(cursor: &mut Cursor<'_>, spare: &mut Spare) -> Result<String, Unread>
    requires { head cursor.old ≡ 34 }
    ensures { IfOk result (λ content.
        Passes cursor.old (token (string (string_bytes content)) ∷ []) cursor.new) }
{
    let mut content = spare.text("")?;
    if !cursor.escaped_string(&mut content)? {
        return Err(Unread::Text);
    }
    Ok(content)
}

// Reads a number, a boolean or null.
#[inline(always)]
fn read_word(cursor: &mut Cursor<'_>) -> Result<DecimalTree, Unread>
    ensures { IfOk result (λ tree. PassesLeaf cursor.old (decimal_tree tree) cursor.new) }
{
    if let Some(decimal) = cursor.short_number() {
        Ok(DecimalTree::Number(decimal))
    } else if cursor.takes_word(b"true") {
        Ok(DecimalTree::Bool(true))
    } else if cursor.takes_word(b"false") {
        Ok(DecimalTree::Bool(false))
    } else if cursor.takes_word(b"null") {
        Ok(DecimalTree::Null)
    } else if let Some(decimal) = cursor.number() {
        Ok(DecimalTree::Number(decimal))
    } else {
        Err(Unread::Text)
    }
}

// Reads what is wanted of the items up to the end of an array.
#[cycle(read)]
#[inline(never)]
fn read_items(
    cursor: &mut Cursor<'_>,
    spare: &mut Spare,
    wanted: &[Level],
    depth: usize,
) -> Result<Vec<DecimalTree>, Unread>
    ensures ok { IfOk result (λ v.
        ReadsItemsWanted wanted.now depth cursor.old (items_from (map decimal_tree v.items)) cursor.new) }
    ensures shorter { OnOk result (length cursor.new ≤ length cursor.old) }
{
    if wanted.is_empty() {
        if !cursor.skips_items(spare, depth) {
            return Err(Unread::Text);
        }
        return Ok(Vec::new(spare.alloc));
    }
    if cursor.takes(b']') {
        return Ok(Vec::new(spare.alloc));
    }
    let of_items = below(wanted);
    let has_text = is_text_wanted(of_items);
    let mut found = spare.list(depth)?;
    'items: loop {
        let item = read(cursor, spare, of_items, has_text, depth)?;
        found.push(item)?;
        if !cursor.takes(b',') {
            break;
        }
    }
    if !cursor.takes(b']') {
        return Err(Unread::Text);
    }
    spare.had(depth, found.len());
    Ok(found)
}

// Reads what is wanted of the members up to the end of an object.
#[cycle(read)]
#[inline(never)]
fn read_members(
    cursor: &mut Cursor<'_>,
    spare: &mut Spare,
    wanted: &[Level],
    depth: usize,
) -> Result<Members, Unread>
    ensures ok { IfOk result (λ ms. ReadsMembersWanted wanted.now depth cursor.old (members_seen ms) cursor.new) }
    ensures shorter { OnOk result (length cursor.new ≤ length cursor.old) }
{
    if wanted.is_empty() {
        if !cursor.skips_members(spare, depth) {
            return Err(Unread::Text);
        }
        return Ok(Members::new(spare.alloc));
    }
    if cursor.takes(b'}') {
        return Ok(Members::new(spare.alloc));
    }
    let of_value = of_values(wanted);
    let has_text = is_text_wanted(of_value);
    let mut found = spare.pairs(depth)?;
    let mut in_order = true;
    'members: loop {
        match read_name(cursor, spare, wanted)? {
            Some(name) => {
                let value = read(cursor, spare, of_value, has_text, depth)?;
                in_order = put(&mut found, Member { name, value }, in_order)?;
            }
            None => {
                if !cursor.skips(spare, depth) {
                    return Err(Unread::Text);
                }
            }
        }
        if !cursor.takes(b',') {
            break;
        }
    }
    if !cursor.takes(b'}') {
        return Err(Unread::Text);
    }
    spare.had(depth, found.len());
    Ok(Members::from_last_pairs(found)?)
}

// Reads a name and its colon. Returns the name, if it is wanted.
#[inline(always)]
fn read_name(
    cursor: &mut Cursor<'_>,
    spare: &mut Spare,
    wanted: &[Level],
) -> Result<Option<String>, Unread>
    ensures wanted { IfOk result
        (λ found. IfSome found (λ name. PassesName cursor.old (string_bytes name) cursor.new)) }
    ensures unwanted { IfOk result
        (λ found. IfNone found (PassesUnwanted wanted.now cursor.old cursor.new)) }
{
    cursor.skip_spaces();
    if cursor.peek() != b'"' {
        return Err(Unread::Text);
    }
    match cursor.string() {
        Some(_) if !cursor.takes(b':') => Err(Unread::Text),
        Some(name) if is_name_wanted(wanted, name) => Ok(Some(spare.text(name)?)),
        Some(_) => Ok(None),
        None => Ok(Some(read_escaped_name(cursor, spare)?)),
    }
}

// Reads a name that has escapes, and its colon.
#[cold]
#[inline(never)]
fn read_escaped_name(cursor: &mut Cursor<'_>, spare: &mut Spare) -> Result<String, Unread>
    requires { head cursor.old ≡ 34 }
    ensures { IfOk result (λ name. PassesName cursor.old (string_bytes name) cursor.new) }
{
    let name = read_escaped(cursor, spare)?;
    if !cursor.takes(b':') {
        return Err(Unread::Text);
    }
    Ok(name)
}
