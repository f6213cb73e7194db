//! The keywords of a schema object, found by one walk over its members.
ghost use Rattle.std.specs.Prelude.{◌≡◌, length, option_map};
ghost use Rattle.serde_json.specs.Data.{no_members};
ghost use Rattle.serde_json.specs.Find.{get_member};
ghost use Rattle.serde_json.specs.View.{view, members_view};
ghost use Rattle.jskw_report.specs.Found.{AreValues, values_in};
ghost use Rattle.jskw_report.specs.Setting.{keywords, name_of};

use crate::keyword::KeywordName;
use serde_json::{Map, Value};
use std::marker::Model;

/// A schema object with the values of its keywords at hand: one walk over its members,
/// [`find_values`], finds them, and each is then given in constant time. In contracts it is the
/// members.
#[derive(Debug, Drop)]
pub struct KeywordValues<'s, 'a> {
    parent: &'a Map<String, Value>,
    // the value of each keyword, at its index
    values: &'s [Option<&'a Value>; KeywordName::COUNT],
}

impl<'s, 'a> Model for KeywordValues<'s, 'a> {
    ghost use Rattle.serde_json.specs.Data.{Members};
    ghost use Rattle.serde_json.specs.View.{members_view};
    ghost use Rattle.jskw_report.specs.Found.{AreValues, members_code, values_in};

    ghost Value = { Members };

    ghost coded = { members_code };

    ghost view = { λ v. members_view v.parent.now.entries };

    ghost invariant = { λ v. AreValues (values_in v.values.now) (members_view v.parent.now.entries) };
}

impl<'s, 'a> KeywordValues<'s, 'a> {
    /// Creates the values of `parent` from those that [`find_values`] found. They stay where they are,
    /// so that they are not moved.
    #[inline(always)]
    pub fn new(
        parent: &'a Map<String, Value>,
        values: &'s [Option<&'a Value>; KeywordName::COUNT],
    ) -> KeywordValues<'s, 'a>
        requires { AreValues (values_in values.now) (members_view parent.now.entries) }
        ensures { result ≡ members_view parent.now.entries }
    {
        KeywordValues { parent, values }
    }

    /// Returns the schema object.
    pub fn parent(&self) -> &'a Map<String, Value>
        ensures { members_view result.now.entries ≡ self.now }
    {
        self.parent
    }

    /// Returns the value of the keyword, or `None` if the object does not have it.
    #[inline(always)]
    pub fn get(&self, keyword: KeywordName) -> Option<&'a Value>
        ensures { option_map (λ value. view value.now) result ≡ get_member (name_of keyword) self.now }
    {
        let values = self.values;
        let each = &values[..];
        each[keyword.index()]
    }
}

/// Puts the value of each keyword of `parent` at the keyword's index into `values`, which must be
/// [`KeywordName::COUNT`] times `None`.
#[inline(never)]
pub fn find_values<'a>(parent: &'a Map<String, Value>, values: &mut [Option<&'a Value>])
    requires length { length values.old ≡ length keywords }
    requires nothing { AreValues (values_in values.old) no_members }
    ensures length { length values.new ≡ length keywords }
    ensures found { AreValues (values_in values.new) (members_view parent.now.entries) }
{
    for (name, value) in parent.iter() {
        let Some(keyword) = KeywordName::named(name.as_str()) else {
            continue;
        };
        let index = keyword.index();
        // a map has each name once
        if values[index].is_none() {
            values[index] = Some(value);
        }
    }
}
