//! What the schemas of one level ask for.
ghost use Rattle.std.specs.Prelude.{◌≡◌, IfOk, OnOk, true};
ghost use Rattle.serde_json.specs.View.{view, items_view, members_view};
ghost use Rattle.jskw_report.specs.declared.keyword.KeywordName.TheVariants as keyword;
ghost use Rattle.jskw_wanted.specs.Asked.{Asks, AsksAll, AsksEach, AsksKeyword, AsksMembers, AsksNamed, AsksNames};
ghost use Rattle.jskw_wanted.specs.Asked.{AsksOne, AsksOption, AsksOptions, AsksSchemas, Grows, asking_keyword};
ghost use Rattle.jskw_wanted.specs.Asked.{schemas_seen};
ghost use Rattle.jskw_text.specs.Wanted.{wants_name};

use jskw_report::KeywordName;
use jskw_text::Names;
use serde_json::{Map, Value};
use std::alloc::{AllocError, Global};

// How many names are distinguished at most; of more, all are asked for.
const MOST_NAMES: usize = 16;

// What some schemas ask for of a value.
#[derive(Drop)]
pub(crate) struct Asked<'v> {
    // All of it.
    pub(crate) is_whole: bool,
    // The text of a string.
    pub(crate) has_text: bool,
    // Names of an object.
    pub(crate) names: Names,
    // All of the items of an array.
    pub(crate) are_items_whole: bool,
    // The schemas of the items.
    pub(crate) below: Vec<&'v Value>,
}

// Returns the keyword of this name, if it looks at more of a value than `Asked` has by itself.
fn asking_keyword(name: &str) -> Option<KeywordName>
    ensures { result ≡ asking_keyword name.now }
{
    match name {
        "items" => Some(KeywordName::Items),
        "prefixItems" => Some(KeywordName::PrefixItems),
        "additionalItems" => Some(KeywordName::AdditionalItems),
        "contains" => Some(KeywordName::Contains),
        "uniqueItems" => Some(KeywordName::UniqueItems),
        "const" => Some(KeywordName::Const),
        "enum" => Some(KeywordName::Enum),
        "minProperties" => Some(KeywordName::MinProperties),
        "maxProperties" => Some(KeywordName::MaxProperties),
        "required" => Some(KeywordName::Required),
        _ => None,
    }
}

// Returns what some schemas ask for.
pub(crate) fn asked_by<'v>(alloc: Global, schemas: &[&'v Value]) -> Result<Asked<'v>, AllocError>
    ensures { IfOk result (λ asked. AsksAll asked (schemas_seen schemas.now)) }
{
    let mut asked = Asked {
        is_whole: false,
        has_text: false,
        names: Names::Those(Vec::new(alloc)),
        are_items_whole: false,
        below: Vec::new(alloc),
    };
    'schemas: for schema in schemas {
        asked.add(alloc, schema)?;
    }
    Ok(asked)
}

impl<'v> Asked<'v> {
    // Adds what a schema asks for.
    fn add(&mut self, alloc: Global, schema: &'v Value) -> Result<(), AllocError>
        ensures grows { OnOk result (Grows self.old self.new) }
        ensures asks { OnOk result (Asks self.new (view schema.now)) }
    {
        let Value::Object(members) = schema else {
            return Ok(());
        };
        self.add_members(alloc, members)
    }

    // Adds what the members of a schema ask for.
    fn add_members(
        &mut self,
        alloc: Global,
        members: &'v Map<String, Value>,
    ) -> Result<(), AllocError>
        ensures grows { OnOk result (Grows self.old self.new) }
        ensures asks { OnOk result (AsksMembers self.new (members_view members.now.entries)) }
    {
        for (name, value) in members.iter() {
            self.add_member(alloc, name.as_str(), value)?;
        }
        Ok(())
    }

    // Adds what the member of this name asks for.
    fn add_member(&mut self, alloc: Global, name: &str, value: &'v Value) -> Result<(), AllocError>
        ensures grows { OnOk result (Grows self.old self.new) }
        ensures asks { OnOk result (AsksNamed self.new name.now (view value.now)) }
    {
        match asking_keyword(name) {
            Some(keyword) => self.add_keyword(alloc, keyword, value),
            None => Ok(()),
        }
    }

    // Adds what a keyword asks for.
    fn add_keyword(
        &mut self,
        alloc: Global,
        keyword: KeywordName,
        value: &'v Value,
    ) -> Result<(), AllocError>
        ensures grows { OnOk result (Grows self.old self.new) }
        ensures asks { OnOk result (AsksKeyword self.new keyword (view value.now)) }
    {
        match keyword {
            KeywordName::MinProperties | KeywordName::MaxProperties => {
                self.names = Names::All;
                Ok(())
            }
            KeywordName::Required => self.add_required(alloc, value),
            KeywordName::Const => {
                self.add_option(value);
                Ok(())
            }
            KeywordName::Enum => {
                self.add_enum(value);
                Ok(())
            }
            KeywordName::UniqueItems => {
                self.are_items_whole = true;
                Ok(())
            }
            KeywordName::Items
            | KeywordName::PrefixItems
            | KeywordName::AdditionalItems
            | KeywordName::Contains => self.add_schemas(value),
            _ => Ok(()),
        }
    }

    // Adds the names that are required.
    fn add_required(&mut self, alloc: Global, value: &Value) -> Result<(), AllocError>
        ensures grows { OnOk result (Grows self.old self.new) }
        ensures asks { OnOk result (AsksKeyword self.new keyword.Required (view value.now)) }
    {
        match value {
            Value::Array(names) => self.add_names(alloc, names.as_slice()),
            _ => Ok(()),
        }
    }

    // Adds the strings among these values as names.
    fn add_names(&mut self, alloc: Global, names: &[Value]) -> Result<(), AllocError>
        ensures grows { OnOk result (Grows self.old self.new) }
        ensures asks { OnOk result (AsksNames self.new.names (items_view names.now)) }
    {
        'names: for name in names {
            if let Value::String(name) = name {
                self.add_name(alloc, name.as_str())?;
            }
        }
        Ok(())
    }

    // Adds a name that is not there yet, or all names if there are many.
    fn add_name(&mut self, alloc: Global, name: &str) -> Result<(), AllocError>
        ensures grows { OnOk result (Grows self.old self.new) }
        ensures asks { OnOk result (wants_name self.new.names name.now ≡ true) }
    {
        if self.names.has(name) {
            return Ok(());
        }
        match &mut self.names {
            Names::Those(list) if list.len() < MOST_NAMES => {
                list.push(String::from_str(alloc, name)?)?;
            }
            _ => self.names = Names::All,
        }
        Ok(())
    }

    // Adds what `enum` compares.
    fn add_enum(&mut self, value: &Value)
        ensures grows { Grows self.old self.new }
        ensures asks { AsksKeyword self.new keyword.Enum (view value.now) }
    {
        if let Value::Array(options) = value {
            self.add_options(options.as_slice());
        }
    }

    // Adds what comparisons with these values look at.
    fn add_options(&mut self, options: &[Value])
        ensures grows { Grows self.old self.new }
        ensures asks { AsksOptions self.new (items_view options.now) }
    {
        'options: for option in options {
            self.add_option(option);
        }
    }

    // Adds what a comparison with a value looks at.
    fn add_option(&mut self, option: &Value)
        ensures grows { Grows self.old self.new }
        ensures asks { AsksOption self.new (view option.now) }
    {
        match option {
            Value::String(_) => self.has_text = true,
            Value::Array(_) => self.are_items_whole = true,
            Value::Object(_) => self.is_whole = true,
            _ => {}
        }
    }

    // Adds a schema, and those of an array.
    fn add_schemas(&mut self, value: &'v Value) -> Result<(), AllocError>
        ensures grows { OnOk result (Grows self.old self.new) }
        ensures asks { OnOk result (AsksSchemas self.new (view value.now)) }
    {
        self.add_schema(value)?;
        if let Some(schemas) = value.as_array() {
            self.add_each(schemas.as_slice())?;
        }
        Ok(())
    }

    // Adds these schemas.
    fn add_each(&mut self, schemas: &'v [Value]) -> Result<(), AllocError>
        ensures grows { OnOk result (Grows self.old self.new) }
        ensures asks { OnOk result (AsksEach self.new (items_view schemas.now)) }
    {
        'schemas: for schema in schemas {
            self.add_schema(schema)?;
        }
        Ok(())
    }

    // Adds a schema.
    fn add_schema(&mut self, schema: &'v Value) -> Result<(), AllocError>
        ensures grows { OnOk result (Grows self.old self.new) }
        ensures asks { OnOk result (AsksOne self.new (view schema.now)) }
    {
        self.below.push(schema)?;
        Ok(())
    }
}
