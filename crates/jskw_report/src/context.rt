//! The context in which a schema is compiled.
ghost use Rattle.std.specs.Prelude.{◌≡◌, ◌++◌, [], IfOk, option_map, true};
ghost use Rattle.jskw_value.specs.Pointer.{escape, member_location};
ghost use Rattle.serde_json.specs.Find.{get_member};
ghost use Rattle.serde_json.specs.View.{view, members_view};
ghost use Rattle.jskw_report.specs.Setting.{has_vocabulary, is_overridden, name_of};
ghost use Rattle.jskw_report.specs.Setting.{with_object_layer};
ghost use Rattle.jskw_report.specs.Paths.{segment_location};
ghost use Rattle.jskw_report.specs.Read.{keyword_location};

use crate::keyword::KeywordName;
use crate::paths::{KeywordLocation, Location, LocationSegment, name_step, step};
use crate::settings::{Draft, Settings, Vocabulary};
use jskw_value::Json;
use serde_json::{Map, Value};
use std::alloc::{AllocError, Global};
use std::marker::{Model, PhantomData};

/// The settings and the keyword location under which a schema or a keyword is compiled. `F` is the
/// representation of the instances that the compiled validators take.
#[derive(Drop)]
#[derive_where(Debug)]
pub struct Context<'s, F: Json> {
    settings: &'s Settings,
    object_layer: bool,
    location: Location,
    // the same as it is kept
    place: KeywordLocation,
    representation: PhantomData<F>,
}

impl<'s, F: Json> Model for Context<'s, F> {
    ghost use Rattle.jskw_report.specs.Setting.{CompilePoint, with_object_layer};

    ghost Value = { CompilePoint };

    ghost view = { λ c. record {
      setting = with_object_layer c.object_layer c.settings.now;
      location = c.location;
    } };

    ghost use Rattle.std.specs.Prelude.{◌≡◌};

    ghost invariant = { λ c. c.place ≡ c.location };
}

impl<'s, F: Json> Context<'s, F> {
    /// Creates the context of a whole schema: the keyword location is the empty pointer. It has an
    /// object layer.
    pub fn new(alloc: Global, settings: &'s Settings) -> Context<'s, F>
        ensures { result ≡ record {
          setting = with_object_layer true settings.now;
          location = [];
        } }
    {
        Context {
            settings,
            object_layer: true,
            location: Location::new(alloc),
            place: KeywordLocation::from(Location::new(alloc)),
            representation: PhantomData,
        }
    }

    /// Returns the context with an object layer, or without one.
    ///
    /// An object layer is other code that asserts the keywords of objects, such as `properties`.
    /// With one, a `required` beside certain keywords of objects is delegated to it: no validator
    /// is made of it (`jskw_leaf::required::is_handed_on` has the rule). Without one, this library
    /// asserts every active `required`.
    #[must_use]
    pub fn with_object_layer(self, object_layer: bool) -> Context<'s, F>
        ensures { result ≡ record {
          setting = with_object_layer object_layer self.entry.setting;
          location = self.entry.location;
        } }
    {
        Context {
            object_layer,
            ..self
        }
    }

    /// Returns whether the context has an object layer.
    pub fn object_layer(&self) -> bool
        ensures { result ≡ self.now.setting.object_layer }
    {
        self.object_layer
    }

    /// Returns the draft.
    pub fn draft(&self) -> Draft
        ensures { result ≡ self.now.setting.draft }
    {
        self.settings.draft()
    }

    /// Returns the keyword location (JSON Schema Core 12.3.1).
    pub fn location(&self) -> &Location
        ensures { result.now ≡ self.now.location }
    {
        &self.location
    }

    /// Returns the context of a schema one step further down, with the same settings and object
    /// layer. The keyword location has `segment` added.
    pub fn new_at_location(
        &self,
        alloc: Global,
        segment: LocationSegment,
    ) -> Result<Context<'s, F>, AllocError>
        ensures { IfOk result (λ c. c ≡ record {
          setting = self.now.setting;
          location = segment_location self.now.location segment.entry;
        }) }
    {
        let place = self.place_below(alloc, step(alloc, segment)?.as_str())?;
        self.at(alloc, place)
    }

    /// Returns the context of the value of `keyword`, with the same settings and object layer.
    pub fn new_at_keyword(
        &self,
        alloc: Global,
        keyword: KeywordName,
    ) -> Result<Context<'s, F>, AllocError>
        ensures { IfOk result (λ c. c ≡ record {
          setting = self.now.setting;
          location = keyword_location self.now.location keyword;
        }) }
    {
        self.at(alloc, self.keyword_location(alloc, keyword)?)
    }

    // Returns the context of a schema at a keyword location.
    fn at(&self, alloc: Global, place: KeywordLocation) -> Result<Context<'s, F>, AllocError>
        ensures { IfOk result (λ c. c ≡ record {
          setting = self.now.setting;
          location = place;
        }) }
    {
        Ok(Context {
            settings: self.settings,
            object_layer: self.object_layer,
            location: place.to_location(alloc)?,
            place,
            representation: PhantomData,
        })
    }

    // Returns the keyword location that a step leads to.
    fn place_below(&self, alloc: Global, step: &str) -> Result<KeywordLocation, AllocError>
        ensures { IfOk result (λ location. location ≡ self.now.location ++ step.now) }
    {
        if !KeywordLocation::is_whole(&self.location, step) {
            if let Some(place) = self.place.below(&self.location, step)? {
                return Ok(place);
            }
        }
        Ok(KeywordLocation::from(self.location.join_text(alloc, step)?))
    }

    /// Returns the keyword location as a compiled schema keeps it.
    pub fn place(&self) -> &KeywordLocation
        ensures { result.now ≡ self.now.location }
    {
        &self.place
    }

    /// Returns the keyword location of `keyword` in the schema that is compiled here: the location
    /// of the schema and the name of the keyword (JSON Schema Core 12.3.1).
    pub fn keyword_location(
        &self,
        alloc: Global,
        keyword: KeywordName,
    ) -> Result<KeywordLocation, AllocError>
        ensures { IfOk result (λ location. location
            ≡ keyword_location self.now.location keyword) }
    {
        self.place_below(alloc, keyword.token())
    }

    /// Returns the keyword location of the member `name` of the schema that is compiled here. The
    /// name must have neither `~` nor `/` in it.
    pub fn member_location(&self, alloc: Global, name: &str) -> Result<KeywordLocation, AllocError>
        requires { escape name.now ≡ name.now }
        ensures { IfOk result (λ location. location
            ≡ member_location self.now.location name.now) }
    {
        self.place_below(alloc, name_step(alloc, name)?.as_str())
    }

    /// Returns whether the vocabulary is present: always in Drafts 4, 6 and 7, otherwise if the
    /// settings contain it (JSON Schema Core 8.1.2).
    pub fn has_vocabulary(&self, vocabulary: Vocabulary) -> bool
        ensures { result ≡ has_vocabulary self.now.setting vocabulary }
    {
        self.settings.has_vocabulary(vocabulary)
    }

    /// Returns whether the name is overridden. Names are compared byte by byte, with each
    /// overridden name; for a keyword of this library, [`overrides`](Context::overrides) takes
    /// constant time.
    pub fn is_keyword_overridden(&self, name: &str) -> bool
        ensures { result ≡ is_overridden self.now.setting name.now }
    {
        self.settings.is_keyword_overridden(name)
    }

    /// Returns whether the name of the keyword is overridden. Takes constant time.
    pub fn overrides(&self, keyword: KeywordName) -> bool
        ensures { result ≡ is_overridden self.now.setting (name_of keyword) }
    {
        self.settings.overrides(keyword)
    }
}

/// Returns the value of the member `name` of a schema object, or `None` if there is no such member.
/// A map of `serde_json` has each name at most once.
pub fn member_of<'v>(parent: &'v Map<String, Value>, name: &str) -> Option<&'v Value>
    ensures { option_map (λ x. view x.now) result
        ≡ get_member name.now (members_view parent.now.entries) }
{
    parent.get(name)
}
