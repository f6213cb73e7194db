//! The settings of a compile: the draft, the vocabularies, and the overridden keywords.
ghost use Rattle.std.specs.Prelude.{◌≡◌, map, string_bytes, true};
ghost use Rattle.std.specs.List.{list_any};
ghost use Rattle.std.specs.Str.{bytes_eq};
ghost use Rattle.jskw_report.specs.Overridden.{overridden_marks};
ghost use Rattle.jskw_report.specs.Setting.{has, with_vocabulary, no_vocabulary, all_vocabularies};
ghost use Rattle.jskw_report.specs.Setting.{has_vocabulary, is_overridden, name_of};

use crate::keyword::KeywordName;
use std::marker::Model;

/// A draft of JSON Schema.
#[derive(Clone, Copy, PartialEq, Eq, Debug)]
pub enum Draft {
    /// Draft 4.
    Draft4,
    /// Draft 6.
    Draft6,
    /// Draft 7.
    Draft7,
    /// Draft 2019-09.
    Draft201909,
    /// Draft 2020-12.
    Draft202012,
}

/// A vocabulary of Drafts 2019-09 and 2020-12 (JSON Schema Core 8.1). This library uses these
/// three.
#[derive(Clone, Copy, PartialEq, Eq, Debug)]
pub enum Vocabulary {
    /// The core vocabulary, with `$schema` and `$ref` (JSON Schema Core 8).
    Core,
    /// The applicator vocabulary, of the keywords with subschemas (JSON Schema Core 10).
    Applicator,
    /// The validation vocabulary, of the other assertions (JSON Schema Validation 6).
    Validation,
}

/// A set of vocabularies. Drafts 4, 6 and 7 have all of them, whatever the set.
#[derive(Clone, Copy, PartialEq, Eq, Debug)]
pub struct VocabularySet {
    core: bool,
    applicator: bool,
    validation: bool,
}

impl VocabularySet {
    /// Returns the empty set.
    pub fn empty() -> VocabularySet
        ensures { result ≡ no_vocabulary }
    {
        VocabularySet {
            core: false,
            applicator: false,
            validation: false,
        }
    }

    /// Returns the set of all three vocabularies.
    pub fn all() -> VocabularySet
        ensures { result ≡ all_vocabularies }
    {
        VocabularySet::empty()
            .insert(Vocabulary::Core)
            .insert(Vocabulary::Applicator)
            .insert(Vocabulary::Validation)
    }

    /// Returns the set with this vocabulary added.
    #[must_use]
    pub fn insert(self, vocabulary: Vocabulary) -> VocabularySet
        ensures { result ≡ with_vocabulary vocabulary self }
    {
        match vocabulary {
            Vocabulary::Core => VocabularySet { core: true, ..self },
            Vocabulary::Applicator => VocabularySet {
                applicator: true,
                ..self
            },
            Vocabulary::Validation => VocabularySet {
                validation: true,
                ..self
            },
        }
    }

    /// Returns whether the set contains this vocabulary.
    pub fn contains(&self, vocabulary: Vocabulary) -> bool
        ensures { result ≡ has self.now vocabulary }
    {
        match vocabulary {
            Vocabulary::Core => self.core,
            Vocabulary::Applicator => self.applicator,
            Vocabulary::Validation => self.validation,
        }
    }
}

/// The settings of a compile: the draft, the vocabularies, and the names of the overridden
/// keywords, which this library does not assert, so that a caller can assert them in another way.
/// Other keywords still read the values of overridden ones: see
/// [`KeywordName::is_active`](crate::KeywordName::is_active).
#[derive(Debug, Drop)]
pub struct Settings {
    draft: Draft,
    vocabularies: VocabularySet,
    overridden: Vec<String>,
    // for each keyword, whether its name is one of `overridden`
    marks: [bool; KeywordName::COUNT],
}

impl Model for Settings {
    ghost use Rattle.std.specs.Prelude.{◌≡◌, map, string_bytes, true};
    ghost use Rattle.jskw_report.specs.Overridden.{overridden_marks};
    ghost use Rattle.jskw_report.specs.Setting.{Setting};

    ghost Value = { Setting };

    ghost view = { λ s. record {
      draft = s.draft;
      vocabularies = s.vocabularies;
      overridden = map string_bytes s.overridden.items;
      object_layer = true;
    } };

    ghost invariant = { λ s. s.marks ≡ overridden_marks (map string_bytes s.overridden.items) };
}

impl Settings {
    /// Creates the settings from these three parts. An overridden name may be any text, and may be
    /// there twice. Takes time in proportion to the number of names;
    /// [`KeywordName::is_active`](crate::KeywordName::is_active) then takes the same time for any number.
    pub fn new(draft: Draft, vocabularies: VocabularySet, overridden: Vec<String>) -> Settings
        ensures { result ≡ record {
          draft = draft;
          vocabularies = vocabularies;
          overridden = map string_bytes overridden.items;
          object_layer = true;
        } }
    {
        Settings {
            draft,
            vocabularies,
            marks: marks_of(&overridden),
            overridden,
        }
    }

    /// Returns the draft.
    pub fn draft(&self) -> Draft
        ensures { result ≡ self.now.draft }
    {
        self.draft
    }

    /// Returns whether the vocabulary is present: always in Drafts 4, 6 and 7, otherwise if the set
    /// contains it (JSON Schema Core 8.1.2).
    pub fn has_vocabulary(&self, vocabulary: Vocabulary) -> bool
        ensures { result ≡ has_vocabulary self.now vocabulary }
    {
        match self.draft {
            Draft::Draft4 | Draft::Draft6 | Draft::Draft7 => true,
            Draft::Draft201909 | Draft::Draft202012 => self.vocabularies.contains(vocabulary),
        }
    }

    /// Returns whether the name is overridden. Names are compared byte by byte, with each
    /// overridden name; for a keyword of this library, [`overrides`](Settings::overrides) takes
    /// constant time.
    pub fn is_keyword_overridden(&self, name: &str) -> bool
        ensures { result ≡ is_overridden self.now name.now }
    {
        is_among(&self.overridden, name)
    }

    /// Returns whether the name of the keyword is overridden. Takes constant time.
    #[tactic(auto, using(crate::proofs::OverriddenKeywords::lemmas))]
    pub fn overrides(&self, keyword: KeywordName) -> bool
        ensures { result ≡ is_overridden self.now (name_of keyword) }
    {
        self.marks[keyword.index()]
    }
}

// Returns for each keyword whether its name is one of these.
fn marks_of(names: &[String]) -> [bool; KeywordName::COUNT]
    ensures { result ≡ overridden_marks (map string_bytes names.now) }
{
    let mut marks = [false; KeywordName::COUNT];
    for (i, keyword) in KeywordName::ALL.iter().enumerate() {
        marks[i] = is_among(names, keyword.as_str());
    }
    marks
}

// Returns whether the name is one of these, byte by byte.
fn is_among(names: &[String], name: &str) -> bool
    ensures { result ≡ list_any (bytes_eq name.now) (map string_bytes names.now) }
{
    for own in names {
        if name == own.as_str() {
            return true;
        }
    }
    false
}
