//! Settings, by numbers.
ghost use Rattle.std.specs.Prelude.{◌≡◌, IfOk, map, option_map, string_bytes};
ghost use Rattle.jskw_c.specs.Compiled.{draft_numbered, overridden_in, setting_numbered};
ghost use Rattle.jskw_c.specs.Compiled.{vocabularies_numbered};

use jskw_report::{Draft, Settings, Vocabulary, VocabularySet};
use jskw_service::{overridden_of, read_value};
use std::alloc::{AllocError, Global};

// Returns the settings that the numbers and the names stand for, or `None` if there are none.
pub(crate) fn settings_numbered(
    alloc: Global,
    draft: u32,
    vocabularies: u32,
    overridden: &[u8],
) -> Result<Option<Settings>, AllocError>
    ensures { IfOk result (λ s. s ≡ setting_numbered draft vocabularies overridden.now) }
{
    let Some(draft) = draft_numbered(draft) else {
        return Ok(None);
    };
    let Some(vocabularies) = vocabularies_numbered(vocabularies) else {
        return Ok(None);
    };
    let Some(overridden) = overridden_in(alloc, overridden)? else {
        return Ok(None);
    };
    Ok(Some(Settings::new(draft, vocabularies, overridden)))
}

// Returns the draft of a number.
fn draft_numbered(number: u32) -> Option<Draft>
    ensures { result ≡ draft_numbered number }
{
    match number {
        4 => Some(Draft::Draft4),
        6 => Some(Draft::Draft6),
        7 => Some(Draft::Draft7),
        2019 => Some(Draft::Draft201909),
        2020 => Some(Draft::Draft202012),
        _ => None,
    }
}

// Returns the set of vocabularies of a number: 1 for the core, 2 for the applicator and 4 for
// validation, added up.
fn vocabularies_numbered(number: u32) -> Option<VocabularySet>
    ensures { result ≡ vocabularies_numbered number }
{
    if number > 7 {
        return None;
    }
    let mut vocabularies = VocabularySet::empty();
    if number % 2 == 1 {
        vocabularies = vocabularies.insert(Vocabulary::Core);
    }
    if number / 2 % 2 == 1 {
        vocabularies = vocabularies.insert(Vocabulary::Applicator);
    }
    if number / 4 == 1 {
        vocabularies = vocabularies.insert(Vocabulary::Validation);
    }
    Some(vocabularies)
}

// Returns the strings of a JSON array, or none if there are no bytes.
fn overridden_in(alloc: Global, bytes: &[u8]) -> Result<Option<Vec<String>>, AllocError>
    ensures { IfOk result (λ o. option_map (λ names. map string_bytes names.items) o
        ≡ overridden_in bytes.now) }
{
    if bytes.len() == 0 {
        return overridden_of(alloc, None);
    }
    match read_value(alloc, bytes)? {
        Some(value) => overridden_of(alloc, Some(&value)),
        None => Ok(None),
    }
}
