//! Names that the Rust crate has for validators which are one type here: by the way in which the
//! subschemas of a keyword meet the items, [`Each`], [`Rest`] or [`Matching`]. Nothing of this
//! repository uses them: code that was written for that crate finds them in the modules of their
//! keywords.
use crate::each::Each;
use crate::matching::Matching;
use crate::rest::Rest;

/// The validator of `items` of an array of schemas.
pub type ItemsArrayValidator<F> = Each<F>;

/// The validator of `prefixItems`.
pub type PrefixItemsValidator<F> = Each<F>;

/// The validator of `items` of one schema, for every item.
pub type ItemsObjectValidator<F> = Rest<F>;

/// The validator of `items` of one schema, for the items behind those of `prefixItems`.
pub type ItemsObjectSkipPrefixValidator<F> = Rest<F>;

/// The validator of `additionalItems` of a schema.
pub type AdditionalItemsObjectValidator<F> = Rest<F>;

/// The validator of `contains` without bounds.
pub type ContainsValidator<F> = Matching<F>;

/// The validator of `contains` with `minContains`.
pub type MinContainsValidator<F> = Matching<F>;

/// The validator of `contains` with `maxContains`.
pub type MaxContainsValidator<F> = Matching<F>;

/// The validator of `contains` with both bounds.
pub type MinMaxContainsValidator<F> = Matching<F>;
