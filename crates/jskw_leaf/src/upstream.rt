//! Names that the Rust crate has for validators which are one type here. Nothing of this repository
//! uses them: code that was written for that crate finds them in the modules of their keywords.
use crate::const_::ConstValueValidator;
use crate::required::Required3Validator;

/// A [`ConstValueValidator`] of an array.
pub type ConstArrayValidator = ConstValueValidator;

/// A [`ConstValueValidator`] of a boolean.
pub type ConstBooleanValidator = ConstValueValidator;

/// A [`ConstValueValidator`] of null.
pub type ConstNullValidator = ConstValueValidator;

/// A [`ConstValueValidator`] of a number.
pub type ConstNumberValidator = ConstValueValidator;

/// A [`ConstValueValidator`] of an object.
pub type ConstObjectValidator = ConstValueValidator;

/// A [`ConstValueValidator`] of a string.
pub type ConstStringValidator = ConstValueValidator;

/// The validator of `required` with one name.
pub type SingleItemRequiredValidator<F> = Required3Validator<F>;

/// The validator of `required` with two names.
pub type Required2Validator<F> = Required3Validator<F>;
