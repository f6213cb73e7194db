//! `type` in Draft 4 (Draft 4 Validation 5.5.2): a number is an integer if it is written without a
//! fraction, so `1.0` is not.
ghost use Rattle.std.specs.Prelude.{◌≡◌, IsTrue};
ghost use Rattle.jskw_value.specs.Number.{is_exact, is_written_as_integer};
ghost use Rattle.jskw_value.specs.declared.types.JsonType.TheVariants.{Integer};
ghost use Rattle.jskw_report.specs.Keyword.{as_written};

pub use crate::type_::{MultipleTypesValidator, compile};
use crate::type_::{SingleTypeValidator, TypeTest};
use jskw_value::{Json, JsonNumber, JsonType, Node};

/// The type `integer`: a number that is written without a fraction.
#[derive(Clone, Copy, Debug)]
pub struct IntegerType;

impl TypeTest for IntegerType {
    ghost json_type = { Integer };

    ghost rule = { as_written };

    fn json_type() -> JsonType {
        JsonType::Integer
    }

    fn matches<F: Json>(instance: &F::Node) -> bool {
        match instance.as_number() {
            Some(number) => is_integer(number),
            None => false,
        }
    }
}

/// The validator of the type `integer`.
pub type IntegerTypeValidator = SingleTypeValidator<IntegerType>;

/// Returns [`is_written_as_integer`](JsonNumber::is_written_as_integer) of the number: whether it
/// is written without a fraction. The number must be a decimal, not a float.
pub fn is_integer<N: JsonNumber>(number: &N) -> bool
    requires { IsTrue (is_exact (N.number number.now)) }
    ensures { result ≡ is_written_as_integer (N.number number.now) }
{
    number.is_written_as_integer()
}
