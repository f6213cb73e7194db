//! Options in a table, which may leave out null (JSON Schema Validation 6.1.2).
ghost use Rattle.std.specs.Prelude.{◌≡◌, Bool, IfOk, IsSome, IsTrue, true};
ghost use Rattle.serde_json.specs.Data.{Data, Items, array};
ghost use Rattle.serde_json.specs.Find.{as_array};
ghost use Rattle.serde_json.specs.View.{view, items_view};
ghost use Rattle.jskw_value.specs.Tree.{Tree, is_lawful};
ghost use Rattle.jskw_report.specs.Holds.{is_option};
ghost use Rattle.jskw_report.specs.Meaning.{as_keyword};
ghost use Rattle.jskw_number.specs.QuickSet.{Accepts, is_in};
ghost use Rattle.jskw_leaf.specs.Options.{AreOptions, only, options_of};

use super::not_among;
use jskw_number::QuickSet;
use jskw_report::{Assertion, KeywordLocation, ValidationErrorKind};
use jskw_value::{Json, Node, Nullability};
use serde_json::Value;
use std::alloc::{AllocError, Global};
use std::marker::{Model, PhantomData};

/// A table in which an instance is looked up. Implemented for options of one type and of any types.
pub trait OptionTable: Sized {
    /// The values of a schema that the table can contain.
    ghost takes: { Data → Bool };

    /// The instances that equal an option in the table.
    ghost has: { Self → Tree → Bool };

    /// For the items of `enum`: whether null is among them and left out of the table.
    ghost leaves_out_null: { Items → Bool };

    /// Returns whether the table can contain this value of a schema.
    fn takes(value: &Value) -> bool
        ensures { result ≡ takes (view value.now) };

    /// Creates the table. `options` is the value of `enum`, and `items` are its items: each must be
    /// null or a value that the table can contain. Fails only if memory runs out.
    fn new(alloc: Global, options: &Value, items: &[Value]) -> Result<Self, AllocError>
        requires { only takes (items_view items.now) ≡ true }
        ensures { let all = items_view items.now in
            IfOk result (λ table. AreOptions (has table) (leaves_out_null all) all) };

    /// Returns values that equal an option in the table.
    fn quick_set(&self) -> QuickSet
        ensures { (t : Tree) → is_in result t ≡ true → has self.now t ≡ true };

    /// Returns whether the instance equals an option in the table. The instance must be lawful: it
    /// contains no float. Allocates nothing.
    fn has<F: Json>(&self, instance: &F::Node) -> bool
        requires { IsTrue (is_lawful (F.Node.tree instance.now)) }
        ensures { result ≡ has self.now (F.Node.tree instance.now) };
}

// The value of `enum`, with a table of its items. If `N` is `Nullable`, null is an option that the
// table leaves out. In contracts it is the value.
#[derive(Drop)]
#[derive_where(Debug; T)]
pub(crate) struct Listed<T: OptionTable, N: Nullability> {
    options: Value,
    table: T,
    nullability: PhantomData<N>,
}

impl<T: OptionTable, N: Nullability> Model for Listed<T, N> {
    ghost use Rattle.std.specs.Coded.{codes};
    ghost use Rattle.std.specs.Prelude.{IsSome};
    ghost use Rattle.serde_json.specs.Find.{as_array};
    ghost use Rattle.serde_json.specs.View as json;
    ghost use Rattle.serde_json.specs.contracts.value.Value as value;
    ghost use Rattle.serde_json.specs.declared.value.Value as declared;
    ghost use Rattle.jskw_leaf.specs.Options.{AreOptions, options_of};

    ghost Value = { declared.Value };

    ghost coded = { Prim.hlevel (codes, value.the_row.coded) };

    ghost view = { λ l. l.options };

    ghost invariant = { λ l. record {
      array : IsSome (as_array (json.view l.options));
      tabled : AreOptions (T.has l.table) N.ACCEPTS_NULL (options_of (json.view l.options));
    } };
}

impl<T: OptionTable, N: Nullability> Listed<T, N> {
    // Returns whether the instance equals one of the options.
    fn accepts<F: Json>(&self, instance: &F::Node) -> bool
        requires { IsTrue (is_lawful (F.Node.tree instance.now)) }
        ensures { result ≡ is_option (options_of (view self.now)) (F.Node.tree instance.now) }
    {
        self.table.has::<F>(instance) || (N::ACCEPTS_NULL && instance.is_null())
    }

    // Returns values that equal one of the options.
    fn quick_set(&self) -> QuickSet
        ensures { (t : Tree) → is_in result t ≡ true
            → is_option (options_of (view self.now)) t ≡ true }
    {
        self.table.quick_set()
    }

    // Returns the value of `enum`, an array.
    fn options(&self) -> &Value
        ensures value { view result.now ≡ view self.now }
        ensures array { IsSome (as_array (view result.now)) }
    {
        &self.options
    }
}

/// The validator of the options in a table `T`. If `N` is [`Nullable`](jskw_value::Nullable), null
/// is an option too.
#[derive(Drop)]
#[derive_where(Debug; T)]
pub struct TableEnumValidator<T: OptionTable, N: Nullability> {
    listed: Listed<T, N>,
    location: KeywordLocation,
}

impl<T: OptionTable, N: Nullability> TableEnumValidator<T, N> {
    ghost use Rattle.jskw_leaf.specs.Meaning.{among_at, enum_table};

    // Creates the validator. `options` is the value of `enum`, and `items` are its items: each must
    // be null or a value that the table can contain. `N` must be `Nullable` exactly if null is among
    // them and left out of the table. `location` is the keyword location.
    pub(super) fn compile(
        alloc: Global,
        options: &Value,
        items: &[Value],
        location: KeywordLocation,
    ) -> Result<TableEnumValidator<T, N>, AllocError>
        requires array { view options.now ≡ array (items_view items.now) }
        requires taken { only T.takes (items_view items.now) ≡ true }
        requires null { N.ACCEPTS_NULL ≡ T.leaves_out_null (items_view items.now) }
        ensures { IfOk result (λ v. enum_table v ≡ among_at location options.now) }
    {
        let listed = Listed {
            options: options.clone()?,
            table: T::new(alloc, options, items)?,
            nullability: PhantomData,
        };
        Ok(TableEnumValidator { listed, location })
    }

    /// Returns values that equal one of the options.
    pub fn quick_set(&self) -> QuickSet
        ensures { Accepts result (as_keyword (enum_table self.now)) }
    {
        self.listed.quick_set()
    }
}

impl<T: OptionTable, N: Nullability> Assertion for TableEnumValidator<T, N> {
    ghost use Rattle.jskw_leaf.specs.Meaning.{enum_table};

    ghost asserts = { enum_table };

    fn holds<F: Json>(&self, instance: &F::Node) -> bool {
        self.listed.accepts::<F>(instance)
    }

    fn kind(&self) -> ValidationErrorKind<'_> {
        not_among(self.listed.options())
    }

    fn location(&self) -> &KeywordLocation {
        &self.location
    }
}
