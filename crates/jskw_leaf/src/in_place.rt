//! Checks of items that apply no subschema: [bare type checks](bare), which test each item for
//! [one type](item_type); [`additionalItems` of `false`](no_more); and of the [fused shape of an
//! array](fusion) the [keywords that are checked before its items](absorbed).
pub mod absorbed;
mod assertion_node;
pub mod bare;
pub mod fusion;
pub mod item_type;
pub mod no_more;

pub use absorbed::AbsorbedKeywords;
pub use bare::BareItems;
pub use fusion::{array_shape_fusion, is_array_shape};
pub use item_type::{
    BooleanItems, IntegerItems, IntegerItemsDraft4, ItemType, ItemsTypeValidator, NumberItems,
    StringItems,
};
pub use no_more::AdditionalItemsBooleanValidator;
