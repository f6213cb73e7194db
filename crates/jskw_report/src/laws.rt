//! Laws that the definitions obey for every schema and every instance. Each law is the contract of
//! a function that does nothing.
ghost use Rattle.std.specs.Prelude.{IsTrue};
ghost use Rattle.jskw_value.specs.Equality.{same};
ghost use Rattle.jskw_report.specs.Laws.{HoldsWhereNothingFails, KeywordHoldsWhereNothingFails};
ghost use Rattle.jskw_report.specs.Laws.{TreeIsValidWhereHolds, UnitIsValidWhereHolds};
ghost use Rattle.jskw_report.specs.Laws.{FailsAlikeBelow, HoldsElsewhere, ConstIsOneOption};
ghost use Rattle.jskw_report.specs.Laws.{ContainsMatches, FirstFloatIsOne, NeedsSomePairs};
ghost use Rattle.jskw_report.specs.Laws.{PairsMeetAtOneDepth, SameTreesAreOne, CannotBeToldApart};

use jskw_value::json::Node;
use jskw_value::names::names_are_distinct;

/// A schema accepts an instance exactly if the instance has no errors, whatever its location; the
/// same is true of a keyword. The evaluation tree is valid exactly if the schema accepts the
/// instance, and the unit of a keyword exactly if the keyword does.
pub fn verdicts_agree()
    ensures errors { HoldsWhereNothingFails }
    ensures keyword_errors { KeywordHoldsWhereNothingFails }
    ensures trees { TreeIsValidWhereHolds }
    ensures units { UnitIsValidWhereHolds }
{}

/// If an instance is moved to another location, only the beginnings of the instance locations of
/// its errors change.
pub fn locations_are_beginnings()
    ensures { FailsAlikeBelow }
{}

/// A keyword that is about numbers, arrays or objects accepts every instance of another type (JSON
/// Schema Core 7.6.1).
pub fn keywords_hold_elsewhere()
    ensures { HoldsElsewhere }
{}

/// `const` with a value accepts the same instances as `enum` with that value alone, wherever the
/// two are and whatever is beside them. If both are active and each is alone in its schema, both
/// schemas compile or neither does (JSON Schema Validation 6.1.2, 6.1.3).
pub fn const_is_one_option()
    ensures { ConstIsOneOption }
{}

/// `contains` accepts every instance if `minContains` is 0 and there is no `maxContains`. Without
/// `minContains` it needs a match in every array; with neither bound it needs no more than that
/// match (JSON Schema Core 10.3.1.3, Validation 6.4.4, 6.4.5). A bound that `contains` does not
/// read counts as absent.
pub fn contains_needs_matches()
    ensures { ContainsMatches }
{}

/// The float for which `const` or `enum` refuses a value is the one that
/// [`first_unlawful`](jskw_value::Node::first_unlawful) finds in it: the first one depth first,
/// items by index and members in their order.
pub fn first_float_is_one()
    ensures { FirstFloatIsOne }
{}

/// No more subschema applications are needed up to the first failure than there are pairs of a
/// schema and a node in all. Each pair is at one depth, and at each depth there are at most as many
/// pairs as schemas times nodes.
pub fn applications_are_bounded()
    ensures needed { NeedsSomePairs }
    ensures depths { PairsMeetAtOneDepth }
{}

/// Two trees that differ at most in the order of members get the same verdicts, errors, evaluations
/// and counts from every schema. In each object the names must be distinct.
pub fn same_trees_are_one()
    ensures { SameTreesAreOne }
{}

/// Two nodes, whatever their representations, get the same verdicts, errors, evaluations and counts
/// from every schema. Their trees must be the same but for the order of members.
pub fn same_nodes_are_one<N: Node, M: Node>(left: &N, right: &M)
    requires { IsTrue (same (N.tree left.now) (M.tree right.now)) }
    ensures { CannotBeToldApart (N.tree left.now) (M.tree right.now) }
{
    names_are_distinct(left);
    names_are_distinct(right);
}
