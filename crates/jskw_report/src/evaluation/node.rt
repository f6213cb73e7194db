//! The nodes of an evaluation tree.
ghost use Rattle.std.specs.Prelude.{◌≡◌, IfOk, option_map};
ghost use Rattle.jskw_report.specs.Evaluation.{annotation_at, children_at, evaluations};
ghost use Rattle.jskw_report.specs.Evaluation.{instance_location_at, is_valid};
ghost use Rattle.jskw_report.specs.Evaluation.{keyword_location_at, keywords_at, node_at};
ghost use Rattle.jskw_report.specs.EvaluationParts.{AreSmaller, annotation_of, keywords_of, weight};
ghost use Rattle.jskw_report.specs.EvaluationView.{result_of};

use crate::evaluation::{Annotations, ErrorDescription, EvaluationResult};
use crate::paths::{KeywordLocation, Location};
use std::alloc::{AllocError, Global};
use std::marker::Model;

/// A node of the evaluation tree: what a keyword or a schema reports of an instance, with the
/// locations of both (JSON Schema Core 12.3).
///
/// The node of a schema has a node below it for each keyword that asserts something. The node of a
/// keyword has one for each item that it checks against a subschema (JSON Schema Core 12.3.5), with
/// two exceptions: `contains` has them for the items that match, and none if it fails;
/// `additionalItems` has none.
#[derive(Debug, Drop)]
pub struct EvaluationNode {
    evaluation_path: Location,
    instance_location: Location,
    valid: bool,
    annotations: Option<Annotations>,
    errors: Vec<ErrorDescription>,
    children: Vec<EvaluationNode>,
}

impl Model for EvaluationNode {
    ghost use Rattle.std.specs.Prelude.{option_map};
    ghost use Rattle.std.proofs.Common.{arith};
    ghost use Rattle.jskw_report.specs.Evaluation.{Evaluation, evaluations, node};
    ghost use Rattle.jskw_report.specs.EvaluationCode.{evaluation_code};
    ghost use Rattle.jskw_report.specs.EvaluationParts.{annotation_of, keywords_of};
    ghost use Rattle.jskw_report.specs.EvaluationParts.{most_le_weights, weight};

    ghost Value = { Evaluation };

    ghost coded = { evaluation_code };

    ghost view = { λ n. node n.valid n.evaluation_path n.instance_location
        (option_map annotation_of n.annotations) (keywords_of n.errors.items)
        (evaluations n.children.items) };

    ghost size = { weight };

    ghost size_decreases = { λ n h. omega (arith, most_le_weights n.children.items) };
}

impl EvaluationNode {
    /// Creates the node of a unit. `schema_location` is the location of the keyword or schema; both locations
    /// are copied. If memory runs out, the unit is dropped.
    pub fn new(
        alloc: Global,
        unit: EvaluationResult,
        schema_location: &Location,
        instance_location: &Location,
    ) -> Result<EvaluationNode, AllocError>
        ensures { IfOk result (λ n. n
            ≡ node_at schema_location.now instance_location.now (result_of unit)) }
    {
        EvaluationNode::of_unit(alloc, unit, schema_location.copy()?, instance_location)
    }

    /// Creates the node of a unit for the keyword location of a validator. If memory runs out, the
    /// unit is dropped.
    #[inline(always)]
    pub fn at_keyword(
        alloc: Global,
        unit: EvaluationResult,
        schema_location: &KeywordLocation,
        instance_location: &Location,
    ) -> Result<EvaluationNode, AllocError>
        ensures { IfOk result (λ n. n
            ≡ node_at schema_location.now instance_location.now (result_of unit)) }
    {
        EvaluationNode::of_unit(
            alloc,
            unit,
            schema_location.to_location(alloc)?,
            instance_location,
        )
    }

    // Creates the node of a unit.
    #[inline(always)]
    fn of_unit(
        alloc: Global,
        unit: EvaluationResult,
        evaluation_path: Location,
        instance_location: &Location,
    ) -> Result<EvaluationNode, AllocError>
        ensures { IfOk result (λ n. n
            ≡ node_at evaluation_path instance_location.now (result_of unit)) }
    {
        let instance_location = instance_location.copy()?;
        match unit {
            EvaluationResult::Valid {
                annotations,
                children,
            } => Ok(EvaluationNode {
                evaluation_path,
                instance_location,
                valid: true,
                annotations,
                errors: Vec::new(alloc),
                children,
            }),
            EvaluationResult::Invalid {
                annotations,
                children,
                errors,
            } => Ok(EvaluationNode {
                evaluation_path,
                instance_location,
                valid: false,
                annotations,
                errors,
                children,
            }),
        }
    }

    /// Returns whether the keyword or schema accepts the instance.
    pub fn valid(&self) -> bool
        ensures { result ≡ is_valid self.now }
    {
        self.valid
    }

    /// Returns the location of the keyword or schema, along the path of the schemas that were
    /// applied (JSON Schema Core 12.3.1).
    pub fn evaluation_path(&self) -> &Location
        ensures { result.now ≡ keyword_location_at self.now }
    {
        &self.evaluation_path
    }

    /// Returns the location of the keyword or schema in the schema document (JSON Schema Core
    /// 12.3.2). It is the same as `evaluation_path`, since no keyword of this library refers to
    /// another schema.
    pub fn schema_location(&self) -> &Location
        ensures { result.now ≡ keyword_location_at self.now }
    {
        &self.evaluation_path
    }

    /// Returns the instance location (JSON Schema Core 12.3.3).
    pub fn instance_location(&self) -> &Location
        ensures { result.now ≡ instance_location_at self.now }
    {
        &self.instance_location
    }

    /// Returns the annotation of the keyword, if it has one (JSON Schema Core 7.7). An invalid node
    /// keeps its annotation by this library's own rule: the standard drops it (JSON Schema Core
    /// 7.7.1.2).
    pub fn annotations(&self) -> Option<&Annotations>
        ensures { option_map (λ a. annotation_of a.now) result ≡ annotation_at self.now }
    {
        self.annotations.as_ref()
    }

    /// Returns the descriptions of the errors that the keyword or schema itself reports, in order
    /// (JSON Schema Core 12.3.4).
    pub fn errors(&self) -> &[ErrorDescription]
        ensures { keywords_of result.now ≡ keywords_at self.now }
    {
        self.errors.as_slice()
    }

    /// Returns the nodes below, in order (JSON Schema Core 12.3.5). The tree of each has fewer
    /// nodes than that of this node, so a function that calls itself for each child returns.
    #[tactic(auto, using(crate::proofs::SmallerNodes::are_smaller))]
    pub fn children(&self) -> &[EvaluationNode]
        ensures nodes { evaluations result.now ≡ children_at self.now }
        ensures smaller { AreSmaller result.now (weight self.now) }
    {
        self.children.as_slice()
    }
}
