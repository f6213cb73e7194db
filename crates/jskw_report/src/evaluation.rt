//! Evaluations: what keywords and schemas report of an instance, besides whether it is valid (JSON
//! Schema Core 12.3).
ghost use Rattle.std.specs.Prelude.{◌≡◌, IfOk, None, Some, string_bytes};
ghost use Rattle.std.specs.List.{list_all};
ghost use Rattle.jskw_report.specs.Kind.{keyword_of};
ghost use Rattle.jskw_report.specs.Errors.{failure_of};
ghost use Rattle.jskw_report.specs.Evaluation.{invalid_unit, is_valid, of_children, valid_unit};
ghost use Rattle.jskw_report.specs.EvaluationParts.{annotation_of, keywords_of};
ghost use Rattle.jskw_report.specs.EvaluationView.{descriptions_of, result_of};

mod node;

use crate::error::ValidationError;
use jskw_value::Json;
pub use node::EvaluationNode;
use std::alloc::{AllocError, Global};
use std::marker::Model;

/// The description of one error: the keyword that failed, and a message.
#[derive(Debug)]
pub struct ErrorDescription {
    keyword: &'static str,
    message: String,
}

impl Drop for ErrorDescription {
    fn drop(self) {
        let ErrorDescription {
            keyword: _,
            message: _,
        } = self;
    }
}

impl Model for ErrorDescription {
    ghost use Rattle.std.specs.Prelude.{string_bytes};
    ghost use Rattle.jskw_report.specs.EvaluationParts.{Description};

    ghost Value = { Description };

    ghost view = { λ d. record { keyword = d.keyword.now; message = string_bytes d.message } };
}

impl ErrorDescription {
    /// Creates a description of this keyword and message.
    pub fn new(keyword: &'static str, message: String) -> ErrorDescription
        ensures { result ≡ record { keyword = keyword.now; message = string_bytes message } }
    {
        ErrorDescription { keyword, message }
    }

    /// Returns the description of an error: the [`keyword`](crate::ValidationErrorKind::keyword) of
    /// its kind and its message.
    pub fn from_validation_error<F: Json>(
        alloc: Global,
        error: &ValidationError<F>,
    ) -> Result<ErrorDescription, AllocError>
        ensures { IfOk result (λ d. d.keyword
            ≡ keyword_of (failure_of F.Node.tree error.now).kind) }
    {
        Ok(ErrorDescription {
            keyword: error.kind().keyword(),
            message: error.message(alloc)?,
        })
    }

    /// Returns the name of the keyword that failed.
    pub fn keyword(&self) -> &'static str
        ensures { result.now ≡ self.now.keyword }
    {
        self.keyword
    }

    /// Returns the message, a text for people.
    pub fn message(&self) -> &str
        ensures { result.now ≡ self.now.message }
    {
        self.message.as_str()
    }
}

/// The annotation of a keyword: what it reports of an array besides whether it is valid (JSON
/// Schema Core 7.7).
#[derive(Debug, PartialEq, Eq, Drop)]
pub enum Annotations {
    /// For `items` with one schema: whether it was applied to any item (JSON Schema Core 10.3.1.2).
    /// For `prefixItems`: `true` if every item has a schema (JSON Schema Core 10.3.1.1).
    Bool(bool),
    /// For `prefixItems`: the largest index that has a schema, if not every item has one (JSON
    /// Schema Core 10.3.1.1).
    Index(usize),
    /// For `contains`: the indices of the items that match, in order (JSON Schema Core 10.3.1.3).
    Indices(Vec<usize>),
}

/// What one keyword reports of an instance: a unit of the evaluation (JSON Schema Core 12.3),
/// without its locations. An [`EvaluationNode`] adds them.
#[derive(Debug, Drop)]
pub enum EvaluationResult {
    /// The keyword accepts the instance.
    Valid {
        /// The annotation, if the keyword has one.
        annotations: Option<Annotations>,
        /// The nodes below, in order (JSON Schema Core 12.3.5).
        children: Vec<EvaluationNode>,
    },
    /// The keyword does not accept the instance.
    Invalid {
        /// The annotation, if the keyword has one.
        annotations: Option<Annotations>,
        /// The nodes below, in order (JSON Schema Core 12.3.5).
        children: Vec<EvaluationNode>,
        /// The descriptions of the errors that the keyword itself reports, in order (JSON Schema
        /// Core 12.3.4).
        errors: Vec<ErrorDescription>,
    },
}

impl EvaluationResult {
    /// Returns a valid unit with no annotation and no nodes.
    pub fn valid_empty(alloc: Global) -> EvaluationResult
        ensures { result_of result ≡ valid_unit }
    {
        EvaluationResult::Valid {
            annotations: None,
            children: Vec::new(alloc),
        }
    }

    /// Returns an invalid unit with these descriptions, no annotation and no nodes.
    pub fn invalid_empty(alloc: Global, errors: Vec<ErrorDescription>) -> EvaluationResult
        ensures unit { result_of result ≡ invalid_unit (keywords_of errors.items) }
        ensures descriptions { descriptions_of result ≡ errors.items }
    {
        EvaluationResult::Invalid {
            annotations: None,
            children: Vec::new(alloc),
            errors,
        }
    }

    /// Returns a unit with these nodes below it (JSON Schema Core 12.3.5), no annotation and no
    /// descriptions. It is valid if all of them are, and so if there are none.
    pub fn from_children(alloc: Global, children: Vec<EvaluationNode>) -> EvaluationResult
        ensures { result_of result ≡ of_children None children.items }
    {
        if all_valid(children.as_slice()) {
            EvaluationResult::Valid {
                annotations: None,
                children,
            }
        } else {
            EvaluationResult::Invalid {
                annotations: None,
                children,
                errors: Vec::new(alloc),
            }
        }
    }

    /// Sets the annotation, or replaces it. All else is unchanged: a valid unit stays valid, an
    /// invalid one invalid.
    pub fn annotate(&mut self, annotations: Annotations)
        ensures unit { result_of self.new
            ≡ record (result_of self.old) { annotation = Some (annotation_of annotations) } }
        ensures descriptions { descriptions_of self.new ≡ descriptions_of self.old }
    {
        match self {
            EvaluationResult::Valid {
                annotations: slot,
                ..
            } => *slot = Some(annotations),
            EvaluationResult::Invalid {
                annotations: slot,
                ..
            } => *slot = Some(annotations),
        }
    }
}

fn all_valid(nodes: &[EvaluationNode]) -> bool
    ensures { result ≡ list_all is_valid nodes.now }
{
    nodes.iter().all(EvaluationNode::valid)
}
