//! The errors of an object that lacks required names: one for each, in the order of the names.
ghost use Rattle.jskw_report.specs.Observe.{Reports};
ghost use Rattle.jskw_report.specs.Paths.{path_of};
ghost use Rattle.jskw_leaf.specs.Required.{required_fails};

use super::lookup::{is_missing, scanned};
use super::names::Names;
use jskw_report::validator::report_error;
use jskw_report::{KeywordLocation, LazyLocation, Report, Stop, ValidationErrorKind};
use jskw_value::{Json, Node};

// Adds the error of each missing name to `report`, until no other is wanted.
pub(crate) fn report_missing<'i, F: Json + 'i, L: Names<F>>(
    names: &'i L,
    schema_path: &'i KeywordLocation,
    instance: &'i F::Node,
    location: &LazyLocation,
    report: &mut Report<'i, F>,
) -> Result<(), Stop>
    ensures { Reports F.Node.tree report.old report.new
        (required_fails schema_path.now (F.Node.tree instance.now) (path_of location.now)
        (L.names names.now)) result }
{
    if !instance.is_object() {
        return Ok(());
    }
    let found = scanned(names, instance);
    for index in 0..names.len() {
        if is_missing(names, index, found, instance) {
            let property = names.at(index).as_str();
            let kind = ValidationErrorKind::Required { property };
            report_error(kind, schema_path, instance, location, report)?;
        }
    }
    Ok(())
}
