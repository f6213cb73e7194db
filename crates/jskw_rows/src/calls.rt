//! The calls of a line of standard input, with what each gives and what its arguments hold afterwards.
//! `README.md` beside `src/` lists their kinds, and says what is printed.
mod devices;
mod reports;
mod schemas;
mod validators;
mod values;

use crate::asked::Asked;
use crate::members::{items_of, value};
use crate::printer::Printer;
use jskw_report::Settings;
use jskw_service::{draft_named, overridden_of, vocabularies_of};
use serde_json::Value;
use std::alloc::Global;

/// Prints the name of a line and makes its calls. Returns whether it says what to do.
pub(crate) fn make(rt: &HostRuntime, line: &str) -> bool {
    let line = Value::from_str(rt.alloc(), line).unwrap_or(Value::Null);
    let [Value::String(line), Value::String(kind), arguments @ ..] = items_of(&line) else {
        return false;
    };
    let Ok(nodes) = Asked::of(rt.alloc(), arguments.last().unwrap_or(&Value::Null)) else {
        return false;
    };
    let mut to = Printer::new(rt, kind, &nodes);
    to.push(line);
    make_calls(&mut to, arguments);
    to.push("\n");
    to.print()
}

fn make_calls<'r>(to: &mut Printer<'r>, arguments: &'r [Value]) {
    match to.kind {
        "value" => values::ask(to, arguments.first().unwrap_or(&Value::Null)),
        "insert" | "from_pairs" | "from_last_pairs" => values::ask_members(to, arguments),
        "read_bytes" => values::read(to, arguments, "asked"),
        "read_nothing" => values::read(to, arguments, "ready"),
        "reply_to" => devices::reply(to, arguments),
        "run" => devices::run_bytes(to, arguments),
        "schema" | "below" | "leaves" | "unchecked" => schemas::ask(to, arguments),
        kind => {
            for case in arguments {
                write!(to, "\n\t{case}: ");
                push_case(to, kind, case);
            }
        }
    }
}

// Makes a call of this kind, with an array of arguments, and appends what it returns.
fn push_case(to: &mut Printer, kind: &str, case: &Value) {
    match kind {
        "Decimal::new" => values::push_new(to, case),
        "Decimal" => values::push_decimal(to, case),
        "equals_value" => values::push_equality(to, case),
        "Object" => values::push_object(to, case),
        "PropertyName" => values::push_names(to, items_of(value(case, 0))),
        "fingerprint" => values::push_prints(to, value(case, 0), value(case, 1)),
        "crowded" => values::push_crowded(to, value(case, 0)),
        "Location" => reports::push_locations(to, case).unwrap_or(()),
        "LazyLocation" => reports::push_stack(to, items_of(value(case, 0))),
        "by hand" => reports::push_made(to, case),
        "devices" => devices::push_runs(to),
        "required" => validators::push_required(to, case),
        "Limit" => validators::push_limits(to, value(case, 0)),
        "new" => validators::push_new(to, case),
        _ => validators::push_case(to, kind, case),
    }
}

// The settings of a draft of this name, if that and what a value says of the others is right.
fn settings_of(alloc: Global, group: &Value, draft: &str) -> Option<Settings> {
    let draft = draft_named(draft)?;
    let vocabularies = vocabularies_of(group.get("vocabularies"))?;
    let overridden = overridden_of(alloc, group.get("overridden")).ok()??;
    Some(Settings::new(draft, vocabularies, overridden))
}
