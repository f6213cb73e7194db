//! Times the library over the values of `serde_json`, for `bench/run`. Each line of standard input
//! is one of these, with a tab between each two columns:
//!
//! | `check` | from here on each call is made a few times, and answers alone are printed |
//! | `time` | from here on the nanoseconds of each call are printed too |
//! | `under`, a draft, an array of names | from here on, compile so, with these names overridden |
//! | `sizes` | prints how many bytes a node, a validator and a location take |
//! | a name, a schema, an instance | a case: a compile and `is_valid` |
//! | the same, and a loop's name or `-` | all observers, `is_lawful`, `is_valid` over decimals, and the loop by hand |
//! | a name, a call, a text | another call |
//! | the same, and a schema | `ask` or `ask_decimals` |
//!
//! The draft is 2020-12 at first. All observers and the loop have to agree on an answer. The other
//! calls are:
//!
//! | `read` | the text is read as JSON |
//! | `read_bytes` | the text is read into a tree of decimals |
//! | `ask` | the text is read as JSON, and the schema asked whether it is valid |
//! | `ask_decimals` | the same of a tree of decimals |
//! | `first_unlawful` | the text's value is searched for a float |
//! | `message` | the value gets an error under `false`, and the error a message |
//! | `insert` | members of the names in an array are inserted into an object of decimals |
//! | `from_pairs` | the same, all at once |
//! | `from_value` | the value is made one of decimals |
//! | `settings` | settings are made with the names in an array overridden |
//! | `unchecked` | what is not checked of the schema is listed |
#![tactic(auto)]

mod by_hand;
mod calls;
mod observers;
mod timing;

use calls::{Call, settings_of, time_asking, time_call};
use jskw_array::{SchemaNode, Validator};
use jskw_report::{Draft, Location, Settings};
use jskw_value::SerdeJson;
use observers::{compiled, time_by_hand, time_compile, time_decimals, time_is_valid, time_others};
use serde_json::Value;
use std::alloc::Global;
use std::io;
use std::mem::size_of;
use timing::{Instance, Row, Timing, instances};

// The nanoseconds that a batch of calls takes at least.
const SPAN: u128 = 1_000_000;

// What lines say of those behind them.
#[derive(Drop)]
struct State {
    settings: Settings,
    // 0 if answers alone are printed
    span: u128,
}

// The columns of a line; those that it does not have are empty. That of the schema has the name of a
// call, if the line is one, and the last a loop's name or a schema.
#[derive(Drop)]
struct Columns<'a> {
    name: &'a str,
    schema: &'a str,
    instance: &'a str,
    last: &'a str,
}

// Returns the columns of a line.
fn columns_of(line: &str) -> Columns<'_> {
    let mut parts = line.split('\t');
    Columns {
        name: parts.next().unwrap_or(""),
        schema: parts.next().unwrap_or(""),
        instance: parts.next().unwrap_or(""),
        last: parts.next().unwrap_or(""),
    }
}

// A case: the state of the run, its schema, the columns of its line, and its instances.
#[derive(Drop)]
struct Case<'a> {
    state: &'a State,
    schema: &'a Value,
    line: &'a Columns<'a>,
    instances: &'a [Instance],
}

// Adds the timings of a case to a row. Returns a word that says why it has none, or an empty one.
fn time_case(
    rt: &HostRuntime,
    state: &State,
    schema: &Value,
    line: &Columns<'_>,
    row: &mut Row,
) -> io::Result<&'static str> {
    match instances(rt.alloc(), line.instance)? {
        Some(instances) => {
            let case = Case {
                state,
                schema,
                line,
                instances: &instances,
            };
            time_on(rt, &case, row)
        }
        None => Ok("no instance"),
    }
}

// Adds the timings of a case, if it compiles.
fn time_on(rt: &HostRuntime, case: &Case<'_>, row: &mut Row) -> io::Result<&'static str> {
    match compiled(rt.alloc(), &case.state.settings, case.schema) {
        Some(node) => time_node(rt, case, &node, row),
        None => Ok("not compiled"),
    }
}

// Adds the timings of a case that compiles to this node.
fn time_node(
    rt: &HostRuntime,
    case: &Case<'_>,
    node: &SchemaNode<SerdeJson>,
    row: &mut Row,
) -> io::Result<&'static str> {
    let span = case.state.span;
    row.add(time_compile(rt, span, &case.state.settings, case.schema)?)?;
    row.add_answer(time_is_valid(rt, span, case.instances, node)?)?;
    if case.line.last.is_empty() {
        Ok("")
    } else {
        time_others(rt, span, case.instances, node, row)?;
        time_beside(rt, case, row)
    }
}

// Adds what `is_valid` over decimals takes, and the loop by hand.
fn time_beside(rt: &HostRuntime, case: &Case<'_>, row: &mut Row) -> io::Result<&'static str> {
    let (state, line) = (case.state, case.line);
    match time_decimals(rt, state.span, &state.settings, case.schema, line.instance)? {
        Some(timing) => {
            row.add_answer(timing)?;
            let by_hand = time_by_hand(rt, state.span, case.instances, line.last)?;
            add_loop(by_hand, line.last, row)
        }
        None => Ok("no decimals"),
    }
}

// Adds what the loop of a name takes, if there is one. None has the name `-`.
fn add_loop(timing: Option<Timing>, name: &str, row: &mut Row) -> io::Result<&'static str> {
    match timing {
        Some(timing) => row.add_answer(timing)?,
        None if name == "-" => {}
        None => return Ok("no loop"),
    }
    Ok("")
}

// Prints how many bytes a schema node, a keyword's validator and a location take, without what they
// own.
fn print_sizes(rt: &HostRuntime) -> io::Result<()> {
    let node = size_of::<SchemaNode<SerdeJson>>();
    let validator = size_of::<Validator<SerdeJson>>();
    let location = size_of::<Location>();
    println!(rt; "sizes\t{node}\t{validator}\t{location}")
}

// Makes a call, and prints whether it succeeded.
fn run_call(rt: &HostRuntime, state: &State, call: Call, line: &Columns<'_>) -> io::Result<()> {
    let timing = if line.last.is_empty() {
        time_call(rt, state.span, call, line.instance)?
    } else {
        time_asking(
            rt,
            state.span,
            &state.settings,
            call,
            line.instance,
            line.last,
        )?
    };
    match timing {
        Some(timing) => print_timing(rt, state.span, line.name, timing),
        None => print_word(rt, line.name, "no call"),
    }
}

// Prints whether a call succeeded.
fn print_timing(rt: &HostRuntime, span: u128, name: &str, timing: Timing) -> io::Result<()> {
    let word = if timing.accepts_all() {
        "done"
    } else {
        "refused"
    };
    let mut row = Row::new(rt.alloc());
    row.add(timing)?;
    print_row(rt, span, name, word, &row)
}

// Prints the row of a case or call with a word for its answer.
fn print_row(rt: &HostRuntime, span: u128, name: &str, word: &str, row: &Row) -> io::Result<()> {
    print!(rt; "{name}\t{word}")?;
    if span > 0 {
        row.print(rt)?;
    }
    println!(rt; "")
}

// Prints a word that says why a line has no row.
fn print_word(rt: &HostRuntime, name: &str, word: &str) -> io::Result<()> {
    println!(rt; "{name}\t{word}")
}

// Runs a case and prints its line.
fn run_case(rt: &HostRuntime, state: &State, line: &Columns<'_>) -> io::Result<()> {
    match Value::from_str(rt.alloc(), line.schema) {
        Ok(schema) => run_schema(rt, state, &schema, line),
        Err(_) => print_word(rt, line.name, "no schema"),
    }
}

// Runs a case of this schema and prints its line.
fn run_schema(
    rt: &HostRuntime,
    state: &State,
    schema: &Value,
    line: &Columns<'_>,
) -> io::Result<()> {
    let mut row = Row::new(rt.alloc());
    let why = time_case(rt, state, schema, line, &mut row)?;
    if why.is_empty() {
        print_row(rt, state.span, line.name, row.word(), &row)
    } else {
        print_word(rt, line.name, why)
    }
}

// Returns the draft of this name, or 2020-12 if there is none.
fn draft_of(name: &str) -> Draft {
    match name {
        "4" => Draft::Draft4,
        "6" => Draft::Draft6,
        "7" => Draft::Draft7,
        "2019-09" => Draft::Draft201909,
        _ => Draft::Draft202012,
    }
}

// Returns the settings of a draft's name and an array of overridden names.
fn settings_from(alloc: Global, draft: &str, names: &str) -> io::Result<Settings> {
    match Value::from_str(alloc, names) {
        Ok(Value::Array(names)) => Ok(settings_of(alloc, draft_of(draft), names.as_slice())?),
        _ => Ok(settings_of(alloc, draft_of(draft), &[])?),
    }
}

// Does what a line says.
fn take_line(rt: &HostRuntime, state: &mut State, line: &str) -> io::Result<()> {
    match line {
        "check" => state.span = 0,
        "time" => state.span = SPAN,
        "sizes" => print_sizes(rt)?,
        line => take_columns(rt, state, &columns_of(line))?,
    }
    Ok(())
}

// Does what a line of several columns says.
fn take_columns(rt: &HostRuntime, state: &mut State, line: &Columns<'_>) -> io::Result<()> {
    if line.name == "under" {
        state.settings = settings_from(rt.alloc(), line.schema, line.instance)?;
        return Ok(());
    }
    match Call::named(line.schema) {
        Some(call) => run_call(rt, state, call, line),
        None => run_case(rt, state, line),
    }
}

fn main(rt: HostRuntime) -> io::Result<()> {
    let mut state = State {
        settings: settings_of(rt.alloc(), Draft::Draft202012, &[])?,
        span: 0,
    };
    for line in rt.lines(rt.alloc()) {
        take_line(&rt, &mut state, line?.as_str())?;
    }
    Ok(())
}
