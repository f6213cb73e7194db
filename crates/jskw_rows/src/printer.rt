//! What is printed of the calls of a line of standard input.
use crate::asked::Asked;
use jskw_report::EnumOptions::Listed;
use jskw_report::{
    CompilationResult, CompileFault, EvaluationNode, Fault, LazyLocation, Payload,
    ValidationContext, ValidationError,
};
use jskw_value::{Json, Node};
use serde_json::Value;
use std::alloc::{AllocError, Global};
use std::fmt::Display;

/// A result that is an error only if memory runs out.
pub(crate) type Made<T> = Result<T, AllocError>;

/// Standard output, and what a line asks for.
#[derive(Drop)]
pub(crate) struct Printer<'r> {
    rt: &'r HostRuntime,
    pub(crate) alloc: Global,
    /// The kind of calls.
    pub(crate) kind: &'r str,
    /// The representation that they are over: `serde_json`'s values if this is empty.
    pub(crate) over: &'r str,
    /// Whether a schema has an object layer.
    pub(crate) layer: bool,
    /// The limits of `collect_first_errors` on it.
    pub(crate) limits: &'r [Value],
    /// The last argument, as nodes that count.
    pub(crate) nodes: &'r Asked,
    // whether all could be made and printed, and the line said what to do
    is_right: bool,
    // what is to be printed before the next call. Each line begins with its line feed
    text: String,
    /// Where the instance of a call is: so far behind that the text of its location takes memory.
    pub(crate) location: LazyLocation,
}

impl Printer<'_> {
    /// Nothing is printed yet of a line with this kind of calls.
    pub(crate) fn new<'r>(rt: &'r HostRuntime, kind: &'r str, nodes: &'r Asked) -> Printer<'r> {
        let (kind, over) = kind.split_once(" of ").unwrap_or((kind, ""));
        let mut to = Printer {
            rt,
            alloc: rt.alloc(),
            kind,
            over,
            layer: true,
            limits: &[],
            nodes,
            is_right: true,
            text: String::new(rt.alloc()),
            location: LazyLocation::new(rt.alloc()),
        };
        for index in &[1_000_000_000_000_000_000, 7, 2] {
            to.is_right &= to.location.push(*index).is_ok();
        }
        to
    }

    /// Notes whether a line says what to do, or can be made.
    pub(crate) fn check(&mut self, is_right: bool) {
        self.is_right &= is_right;
    }

    /// Returns what was made, if memory did not run out.
    pub(crate) fn made<T>(&mut self, made: Made<T>) -> Option<T> {
        self.is_right &= made.is_ok();
        made.ok()
    }

    /// Appends a text.
    pub(crate) fn push(&mut self, part: &str) {
        self.is_right &= self.text.push_str(part).is_ok();
    }

    /// Appends a text if this is so.
    pub(crate) fn push_if(&mut self, is_so: bool, part: &str) {
        if is_so {
            self.push(part);
        }
    }

    /// What `write!` calls: appends a text.
    pub(crate) fn write_fmt<D: Display + Drop>(&mut self, part: D) {
        self.is_right &= self.text.write_fmt(part).is_ok();
    }

    /// Appends a node as JSON.
    pub(crate) fn push_json<N: Node>(&mut self, node: &N) {
        self.is_right &= node.write_json(&mut self.text).is_ok();
    }

    /// Appends a line with a node as JSON.
    pub(crate) fn push_node<N: Node>(&mut self, node: &N) {
        self.push("\n\t");
        self.push_json(node);
    }

    /// Prints what was appended. Returns whether all was right so far.
    pub(crate) fn print(&mut self) -> bool {
        self.is_right &= print!(self.rt; "{}", self.text.as_str()).is_ok();
        self.text.clear();
        self.is_right
    }

    /// Returns a word for calls that must not take memory if the line is of leaves, which hold.
    pub(crate) fn ready_or(&self, word: &'static str) -> &'static str {
        if self.kind == "leaves" { "ready" } else { word }
    }

    /// Prints that the call of this name comes next, and a word: `asked` if it takes memory, `ready` if it
    /// must not, `called` if memory is not refused to it.
    pub(crate) fn announce(&mut self, call: &str, word: &str) {
        write!(self, "\n{call} {word}");
        self.print();
    }

    /// Prints that the call has returned, and whether it ran out of memory.
    pub(crate) fn tell(&mut self, is_memory: bool) {
        let word = if is_memory { "memory" } else { "answered" };
        self.is_right &= print!(self.rt; ", {word}").is_ok();
    }

    /// Prints the same. Appends where the instance is then, how many subschemas the call applied, and how
    /// often it asked nodes if the line is over those that count.
    pub(crate) fn tell_at(&mut self, is_memory: bool, ctx: &ValidationContext) {
        self.tell(is_memory);
        let at = self.location.render();
        if let Some(at) = self.made(at) {
            write!(self, "\n\tat {}", at.as_str());
        }
        if !is_memory {
            write!(self, ", applied {}", ctx.applications());
        }
        if self.over == "counted nodes" {
            write!(self, ", asked {}", self.nodes.take_count());
        }
    }

    /// Appends why a schema or a keyword does not compile, or that it asserts nothing, if so it is.
    pub(crate) fn push_refused<V>(&mut self, made: &Option<CompilationResult<'_, V>>) {
        match made {
            None => self.push("\n\tnothing"),
            Some(Err(CompileFault::Bad(error))) => {
                self.push("\n\trefused: ");
                self.push_start(error);
                // the value at fault has its floats
                write!(self, "{}", error.instance());
                self.push_message(error);
            }
            _ => {}
        }
    }

    /// Appends the error that `validate` returned, if any.
    pub(crate) fn push_first<F: Json>(&mut self, answer: &Result<(), Fault<F>>) {
        if let Err(Fault::Invalid(error)) = answer {
            self.push_error(error);
        }
    }

    /// Appends errors: keyword, what it expected, both locations, the value at fault, the message.
    pub(crate) fn push_errors<F: Json>(&mut self, errors: &[ValidationError<F>]) {
        for error in errors {
            self.push_error(error);
        }
    }

    fn push_error<F: Json>(&mut self, error: &ValidationError<F>) {
        self.push("\n\t");
        self.push_start(error);
        self.push_json(error.instance());
        self.push_message(error);
    }

    // Appends what stands before the value at fault.
    fn push_start<F: Json>(&mut self, error: &ValidationError<F>) {
        let (at, by) = (error.instance_path().as_str(), error.schema_path().as_str());
        write!(self, "{} ", error.kind().keyword());
        match error.kind().payload() {
            Payload::Value(value) | Payload::Options(Listed(value)) => self.push_json(value),
            payload => write!(self, "{payload:?}"),
        }
        write!(self, " at {at} by {by}");
        self.push_if(error.evaluation_path().as_str() != by, ", by another path");
        self.push(" of ");
    }

    fn push_message<F: Json>(&mut self, error: &ValidationError<F>) {
        let message = error.message(self.alloc);
        if let Some(message) = self.made(message) {
            write!(self, ", {message}");
        }
    }

    /// Appends an evaluation that was made: a line for each node, and behind it one for each of its errors.
    pub(crate) fn push_tree(&mut self, tree: &Made<EvaluationNode>) {
        if let Ok(node) = tree {
            self.push_nodes(0, node);
        }
    }

    // Appends the lines of a node, and of those below it. `depth` is how many are above it.
    fn push_nodes(&mut self, depth: usize, node: &EvaluationNode) {
        self.push("\n\t");
        for _ in 0..depth {
            self.push("  ");
        }
        self.push_place(node);
        for error in node.errors() {
            write!(self, "\n\t{}: {}", error.keyword(), error.message());
        }
        for child in node.children() {
            self.push_nodes(depth.saturating_add(1), child);
        }
    }

    fn push_place(&mut self, node: &EvaluationNode) {
        let by = node.evaluation_path().as_str();
        let at = node.instance_location().as_str();
        self.push(if node.valid() { "valid" } else { "invalid" });
        self.push_if(!by.is_empty(), " ");
        self.push(by);
        self.push_if(node.schema_location().as_str() != by, " elsewhere");
        self.push_if(!at.is_empty(), " at ");
        self.push(at);
        if let Some(annotation) = node.annotations() {
            write!(self, " annotation {annotation:?}");
        }
        for error in node.errors() {
            write!(self, " error {}", error.keyword());
        }
    }
}
