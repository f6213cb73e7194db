//! Times calls over equal instances.
ghost use Rattle.std.specs.Prelude.{IsTrue};
ghost use Rattle.jskw_value.specs.Serde.{value_tree};
ghost use Rattle.jskw_value.specs.Tree.{is_lawful};

use jskw_text::{ReadFault, read_bytes};
use jskw_value::{DecimalTree, Node};
use serde_json::Value;
use std::alloc::{AllocError, Global};
use std::io;
use std::time::Instant;

// The number of equal instances. There are several, so that no two calls in a row are the same.
pub(crate) const COPIES: usize = 4;

// The largest number of batches that are timed.
const BATCHES: usize = 30;

// The nanoseconds of all batches after which no other is timed.
const LIMIT: u128 = 300_000_000;

/// A value without a float.
#[derive(Drop)]
pub(crate) struct Instance {
    pub(crate) value: Value,
    ghost is_lawful: { IsTrue (is_lawful (value_tree value)) },
}

impl Instance {
    // Returns the instance, or `None` if the value has a float.
    fn new(value: Value) -> Option<Instance> {
        if value.is_lawful() {
            Some(Instance { value })
        } else {
            None
        }
    }
}

/// Returns equal instances of a text, or `None` if it is not JSON or has a float.
pub(crate) fn instances(alloc: Global, text: &str) -> Result<Option<Vec<Instance>>, AllocError> {
    let mut instances = Vec::new(alloc);
    for _ in 0..COPIES {
        let Ok(value) = Value::from_str(alloc, text) else {
            return Ok(None);
        };
        let Some(instance) = Instance::new(value) else {
            return Ok(None);
        };
        instances.push(instance)?;
    }
    Ok(Some(instances))
}

/// Returns equal trees of decimals that a text is read into, or `None` if there is none.
pub(crate) fn decimal_trees(
    alloc: Global,
    text: &str,
) -> Result<Option<Vec<DecimalTree>>, AllocError> {
    let mut trees = Vec::new(alloc);
    for _ in 0..COPIES {
        match read_bytes(alloc, text.as_bytes()) {
            Ok(tree) => trees.push(tree)?,
            Err(ReadFault::Memory(error)) => return Err(error),
            Err(_) => return Ok(None),
        }
    }
    Ok(Some(trees))
}

/// What a batch of calls returned, and how long it took.
#[derive(Clone, Copy)]
pub(crate) struct Timing {
    calls: usize,
    accepted: usize,
    nanoseconds: u128,
}

impl Timing {
    /// Returns whether each call accepted its instance.
    pub(crate) fn accepts_all(&self) -> bool {
        self.accepted == self.calls
    }

    /// Returns whether no call accepted its instance.
    pub(crate) fn accepts_none(&self) -> bool {
        self.accepted == 0
    }

    /// Prints the nanoseconds of a call behind a tab.
    pub(crate) fn print(&self, rt: &HostRuntime) -> io::Result<()> {
        let picoseconds = self.nanoseconds.saturating_mul(1000) / (self.calls as u128).max(1);
        print!(rt; "\t{}.{:03}", picoseconds / 1000, picoseconds % 1000)
    }
}

/// What the calls of a case took, in order, and the answer on which they agree.
#[derive(Drop)]
pub(crate) struct Row {
    timings: Vec<Timing>,
    is_valid: bool,
    is_invalid: bool,
}

impl Row {
    pub(crate) fn new(alloc: Global) -> Row {
        Row {
            timings: Vec::new(alloc),
            is_valid: true,
            is_invalid: true,
        }
    }

    /// Adds a call that says nothing of the instance.
    pub(crate) fn add(&mut self, timing: Timing) -> Result<(), AllocError> {
        Ok(self.timings.push(timing)?)
    }

    /// Adds a call that returns whether the instance is valid.
    pub(crate) fn add_answer(&mut self, timing: Timing) -> Result<(), AllocError> {
        self.is_valid &= timing.accepts_all();
        self.is_invalid &= timing.accepts_none();
        self.add(timing)
    }

    /// Returns the word for what all answers say, `differs` if they don't agree.
    pub(crate) fn word(&self) -> &'static str {
        if self.is_valid {
            "valid"
        } else if self.is_invalid {
            "invalid"
        } else {
            "differs"
        }
    }

    /// Prints the nanoseconds of each call behind a tab.
    pub(crate) fn print(&self, rt: &HostRuntime) -> io::Result<()> {
        for timing in &self.timings {
            timing.print(rt)?;
        }
        Ok(())
    }
}

/// Times a test of the instances, as [`fastest`] does.
pub(crate) fn time_test<T, F: Fn(&T) -> bool>(
    rt: &HostRuntime,
    span: u128,
    instances: &[T],
    accepts: F,
) -> io::Result<Timing>
    requires { F.IsAlwaysCallable accepts }
{
    fastest(
        rt,
        span,
        COPIES,
        |rounds| accepted(rounds, instances, &accepts),
    )
}

// Returns how many calls accept their instance in `rounds` rounds over the instances. Where a round
// begins depends on the results of those before, so that each call has to be made.
fn accepted<T, F: Fn(&T) -> bool>(rounds: usize, instances: &[T], accepts: &F) -> usize
    requires { F.IsAlwaysCallable accepts.now }
{
    let mut count = 0usize;
    for _ in 0..rounds {
        let first = count;
        for step in 0..COPIES {
            let place = first.wrapping_add(step) % COPIES;
            if instances
                .get(place)
                .is_some_and(|instance| accepts(instance))
            {
                count = count.wrapping_add(1);
            }
        }
    }
    count
}

/// Returns the fastest of 30 equal batches, or of fewer if these take more than 0.3 seconds. Each
/// takes about `span` nanoseconds or more. If `span` is 0, returns a batch of two rounds behind one
/// of one round, so that the instructions of a round are the difference.
///
/// `batch` makes that many rounds of `calls` calls, and returns how many calls accepted.
pub(crate) fn fastest<F: Fn(usize) -> usize>(
    rt: &HostRuntime,
    span: u128,
    calls: usize,
    batch: F,
) -> io::Result<Timing>
    requires { F.IsAlwaysCallable batch }
{
    let mut rounds = 1usize;
    let mut best = time_batch(rt, rounds, calls, &batch)?;
    if span == 0 {
        return time_batch(rt, 2, calls, &batch);
    }
    for _ in 0..40 {
        if best.nanoseconds >= span {
            break;
        }
        rounds = rounds.saturating_mul(2);
        best = time_batch(rt, rounds, calls, &batch)?;
    }
    let mut taken = best.nanoseconds;
    for _ in 1..BATCHES {
        if taken >= LIMIT {
            break;
        }
        let timing = time_batch(rt, rounds, calls, &batch)?;
        taken = taken.saturating_add(timing.nanoseconds);
        if timing.nanoseconds < best.nanoseconds {
            best = timing;
        }
    }
    Ok(best)
}

// Times one batch.
fn time_batch<F: Fn(usize) -> usize>(
    rt: &HostRuntime,
    rounds: usize,
    calls: usize,
    batch: &F,
) -> io::Result<Timing>
    requires { F.IsAlwaysCallable batch.now }
{
    let start = Instant::now(rt)?;
    let accepted = batch(rounds);
    let nanoseconds = start.elapsed(rt)?.as_nanos();
    Ok(Timing {
        calls: rounds.saturating_mul(calls),
        accepted,
        nanoseconds,
    })
}
