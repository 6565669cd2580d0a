//! Tells paths of several lengths, each one chain of forward parents, to a node table. It prints how many records and items there are; with
//! the argument `time` also how long the telling takes for each record.
#![tactic(auto)]

use crate::failure::Failure;
use crate::path::path;
use event_log::event::Record;
use refusals::Refusal;
use sinks::table::NodeTable;
use sinks::table::entry::Entry;
use sinks::walk::process;
use std::process::ExitCode;
use std::time::Instant;
use std::{env, io};

mod failure;
mod path;

/// How many raw tokens a path has at most.
const LENGTHS: [usize; 4] = [512, 1024, 2048, 4096];

/// How many records are told for a time, about.
const RECORDS: usize = 40_000_000;

/// Tells these records once, and answers how many items they tell.
fn tell(records: &[Record], marks: &mut [u8], memory: &mut [Entry]) -> Result<usize, Refusal> {
    let mut table = NodeTable::new(memory);
    process(records, marks, &mut table)?;
    Ok(table.entries().len())
}

/// Prints the tenths of a nanosecond that a record takes.
fn time(
    rt: &HostRuntime,
    records: &[Record],
    marks: &mut [u8],
    memory: &mut [Entry],
) -> Result<(), Failure> {
    let count = records.len().max(1);
    let turns = (RECORDS / count).max(1);
    let start = Instant::now(rt)?;
    for _ in 0..turns {
        tell(records, marks, memory)?;
    }
    let nanos = start.elapsed(rt)?.as_nanos();
    // `as` is proved to lose nothing; `from` would add an equation to the proof.
    let tenths = nanos.saturating_mul(10) / (turns as u128) / (count as u128);
    let whole = tenths / 10;
    let part = tenths % 10;
    println!(rt; "    {whole}.{part} ns for each record")?;
    Ok(())
}

/// The longest path of at most so many raw tokens: one for the first `a`, and three for each `::a` behind it.
fn bench(rt: &HostRuntime, length: usize, timed: bool) -> Result<(), Failure> {
    let more = length.saturating_sub(1) / 3;
    let tokens = 1 + 3 * more;
    let records = path(rt.alloc(), more)?;
    let count = records.len();
    let mut marks = vec![in rt.alloc(); 0; count]?;
    let mut memory = vec![in rt.alloc(); Entry::NONE; count]?;
    let items = tell(&records, &mut marks, &mut memory)?;
    println!(rt; "{tokens} tokens: {count} records, {items} items")?;
    if timed {
        time(rt, &records, &mut marks, &mut memory)?;
    }
    Ok(())
}

fn is_timed(rt: &HostRuntime) -> io::Result<bool> {
    Ok(
        env::args(rt)?
            .nth(1)
            .is_some_and(|word| word.as_str() == "time"),
    )
}

fn run(rt: &HostRuntime) -> Result<(), Failure> {
    let timed = is_timed(rt)?;
    for length in LENGTHS {
        bench(rt, length, timed)?;
    }
    Ok(())
}

fn main(rt: HostRuntime) -> anyhow::Result<ExitCode> {
    match run(&rt) {
        Ok(()) => Ok(ExitCode::SUCCESS),
        Err(Failure::Refused(refusal)) => {
            println!(rt; "{refusal}")?;
            Ok(ExitCode::FAILURE)
        }
        Err(Failure::Broken(error)) => Err(error),
    }
}
