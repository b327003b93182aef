// What reading a job answers, as one line of text without its newline: a refusal as `refused N at P`, an
// accepted job as its number of tables, its plan, each entry's four numbers and each position's parent. Each
// word, each space and each number is a piece of its own, since a program may write them out one by one.
#![tactic(auto)]

use job::Job;
use layout::{Entry, Refused};
use std::fmt;

// A space and a number, as two pieces.
fn write_number<W: fmt::Write>(out: &mut W, number: u64) -> fmt::Result {
    out.write_str(" ")?;
    write!(out, "{number}")
}

// A refusal as its number and place.
#[derive(Clone, Copy)]
pub struct NumberAndPlace(pub Refused);

impl fmt::Display for NumberAndPlace {
    fn fmt<W: fmt::Write>(&self, f: &mut fmt::Formatter<W>) -> fmt::Result {
        let Refused { refusal, place } = self.0;
        write!(f, "{} at {place}", u32::from(refusal))
    }
}

// What reading answered.
#[derive(Drop)]
pub struct Reading(pub Result<Job, Refused>);

impl fmt::Display for Reading {
    fn fmt<W: fmt::Write>(&self, f: &mut fmt::Formatter<W>) -> fmt::Result {
        match &self.0 {
            Ok(job) => write_job(f, job),
            Err(refused) => write_refused(f, *refused),
        }
    }
}

// A refusal.
fn write_refused<W: fmt::Write>(out: &mut W, refused: Refused) -> fmt::Result {
    let Refused { refusal, place } = refused;
    out.write_str("refused")?;
    write_number(out, u64::from(u32::from(refusal)))?;
    out.write_str(" at")?;
    write_number(out, place as u64)
}

// The four numbers of an entry.
fn write_entry<W: fmt::Write>(out: &mut W, entry: Entry) -> fmt::Result {
    out.write_str(" entry")?;
    for number in [entry.fields, entry.rows, entry.mask, entry.offset] {
        write_number(out, u64::from(number))?;
    }
    Ok(())
}

// An accepted job: the tables of its plan, the entries that are there, and the parents of all positions
// but the root, which has none.
fn write_job<W: fmt::Write>(out: &mut W, job: &Job) -> fmt::Result {
    let k = job.k;
    out.write_str("accepted tables")?;
    write_number(out, k as u64)?;
    out.write_str(" plan")?;
    for table in job.plan.iter().take(k) {
        write_number(out, u64::from(*table))?;
    }
    for entry in job.entries.iter().take(k) {
        write_entry(out, *entry)?;
    }
    out.write_str(" parents none")?;
    for parent in job.parents.iter().take(k).skip(1) {
        write_number(out, *parent as u64)?;
    }
    Ok(())
}
