//! Two threads write into one list, in turn and without a lock: each goes on with something else where it finds the list gone. What
//! a thread couldn't write in its tries is added at the end. Then the lines of each are printed.
#![tactic(auto)]

ghost use Rattle.std.specs.Prelude.{◌≡◌, IfOk};
ghost use Rattle.am_places.specs.Seats.{pass_of, table_in};
ghost use Rattle.am_places_stays.specs.Stays.{IsMerge};
ghost use Rattle.am_example_tally.specs.Lines.{IsFresh};

mod book;

use crate::book::Tally;
use am_names::{EndpointId, NoMemory};
use am_places::{Places, Seat};
use am_places_stays::{end_two, open_two, write_all};
use std::alloc::Global;
use std::process::ExitCode;
use std::thread::{Threads, join};

/// An empty list, and a seat for each of two threads.
fn begin(alloc: Global) -> Result<(Places<Tally>, Seat<Tally>, Seat<Tally>), NoMemory>
    ensures one { IfOk result (λ r. r.0.count ≡ 1) }
    ensures first { IfOk result (λ r. IsFresh (table_in r.0) r.1.token) }
    ensures second { IfOk result (λ r. IsFresh (table_in r.0) r.2.token) }
    ensures marks { IfOk result (λ r. ((pass_of r.1).mark ≡ 1) × ((pass_of r.2).mark ≡ 2) × ((pass_of r.2).seats ≡ 2)) }
{
    let books = vec![in alloc; Tally::new(alloc)]?;
    let ids = vec![in alloc; EndpointId(0)]?;
    let (places, first, second) = open_two(alloc, books, ids, 0)?;
    Ok((places, first, second))
}

/// The list that two threads wrote together: it has the lines of both, each once and in order; or there is no memory.
fn tally<R: Threads + Sync>(
    rt: &R,
    alloc: Global,
    ours: &[u32],
    theirs: &[u32],
) -> Result<Vec<u32>, NoMemory>
    ensures { IfOk result (λ lines. IsMerge ours.now theirs.now lines.items) }
{
    let (places, first, second) = begin(alloc)?;
    let ((first, our_count), (second, their_count)) = join(
        rt,
        || write_all(&places, first, 0, ours, 200),
        || write_all(&places, second, 0, theirs, 200),
    );
    let Tally { mut lines } = end_two(&places, second, first, 0);
    lines.extend_from_slice(&ours[our_count..])?;
    lines.extend_from_slice(&theirs[their_count..])?;
    Ok(lines)
}

fn main(rt: HostRuntime) -> ExitCode {
    let Ok(lines) = tally(&rt, rt.alloc(), &[10, 11, 12], &[20, 21, 22]) else {
        return ExitCode::from(8);
    };
    for writer in [1, 2] {
        for line in &lines {
            if *line / 10 == writer && println!(rt; "{line}").is_err() {
                return ExitCode::from(5);
            }
        }
    }
    ExitCode::from(0)
}
