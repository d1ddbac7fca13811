//! The lines of an endpoint.

ghost use Rattle.am_endpoint.specs.View.{state_after};
ghost use Rattle.am_lab_state.specs.Ends.{accepted_line, body_in_memory, body_lines, end_lines, number_lines, pool_line, sum_line, tag_line};
ghost use Rattle.am_model.specs.Endpoint.{is_on_disk};
ghost use Rattle.std.specs.Prelude.{◌≡◌, ◌++◌, OnOk};

use crate::messages::put_messages;
use crate::tables::put_tables;
use am_endpoint::{Body, Endpoint};
use am_lab_reasons::due::put_head;
use am_machine::Cluster;
use am_names::{EndpointId, NoMemory, Tag};
use am_office_text::LinePiece::{Number, Text};
use am_office_text::{LinePiece, count, put_line, small};
use std::alloc::{AllocError, Global};

fn put_tag(out: &mut Vec<u8>, end: EndpointId, tag: Tag) -> Result<(), AllocError>
    ensures { OnOk result (out.new.items ≡ out.old.items ++ tag_line end tag) }
{
    put_line(
        out,
        "endpoint",
        &[small(end.0), Text("tag"), LinePiece::Tag(tag)],
    )
}

#[tactic(auto, using(std::proofs::Common::append_assoc))]
fn put_counts(out: &mut Vec<u8>, end: EndpointId, accepted: u32, sum: u64) -> Result<(), AllocError>
    ensures { OnOk result (out.new.items ≡ out.old.items ++ accepted_line end accepted ++ sum_line end sum) }
{
    put_line(
        out,
        "endpoint",
        &[small(end.0), Text("accepted"), count(accepted)],
    )?;
    put_line(out, "endpoint", &[small(end.0), Text("sum"), Number(sum)])
}

fn put_pool(out: &mut Vec<u8>, end: EndpointId, pool: Option<u8>) -> Result<(), AllocError>
    ensures { OnOk result (out.new.items ≡ out.old.items ++ pool_line end pool) }
{
    match pool {
        Some(pool) => put_line(out, "endpoint", &[small(end.0), Text("pool"), small(pool)]),
        None => Ok(()),
    }
}

// Appends the numbers of an endpoint.
#[tactic(auto, using(std::proofs::Common::append_assoc))]
fn put_numbers(
    out: &mut Vec<u8>,
    end: EndpointId,
    pool: Option<u8>,
    body: &Body,
) -> Result<(), AllocError>
    ensures { OnOk result (out.new.items ≡ out.old.items ++ number_lines end pool body.now.body) }
{
    put_tag(out, end, body.tag)?;
    put_counts(out, end, body.accepted, body.sum)?;
    put_pool(out, end, pool)
}

// Appends what an endpoint in memory holds.
#[tactic(auto, using(std::proofs::Common::append_assoc))]
fn put_body(
    out: &mut Vec<u8>,
    alloc: Global,
    end: EndpointId,
    pool: Option<u8>,
    body: &Body,
) -> Result<(), NoMemory>
    ensures { OnOk result (out.new.items ≡ out.old.items ++ body_lines end pool body.now.body) }
{
    put_numbers(out, end, pool, body)?;
    put_tables(out, end, pool, body)?;
    put_messages(out, alloc, end, body)
}

// Appends what an endpoint holds, if it lies in memory.
fn put_held(
    out: &mut Vec<u8>,
    alloc: Global,
    id: EndpointId,
    pool: Option<u8>,
    end: &Endpoint,
) -> Result<(), NoMemory>
    ensures { OnOk result (out.new.items ≡ out.old.items ++ body_in_memory (is_on_disk (state_after end.now).head.place) id pool (state_after end.now).body) }
{
    match end.body() {
        Some(body) => put_body(out, alloc, id, pool, body),
        None => Ok(()),
    }
}

/// Appends an endpoint as it stands. `NoMemory` comes where there is none for copies of its lists or for the text.
#[tactic(auto, using(std::proofs::Common::append_assoc))]
pub(crate) fn put_end_lines(
    out: &mut Vec<u8>,
    alloc: Global,
    cluster: &Cluster,
    pool: Option<u8>,
    id: EndpointId,
) -> Result<(), NoMemory>
    requires { cluster.now.layout.pool ≡ pool }
    ensures { OnOk result (out.new.items ≡ out.old.items ++ end_lines cluster.now.layout cluster.now.journal id) }
{
    match cluster.end(id) {
        Some(end) => {
            put_head(out, id, end.node(), end.head())?;
            put_held(out, alloc, id, pool, end)
        }
        None => Err(NoMemory),
    }
}
