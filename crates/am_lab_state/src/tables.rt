//! The tables of an endpoint: its mapped indexes, its handlers, and its records.

ghost use Rattle.am_endpoint_body.specs.Views.{table_of};
ghost use Rattle.am_lab_state.specs.Ends.{arrived_word, credits_word, handler_at, handler_if, handler_line, mapping_at, mapping_if, mapping_line, record_line, table_lines};
ghost use Rattle.am_translate.specs.declared.Target.{Target as Aim};
ghost use Rattle.std.specs.Fmt.{decimal};
ghost use Rattle.std.specs.List.{flat_map, range_with_len};
ghost use Rattle.std.specs.Prelude.{◌≡◌, ◌<◌, [], ◌∷◌, ◌++◌, OnOk};

use am_endpoint::Body;
use am_model::Awaited;
use am_names::EndpointId;
use am_office_entries::HandlerKind;
use am_office_text::LinePiece::Text;
use am_office_text::{LinePiece, put_line, small};
use am_translate::Target;
use std::alloc::AllocError;

fn credits_word(pool: Option<u8>) -> &'static str
    ensures { result.now ≡ credits_word pool }
{
    match pool {
        Some(_) => "share",
        None => "credits",
    }
}

// Appends an index that is mapped.
fn put_mapping(
    out: &mut Vec<u8>,
    end: EndpointId,
    pool: Option<u8>,
    index: u8,
    mapped: (Target, u8),
    records: u8,
) -> Result<(), AllocError>
    ensures { OnOk result (out.new.items ≡ out.old.items ++ mapping_line end pool index (record { name = mapped.0.name; tag = mapped.0.tag; credits = mapped.1 }) records) }
{
    let (target, credits) = mapped;
    put_line(
        out,
        "endpoint",
        &[
            small(end.0),
            Text("map"),
            small(index),
            Text("to"),
            small(target.name.0),
            Text("tag"),
            LinePiece::Tag(target.tag),
            Text(credits_word(pool)),
            small(credits),
            Text("out"),
            small(records),
        ],
    )
}

// Appends an index, if it is mapped.
fn put_index(
    out: &mut Vec<u8>,
    end: EndpointId,
    pool: Option<u8>,
    body: &Body,
    index: u8,
) -> Result<(), AllocError>
    ensures { OnOk result (out.new.items ≡ out.old.items ++ mapping_at end pool body.now.body index) }
{
    let records = body.translate.outstanding_at(index);
    match body.translate.mapped_at(index) {
        Some(mapped) => put_mapping(out, end, pool, index, mapped, records),
        None => Ok(()),
    }
}

// Appends the indexes that are mapped.
fn put_indexes(
    out: &mut Vec<u8>,
    end: EndpointId,
    pool: Option<u8>,
    body: &Body,
) -> Result<(), AllocError>
    ensures { OnOk result (out.new.items ≡ out.old.items ++ flat_map (mapping_at end pool body.now.body) (range_with_len 0 16)) }
{
    for index in 0..16u8 {
        put_index(out, end, pool, body, index)?;
    }
    Ok(())
}

// Appends a handler whose replies have this handler.
fn put_replying(
    out: &mut Vec<u8>,
    end: EndpointId,
    index: u8,
    kind: &'static str,
    to: u8,
) -> Result<(), AllocError>
    ensures { OnOk result (out.new.items ≡ out.old.items ++ handler_line end index (kind.now ∷ decimal to ∷ [])) }
{
    put_line(
        out,
        "endpoint",
        &[
            small(end.0),
            Text("handler"),
            small(index),
            Text(kind),
            small(to),
        ],
    )
}

// Appends a handler that is set.
fn put_kind(
    out: &mut Vec<u8>,
    end: EndpointId,
    index: u8,
    kind: HandlerKind,
) -> Result<(), AllocError>
    ensures { OnOk result (out.new.items ≡ out.old.items ++ handler_if end index (Some kind)) }
{
    match kind {
        HandlerKind::Note => put_line(
            out,
            "endpoint",
            &[small(end.0), Text("handler"), small(index), Text("note")],
        ),
        HandlerKind::Echo(to) => put_replying(out, end, index, "echo", to),
        HandlerKind::Add(to) => put_replying(out, end, index, "add", to),
    }
}

// Appends a handler, if it is set.
fn put_handler(out: &mut Vec<u8>, end: EndpointId, body: &Body, index: u8) -> Result<(), AllocError>
    ensures { OnOk result (out.new.items ≡ out.old.items ++ handler_at end body.now.body index) }
{
    match body.handlers.get(index) {
        Some(kind) => put_kind(out, end, index, kind),
        None => Ok(()),
    }
}

// Appends the handlers that are set.
fn put_handlers(out: &mut Vec<u8>, end: EndpointId, body: &Body) -> Result<(), AllocError>
    ensures { OnOk result (out.new.items ≡ out.old.items ++ flat_map (handler_at end body.now.body) (range_with_len 0 16)) }
{
    for index in 0..16u8 {
        put_handler(out, end, body, index)?;
    }
    Ok(())
}

fn arrived_word(arrived: bool) -> &'static str
    ensures { result.now ≡ arrived_word arrived }
{
    if arrived { "arrived" } else { "waits" }
}

// Appends a record.
fn put_record(out: &mut Vec<u8>, end: EndpointId, held: Awaited) -> Result<(), AllocError>
    ensures { OnOk result (out.new.items ≡ out.old.items ++ record_line end held) }
{
    put_line(
        out,
        "endpoint",
        &[
            small(end.0),
            Text("record"),
            LinePiece::Serial(held.serial),
            Text("index"),
            small(held.index),
            Text(arrived_word(held.arrived)),
        ],
    )
}

// Appends the records.
fn put_records(out: &mut Vec<u8>, end: EndpointId, records: &[Awaited]) -> Result<(), AllocError>
    ensures { OnOk result (out.new.items ≡ out.old.items ++ flat_map (record_line end) records.now) }
{
    for held in records {
        put_record(out, end, *held)?;
    }
    Ok(())
}

/// Appends the tables of an endpoint.
#[tactic(auto, using(std::proofs::Common::append_assoc))]
pub(crate) fn put_tables(
    out: &mut Vec<u8>,
    end: EndpointId,
    pool: Option<u8>,
    body: &Body,
) -> Result<(), AllocError>
    ensures { OnOk result (out.new.items ≡ out.old.items ++ table_lines end pool body.now.body) }
{
    put_indexes(out, end, pool, body)?;
    put_handlers(out, end, body)?;
    put_records(out, end, body.translate.records())
}
