//! The lines of the frames and of the disks.

ghost use Rattle.am_endpoint.specs.View.{state_after};
ghost use Rattle.am_lab_state.specs.Nodes.{all_stores, frame_line, frame_lines, image_line, is_written, key_by, key_line, owner_by, owner_line, store_lines, writes};
ghost use Rattle.am_model_scripts.specs.Layout.{layout_of};
ghost use Rattle.am_model_scripts.specs.Links.{nodes_of};
ghost use Rattle.std.specs.List.{flat_map, range_with_len};
ghost use Rattle.std.specs.Prelude.{◌≡◌, ◌++◌, OnOk};

use am_endpoint::Endpoint;
use am_machine::Cluster;
use am_model::{is_in_frame, is_on_disk};
use am_names::{EndpointId, NoMemory, NodeId};
use am_office_entries::{Entry, Event, Outcome};
use am_office_text::LinePiece::Text;
use am_office_text::{put_line, small};
use am_scenario::{EndLine, Scenario};
use std::alloc::AllocError;

// Appends the endpoint that lies in a frame.
fn put_frame(out: &mut Vec<u8>, node: NodeId, frame: u8, end: EndpointId) -> Result<(), AllocError>
    ensures { OnOk result (out.new.items ≡ out.old.items ++ frame_line node frame end) }
{
    put_line(
        out,
        "node",
        &[
            small(node.0),
            Text("frame"),
            small(frame),
            Text("holds"),
            small(end.0),
        ],
    )
}

// Appends an endpoint, if it lies in a frame of the node.
fn put_owner(
    out: &mut Vec<u8>,
    node: NodeId,
    frame: u8,
    line: &EndLine,
    end: &Endpoint,
) -> Result<(), AllocError>
    ensures { OnOk result (out.new.items ≡ out.old.items ++ owner_by node frame line.now (state_after end.now)) }
{
    if node.0 == line.node.0 && is_in_frame(frame, end.place()) {
        put_frame(out, node, frame, line.id)
    } else {
        Ok(())
    }
}

// Appends a declared endpoint, if it lies in a frame of the node.
fn put_owner_of(
    out: &mut Vec<u8>,
    cluster: &Cluster,
    scenario: &Scenario,
    node: NodeId,
    frame: u8,
    line: &EndLine,
) -> Result<(), NoMemory>
    requires { cluster.now.layout ≡ layout_of scenario.now }
    ensures { OnOk result (out.new.items ≡ out.old.items ++ owner_line scenario.now cluster.now.journal node frame line.now) }
{
    match cluster.end(line.id) {
        Some(end) => Ok(put_owner(out, node, frame, line, end)?),
        None => Err(NoMemory),
    }
}

// Appends those of these endpoints that lie in a frame of the node.
fn put_owners(
    out: &mut Vec<u8>,
    cluster: &Cluster,
    scenario: &Scenario,
    ends: &[EndLine],
    node: NodeId,
    frame: u8,
) -> Result<(), NoMemory>
    requires { cluster.now.layout ≡ layout_of scenario.now }
    ensures { OnOk result (out.new.items ≡ out.old.items ++ flat_map (owner_line scenario.now cluster.now.journal node frame) ends.now) }
{
    for line in ends {
        put_owner_of(out, cluster, scenario, node, frame, line)?;
    }
    Ok(())
}

// Appends the frames of a node that are held.
fn put_frames(
    out: &mut Vec<u8>,
    cluster: &Cluster,
    scenario: &Scenario,
    node: NodeId,
) -> Result<(), NoMemory>
    requires { cluster.now.layout ≡ layout_of scenario.now }
    ensures { OnOk result (out.new.items ≡ out.old.items ++ flat_map (frame_lines scenario.now cluster.now.journal node) (range_with_len 0 scenario.now.frames)) }
{
    for frame in 0..scenario.frames {
        put_owners(out, cluster, scenario, &scenario.ends, node, frame)?;
    }
    Ok(())
}

// Appends the endpoint of an image on disk.
fn put_image(
    out: &mut Vec<u8>,
    node: NodeId,
    end: EndpointId,
    lies_there: bool,
) -> Result<(), AllocError>
    ensures { OnOk result (out.new.items ≡ out.old.items ++ image_line node end lies_there) }
{
    if lies_there {
        put_line(
            out,
            "node",
            &[small(node.0), Text("disk"), Text("holds"), small(end.0)],
        )
    } else {
        put_line(
            out,
            "node",
            &[
                small(node.0),
                Text("disk"),
                Text("holds"),
                small(end.0),
                Text("old"),
            ],
        )
    }
}

// Whether an image of the endpoint is written here.
fn writes(entry: &Entry, end: EndpointId) -> bool
    ensures { result ≡ writes end entry.now.event entry.now.outcome }
{
    match (entry.event, entry.outcome) {
        (Event::PageOut { end: other, .. }, Outcome::Done) => end.0 == other.0,
        _ => false,
    }
}

// Whether an image of the endpoint is written by one of these entries.
fn is_written(log: &[Entry], end: EndpointId) -> bool
    ensures { result ≡ is_written end log.now }
{
    log.iter().any(|entry| writes(entry, end))
}

// Appends an endpoint, if it is of the node, whose disk has an image of it.
fn put_key(
    out: &mut Vec<u8>,
    node: NodeId,
    line: &EndLine,
    end: &Endpoint,
) -> Result<(), AllocError>
    ensures { OnOk result (out.new.items ≡ out.old.items ++ key_by node line.now (is_written line.now.id end.now.log) (state_after end.now)) }
{
    if node.0 == line.node.0 && (line.disk || is_written(end.log(), line.id)) {
        put_image(out, node, line.id, is_on_disk(end.place()))
    } else {
        Ok(())
    }
}

// Appends a declared endpoint, if it is of the node, whose disk has an image of it.
fn put_key_of(
    out: &mut Vec<u8>,
    cluster: &Cluster,
    scenario: &Scenario,
    node: NodeId,
    line: &EndLine,
) -> Result<(), NoMemory>
    requires { cluster.now.layout ≡ layout_of scenario.now }
    ensures { OnOk result (out.new.items ≡ out.old.items ++ key_line scenario.now cluster.now.journal node line.now) }
{
    match cluster.end(line.id) {
        Some(end) => Ok(put_key(out, node, line, end)?),
        None => Err(NoMemory),
    }
}

// Appends those of these endpoints that are of the node, whose disk has images of them.
fn put_keys(
    out: &mut Vec<u8>,
    cluster: &Cluster,
    scenario: &Scenario,
    ends: &[EndLine],
    node: NodeId,
) -> Result<(), NoMemory>
    requires { cluster.now.layout ≡ layout_of scenario.now }
    ensures { OnOk result (out.new.items ≡ out.old.items ++ flat_map (key_line scenario.now cluster.now.journal node) ends.now) }
{
    for line in ends {
        put_key_of(out, cluster, scenario, node, line)?;
    }
    Ok(())
}

// Appends the frames and the disk of a node.
#[tactic(auto, using(std::proofs::Common::append_assoc))]
fn put_store(
    out: &mut Vec<u8>,
    cluster: &Cluster,
    scenario: &Scenario,
    node: NodeId,
) -> Result<(), NoMemory>
    requires { cluster.now.layout ≡ layout_of scenario.now }
    ensures { OnOk result (out.new.items ≡ out.old.items ++ store_lines scenario.now cluster.now.journal node) }
{
    put_frames(out, cluster, scenario, node)?;
    put_keys(out, cluster, scenario, &scenario.ends, node)
}

/// Appends the frames and the disks of the packet network. `NoMemory` comes where there is none for the text.
pub(crate) fn put_stores(
    out: &mut Vec<u8>,
    cluster: &Cluster,
    scenario: &Scenario,
) -> Result<(), NoMemory>
    requires { cluster.now.layout ≡ layout_of scenario.now }
    ensures { OnOk result (out.new.items ≡ out.old.items ++ all_stores scenario.now cluster.now.journal) }
{
    for node in 0..scenario.nodes {
        put_store(out, cluster, scenario, NodeId(node))?;
    }
    Ok(())
}
