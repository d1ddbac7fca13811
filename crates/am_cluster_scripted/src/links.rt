//! What each link has released, and what it holds back: so the packet that is due is found without a look at the others.
//! A link is a stage that takes the numbers of its packets.

ghost use Rattle.am_cluster_scripted.specs.Links.{HasAllRoom, HasSpare, HasSpareAt, IsSpared, fed, fed_at, nothing, released_in};
ghost use Rattle.std.specs.Prelude.{◌≡◌, ℕ, ◌+◌, ◌*◌, ◌<◌, ◌^◌, All, IfOk, OnOk, length, map, slice_get, slice_index_or, vec_len};

use am_names::NodeId;
use am_office_entries::NoMemory;
use am_scenario_types::LinkFault;
use am_wire_release::Stage;
use std::alloc::Global;

/// The links of 16 nodes, sixteen to a node. Each has room for one emission more, but the one that took the last packet.
#[derive(Drop)]
pub(crate) struct LinkTable {
    pub(crate) all: Vec<Stage<u32>>,
    /// The place of the link that took the last packet.
    last: usize,
}

/// The place of a link among those of 16 nodes, sixteen to a node.
pub(crate) fn link_place(from: NodeId, to: NodeId) -> usize
    ensures { result ≡ 16 * from.0 + to.0 }
{
    16 * from.0 as usize + to.0 as usize
}

/// A link that released nothing, with room for one emission.
fn fresh_link(alloc: Global) -> Result<Stage<u32>, NoMemory>
    ensures none { IfOk result (λ link. released_in link ≡ nothing) }
    ensures room { IfOk result HasSpare }
{
    let mut link = Stage::new(alloc);
    link.room()?;
    Ok(link)
}

/// The links of 16 nodes, which released nothing.
fn fresh_links(alloc: Global) -> Result<Vec<Stage<u32>>, NoMemory>
    ensures len { IfOk result (λ links. length links.items ≡ 256) }
    ensures none { IfOk result (λ links. All (λ link. released_in link ≡ nothing) links.items) }
    ensures room { IfOk result (λ links. HasAllRoom links.items) }
{
    let mut links = Vec::new(alloc);
    for i in 0..256u16 {
        let link = fresh_link(alloc)?;
        if links.push(link).is_err() {
            return Err(NoMemory);
        }
    }
    Ok(links)
}

/// The table of links that released nothing.
pub(crate) fn no_links(alloc: Global) -> Result<LinkTable, NoMemory>
    ensures len { IfOk result (λ table. length table.all.items ≡ 256) }
    ensures none { IfOk result (λ table. All (λ link. released_in link ≡ nothing) table.all.items) }
    ensures spared { IfOk result IsSpared }
{
    let all = fresh_links(alloc)?;
    Ok(LinkTable { all, last: 0 })
}

/// Makes room on the link at a place.
fn make_room_at(links: &mut Vec<Stage<u32>>, index: usize) -> Result<(), NoMemory>
    requires { index < length links.old.items }
    ensures same { map released_in links.new.items ≡ map released_in links.old.items }
    ensures len { vec_len links.new ≡ vec_len links.old }
    ensures room { OnOk result (HasSpareAt links.new.items index) }
    ensures others { (k : ℕ) → (k ≡ index → ⊥) → slice_get links.new.items k ≡ slice_get links.old.items k }
{
    let link = &mut links[index];
    link.room()
}

/// Makes room for one emission more on whichever link.
pub(crate) fn make_all_room(table: &mut LinkTable) -> Result<(), NoMemory>
    requires { IsSpared table.old }
    ensures same { map released_in table.new.all.items ≡ map released_in table.old.all.items }
    ensures spared { IsSpared table.new }
    ensures room { OnOk result (HasAllRoom table.new.all.items) }
{
    make_room_at(&mut table.all, table.last)
}

/// One emission more on the link at a place.
pub(crate) fn feed_at(
    table: &mut LinkTable,
    index: usize,
    place: u64,
    fault: Option<LinkFault>,
    number: u32,
)
    requires within { index < length table.old.all.items }
    requires room { HasAllRoom table.old.all.items }
    requires place { place < 2 ^ 63 }
    ensures fed { map released_in table.new.all.items ≡ fed_at index place fault number (map released_in table.old.all.items) }
    ensures spared { IsSpared table.new }
{
    let link = &mut table.all[index];
    link.emit(place, fault, number);
    table.last = index;
}

/// The first number that the link at a place released after so many that were received.
pub(crate) fn due_at(links: &[Stage<u32>], index: usize, received: u32) -> Option<u32>
    requires { index < length links.now }
    ensures { result ≡ slice_get (slice_index_or (map released_in links.now) index nothing).numbers received }
{
    let link = &links[index];
    link.released().get(received as usize).copied()
}
