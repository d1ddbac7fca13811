//! The parts of a cluster, as its callers may look at them.

ghost use Rattle.am_endpoint.specs.View.{state_after};
ghost use Rattle.am_machine_journal.specs.Index.View.{receipts};
ghost use Rattle.am_driver_moves.specs.Logs.{kept};
ghost use Rattle.am_machine.specs.Ends.{setting_in, settings_by};
ghost use Rattle.am_machine.specs.Interfaces.{IsInterface};
ghost use Rattle.am_model.specs.Channels.{emitted};
ghost use Rattle.am_model.specs.History.{IsHistory, state_of};
ghost use Rattle.am_model.specs.Layout.{IsLawful, declared, has_id, home};
ghost use Rattle.am_model.specs.Merge.{is_ordered};
ghost use Rattle.am_model.specs.PostOffice.{PostOffice};
ghost use Rattle.am_names.specs.declared.EndpointId.{EndpointId};
ghost use Rattle.am_names.specs.declared.NodeId.{NodeId};
ghost use Rattle.am_office_entries.specs.Entries.{touches, touches_node};
ghost use Rattle.std.specs.List.{filter, find};
ghost use Rattle.std.specs.Option.{option_map};
ghost use Rattle.std.specs.Prelude.{◌≡◌, ◌↔◌, ◌<◌, ◌≤◌, All, IfSome, None, Some, false, is_some, length, slice_get, true};

use crate::Cluster;
use crate::ends::place_of;
use am_endpoint::Endpoint;
use am_iface::Interface;
use am_laws::post_office;
use am_names::{EndpointId, NodeId, Packet};

impl Cluster {
    /// The endpoint with this number: its log is its part of the journal, and it began as the layout says. None exactly where it
    /// isn't declared.
    pub fn end(&self, id: EndpointId) -> Option<&Endpoint>
        ensures known { is_some result ≡ declared self.now.layout id }
        ensures none { (result ≡ None) ↔ (declared self.now.layout id ≡ false) }
        ensures settings { IfSome result (λ end. option_map (settings_by self.now.layout) (find (has_id id) self.now.layout.ends) ≡ Some end.now.settings) }
        ensures id { IfSome result (λ end. end.now.settings.id ≡ id) }
        ensures node { IfSome result (λ end. home self.now.layout id ≡ Some end.now.settings.node) }
        ensures log { IfSome result (λ end. end.now.log ≡ filter (touches id) self.now.journal) }
        ensures state { IfSome result (λ end. state_after end.now ≡ state_of self.now.layout self.now.journal id) }
    {
        match place_of(&self.ends, id) {
            Some(place) => Some(&self.ends[place]),
            None => None,
        }
    }

    /// The endpoint at a place of the order in which they are declared: its log is its part of the journal.
    pub fn end_at(&self, index: usize) -> &Endpoint
        requires { index < length self.now.layout.ends }
        ensures setting { slice_get self.now.layout.ends index ≡ Some (setting_in (kept result.now)) }
        ensures state { state_after result.now ≡ state_of self.now.layout self.now.journal result.now.settings.id }
    {
        &self.ends[index]
    }

    /// Its journal is a history of the lawful layout in which it began, stands in the order of stamp and then part, and obeys the laws
    /// of the post office.
    pub fn laws(&self)
        ensures lawful { IsLawful self.now.layout }
        ensures history { IsHistory self.now.layout self.now.journal }
        ensures order { is_ordered self.now.journal ≡ true }
        ensures laws { PostOffice self.now.layout self.now.journal }
    {
        post_office();
        let _index = &self.index;
    }

    /// No log of an endpoint or of an interface has more entries than a log may have.
    pub fn logs_are_short(&self)
        requires packet { self.now.layout.direct ≡ false }
        ensures ends { (e : EndpointId) → declared self.now.layout e ≡ true → length (filter (touches e) self.now.journal) ≤ self.now.layout.log }
        ensures nodes { (node : NodeId) → node.0 < self.now.layout.nodes → length (filter (touches_node node) self.now.journal) ≤ self.now.layout.log }
    {
        let _index = &self.index;
    }

    /// The interface of a node of the packet network: its log is its part of the journal.
    pub fn iface(&self, node: NodeId) -> &Interface
        requires packet { self.now.layout.direct ≡ false }
        requires node { node.0 < self.now.layout.nodes }
        ensures { IsInterface self.now.layout self.now.journal node result.now }
    {
        &self.interfaces[node.0 as usize]
    }

    /// The packets that a node of the packet network emitted to another, in order.
    pub fn emitted(&self, from: NodeId, to: NodeId) -> &[Packet]
        requires packet { self.now.layout.direct ≡ false }
        requires from { from.0 < self.now.layout.nodes }
        requires to { to.0 < self.now.layout.nodes }
        ensures { result.now ≡ emitted from to self.now.journal }
    {
        self.index.emitted(from, to)
    }

    /// How many receipts of packets there are on the link from one node of the packet network to another.
    pub fn received(&self, from: NodeId, to: NodeId) -> u32
        requires packet { self.now.layout.direct ≡ false }
        requires from { from.0 < self.now.layout.nodes }
        requires to { to.0 < self.now.layout.nodes }
        ensures { result ≡ receipts from to self.now.journal }
    {
        self.index.received(from, to) as u32
    }
}

/// No log of these endpoints has more entries than it may. It looks once at each.
pub(crate) fn short_logs(ends: &[Endpoint])
    ensures { All (λ end. length end.log ≤ end.settings.log) ends.now }
{
    for end in ends {
        end.log();
    }
}
