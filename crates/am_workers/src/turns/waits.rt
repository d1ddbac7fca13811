//! How long the channels of an interface have waited.
ghost use Rattle.std.specs.Prelude.{◌≡◌, length};

use am_names::{NoMemory, NodeId, Packet};
use std::alloc::Global;

/// For so many turns a channel waits for an answer.
const PATIENCE: u64 = 16;

/// What stands in place of a turn where a channel has emitted nothing.
const NEVER: u64 = u64::MAX;

/// Since when each channel of an interface waits for an answer, in turns of the interface: four channels for each of 16 peers.
#[derive(Drop)]
pub struct Waits {
    /// How many turns the interface has begun.
    turn: u64,
    /// The turn of each channel's last emission, or `NEVER`.
    since: Vec<u64>,
    ghost sized: { length since.items ≡ 64 },
}

impl Waits {
    ghost use Rattle.std.specs.Prelude.{◌≡◌, ◌<◌, IfOk, replicate, slice_set};
    ghost use Rattle.am_workers.specs.Turns.Chosen.{has_waited, never, place_of, since_after, since_of, turn_after, turn_of};

    /// The place of a channel among the 64.
    fn place_of(peer: NodeId, channel: u8) -> usize
        ensures { result ≡ place_of peer channel }
    {
        4 * peer.0 as usize + channel as usize
    }

    /// Those of an interface that has begun no turn. `NoMemory` comes only for want of memory.
    pub fn new(alloc: Global) -> Result<Waits, NoMemory>
        ensures turn { IfOk result (λ waits. turn_of waits ≡ 0) }
        ensures since { IfOk result (λ waits. since_of waits ≡ replicate 64 never) }
    {
        let since = vec![in alloc; NEVER; 64]?;
        Ok(Waits { turn: 0, since })
    }

    /// The interface begins a turn.
    pub fn begin_turn(&mut self)
        ensures turn { turn_of self.new ≡ turn_after (turn_of self.old) }
        ensures since { since_of self.new ≡ since_of self.old }
    {
        self.turn = self.turn.saturating_add(1);
    }

    /// In this turn the interface emitted the packet, if there is one. After a parcel its channel waits for an answer from now on.
    pub fn emitted(&mut self, out: Option<Packet>)
        ensures turn { turn_of self.new ≡ turn_of self.old }
        ensures since { since_of self.new ≡ since_after (turn_of self.old) out (since_of self.old) }
    {
        if let Some(Packet::Parcel(p)) = out {
            let turn = self.turn;
            self.wait_from(Waits::place_of(p.to, p.channel), turn);
        }
    }

    /// The channel at this place, if it is one, waits since that turn.
    fn wait_from(&mut self, at: usize, turn: u64)
        ensures turn { turn_of self.new ≡ turn_of self.old }
        ensures since { since_of self.new ≡ slice_set (since_of self.old) at turn }
    {
        if at < 64 {
            self.since[at] = turn;
        }
    }

    /// Whether so many turns have begun since the channel's last emission.
    pub(crate) fn has_waited(&self, peer: NodeId, channel: u8) -> bool
        requires peer { peer.0 < 16 }
        requires channel { channel < 4 }
        ensures { result ≡ has_waited self.now peer channel }
    {
        self.turn
            .saturating_sub(self.since[Waits::place_of(peer, channel)])
            >= PATIENCE
    }
}
