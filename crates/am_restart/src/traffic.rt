//! What was offered and emitted in a session.

ghost use Rattle.am_restart.specs.State as state;
ghost use Rattle.std.specs.Prelude.{◌≡◌, ◌+◌, ◌<◌, ◌^◌, [], OnErr, OnOk};

use crate::moves::Change;
use crate::packets::{ReceiverPacket, SenderPacket};
use am_names::NoMemory;
use std::alloc::Global;
use std::collections::VecDeque;
use std::marker::Model;

/// How many messages were offered, which of them wait, and the packets of each side in order of emission.
#[derive(Drop)]
pub(crate) struct Traffic {
    pub(crate) offered: u32,
    pub(crate) queue: VecDeque<u32>,
    pub(crate) from_sender: Vec<SenderPacket>,
    pub(crate) from_receiver: Vec<ReceiverPacket>,
}

impl Model for Traffic {
    ghost use Rattle.am_restart.specs.Traffics.{Traffic};

    ghost Value = { Traffic };

    ghost view = { λ t. record { offered = t.offered; queue = t.queue.items; from_sender = t.from_sender.items; from_receiver = t.from_receiver.items } };
}

impl Traffic {
    pub(crate) fn new(alloc: Global) -> Traffic
        ensures { result ≡ record { offered = 0; queue = []; from_sender = []; from_receiver = [] } }
    {
        Traffic {
            offered: 0,
            queue: VecDeque::new(alloc),
            from_sender: Vec::new(alloc),
            from_receiver: Vec::new(alloc),
        }
    }

    /// Makes a change, or leaves all as it was where there is no memory.
    pub(crate) fn change(&mut self, change: Change) -> Result<(), NoMemory>
        requires { self.old.offered + 1 < 2 ^ 32 }
        ensures ok { OnOk result (self.new ≡ state.changed change self.old) }
        ensures err { OnErr result (self.new ≡ self.old) }
    {
        match change {
            Change::Nothing => {}
            Change::Offers => {
                self.queue.push_back(self.offered + 1)?;
                self.offered += 1;
            }
            Change::Requeues(message) => self.queue.push_back(message)?,
            Change::Binds(packet) => {
                self.from_sender.push(packet)?;
                self.queue.pop_front();
            }
            Change::Sends(packet) => self.from_sender.push(packet)?,
            Change::Answers(packet) => self.from_receiver.push(packet)?,
        }
        Ok(())
    }
}
