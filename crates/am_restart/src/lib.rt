//! Two interfaces that restart, a sender and a receiver: incarnation numbers keep a message from being put twice, whichever
//! end forgets its channel.
#![tactic(auto)]

mod ends;
mod events;
mod fates;
pub mod laws;
mod moves;
mod packets;
mod receiving;
mod rows;
mod sending;
mod session;
mod traffic;

pub use crate::ends::{Receiver, Sender};
pub use crate::events::{
    Say, SessionCondition, SessionEntry, SessionEvent, SessionFault, SessionOutcome,
};
pub use crate::fates::SessionFate;
pub use crate::moves::{Change, SessionMove};
pub use crate::packets::{ReceiverPacket, SenderPacket, SessionAnswer, SessionParcel};
pub use crate::rows::{
    a_delayed_try_is_put, a_message_that_was_put_is_unknown, a_receiver_restarts,
    a_receiver_restarts_again, a_refused_message_is_sent_again, a_sender_restarts,
    conditions_in_their_order,
};
pub use crate::session::Session;
