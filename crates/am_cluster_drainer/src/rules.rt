//! The six rules, and the turn of the first that applies.

ghost use Rattle.am_model_drain.specs.Rules as rules;
ghost use Rattle.am_cluster_drainer.specs.Choices.{first_read, send_by, sends_request};
ghost use Rattle.am_cluster_drainer.specs.Firsts.{shows};
ghost use Rattle.am_cluster_drainer.specs.Reads.{is_seat, is_turn_in_range, mail_of};
ghost use Rattle.am_model_scripts.specs.Layout.{layout_of};
ghost use Rattle.am_model_scripts.specs.Links.{first_some, next_receipt};
ghost use Rattle.am_model_scripts.specs.Standings.{is_standing_of, standings};
ghost use Rattle.std.specs.Prelude.{◌≡◌, ◌<◌, ◌||◌, nat_lt, ◌∷◌, [], true, find, option_map, IfSome};

use crate::{Drainable, EndMail, EndTest, NodePair};
use am_model::{Head, Queued};
use am_model_drain::Turn;
use am_names::{EndpointId, NodeId};
use am_office_entries::{Actor, Call, Event};

/// The receipt that is due, at the least node and from the least peer there. None exactly where all that was released on any link
/// was received.
pub fn receipt<M: Drainable>(machine: &M) -> Option<Turn>
    ensures turn { result ≡ option_map Turn.Once (next_receipt (M.scenario machine.now) (M.journal machine.now)) }
    ensures in_range { IfSome result (λ turn. is_turn_in_range (layout_of (M.scenario machine.now)) turn ≡ true) }
{
    let NodePair { node, peer } = machine.first_due()?;
    let number = machine.due(node, peer)?;
    Some(Turn::Once(Event::Receive { node, peer, number }))
}

/// The time-out of the least bound channel from a node to a peer.
fn time_out_to<M: Drainable>(machine: &M, node: NodeId, peer: NodeId) -> Option<Turn>
    requires node { node.0 < (M.scenario machine.now).nodes }
    requires peer { peer.0 < (M.scenario machine.now).nodes }
    ensures turn { result ≡ rules.time_out_to (M.scenario machine.now) (M.journal machine.now) node peer }
    ensures in_range { IfSome result (λ turn. is_turn_in_range (layout_of (M.scenario machine.now)) turn ≡ true) }
{
    let channels = machine.channels();
    'channels: for channel in 0..channels {
        if machine.is_bound(node, peer, channel) {
            return Some(Turn::Once(Event::Expire {
                node,
                peer,
                channel,
            }));
        }
    }
    None
}

/// The time-out of the least bound channel.
fn time_out<M: Drainable>(machine: &M) -> Option<Turn>
    ensures turn { result ≡ rules.next_time_out (M.scenario machine.now) (M.journal machine.now) }
    ensures in_range { IfSome result (λ turn. is_turn_in_range (layout_of (M.scenario machine.now)) turn ≡ true) }
{
    let NodePair { node, peer } = machine.first_bound()?;
    time_out_to(machine, node, peer)
}

/// The page-in of the least endpoint on disk that is wanted.
fn page_in<M: Drainable>(machine: &M) -> Option<Turn>
    ensures turn { result ≡ rules.next_page_in (standings (layout_of (M.scenario machine.now)) (M.journal machine.now)) }
    ensures in_range { IfSome result (λ turn. is_turn_in_range (layout_of (M.scenario machine.now)) turn ≡ true) }
{
    let place = machine.first_missed()?;
    let head = machine.head(place);
    Some(Turn::Once(Event::PageIn {
        node: head.node,
        end: head.id,
    }))
}

/// Whether an endpoint that has this head and so many received requests takes one more, or refuses it for good.
fn is_roomy(head: Head, requests: u8) -> bool
    ensures { result ≡ (head.closed || nat_lt requests 16) }
{
    head.closed || requests < 16
}

/// Whether an endpoint is closed or has fewer than 16 received requests.
fn has_room<M: Drainable>(machine: &M, end: EndpointId) -> bool
    requires { rules.next_page_in (standings (layout_of (M.scenario machine.now)) (M.journal machine.now)) ≡ None }
    ensures { result ≡ rules.has_room (find (is_standing_of end) (standings (layout_of (M.scenario machine.now)) (M.journal machine.now))) }
{
    match machine.home(end) {
        Some(_node) => is_roomy(machine.head_by(end), machine.received_requests(end)),
        None => false,
    }
}

fn finds_room<M: Drainable>(machine: &M, front: Option<Queued>) -> bool
    requires { rules.next_page_in (standings (layout_of (M.scenario machine.now)) (M.journal machine.now)) ≡ None }
    ensures { result ≡ rules.finds_room (standings (layout_of (M.scenario machine.now)) (M.journal machine.now)) front }
{
    match front {
        Some(queued) => has_room(machine, queued.message.dest),
        None => false,
    }
}

/// The least endpoint that passes.
fn first_mail<M: Drainable>(machine: &M, test: EndTest) -> Option<EndMail>
    requires { rules.next_page_in (standings (layout_of (M.scenario machine.now)) (M.journal machine.now)) ≡ None }
    ensures value { result ≡ option_map mail_of (find (shows test) (standings (layout_of (M.scenario machine.now)) (M.journal machine.now))) }
    ensures seat { IfSome result (λ mail. is_seat (layout_of (M.scenario machine.now)) mail.node mail.id ≡ true) }
{
    let place = machine.next_end(test, 0)?;
    Some(machine.mail(place))
}

/// The least endpoint whose front message goes to an endpoint that is closed or has room for a request.
fn first_request<M: Drainable>(machine: &M) -> Option<EndMail>
    requires { rules.next_page_in (standings (layout_of (M.scenario machine.now)) (M.journal machine.now)) ≡ None }
    ensures value { let ends = standings (layout_of (M.scenario machine.now)) (M.journal machine.now) in result ≡ first_read mail_of (sends_request ends) ends }
    ensures seat { IfSome result (λ mail. is_seat (layout_of (M.scenario machine.now)) mail.node mail.id ≡ true) }
{
    let count = machine.ends_len();
    let mut from = 0;
    'ends: while from < count {
        let place = machine.next_end(EndTest::Front, from)?;
        let mail = machine.mail(place);
        if finds_room(machine, mail.front) {
            return Some(mail);
        }
        from = place + 1;
    }
    None
}

/// The send of an endpoint's front message.
fn send_front(mail: EndMail) -> Option<Turn>
    ensures { result ≡ send_by mail mail.front }
{
    match mail.front {
        Some(queued) => Some(Turn::Send {
            node: mail.node,
            end: mail.id,
            message: queued.message,
        }),
        None => None,
    }
}

/// The least endpoint with a reply, or else the least with a request that finds room.
fn sender<M: Drainable>(machine: &M) -> Option<EndMail>
    requires { rules.next_page_in (standings (layout_of (M.scenario machine.now)) (M.journal machine.now)) ≡ None }
    ensures value { result ≡ option_map mail_of (rules.next_sender (standings (layout_of (M.scenario machine.now)) (M.journal machine.now))) }
    ensures seat { IfSome result (λ mail. is_seat (layout_of (M.scenario machine.now)) mail.node mail.id ≡ true) }
{
    match first_mail(machine, EndTest::Reply) {
        Some(mail) => Some(mail),
        None => first_request(machine),
    }
}

/// The send of the front message of the sender.
fn send<M: Drainable>(machine: &M) -> Option<Turn>
    requires { rules.next_page_in (standings (layout_of (M.scenario machine.now)) (M.journal machine.now)) ≡ None }
    ensures turn { result ≡ rules.next_send (standings (layout_of (M.scenario machine.now)) (M.journal machine.now)) }
    ensures in_range { IfSome result (λ turn. is_turn_in_range (layout_of (M.scenario machine.now)) turn ≡ true) }
{
    match sender(machine) {
        Some(mail) => send_front(mail),
        None => None,
    }
}

/// The next call of the thread that has made the fewest, the least among equals.
fn script<M: Drainable>(machine: &M) -> Option<Turn>
    ensures turn { result ≡ rules.next_call (M.scenario machine.now) (M.journal machine.now) }
    ensures in_range { IfSome result (λ turn. is_turn_in_range (layout_of (M.scenario machine.now)) turn ≡ true) }
{
    let left = machine.fewest()?;
    Some(Turn::Make(left.call))
}

/// The poll of the least endpoint with something to poll.
fn poll<M: Drainable>(machine: &M) -> Option<Turn>
    requires { rules.next_page_in (standings (layout_of (M.scenario machine.now)) (M.journal machine.now)) ≡ None }
    ensures turn { result ≡ rules.next_poll (standings (layout_of (M.scenario machine.now)) (M.journal machine.now)) }
    ensures in_range { IfSome result (λ turn. is_turn_in_range (layout_of (M.scenario machine.now)) turn ≡ true) }
{
    match first_mail(machine, EndTest::Arrival) {
        Some(mail) => Some(Turn::Once(Event::Call {
            actor: Actor::Outside,
            end: mail.id,
            call: Call::Poll,
        })),
        None => None,
    }
}

/// The turn of the first rule that applies, where nothing is to be received, timed out or paged in.
fn quiet_turn<M: Drainable>(machine: &M) -> Option<Turn>
    requires { rules.next_page_in (standings (layout_of (M.scenario machine.now)) (M.journal machine.now)) ≡ None }
    ensures turn { let s = M.scenario machine.now in let past = M.journal machine.now in let ends = standings (layout_of s) past in result ≡ first_some (rules.next_send ends ∷ rules.next_call s past ∷ rules.next_poll ends ∷ []) }
    ensures in_range { IfSome result (λ turn. is_turn_in_range (layout_of (M.scenario machine.now)) turn ≡ true) }
{
    if let Some(turn) = send(machine) {
        return Some(turn);
    }
    if let Some(turn) = script(machine) {
        return Some(turn);
    }
    poll(machine)
}

/// The turn of the first rule that applies: receive, time out, page in, send, script, poll. None where nothing is left to be done.
pub fn next_turn<M: Drainable>(machine: &M) -> Option<Turn>
    ensures turn { result ≡ rules.next_turn (M.scenario machine.now) (M.journal machine.now) }
    ensures in_range { IfSome result (λ turn. is_turn_in_range (layout_of (M.scenario machine.now)) turn ≡ true) }
{
    if let Some(turn) = receipt(machine) {
        return Some(turn);
    }
    if let Some(turn) = time_out(machine) {
        return Some(turn);
    }
    if let Some(turn) = page_in(machine) {
        return Some(turn);
    }
    quiet_turn(machine)
}
