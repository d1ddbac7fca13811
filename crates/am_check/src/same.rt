//! Whether two events are the same.

ghost use Rattle.am_office_entries.specs.declared.Call.TheVariants as Calls;
ghost use Rattle.am_office_entries.specs.declared.Event.TheVariants as Events;
ghost use Rattle.std.specs.Prelude.{◌≡◌, ◌↔◌, IsTrue};

use am_names::{EndpointId, NodeId, Serial, Tag, Words};
use am_office_entries::{Actor, Call, Event, HandlerKind, Mask};
use am_scenario::ScriptCall;

fn is_request(other: Call, index: u8, handler: u8, words: Words) -> bool
    ensures { IsTrue result ↔ (Calls.Request index handler words ≡ other) }
{
    match other {
        Call::Request {
            index: i,
            handler: h,
            words: w,
        } => index == i && handler == h && words == w,
        _ => false,
    }
}

fn is_poll(other: Call) -> bool
    ensures { IsTrue result ↔ (Calls.Poll ≡ other) }
{
    match other {
        Call::Poll => true,
        _ => false,
    }
}

fn is_set_tag(other: Call, tag: Tag) -> bool
    ensures { IsTrue result ↔ (Calls.SetTag tag ≡ other) }
{
    match other {
        Call::SetTag(t) => tag == t,
        _ => false,
    }
}

fn is_map(other: Call, index: u8, name: EndpointId, tag: Tag, credits: u8) -> bool
    ensures { IsTrue result ↔ (Calls.Map index name tag credits ≡ other) }
{
    match other {
        Call::Map {
            index: i,
            name: n,
            tag: t,
            credits: c,
        } => index == i && name == n && tag == t && credits == c,
        _ => false,
    }
}

fn is_unmap(other: Call, index: u8) -> bool
    ensures { IsTrue result ↔ (Calls.Unmap index ≡ other) }
{
    match other {
        Call::Unmap(i) => index == i,
        _ => false,
    }
}

fn is_set_handler(other: Call, index: u8, kind: HandlerKind) -> bool
    ensures { IsTrue result ↔ (Calls.SetHandler index kind ≡ other) }
{
    match other {
        Call::SetHandler { index: i, kind: k } => index == i && kind == k,
        _ => false,
    }
}

fn is_give_up(other: Call, serial: Serial) -> bool
    ensures { IsTrue result ↔ (Calls.GiveUp serial ≡ other) }
{
    match other {
        Call::GiveUp(s) => serial == s,
        _ => false,
    }
}

fn is_close(other: Call) -> bool
    ensures { IsTrue result ↔ (Calls.Close ≡ other) }
{
    match other {
        Call::Close => true,
        _ => false,
    }
}

fn is_test(other: Call, mask: Mask) -> bool
    ensures { IsTrue result ↔ (Calls.Test mask ≡ other) }
{
    match other {
        Call::Test(m) => mask == m,
        _ => false,
    }
}

fn is_same_call(one: Call, other: Call) -> bool
    ensures { IsTrue result ↔ (one ≡ other) }
{
    match one {
        Call::Request {
            index,
            handler,
            words,
        } => is_request(other, index, handler, words),
        Call::Poll => is_poll(other),
        Call::SetTag(tag) => is_set_tag(other, tag),
        Call::Map {
            index,
            name,
            tag,
            credits,
        } => is_map(other, index, name, tag, credits),
        Call::Unmap(index) => is_unmap(other, index),
        Call::SetHandler { index, kind } => is_set_handler(other, index, kind),
        Call::GiveUp(serial) => is_give_up(other, serial),
        Call::Close => is_close(other),
        Call::Test(mask) => is_test(other, mask),
    }
}

fn is_call(other: Event, actor: Actor, end: EndpointId, call: Call) -> bool
    ensures { IsTrue result ↔ (Events.Call actor end call ≡ other) }
{
    match other {
        Event::Call {
            actor: a,
            end: e,
            call: c,
        } => actor == a && end == e && is_same_call(call, c),
        _ => false,
    }
}

fn is_want(other: Event, actor: Actor, end: EndpointId) -> bool
    ensures { IsTrue result ↔ (Events.Want actor end ≡ other) }
{
    match other {
        Event::Want { actor: a, end: e } => actor == a && end == e,
        _ => false,
    }
}

fn is_carry(other: Event, end: EndpointId) -> bool
    ensures { IsTrue result ↔ (Events.Carry end ≡ other) }
{
    match other {
        Event::Carry { end: e } => end == e,
        _ => false,
    }
}

fn is_bind(other: Event, node: NodeId, end: EndpointId) -> bool
    ensures { IsTrue result ↔ (Events.Bind node end ≡ other) }
{
    match other {
        Event::Bind { node: n, end: e } => node == n && end == e,
        _ => false,
    }
}

fn is_expire(other: Event, node: NodeId, peer: NodeId, channel: u8) -> bool
    ensures { IsTrue result ↔ (Events.Expire node peer channel ≡ other) }
{
    match other {
        Event::Expire {
            node: n,
            peer: p,
            channel: c,
        } => node == n && peer == p && channel == c,
        _ => false,
    }
}

fn is_receive(other: Event, node: NodeId, peer: NodeId, number: u32) -> bool
    ensures { IsTrue result ↔ (Events.Receive node peer number ≡ other) }
{
    match other {
        Event::Receive {
            node: n,
            peer: p,
            number: k,
        } => node == n && peer == p && number == k,
        _ => false,
    }
}

fn is_drain(other: Event, node: NodeId, end: EndpointId) -> bool
    ensures { IsTrue result ↔ (Events.Drain node end ≡ other) }
{
    match other {
        Event::Drain { node: n, end: e } => node == n && end == e,
        _ => false,
    }
}

fn is_unload(other: Event, node: NodeId, end: EndpointId) -> bool
    ensures { IsTrue result ↔ (Events.Unload node end ≡ other) }
{
    match other {
        Event::Unload { node: n, end: e } => node == n && end == e,
        _ => false,
    }
}

fn is_load(other: Event, node: NodeId, end: EndpointId, frame: u8) -> bool
    ensures { IsTrue result ↔ (Events.Load node end frame ≡ other) }
{
    match other {
        Event::Load {
            node: n,
            end: e,
            frame: f,
        } => node == n && end == e && frame == f,
        _ => false,
    }
}

fn is_page_out(other: Event, node: NodeId, end: EndpointId) -> bool
    ensures { IsTrue result ↔ (Events.PageOut node end ≡ other) }
{
    match other {
        Event::PageOut { node: n, end: e } => node == n && end == e,
        _ => false,
    }
}

fn is_page_in(other: Event, node: NodeId, end: EndpointId) -> bool
    ensures { IsTrue result ↔ (Events.PageIn node end ≡ other) }
{
    match other {
        Event::PageIn { node: n, end: e } => node == n && end == e,
        _ => false,
    }
}

/// Whether two events are the same.
pub(crate) fn is_same(one: Event, other: Event) -> bool
    ensures { IsTrue result ↔ (one ≡ other) }
{
    match one {
        Event::Call { actor, end, call } => is_call(other, actor, end, call),
        Event::Want { actor, end } => is_want(other, actor, end),
        Event::Carry { end } => is_carry(other, end),
        Event::Bind { node, end } => is_bind(other, node, end),
        Event::Expire {
            node,
            peer,
            channel,
        } => is_expire(other, node, peer, channel),
        Event::Receive { node, peer, number } => is_receive(other, node, peer, number),
        Event::Drain { node, end } => is_drain(other, node, end),
        Event::Unload { node, end } => is_unload(other, node, end),
        Event::Load { node, end, frame } => is_load(other, node, end, frame),
        Event::PageOut { node, end } => is_page_out(other, node, end),
        Event::PageIn { node, end } => is_page_in(other, node, end),
    }
}

/// Whether two calls of threads are the same.
pub(crate) fn is_same_script_call(one: ScriptCall, other: ScriptCall) -> bool
    ensures { IsTrue result ↔ (one ≡ other) }
{
    one.thread == other.thread
        && one.endpoint == other.endpoint
        && is_same_call(one.call, other.call)
}
