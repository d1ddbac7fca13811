//! What a drain reads of an endpoint of a cluster.

ghost use Rattle.am_endpoint.specs.View.{state_after};
ghost use Rattle.am_cluster_scripted.specs.EndMarks.{told_front, told_missed};
ghost use Rattle.am_model.specs.Changes.{has_arrivals};
ghost use Rattle.am_model.specs.Endpoint as endpoint;
ghost use Rattle.am_names.specs.Names.{is_request};
ghost use Rattle.std.specs.Prelude.{◌≡◌, ◌==◌, not, length, false, if◌then◌else◌, None, count_by};

use am_endpoint::Endpoint;
use am_model::Queued;

/// How many requests it has received and not polled, and none where it is on disk.
pub(crate) fn received_requests_of(end: &Endpoint) -> u8
    ensures { result ≡ (if endpoint.is_on_disk (state_after end.now).head.place then 0 else count_by is_request (state_after end.now).body.received) }
{
    if end.is_on_disk() {
        0
    } else {
        end.received_requests()
    }
}

/// The message that it sends next, and none where it is on disk.
pub(crate) fn front_of(end: &Endpoint) -> Option<Queued>
    ensures { result ≡ (if endpoint.is_on_disk (state_after end.now).head.place then None else endpoint.front (state_after end.now)) }
{
    if end.is_on_disk() { None } else { end.front() }
}

/// Whether there is a message that it sends next, and none where it is on disk.
pub(crate) fn has_front_of(end: &Endpoint) -> bool
    ensures { result ≡ told_front (state_after end.now) }
{
    !end.is_on_disk() && end.has_front()
}

/// Whether there is something to poll, and nothing where it is on disk.
pub(crate) fn has_arrivals_of(end: &Endpoint) -> bool
    ensures { result ≡ (if endpoint.is_on_disk (state_after end.now).head.place then false else has_arrivals (state_after end.now).body) }
{
    !end.is_on_disk() && end.pollable()
}

/// Whether a reply is to be sent, and none where it is on disk.
pub(crate) fn has_reply_of(end: &Endpoint) -> bool
    ensures { result ≡ (if endpoint.is_on_disk (state_after end.now).head.place then false else not (length (state_after end.now).body.replies == 0)) }
{
    !end.is_on_disk() && end.has_reply()
}

/// Whether it is wanted and on disk.
pub(crate) fn is_missed(end: &Endpoint) -> bool
    ensures { result ≡ told_missed (state_after end.now) }
{
    end.wanted() && end.is_on_disk()
}
