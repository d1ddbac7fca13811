//! Whether a body that was read is valid.

ghost use Rattle.am_swap_codec.specs.Tests.{answers_expected, arrivals_pass, is_answered_once, is_within_pool, passes, queues_pass, records_pass, tables_pass};
ghost use Rattle.am_model.specs.Calls.{excess, excess_at, excess_from, is_at, shares};
ghost use Rattle.am_model.specs.Endpoint.{entry_at, is_arrived};
ghost use Rattle.am_model.specs.Valid.{is_handler_in_range, is_mapping_in_range, is_own_answer, is_own_notice, is_own_request, is_received_here, is_record, rise};
ghost use Rattle.am_model.specs.declared.Notice.{Notice as Noticed};
ghost use Rattle.am_names.specs.Names.{is_reply, is_request};
ghost use Rattle.std.specs.List.{list_all};
ghost use Rattle.std.specs.Prelude.{◌≡◌, ◌+◌, ◌*◌, ◌≤◌, count_by, is_none, is_some, length, nat_le};

use crate::lists::BodyLists;
use crate::messages::{
    answers_expected, is_answered_once, is_own_answer, is_own_notice, is_own_request,
    is_received_here,
};
use am_model::{
    Awaited, Mapping, Notice, Queued, are_credits_in_range, is_kind_in_range, sum_of_shares,
};
use am_names::{EndpointId, Message};
use am_office_entries::HandlerKind;

fn is_mapping_in_range(pool: Option<u8>, mapping: Option<Mapping>) -> bool
    ensures { result ≡ is_mapping_in_range pool mapping }
{
    match mapping {
        None => true,
        Some(mapping) => are_credits_in_range(pool, mapping.credits),
    }
}

fn is_handler_in_range(handler: Option<HandlerKind>) -> bool
    ensures { result ≡ is_handler_in_range handler }
{
    match handler {
        None => true,
        Some(kind) => is_kind_in_range(kind),
    }
}

fn are_mappings_in_range(pool: Option<u8>, mapped: &[Option<Mapping>]) -> bool
    ensures { result ≡ list_all (is_mapping_in_range pool) mapped.now }
{
    mapped
        .iter()
        .all(|mapping| is_mapping_in_range(pool, *mapping))
}

fn are_handlers_in_range(handlers: &[Option<HandlerKind>]) -> bool
    ensures { result ≡ list_all is_handler_in_range handlers.now }
{
    handlers.iter().all(|handler| is_handler_in_range(*handler))
}

fn is_first_unset(handlers: &[Option<HandlerKind>]) -> bool
    ensures { result ≡ is_none (entry_at handlers.now 0) }
{
    match handlers {
        [Some(_), ..] => false,
        [] | [None, ..] => true,
    }
}

fn is_mapped(mapped: &[Option<Mapping>], index: u8) -> bool
    ensures { result ≡ is_some (entry_at mapped.now index) }
{
    match mapped.get(index as usize).copied() {
        Some(Some(_)) => true,
        Some(None) | None => false,
    }
}

fn is_record(id: EndpointId, mapped: &[Option<Mapping>], record: &Awaited) -> bool
    ensures { result ≡ is_record id mapped.now «record».now }
{
    id.0 == record.serial.source.0 && record.index < 16 && is_mapped(mapped, record.index)
}

fn are_records(id: EndpointId, mapped: &[Option<Mapping>], awaited: &[Awaited]) -> bool
    ensures { result ≡ list_all (is_record id mapped.now) awaited.now }
{
    awaited.iter().all(|record| is_record(id, mapped, record))
}

// Whether the counts of the records rise, each above `below` and at most `last`.
fn rise(below: u32, last: u32, awaited: &[Awaited]) -> bool
    ensures { result ≡ rise below last awaited.now }
{
    match awaited {
        [] => true,
        [first, more @ ..] => {
            below < first.serial.count
                && first.serial.count <= last
                && rise(first.serial.count, last, more)
        }
    }
}

// Whether so many, and so many more, are at most 16.
fn is_few(some: usize, more: usize) -> bool
    ensures { result ≡ nat_le (some + more) 16 }
{
    some <= 16 && more <= 16 - some
}

fn records_at(awaited: &[Awaited], index: u8) -> usize
    ensures value { result ≡ count_by (is_at index) awaited.now }
    ensures few { result ≤ length awaited.now }
{
    awaited
        .iter()
        .filter(|record| record.index == index)
        .count()
}

fn own_requests(id: EndpointId, accepted: u32, queue: &[Queued]) -> bool
    ensures { result ≡ list_all (is_own_request id accepted) queue.now }
{
    queue
        .iter()
        .all(|queued| is_own_request(id, accepted, queued))
}

fn own_answers(id: EndpointId, accepted: u32, queue: &[Queued]) -> bool
    ensures { result ≡ list_all (is_own_answer id accepted) queue.now }
{
    queue
        .iter()
        .all(|queued| is_own_answer(id, accepted, queued))
}

fn own_notices(id: EndpointId, accepted: u32, notices: &[Notice]) -> bool
    ensures { result ≡ list_all (is_own_notice id accepted) notices.now }
{
    notices
        .iter()
        .all(|notice| is_own_notice(id, accepted, notice))
}

fn requests_among(notices: &[Notice]) -> usize
    ensures { result ≡ count_by (λ (n : Noticed). is_request n.message) notices.now }
{
    notices
        .iter()
        .filter(|notice| notice.message.is_request())
        .count()
}

fn answers_among(notices: &[Notice]) -> usize
    ensures { result ≡ count_by (λ (n : Noticed). is_reply n.message) notices.now }
{
    notices
        .iter()
        .filter(|notice| notice.message.is_reply())
        .count()
}

fn all_here(id: EndpointId, received: &[Message]) -> bool
    ensures { result ≡ list_all (is_received_here id) received.now }
{
    received.iter().all(|message| is_received_here(id, message))
}

fn received_requests(received: &[Message]) -> usize
    ensures { result ≡ count_by is_request received.now }
{
    received
        .iter()
        .filter(|message| message.is_request())
        .count()
}

fn received_answers(received: &[Message]) -> usize
    ensures { result ≡ count_by is_reply received.now }
{
    received.iter().filter(|message| message.is_reply()).count()
}

fn arrived_records(awaited: &[Awaited]) -> usize
    ensures { result ≡ count_by is_arrived awaited.now }
{
    awaited.iter().filter(|record| record.arrived).count()
}

fn all_expected(awaited: &[Awaited], received: &[Message]) -> bool
    ensures { result ≡ list_all (answers_expected awaited.now) received.now }
{
    received
        .iter()
        .all(|message| answers_expected(awaited, message))
}

fn all_answered_once(received: &[Message], awaited: &[Awaited]) -> bool
    ensures { result ≡ list_all (is_answered_once received.now) awaited.now }
{
    awaited
        .iter()
        .all(|record| is_answered_once(received, record))
}

impl BodyLists {
    fn excess_at(&self, index: u8, mapping: Option<Mapping>) -> usize
        requires { length self.now.awaited ≤ 32 }
        ensures value { result ≡ excess_at self.now index mapping }
        ensures few { result ≤ 32 }
    {
        match mapping {
            None => 0,
            Some(mapping) => {
                records_at(&self.awaited, index).saturating_sub(mapping.credits as usize)
            }
        }
    }

    /// How many records of this index and those after it are above their shares.
    fn excess_from(&self, index: u8, mapped: &[Option<Mapping>]) -> usize
        requires few { length self.now.awaited ≤ 32 }
        requires indexes { index + length mapped.now ≤ 16 }
        ensures value { result ≡ excess_from self.now index mapped.now }
        ensures few { result ≤ 32 * length mapped.now }
    {
        match mapped {
            [] => 0,
            [first, more @ ..] => self.excess_at(index, *first) + self.excess_from(index + 1, more),
        }
    }

    fn excess(&self) -> usize
        requires few { length self.now.awaited ≤ 32 }
        requires indexes { length self.now.mapped ≡ 16 }
        ensures { result ≡ excess self.now }
    {
        self.excess_from(0, &self.mapped)
    }

    fn is_within_pool(&self, pool: Option<u8>) -> bool
        requires few { length self.now.awaited ≤ 32 }
        requires indexes { length self.now.mapped ≡ 16 }
        requires shares { shares self.now ≤ 128 }
        ensures { result ≡ is_within_pool pool self.now }
    {
        match pool {
            None => self.excess() == 0,
            Some(pool) => {
                self.excess() <= pool as usize && sum_of_shares(&self.mapped) + pool as usize <= 32
            }
        }
    }

    fn has_valid_tables(&self, pool: Option<u8>) -> bool
        ensures { result ≡ tables_pass pool self.now }
    {
        self.mapped.len() == 16
            && are_mappings_in_range(pool, &self.mapped)
            && self.handlers.len() == 16
            && is_first_unset(&self.handlers)
            && are_handlers_in_range(&self.handlers)
    }

    fn has_valid_records(&self, id: EndpointId, pool: Option<u8>) -> bool
        requires indexes { length self.now.mapped ≡ 16 }
        requires shares { shares self.now ≤ 128 }
        ensures { result ≡ records_pass id pool self.now }
    {
        self.awaited.len() <= 32
            && rise(0, self.accepted, &self.awaited)
            && are_records(id, &self.mapped, &self.awaited)
            && self.is_within_pool(pool)
    }

    fn has_valid_queues(&self, id: EndpointId) -> bool
        ensures { result ≡ queues_pass id self.now }
    {
        own_requests(id, self.accepted, &self.requests)
            && own_answers(id, self.accepted, &self.replies)
            && own_notices(id, self.accepted, &self.notices)
            && is_few(self.requests.len(), requests_among(&self.notices))
            && is_few(self.replies.len(), answers_among(&self.notices))
    }

    fn has_valid_arrivals(&self, id: EndpointId) -> bool
        ensures { result ≡ arrivals_pass id self.now }
    {
        all_here(id, &self.received)
            && received_requests(&self.received) <= 16
            && all_expected(&self.awaited, &self.received)
            && all_answered_once(&self.received, &self.awaited)
            && received_answers(&self.received) == arrived_records(&self.awaited)
    }

    /// Whether the endpoint, with this pool or none, may have the body on disk.
    pub(crate) fn is_valid(&self, id: EndpointId, pool: Option<u8>) -> bool
        ensures { result ≡ passes id pool self.now }
    {
        if !self.has_valid_tables(pool) {
            return false;
        }
        self.has_valid_records(id, pool) && self.has_valid_queues(id) && self.has_valid_arrivals(id)
    }
}
