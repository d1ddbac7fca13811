//! The translation table of an endpoint: where the requests of each index go, how many may be out, and the records of
//! the requests whose replies are awaited. Nothing here takes memory.
#![tactic(auto)]

ghost use Rattle.am_model.specs.Calls.{excess, excess_at, has_no_credit, is_over_share, shares};
ghost use Rattle.am_model.specs.Changes.{without_waiting, without_record, with_arrived};
ghost use Rattle.am_model.specs.Endpoint.{entry_at};
ghost use Rattle.am_model.specs.History.{are_credits_in_range};
ghost use Rattle.am_translate.specs.Tables.{
  HasNoCredit,
  HasRecords,
  IsFullFor,
  IsMapped,
  IsOverShare,
  IsTable,
  IsUnmapped,
  body_with,
  credit_fault,
  empty_table,
  is_answered,
  is_known,
  is_waiting,
  map_fault,
  mapped_at,
  records_at,
  target_at,
  target_of,
  unmap_fault,
  with_awaited,
  with_mapping,
  with_record,
};
ghost use Rattle.std.specs.Prelude.{◌≡◌, ◌≤◌, ◌<◌, ◌↔◌, length, true, false, ℕ, None, Some, Err, IfOk, IsErr, OnErr, OnOk, slice_get};
ghost use Rattle.std.specs.Result.{result_err};

mod parts;
mod records;

use crate::records::{Records, answered_place, some_waits, waiting_place};
pub use am_model::Awaited as Held;
use am_model::{Awaited, Mapping, sum_of_shares};
use am_names::{EndpointId, Serial, Tag};
use std::marker::Model;
use thiserror::Error;

/// Where the requests of an index go, and the tag that they carry.
#[derive(Clone, Copy, PartialEq, Eq)]
pub struct Target {
    pub name: EndpointId,
    pub tag: Tag,
}

/// Why an index was not mapped. The first that holds, in this order, is the fault (`map_fault` of `specs/Tables.antt`).
#[derive(Clone, Copy, PartialEq, Eq, Debug, Error)]
pub enum MapFault {
    /// The index is 16 or more.
    #[error("the index is 16 or more")]
    BadIndex,
    /// The index is mapped.
    #[error("the index is mapped")]
    InUse,
    /// There is a pool, and the sum of the shares of the mapped indexes, which this carries, the new share and the pool
    /// are together more than 32.
    #[error("the shares and the pool are more than 32")]
    OverShare(u8),
}

/// Why an index was not unmapped. The first that holds, in this order, is the fault (`unmap_fault` of
/// `specs/Tables.antt`).
#[derive(Clone, Copy, PartialEq, Eq, Debug, Error)]
pub enum UnmapFault {
    /// The index is 16 or more.
    #[error("the index is 16 or more")]
    BadIndex,
    /// The index is not mapped.
    #[error("the index is not mapped")]
    NotMapped,
    /// The index has so many records.
    #[error("the index has records")]
    Outstanding(u8),
}

/// Why no credit was taken. The first that holds, in this order, is the fault (`credit_fault` of `specs/Tables.antt`).
#[derive(Clone, Copy, PartialEq, Eq, Debug, Error)]
pub enum CreditFault {
    /// The index is 16 or more.
    #[error("the index is 16 or more")]
    BadIndex,
    /// The index is not mapped.
    #[error("the index is not mapped")]
    NotMapped,
    /// Without a pool the index has as many records as credits. With one it has at least as many as its share, and the
    /// records above the shares, over all indexes, are as many as the pool.
    #[error("the index has no credit left")]
    NoCredit,
    /// There are 32 records.
    #[error("there are 32 records")]
    TableFull,
}

/// No record of the request is in the state that was asked for.
#[derive(Clone, Copy, PartialEq, Eq, Debug, Error)]
#[error("no record of the request is in this state")]
pub struct NoRequest;

/// The table of an endpoint. Contracts see the pool, what each of the 16 indexes is mapped to, and the records in order
/// of acceptance (`Table` of `specs/Tables.antt`).
#[derive(Drop)]
pub struct Translate {
    pool: Option<u8>,
    mapped: [Option<Mapping>; 16],
    awaited: Records,
}

impl Model for Translate {
    ghost use Rattle.am_translate.specs.Tables.{Table};

    ghost Value = { Table };

    ghost use Rattle.am_translate.specs.Seen.{table_in};
    ghost use Rattle.am_translate.specs.Tables.{IsTable};

    ghost view = { table_in };

    ghost invariant = { λ table. IsTable (table_in table) };
}

impl Translate {
    /// An empty table, whose indexes share a pool of credits above their least shares, 0 to 32, or have each its own.
    pub fn new(pool: Option<u8>) -> Translate
        ensures empty { result ≡ empty_table pool }
        ensures table { IsTable result }
    {
        Translate {
            pool,
            mapped: [None; 16],
            awaited: Records::new(),
        }
    }

    /// The number of records: of the requests that are outstanding or whose reply has arrived and is not polled. At most 32.
    pub fn outstanding(&self) -> u8
        ensures value { result ≡ length self.now.awaited }
        ensures table { IsTable self.now }
    {
        self.awaited.as_slice().len() as u8
    }

    /// The number of records of an index.
    pub fn outstanding_at(&self, index: u8) -> u8
        ensures { result ≡ records_at self.now index }
    {
        self.records_at(index) as u8
    }

    /// Where the requests of an index go, and its credits, or its least share where there is a pool. `None` where the
    /// index is 16 or more or isn't mapped.
    pub fn mapped_at(&self, index: u8) -> Option<(Target, u8)>
        ensures value { result ≡ mapped_at self.now index }
        ensures none { (result ≡ None) ↔ (entry_at self.now.mapped index ≡ None) }
    {
        match self.mapping(index) {
            Some(mapping) => Some((target_of(mapping), mapping.credits)),
            None => None,
        }
    }

    /// The record at a place in order of acceptance, counted from 0.
    pub fn held_at(&self, place: u8) -> Option<Held>
        ensures value { result ≡ slice_get self.now.awaited place }
        ensures none { (result ≡ None) ↔ (length self.now.awaited ≤ place) }
    {
        self.awaited.as_slice().get(place as usize).copied()
    }

    /// Whether the reply to a request is awaited: its record waits.
    pub fn is_waiting(&self, request: Serial) -> bool
        ensures { result ≡ is_waiting self.now request }
    {
        some_waits(self.awaited.as_slice(), request)
    }
}

impl Translate {
    /// Maps an index, with credits 1 to 8, or with a least share 0 to 8 where there is a pool.
    /// After a fault the table is as it was.
    pub fn map(
        &mut self,
        index: u8,
        name: EndpointId,
        tag: Tag,
        credits: u8,
    ) -> Result<(), MapFault>
        requires { are_credits_in_range self.old.pool credits ≡ true }
        ensures fault { result_err result ≡ map_fault self.old index credits }
        ensures bad_index { (result ≡ Err MapFault.BadIndex) ↔ (16 ≤ index) }
        ensures in_use { (result ≡ Err MapFault.InUse) ↔ IsMapped self.old index }
        ensures over_share { (sum : ℕ) → (result ≡ Err (MapFault.OverShare sum)) ↔ IsOverShare self.old index credits sum }
        ensures ok { OnOk result (self.new ≡ with_mapping self.old index (Some (record { name = name; tag = tag; credits = credits }))) }
        ensures err { OnErr result (self.new ≡ self.old) }
        ensures table { OnOk result (IsTable self.new) }
    {
        if index >= 16 {
            return Err(MapFault::BadIndex);
        }
        if self.mapped[index as usize].is_some() {
            return Err(MapFault::InUse);
        }
        if self.is_over_share(credits) {
            return Err(MapFault::OverShare(self.shares() as u8));
        }
        self.mapped[index as usize] = Some(Mapping { name, tag, credits });
        Ok(())
    }

    /// Takes an index's mapping away. After a fault the table is as it was.
    pub fn unmap(&mut self, index: u8) -> Result<(), UnmapFault>
        ensures fault { result_err result ≡ unmap_fault self.old index }
        ensures bad_index { (result ≡ Err UnmapFault.BadIndex) ↔ (16 ≤ index) }
        ensures not_mapped { (result ≡ Err UnmapFault.NotMapped) ↔ IsUnmapped self.old index }
        ensures outstanding { (count : ℕ) → (result ≡ Err (UnmapFault.Outstanding count)) ↔ HasRecords self.old index count }
        ensures ok { OnOk result (self.new ≡ with_mapping self.old index None) }
        ensures err { OnErr result (self.new ≡ self.old) }
        ensures table { OnOk result (IsTable self.new) }
    {
        if index >= 16 {
            return Err(UnmapFault::BadIndex);
        }
        if self.mapped[index as usize].is_none() {
            return Err(UnmapFault::NotMapped);
        }
        let out = self.outstanding_at(index);
        if out != 0 {
            return Err(UnmapFault::Outstanding(out));
        }
        self.mapped[index as usize] = None;
        Ok(())
    }

    /// Whether a request may be made by an index, and where it would go.
    pub fn can_take(&self, index: u8) -> Result<Target, CreditFault>
        ensures fault { result_err result ≡ credit_fault self.now index }
        ensures bad_index { (result ≡ Err CreditFault.BadIndex) ↔ (16 ≤ index) }
        ensures not_mapped { (result ≡ Err CreditFault.NotMapped) ↔ IsUnmapped self.now index }
        ensures no_credit { (result ≡ Err CreditFault.NoCredit) ↔ HasNoCredit self.now index }
        ensures table_full { (result ≡ Err CreditFault.TableFull) ↔ IsFullFor self.now index }
        ensures target { IfOk result (λ target. target_at self.now index ≡ Some target) }
    {
        if index >= 16 {
            return Err(CreditFault::BadIndex);
        }
        let Some(mapping) = self.mapping(index) else {
            return Err(CreditFault::NotMapped);
        };
        if self.has_no_credit(index, mapping) {
            return Err(CreditFault::NoCredit);
        }
        if self.awaited.as_slice().len() >= 32 {
            return Err(CreditFault::TableFull);
        }
        Ok(target_of(mapping))
    }

    /// Takes a credit of an index for a request, whose record then waits, and tells where it goes.
    /// After a fault the table is as it was.
    pub fn take_credit(&mut self, index: u8, serial: Serial) -> Result<Target, CreditFault>
        requires { is_known self.old serial ≡ false }
        ensures fault { result_err result ≡ credit_fault self.old index }
        ensures bad_index { (result ≡ Err CreditFault.BadIndex) ↔ (16 ≤ index) }
        ensures not_mapped { (result ≡ Err CreditFault.NotMapped) ↔ IsUnmapped self.old index }
        ensures no_credit { (result ≡ Err CreditFault.NoCredit) ↔ HasNoCredit self.old index }
        ensures table_full { (result ≡ Err CreditFault.TableFull) ↔ IsFullFor self.old index }
        ensures target { IfOk result (λ target. target_at self.old index ≡ Some target) }
        ensures ok { OnOk result (self.new ≡ with_record self.old index serial) }
        ensures err { OnErr result (self.new ≡ self.old) }
        ensures table { OnOk result (IsTable self.new) }
    {
        match self.can_take(index) {
            Err(fault) => Err(fault),
            Ok(target) => {
                self.take(index, serial);
                Ok(target)
            }
        }
    }

    /// Takes a credit of an index that has one, as `can_take` tells, for a request, whose record then waits.
    pub fn take(&mut self, index: u8, serial: Serial)
        requires free { credit_fault self.old index ≡ None }
        requires known { is_known self.old serial ≡ false }
        ensures taken { self.new ≡ with_record self.old index serial }
        ensures table { IsTable self.new }
    {
        self.awaited.push(Awaited {
            index,
            serial,
            arrived: false,
        });
    }
}

impl Translate {
    /// The reply to a request arrives: its waiting record becomes arrived. Without one the table is as it was.
    pub fn reply_arrives(&mut self, request: Serial) -> Result<(), NoRequest>
        ensures no_request { IsErr result ↔ (is_waiting self.old request ≡ false) }
        ensures ok { OnOk result (self.new ≡ with_awaited self.old (with_arrived (Some request) self.old.awaited)) }
        ensures err { OnErr result (self.new ≡ self.old) }
        ensures table { OnOk result (IsTable self.new) }
    {
        match waiting_place(self.awaited.as_slice(), request) {
            None => Err(NoRequest),
            Some(_) => {
                self.awaited.mark_arrived(request);
                Ok(())
            }
        }
    }

    /// The reply to a request was polled: its arrived record goes. Without one the table is as it was.
    pub fn reply_taken(&mut self, request: Serial) -> Result<(), NoRequest>
        ensures no_request { IsErr result ↔ (is_answered self.old request ≡ false) }
        ensures ok { OnOk result (self.new ≡ with_awaited self.old (without_record (Some request) self.old.awaited)) }
        ensures err { OnErr result (self.new ≡ self.old) }
        ensures table { OnOk result (IsTable self.new) }
    {
        match answered_place(self.awaited.as_slice(), request) {
            None => Err(NoRequest),
            Some(answered) => {
                self.awaited.remove(answered);
                Ok(())
            }
        }
    }

    /// A request is given up, was returned or is unknown: its waiting record goes. Without one the table is as it was.
    pub fn give_up(&mut self, request: Serial) -> Result<(), NoRequest>
        ensures no_request { IsErr result ↔ (is_waiting self.old request ≡ false) }
        ensures ok { OnOk result (self.new ≡ with_awaited self.old (without_waiting request self.old.awaited)) }
        ensures err { OnErr result (self.new ≡ self.old) }
        ensures table { OnOk result (IsTable self.new) }
    {
        match waiting_place(self.awaited.as_slice(), request) {
            None => Err(NoRequest),
            Some(waiting) => {
                self.awaited.remove(waiting);
                Ok(())
            }
        }
    }
}

impl Translate {
    fn mapping(&self, index: u8) -> Option<Mapping>
        ensures { result ≡ entry_at self.now.mapped index }
    {
        if index < 16 {
            self.mapped[index as usize]
        } else {
            None
        }
    }

    fn records_at(&self, index: u8) -> usize
        ensures value { result ≡ records_at self.now index }
        ensures few { result ≤ 32 }
    {
        self.awaited
            .as_slice()
            .iter()
            .filter(|a| a.index == index)
            .count()
    }

    /// How many records of an index are above its share.
    fn excess_at(&self, index: u8) -> usize
        ensures value { result ≡ excess_at (body_with self.now) index (entry_at self.now.mapped index) }
        ensures few { result ≤ 32 }
    {
        match self.mapping(index) {
            None => 0,
            Some(mapping) => self
                .records_at(index)
                .saturating_sub(mapping.credits as usize),
        }
    }

    /// How many records of all indexes are above their shares.
    fn excess(&self) -> usize
        ensures { result ≡ excess (body_with self.now) }
    {
        let _ = &self.mapped;
        let mut total = 0;
        for index in 0..16u8 {
            total += self.excess_at(index);
        }
        total
    }

    /// Whether a mapped index has no credit left: its own, or its share with the pool empty.
    fn has_no_credit(&self, index: u8, mapping: Mapping) -> bool
        ensures { result ≡ has_no_credit self.now.pool (body_with self.now) index (Some mapping) }
    {
        let is_spent = self.records_at(index) >= mapping.credits as usize;
        match self.pool {
            None => is_spent,
            Some(pool) => is_spent && self.excess() == pool as usize,
        }
    }

    /// The sum of the shares of the mapped indexes.
    fn shares(&self) -> usize
        ensures value { result ≡ shares (body_with self.now) }
        ensures few { result ≤ 128 }
    {
        sum_of_shares(&self.mapped)
    }

    /// Whether a further share is more than the table has left.
    fn is_over_share(&self, share: u8) -> bool
        ensures { result ≡ is_over_share self.now.pool (body_with self.now) share }
    {
        match self.pool {
            None => false,
            Some(pool) => self.shares() + share as usize + pool as usize > 32,
        }
    }
}

fn target_of(mapping: Mapping) -> Target
    ensures { result ≡ target_of mapping }
{
    Target {
        name: mapping.name,
        tag: mapping.tag,
    }
}
