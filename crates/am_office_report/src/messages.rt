//! The accepted messages of a journal, in order, with their fates.

ghost use Rattle.std.specs.Prelude.{◌≡◌, ◌++◌, [], OnOk, IfOk, map, replicate};
ghost use Rattle.am_office_report.specs.Tables.{source_entry, fate_of_entry};

use crate::known::News;
use crate::sources::{MessageState, SourceMessages};
use am_names::{EndpointId, MsgKind, Serial};
use am_office_entries::Fate;
use std::alloc::{AllocError, Global};
use std::marker::Model;

/// An accepted message, and what became of it.
#[derive(Clone, Copy)]
pub struct MessageFate {
    pub serial: Serial,
    pub kind: MsgKind,
    pub fate: Fate,
}

/// How many sources there may be: one for each number of eight bits.
const SOURCES: usize = 256;

/// The accepted messages of a journal with what is known of their fates, one list for each source. Contracts see the
/// lists.
#[derive(Drop)]
pub(crate) struct MessageTable {
    sources: Vec<SourceMessages>,
}

impl Model for MessageTable {
    ghost use Rattle.std.specs.Prelude.{◌≡◌, List, length, ℕ};
    ghost use Rattle.am_office_report.specs.declared.sources.MessageState.{MessageState};

    ghost Value = { List (List (ℕ × MessageState)) };

    ghost view = { λ table. table.sources.items };

    ghost invariant = { λ table. length table.sources.items ≡ 256 };
}

fn empty_sources(alloc: Global) -> Result<Vec<SourceMessages>, AllocError>
    ensures { IfOk result (λ sources. sources.items ≡ replicate 256 []) }
{
    let mut sources = Vec::new(alloc);
    for _ in 0..SOURCES {
        sources.push(SourceMessages::new(alloc))?;
    }
    Ok(sources)
}

// Puts the messages of one source behind the others.
fn tell(
    told: &mut Vec<MessageFate>,
    source: EndpointId,
    rows: &[(u32, MessageState)],
) -> Result<(), AllocError>
    ensures { OnOk result (told.new.items ≡ told.old.items ++ map fate_of_entry (map (source_entry source.0) rows.now)) }
{
    for (count, state) in rows {
        let serial = Serial {
            source,
            count: *count,
        };
        let (kind, fate) = (state.kind, state.known.fate());
        told.push(MessageFate { serial, kind, fate })?;
    }
    Ok(())
}

impl MessageTable {
    ghost use Rattle.std.specs.Prelude.{◌≡◌, [], OnOk, IfOk, map};
    ghost use Rattle.std.specs.BTreeMap.{insert_entry};
    ghost use Rattle.am_names.specs.Names.{serial_order};
    ghost use Rattle.am_office_report.specs.Tables.{messages_in, accepted_state, accepted_with, heard_all, entry_after, fate_of_entry};

    pub(crate) fn new(alloc: Global) -> Result<Self, AllocError>
        ensures { IfOk result (λ table. messages_in table ≡ []) }
    {
        let sources = empty_sources(alloc)?;
        Ok(MessageTable { sources })
    }

    fn accept(&mut self, serial: Serial, kind: MsgKind) -> Result<(), AllocError>
        ensures { OnOk result (messages_in self.new ≡ insert_entry serial_order (messages_in self.old) serial (accepted_state kind)) }
    {
        self.sources[usize::from(serial.source.0)].accept(serial.count, kind)
    }

    fn learn(&mut self, serial: Serial, news: News)
        ensures { messages_in self.new ≡ map (entry_after serial news) (messages_in self.old) }
    {
        self.sources[usize::from(serial.source.0)].learn(serial.count, news);
    }

    /// Enters an accepted message, if there is one, with nothing known of its fate.
    pub(crate) fn accept_of(
        &mut self,
        accepted: Option<(Serial, MsgKind)>,
    ) -> Result<(), AllocError>
        ensures { OnOk result (messages_in self.new ≡ accepted_with (messages_in self.old) accepted) }
    {
        match accepted {
            None => Ok(()),
            Some((serial, kind)) => self.accept(serial, kind),
        }
    }

    /// Notes these news, one after the other.
    #[tactic(auto, using(crate::proofs::Telling::heard_next))]
    pub(crate) fn learn_all(&mut self, news: &[(Serial, News)])
        ensures { messages_in self.new ≡ heard_all (messages_in self.old) news.now }
    {
        for (serial, news) in news {
            self.learn(*serial, *news);
        }
    }

    /// The messages in order, with their fates.
    pub(crate) fn told(&self, alloc: Global) -> Result<Vec<MessageFate>, AllocError>
        ensures { IfOk result (λ told. told.items ≡ map fate_of_entry (messages_in self.now)) }
    {
        let mut told = Vec::new(alloc);
        for index in 0..SOURCES {
            tell(
                &mut told,
                EndpointId(index as u8),
                self.sources[index].rows(),
            )?;
        }
        Ok(told)
    }
}
