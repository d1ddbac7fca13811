//! What became of each message, found by its serial without a look at the entries.

ghost use Rattle.std.specs.Prelude.{◌≡◌, ◌||◌, OnOk};
ghost use Rattle.std.specs.Option.{option_or};
ghost use Rattle.am_lab_picture.specs.Fates.{cause_in, has};
ghost use Rattle.am_office_entries.specs.Fates.{cause_for};
ghost use Rattle.am_names.specs.Names.{has_serial};
ghost use Rattle.am_names.specs.declared.Serial.{Serial};
ghost use Rattle.am_office_entries.specs.Entries.{is_serial, passes};

use am_names::{Cause, Message, Serial};
use am_office_entries::{Entry, Fate, accepted_of, return_of, run_of, unknown_of};
use std::alloc::{AllocError, Global};
use std::collections::{BTreeMap, BTreeSet};

/// What a journal says of its messages' fates: the serials that it accepts, returns with the cause of the first return,
/// leaves unknown, and runs.
#[derive(Drop)]
pub(crate) struct FateTable {
    pub(crate) accepted: BTreeSet<Serial>,
    pub(crate) returned: BTreeMap<Serial, Cause>,
    pub(crate) unknown: BTreeSet<Serial>,
    pub(crate) ran: BTreeSet<Serial>,
}

fn serial_of(message: Option<Message>) -> Option<Serial>
    ensures { (s : Serial) → is_serial s result ≡ passes (has_serial s) message }
{
    match message {
        Some(message) => Some(message.serial),
        None => None,
    }
}

// A serial more, if there is one.
fn note(set: &mut BTreeSet<Serial>, serial: Option<Serial>) -> Result<(), AllocError>
    ensures { OnOk result ((s : Serial) → has set.new s ≡ (has set.old s || is_serial s serial)) }
{
    if let Some(serial) = serial {
        set.insert(serial)?;
    }
    Ok(())
}

// The cause of a return, if there is one and it is the first of its serial.
fn note_return(
    causes: &mut BTreeMap<Serial, Cause>,
    returned: Option<(Serial, Cause)>,
) -> Result<(), AllocError>
    ensures { OnOk result ((s : Serial) → cause_in causes.new s ≡ option_or (cause_in causes.old s) (cause_for s returned)) }
{
    let Some((serial, cause)) = returned else {
        return Ok(());
    };
    if !causes.contains_key(&serial) {
        causes.insert(serial, cause)?;
    }
    Ok(())
}

impl FateTable {
    ghost use Rattle.std.specs.Prelude.{◌≡◌, [], ◌∷◌, ◌++◌, List, OnOk};
    ghost use Rattle.am_lab_picture.specs.Fates.{AreFates};
    ghost use Rattle.am_office_entries.specs.Fates.{fate};
    ghost use Rattle.am_office_entries.specs.declared.Entry.{Entry};

    /// Of no entries.
    pub(crate) fn new(alloc: Global) -> Self
        ensures { AreFates result [] }
    {
        FateTable {
            accepted: BTreeSet::new(alloc),
            returned: BTreeMap::new(alloc),
            unknown: BTreeSet::new(alloc),
            ran: BTreeSet::new(alloc),
        }
    }

    /// What one entry more says.
    pub(crate) fn learn(&mut self, entry: &Entry) -> Result<(), AllocError>
        ensures { (past : List Entry) → AreFates self.old past → OnOk result (AreFates self.new (past ++ entry.now ∷ [])) }
    {
        let accepted = serial_of(accepted_of(entry));
        let ran = serial_of(run_of(entry));
        note(&mut self.accepted, accepted)?;
        note_return(&mut self.returned, return_of(entry))?;
        note(&mut self.unknown, unknown_of(entry))?;
        note(&mut self.ran, ran)?;
        Ok(())
    }

    /// What became of a message. None exactly where no entry accepts it.
    pub(crate) fn fate(&self, serial: Serial) -> Option<Fate>
        ensures { (journal : List Entry) → AreFates self.now journal → result ≡ fate journal serial }
    {
        if !self.accepted.contains(&serial) {
            return None;
        }
        let cause = self.returned.get(&serial).copied();
        let unknown = self.unknown.contains(&serial);
        let ran = self.ran.contains(&serial);
        Some(Fate::of(cause, unknown, ran))
    }
}
