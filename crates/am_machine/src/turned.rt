//! A work of an interface, on its parts: the interface, the endpoint that it touches, and the index.

ghost use Rattle.am_endpoint.specs.View.{state_after};
ghost use Rattle.am_iface.specs.View.{own};
ghost use Rattle.am_machine_journal.specs.Index.View.{IsIndexOf};
ghost use Rattle.am_model_parts.specs.Interface.{needs};
ghost use Rattle.am_driver_moves.specs.Logs.{kept};
ghost use Rattle.am_machine.specs.Turned.{CanTurn, CanTurnWith, TurnsAlone, TurnsWith, entries_after, entry_of_work, told};
ghost use Rattle.am_machine.specs.Ways.{GoesTo};
ghost use Rattle.am_model.specs.Endpoint.{State};
ghost use Rattle.am_office_entries.specs.declared.Entry.{Entry};
ghost use Rattle.std.specs.Prelude.{◌≡◌, ◌<◌, None, IfSome, List};

use am_endpoint::Endpoint;
use am_iface::{Interface, Work, emitted_of};
use am_machine_journal::index::JournalIndex;
use am_model::EntryFault;
use am_names::NodeId;

/// Does a work that touches no endpoint.
pub(crate) fn turn_alone(
    interface: &mut Interface,
    index: &mut JournalIndex,
    work: &Work,
) -> Result<(), EntryFault>
    requires can { CanTurn interface.old index.old.read work.now }
    requires alone { needs (own interface.old) work.now ≡ None }
    ensures turns { (past : List Entry) (s : State) → IsIndexOf past index.old.read → TurnsAlone interface.old interface.new past s work.now (told (entry_of_work interface.old past s work.now) result) }
    ensures index { (past : List Entry) (s : State) → IsIndexOf past index.old.read → IsIndexOf (entries_after past (told (entry_of_work interface.old past s work.now) result)) index.new.read }
{
    let to = interface.emits_to(work);
    if index.room_to(interface.node(), to).is_err() {
        return Err(
            interface
                .refusal_alone(work)
                .unwrap_or(EntryFault::NoMemory),
        );
    }
    match interface.make_alone(index.greatest_stamp(), work) {
        Ok(()) => {
            let Some(entry) = interface.last_entry() else {
                unreachable!()
            };
            index.log(entry, emitted_of(entry));
            Ok(())
        }
        Err(fault) => Err(fault),
    }
}

/// Does a work that touches this endpoint, whose packet goes to this node, if it sends one.
pub(crate) fn turn_with(
    interface: &mut Interface,
    endpoint: &mut Endpoint,
    index: &mut JournalIndex,
    work: &Work,
    to: Option<NodeId>,
) -> Result<(), EntryFault>
    requires can { CanTurnWith interface.old (kept endpoint.old) index.old.read work.now }
    requires within { IfSome to (λ node. node.0 < 16) }
    requires goes { GoesTo (own interface.old) (state_after endpoint.old) work.now to }
    ensures turns { (past : List Entry) → IsIndexOf past index.old.read → TurnsWith interface.old interface.new endpoint.old endpoint.new past work.now (told (entry_of_work interface.old past (state_after endpoint.old) work.now) result) }
    ensures index { (past : List Entry) → IsIndexOf past index.old.read → IsIndexOf (entries_after past (told (entry_of_work interface.old past (state_after endpoint.old) work.now) result)) index.new.read }
{
    if index.room_to(interface.node(), to).is_err() {
        return Err(
            interface
                .refusal_with(work, endpoint)
                .unwrap_or(EntryFault::NoMemory),
        );
    }
    match interface.make_with(index.greatest_stamp(), work, endpoint) {
        Ok(()) => {
            let Some(entry) = interface.last_entry() else {
                unreachable!()
            };
            index.log(entry, emitted_of(entry));
            Ok(())
        }
        Err(fault) => Err(fault),
    }
}
