//! A sum at one endpoint over rounds: what was refused or came back never ran, and is asked for again.

ghost use Rattle.std.specs.Prelude.{◌≡◌, IfOk};
ghost use Rattle.am_library_views.specs.RoundSums.{IsBegun, IsOutcome, is_whole};

use crate::account::Account;
use crate::endings::Ending;
use crate::sums::sum_at;
use am_names::{EndpointId, NoMemory, Words};
use am_office_entries::logged::LoggedJournal;
use std::alloc::Global;

/// What rounds summed so far at an endpoint, and what they did not.
#[derive(Drop)]
pub struct RoundSum {
    /// The sum of the endpoint's sums, modulo 2^64.
    pub sum: u64,
    /// The words of what never ran: whenever it was asked for, it was refused or came back.
    pub left: Vec<Words>,
    /// The words of what the senders know nothing of, so that it isn't asked for again. It isn't in the sum.
    pub unknown: Vec<Words>,
}

impl RoundSum {
    /// Before the first round: nothing is summed, and all is left. `NoMemory` comes where there is none for it.
    pub fn begin(alloc: Global, words: &[Words]) -> Result<RoundSum, NoMemory>
        ensures { IfOk result (IsBegun words.now) }
    {
        let left = Vec::from_slice(alloc, words)?;
        Ok(RoundSum {
            sum: 0,
            left,
            unknown: Vec::new(alloc),
        })
    }

    /// Whether all is summed: nothing is left, and nothing is unknown.
    pub fn is_whole(&self) -> bool
        ensures { result ≡ is_whole self.now }
    {
        self.left.is_empty() && self.unknown.is_empty()
    }

    /// After a round more, which asked for what was left. `NoMemory` comes where there is none for what it left.
    pub fn after(
        &self,
        alloc: Global,
        journal: &LoggedJournal,
        end: EndpointId,
    ) -> Result<RoundSum, NoMemory>
        ensures { IfOk result (IsOutcome self.now journal.now end) }
    {
        let sum = self.sum.wrapping_add(sum_at(journal, end));
        let mut unknown = Vec::from_slice(alloc, &self.unknown)?;
        let account = Account::of(alloc, journal)?;
        account.add_ended(journal, Ending::Unknown, &mut unknown)?;
        let mut left = account.words_ended(alloc, journal, Ending::Refused)?;
        account.add_ended(journal, Ending::Returned, &mut left)?;
        Ok(RoundSum { sum, left, unknown })
    }
}
