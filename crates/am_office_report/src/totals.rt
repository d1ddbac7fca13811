//! How many messages have each fate.

ghost use Rattle.std.specs.Prelude.{◌≡◌};
ghost use Rattle.am_office_report.specs.Tables.{HasRoom, no_totals, totals_in, with_fate};

use crate::messages::MessageFate;
use am_office_entries::Fate;

/// How many messages have each fate.
#[derive(Clone, Copy)]
pub(crate) struct Totals {
    pub(crate) ran: u64,
    pub(crate) returned: u64,
    pub(crate) unknown: u64,
    pub(crate) unknown_but_ran: u64,
    pub(crate) pending: u64,
}

fn none() -> Totals
    ensures { result ≡ no_totals }
{
    Totals {
        ran: 0,
        returned: 0,
        unknown: 0,
        unknown_but_ran: 0,
        pending: 0,
    }
}

// The numbers with one more message, of this fate.
fn with(totals: Totals, fate: Fate) -> Totals
    requires { HasRoom totals }
    ensures { result ≡ with_fate totals fate }
{
    match fate {
        Fate::Ran => Totals {
            ran: totals.ran + 1,
            ..totals
        },
        Fate::Returned(_) => Totals {
            returned: totals.returned + 1,
            ..totals
        },
        Fate::Unknown => Totals {
            unknown: totals.unknown + 1,
            ..totals
        },
        Fate::UnknownButRan => Totals {
            unknown_but_ran: totals.unknown_but_ran + 1,
            ..totals
        },
        Fate::Pending => Totals {
            pending: totals.pending + 1,
            ..totals
        },
    }
}

/// How many of the messages have each fate.
pub(crate) fn totals_of(messages: &[MessageFate]) -> Totals
    ensures { result ≡ totals_in messages.now }
{
    let mut totals = none();
    for message in messages {
        totals = with(totals, message.fate);
    }
    totals
}
