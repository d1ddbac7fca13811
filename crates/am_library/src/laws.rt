//! The laws of delivery, in a library's words. Each is so of every run of a lawful scenario, whatever the schedule and the plan: a library
//! cites it by calling it. That what an endpoint ran comes in an order that somebody gave is no law.

ghost use Rattle.am_library.specs.Laws.{AllRunWhereTheyLead, EachAskedHasItsEnd, EachReplyHasItsEnd, EachRequestHasItsEnd, EachRunHasOneReply};
ghost use Rattle.am_library.specs.Laws.{EchoesAreWords, NothingIsLost, NothingIsUnknown, RunsAtMostOnce, RunsWhereHandlersAre, ScriptsGrow};
ghost use Rattle.am_library.specs.Laws.{SumsAreOfRuns, SumsAreTheEndpoints, TheUnknownDidNotRun, WhatCameBackNeverRan, WhatRanWasAskedFor, WholeSums};

/// A request ran at most once. Example: a library that draws money at each run of a request draws it once, though a link sends each
/// packet twice.
pub fn runs_at_most_once()
    ensures { RunsAtMostOnce }
{}

/// Where the plan loses no packet and delays none, each message that was accepted ran, or it came back for a cause that isn't transient.
/// Example: a request that comes before its handler is set comes back as `BadHandler`, and none is unknown.
pub fn nothing_is_lost()
    ensures { NothingIsLost }
{}

/// What came back never ran. Example: a library may send it again, and it counts once.
pub fn what_came_back_never_ran()
    ensures { WhatCameBackNeverRan }
{}

/// What is told as unknown didn't run; what is unknown to its sender and ran is told as `UnknownButRan`. Example: the sender knows neither,
/// but the account of the run tells the two apart.
pub fn the_unknown_did_not_run()
    ensures { TheUnknownDidNotRun }
{}

/// A request that ran has one reply, which goes back to the endpoint that made the request, under the tag that it gave. Example: a client
/// with another tag for each round takes no reply of an earlier one.
pub fn each_run_has_one_reply()
    ensures { EachRunHasOneReply }
{}

/// The sum of an endpoint whose handlers all add, and which makes no requests, is that of the first words of the requests that ran there,
/// modulo 2^64. Example: 3 and 4 ran there, so it is 7, in whatever order they came.
pub fn sums_are_of_runs()
    ensures { SumsAreOfRuns }
{}

/// Where as many requests ran at such an endpoint as the script asks for, its sum is that of all first words that the script asks for.
/// Example: a library counts the runs, and then the sum is whole.
pub fn whole_sums()
    ensures { WholeSums }
{}

/// The sum that is read off a journal is the one that the endpoint has in the machine's definition. Example: `sum_at` of a server is what
/// its next reply would add to.
pub fn sums_are_the_endpoints()
    ensures { SumsAreTheEndpoints }
{}

/// A request runs only at an endpoint where the script sets a handler. Example: where it sets none but the server's, all that ran, ran at
/// the server, and the server's sum is that of all that ran.
pub fn runs_where_handlers_are()
    ensures { RunsWhereHandlersAre }
{}

/// Every request that the script asks for has its end: its call was refused, or its message ran, came back or is unknown. Whatever the
/// words weigh, what was asked for weighs as much as these four. Example: with the weight 1, as many requests ran as were asked for exactly
/// where the three others have none.
pub fn each_request_has_its_end()
    ensures { EachRequestHasItsEnd }
{}

/// What ran has the words of a request that the script asks for. Example: where each request carries one sum, whoever hears a sum hears
/// that one.
pub fn what_ran_was_asked_for()
    ensures { WhatRanWasAskedFor }
{}

/// Each request that the script asks for ran, was refused when it was asked for, or came to nothing: it came back or is unknown. Where the
/// plan withholds nothing, none is unknown, and it came back for a cause that isn't transient. Example: after a round without losses a
/// library asks again for what the cluster refused, and for nothing else.
pub fn each_asked_has_its_end()
    ensures { EachAskedHasItsEnd }
{}

/// Where the client heard no reply to a request that ran, its one reply came to nothing. Example: the effect is there, so a library that asks
/// again does so under the same token, and the server counts it once.
pub fn each_reply_has_its_end()
    ensures { EachReplyHasItsEnd }
{}

/// The reply that is heard from an endpoint whose handlers all echo has the words of its request. Example: each call has an answer of its
/// own, whatever the links repeated.
pub fn echoes_are_words()
    ensures { EchoesAreWords }
{}

/// Where each map of the script names one endpoint, all requests that ran, ran there. Example: what a library with one server doesn't see
/// there ran nowhere.
pub fn all_run_where_they_lead()
    ensures { AllRunWhereTheyLead }
{}

/// Where the plan loses no packet and delays none, no request is unknown. Example: a library whose plans only repeat asks again for all
/// that didn't run.
pub fn nothing_is_unknown()
    ensures { NothingIsUnknown }
{}

/// Calls add to a script the words that they ask for, and nothing else where each leaves the endpoint as it is. Example: a loop that asks
/// for a number in each step has asked for them all, and its server adds as before.
pub fn scripts_grow()
    ensures { ScriptsGrow }
{}
