//! Lemmas on booleans, options, lists, numbers and bytes that std lacks and several crates cite, and words on numbered
//! items, on counts that stand still at their end and on steps after an option. They speak of no machine, and there is no
//! code here.
#![tactic(auto)]
