//! What each kind of line says.

ghost use Rattle.am_lexer.specs.Fields.{Gives};
ghost use Rattle.am_lexer.specs.Text.{words_of};
ghost use Rattle.am_session.specs.Grammar as grammar;

use crate::draft::{Draft, Line};
use crate::head::Head;
use am_lexer::{What, take_byte, take_end, take_u32, take_word};
use am_restart::{Say, SessionEvent};

#[tactic(auto, unfolding(crate::specs::Grammar::session_line))]
fn session_line(draft: &Draft, rest: &[u8]) -> Result<Line, What>
    ensures { Gives (λ line. line) result (grammar.session_line draft.now (words_of rest.now)) }
{
    let (_, rest) = take_byte(1, 1, rest)?;
    take_end(rest)?;
    if draft.section != 0 {
        return Err(What::Twice);
    }
    Ok(Line::Session)
}

#[tactic(auto, unfolding(crate::specs::Grammar::tries_line))]
fn tries_line(draft: &Draft, rest: &[u8]) -> Result<Line, What>
    ensures { Gives (λ line. line) result (grammar.tries_line draft.now (words_of rest.now)) }
{
    let (tries, rest) = take_byte(2, 16, rest)?;
    take_end(rest)?;
    if draft.tries.is_some() {
        return Err(What::Twice);
    }
    Ok(Line::Tries(tries))
}

// An event that needs no more words.
#[tactic(auto, unfolding(crate::specs::Grammar::alone))]
fn alone(event: SessionEvent, rest: &[u8]) -> Result<SessionEvent, What>
    ensures { Gives (λ event. event) result (grammar.alone event (words_of rest.now)) }
{
    take_end(rest)?;
    Ok(event)
}

#[tactic(auto, unfolding(crate::specs::Grammar::sender_receives))]
fn sender_receives(rest: &[u8]) -> Result<SessionEvent, What>
    ensures { Gives (λ event. event) result (grammar.sender_receives (words_of rest.now)) }
{
    let (number, rest) = take_u32(1, 4_294_967_295, rest)?;
    take_end(rest)?;
    Ok(SessionEvent::SenderReceive { number })
}

#[tactic(auto, unfolding(crate::specs::Grammar::sender_event))]
fn sender_event(word: &[u8], rest: &[u8]) -> Result<SessionEvent, What>
    ensures { Gives (λ event. event) result (grammar.sender_event word.now (words_of rest.now)) }
{
    if word == b"offer".as_slice() {
        alone(SessionEvent::Offer, rest)
    } else if word == b"hello".as_slice() {
        alone(SessionEvent::Hello, rest)
    } else if word == b"bind".as_slice() {
        alone(SessionEvent::Bind, rest)
    } else if word == b"expire".as_slice() {
        alone(SessionEvent::Expire, rest)
    } else if word == b"receive".as_slice() {
        sender_receives(rest)
    } else if word == b"restart".as_slice() {
        alone(SessionEvent::SenderRestart, rest)
    } else {
        Err(What::UnknownWord)
    }
}

#[tactic(auto, unfolding(crate::specs::Grammar::say_of))]
fn say_of(word: &[u8]) -> Result<Say, What>
    ensures { Gives (λ say. say) result (grammar.say_of word.now) }
{
    if word == b"accept".as_slice() {
        Ok(Say::Accept)
    } else if word == b"full".as_slice() {
        Ok(Say::Full)
    } else if word == b"bad".as_slice() {
        Ok(Say::Bad)
    } else {
        Err(What::UnknownWord)
    }
}

#[tactic(auto, unfolding(crate::specs::Grammar::receiver_receives))]
fn receiver_receives(rest: &[u8]) -> Result<SessionEvent, What>
    ensures { Gives (λ event. event) result (grammar.receiver_receives (words_of rest.now)) }
{
    let (number, rest) = take_u32(1, 4_294_967_295, rest)?;
    let (word, rest) = take_word(rest)?;
    let say = say_of(word)?;
    take_end(rest)?;
    Ok(SessionEvent::ReceiverReceive { number, say })
}

#[tactic(auto, unfolding(crate::specs::Grammar::receiver_event))]
fn receiver_event(word: &[u8], rest: &[u8]) -> Result<SessionEvent, What>
    ensures { Gives (λ event. event) result (grammar.receiver_event word.now (words_of rest.now)) }
{
    if word == b"receive".as_slice() {
        receiver_receives(rest)
    } else if word == b"restart".as_slice() {
        alone(SessionEvent::ReceiverRestart, rest)
    } else {
        Err(What::UnknownWord)
    }
}

// An event, where one more may stand.
#[tactic(auto, unfolding(crate::specs::Grammar::one_more))]
fn one_more(draft: &Draft, event: SessionEvent) -> Result<Line, What>
    ensures { Gives (λ line. line) result (grammar.one_more draft.now event) }
{
    if draft.steps.len() >= 65_536 {
        return Err(What::TooMany);
    }
    Ok(Line::Event(event))
}

#[tactic(auto, unfolding(crate::specs::Grammar::event_line))]
fn sender_line(draft: &Draft, rest: &[u8]) -> Result<Line, What>
    ensures { Gives (λ line. line) result (grammar.event_line grammar.sender_event draft.now (words_of rest.now)) }
{
    let (word, rest) = take_word(rest)?;
    let event = sender_event(word, rest)?;
    one_more(draft, event)
}

#[tactic(auto, unfolding(crate::specs::Grammar::event_line))]
fn receiver_line(draft: &Draft, rest: &[u8]) -> Result<Line, What>
    ensures { Gives (λ line. line) result (grammar.event_line grammar.receiver_event draft.now (words_of rest.now)) }
{
    let (word, rest) = take_word(rest)?;
    let event = receiver_event(word, rest)?;
    one_more(draft, event)
}

/// What the words behind a first word say, or their first fault.
#[tactic(auto, unfolding(crate::specs::Grammar::words_say))]
pub(crate) fn words_say(draft: &Draft, head: Head, rest: &[u8]) -> Result<Line, What>
    ensures { Gives (λ line. line) result (grammar.words_say draft.now head (words_of rest.now)) }
{
    match head {
        Head::Session => session_line(draft, rest),
        Head::Tries => tries_line(draft, rest),
        Head::Sender => sender_line(draft, rest),
        Head::Receiver => receiver_line(draft, rest),
    }
}
