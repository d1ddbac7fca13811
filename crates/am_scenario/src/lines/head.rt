//! The first word of a line.

ghost use Rattle.std.specs.Prelude.{◌≡◌};
ghost use Rattle.am_scenario.specs.Lines.Heads.{has_digit, head_of, setting_name_of, declaration_of, actor_of, section_of, is_of_form};

use crate::drafts::Version;
use crate::lines::keyword::is_word;
use am_lexer::parse_number;
use am_scenario_types::Form;

/// The word of a setting.
#[derive(Clone, Copy)]
pub enum SettingName {
    Network,
    Nodes,
    Frames,
    Channels,
    Tries,
    Bounces,
    Pool,
    Keep,
    Log,
    Turns,
}

/// What its first word says a line is.
#[derive(Clone, Copy)]
pub enum Head {
    Version,
    Setting(SettingName),
    Endpoint,
    Bundle,
    Thread,
    Plan,
    SwapFault,
    Outside,
    OfThread(u64),
    OfInterface(u64),
    OfDriver(u64),
}

#[tactic(auto, unfolding(crate::specs::Lines::Heads::setting_name_of))]
fn setting_name_of(version: Option<Version>, word: &[u8]) -> Option<SettingName>
    ensures { result ≡ setting_name_of version word.now }
{
    if is_word(word, b"network".as_slice()) {
        Some(SettingName::Network)
    } else if is_word(word, b"nodes".as_slice()) {
        Some(SettingName::Nodes)
    } else if is_word(word, b"frames".as_slice()) {
        Some(SettingName::Frames)
    } else if is_word(word, b"channels".as_slice()) {
        Some(SettingName::Channels)
    } else if is_word(word, b"tries".as_slice()) {
        Some(SettingName::Tries)
    } else if is_word(word, b"bounces".as_slice()) {
        Some(SettingName::Bounces)
    } else if is_word(word, b"keep".as_slice()) {
        Some(SettingName::Keep)
    } else if is_word(word, b"log".as_slice()) {
        Some(SettingName::Log)
    } else if is_word(word, b"turns".as_slice()) {
        Some(SettingName::Turns)
    } else if is_word(word, b"pool".as_slice()) {
        match version {
            Some(Version::Two) => Some(SettingName::Pool),
            _ => None,
        }
    } else {
        None
    }
}

#[tactic(auto, unfolding(crate::specs::Lines::Heads::declaration_of))]
fn declaration_of(word: &[u8]) -> Option<Head>
    ensures { result ≡ declaration_of word.now }
{
    if is_word(word, b"endpoint".as_slice()) {
        Some(Head::Endpoint)
    } else if is_word(word, b"bundle".as_slice()) {
        Some(Head::Bundle)
    } else if is_word(word, b"thread".as_slice()) {
        Some(Head::Thread)
    } else if is_word(word, b"plan".as_slice()) {
        Some(Head::Plan)
    } else if is_word(word, b"swapfault".as_slice()) {
        Some(Head::SwapFault)
    } else {
        None
    }
}

#[tactic(auto, unfolding(crate::specs::Lines::Heads::actor_of))]
fn actor_of(word: &[u8]) -> Option<Head>
    ensures { result ≡ actor_of word.now }
{
    match word {
        [b'x'] => Some(Head::Outside),
        [b't', digits @ ..] => parse_number(digits).map(Head::OfThread),
        [b'i', digits @ ..] => parse_number(digits).map(Head::OfInterface),
        [b'd', digits @ ..] => parse_number(digits).map(Head::OfDriver),
        _ => None,
    }
}

#[tactic(auto, unfolding(crate::specs::Lines::Heads::head_of))]
fn any_head_of(version: Option<Version>, word: &[u8]) -> Option<Head>
    ensures { result ≡ head_of version word.now }
{
    if is_word(word, b"am2".as_slice()) {
        return Some(Head::Version);
    }
    match setting_name_of(version, word) {
        Some(name) => Some(Head::Setting(name)),
        None => match declaration_of(word) {
            Some(head) => Some(head),
            None => actor_of(word),
        },
    }
}

// Whether a word's second byte is a digit.
#[inline(always)]
fn has_digit(word: &[u8]) -> bool
    ensures { result ≡ has_digit word.now }
{
    match word {
        [_, digit, ..] => digit.is_ascii_digit(),
        _ => false,
    }
}

/// What the first word of a line says, in a text of a version; none where it stands in no section.
// The outside and the numbered actors act in most lines, so their words are known at one look.
#[inline(always)]
#[tactic(auto, using(crate::proofs::Actors::outside_named, crate::proofs::Actors::actor_named))]
pub fn head_of(version: Option<Version>, word: &[u8]) -> Option<Head>
    ensures { result ≡ head_of version word.now }
{
    if is_word(word, b"x".as_slice()) {
        Some(Head::Outside)
    } else if has_digit(word) {
        actor_of(word)
    } else {
        any_head_of(version, word)
    }
}

impl Head {
    /// The section of the line, 1 to 4.
    pub fn section(self) -> u8
        ensures { result ≡ section_of self }
    {
        match self {
            Head::Version => 1,
            Head::Setting(_) => 2,
            Head::Endpoint | Head::Bundle | Head::Thread | Head::Plan | Head::SwapFault => 3,
            Head::Outside | Head::OfThread(_) | Head::OfInterface(_) | Head::OfDriver(_) => 4,
        }
    }

    /// Whether such a line may stand in a text of this form.
    pub fn is_of_form(self, form: Form) -> bool
        ensures { result ≡ is_of_form form self }
    {
        match self {
            Head::Plan | Head::OfThread(_) => matches!(form, Form::Run),
            Head::Outside | Head::OfInterface(_) | Head::OfDriver(_) => {
                matches!(form, Form::Step)
            }
            _ => true,
        }
    }
}
