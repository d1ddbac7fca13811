//! Lines of sections 1 and 2.

ghost use Rattle.std.specs.Prelude.{◌≡◌, Option};
ghost use Rattle.am_lexer.specs.Text.{words_of};
ghost use Rattle.am_lexer.specs.Fields.{Gives};
ghost use Rattle.am_scenario.specs.Drafts.Drafts.{said};
ghost use Rattle.am_scenario.specs.Lines.Settings.{version_of, version_line, once_within, network_of, network_setting, setting_line, set_line};

use crate::drafts::{Draft, Line, Setting, Settings, Version};
use crate::lines::head::SettingName;
use am_lexer::{What, take_byte, take_end, take_u32, take_word};
use am_scenario_types::{Form, Network};

fn version_of(number: u8) -> Version
    ensures { result ≡ version_of number }
{
    if number == 1 {
        Version::One
    } else {
        Version::Two
    }
}

/// The line of the version, behind its first word, or its first fault.
#[tactic(auto, unfolding(crate::specs::Lines::Settings::version_line))]
pub fn version_line(draft: &Draft, rest: &[u8]) -> Result<Line, What>
    ensures { Gives (λ line. line) result (version_line (said draft.now) (words_of rest.now)) }
{
    let (number, rest) = take_byte(1, 2, rest)?;
    take_end(rest)?;
    if draft.version.is_some() {
        return Err(What::Twice);
    }
    Ok(Line::Version(version_of(number)))
}

#[tactic(auto, unfolding(crate::specs::Lines::Settings::once_within))]
fn byte_once(low: u8, high: u8, stood: Option<u8>, rest: &[u8]) -> Result<u8, What>
    ensures { Gives (λ number. number) result (once_within low high stood (words_of rest.now)) }
{
    let (number, rest) = take_byte(low, high, rest)?;
    take_end(rest)?;
    if stood.is_some() {
        return Err(What::Twice);
    }
    Ok(number)
}

#[tactic(auto, unfolding(crate::specs::Lines::Settings::once_within))]
fn u32_once(low: u32, high: u32, stood: Option<u32>, rest: &[u8]) -> Result<u32, What>
    ensures { Gives (λ number. number) result (once_within low high stood (words_of rest.now)) }
{
    let (number, rest) = take_u32(low, high, rest)?;
    take_end(rest)?;
    if stood.is_some() {
        return Err(What::Twice);
    }
    Ok(number)
}

#[tactic(auto, unfolding(crate::specs::Lines::Settings::network_of))]
fn network_of(form: Form, word: &[u8]) -> Result<Network, What>
    ensures { Gives (λ network. network) result (network_of form word.now) }
{
    if word == b"direct".as_slice() {
        match form {
            Form::Step => Ok(Network::Direct),
            Form::Run => Err(What::OutOfRange),
        }
    } else if word == b"packet".as_slice() {
        Ok(Network::Packet)
    } else {
        Err(What::UnknownWord)
    }
}

#[tactic(auto, unfolding(crate::specs::Lines::Settings::network_setting))]
fn network_once(form: Form, stood: Option<Network>, rest: &[u8]) -> Result<Network, What>
    ensures { Gives (λ network. network) result (network_setting form stood (words_of rest.now)) }
{
    let (word, rest) = take_word(rest)?;
    let network = network_of(form, word)?;
    take_end(rest)?;
    if stood.is_some() {
        return Err(What::Twice);
    }
    Ok(network)
}

#[tactic(auto, unfolding(crate::specs::Lines::Settings::setting_line))]
fn setting_line(
    form: Form,
    said: &Settings,
    name: SettingName,
    rest: &[u8],
) -> Result<Setting, What>
    ensures { Gives (λ setting. setting) result (setting_line form said.now name (words_of rest.now)) }
{
    match name {
        SettingName::Network => network_once(form, said.network, rest).map(Setting::Network),
        SettingName::Nodes => byte_once(1, 16, said.nodes, rest).map(Setting::Nodes),
        SettingName::Frames => byte_once(2, 16, said.frames, rest).map(Setting::Frames),
        SettingName::Channels => byte_once(1, 4, said.channels, rest).map(Setting::Channels),
        SettingName::Tries => byte_once(2, 16, said.tries, rest).map(Setting::Tries),
        SettingName::Bounces => byte_once(0, 16, said.bounces, rest).map(Setting::Bounces),
        SettingName::Pool => byte_once(0, 32, said.pool, rest).map(Setting::Pool),
        SettingName::Keep => byte_once(0, 64, said.keep, rest).map(Setting::Keep),
        SettingName::Log => u32_once(1, 65_536, said.log, rest).map(Setting::Log),
        SettingName::Turns => u32_once(0, 10_000, said.turns, rest).map(Setting::Turns),
    }
}

/// The line of a setting.
pub fn set_line(form: Form, said: &Settings, name: SettingName, rest: &[u8]) -> Result<Line, What>
    ensures { Gives (λ line. line) result (set_line form said.now name (words_of rest.now)) }
{
    let setting = setting_line(form, said, name, rest)?;
    Ok(Line::Setting(setting))
}
