//! What every line of a scenario's text says is lawful, and what the lines so far have said stays sound.

ghost use Rattle.am_scenario.specs.LineLaws.LineLaws.{LinesAreLawful};
ghost use Rattle.am_scenario.specs.LineLaws.Growth.{BeginsSound, StaysSound};

/// Each line that is taken says something lawful, of the section of its first word.
pub fn a_line_is_lawful()
    ensures { LinesAreLawful }
{}

/// Nothing is sound, and with a lawful line of the same section or a later one what was said stays sound.
pub fn a_draft_stays_sound()
    ensures begins { BeginsSound }
    ensures stays { StaysSound }
{}
