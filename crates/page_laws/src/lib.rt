//! What the readers' calls come to, taken together.
#![tactic(auto)]

ghost use Rattle.page_laws.specs.Laws.{ReadersAgree, ReadersHandOut, NextKeeps, RecordsSay};

/// Readers that are asked for every record tell what `check` tells: the counts, or the first fault.
pub fn readers_agree()
    ensures { ReadersAgree }
{}

/// A reader that is asked for every record of a sound section hands out what the section says.
pub fn readers_hand_out()
    ensures { ReadersHandOut }
{}

/// A record that is read does not change what the step past its section will say.
pub fn rest_stays()
    ensures { NextKeeps }
{}

/// A record says what the format has at its place.
pub fn records_say()
    ensures { RecordsSay }
{}
