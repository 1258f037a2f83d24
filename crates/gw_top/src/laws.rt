//! Laws of the words of a call, as a function that does nothing.

ghost use Rattle.gw_top.specs.Grammar.{SentencesAreRead, BadPlacesAreTold};

/// Words are read as the command for which they ask as a sentence. Words that are no sentence are
/// refused with their first bad place, from 1: that of the first word with which no sentence goes
/// on, or the place after the last word where one lacks.
pub fn usage_is_exact()
    ensures sentences { SentencesAreRead }
    ensures places { BadPlacesAreTold }
{}
