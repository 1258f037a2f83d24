//! Laws of scripts, as functions that do nothing.

ghost use Rattle.script_lang.specs.Spelling.{ReadsBack};

/// The spelling of an event reads back as that event.
pub fn spelling_reads_back()
    ensures { ReadsBack }
{}
