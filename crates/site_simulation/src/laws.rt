//! What holds of all scripts.

ghost use Rattle.site_simulation.specs.Lines.{LinesAreTheText, OutputIsOfLines};
ghost use Rattle.site_simulation.specs.Played.{ScriptsAreRuns};

/// The lines of a script are a run of 16 new sites: so the headline holds of what a script prints.
pub fn a_script_is_a_run()
    ensures { ScriptsAreRuns }
{}

/// The lines of an input, joined by LF, are the input, and what is printed for it is what they
/// print.
pub fn lines_are_parted_by_their_ends()
    ensures text { LinesAreTheText }
    ensures output { OutputIsOfLines }
{}
