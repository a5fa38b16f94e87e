//! Laws of a delivery that leaves out conflicts.
ghost use Rattle.br_sink.specs.ConflictsApart.{ApartGoesOn, ApartStayWhole, KeptAreApart};

/// No two of the files that are kept conflict.
pub fn kept_are_apart()
    ensures { KeptAreApart }
{}

/// If no two files conflict, none is left out.
pub fn apart_stay_whole()
    ensures { ApartStayWhole }
{}

/// One more outcome is kept exactly if it conflicts with none of those that are kept.
pub fn apart_goes_on()
    ensures { ApartGoesOn }
{}
