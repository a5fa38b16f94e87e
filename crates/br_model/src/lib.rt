//! The mathematical model: what volumes, bootstraps and backups mean, and what a restore returns.
//!
//! The definitions are in specs/. Each function here states a law of them: it does nothing, and its
//! clause is the law.
#![tactic(auto)]

ghost use Rattle.br_model.specs.Attribute.{AttributesReadBack};
ghost use Rattle.br_model.specs.Block.{FragmentsAreExact};
ghost use Rattle.br_model.specs.BootstrapText.{CanonicalIsText, CanonicalReadsBack, ReadingIsTheGrammar};
ghost use Rattle.br_model.specs.Console.{ConsoleStays, StartIsConsole};
ghost use Rattle.br_model.specs.File.{BytesAreExact, ExtentsAreExact};
ghost use Rattle.br_model.specs.Meaning.{HitsAreLookups, MeaningHasHits, MeaningIsOfLaid, PiecesAreWhole};
ghost use Rattle.br_model.specs.Meaning.{ReachedAreHits, ReachedStays, TakingKeepsWhatIsHeld};
ghost use Rattle.br_model.specs.Number.{NumbersAreShortest, NumbersReadBack};
ghost use Rattle.br_model.specs.PlanMeaning.{PlanMeansSelection};
ghost use Rattle.br_model.specs.Record.{JoinFaultsAreFirst, JoinIsExact};
ghost use Rattle.br_model.specs.SessionHolds.{WrittenSessionsHold};
ghost use Rattle.br_model.specs.View.{ViewIsInOrder, ViewIsLookups};
ghost use Rattle.br_model.specs.Volume.{StepsAreTheWalk, WalkIsExact};

/// States that a block has exactly one list of fragments.
pub fn fragments_are_exact()
    ensures { FragmentsAreExact }
{}

/// States that the walk of a volume finds the blocks in which the volume is laid out.
pub fn walk_is_exact()
    ensures { WalkIsExact }
{}

/// States that fragments are joined to the records that were cut into them.
pub fn join_is_exact()
    ensures { JoinIsExact }
{}

/// States that two sets of hits with equal look-ups are equal.
pub fn hits_are_lookups()
    ensures { HitsAreLookups }
{}

/// States that a walk step by step finds the blocks of the whole walk.
pub fn steps_are_the_walk()
    ensures { StepsAreTheWalk }
{}

/// States that each piece of a bootstrap has groups, in order of their numbers and on its volume.
pub fn pieces_are_whole()
    ensures { PiecesAreWhole }
{}

/// States that a meaning is the set of the hits.
pub fn meaning_has_hits()
    ensures { MeaningHasHits }
{}

/// States that a bootstrap has a meaning exactly if its volumes exist and are laid out in blocks as
/// far as its groups ask.
pub fn meaning_is_of_laid()
    ensures { MeaningIsOfLaid }
{}

/// States that the hits that a walk reaches are the hits of the meaning, if there is one.
pub fn reached_are_hits()
    ensures { ReachedAreHits }
{}

/// States that a walk still reaches a hit after volumes have grown.
pub fn reached_stays()
    ensures { ReachedStays }
{}

/// States that joining is refused for the first fault of a cut.
pub fn join_faults_are_first()
    ensures { JoinFaultsAreFirst }
{}

/// States that data records have exactly one list of extents.
pub fn extents_are_exact()
    ensures { ExtentsAreExact }
{}

/// States that the extents of a file have exactly one list of bytes.
pub fn bytes_are_exact()
    ensures { BytesAreExact }
{}

/// States that an integer of 64 bits is read back from its text.
pub fn numbers_read_back()
    ensures { NumbersReadBack }
{}

/// States that no text shorter than the written one is read as the same integer.
pub fn numbers_are_shortest()
    ensures { NumbersAreShortest }
{}

/// States that attributes are read back from their text.
pub fn attributes_read_back()
    ensures { AttributesReadBack }
{}

/// States that a set that takes more hits keeps those that it holds.
pub fn taking_keeps_what_is_held()
    ensures { TakingKeepsWhatIsHeld }
{}

/// States that a restore by a plan returns the selected files as they were saved.
pub fn plan_means_selection()
    ensures { PlanMeansSelection }
{}

/// States that a view is in byte order of its paths and has each path once.
pub fn view_is_in_order()
    ensures { ViewIsInOrder }
{}

/// States that a view has the newest copy at each path.
pub fn view_is_lookups()
    ensures { ViewIsLookups }
{}

/// States that the marks are in order and within the view after each command.
pub fn console_stays()
    ensures { ConsoleStays }
{}

/// States that a console without marks is in order and within every view.
pub fn start_is_console()
    ensures { StartIsConsole }
{}

/// States that the canonical text of groups states these groups.
pub fn canonical_is_text()
    ensures { CanonicalIsText }
{}

/// States that a bootstrap's text states groups exactly if it is read as them.
pub fn reading_is_the_grammar()
    ensures { ReadingIsTheGrammar }
{}

/// States that groups are read back from their canonical text.
pub fn canonical_reads_back()
    ensures { CanonicalReadsBack }
{}

/// States that the volumes to which a session was written hold it.
pub fn written_sessions_hold()
    ensures { WrittenSessionsHold }
{}
