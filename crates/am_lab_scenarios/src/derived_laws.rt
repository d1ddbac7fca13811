//! What `am2 run` makes of the scenarios that stand behind the runs of `am2 make`, `am2 segments` and `am2 count`.

ghost use Rattle.am_lab_scenarios.specs.DerivedLaws.Laws.{CountsAreRun, CutCountsAreRun, MakesAreRun, SegmentsAreRun};

/// What a command tells of its run is told by `am2 run` of the scenario's text that stands behind it: of a number the
/// same journal or the same full log, and nothing else; of a text with segments the report in front of the segments, as
/// one that it may print; of a round the report of the journal that was counted, or that of the run which met a full
/// log, as one that it may print.
pub fn runs_are_told_alike()
    ensures make { MakesAreRun }
    ensures segments { SegmentsAreRun }
    ensures count { CountsAreRun }
    ensures cut { CutCountsAreRun }
{}
