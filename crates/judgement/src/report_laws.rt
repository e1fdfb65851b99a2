//! Laws of reports.

ghost use Rattle.judgement.specs.found.ReportLaws.{OneEntryReport, OneReport, SomeReport, NamedAreReported};

/// A module has at most one report, and so does each of its entry points.
pub fn one_report()
    ensures entry { OneEntryReport }
    ensures whole { OneReport }
{}

/// A module with valid handles has a report.
pub fn some_report()
    ensures { SomeReport }
{}

/// Apart from its payload and its mesh output, the lines of an entry point list exactly the global variables that a function
/// reachable from it references.
pub fn named_are_reported()
    ensures { NamedAreReported }
{}
