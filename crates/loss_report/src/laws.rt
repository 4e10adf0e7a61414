//! What the definition of the report gives: the contract of a function with nothing to do.
ghost use Rattle.loss_report.specs.Worked.{WorkedReports};

/// The definition gives the worked reports.
pub fn worked_reports()
    ensures { WorkedReports }
{}
