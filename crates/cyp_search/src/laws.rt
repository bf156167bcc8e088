ghost use Rattle.cyp_search.specs.Reports.{ReportLaw, OneReportLaw};
ghost use Rattle.cyp_search.specs.Stages.{StagesNumberedLaw};

/// Law: the report that is computed along the stages is that of the least stage that ends the
/// search.
pub fn report_is_of_the_least_stage<R, N>()
    ensures { ReportLaw R N }
{}

/// Law: a space, a budget, a limit of nodes and a root have one report.
pub fn report_is_unique<R, N>()
    ensures { OneReportLaw R N }
{}

/// Law: at each stage of a search the numbers of the nodes are distinct, below the size, and rising.
pub fn stages_are_numbered<R, N>()
    ensures { StagesNumberedLaw R N }
{}
