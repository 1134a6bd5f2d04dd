// The job of a report.
ghost use Rattle.command_report.specs.inside.Forms.{IsForm, IsForm-prop};

// How the sums of a log are printed.
#[derive(Clone, Copy)]
pub(crate) enum SumsForm {
    Lines,
    Json,
}

// The form in which a log is printed.
#[derive(Clone, Copy)]
pub(crate) enum ReportForm {
    Sums(SumsForm),
    // The series, in bins of this many milliseconds.
    Series(u64),
}

// The job of a report: the name of the log's file, and the form in which it is printed.
#[derive(Drop)]
pub(crate) struct ReportJob<'a> {
    pub log: &'a str,
    pub form: ReportForm,
    ghost form_is: { IsForm form } by { IsForm-prop form },
}
