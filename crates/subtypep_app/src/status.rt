ghost use Rattle.std.specs.Prelude.{◌≡◌};
ghost use Rattle.subtypep_app.specs.Statuses.{number_of};

/// How a run ended.
#[derive(Clone, Copy, Debug, PartialEq, Eq)]
pub enum Status {
    /// The input was read to its end and the whole report was written, without a finding.
    Clean,
    /// The same, with a line that refuses a query.
    Found,
    /// The words of the command line have no meaning.
    Usage,
    /// The input is no text that can be read.
    Unreadable,
    /// A read failed.
    SourceFault,
    /// A write failed.
    SinkFault,
    /// Memory was wanting.
    Memory,
}

impl Status {
    /// The exit status of the program.
    pub fn number(self) -> u8
        ensures { result ≡ number_of self }
    {
        self as u8
    }
}
