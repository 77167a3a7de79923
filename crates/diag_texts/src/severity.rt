ghost use Rattle.std.specs.Prelude.{◌≡◌};
ghost use Rattle.diag_texts.specs.Severities as spec;

/// Whether a diagnostic is an error, after which its owner has failed, or a warning.
#[derive(Clone, Copy, Debug, PartialEq, Eq)]
pub(crate) enum Severity {
    Error,
    Warning,
}

impl Severity {
    /// The severity of the diagnostics of a number.
    pub(crate) fn of(number: u32) -> Severity
        ensures { result ≡ spec.severity_of number }
    {
        if number < 1000 {
            Severity::Error
        } else {
            Severity::Warning
        }
    }

    /// What is added to a number that is shown for the number of its diagnostics.
    pub(crate) fn offset(self) -> u32
        ensures { result ≡ spec.offset self }
    {
        match self {
            Severity::Error => 0,
            Severity::Warning => 1000,
        }
    }

    /// The word that begins a line.
    pub(crate) fn word(self) -> &'static str
        ensures { result.now ≡ spec.word self }
    {
        match self {
            Severity::Error => "error",
            Severity::Warning => "warning",
        }
    }

    /// The letter before a number that is shown.
    pub(crate) fn letter(self) -> &'static str
        ensures { result.now ≡ spec.letter self }
    {
        match self {
            Severity::Error => "E",
            Severity::Warning => "W",
        }
    }
}
