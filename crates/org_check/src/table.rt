//! What is said of a kind of findings.
ghost use Rattle.std.specs.Prelude.{◌≡◌};
ghost use Rattle.org_check.specs.Kinds.{always, quoting, rare, seen};
ghost use Rattle.org_check.specs.Chosen.{rank_of, severity_name};

/// How much a finding matters.
#[derive(Clone, Copy, Debug, PartialEq, Eq, PartialOrd, Ord)]
pub enum Severity {
    /// It is rarely meant so.
    Note,
    /// It shows otherwise than it is written, or it is a guess that something else was meant.
    Warning,
    /// What is written there isn't read, or counts nothing.
    Error,
}

impl Severity {
    /// Its name, as compilers write it.
    pub fn name(self) -> &'static str
        ensures value { result.now ≡ severity_name self }
    {
        match self {
            Severity::Note => "note",
            Severity::Warning => "warning",
            Severity::Error => "error",
        }
    }

    // The more it matters the higher.
    pub(crate) fn rank(self) -> u8
        ensures value { result ≡ rank_of self }
    {
        match self {
            Severity::Note => 0,
            Severity::Warning => 1,
            Severity::Error => 2,
        }
    }

    /// The severity of this name.
    pub fn of_name(name: &str) -> Option<Severity> {
        let all = [Severity::Note, Severity::Warning, Severity::Error];
        for severity in all {
            if severity.name() == name {
                return Some(severity);
            }
        }
        None
    }
}

// What is said of a kind.
#[derive(Clone, Copy)]
pub(crate) struct Entry {
    // The name under which it is asked for and left out.
    pub name: &'static str,
    pub severity: Severity,
    // Whether it is looked for where nothing is said of kinds.
    pub is_usual: bool,
    // Whether its sentence begins with the text that it is about.
    pub quotes: bool,
    // What is wrong, and the remedy.
    pub sentence: &'static str,
}

impl Entry {
    pub(crate) fn error(name: &'static str, sentence: &'static str) -> Entry
        ensures value { seen result ≡ always Severity.Error name.now sentence.now }
    {
        Entry {
            name,
            severity: Severity::Error,
            is_usual: true,
            quotes: false,
            sentence,
        }
    }

    pub(crate) fn warning(name: &'static str, sentence: &'static str) -> Entry
        ensures value { seen result ≡ always Severity.Warning name.now sentence.now }
    {
        let entry = Entry::error(name, sentence);
        Entry {
            severity: Severity::Warning,
            ..entry
        }
    }

    pub(crate) fn note(name: &'static str, sentence: &'static str) -> Entry
        ensures value { seen result ≡ always Severity.Note name.now sentence.now }
    {
        let entry = Entry::error(name, sentence);
        Entry {
            severity: Severity::Note,
            ..entry
        }
    }

    // The same, not looked for where nothing is said of kinds.
    pub(crate) fn rare(self) -> Entry
        ensures value { seen result ≡ rare (seen self) }
    {
        Entry {
            is_usual: false,
            ..self
        }
    }

    // The same, with the text that it is about in front of the sentence.
    pub(crate) fn with_quote(self) -> Entry
        ensures value { seen result ≡ quoting (seen self) }
    {
        Entry {
            quotes: true,
            ..self
        }
    }
}
