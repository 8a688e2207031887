// How much is said.

/// How much is said on standard error (platform.md, "Operator Experience", `CNB_LOG_LEVEL`).
#[derive(Clone, Copy, Debug, PartialEq, Eq)]
pub enum Level {
    /// Only what explains a refusal.
    Warn,
    /// Also what is done.
    Info,
    /// Also each file that is read.
    Debug,
}

impl Level {
    /// The level of this name. Without one, or with another, it is `Info`.
    pub fn of(name: Option<&str>) -> Level {
        match name {
            Some("error") | Some("warn") => Level::Warn,
            Some("debug") => Level::Debug,
            Some(_) | None => Level::Info,
        }
    }

    pub(crate) fn says_progress(self) -> bool {
        match self {
            Level::Warn => false,
            Level::Info | Level::Debug => true,
        }
    }

    pub(crate) fn says_files(self) -> bool {
        match self {
            Level::Warn | Level::Info => false,
            Level::Debug => true,
        }
    }
}
