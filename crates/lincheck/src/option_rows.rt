//! The options of the command line, a row for each.

use crate::help;
use lin_workers::{MAX_LIMIT, MAX_SECONDS, MAX_SHARDS, MAX_WORKERS};

/// An option: its name, the greatest number that it takes, where it takes one, and what `--help` says of it.
#[derive(Clone, Copy)]
pub(crate) struct OptionRow {
    pub(crate) name: &'static str,
    pub(crate) greatest: Option<u64>,
    pub(crate) help: &'static str,
}

/// The options, in the order in which `--help` shows them.
pub(crate) const OPTION_ROWS: &[OptionRow] = &[
    OptionRow {
        name: "workers",
        greatest: Some(MAX_WORKERS),
        help: help::WORKERS,
    },
    OptionRow {
        name: "shards",
        greatest: Some(MAX_SHARDS),
        help: help::SHARDS,
    },
    OptionRow {
        name: "limit",
        greatest: Some(MAX_LIMIT),
        help: help::LIMIT,
    },
    OptionRow {
        name: "stats",
        greatest: None,
        help: help::STATS,
    },
    OptionRow {
        name: "explain",
        greatest: None,
        help: help::EXPLAIN,
    },
    OptionRow {
        name: "each",
        greatest: None,
        help: help::EACH,
    },
    OptionRow {
        name: "seconds",
        greatest: Some(MAX_SECONDS),
        help: help::SECONDS,
    },
    OptionRow {
        name: "progress",
        greatest: None,
        help: help::PROGRESS,
    },
];
