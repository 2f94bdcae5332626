//! The options of a case, as a user says them: one a line.

use lincheck::{AnswerForm, Options};

// What a case asks for.
#[derive(Clone, Copy)]
struct Choice {
    workers: u64,
    shards: u64,
    limit: Option<u64>,
    seconds: Option<u64>,
    stats: bool,
    progress: bool,
}

// What a case without options asks for.
const USUAL: Choice = Choice {
    workers: 4,
    shards: 16,
    limit: None,
    seconds: None,
    stats: false,
    progress: false,
};

// What a line says where it is told why a longest run ends, or what each object is.
const EXPLAIN: &str = "--explain";

const EACH: &str = "--each";

// The choice, with what a line says: a name and a number, or that statistics or the progress are told. The form of the answer is no part of it.
fn with_line(choice: Choice, line: &str) -> Option<Choice> {
    if line == "--stats" {
        return Some(Choice {
            stats: true,
            ..choice
        });
    }
    if line == "--progress" {
        return Some(Choice {
            progress: true,
            ..choice
        });
    }
    if line == EXPLAIN || line == EACH {
        return Some(choice);
    }
    let (name, value) = line.split_once(' ')?;
    let value = value.parse::<u64>().ok()?;
    match name {
        "--workers" => Some(Choice {
            workers: value,
            ..choice
        }),
        "--shards" => Some(Choice {
            shards: value,
            ..choice
        }),
        "--limit" => Some(Choice {
            limit: Some(value),
            ..choice
        }),
        "--seconds" => Some(Choice {
            seconds: Some(value),
            ..choice
        }),
        _ => None,
    }
}

/// The options that the lines ask for; `None` where there are none such.
pub fn options_of(lines: &str) -> Option<Options> {
    let mut choice = USUAL;
    for line in lines.lines() {
        choice = with_line(choice, line)?;
    }
    let options = Options::new(choice.workers, choice.shards, choice.limit, choice.stats).ok()?;
    let timed = options.with_seconds(choice.seconds).ok()?;
    Some(timed.with_progress(choice.progress))
}

// The form, with what a line says of it.
fn with_form(form: AnswerForm, line: &str) -> AnswerForm {
    match (form, line) {
        (AnswerForm::Each, EXPLAIN) => AnswerForm::EachExplained,
        (AnswerForm::Explained, EACH) => AnswerForm::EachExplained,
        (_, EXPLAIN) => AnswerForm::Explained,
        (_, EACH) => AnswerForm::Each,
        _ => form,
    }
}

/// The form that the lines ask for.
pub fn form_of(lines: &str) -> AnswerForm {
    let mut form = AnswerForm::Report;
    for line in lines.lines() {
        form = with_form(form, line);
    }
    form
}
