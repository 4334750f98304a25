//! The texts of a failure that may be missing.

ghost use Rattle.std.specs.Prelude.{◌≡◌, None, Some, if◌then◌else◌, option_copied, option_map};
ghost use Rattle.couch_json.specs.View.{view};
ghost use Rattle.repl.specs.Replies.{label_at, label_in, rule_in_reply};
ghost use Rattle.repl.specs.inner.Labels.{label_of, text_of};

use couch_json::Json;

/// A text that may be missing.
#[derive(Clone, Copy, Drop)]
pub(crate) enum Label<'a> {
    /// There is none.
    Absent,
    /// There is something other than a text.
    Malformed,
    /// This text.
    Text(&'a str),
}

impl<'a> Label<'a> {
    /// Tells whether it is malformed; else it is a text, or that there is none.
    pub(crate) fn is_malformed(self) -> bool
        ensures { label_of self.entry ≡ if result then None else Some (text_of self.entry) }
    {
        match self {
            Label::Malformed => true,
            Label::Absent | Label::Text(_) => false,
        }
    }

    /// Returns the text, if it is one.
    pub(crate) fn text(self) -> Option<&'a str>
        ensures { option_copied result ≡ text_of self.entry }
    {
        match self {
            Label::Text(text) => Some(text),
            Label::Absent | Label::Malformed => None,
        }
    }
}

/// Returns the text of a member, which has to be there; null stands for no text.
pub(crate) fn label_at<'a>(value: &'a Json, name: &str) -> Label<'a>
    ensures { label_of result ≡ label_at name.now (view value.now) }
{
    match value.member(name) {
        Some(member) => label_in(member),
        None => Label::Malformed,
    }
}

/// Returns a text; null stands for no text.
fn label_in(value: &Json) -> Label<'_>
    ensures { label_of result ≡ label_in (view value.now) }
{
    match value {
        Json::Null => Label::Absent,
        Json::Text(text) => Label::Text(text.as_str()),
        _ => Label::Malformed,
    }
}

/// Returns the rule that a failure names.
pub(crate) fn rule_in(value: Option<&Json>) -> Label<'_>
    ensures { label_of result ≡ rule_in_reply (option_map (λ v. view v.now) value.entry) }
{
    let Some(value) = value else {
        return Label::Absent;
    };
    match value.text() {
        Some(rule) => Label::Text(rule),
        None => Label::Malformed,
    }
}
