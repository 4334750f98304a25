//! The kinds of rows: docs/ROWS.md has what each asks.

use crate::fault::RowsFault;
use crate::file::Joint;
use crate::nodes::Nodes;
use crate::playing::Asked;
use crate::{
    callers, command_lines, pieces, policies, received, replies, scripts, selectors, sent, trees,
    values,
};
use lab::LabStore;

/// A kind of rows. A file of it has its name as the ending.
#[derive(Clone, Copy)]
pub enum Kind {
    Bounds,
    Callers,
    Collation,
    Commands,
    Connections,
    Histories,
    Ids,
    Json,
    Keys,
    Lab,
    Numbers,
    Pages,
    Paths,
    Received,
    Replies,
    Requests,
    Revisions,
    Rules,
    Security,
    Selectors,
    Sent,
    Stream,
    Tokens,
}

impl Kind {
    /// Returns the kind that files with this ending are of.
    pub fn of_ending(ending: &str) -> Option<Kind> {
        Some(match ending {
            "bounds" => Kind::Bounds,
            "callers" => Kind::Callers,
            "collation" => Kind::Collation,
            "commands" => Kind::Commands,
            "connections" => Kind::Connections,
            "histories" => Kind::Histories,
            "ids" => Kind::Ids,
            "json" => Kind::Json,
            "keys" => Kind::Keys,
            "lab" => Kind::Lab,
            "numbers" => Kind::Numbers,
            "pages" => Kind::Pages,
            "paths" => Kind::Paths,
            "received" => Kind::Received,
            "replies" => Kind::Replies,
            "requests" => Kind::Requests,
            "revisions" => Kind::Revisions,
            "rules" => Kind::Rules,
            "security" => Kind::Security,
            "selectors" => Kind::Selectors,
            "sent" => Kind::Sent,
            "stream" => Kind::Stream,
            "tokens" => Kind::Tokens,
            _ => return None,
        })
    }

    /// Returns how lines become one text.
    pub fn joint(self) -> Joint {
        match self {
            Kind::Callers | Kind::Lab | Kind::Received | Kind::Sent | Kind::Stream =>
                Joint::LineFeed,
            _ => Joint::Nothing,
        }
    }

    /// Tells whether the rows are about nodes, which have a store.
    pub fn has_nodes(self) -> bool {
        matches!(
            self,
            Kind::Connections | Kind::Lab | Kind::Pages | Kind::Requests
        )
    }

    /// Tells whether a line of a head may begin with a word.
    pub fn may_begin_with(self, word: &str) -> bool {
        match word {
            "secret" | "admin" => self.has_nodes() || matches!(self, Kind::Callers),
            "public" | "closed" => self.has_nodes() && !matches!(self, Kind::Lab),
            "user" => self.has_nodes() || matches!(self, Kind::Rules | Kind::Security),
            "security" => matches!(self, Kind::Rules),
            _ => false,
        }
    }

    /// Adds the answer to a question. One that this kind can't read is `Refused`, in a word that says so.
    pub fn answer<S: LabStore>(
        self,
        nodes: &mut Nodes<S>,
        asked: Asked<'_>,
        out: &mut String,
    ) -> Result<(), RowsFault> {
        match self {
            Kind::Connections => nodes.feed_row(asked, out),
            Kind::Lab => scripts::play::<S>(asked, out),
            Kind::Pages | Kind::Requests => nodes.ask(asked, out),
            _ => self.answer_alone(asked, out),
        }
    }

    /// Adds the answer to a question that is asked of no node.
    fn answer_alone(self, asked: Asked<'_>, out: &mut String) -> Result<(), RowsFault> {
        match self {
            Kind::Bounds => selectors::bounds(asked, out),
            Kind::Callers => callers::caller(asked, out),
            Kind::Collation => values::collation(asked, out),
            Kind::Commands => command_lines::command(asked, out),
            Kind::Histories => trees::history(asked, out),
            Kind::Ids => trees::id(asked, out),
            Kind::Json => values::json(asked, out),
            Kind::Keys => values::key(asked, out),
            Kind::Numbers => values::number(asked, out),
            Kind::Paths => values::path(asked, out),
            Kind::Received => received::received(asked, out),
            Kind::Replies => replies::reply(asked, out),
            Kind::Revisions => trees::revision(asked, out),
            Kind::Rules => policies::rules(asked, out),
            Kind::Security => policies::security(asked, out),
            Kind::Selectors => selectors::selector(asked, out),
            Kind::Sent => sent::sent(asked, out),
            Kind::Stream => pieces::stream(asked, out),
            Kind::Tokens => callers::token(asked, out),
            Kind::Connections | Kind::Lab | Kind::Pages | Kind::Requests => Ok(()),
        }
    }
}
