//! What each page has for a method.

ghost use Rattle.std.specs.Prelude.{◌≡◌};
ghost use Rattle.auth.specs.Callers.{Identity};
ghost use Rattle.couch_http.specs.Message.{Message};
ghost use Rattle.node.specs.Answer.{task_of};
ghost use Rattle.node.specs.inner.Drafts.{task_asked_if_any};

use crate::work::Work::{Read, Write};
use crate::work::{Reading, Work, Writing};
use api::RequestMethod::{Delete, Get, Post, Put};
use api::{Page, RequestMethod};
use policy::Action;

/// What a request asks by its page and its method.
#[derive(Clone, Copy, Debug)]
pub(crate) enum Task {
    /// Who answers here.
    Welcome,
    /// The names of all databases.
    ListDatabases,
    /// A new database.
    CreateDatabase,
    /// A database's end.
    RemoveDatabase,
    /// Work in a database, whose policy is asked for the action.
    Work(Action, Work),
}

/// Finds what a page has for a method.
pub(crate) fn task_of(page: Page, method: Option<RequestMethod>) -> Option<Task>
    ensures { (caller : Identity) (m : Message) → task_asked_if_any result caller m ≡ task_of page method caller m }
{
    let task = match (page, method) {
        (Page::Welcome, Some(Get)) => Task::Welcome,
        (Page::AllDatabases, Some(Get)) => Task::ListDatabases,
        (Page::Database, Some(Put)) => Task::CreateDatabase,
        (Page::Database, Some(Delete)) => Task::RemoveDatabase,
        (Page::Database, Some(Get)) => Task::Work(Action::Read, Read(Reading::Database)),
        (Page::Security, Some(Get)) => Task::Work(Action::Read, Read(Reading::Security)),
        (Page::Security, Some(Put)) => Task::Work(Action::WriteSecurity, Write(Writing::Security)),
        (Page::BulkDocuments, Some(Post)) => {
            Task::Work(Action::WriteDocument, Write(Writing::Documents))
        }
        (Page::AllDocuments, Some(Get)) => Task::Work(Action::Read, Read(Reading::Documents)),
        (Page::Changes, Some(Get)) => Task::Work(Action::Read, Read(Reading::Changes)),
        (Page::Differences, Some(Post)) => Task::Work(Action::Read, Read(Reading::Differences)),
        (Page::Document, Some(Get)) => Task::Work(Action::Read, Read(Reading::Document)),
        (Page::Document, Some(Put)) => Task::Work(Action::WriteDocument, Write(Writing::Document)),
        (Page::Document, Some(Delete)) => {
            Task::Work(Action::WriteDocument, Write(Writing::Deletion))
        }
        (Page::Find, Some(Post)) => Task::Work(Action::Read, Read(Reading::Finds)),
        (Page::Index, Some(Post)) => Task::Work(Action::WriteDocument, Write(Writing::Index)),
        (Page::View, Some(Get)) => Task::Work(Action::Read, Read(Reading::View)),
        (Page::LocalDocument, Some(Get)) => Task::Work(Action::Read, Read(Reading::LocalDocument)),
        (Page::LocalDocument, Some(Put)) => Task::Work(Action::Read, Write(Writing::LocalDocument)),
        _ => return None,
    };
    Some(task)
}
