//! What the nodes of a script, or of a server, have in common.

use crate::repl_line::PassWords;
use auth::Auth;
use couch_json::Got;
use node::{Node, Routes};
use repl::{Config, User};
use std::alloc::Global;
use store::Store;

/// The secret and the admins of each node.
#[derive(Clone, Copy)]
pub struct Server<'a> {
    pub alloc: Global,
    pub secret: &'a str,
    pub admins: &'a [String],
}

impl Server<'_> {
    ghost use Rattle.std.specs.Prelude.{◌≡◌, IfOk, option_map};
    ghost use Rattle.std.specs.Option.{option_copied};
    ghost use Rattle.repl.specs.Configuration.{account_of, configuration_of as told_by};
    ghost use Rattle.lab.specs.Lines.{pass_said};
    ghost use Rattle.lab.specs.Scene.{account_named, pass_configuration};
    ghost use Rattle.lab.specs.Stages.{configuration_of};

    /// Makes a node over a store.
    pub fn node<S: Store + Drop>(&self, store: S) -> Got<Node<S>>
        ensures { IfOk result (λ node. node ≡ record { store = store; configuration = configuration_of self.now }) }
    {
        let auth = Auth::new(self.alloc, self.secret.as_bytes(), self.admins)?;
        let routes = Routes::new(self.alloc)?;
        Ok(Node::new(self.alloc, store, auth, routes))
    }

    /// Returns what a pass of these words is told.
    pub fn pass_config(&self, words: &PassWords<'_>) -> Got<Config>
        ensures { IfOk result (λ config. told_by config ≡ pass_configuration (configuration_of self.now) (pass_said words.now)) }
    {
        Ok(Config {
            source: String::from_str(self.alloc, words.source.text)?,
            source_db: String::from_str(self.alloc, words.source.database.as_str())?,
            target: String::from_str(self.alloc, words.target.text)?,
            target_db: String::from_str(self.alloc, words.target.database.as_str())?,
            user: self.user(words.user)?,
            session: String::from_str(self.alloc, words.session)?,
            batch: words.batch,
            is_from_start: false,
        })
    }

    /// Returns the user of this name, where there is a name.
    fn user(&self, name: Option<&str>) -> Got<Option<User>>
        ensures { IfOk result (λ user. option_map account_of user ≡ option_map (account_named (configuration_of self.now)) (option_copied name.entry)) }
    {
        match name {
            Some(name) => Ok(Some(self.user_named(name)?)),
            None => Ok(None),
        }
    }

    /// Returns the user of this name, without roles, and with the token that vouches for it.
    fn user_named(&self, name: &str) -> Got<User>
        ensures { IfOk result (λ user. account_of user ≡ account_named (configuration_of self.now) name.now) }
    {
        let auth = Auth::new(self.alloc, self.secret.as_bytes(), self.admins)?;
        let token = auth.token(name)?;
        let name = String::from_str(self.alloc, name)?;
        Ok(User {
            name,
            roles: Vec::new(self.alloc),
            token,
        })
    }
}
