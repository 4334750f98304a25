use crate::batch::Batch;

/// The user in whose name a pass asks, as an authenticating proxy names it (CouchDB manual,
/// api/server/authn, "Proxy Authentication").
#[derive(Debug)]
pub struct User {
    /// The user's name.
    pub name: String,
    /// The user's roles, in order.
    pub roles: Vec<String>,
    /// The token that vouches for the name.
    pub token: String,
}

// Written out, so that callers do not prove again how each part is dropped.
impl Drop for User {
    fn drop(self) {
        let User {
            name: _,
            roles: _,
            token: _,
        } = self;
    }
}

/// Says what a pass copies, and in whose name.
#[derive(Debug)]
pub struct Config {
    /// The text that names the source in the checkpoint's id.
    pub source: String,
    /// The name of the source database in requests.
    pub source_db: String,
    /// The text that names the target in the checkpoint's id.
    pub target: String,
    /// The name of the target database in requests.
    pub target_db: String,
    /// The user of each request, if there is one.
    pub user: Option<User>,
    /// The name of this session, which the checkpoints keep.
    pub session: String,
    /// How many changes are listed at a time; without one, all are listed at once.
    pub batch: Option<Batch>,
    /// The pass begins at the sequence 0, whatever the checkpoints say.
    pub is_from_start: bool,
}

// Written out, so that callers do not prove again how each part is dropped.
impl Drop for Config {
    fn drop(self) {
        let Config {
            source: _,
            source_db: _,
            target: _,
            target_db: _,
            user: _,
            session: _,
            batch: _,
            is_from_start: _,
        } = self;
    }
}
