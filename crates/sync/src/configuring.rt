//! What a pass is told by the words of the command line.

ghost use Rattle.std.specs.Prelude.{◌≡◌, IfOk, option_map, string_bytes};
ghost use Rattle.auth.specs.Hmac.{token_of};
ghost use Rattle.command_line.specs.Plan.{side_of, sync_of};
ghost use Rattle.repl.specs.Configuration.{account_of, configuration_of};
ghost use Rattle.sync.specs.Configuring.{account_named, configuration_with, pass_configuration, place_of, side_name};

use auth::Auth;
use command_line::{SyncPlan, SyncSide};
use couch_json::Got;
use repl::{Batch, Config, User};
use std::alloc::Global;

/// Returns what a pass is told at first: each side is named by its file or address, a slash, and its database.
pub fn configure(alloc: Global, plan: &SyncPlan) -> Got<Config>
    ensures { IfOk result (λ config. configuration_of config ≡ pass_configuration (sync_of plan.now)) }
{
    configure_with(alloc, plan, plan.batch, plan.from_start)
}

/// Returns what a pass is told that lists so many changes at a time, and begins at 0 or not.
pub fn configure_with(
    alloc: Global,
    plan: &SyncPlan,
    batch: u32,
    is_from_start: bool,
) -> Got<Config>
    ensures { IfOk result (λ config. configuration_of config ≡ configuration_with (sync_of plan.now) batch is_from_start) }
{
    Ok(Config {
        source: side_name(alloc, place_of(&plan.source), &plan.database)?,
        source_db: String::from_str(alloc, &plan.database)?,
        target: side_name(alloc, place_of(&plan.target), &plan.target_database)?,
        target_db: String::from_str(alloc, &plan.target_database)?,
        user: user_of(alloc, plan)?,
        session: String::from_str(alloc, &plan.session)?,
        batch: Batch::new(batch as u64),
        is_from_start,
    })
}

/// Returns the path or the address of a side.
fn place_of(side: &SyncSide) -> &str
    ensures { result.now ≡ place_of (side_of side.now) }
{
    match side {
        SyncSide::File(path) => path,
        SyncSide::Address(address) => address,
    }
}

/// Returns the name of a side: the place, a slash, and the database.
fn side_name(alloc: Global, place: &str, database: &str) -> Got<String>
    ensures { IfOk result (λ name. string_bytes name ≡ side_name place.now database.now) }
{
    let mut name = String::from_str(alloc, place)?;
    name.push('/')?;
    name.push_str(database)?;
    Ok(name)
}

/// Returns the user of the requests, without roles, and with the token that vouches for the name.
fn user_of(alloc: Global, plan: &SyncPlan) -> Got<Option<User>>
    ensures { IfOk result (λ user. option_map account_of user ≡ option_map (account_named (sync_of plan.now).secret) (sync_of plan.now).user) }
{
    match &plan.user {
        Some(name) => Ok(Some(User {
            name: String::from_str(alloc, name)?,
            roles: Vec::new(alloc),
            token: token_of(alloc, plan, name)?,
        })),
        None => Ok(None),
    }
}

/// Returns the token that vouches for a name.
fn token_of(alloc: Global, plan: &SyncPlan, name: &str) -> Got<String>
    ensures { IfOk result (λ token. string_bytes token ≡ token_of (sync_of plan.now).secret name.now) }
{
    let auth = Auth::new(alloc, plan.secret.as_bytes(), &plan.admins)?;
    auth.token(name)
}
