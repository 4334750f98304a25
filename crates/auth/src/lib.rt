//! Who calls: the caller of a request, as an authenticating proxy names it in three headers
//! (CouchDB manual, api/server/authn, "Proxy Authentication").
//!
//! [`Auth`] knows the server's secret and the names of its admins. [`Auth::token`] is the token that
//! the proxy sends with a name, and [`Auth::caller`] the [`Caller`] of some headers. A row of the tests:
//!
//! ```rows
//! Jefe | what do ya want for nothing? => 5bdcc146bf60754e6a042426089575c75a003f089d2739839dec58b964ec3843
//! ```
#![tactic(auto)]

mod auth;
mod auth_fault;
mod caller;
mod headers;
mod hmac;
mod roles;

pub use auth::Auth;
pub use auth_fault::AuthFault;
pub use caller::Caller;
