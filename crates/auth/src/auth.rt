ghost use Rattle.std.specs.Prelude.{◌≡◌, ◌==◌, ◌&&◌, true, false, not, length, map, IfOk, IfErr, bytes_eq, string_bytes, option_copied};
ghost use Rattle.std.specs.Str.{is_utf8};
ghost use Rattle.auth.specs.declared.auth_fault.AuthFault.TheVariants.{Token};

use crate::headers::{ROLES, TOKEN, USER_NAME, sole_value};
use crate::hmac::hmac_sha256;
use crate::roles::{add_admin_role, roles_in};
use crate::{AuthFault, Caller};
use couch_json::Got;
use std::alloc::Global;
use std::convert::AsSlice;
use std::marker::Model;
use std::str;

/// What a server knows of its users: the secret under which their tokens are made, and the names
/// of its admins.
pub struct Auth {
    alloc: Global,
    secret: Vec<u8>,
    admins: Vec<String>,
}

// Written out, so that callers do not prove again how each part is dropped.
impl Drop for Auth {
    fn drop(self) {
        let Auth {
            alloc: _,
            secret: _,
            admins: _,
        } = self;
    }
}

impl Model for Auth {
    ghost use Rattle.std.specs.Prelude.{map, string_bytes};
    ghost use Rattle.auth.specs.Callers.{Configuration};

    ghost Value = { Configuration };

    ghost view = { λ a. record { secret = a.secret.items; admins = map string_bytes a.admins.items } };
}

impl Auth {
    ghost use Rattle.auth.specs.Callers.{caller_of, caller_by, is_token, IsRefusedWith};
    ghost use Rattle.auth.specs.Headers.{fields_of};
    ghost use Rattle.auth.specs.Hmac.{token_of};

    /// Makes a server with this secret, which may be any bytes, and these names of admins. Both are
    /// copied.
    pub fn new(alloc: Global, secret: &[u8], admins: &[String]) -> Got<Auth>
        ensures { IfOk result (λ auth. auth ≡ record { secret = secret.now; admins = map string_bytes admins.now }) }
    {
        let secret = Vec::from_slice(alloc, secret)?;
        let admins = copies(alloc, admins)?;
        Ok(Auth {
            alloc,
            secret,
            admins,
        })
    }

    /// Returns the token that vouches for the user of this name: in lower-case hex, HMAC-SHA-256 of the
    /// name alone under the secret (RFC 2104, section 2). 64 bytes.
    pub fn token(&self, name: &str) -> Got<String>
        ensures { IfOk result (λ token. string_bytes token ≡ token_of self.now.secret name.now) }
    {
        let digest = hmac_sha256(self.alloc, self.secret.as_slice(), name.as_bytes())?;
        let token = hex::encode(self.alloc, digest)?;
        Ok(token)
    }

    /// Returns the caller of a request with these headers, each a name and a value, in the order that they
    /// came. Header names go without ASCII case.
    ///
    /// `X-Auth-CouchDB-UserName` names the caller, `X-Auth-CouchDB-Roles` lists its roles, separated
    /// by commas, where spaces and tabs round a role and empty roles don't count, and
    /// `X-Auth-CouchDB-Token` is the name's [`token`](Auth::token) (CouchDB's manual,
    /// api/server/authn, "Proxy Authentication"). One of the server's admins has the role `_admin`
    /// too, at the end where the header doesn't list it. Without a name header the caller is
    /// anonymous, whatever the other two hold.
    ///
    /// - `Repeated`: one of the three headers came more than once.
    /// - `Token`: there is a name, and it is empty, or it or the roles aren't UTF-8, or the token is
    ///   missing or isn't the name's, byte by byte.
    /// - `Memory`: memory ran out.
    #[tactic(auto, unfolding(crate::specs::Callers::caller_of))]
    pub fn caller<N: AsSlice<u8>, V: AsSlice<u8>>(
        &self,
        headers: &[(N, V)],
    ) -> Result<Caller, AuthFault>
        ensures ok { IfOk result (λ caller. caller_of (fields_of N.items V.items headers.now)
            self.now.secret self.now.admins ≡ Ok caller) }
        ensures refused { IfErr result (λ fault. IsRefusedWith fault (caller_of
            (fields_of N.items V.items headers.now) self.now.secret self.now.admins)) }
    {
        let name = sole_value(headers, USER_NAME)?;
        let roles = sole_value(headers, ROLES)?;
        let token = sole_value(headers, TOKEN)?;
        match name {
            None => Ok(Caller::anonymous(self.alloc)),
            Some(name) => self.user(name, roles.unwrap_or(b""), token),
        }
    }

    /// Returns the user of this name, with the roles that a header lists, where the token vouches for it.
    fn user(&self, name: &[u8], roles: &[u8], token: Option<&[u8]>) -> Result<Caller, AuthFault>
        ensures ok { IfOk result (λ caller. caller_by (Some name.now) roles.now (option_copied token.entry)
            self.now.secret self.now.admins ≡ Ok caller) }
        ensures refused { IfErr result (λ fault. IsRefusedWith fault (caller_by (Some name.now) roles.now
            (option_copied token.entry) self.now.secret self.now.admins)) }
    {
        let name = text(name)?;
        let roles = text(roles)?;
        if !self.vouches_for(name, token)? {
            return Err(AuthFault::Token);
        }
        let name = String::from_str(self.alloc, name)?;
        let mut roles = roles_in(self.alloc, roles)?;
        add_admin_role(
            self.alloc,
            &mut roles,
            name.as_str(),
            self.admins.as_slice(),
        )?;
        Ok(Caller::with_roles(self.alloc, name, roles)?)
    }

    /// Tells whether the name isn't empty and a token came that is the name's, byte by byte.
    fn vouches_for(&self, name: &str, token: Option<&[u8]>) -> Got<bool>
        ensures { IfOk result (λ answer. answer ≡ (not (length name.now == 0)
            && is_token (option_copied token.entry) (token_of self.now.secret name.now))) }
    {
        let Some(given) = token else {
            return Ok(false);
        };
        let wanted = self.token(name)?;
        Ok(!name.is_empty() && is_same(given, wanted.as_bytes()))
    }
}

/// Tells whether the bytes are the same. All of them are compared, so that the time taken doesn't tell how
/// far a guessed token is right.
fn is_same(given: &[u8], wanted: &[u8]) -> bool
    ensures { result ≡ bytes_eq given.now wanted.now }
{
    if given.len() != wanted.len() {
        return false;
    }
    let mut same = true;
    for (a, b) in given.iter().zip(wanted) {
        same &= a == b;
    }
    same
}

/// Returns the bytes as a text; `Token` where they aren't UTF-8.
fn text(bytes: &[u8]) -> Result<&str, AuthFault>
    ensures ok { IfOk result (λ text. (text.now ≡ bytes.now) × (is_utf8 bytes.now ≡ true)) }
    ensures refused { IfErr result (λ fault. (fault ≡ Token) × (is_utf8 bytes.now ≡ false)) }
{
    match str::from_utf8(bytes) {
        Ok(text) => Ok(text),
        Err(_) => Err(AuthFault::Token),
    }
}

/// Copies each text.
fn copies(alloc: Global, texts: &[String]) -> Got<Vec<String>>
    ensures { IfOk result (λ copies. map string_bytes copies.items ≡ map string_bytes texts.now) }
{
    let mut copies = Vec::with_capacity(alloc, texts.len())?;
    for text in texts {
        copies.push(text.clone()?)?;
    }
    Ok(copies)
}
