//! Rows on who asks, and the users and admins that the head of a file names.

use crate::fault::{RowsFault, named};
use crate::playing::Asked;
use crate::texts::{first_word, put, text_of};
use auth::{Auth, Caller};
use std::alloc::Global;

/// `SECRET | NAME`: the token of the name under the secret.
pub fn token(asked: Asked<'_>, out: &mut String) -> Result<(), RowsFault> {
    let (secret, name) = halves_of(asked.question, b'|');
    let auth = Auth::new(asked.alloc, secret.trim_ascii(), &[])?;
    let token = auth.token(text_of(name.trim_ascii()))?;
    put(token.as_str(), out)
}

/// Returns what stands before and behind a byte; all stands before one that isn't there.
fn halves_of(bytes: &[u8], sign: u8) -> (&[u8], &[u8]) {
    for (place, byte) in bytes.iter().enumerate() {
        if *byte == sign {
            let (before, rest) = bytes.split_at_checked(place).unwrap_or((bytes, b""));
            return (before, rest.strip_prefix(&[sign]).unwrap_or(rest));
        }
    }
    (bytes, b"")
}

/// Header lines: the caller that they name, as `NAME` or `NAME with ROLE; ROLE`, `anonymous`, or
/// the fault. The head says `secret TEXT` and `admin NAME`.
pub fn caller(asked: Asked<'_>, out: &mut String) -> Result<(), RowsFault> {
    let mut headers = Vec::new(asked.alloc);
    for line in asked.question.split(|byte| *byte == b'\n') {
        let (name, value) = halves_of(line, b':');
        headers.push((name, value.strip_prefix(b" ").unwrap_or(value)))?;
    }
    let caller = named(auth_of(asked.alloc, asked.head)?.caller(&headers), out)?;
    put(caller.name().unwrap_or("anonymous"), out)?;
    let mut sign = " with ";
    for role in caller.roles() {
        out.push_str(sign)?;
        out.push_str(role.as_str())?;
        sign = "; ";
    }
    Ok(())
}

/// Returns what tells callers by the secret and the admins of a head.
pub fn auth_of(alloc: Global, head: &[String]) -> Result<Auth, RowsFault> {
    let admins = admins_of(alloc, head)?;
    Ok(Auth::new(alloc, setting_of(head, "secret").as_bytes(), &admins)?)
}

/// Returns what stands behind a word of the head, which is empty where no line begins with it.
pub fn setting_of<'a>(head: &'a [String], word: &str) -> &'a str {
    for line in head {
        let (known, rest) = first_word(line.as_str());
        if known == word {
            return rest;
        }
    }
    ""
}

/// Returns the admins that a head names.
pub fn admins_of(alloc: Global, head: &[String]) -> Result<Vec<String>, RowsFault> {
    let mut admins = Vec::new(alloc);
    for line in head {
        if let Some(name) = line.as_str().strip_prefix("admin ") {
            admins.push(String::from_str(alloc, name)?)?;
        }
    }
    Ok(admins)
}

/// Returns the caller of a name, with the roles that a line `user NAME ROLES` of the head gives it;
/// `anybody` has none.
pub fn caller_of(asked: Asked<'_>, name: &str, out: &mut String) -> Result<Caller, RowsFault> {
    if name == "anybody" {
        return Ok(Caller::anonymous(asked.alloc));
    }
    let auth = Auth::new(asked.alloc, b"Jefe", &[])?;
    let token = auth.token(name)?;
    let roles = roles_of(asked.head, name)?;
    named(auth.caller(&headers_of(name, roles, token.as_str())), out)
}

/// Returns the headers by which a proxy vouches for a name and its roles.
fn headers_of<'a>(name: &'a str, roles: &'a str, token: &'a str) -> [(&'a str, &'a str); 3] {
    [
        ("X-Auth-CouchDB-UserName", name),
        ("X-Auth-CouchDB-Roles", roles),
        ("X-Auth-CouchDB-Token", token),
    ]
}

/// Returns the roles of a user.
fn roles_of<'a>(head: &'a [String], name: &str) -> Result<&'a str, RowsFault> {
    for line in head {
        if let Some(user) = line.as_str().strip_prefix("user ") {
            let (known, roles) = first_word(user);
            if known == name {
                return Ok(roles);
            }
        }
    }
    Err(NO_USER)
}

/// How a user is refused that the head doesn't name.
pub const NO_USER: RowsFault = RowsFault::Refused("the head has no such user");
