ghost use Rattle.std.specs.Prelude.{◌≡◌, ◌↔◌, ◌+◌, ◌<◌, length, Some, IfOk, IsErrOf, IsTrue, option_copied, string_bytes};
ghost use Rattle.couch_json.specs.Canonical.{canonical};
ghost use Rattle.couch_json.specs.View.{view};
ghost use Rattle.std.specs.List.{list_all};
ghost use Rattle.std.specs.Char.{is_ascii_alphanumeric};
ghost use Rattle.hex.specs.Hex.{encode_lower};
ghost use Rattle.md5.specs.Md5.{md5};
ghost use Rattle.tree.specs.Revision.{greatest_number, is_hash};
ghost use Rattle.tree.specs.NextRevision.{hashed_edit, next_revision, number_before};
ghost use Rattle.tree.specs.declared.next_revision.RevFault.TheVariants.{Memory};

use crate::revision::Rev;
use couch_json::{Got, Json, NoMemory, canon};
use md5::{Digest, Md5};
use std::alloc::Global;
use thiserror::Error;

/// Why an edit makes no revision.
#[derive(Clone, Copy, Debug, PartialEq, Eq, Error)]
pub enum RevFault {
    /// The revision before it has the greatest number, 2,147,483,647.
    #[error("no revision follows the one with the greatest number")]
    Generation = 1,
    /// Memory ran out.
    #[error("out of memory")]
    Memory = 2,
}

impl From<NoMemory> for RevFault {
    ghost from_gives = { λ _ e. e ≡ Memory };

    fn from(_error: NoMemory) -> RevFault {
        RevFault::Memory
    }
}

/// Makes the revision that an edit makes.
///
/// Its number is one more than that of the revision before it. Its hash is the MD5, in lower-case
/// hexadecimal, of the canonical text of `[deleted, number before, hash before, body]`, with 0 and
/// the empty text for the first revision: so replicas that take in the same edit agree.
/// `Generation` comes if and only if the revision before has the greatest number, and before
/// memory is taken.
pub fn next_rev(
    alloc: Global,
    parent: Option<&Rev>,
    deleted: bool,
    body: &Json,
) -> Result<Rev, RevFault>
    ensures ok { IfOk result (λ r. r ≡ next_revision (option_copied parent.entry) deleted (view body.now)) }
    ensures generation { IsErrOf result RevFault.Generation ↔ (number_before (option_copied parent.entry) ≡ greatest_number) }
{
    match parent {
        Some(rev) => next_after(alloc, rev, deleted, body),
        None => Ok(hash_revision(alloc, 0, "", deleted, body)?),
    }
}

fn next_after(alloc: Global, parent: &Rev, deleted: bool, body: &Json) -> Result<Rev, RevFault>
    ensures ok { IfOk result (λ r. r ≡ next_revision (Some parent.now) deleted (view body.now)) }
    ensures generation { IsErrOf result RevFault.Generation ↔ (parent.now.number ≡ greatest_number) }
{
    let number = parent.number();
    if number == 2_147_483_647 {
        return Err(RevFault::Generation);
    }
    Ok(hash_revision(alloc, number, parent.hash(), deleted, body)?)
}

/// Makes the revision that an edit makes after a number and a hash.
fn hash_revision(alloc: Global, number: u32, hash: &str, deleted: bool, body: &Json) -> Got<Rev>
    requires bounded { number < greatest_number }
    requires plain { IsTrue (list_all is_ascii_alphanumeric hash.now) }
    ensures { IfOk result (λ r. r
        ≡ record { number = number + 1; hash = encode_lower (md5 (canonical (hashed_edit number hash.now deleted (view body.now)))) }) }
{
    let text = edit_text(alloc, number, hash, deleted, body)?;
    Ok(Rev::from_parts(number + 1, &digest(text.as_bytes())))
}

fn edit_text(alloc: Global, number: u32, hash: &str, deleted: bool, body: &Json) -> Got<String>
    requires { IsTrue (list_all is_ascii_alphanumeric hash.now) }
    ensures { IfOk result (λ text. string_bytes text ≡ canonical (hashed_edit number hash.now deleted (view body.now))) }
{
    let body = canon(alloc, body)?;
    Ok(format!(in alloc; "[{deleted},{number},\"{hash}\",{body}]")?)
}

/// Computes the MD5 of a text in lower-case hexadecimal.
fn digest(text: &[u8]) -> [u8; 32]
    ensures value { result ≡ encode_lower (md5 text.now) }
    ensures lawful { IsTrue (is_hash result) }
{
    let bytes = Md5::digest(text);
    hexadecimal(&bytes)
}

/// Writes sixteen bytes in lower-case hexadecimal.
fn hexadecimal(bytes: &[u8]) -> [u8; 32]
    requires { length bytes.now ≡ 16 }
    ensures value { result ≡ encode_lower bytes.now }
    ensures lawful { IsTrue (is_hash result) }
{
    let mut digits = [0; 32];
    hex::encode_to_slice(bytes, &mut digits).unwrap();
    digits
}
