ghost use Rattle.std.specs.Prelude.{◌≡◌, length, ◌≤◌, ◌++◌, replicate, ◌-◌, OnOk, IfOk, map, bit_xor};
ghost use Rattle.sha2.specs.Sha256.{sha256};
ghost use Rattle.auth.specs.Hmac.{zero_filled, key_block, padded_key, hmac_sha256};

use couch_json::Got;
use sha2::Sha256;
use std::alloc::Global;

/// The length of a block of SHA-256 in bytes.
const BLOCK_LEN: usize = 64;
/// The byte of the inner pad (RFC 2104, section 2).
const INNER_PAD: u8 = 0x36;
/// The byte of the outer pad (RFC 2104, section 2).
const OUTER_PAD: u8 = 0x5c;

/// Computes HMAC-SHA-256 of `message` under `key` (RFC 2104, section 2).
pub(crate) fn hmac_sha256(alloc: Global, key: &[u8], message: &[u8]) -> Got<[u8; 32]>
    ensures { IfOk result (λ digest. digest ≡ hmac_sha256 key.now message.now) }
{
    let inner_key = padded_key(alloc, key, INNER_PAD)?;
    let outer_key = padded_key(alloc, key, OUTER_PAD)?;
    let inner = digest_of_parts(inner_key.as_slice(), message);
    Ok(digest_of_parts(outer_key.as_slice(), inner.as_slice()))
}

/// Returns the key as one block, each byte of it xored with `pad`.
fn padded_key(alloc: Global, key: &[u8], pad: u8) -> Got<Vec<u8>>
    ensures { IfOk result (λ padded. padded.items ≡ padded_key pad key.now) }
{
    let block = key_block(alloc, key)?;
    let padded = block.iter().map(|b| *b ^ pad).collect(alloc)?;
    Ok(padded)
}

/// Returns the key as one block: a key that is longer than a block is hashed first.
fn key_block(alloc: Global, key: &[u8]) -> Got<Vec<u8>>
    ensures { IfOk result (λ block. block.items ≡ key_block key.now) }
{
    use sha2::Digest;
    if key.len() <= BLOCK_LEN {
        zero_filled(alloc, key)
    } else {
        let digest = Sha256::digest(key);
        zero_filled(alloc, digest.as_slice())
    }
}

/// Returns the bytes with zeros after them, up to a block.
fn zero_filled(alloc: Global, bytes: &[u8]) -> Got<Vec<u8>>
    requires { length bytes.now ≤ 64 }
    ensures { IfOk result (λ block. block.items ≡ zero_filled bytes.now) }
{
    let zeros = vec![in alloc; 0u8; BLOCK_LEN - bytes.len()]?;
    let mut block = Vec::from_slice(alloc, bytes)?;
    block.extend_from_slice(zeros.as_slice())?;
    Ok(block)
}

/// Computes SHA-256 of one message in two parts.
fn digest_of_parts(first: &[u8], second: &[u8]) -> [u8; 32]
    ensures { result ≡ sha256 (first.now ++ second.now) }
{
    use sha2::Digest;
    let mut hasher = Sha256::new();
    hasher.update(first);
    hasher.update(second);
    hasher.finalize()
}
