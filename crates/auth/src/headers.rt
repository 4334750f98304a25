ghost use Rattle.std.specs.Prelude.{◌≡◌, true, IfOk, IfErr, option_copied, option_to_list};
ghost use Rattle.std.specs.Str.{str_eq_ignore_ascii_case};
ghost use Rattle.auth.specs.declared.auth_fault.AuthFault.TheVariants.{Repeated};
ghost use Rattle.auth.specs.Headers.{fields_of, header_values, is_repeated};

use crate::AuthFault;
use std::convert::AsSlice;

/// The header that names the user.
pub(crate) const USER_NAME: &str = "X-Auth-CouchDB-UserName";
/// The header that lists the user's roles.
pub(crate) const ROLES: &str = "X-Auth-CouchDB-Roles";
/// The header whose token vouches for the name.
pub(crate) const TOKEN: &str = "X-Auth-CouchDB-Token";

/// Returns the value of the header of this name, where there is one. Names go without ASCII case (RFC
/// 9110, section 5.1).
///
/// `Repeated` where more than one header has the name.
pub(crate) fn sole_value<'a, N: AsSlice<u8>, V: AsSlice<u8>>(
    headers: &'a [(N, V)],
    name: &str,
) -> Result<Option<&'a [u8]>, AuthFault>
    ensures ok { IfOk result (λ value. option_to_list (option_copied value)
        ≡ header_values name.now (fields_of N.items V.items headers.now)) }
    ensures refused { IfErr result (λ fault. (fault ≡ Repeated)
        × (is_repeated name.now (fields_of N.items V.items headers.now) ≡ true)) }
{
    let mut found = None;
    for (header, value) in headers {
        if is_named(header.as_slice(), name) {
            if found.is_some() {
                return Err(AuthFault::Repeated);
            }
            found = Some(value.as_slice());
        }
    }
    Ok(found)
}

/// Tells whether a header's name is this one.
fn is_named(header: &[u8], name: &str) -> bool
    ensures { result ≡ str_eq_ignore_ascii_case header.now name.now }
{
    header.eq_ignore_ascii_case(name.as_bytes())
}
