ghost use Rattle.std.specs.Prelude.{◌≡◌, ◌≢◌, option_map, IfOk, IfErr, Some, None, Ok, Err};
ghost use Rattle.couch_json.specs.Reading.{reading, data_read, value_of};
ghost use Rattle.couch_json.specs.View.{view};

use crate::fault::JsonFault;
use crate::nesting::check_nesting;
use crate::parsing::read_value;
use crate::value::Json;
use json::{Reader, Scratch};
use std::alloc::Global;

/// How deep a value may nest by serde_json's own limit.
const MAX_DEPTH: usize = 127;

/// Reads the value that the bytes have as a JSON text, or the first fault that applies:
///
/// 1. `Depth`: more than 110 brackets and braces are open at once, strings aside; a closing one
///    with none open counts for nothing.
/// 2. `Syntax`: serde_json has no reading of the bytes, or they are not UTF-8.
/// 3. `Number`: a number of the value has a fraction or an exponent, is `-0`, or lies outside of
///    -2^63 to 2^64 - 1. A number that a repeated name replaced is not looked at.
///
/// Of a repeated name the last value stands. `Memory` may come in place of any answer.
pub fn read(alloc: Global, bytes: &[u8]) -> Result<Json, JsonFault>
    ensures value { IfOk result (λ v. reading bytes.now ≡ Ok (view v)) }
    ensures fault { IfErr result (λ e. e ≢ JsonFault.Memory → reading bytes.now ≡ Err e) }
{
    if check_nesting(bytes) {
        return Err(JsonFault::Depth);
    }
    match read_whole(alloc, bytes)? {
        Some(value) => Ok(value),
        None => Err(JsonFault::Number),
    }
}

/// Reads all of the bytes as one value. `None` says that they were read, and that a number of the value
/// is not whole or out of range.
fn read_whole(alloc: Global, bytes: &[u8]) -> Result<Option<Json>, JsonFault>
    ensures read { IfOk result (λ found. option_map value_of (data_read bytes.now)
        ≡ Some (option_map view found)) }
    ensures fault { IfErr result (λ e. e ≢ JsonFault.Memory
        → (e ≡ JsonFault.Syntax) × (data_read bytes.now ≡ None)) }
{
    let Ok(text) = str::from_utf8(bytes) else {
        return Err(JsonFault::Syntax);
    };
    let mut scratch = Scratch::new(alloc);
    let mut reader = Reader::new(text, &mut scratch)?;
    let found = read_value(alloc, &mut reader, MAX_DEPTH)?;
    match reader.next() {
        Some(_) => Err(JsonFault::Syntax),
        None => Ok(found),
    }
}
