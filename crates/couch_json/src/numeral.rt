ghost use Rattle.std.specs.Prelude.{◌≡◌, ◌<◌, ◌==◌, length, slice_index, option_map, IfOk, IfErr, IsTrue, true, false, Some, None};
ghost use Rattle.serde_json.specs.Find.{as_integer};
ghost use Rattle.serde_json.specs.Read.{number_of, number_from, float_of};

use crate::fault::JsonFault;
use crate::number::Number;
use fast_float::Numeral;

/// Reads the text of a number. `None` says that the number is not whole or out of range, and `Syntax`
/// that it is too large for a float.
pub(crate) fn read_number(text: &str) -> Result<Option<Number>, JsonFault>
    ensures read { IfOk result (λ found. option_map as_integer (number_of text.now) ≡ Some found) }
    ensures fault { IfErr result (λ e. (e ≡ JsonFault.Syntax) × (number_of text.now ≡ None)) }
{
    let bytes = text.as_bytes();
    if has_minus(bytes) {
        read_below_zero(&Numeral::scan(&bytes[1..]))
    } else {
        read_from_zero(&Numeral::scan(bytes))
    }
}

/// Tests whether the text begins with a minus.
fn has_minus(bytes: &[u8]) -> bool
    ensures value { result ≡ (slice_index bytes.now 0 == 45) }
    ensures some { IsTrue result → 0 < length bytes.now }
{
    !bytes.is_empty() && bytes[0] == b'-'
}

/// Reads a number that has no minus.
fn read_from_zero(numeral: &Numeral<'_>) -> Result<Option<Number>, JsonFault>
    ensures read { IfOk result (λ found. option_map as_integer (number_from false numeral.now) ≡ Some found) }
    ensures fault { IfErr result (λ e. (e ≡ JsonFault.Syntax) × (number_from false numeral.now ≡ None)) }
{
    match numeral.to_u64() {
        Some(whole) => Ok(Some(Number::from(whole))),
        None => read_float(false, numeral),
    }
}

/// Reads a number from what stands behind its minus. `-0` is a float.
fn read_below_zero(numeral: &Numeral<'_>) -> Result<Option<Number>, JsonFault>
    ensures read { IfOk result (λ found. option_map as_integer (number_from true numeral.now) ≡ Some found) }
    ensures fault { IfErr result (λ e. (e ≡ JsonFault.Syntax) × (number_from true numeral.now ≡ None)) }
{
    match numeral.to_i64(true) {
        Some(whole) if whole < 0 => Ok(Some(Number::from(whole))),
        _ => read_float(true, numeral),
    }
}

/// Tells whether a number that is not whole or out of range has a float. serde_json reads it as one.
fn read_float(below_zero: bool, numeral: &Numeral<'_>) -> Result<Option<Number>, JsonFault>
    ensures read { IfOk result (λ found. (found ≡ None)
        × (option_map as_integer (float_of below_zero numeral.now) ≡ Some None)) }
    ensures fault { IfErr result (λ e. (e ≡ JsonFault.Syntax) × (float_of below_zero numeral.now ≡ None)) }
{
    if numeral.to_float::<f64>(below_zero).is_finite() {
        Ok(None)
    } else {
        Err(JsonFault::Syntax)
    }
}
