//! The parts of a piece.

ghost use Rattle.std.specs.Prelude.{◌≡◌, ◌≤◌, ◌<◌, length, take};
ghost use Rattle.hub.specs.Parts.{IsPart, part_length};

/// How many bytes the shortest request has.
const LEAST: usize = 14;

/// Measures the first part of a piece: it ends with the first empty line that ends at its 14th byte or
/// later, and else with the piece.
///
/// A head ends with an empty line, and no request is shorter than 14 bytes (RFC 9112, sections 2.1 and 3).
/// So at most two requests end in a part.
pub fn measure_part(piece: &[u8]) -> usize
    ensures part { result ≡ part_length piece.now }
    ensures bound { result ≤ length piece.now }
    ensures one { IsPart (take result piece.now) }
    ensures some { 0 < length piece.now → 0 < result }
{
    let mut is_empty = false;
    for (place, byte) in piece.iter().enumerate() {
        let ends_line = *byte == b'\n';
        if ends_line && is_empty && place + 1 >= LEAST {
            return place + 1;
        }
        is_empty = ends_line || is_empty && *byte == b'\r';
    }
    piece.len()
}
