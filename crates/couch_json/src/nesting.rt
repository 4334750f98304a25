ghost use Rattle.std.specs.Prelude.{◌≡◌, ◌≤◌};
ghost use Rattle.couch_json.specs.Nesting.{place_after, open_after, nests_too_deep};

/// The most brackets and braces that a text may have open at once.
const MAX_OPEN: u8 = 110;

/// Where a byte of a text stands.
#[derive(Clone, Copy)]
enum Place {
    Outside,
    Inside,
    Escaped,
}

/// Tells whether more than 110 brackets and braces are ever open, outside of strings.
pub(crate) fn check_nesting(bytes: &[u8]) -> bool
    ensures { result ≡ nests_too_deep bytes.now }
{
    let mut place = Place::Outside;
    let mut open_count = 0;
    for byte in bytes {
        open_count = next_open_count(place, open_count, *byte);
        if open_count > MAX_OPEN {
            return true;
        }
        place = next_place(place, *byte);
    }
    false
}

fn next_place(place: Place, byte: u8) -> Place
    ensures { result ≡ place_after place byte }
{
    match place {
        Place::Outside if byte == b'"' => Place::Inside,
        Place::Outside => Place::Outside,
        Place::Inside if byte == b'"' => Place::Outside,
        Place::Inside if byte == b'\\' => Place::Escaped,
        Place::Inside | Place::Escaped => Place::Inside,
    }
}

fn next_open_count(place: Place, open_count: u8, byte: u8) -> u8
    requires { open_count ≤ MAX_OPEN }
    ensures { result ≡ open_after place open_count byte }
{
    match place {
        Place::Inside | Place::Escaped => open_count,
        Place::Outside => match byte {
            b'[' | b'{' => open_count + 1,
            b']' | b'}' => open_count.saturating_sub(1),
            _ => open_count,
        },
    }
}
