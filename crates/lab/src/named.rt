//! What a script calls by names.

ghost use Rattle.std.specs.Prelude.{◌≡◌, ◌<◌, is_some, length, map, IfSome};
ghost use Rattle.lab.specs.Naming.{named_of, place_named, value_named};

/// Something with a name.
#[derive(Drop)]
pub struct Named<T> {
    pub name: Vec<u8>,
    pub value: T,
}

/// Finds the place of the first that has this name.
pub fn place_of<T>(entries: &[Named<T>], name: &[u8]) -> Option<usize>
    ensures place { result ≡ place_named 0 name.now (map named_of entries.now) }
    ensures within { IfSome result (λ place. place < length entries.now) }
{
    for (place, entry) in entries.iter().enumerate() {
        if name == entry.name.as_slice() {
            return Some(place);
        }
    }
    None
}

/// Tells whether one has this name.
pub fn has_name<T>(entries: &[Named<T>], name: &[u8]) -> bool
    ensures { result ≡ is_some (value_named name.now (map named_of entries.now)) }
{
    place_of(entries, name).is_some()
}

/// Returns the value of the first that has this name.
pub fn value_of<T: Copy>(entries: &[Named<T>], name: &[u8]) -> Option<T>
    ensures { result ≡ value_named name.now (map named_of entries.now) }
{
    for entry in entries {
        if name == entry.name.as_slice() {
            return Some(entry.value);
        }
    }
    None
}
