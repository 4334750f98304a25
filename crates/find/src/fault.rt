use couch_json::Malformed;

/// Why a value was refused as a query. One without the form is no object, has no selector, or a member of it is
/// unknown or not of its form.
pub type QueryFault = Malformed;
