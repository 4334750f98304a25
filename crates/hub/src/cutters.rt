//! The cutters of the open connections, by the connections' numbers.

ghost use Rattle.std.specs.Prelude.{◌≡◌, ◌≢◌, ◌+◌, ◌≤◌, ◌↔◌, [], Some, None, length, vec_capacity, vec_len, IfOk, IfErr, OnOk, OnErr, IsErrOf};
ghost use Rattle.std.specs.BTreeMap.{is_at};
ghost use Rattle.std.specs.FinMap.{insert, remove};
ghost use Rattle.std.specs.Map.{remove_entry};
ghost use Rattle.std.specs.Ordering.{nat_cmp};
ghost use Rattle.couch_http.specs.Cutting.{HasStreamFault};
ghost use Rattle.hub.specs.Cutters.{AreOpen, IsCutAt, IsTakenAt, kept_at, rests_of};

use crate::fault::HubFault;
use couch_http::{Cut, Cutter, Ending, Response};
use std::alloc::AllocFailed;
use std::collections::BTreeMap;

/// A cutter for each open connection.
pub type Cutters = BTreeMap<u64, Cutter>;

/// Adds a new cutter for a connection.
pub fn add_cutter(
    cutters: &mut Cutters,
    conn: u64,
    cutter: Cutter,
) -> Result<(), AllocFailed<(u64, Cutter)>>
    requires are_open { AreOpen cutters.old.entries }
    requires at_front { cutter ≡ Some [] }
    ensures still_open { AreOpen cutters.new.entries }
    ensures ok { OnOk result (rests_of cutters.new.entries ≡ insert (rests_of cutters.old.entries) conn []) }
    ensures err { OnErr result (cutters.new.entries ≡ cutters.old.entries) }
{
    cutters.insert(conn, cutter)?;
    Ok(())
}

/// Removes the cutter of a connection.
pub fn remove_cutter(cutters: &mut Cutters, conn: u64)
    ensures entries { cutters.new.entries ≡ remove_entry (is_at (nat_cmp conn)) cutters.old.entries }
    ensures rests { rests_of cutters.new.entries ≡ remove (rests_of cutters.old.entries) conn }
{
    cutters.remove(&conn);
}

/// Cuts a piece that comes on a connection, and removes its cutter where the connection then has ended.
pub fn cut_piece(
    cutters: &mut Cutters,
    conn: u64,
    piece: &[u8],
    room: &mut Vec<Response>,
) -> Result<Cut, HubFault>
    requires { AreOpen cutters.old.entries }
    ensures still_open { AreOpen cutters.new.entries }
    ensures cut { IfOk result (λ cut. IsCutAt (rests_of cutters.old.entries) conn piece.now cut (rests_of cutters.new.entries)) }
    ensures fault { IfOk result (λ cut. HasStreamFault cut.ending) }
    ensures err { OnErr result (cutters.new.entries ≡ cutters.old.entries) }
    ensures closed { IsErrOf result HubFault.Closed ↔ (kept_at conn cutters.old.entries ≡ None) }
    ensures faults { IfErr result (λ fault. (fault ≢ HubFault.Full) × (fault ≢ HubFault.Unknown)) }
    ensures items { room.new.items ≡ room.old.items }
    ensures room { IfOk result (λ cut. vec_len room.new + length cut.requests.items + 1 ≤ vec_capacity room.new) }
{
    let cut = take_piece(cutters, conn, piece, room)?;
    drop_ended(cutters, conn, cut.ending);
    Ok(cut)
}

/// Hands a piece to the cutter of a connection.
fn take_piece(
    cutters: &mut Cutters,
    conn: u64,
    piece: &[u8],
    room: &mut Vec<Response>,
) -> Result<Cut, HubFault>
    requires { AreOpen cutters.old.entries }
    ensures taken { IfOk result (λ cut. IsTakenAt cutters.old.entries conn piece.now cut cutters.new.entries) }
    ensures fault { IfOk result (λ cut. HasStreamFault cut.ending) }
    ensures err { OnErr result (cutters.new.entries ≡ cutters.old.entries) }
    ensures closed { IsErrOf result HubFault.Closed ↔ (kept_at conn cutters.old.entries ≡ None) }
    ensures faults { IfErr result (λ fault. (fault ≢ HubFault.Full) × (fault ≢ HubFault.Unknown)) }
    ensures items { room.new.items ≡ room.old.items }
    ensures room { IfOk result (λ cut. vec_len room.new + length cut.requests.items + 1 ≤ vec_capacity room.new) }
{
    match cutters.get_mut(&conn) {
        Some(cutter) => Ok(cutter.feed_with_room(piece, room)?),
        None => Err(HubFault::Closed),
    }
}

/// Removes the cutter of a connection where its stream has ended.
fn drop_ended(cutters: &mut Cutters, conn: u64, ending: Ending)
    ensures goes_on { ending ≡ Ending.Open → cutters.new.entries ≡ cutters.old.entries }
    ensures entries { ending ≢ Ending.Open → cutters.new.entries ≡ remove_entry (is_at (nat_cmp conn)) cutters.old.entries }
    ensures rests { ending ≢ Ending.Open → rests_of cutters.new.entries ≡ remove (rests_of cutters.old.entries) conn }
{
    match ending {
        Ending::Open => {}
        Ending::Last | Ending::Fault(_) => remove_cutter(cutters, conn),
    }
}
