//! How many pages of a file are kept in memory.

ghost use Rattle.std.specs.Prelude.{◌*◌, ◌≤◌};

use std::alloc::Global;
use std::fs;

/// The size of a page of a file that this server makes.
const PAGE_SIZE: usize = 4_096;

/// How many pages a megabyte holds.
const PAGES_IN_MEGABYTE: usize = 256;

/// How many pages are kept of a small file, as the library does by itself.
pub(crate) const FEW_PAGES: usize = 2_000;

/// Chooses how many pages of the file at a path are kept in memory: as many as it has and at least 2,000,
/// but no more than these megabytes of them. Above 2,000 they take at most a third of the memory that can
/// be had.
pub(crate) fn choose_pages(rt: &HostRuntime, path: &str, megabytes: u32) -> usize
    ensures { result ≤ megabytes * 256 }
{
    let most = megabytes as usize * PAGES_IN_MEGABYTE;
    let wanted = count_pages(rt, path).max(FEW_PAGES).min(most);
    reduce_pages(rt.alloc(), wanted)
}

/// Counts the pages of the file at a path: 0 where its length can't be read.
fn count_pages(rt: &HostRuntime, path: &str) -> usize {
    match fs::metadata(rt, path) {
        Ok(found) => found.len() as usize / PAGE_SIZE,
        Err(_) => 0,
    }
}

/// Halves a count of pages until memory for three times as many can be had, or no more than 2,000 are left.
fn reduce_pages(alloc: Global, wanted: usize) -> usize
    ensures { result ≤ wanted }
{
    let mut pages = wanted;
    while pages > FEW_PAGES && !has_room(alloc, pages) {
        pages /= 2;
    }
    pages
}

/// Tells whether memory for three times so many pages can be had.
fn has_room(alloc: Global, pages: usize) -> bool {
    Vec::<u8>::with_capacity(alloc, pages.saturating_mul(3 * PAGE_SIZE)).is_ok()
}
