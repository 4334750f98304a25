//! Tests of what has to fail: a refused allocation, a store, a disk, a reader and a writer that fail, also
//! among many connections. All that a reply can show stands in rows of data, in the crate `rows`. Two functions
//! say why a request is a 500.
#![tactic(auto)]

#[cfg(test)]
mod allocations;
#[cfg(test)]
mod broken_streams;
pub mod causes;
#[cfg(test)]
mod disk_stops;
#[cfg(test)]
mod edited_files;
#[cfg(test)]
mod exchanges;
#[cfg(test)]
mod few_rows;
#[cfg(test)]
mod first_version;
#[cfg(test)]
mod local_client;
#[cfg(test)]
mod many;
#[cfg(test)]
mod passes;
#[cfg(test)]
mod services;
#[cfg(test)]
mod stores;
#[cfg(test)]
mod worked_rows;
