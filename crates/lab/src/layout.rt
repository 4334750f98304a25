//! The nodes of a script before its first connection.

ghost use Rattle.std.specs.Prelude.{◌≡◌, ◌≢◌, IfErr, IfOk, OnOk, is_some, not, true};
ghost use Rattle.std.specs.FinMap.{empty, get};
ghost use Rattle.couch_json.specs.Value.{object, no_members};
ghost use Rattle.lab.specs.Scene.{HasOneMore};
ghost use Rattle.lab.specs.Stopping.{IsJudged};

use crate::fault::LineFault;
use crate::lab_store::LabStore;
use crate::named::{Named, has_name, place_of};
use couch_json::{Json, NameMap, NoMemory};
use policy::{Security, SecurityFault};
use std::alloc::Global;
use store::{DbName, Store, StoreFault};

/// The nodes that a script has named so far, with their databases.
#[derive(Drop)]
pub struct Layout<S: LabStore> {
    alloc: Global,
    pub stores: Vec<Named<S>>,
}

impl<S: LabStore> Layout<S> {
    ghost use Rattle.std.specs.Prelude.{◌≡◌, [], OnOk, false, is_some, not, true};
    ghost use Rattle.lab.specs.Naming.{value_named};
    ghost use Rattle.lab.specs.Scene.{AddsDatabase, AddsNode};
    ghost use Rattle.lab.specs.Stages.{nodes_of};
    ghost use Rattle.lab.specs.Stopping.{IsJudged, can_add};

    /// Makes a layout without nodes.
    pub fn new(alloc: Global) -> Layout<S>
        ensures { nodes_of result ≡ [] }
    {
        Layout {
            alloc,
            stores: Vec::new(alloc),
        }
    }

    /// Adds a node without databases. `Line` where there is one of this name.
    pub fn add_node(&mut self, name: &[u8]) -> Result<(), LineFault>
        ensures added { OnOk result (AddsNode S.Store (nodes_of self.old) name.now (nodes_of self.new)) }
        ensures judged { IsJudged false (not (is_some (value_named name.now (nodes_of self.old)))) result }
    {
        if has_name(&self.stores, name) {
            return Err(LineFault::Line);
        }
        let name = Vec::from_slice(self.alloc, name)?;
        let value = make_store(self.alloc)?;
        self.stores.push(Named { name, value })?;
        Ok(())
    }

    /// Adds a database that is open to everyone. `Line` where there is no such node, or it has a
    /// database of this name.
    pub fn add_database(&mut self, node: &[u8], name: &DbName) -> Result<(), LineFault>
        ensures added { OnOk result (AddsDatabase S.Store (nodes_of self.old) node.now name.now (nodes_of self.new)) }
        ensures judged { IsJudged true (can_add S.Store (nodes_of self.old) node.now name.now) result }
    {
        let Some(place) = place_of(&self.stores, node) else {
            return Err(LineFault::Line);
        };
        open_to_all(self.alloc, &mut self.stores[place].value, name)
    }
}

/// Makes a store without databases.
fn make_store<S: LabStore>(alloc: Global) -> Result<S, LineFault>
    ensures made { IfOk result (λ store. S.Store.contents store ≡ empty) }
    ensures faults { IfErr result (λ fault. fault ≢ LineFault.Line) }
{
    match S::make(alloc) {
        Ok(store) => Ok(store),
        Err(StoreFault::Memory) => Err(LineFault::Memory),
        Err(_) => Err(LineFault::File),
    }
}

/// Makes a database whose security object is `{}`. `Line` where there is one of this name.
fn open_to_all<S: LabStore>(alloc: Global, store: &mut S, name: &DbName) -> Result<(), LineFault>
    ensures made { OnOk result (HasOneMore S.Store store.old name.now store.new) }
    ensures judged { IsJudged true (not (is_some (get (S.Store.contents store.old) name.now))) result }
{
    let security = open_security(alloc)?;
    store.create(name)?;
    store.set_security(name, &security)?;
    Ok(())
}

/// Returns the security object `{}`: it names no member, so everyone is one.
fn open_security(alloc: Global) -> Result<Security, NoMemory>
    ensures { IfOk result (λ security. security ≡ object no_members) }
{
    let value = Json::Object(NameMap::new(alloc));
    match Security::read(alloc, &value) {
        Ok(security) => Ok(security),
        Err(SecurityFault::Shape) => Err(NoMemory),
        Err(SecurityFault::Memory) => Err(NoMemory),
    }
}
