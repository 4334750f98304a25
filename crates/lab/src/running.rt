//! The nodes, connections and passes of a script.

ghost use Rattle.std.specs.Prelude.{◌≡◌, ◌≢◌, ◌++◌, ◌∷◌, [], ℕ, List, Err, Some, IfErr, IfOk, OnOk, false, is_some, length, map};
ghost use Rattle.std.specs.Io.KnownBytes.{Appends, Keeps};
ghost use Rattle.world.specs.OneEvent.{happening_of};
ghost use Rattle.world.specs.Happening.{Sight};
ghost use Rattle.lab.specs.Lines.{pass_said};
ghost use Rattle.lab.specs.Naming.{named_of, value_named};
ghost use Rattle.lab.specs.Replies.{IsShown, Runs};
ghost use Rattle.lab.specs.Scene.{Closes, Opens, Sends, Starts, TakesTurn, first_network, most_exchanges};
ghost use Rattle.lab.specs.Stages.{configuration_of, names_of, nodes_of};
ghost use Rattle.lab.specs.Stopping.{HasNodes, IsJudged, can_open, can_start};

use crate::fault::LineFault;
use crate::lab_store::LabStore;
use crate::layout::Layout;
use crate::named::{Named, value_of};
use crate::repl_line::PassWords;
use crate::server::Server;
use crate::showing::{run, send, show};
use crate::turn::Turn;
use couch_json::Got;
use node::Node;
use std::alloc::Global;
use std::io::Write;
use world::{Event, World};

/// How many exchanges a run has at most.
const MOST_EXCHANGES: u32 = 10_000;

/// The nodes, connections and passes of a script, by the numbers that they have in a world.
#[derive(Drop)]
pub struct Running<S: LabStore> {
    alloc: Global,
    pub nodes: Vec<Named<usize>>,
    pub connections: Vec<Named<u64>>,
    pub passes: Vec<Named<u64>>,
    pub world: World<S>,
}

impl<S: LabStore> Running<S> {
    /// Starts the nodes of a layout.
    pub fn start(server: Server<'_>, layout: Layout<S>) -> Got<Running<S>>
        ensures { IfOk result (λ running. names_of running ≡ first_network (configuration_of server.entry) (nodes_of layout)) }
    {
        let mut nodes = Vec::new(server.alloc);
        let mut names = Vec::new(server.alloc);
        for store in layout.stores {
            push_node(server, &mut nodes, &mut names, store)?;
        }
        Ok(Running {
            alloc: server.alloc,
            nodes: names,
            connections: Vec::new(server.alloc),
            passes: Vec::new(server.alloc),
            world: World::new(server.alloc, nodes),
        })
    }

    /// Opens a connection to a node. `Line` where there is no such node, or a connection of this
    /// name.
    pub fn open(&mut self, node: &[u8], name: &[u8]) -> Result<(), LineFault>
        ensures opened { OnOk result (Opens (names_of self.old) node.now name.now (names_of self.new)) }
        ensures judged { HasNodes (names_of self.old) → IsJudged false (can_open (names_of self.old) node.now name.now) result }
    {
        let Some(home) = value_of(&self.nodes, node) else {
            return Err(LineFault::Line);
        };
        if value_of(&self.connections, name).is_some() {
            return Err(LineFault::Line);
        }
        let name = Vec::from_slice(self.alloc, name)?;
        let value = self.world.open(home)?;
        self.connections.push(Named { name, value })?;
        Ok(())
    }

    /// Sends a piece on a connection, and prints each reply, or that the connection has ended.
    /// `Line` where there is no connection of this name.
    pub fn send<W: Write>(
        &mut self,
        name: &[u8],
        piece: Vec<u8>,
        out: &mut W,
    ) -> Result<(), LineFault>
        ensures sent { OnOk result ((printed : List ℕ) × Sends S.Store (names_of self.old) name.now piece.items printed (names_of self.new)
            × Appends (W.contents out.old) (W.contents out.new) printed) }
        ensures stands { result ≡ Err LineFault.Line → Keeps (W.contents out.old) (W.contents out.new) }
        ensures judged { IsJudged false (is_some (value_named name.now (names_of self.old).connections)) result }
        ensures many { OnOk result (length (names_of self.new).network.nodes ≡ length (names_of self.old).network.nodes) }
    {
        let Some(conn) = value_of(&self.connections, name) else {
            return Err(LineFault::Line);
        };
        send(self.alloc, &mut self.world, conn, name, piece, out)
    }

    /// Closes a connection. `Line` where there is no connection of this name.
    pub fn close(&mut self, name: &[u8]) -> Result<(), LineFault>
        ensures closed { OnOk result (Closes (names_of self.old) name.now (names_of self.new)) }
        ensures judged { IsJudged false (is_some (value_named name.now (names_of self.old).connections)) result }
    {
        let Some(conn) = value_of(&self.connections, name) else {
            return Err(LineFault::Line);
        };
        self.world.close(conn);
        Ok(())
    }

    /// Starts a pass between two nodes. `Line` where one of them isn't there, or there is a pass of this
    /// name.
    pub fn start_pass(&mut self, server: Server<'_>, words: &PassWords<'_>) -> Result<(), LineFault>
        ensures started { OnOk result (Starts (configuration_of server.entry) (names_of self.old) (pass_said words.now) (names_of self.new)) }
        ensures judged { HasNodes (names_of self.old) → IsJudged false (can_start (names_of self.old) (pass_said words.now)) result }
    {
        let Some(from) = value_of(&self.nodes, words.source.node) else {
            return Err(LineFault::Line);
        };
        let Some(to) = value_of(&self.nodes, words.target.node) else {
            return Err(LineFault::Line);
        };
        if value_of(&self.passes, words.name).is_some() {
            return Err(LineFault::Line);
        }
        let name = Vec::from_slice(self.alloc, words.name)?;
        let config = server.pass_config(words)?;
        let value = self.world.start(config, from, to)?;
        self.passes.push(Named { name, value })?;
        Ok(())
    }

    /// Returns the number of a pass. `Line` where there is none of this name.
    fn pass(&self, name: &[u8]) -> Result<u64, LineFault>
        ensures number { IfOk result (λ repl. value_named name.now (names_of self.now).passes ≡ Some repl) }
        ensures unknown { IfErr result (λ fault. (fault ≡ LineFault.Line) × (is_some (value_named name.now (names_of self.now).passes) ≡ false)) }
    {
        match value_of(&self.passes, name) {
            Some(repl) => Ok(repl),
            None => Err(LineFault::Line),
        }
    }

    /// Has an event of a pass happen, and prints what is seen of it.
    fn exchange<W: Write>(
        &mut self,
        event: Event,
        name: &[u8],
        out: &mut W,
    ) -> Result<(), LineFault>
        ensures shown { OnOk result ((seen : List Sight) × (printed : List ℕ)
            × IsShown S.Store (names_of self.old).network (happening_of event) name.now seen printed (names_of self.new).network
            × (names_of self.new ≡ record (names_of self.old) { network = (names_of self.new).network })
            × Appends (W.contents out.old) (W.contents out.new) printed) }
        ensures faults { result ≢ Err LineFault.Line }
        ensures many { OnOk result (length (names_of self.new).network.nodes ≡ length (names_of self.old).network.nodes) }
    {
        show(self.alloc, &mut self.world, event, name, out)?;
        Ok(())
    }

    /// Has a pass do what a line says, and prints it. `Line` where there is no pass of this name.
    pub fn take_turn<W: Write>(
        &mut self,
        turn: Turn,
        name: &[u8],
        out: &mut W,
    ) -> Result<(), LineFault>
        ensures turned { OnOk result ((printed : List ℕ) × TakesTurn S.Store turn (names_of self.old) name.now printed (names_of self.new)
            × Appends (W.contents out.old) (W.contents out.new) printed) }
        ensures stands { result ≡ Err LineFault.Line → Keeps (W.contents out.old) (W.contents out.new) }
        ensures judged { IsJudged false (is_some (value_named name.now (names_of self.old).passes)) result }
        ensures many { OnOk result (length (names_of self.new).network.nodes ≡ length (names_of self.old).network.nodes) }
    {
        let repl = self.pass(name)?;
        match turn {
            Turn::Step => self.exchange(Event::Exchange { repl }, name, out),
            Turn::Lose => self.exchange(Event::Loss { repl }, name, out),
            Turn::Unsent => self.exchange(Event::Unsent { repl }, name, out),
            Turn::Run => self.run(repl, name, out),
        }
    }

    /// Runs a pass to its end, with at most 10,000 exchanges, and prints them.
    fn run<W: Write>(&mut self, repl: u64, name: &[u8], out: &mut W) -> Result<(), LineFault>
        ensures ran { OnOk result ((printed : List ℕ)
            × Runs S.Store most_exchanges (names_of self.old).network repl name.now printed (names_of self.new).network
            × (names_of self.new ≡ record (names_of self.old) { network = (names_of self.new).network })
            × Appends (W.contents out.old) (W.contents out.new) printed) }
        ensures faults { result ≢ Err LineFault.Line }
        ensures many { OnOk result (length (names_of self.new).network.nodes ≡ length (names_of self.old).network.nodes) }
    {
        run(self.alloc, &mut self.world, repl, MOST_EXCHANGES, name, out)
    }
}

/// Adds a node over a store, and its number under the store's name.
fn push_node<S: LabStore>(
    server: Server<'_>,
    nodes: &mut Vec<Node<S>>,
    names: &mut Vec<Named<usize>>,
    store: Named<S>,
) -> Got<()>
    ensures nodes { OnOk result (nodes.new.items ≡ nodes.old.items ++ record { store = store.value; configuration = configuration_of server.entry } ∷ []) }
    ensures names { OnOk result
        (map named_of names.new.items ≡ map named_of names.old.items ++ record { name = store.name.items; value = length nodes.old.items } ∷ []) }
{
    let Named { name, value } = store;
    let number = nodes.len();
    nodes.push(server.node(value)?)?;
    names.push(Named {
        name,
        value: number,
    })?;
    Ok(())
}
