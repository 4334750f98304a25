//! Scripts, from the first line to the last.

ghost use Rattle.std.specs.Prelude.{◌≡◌, ◌≢◌, ℕ, Err, Some, false, true, [], is_some, IfErr, IfOk, IfSome, OnOk, map, string_bytes};
ghost use Rattle.std.specs.Io.BufRead.{drop_through, strip_last, take_through};
ghost use Rattle.std.specs.Io.KnownBytes.{IsAtEnd, Keeps};
ghost use Rattle.command_line.specs.Faults.{IsOfNoLine};
ghost use Rattle.lab.specs.Playing.{AreLines, Prints, ReadsLines};
ghost use Rattle.lab.specs.Lines.{said_by};
ghost use Rattle.lab.specs.Script.{line_of};
ghost use Rattle.lab.specs.Scene.{Plays, PlaysBefore, PlaysScript, laying, running};
ghost use Rattle.lab.specs.Stages.{AreBytesPlayed, IsLinePlayed, configuration_of, nodes_of, names_of, scene_of};
ghost use Rattle.lab.specs.Stopping.{ArePlayable, HasNodes, HasNodesIn, IsJudged, IsStoppedAt, StopsAt, asks_store};
ghost use Rattle.lab.specs.Stopping.{can_be_played, names_behind, names_in, some_asks_store};

use crate::fault::LineFault;
use crate::lab_store::LabStore;
use crate::layout::Layout;
use crate::line::{Line, read_line};
use crate::running::Running;
use crate::script_stage::ScriptStage;
use crate::server::Server;
use command_line::ProgramFault;
use sqlstore::MemoryStore;
use std::alloc::Global;
use std::io::{BufRead, Write};
use store::Store;

/// How many reads a script may take.
const READS: u64 = 1_048_576;

/// Plays a script, and prints the replies: a line for each, `c STATUS BODY`. The answer is the
/// program's status, 0.
///
/// `Line` is the number of the line that could not be played, counted from 1; what the lines before
/// it printed stands. `File`: a read or a write failed, or the script had no end after 1,048,576
/// reads, one for each line. `Memory`: memory ran out.
pub fn lab<R: BufRead, W: Write>(
    alloc: Global,
    secret: &str,
    admins: &[String],
    reader: &mut R,
    writer: &mut W,
) -> Result<u8, ProgramFault>
    ensures status { IfOk result (λ status. status ≡ 0) }
    ensures whole { OnOk result (IfSome (R.remaining reader.old) (λ _. R.remaining reader.new ≡ Some [])) }
    ensures lines { OnOk result (IfSome (R.remaining reader.old) AreLines) }
    ensures playable { OnOk result (IfSome (R.remaining reader.old) ArePlayable) }
    ensures printed { OnOk result (Prints (W.contents writer.old) (W.contents writer.new)) }

    // Each line did what the definition says, and what was printed is what the lines print.
    ensures played { OnOk result (IfSome (R.remaining reader.old) (λ script. PlaysScript ⟦<MemoryStore as Store>⟧
        (record { secret = secret.now; admins = map string_bytes admins.now }) script (W.contents writer.old) (W.contents writer.new))) }

    // At the fault of a line this is the first that can't be played. Just the lines up to it were read, and what was printed stands.
    ensures line { (n : ℕ) → result ≡ Err (ProgramFault.Line n) → ReadsLines n (R.remaining reader.old) (R.remaining reader.new) }
    ensures bad { (n : ℕ) → result ≡ Err (ProgramFault.Line n) → IfSome (R.remaining reader.old) (StopsAt n) }
    ensures stands { (n : ℕ) → result ≡ Err (ProgramFault.Line n) → Prints (W.contents writer.old) (W.contents writer.new) }
    ensures before { (n : ℕ) → result ≡ Err (ProgramFault.Line n) → IfSome (R.remaining reader.old) (λ script. PlaysBefore ⟦<MemoryStore as Store>⟧
        (record { secret = secret.now; admins = map string_bytes admins.now }) n script (W.contents writer.old) (W.contents writer.new)) }

    // A script that has a bad line never ends as `Ok`, and no other line is named.
    ensures stopped { IfSome (R.remaining reader.old) (λ script. (n : ℕ) → StopsAt n script → IsStoppedAt n result) }
{
    play_script::<MemoryStore, R, W>(alloc, secret, admins, reader, writer)
}

/// Plays a script whose nodes stand over stores of one kind, and prints the replies: a line for each,
/// `c STATUS BODY`. The answer is the program's status, 0.
///
/// `Line` is the number of the line that could not be played, counted from 1; what the lines before
/// it printed stands. `File`: a read or a write failed, or the script had no end after 1,048,576
/// reads, one for each line. `Memory`: memory ran out.
pub fn play_script<S: LabStore, R: BufRead, W: Write>(
    alloc: Global,
    secret: &str,
    admins: &[String],
    reader: &mut R,
    writer: &mut W,
) -> Result<u8, ProgramFault>
    ensures status { IfOk result (λ status. status ≡ 0) }
    ensures whole { OnOk result (IfSome (R.remaining reader.old) (λ _. R.remaining reader.new ≡ Some [])) }
    ensures lines { OnOk result (IfSome (R.remaining reader.old) AreLines) }
    ensures playable { OnOk result (IfSome (R.remaining reader.old) ArePlayable) }
    ensures printed { OnOk result (Prints (W.contents writer.old) (W.contents writer.new)) }

    // Each line did what the definition says, and what was printed is what the lines print.
    ensures played { OnOk result (IfSome (R.remaining reader.old) (λ script. PlaysScript S.Store
        (record { secret = secret.now; admins = map string_bytes admins.now }) script (W.contents writer.old) (W.contents writer.new))) }

    // At the fault of a line this is the first that can't be played. Just the lines up to it were read, and what was printed stands.
    ensures line { (n : ℕ) → result ≡ Err (ProgramFault.Line n) → ReadsLines n (R.remaining reader.old) (R.remaining reader.new) }
    ensures bad { (n : ℕ) → result ≡ Err (ProgramFault.Line n) → IfSome (R.remaining reader.old) (StopsAt n) }
    ensures stands { (n : ℕ) → result ≡ Err (ProgramFault.Line n) → Prints (W.contents writer.old) (W.contents writer.new) }
    ensures before { (n : ℕ) → result ≡ Err (ProgramFault.Line n) → IfSome (R.remaining reader.old) (λ script. PlaysBefore S.Store
        (record { secret = secret.now; admins = map string_bytes admins.now }) n script (W.contents writer.old) (W.contents writer.new)) }

    // A script that has a bad line never ends as `Ok`, and no other line is named.
    ensures stopped { IfSome (R.remaining reader.old) (λ script. (n : ℕ) → StopsAt n script → IsStoppedAt n result) }
{
    let server = Server {
        alloc,
        secret,
        admins,
    };
    let mut stage = ScriptStage::Laying(Layout::<S>::new(alloc));
    let mut bytes = Vec::new(alloc);
    for number in 0..READS {
        if !read_next(reader, &mut bytes)? {
            return Ok(0);
        }
        match play(server, stage, without_line_feed(&bytes), writer) {
            Ok(next) => stage = next,
            Err(fault) => return Err(fault.at(number + 1)),
        }
        writer.flush()?;
    }
    Err(ProgramFault::File)
}

/// Reads the next line, with its line feed; false where there is none.
fn read_next<R: BufRead>(reader: &mut R, bytes: &mut Vec<u8>) -> Result<bool, ProgramFault>
    ensures line { OnOk result (IfSome (R.remaining reader.old) (λ script. bytes.new.items ≡ take_through 10 script)) }
    ensures rest { OnOk result (IfSome (R.remaining reader.old) (λ script. R.remaining reader.new ≡ Some (drop_through 10 script))) }
    ensures end { IfOk result (λ more. more ≡ false → IsAtEnd (R.remaining reader.old)) }
    ensures more { IfOk result (λ more. more ≡ true → IfSome (R.remaining reader.old) (λ script. script ≢ [])) }
    ensures faults { IfErr result IsOfNoLine }
{
    bytes.clear();
    let count = reader.read_until(b'\n', bytes)?;
    Ok(count > 0)
}

/// Returns a line without its line feed, which the last of a script may lack.
fn without_line_feed(line: &[u8]) -> &[u8]
    ensures { result.now ≡ strip_last 10 line.now }
{
    match line {
        [rest @ .., b'\n'] => rest,
        _ => line,
    }
}

/// Plays a line. `Line` where it is none, or can't be played behind those before it.
fn play<S: LabStore, W: Write>(
    server: Server<'_>,
    stage: ScriptStage<S>,
    bytes: &[u8],
    out: &mut W,
) -> Result<ScriptStage<S>, LineFault>
    ensures played { IfOk result (λ next. AreBytesPlayed S.Store (configuration_of server.entry) (scene_of stage) bytes.now
        (W.contents out.old) (W.contents out.new) (scene_of next)) }
    ensures stands { result ≡ Err LineFault.Line → Keeps (W.contents out.old) (W.contents out.new) }
    ensures judged { HasNodesIn (scene_of stage)
        → IsJudged (some_asks_store (line_of bytes.now)) (is_some (names_behind (names_in S.Store (scene_of stage)) bytes.now)) result }
    ensures numbered { HasNodesIn (scene_of stage) → IfOk result (λ next. HasNodesIn (scene_of next)) }
{
    let Some(line) = read_line(server.alloc, bytes)? else {
        return Err(LineFault::Line);
    };
    match stage {
        ScriptStage::Laying(layout) => lay(server, layout, line),
        ScriptStage::Running(running) => run(server, running, line, out),
    }
}

/// Plays a line before the first connection or pass.
fn lay<S: LabStore>(
    server: Server<'_>,
    layout: Layout<S>,
    line: Line<'_>,
) -> Result<ScriptStage<S>, LineFault>
    ensures played { IfOk result (λ next. Plays S.Store (configuration_of server.entry) (laying (nodes_of layout)) (said_by line.entry) [] (scene_of next)) }
    ensures judged { IsJudged (asks_store (said_by line.entry)) (can_be_played (names_in S.Store (laying (nodes_of layout))) (said_by line.entry)) result }
{
    let mut layout = layout;
    match line {
        Line::Node(name) => {
            layout.add_node(name)?;
            Ok(ScriptStage::Laying(layout))
        }
        Line::Public(node, name) => {
            layout.add_database(node, &name)?;
            Ok(ScriptStage::Laying(layout))
        }
        Line::Conn(node, name) => {
            let mut running = Running::start(server, layout)?;
            running.open(node, name)?;
            Ok(ScriptStage::Running(running))
        }
        Line::Repl(words) => {
            let mut running = Running::start(server, layout)?;
            running.start_pass(server, &words)?;
            Ok(ScriptStage::Running(running))
        }
        Line::Send(_, _) | Line::Close(_) | Line::Turn(_, _) => Err(LineFault::Line),
    }
}

/// Plays a line after the first connection or pass.
fn run<S: LabStore, W: Write>(
    server: Server<'_>,
    names: Running<S>,
    line: Line<'_>,
    out: &mut W,
) -> Result<ScriptStage<S>, LineFault>
    ensures played { IfOk result (λ next. IsLinePlayed S.Store (configuration_of server.entry) (running (names_of names)) (said_by line.entry)
        (W.contents out.old) (W.contents out.new) (scene_of next)) }
    ensures stands { result ≡ Err LineFault.Line → Keeps (W.contents out.old) (W.contents out.new) }
    ensures judged { HasNodes (names_of names)
        → IsJudged (asks_store (said_by line.entry)) (can_be_played (names_in S.Store (running (names_of names))) (said_by line.entry)) result }
    ensures numbered { HasNodes (names_of names) → IfOk result (λ next. HasNodesIn (scene_of next)) }
{
    let mut names = names;
    match line {
        Line::Conn(node, name) => {
            names.open(node, name)?;
            Ok(ScriptStage::Running(names))
        }
        Line::Repl(words) => {
            names.start_pass(server, &words)?;
            Ok(ScriptStage::Running(names))
        }
        Line::Send(name, piece) => {
            names.send(name, piece, out)?;
            Ok(ScriptStage::Running(names))
        }
        Line::Close(name) => {
            names.close(name)?;
            Ok(ScriptStage::Running(names))
        }
        Line::Turn(turn, name) => {
            names.take_turn(turn, name, out)?;
            Ok(ScriptStage::Running(names))
        }
        Line::Node(_) | Line::Public(_, _) => Err(LineFault::Line),
    }
}
