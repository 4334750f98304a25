//! The program `couchd`: a laboratory that plays a script of nodes and connections, a server, what copies a
//! database by a replication pass, and what checks a file.
#![tactic(auto)]

use command_line::{CommandFault, Plan, plan, words_of};
use files::{check_file, serve_file, sync};
use lab::play_input;
use std::process::ExitCode;

/// Reads the command line and does what it says. The status is 0 at the end; 1 for a fault, with
/// `couchd: ` and `file`, `socket`, `line N` or `memory` on standard error; 2 where the command line
/// is invalid, with `couchd: usage` there; 3 for a pass that is done and had documents refused; 4 for one
/// that stopped; 5 for a file that is no store of this server.
fn main(rt: HostRuntime) -> ExitCode {
    match run(&rt) {
        Ok(status) => ExitCode::from(status),
        Err(fault) => {
            let _ = eprintln!(rt; "couchd: {fault}");
            ExitCode::from(fault.status())
        }
    }
}

/// Does what the command line says. The answer is the program's status.
fn run(rt: &HostRuntime) -> Result<u8, CommandFault> {
    let words = words_of(rt)?;
    match plan(rt.alloc(), words.as_slice())? {
        Plan::Lab { secret, admins } => Ok(play_input(rt, secret.as_str(), admins.as_slice())?),
        Plan::Serve {
            secret,
            file,
            port,
            conns,
            at_once,
            cache,
            log,
            admins,
        } => {
            let path = file.as_str();
            Ok(serve_file(
                rt,
                secret.as_str(),
                admins.as_slice(),
                path,
                port,
                conns,
                at_once,
                cache,
                log,
            )?)
        }
        Plan::Sync(plan) => Ok(sync(rt, &plan)?),
        Plan::Check { file, cache } => Ok(check_file(rt, file.as_str(), cache)?),
    }
}
