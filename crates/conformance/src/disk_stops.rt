//! A store in files, one of which stops at some call.

use crate::first_version::{FILLING, VIEW, turn_back};
use crate::local_client::{FAILED, node, reply_to, root_request, show_all};
use couch_http::Request;
use sqlite::{Alter, Connection, FileStore, Files, Options};
use sqlite_disk::{Crash, Disk, Fuse, Memory};
use sqlstore::SqlStore;
use std::alloc::Global;
use std::process::Abort;
use std::test::Fail;

/// A file in memory that takes so many calls, and fails each one after.
type Stopping = Fuse<Memory>;

/// Small limits, so that a request writes its pages in parts, and copies the log into the file.
const OPTIONS: Options = Options {
    cache_pages: 20,
    spill_pages: 2,
    checkpoint_frames: 3,
    seed: 7,
};

/// What is asked of files that stop, and the reply, said by `tools/model.py`: a bulk of two documents,
/// another declaration of the index, another local document and security object, and a database that is
/// made or removed.
const REQUESTS: [(&str, &str, &str); 6] = [
    (
        "POST /db/_bulk_docs",
        r#"{"docs":[{"_id":"a","v":1},{"_id":"b","v":2}]}"#,
        r#"201 [{"id":"a","ok":true,"rev":"1-16dd5aa7b10d32bc038d45f5c7f9f929"},{"id":"b","ok":true,"rev":"1-d04dee28564c4bc58752cca93ab2ecf9"}]"#,
    ),
    (
        "POST /db/_bulk_docs",
        r#"{"docs":[{"_id":"_design/d","_rev":"2-e","_revisions":{"start":2,"ids":["e","d"]},"indexes":{"v":{"fields":["w","v"]}}}],"new_edits":false}"#,
        r#"201 []"#,
    ),
    (
        "PUT /db/_local/l",
        r#"{"_rev":"0-1","at":2}"#,
        r#"201 {"id":"_local/l","ok":true,"rev":"0-2"}"#,
    ),
    (
        "PUT /db/_security",
        r#"{"members":{"names":["bob"]}}"#,
        r#"200 {"ok":true}"#,
    ),
    ("PUT /new", "", r#"201 {"ok":true}"#),
    ("DELETE /db", "", r#"200 {"ok":true}"#),
];

/// A bulk under an index that `_index` declares.
const BULK: (&str, &str, &str) = (
    "POST /db/_bulk_docs",
    r#"{"docs":[{"_id":"a","a":1},{"_id":"b","a":1}]}"#,
    r#"201 [{"id":"a","ok":true,"rev":"1-38f69caadd65f34faf421973db53fd5b"},{"id":"b","ok":true,"rev":"1-38f69caadd65f34faf421973db53fd5b"}]"#,
);

/// What is written before that bulk, by the admin `root`.
const INDEXED: [(&str, &str); 2] = [
    ("PUT /db", ""),
    (
        "POST /db/_index",
        r#"{"ddoc":"i","index":{"fields":["a"]},"name":"p"}"#,
    ),
];

/// What is shown of it, without the bulk and with it: all of one or all of the other.
const SHOWN: [(&str, &str, &str); 2] = [
    (
        "GET /db",
        r#"200 {"db_name":"db","doc_count":1,"doc_del_count":0,"update_seq":1}"#,
        r#"200 {"db_name":"db","doc_count":3,"doc_del_count":0,"update_seq":3}"#,
    ),
    (
        "GET /db/_design/i/_view/p",
        r#"200 {"offset":0,"rows":[],"total_rows":0}"#,
        r#"200 {"offset":0,"rows":[{"id":"a","key":[1],"value":null},{"id":"b","key":[1],"value":null}],"total_rows":2}"#,
    ),
];

/// The bytes of a log and of its file.
#[derive(PartialEq, Drop)]
struct Image {
    log: Vec<u8>,
    db: Vec<u8>,
}

/// Copies what the files hold now.
fn image_of(alloc: Global, files: &Files<Stopping>) -> Result<Image, Fail> {
    Ok(Image {
        log: Vec::from_slice(alloc, files.log.inner().bytes())?,
        db: Vec::from_slice(alloc, files.db.inner().bytes())?,
    })
}

/// Copies the bytes of files.
fn copy_of(alloc: Global, image: &Image) -> Result<Image, Fail> {
    Ok(Image {
        log: Vec::from_slice(alloc, &image.log)?,
        db: Vec::from_slice(alloc, &image.db)?,
    })
}

/// Makes a file with these bytes that takes so many calls.
fn file_with(alloc: Global, bytes: &[u8], calls: u64) -> Result<Stopping, Fail> {
    let mut file = Memory::new(alloc);
    file.write_at(0, bytes)?;
    file.sync()?;
    Ok(Fuse::new(file, calls))
}

/// Makes files with these bytes, of which the log and the other take so many calls.
fn files_with(
    alloc: Global,
    image: &Image,
    log_calls: u64,
    db_calls: u64,
) -> Result<Files<Stopping>, Fail> {
    Ok(Files {
        log: file_with(alloc, &image.log, log_calls)?,
        db: file_with(alloc, &image.db, db_calls)?,
    })
}

/// Makes files with these bytes, of which the log, or the other, takes so many calls.
fn files_that_stop(
    alloc: Global,
    image: &Image,
    is_log: bool,
    calls: u64,
) -> Result<Files<Stopping>, Fail> {
    if is_log {
        files_with(alloc, image, calls, u64::MAX)
    } else {
        files_with(alloc, image, u64::MAX, calls)
    }
}

/// Opens the files, if they may be used, or gives them back.
fn open_files(
    alloc: Global,
    files: Files<Stopping>,
) -> Result<Connection<FileStore<Stopping>>, Files<Stopping>> {
    if !files.log.may_be_used() || !files.db.may_be_used() {
        return Err(files);
    }
    match Connection::open_files(alloc, files, OPTIONS) {
        Ok(conn) => Ok(conn),
        Err((_error, left)) => Err(left.into_files()),
    }
}

/// Asks for something of the store over a connection. Returns the reply, or `None` where the store isn't
/// opened, and what the connection stood on.
fn ask_tables<S: Alter + Drop>(
    alloc: Global,
    conn: Connection<S>,
    request: &Request,
) -> Result<(Option<String>, S), Fail> {
    match SqlStore::open(alloc, conn) {
        Ok(store) => {
            let mut node = node(alloc, store)?;
            let told = reply_to(alloc, &mut node, request)?;
            Ok((Some(told), node.into_store().close().into_store()))
        }
        Err((_fault, conn)) => Ok((None, conn.into_store())),
    }
}

/// Asks for something of the store in files. Returns the reply, or `None` where the store isn't opened,
/// and the files.
fn ask(
    alloc: Global,
    files: Files<Stopping>,
    request: &Request,
) -> Result<(Option<String>, Files<Stopping>), Fail> {
    match open_files(alloc, files) {
        Ok(conn) => {
            let (told, left) = ask_tables(alloc, conn, request)?;
            Ok((told, left.close()))
        }
        Err(files) => Ok((None, files)),
    }
}

/// Returns all that the store over a connection shows.
fn shown_in_tables<S: Alter + Drop>(alloc: Global, conn: Connection<S>) -> Result<String, Fail> {
    match SqlStore::open(alloc, conn) {
        Ok(store) => show_all(alloc, &mut node(alloc, store)?),
        Err((_fault, _conn)) => Err(Fail::from("it is not opened")),
    }
}

/// Returns all that a store with these bytes shows, whose files don't stop.
fn shown_by(alloc: Global, image: &Image) -> Result<String, Fail> {
    match open_files(alloc, files_with(alloc, image, u64::MAX, u64::MAX)?) {
        Ok(conn) => shown_in_tables(alloc, conn),
        Err(_files) => Err(Fail::from("it does not open")),
    }
}

/// Returns files in which these requests of the admin `root` were answered.
fn fill_files(alloc: Global, requests: &[(&str, &str)]) -> Result<Image, Fail> {
    let mut image = Image {
        log: Vec::new(alloc),
        db: Vec::new(alloc),
    };
    for (line, body) in requests {
        let files = files_with(alloc, &image, u64::MAX, u64::MAX)?;
        let (told, files) = ask(alloc, files, &root_request(alloc, line, body)?)?;
        if !told.ok_or("it does not open")?.as_str().starts_with("20") {
            return Err(Fail::from("not written"));
        }
        image = image_of(alloc, &files)?;
    }
    Ok(image)
}

/// Tells whether a file takes a further call.
fn goes_on(file: &mut Stopping) -> bool {
    file.may_be_used() && file.len().is_ok()
}

/// A request to files that stop, and what comes of it where they don't.
#[derive(Drop)]
struct Trial {
    request: Request,
    image: Image,
    before: String,
    wanted: String,
    after: String,
}

/// Asks for something of files that don't stop.
fn make_trial(alloc: Global, image: &Image, line: &str, body: &str) -> Result<Trial, Fail> {
    let before = shown_by(alloc, image)?;
    let request = root_request(alloc, line, body)?;
    let files = files_with(alloc, image, u64::MAX, u64::MAX)?;
    let (wanted, files) = ask(alloc, files, &request)?;
    let after = shown_by(alloc, &image_of(alloc, &files)?)?;
    Ok(Trial {
        request,
        image: copy_of(alloc, image)?,
        before,
        wanted: wanted.ok_or("it does not open")?,
        after,
    })
}

/// Files that were opened last, and whether they hold the store of after.
#[derive(Drop)]
struct Opened {
    image: Image,
    is_after: bool,
}

/// Copies the files of a trial, which hold the store of before.
fn not_after(alloc: Global, trial: &Trial) -> Result<Opened, Fail> {
    Ok(Opened {
        image: copy_of(alloc, &trial.image)?,
        is_after: false,
    })
}

/// Tells whether these files hold the store of after, and not the one of before. The same bytes are
/// opened once.
fn is_after(
    rt: &impl Abort,
    alloc: Global,
    trial: &Trial,
    files: &Files<Stopping>,
    last: &mut Opened,
) -> Result<bool, Fail> {
    let image = image_of(alloc, files)?;
    if image != last.image {
        let shown = shown_by(alloc, &image)?;
        let is_after = shown == trial.after;
        assert!(rt; is_after || shown == trial.before, "{shown}");
        *last = Opened { image, is_after };
    }
    Ok(last.is_after)
}

/// Asks files that stop, and opens what they hold then: as it is, and without all that was not synced.
/// Tells whether they go on.
fn try_files(
    rt: &impl Abort,
    alloc: Global,
    trial: &Trial,
    files: Files<Stopping>,
    last_killed: &mut Opened,
    last_lost: &mut Opened,
) -> Result<bool, Fail> {
    let (told, mut files) = ask(alloc, files, &trial.request)?;
    let is_answered = told.as_ref() == Some(&trial.wanted);
    if let Some(told) = &told {
        assert!(rt; is_answered || told.as_str() == FAILED, "{told}");
    }
    let killed = is_after(rt, alloc, trial, &files, last_killed)?;
    let goes_on = goes_on(&mut files.log) && goes_on(&mut files.db);
    files.log.crash();
    files.db.crash();
    let lost = is_after(rt, alloc, trial, &files, last_lost)?;
    assert!(rt; killed && lost || !is_answered);
    assert!(rt; told.is_some() || !killed && !lost);
    Ok(goes_on)
}

/// Has the log or the other file stop at each call, and returns how many calls there are.
fn try_each_call(rt: &impl Abort, alloc: Global, trial: &Trial, is_log: bool) -> Result<u64, Fail> {
    let mut killed = not_after(alloc, trial)?;
    let mut lost = not_after(alloc, trial)?;
    for calls in 0..1_000 {
        let files = files_that_stop(alloc, &trial.image, is_log, calls)?;
        if try_files(rt, alloc, trial, files, &mut killed, &mut lost)? {
            return Ok(calls);
        }
    }
    Err(Fail::from("it has no end"))
}

/// At whichever call the log or the file stops: opened again, the store is that of before or that of
/// after, and the latter where the request was answered.
#[test]
fn each_disk_stop(rt: HostRuntime) -> Result<(), Fail> {
    let alloc = rt.alloc();
    let image = fill_files(alloc, &FILLING)?;
    for (line, body, wanted) in REQUESTS {
        let trial = make_trial(alloc, &image, line, body)?;
        assert_eq!(rt; trial.wanted.as_str(), wanted, "{line}");
        assert!(rt; trial.after != trial.before, "{line}");
        for is_log in [true, false] {
            let calls = try_each_call(&rt, alloc, &trial, is_log)?;
            assert!(rt; calls > 0, "{line}");
        }
    }
    Ok(())
}

/// Returns the reply to a request without a body to the store with these bytes.
fn reply_from(alloc: Global, image: &Image, line: &str) -> Result<String, Fail> {
    let files = files_with(alloc, image, u64::MAX, u64::MAX)?;
    let (told, _files) = ask(alloc, files, &root_request(alloc, line, "")?)?;
    Ok(told.ok_or("it does not open")?)
}

/// Tells whether these bytes hold the bulk under the index: all of it or nothing.
fn holds_bulk(rt: &impl Abort, alloc: Global, image: &Image) -> Result<bool, Fail> {
    let (line, _before, after) = SHOWN[0];
    let is_held = reply_from(alloc, image, line)?.as_str() == after;
    for (line, before, after) in SHOWN {
        let wanted = if is_held { after } else { before };
        assert_eq!(rt; reply_from(alloc, image, line)?.as_str(), wanted, "{line}");
    }
    Ok(is_held)
}

/// Asks files that stop for the bulk under the index, and opens what they hold then: as it is, and without
/// all that was not synced. Tells whether they go on.
fn try_bulk(rt: &impl Abort, alloc: Global, files: Files<Stopping>) -> Result<bool, Fail> {
    let (line, body, wanted) = BULK;
    let (told, mut files) = ask(alloc, files, &root_request(alloc, line, body)?)?;
    let is_answered = match &told {
        Some(told) => told.as_str() == wanted,
        None => false,
    };
    if let Some(told) = &told {
        assert!(rt; is_answered || told.as_str() == FAILED, "{told}");
    }
    let killed = holds_bulk(rt, alloc, &image_of(alloc, &files)?)?;
    let goes_on = goes_on(&mut files.log) && goes_on(&mut files.db);
    files.log.crash();
    files.db.crash();
    let lost = holds_bulk(rt, alloc, &image_of(alloc, &files)?)?;
    assert!(rt; killed && lost || !is_answered);
    Ok(goes_on)
}

/// Has the log or the other file stop at each call of the bulk, and returns how many calls there are.
fn try_bulk_at_each_call(
    rt: &impl Abort,
    alloc: Global,
    image: &Image,
    is_log: bool,
) -> Result<u64, Fail> {
    for calls in 0..1_000 {
        let files = files_that_stop(alloc, image, is_log, calls)?;
        if try_bulk(rt, alloc, files)? {
            return Ok(calls);
        }
    }
    Err(Fail::from("it has no end"))
}

/// At whichever call the log or the file stops in a bulk under an index: opened again, the sequence and the
/// rows of the index are those without the bulk or those with it, and the latter where it was answered.
#[test]
fn each_disk_stop_of_a_bulk(rt: HostRuntime) -> Result<(), Fail> {
    let alloc = rt.alloc();
    let image = fill_files(alloc, &INDEXED)?;
    for is_log in [true, false] {
        let calls = try_bulk_at_each_call(&rt, alloc, &image, is_log)?;
        assert!(rt; calls > 0);
    }
    Ok(())
}

/// Makes files in which the filling stands those of version 1.
fn turn_files_back(alloc: Global, image: &Image) -> Result<Image, Fail> {
    let files = files_with(alloc, image, u64::MAX, u64::MAX)?;
    match open_files(alloc, files) {
        Ok(mut conn) => {
            turn_back(&mut conn)?;
            image_of(alloc, &conn.into_store().close())
        }
        Err(_files) => Err(Fail::from("it does not open")),
    }
}

/// Opens files of version 1 that stop, and then what they hold: as it is, and without all that was not
/// synced. Tells whether they go on.
fn try_carrying_over(rt: &impl Abort, alloc: Global, files: Files<Stopping>) -> Result<bool, Fail> {
    let (told, mut files) = ask(alloc, files, &root_request(alloc, VIEW.0, "")?)?;
    if let Some(told) = &told {
        assert!(rt;
            told.as_str() == VIEW.1 || told.as_str() == FAILED,
            "{told}"
        );
    }
    assert_eq!(rt;
        reply_from(alloc, &image_of(alloc, &files)?, VIEW.0)?.as_str(),
        VIEW.1
    );
    let goes_on = goes_on(&mut files.log) && goes_on(&mut files.db);
    files.log.crash();
    files.db.crash();
    assert_eq!(rt;
        reply_from(alloc, &image_of(alloc, &files)?, VIEW.0)?.as_str(),
        VIEW.1
    );
    Ok(goes_on)
}

/// Has the log or the other file of version 1 stop at each call, and returns how many calls there are.
fn carry_over_at_each_call(
    rt: &impl Abort,
    alloc: Global,
    image: &Image,
    is_log: bool,
) -> Result<u64, Fail> {
    for calls in 0..1_000 {
        let files = files_that_stop(alloc, image, is_log, calls)?;
        if try_carrying_over(rt, alloc, files)? {
            return Ok(calls);
        }
    }
    Err(Fail::from("it has no end"))
}

/// At whichever call the log or the file of version 1 stops: opened again, its index shows what it showed.
#[test]
fn each_disk_stop_of_carrying_over(rt: HostRuntime) -> Result<(), Fail> {
    let alloc = rt.alloc();
    let image = turn_files_back(alloc, &fill_files(alloc, &FILLING)?)?;
    for is_log in [true, false] {
        let calls = carry_over_at_each_call(&rt, alloc, &image, is_log)?;
        assert!(rt; calls > 0);
    }
    Ok(())
}
