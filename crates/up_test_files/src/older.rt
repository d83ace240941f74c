//! Files of older schemas, which are taken. The statements are those of their own schema, and no part of the program.
use crate::files::{found, in_new_folder};
use sqlite::{Alter, Connection, FileFrom, FileStore, Unknown};
use std::alloc::Global;
use std::test::Fail;
use std::{fs, io};
use up_file::adopting::{adopt_or_create, take_for};
use up_file::causes::cause_of;
use up_file::closing::close_file;
use up_program::unopened::Unopened;

const EIGHT_TABLES: [&str; 8] = [
    "CREATE TABLE meta (id INTEGER PRIMARY KEY, app TEXT NOT NULL, schema INTEGER NOT NULL, root INTEGER NOT NULL, image_version INTEGER NOT NULL, stamp INTEGER NOT NULL) STRICT",
    "CREATE TABLE role_key (root INTEGER NOT NULL, repository TEXT NOT NULL, role TEXT NOT NULL, place INTEGER NOT NULL, secret BLOB NOT NULL, threshold INTEGER NOT NULL, PRIMARY KEY (root, repository, role, place)) STRICT",
    "CREATE TABLE repo_file (repository TEXT NOT NULL, name TEXT NOT NULL, body TEXT NOT NULL, PRIMARY KEY (repository, name)) STRICT",
    "CREATE TABLE image (file TEXT NOT NULL PRIMARY KEY, length INTEGER NOT NULL, sha256 BLOB NOT NULL, hardware TEXT NOT NULL, release_count INTEGER NOT NULL, needs TEXT NOT NULL, conflicts TEXT NOT NULL) STRICT",
    "CREATE TABLE campaign (name TEXT NOT NULL PRIMARY KEY, reach TEXT NOT NULL, items TEXT NOT NULL, running INTEGER NOT NULL) STRICT",
    "CREATE TABLE vehicle (vehicle TEXT NOT NULL PRIMARY KEY, primary_ecu TEXT NOT NULL, version INTEGER NOT NULL, last_counter INTEGER NOT NULL) STRICT",
    "CREATE TABLE ecu (ecu TEXT NOT NULL PRIMARY KEY, vehicle TEXT NOT NULL REFERENCES vehicle (vehicle), place INTEGER NOT NULL, hardware TEXT NOT NULL, public_key BLOB NOT NULL, file TEXT, length INTEGER, sha256 BLOB, counter INTEGER NOT NULL, report TEXT, UNIQUE (vehicle, place)) STRICT",
    "CREATE TABLE kept (vehicle TEXT NOT NULL REFERENCES vehicle (vehicle), counter INTEGER NOT NULL, version INTEGER NOT NULL, moment INTEGER NOT NULL, root INTEGER NOT NULL, signed TEXT NOT NULL, plan_text TEXT NOT NULL, reply TEXT NOT NULL, PRIMARY KEY (vehicle, counter), UNIQUE (vehicle, version)) STRICT",
];

const RETIRED_TABLE: &str =
    "CREATE TABLE retired (ecu TEXT NOT NULL PRIMARY KEY, vehicle TEXT NOT NULL REFERENCES vehicle (vehicle)) STRICT";

const ROWS: [&str; 5] = [
    "INSERT INTO meta VALUES (1, 'uptane_desk', 1, 1, 1, 1000)",
    "INSERT INTO repo_file VALUES ('director', 'root.json', '{\"signed\":1}')",
    "INSERT INTO vehicle VALUES ('V1', 'P1', 1, 7)",
    "INSERT INTO ecu VALUES ('P1', 'V1', 0, 'HP', x'11', 'a.bin', 3, x'01', 9, '{\"ecu\":\"P1\"}')",
    "INSERT INTO kept VALUES ('V1', 7, 1, 1000, 1, '{\"counter\":7}', '{\"assigned\":[],\"withheld\":null}', '{\"reply\":7}')",
];

/// Each finds one row where a file holds the rows above, in tables of this schema.
const HELD: [&str; 6] = [
    "SELECT id FROM meta WHERE app = 'uptane_desk' AND schema = 4 AND root = 1 AND image_version = 1 AND stamp = 1000",
    "SELECT name FROM repo_file WHERE body = '{\"signed\":1}'",
    "SELECT vehicle FROM vehicle WHERE primary_ecu = 'P1' AND version = 1 AND last_counter = 7",
    "SELECT ecu FROM ecu WHERE file = 'a.bin' AND counter = 9 AND report = '{\"ecu\":\"P1\"}'",
    "SELECT vehicle FROM kept WHERE counter = 7 AND signed = '{\"counter\":7}' AND reply = '{\"reply\":7}'",
    "SELECT id FROM image_repository WHERE root = 1 AND targets = 1",
];

/// What makes schema 2 of it, with an ECU that was replaced.
const SECOND: [&str; 3] = [
    RETIRED_TABLE,
    "INSERT INTO retired VALUES ('S1', 'V1')",
    "UPDATE meta SET schema = 2",
];

/// What makes schema 3 of that, with the secrets of an earlier root version.
const THIRD: [&str; 4] = [
    "CREATE TABLE image_sha512 (file TEXT NOT NULL PRIMARY KEY REFERENCES image (file), sha512 BLOB NOT NULL) STRICT",
    "INSERT INTO role_key VALUES (0, 'image', 'root', 0, x'01', 1)",
    "INSERT INTO role_key VALUES (1, 'image', 'root', 0, x'02', 1)",
    "UPDATE meta SET schema = 3",
];

const TABLES: &str = "SELECT name FROM sqlite_schema WHERE type = 'table'";

fn failed<T>() -> io::Result<T> {
    Err(io::ErrorKind::Other.into())
}

fn carry_out<S: Alter>(conn: &mut Connection<S>, statements: &[&str]) -> io::Result<()> {
    for sql in statements {
        if conn.execute(sql, &[]).is_err() {
            return failed();
        }
    }
    Ok(())
}

/// How many rows a query finds.
fn count<S: Alter>(conn: &mut Connection<S>, sql: &str) -> io::Result<usize> {
    match conn.query_all(sql, &[]) {
        Ok(rows) => Ok(rows.len()),
        Err(_) => failed(),
    }
}

/// The connection after it was taken; none where that is refused.
fn taken<S: Alter + Drop>(conn: Connection<S>) -> Option<Connection<S>> {
    if !conn.is_autocommit() {
        return None;
    }
    match adopt_or_create(conn) {
        Ok(store) => Some(store.release()),
        Err(_) => None,
    }
}

/// Why the database isn't taken for a scheme; none where it is.
fn cause<S: Alter + Drop>(alloc: Global, conn: Connection<S>) -> Option<Unopened> {
    if !conn.is_autocommit() {
        return None;
    }
    match take_for(alloc, "hmac-sha256", conn) {
        Ok(_) => None,
        Err((mut conn, fault)) => Some(cause_of(&mut conn, fault)),
    }
}

/// Makes a file of schema 1, carries out more statements, and closes it.
fn make(rt: &HostRuntime, path: &str, more: &[&str]) -> io::Result<()> {
    let mut conn = found(rt, path)?;
    carry_out(&mut conn, EIGHT_TABLES.as_slice())?;
    carry_out(&mut conn, ROWS.as_slice())?;
    carry_out(&mut conn, more)?;
    close(conn)
}

fn close(conn: Connection<FileStore<FileFrom<Unknown>>>) -> io::Result<()> {
    match close_file(conn) {
        Ok(_) => Ok(()),
        Err(_) => failed(),
    }
}

/// Whether the file is taken, holds the rows in tables of this schema, and has all twelve of these. It is closed again.
fn is_raised(rt: &HostRuntime, path: &str) -> io::Result<bool> {
    let Some(mut conn) = taken(found(rt, path)?) else {
        return Ok(false);
    };
    for sql in HELD {
        if count(&mut conn, sql)? != 1 {
            return Ok(false);
        }
    }
    let tables = count(&mut conn, TABLES)?;
    close(conn)?;
    Ok(tables == 12)
}

/// Whether the file is refused, and none of its bytes is changed by that.
fn is_refused(rt: &HostRuntime, path: &str) -> io::Result<bool> {
    let before = fs::read(rt, path)?;
    if taken(found(rt, path)?).is_some() {
        return Ok(false);
    }
    let after = fs::read(rt, path)?;
    Ok(before.as_slice() == after.as_slice())
}

// promise: file-adopted
#[test]
fn a_file_of_schema_1_is_raised(rt: HostRuntime) -> Result<(), Fail> {
    in_new_folder(&rt, "up_file_first")?;
    make(&rt, "up_file_first/a.db", &[])?;
    assert!(rt; is_raised(&rt, "up_file_first/a.db")?);
    fs::remove_file(&rt, "up_file_first/a.db-wal")?;
    assert!(rt; is_raised(&rt, "up_file_first/a.db")?);
    fs::remove_dir_all(&rt, "up_file_first")?;
    Ok(())
}

// promise: file-adopted
#[test]
fn a_file_of_schema_2_is_raised(rt: HostRuntime) -> Result<(), Fail> {
    in_new_folder(&rt, "up_file_second")?;
    make(&rt, "up_file_second/a.db", SECOND.as_slice())?;
    assert!(rt; is_raised(&rt, "up_file_second/a.db")?);
    let mut conn = found(&rt, "up_file_second/a.db")?;
    assert_eq!(rt;
        count(
            &mut conn,
            "SELECT ecu FROM retired WHERE ecu = 'S1' AND vehicle = 'V1'"
        )?,
        1
    );
    drop(conn);
    fs::remove_dir_all(&rt, "up_file_second")?;
    Ok(())
}

// promise: file-adopted
#[test]
fn a_file_of_schema_3_keeps_its_last_secrets(rt: HostRuntime) -> Result<(), Fail> {
    in_new_folder(&rt, "up_file_third")?;
    make(&rt, "up_file_third/a.db", SECOND.as_slice())?;
    let mut conn = found(&rt, "up_file_third/a.db")?;
    carry_out(&mut conn, THIRD.as_slice())?;
    close(conn)?;
    assert!(rt; is_raised(&rt, "up_file_third/a.db")?);
    let mut conn = found(&rt, "up_file_third/a.db")?;
    assert_eq!(rt; count(&mut conn, "SELECT secret FROM role_key")?, 1);
    assert_eq!(rt;
        count(
            &mut conn,
            "SELECT secret FROM role_key WHERE root = 1 AND secret = x'02'"
        )?,
        1
    );
    drop(conn);
    fs::remove_dir_all(&rt, "up_file_third")?;
    Ok(())
}

// promise: file-adopted
#[test]
fn another_schema_is_refused(rt: HostRuntime) -> Result<(), Fail> {
    for (change, wanted) in [
        ("UPDATE meta SET schema = 5", Unopened::NewerSchema),
        ("UPDATE meta SET schema = 0", Unopened::Damaged),
        ("UPDATE meta SET app = 'uptane'", Unopened::OtherProduct),
        ("UPDATE meta SET id = 2", Unopened::OtherProduct),
        ("DROP TABLE meta", Unopened::OtherProduct),
        ("CREATE TABLE retired (n INTEGER)", Unopened::Damaged),
        ("CREATE TABLE image_sha512 (n INTEGER)", Unopened::Damaged),
        (
            "CREATE TABLE image_repository (n INTEGER)",
            Unopened::Damaged,
        ),
        (
            "CREATE TABLE retired_vehicle (n INTEGER)",
            Unopened::Damaged,
        ),
    ] {
        in_new_folder(&rt, "up_file_other")?;
        make(&rt, "up_file_other/a.db", &[change])?;
        assert!(rt; is_refused(&rt, "up_file_other/a.db")?, "{change}");
        let told = cause(rt.alloc(), found(&rt, "up_file_other/a.db")?);
        assert_eq!(rt; told, Some(wanted), "{change}");
    }
    fs::remove_dir_all(&rt, "up_file_other")?;
    Ok(())
}

// promise: file-adopted
#[test]
fn a_new_file_gets_the_tables(rt: HostRuntime) -> Result<(), Fail> {
    in_new_folder(&rt, "up_file_made")?;
    let Some(mut conn) = taken(found(&rt, "up_file_made/a.db")?) else {
        return Err(Fail::from(io::Error::from(io::ErrorKind::Other)));
    };
    assert_eq!(rt; count(&mut conn, TABLES)?, 12);
    assert_eq!(rt;
        count(
            &mut conn,
            "SELECT id FROM meta WHERE schema = 4 AND root = 0"
        )?,
        1
    );
    drop(conn);
    fs::remove_dir_all(&rt, "up_file_made")?;
    Ok(())
}
