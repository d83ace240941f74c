//! Files in a folder of the test's own.
use sqlite::{Alter, Connection, FileFrom, FileStore, Unknown};
use std::os::unix::fs::{MetadataExt, PermissionsExt};
use std::test::Fail;
use std::{fs, io};
use up_file::closing::close_file;
use up_file::opening::{connect_files, open_files};
use up_program::unopened::Unopened;
use up_tables::open::{OpenFault, create_tables, take_tables};

/// A connection over the file at the path; or why there is none, and whether files came back with it.
fn opened(
    rt: &HostRuntime,
    path: &str,
) -> Result<Connection<FileStore<FileFrom<Unknown>>>, (Unopened, bool)> {
    let (files, seed) = match open_files(rt, path, Unknown) {
        Ok(opened) => opened,
        Err(cause) => return Err((cause, false)),
    };
    match connect_files(rt.alloc(), files, seed) {
        Ok(conn) => Ok(conn),
        Err((cause, _)) => Err((cause, true)),
    }
}

pub(crate) fn found(
    rt: &HostRuntime,
    path: &str,
) -> io::Result<Connection<FileStore<FileFrom<Unknown>>>> {
    match opened(rt, path) {
        Ok(conn) => Ok(conn),
        Err(_) => Err(io::ErrorKind::Other.into()),
    }
}

fn mode(rt: &HostRuntime, path: &str) -> Result<u32, Fail> {
    Ok(fs::metadata(rt, path)?.mode() & 0o777)
}

fn create<S: Alter>(conn: &mut Connection<S>) -> Result<(), OpenFault> {
    if !conn.is_autocommit() {
        return Err(OpenFault::NotOurs);
    }
    create_tables(conn)
}

fn is_ours<S: Alter>(conn: &mut Connection<S>) -> Result<bool, OpenFault> {
    if !conn.is_autocommit() {
        return Err(OpenFault::NotOurs);
    }
    take_tables(conn)
}

pub(crate) fn in_new_folder(rt: &HostRuntime, folder: &str) -> Result<(), Fail> {
    let _ = fs::remove_dir_all(rt, folder);
    fs::create_dir(rt, folder)?;
    Ok(())
}

// promise: file-refused
#[test]
fn a_new_file_is_its_owners_alone(rt: HostRuntime) -> Result<(), Fail> {
    in_new_folder(&rt, "up_file_new")?;
    let conn = opened(&rt, "up_file_new/a.db");
    assert!(rt; conn.is_ok());
    assert_eq!(rt; mode(&rt, "up_file_new/a.db")?, 0o600);
    assert_eq!(rt; mode(&rt, "up_file_new/a.db-wal")?, 0o600);
    assert!(rt;
        matches!(
            opened(&rt, "up_file_new/a.db"),
            Err((Unopened::Locked, false))
        )
    );
    drop(conn);
    fs::set_permissions(&rt, "up_file_new/a.db", fs::Permissions::from_mode(0o640))?;
    assert!(rt; opened(&rt, "up_file_new/a.db").is_ok());
    assert_eq!(rt; mode(&rt, "up_file_new/a.db")?, 0o640);
    fs::remove_dir_all(&rt, "up_file_new")?;
    Ok(())
}

// promise: file-found, file-closed
#[test]
fn a_closed_file_stands_alone(rt: HostRuntime) -> Result<(), Fail> {
    in_new_folder(&rt, "up_file_closed")?;
    let mut conn = found(&rt, "up_file_closed/a.db")?;
    assert_eq!(rt; is_ours(&mut conn), Ok(false));
    assert_eq!(rt; create(&mut conn), Ok(()));
    assert!(rt; close_file(conn).is_ok());
    fs::remove_file(&rt, "up_file_closed/a.db-wal")?;
    let mut conn = found(&rt, "up_file_closed/a.db")?;
    assert_eq!(rt; is_ours(&mut conn), Ok(true));
    drop(conn);
    fs::remove_dir_all(&rt, "up_file_closed")?;
    Ok(())
}

// promise: file-refused
#[test]
fn what_is_no_database_file_is_refused(rt: HostRuntime) -> Result<(), Fail> {
    in_new_folder(&rt, "up_file_refused")?;
    fs::write(&rt, "up_file_refused/text", b"no database\n".as_slice())?;
    fs::write(&rt, "up_file_refused/hot", b"".as_slice())?;
    fs::write(&rt, "up_file_refused/hot-journal", b"journal".as_slice())?;
    for (path, wanted) in [
        (":memory:", (Unopened::Path, false)),
        ("file:up_file_refused/a.db", (Unopened::Path, false)),
        ("", (Unopened::Path, false)),
        ("up_file_refused", (Unopened::Path, false)),
        ("up_file_refused/no/a.db", (Unopened::Path, false)),
        ("up_file_refused/hot", (Unopened::Journal, false)),
        ("up_file_refused/text", (Unopened::Damaged, true)),
    ] {
        let Err(refused) = opened(&rt, path) else {
            return Err(Fail::from(io::Error::from(io::ErrorKind::Other)));
        };
        assert_eq!(rt; refused, wanted, "{path}");
    }
    assert!(rt; fs::metadata(&rt, "file:up_file_refused/a.db").is_err());
    let text = fs::read(&rt, "up_file_refused/text")?;
    assert_eq!(rt; text.as_slice(), b"no database\n".as_slice());
    fs::remove_dir_all(&rt, "up_file_refused")?;
    Ok(())
}

// promise: file-found
#[test]
fn a_changed_bit_is_found(rt: HostRuntime) -> Result<(), Fail> {
    in_new_folder(&rt, "up_file_changed")?;
    let mut conn = found(&rt, "up_file_changed/a.db")?;
    assert_eq!(rt; create(&mut conn), Ok(()));
    assert!(rt; close_file(conn).is_ok());
    for at in [18, 100, 3000, 4095, 4096, 8000] {
        let mut bytes = fs::read(&rt, "up_file_changed/a.db")?;
        assert!(rt; at < bytes.len());
        bytes[at] ^= 1;
        fs::write(&rt, "up_file_changed/b.db", bytes.as_slice())?;
        assert!(rt;
            matches!(
                opened(&rt, "up_file_changed/b.db"),
                Err((Unopened::Damaged, true))
            ),
            "{at}"
        );
    }
    fs::remove_dir_all(&rt, "up_file_changed")?;
    Ok(())
}
