//! The file of the operators' socket.
use mio::net::{UnixListener, UnixStream};
use std::fs::Permissions;
use std::io::ErrorKind;
use std::os::unix::fs::{FileTypeExt, PermissionsExt};
use std::{fs, io};

/// Who may connect: the owner alone.
const MODE: u32 = 0o600;

/// How many are turned away that connected before the mode was set.
const MOST_TURNED_AWAY: u32 = 65_536;

/// Listens at a Unix socket of this path, to which its owner alone may connect. One that a killed service left is replaced; one at
/// which somebody listens, and any other file, stays, and that is an error.
pub fn listen(rt: &HostRuntime, path: &str) -> io::Result<UnixListener> {
    clear(rt, path)?;
    let listener = UnixListener::bind(rt, path)?;
    if let Err(error) = fs::set_permissions(rt, path, Permissions::from_mode(MODE)) {
        take_away(rt, path);
        return Err(error);
    }
    turn_away(&listener);
    Ok(listener)
}

/// Takes the socket of this path away.
pub fn take_away(rt: &HostRuntime, path: &str) {
    fs::remove_file(rt, path).ok();
}

/// Makes place for a socket: nobody may listen at what is there.
fn clear(rt: &HostRuntime, path: &str) -> io::Result<()> {
    let Ok(found) = fs::symlink_metadata(rt, path) else {
        return Ok(());
    };
    if !found.file_type().is_socket() {
        return Err(io::Error::from(ErrorKind::AlreadyExists));
    }
    match UnixStream::connect(rt, path) {
        Ok(_) => Err(io::Error::from(ErrorKind::AddrInUse)),
        Err(error) => {
            if error.kind() == ErrorKind::ConnectionRefused {
                fs::remove_file(rt, path)
            } else {
                Err(error)
            }
        }
    }
}

/// Turns away who connected before the mode was set.
fn turn_away(listener: &UnixListener) {
    for _ in 0..MOST_TURNED_AWAY {
        if listener.accept().is_err() {
            return;
        }
    }
}
