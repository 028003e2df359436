//! Changes of a file that an editor has and that aren't saved.

use crate::open_apart;
use std::alloc::{AllocError, Global};
use std::fs::{File, Metadata, OpenFile, OpenOptions};
use std::io::{ErrorKind, Read};
use std::os::unix::fs::MetadataExt;
use std::rt::{Env, Files};
use std::{env, fs, io, str};

/// An editor with changes that aren't saved.
#[derive(Drop)]
pub(crate) enum Editor {
    /// Emacs: who has them, and its lock, by its name in the file's folder.
    Emacs(String, String),
    /// Vim or Neovim: its swap file, by its name in the file's folder or by its path.
    Vim(String),
}

/// The editor that has changes of a file of a folder which aren't saved, if one is found. Only what says so is opened, and a pipe
/// or a device isn't.
pub(crate) fn unsaved_in<R: AllocGlobal + Env + Files<File = File>>(
    rt: &R,
    folder: &str,
    name: &str,
) -> io::Result<Option<Editor>> {
    let lock = format!(in rt.alloc(); "{folder}/.#{name}")?;
    if let Some(owner) = emacs_owner(rt, lock.as_str())? {
        return Ok(Some(Editor::Emacs(owner, format!(in rt.alloc(); ".#{name}")?)));
    }
    match swap_of(rt, folder, name)? {
        Some(swap) => Ok(Some(Editor::Vim(swap))),
        None => Ok(None),
    }
}

// Who has Emacs' lock: a link to `USER@HOST.PID:BOOT`, which leads nowhere, or, where there are no links, a file of that text.
// The lock of a process of this host that is gone doesn't count, as for Emacs.
fn emacs_owner<R: AllocGlobal + Files<File = File>>(
    rt: &R,
    lock: &str,
) -> io::Result<Option<String>> {
    let found = match fs::symlink_metadata(rt, lock) {
        Ok(found) => found,
        Err(error) if error.kind() == ErrorKind::NotFound => return Ok(None),
        Err(error) => return Err(error),
    };
    let owner = if found.is_symlink() {
        String::from_str(rt.alloc(), fs::read_link(rt, lock)?.as_str())?
    } else if found.is_file() {
        text_at(rt, lock)
    } else {
        return Ok(None);
    };
    let (host, process) = host_and_process(owner.as_str());
    if is_gone(rt, &found, host.as_bytes(), process) {
        return Ok(None);
    }
    Ok(Some(owner))
}

// The text of a file; an empty one where it can't be read.
fn text_at<R: AllocGlobal + Files<File = File>>(rt: &R, path: &str) -> String {
    let mut text = String::new(rt.alloc());
    if let Ok(mut file) = opened_file(rt, path) {
        let _ = file.read_to_string(&mut text);
    }
    text
}

// The host and the process of a lock of Emacs; no process where it names none.
fn host_and_process(owner: &str) -> (&str, u32) {
    let front = match owner.trim_end().rsplit_once(':') {
        Some((front, _)) => front,
        None => owner.trim_end(),
    };
    let Some((front, process)) = front.rsplit_once('.') else {
        return ("", 0);
    };
    match (front.rsplit_once('@'), process.parse()) {
        (Some((_, host)), Ok(process)) => (host, process),
        _ => ("", 0),
    }
}

// Where the system tells of processes, and of itself.
const PROCESSES: &str = "/proc";

const OWN_PROCESS: &str = "/proc/self";

const HOST_NAME: &str = "/proc/sys/kernel/hostname";

// Whether what a process of a host left is of one that is gone, as far as this process may know: it is of this host, the system
// would show it, and there is none.
fn is_gone<R: AllocGlobal + Files<File = File>>(
    rt: &R,
    found: &Metadata,
    host: &[u8],
    process: u32,
) -> bool {
    if process == 0 || host.is_empty() || !is_own_host(rt, host) {
        return false;
    }
    let Ok(own) = fs::metadata(rt, OWN_PROCESS) else {
        return false;
    };
    if own.uid() != 0 && own.uid() != found.uid() {
        return false;
    }
    match format!(in rt.alloc(); "{PROCESSES}/{process}") {
        Ok(path) => match fs::metadata(rt, path.as_str()) {
            Ok(_) => false,
            Err(error) => error.kind() == ErrorKind::NotFound,
        },
        Err(_) => false,
    }
}

// Whether this is the name of the host.
fn is_own_host<R: AllocGlobal + Files<File = File>>(rt: &R, host: &[u8]) -> bool {
    let mut name = String::new(rt.alloc());
    match fs::open(rt, HOST_NAME) {
        Ok(mut file) => {
            file.read_to_string(&mut name).is_ok() && name.as_str().trim_end().as_bytes() == host
        }
        Err(_) => false,
    }
}

// Opens a regular file that is there. One that took its place meanwhile and is a pipe isn't waited for where it may be written.
fn opened_file<R: Files<File = File>>(rt: &R, path: &str) -> io::Result<File> {
    if !fs::symlink_metadata(rt, path)?.is_file() {
        return Err(io::Error::from(ErrorKind::InvalidInput));
    }
    let file = match open_apart(rt, OpenOptions::new().read(true).write(true), path) {
        Ok(file) => file,
        Err(error) if error.kind() == ErrorKind::PermissionDenied => fs::open(rt, path)?,
        Err(error) => return Err(error),
    };
    if !file.metadata()?.is_file() {
        return Err(io::Error::from(ErrorKind::InvalidInput));
    }
    Ok(file)
}

// The last letters of the first swap files of a file.
const LETTERS: &str = "ponmlk";

// The folders where Vim's swap files lie where the file's own can't be written, as it is without a setting of one's own.
const SHARED_FOLDERS: [&str; 2] = ["/var/tmp", "/tmp"];

// The swap file of Vim or Neovim that has changes of a file which aren't saved: in its folder, where Vim puts it else, or where
// Neovim does.
fn swap_of<R: AllocGlobal + Env + Files<File = File>>(
    rt: &R,
    folder: &str,
    name: &str,
) -> io::Result<Option<String>> {
    let real = format!(in rt.alloc(); "{folder}/{name}")?;
    let hidden = if name.starts_with('.') { "" } else { "." };
    let front = format!(in rt.alloc(); "{folder}/{hidden}{name}.sw")?;
    if let Some(swap) = first_unsaved(rt, front.as_str(), "")? {
        let (_, own) = swap
            .as_str()
            .rsplit_once('/')
            .unwrap_or(("", swap.as_str()));
        return Ok(Some(String::from_str(rt.alloc(), own)?));
    }
    let whole = whole_name(rt.alloc(), real.as_str())?;
    if let Some(swap) = swap_at_home(rt, name, whole.as_str(), real.as_str())? {
        return Ok(Some(swap));
    }
    for shared in SHARED_FOLDERS {
        if let Some(swap) = swap_in(rt, shared, name, whole.as_str(), real.as_str())? {
            return Ok(Some(swap));
        }
    }
    Ok(None)
}

// A path with `%` in the place of each slash, as the name of a file.
fn whole_name(alloc: Global, path: &str) -> Result<String, AllocError> {
    let mut name = String::new(alloc);
    for character in path.chars() {
        name.push(if character == '/' { '%' } else { character })?;
    }
    Ok(name)
}

// The same in the folders of a person's own.
fn swap_at_home<R: AllocGlobal + Env + Files<File = File>>(
    rt: &R,
    name: &str,
    whole: &str,
    real: &str,
) -> io::Result<Option<String>> {
    if let Ok(state) = env::var(rt, "XDG_STATE_HOME") {
        let folder = format!(in rt.alloc(); "{state}/nvim/swap")?;
        if let Some(swap) = swap_in(rt, folder.as_str(), name, whole, real)? {
            return Ok(Some(swap));
        }
    }
    let Ok(home) = env::var(rt, "HOME") else {
        return Ok(None);
    };
    for below in [".local/state/nvim/swap", ".local/share/nvim/swap", "tmp"] {
        let folder = format!(in rt.alloc(); "{home}/{below}")?;
        if let Some(swap) = swap_in(rt, folder.as_str(), name, whole, real)? {
            return Ok(Some(swap));
        }
    }
    Ok(None)
}

// The same in one folder, where it is called after the file's name or after its whole path.
fn swap_in<R: AllocGlobal + Files<File = File>>(
    rt: &R,
    folder: &str,
    name: &str,
    whole: &str,
    real: &str,
) -> io::Result<Option<String>> {
    if fs::metadata(rt, folder).is_err() {
        return Ok(None);
    }
    let front = format!(in rt.alloc(); "{folder}/{whole}.sw")?;
    if let Some(swap) = first_unsaved(rt, front.as_str(), "")? {
        return Ok(Some(swap));
    }
    let front = format!(in rt.alloc(); "{folder}/{name}.sw")?;
    first_unsaved(rt, front.as_str(), real)
}

// The first of the swap files whose paths begin so that has changes which aren't saved, of a file of this path, if one is given.
fn first_unsaved<R: AllocGlobal + Files<File = File>>(
    rt: &R,
    front: &str,
    real: &str,
) -> io::Result<Option<String>> {
    let mut path = String::from_str(rt.alloc(), front)?;
    for letter in LETTERS.chars() {
        path.push(letter)?;
        if is_unsaved(rt, path.as_str(), real) {
            return Ok(Some(path));
        }
        let _ = path.pop();
    }
    Ok(None)
}

// Vim's swap file begins with these bytes. There stand at these places the number of its process, the name of its host and the
// path of its file, each text up to a zero, and this byte while its buffer isn't saved.
const SWAP: &[u8; 2] = b"b0";

const HEAD: usize = 1008;

const DIRTY: u8 = 0x55;

const DIRTY_AT: usize = 1007;

// Whether a swap file of a process that lives says that changes aren't saved.
fn is_unsaved<R: AllocGlobal + Files<File = File>>(rt: &R, swap: &str, real: &str) -> bool {
    let mut head = [0u8; HEAD];
    let Ok(mut file) = opened_file(rt, swap) else {
        return false;
    };
    if file.read_exact(&mut head).is_err() || !head.starts_with(SWAP) || head[DIRTY_AT] != DIRTY {
        return false;
    }
    let Ok(found) = file.metadata() else {
        return true;
    };
    let process = u32::from_le_bytes([head[24], head[25], head[26], head[27]]);
    is_of(text_of(&head[108..DIRTY_AT]), real)
        && !is_gone(rt, &found, text_of(&head[68..108]), process)
}

// The bytes before the first zero.
fn text_of(field: &[u8]) -> &[u8] {
    match field.iter().position(|byte| *byte == 0) {
        Some(end) => &field[..end],
        None => field,
    }
}

// Whether a path as Vim keeps it, which may have `~` and a name for the folder of a person's own, may be this one; any is where
// none is given.
fn is_of(kept: &[u8], real: &str) -> bool {
    let Ok(kept) = str::from_utf8(kept) else {
        return true;
    };
    match kept.strip_prefix("~") {
        Some(rest) => match rest.split_once('/') {
            Some((_, below)) => real.is_empty() || real.ends_with(below),
            None => true,
        },
        None => real.is_empty() || kept == real,
    }
}
