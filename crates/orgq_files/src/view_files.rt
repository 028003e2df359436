//! The files in which views have names.

use crate::file_list::{folder_path, text_of_list};
use orgq_messages::{Problem, Variable, value_of};
use std::alloc::AllocError;
use std::io::ErrorKind;
use std::rt::{Env, Files};
use std::{fs, io};

/// A file of views: its path, and what it says.
#[derive(Debug, Drop)]
pub struct ViewFile {
    pub path: String,
    pub text: String,
}

/// The file `views` of the configuration folder, which is empty where there is none, and behind it the files of the folder
/// `views.d` there by their names, but for hidden ones and those whose names end with `~`.
pub fn read_view_files<R: AllocGlobal + Files + Env + Clone + Drop>(
    rt: &R,
) -> Result<Vec<ViewFile>, Problem> {
    let home = match value_of(rt, Variable::Home)? {
        Some(home) => home,
        None => String::new(rt.alloc()),
    };
    let mut paths = Vec::new(rt.alloc());
    let own = folder_path(rt, home.as_str(), "views")?;
    paths.push(own).map_err(AllocError::from)?;
    let folder = folder_path(rt, home.as_str(), "views.d")?;
    push_folder(rt, &mut paths, folder.as_str())?;
    let mut files = Vec::new(rt.alloc());
    for path in paths.as_slice() {
        let file = read_file(rt, path.as_str())?;
        files.push(file).map_err(AllocError::from)?;
    }
    Ok(files)
}

fn read_file<R: AllocGlobal + Files>(rt: &R, path: &str) -> Result<ViewFile, Problem> {
    let text = match text_of_list(rt, path, Problem::ViewFile)? {
        Some(text) => text,
        None => String::new(rt.alloc()),
    };
    Ok(ViewFile {
        path: String::from_str(rt.alloc(), path)?,
        text,
    })
}

// Puts the files of a folder after others, by their names, if there is such a folder.
fn push_folder<R: AllocGlobal + Files + Clone + Drop>(
    rt: &R,
    paths: &mut Vec<String>,
    folder: &str,
) -> Result<(), Problem> {
    let mut own = Vec::new(rt.alloc());
    match list_folder(rt, &mut own, folder) {
        Ok(()) => {}
        Err(error) if error.kind() == ErrorKind::OutOfMemory => {
            return Err(Problem::from(AllocError));
        }
        Err(error) if is_absent(error.kind()) => return Ok(()),
        Err(_) => return Err(Problem::ViewFile),
    }
    own.sort()?;
    for path in own.as_slice() {
        let path = String::from_str(rt.alloc(), path.as_str())?;
        paths.push(path).map_err(AllocError::from)?;
    }
    Ok(())
}

fn is_absent(kind: ErrorKind) -> bool {
    matches!(kind, ErrorKind::NotFound | ErrorKind::NotADirectory)
}

// Puts the paths of a folder's files after others.
fn list_folder<R: AllocGlobal + Files + Clone + Drop>(
    rt: &R,
    paths: &mut Vec<String>,
    folder: &str,
) -> io::Result<()> {
    for entry in fs::read_dir(rt, folder)? {
        let entry = entry?;
        push_entry(rt, paths, folder, entry.file_name())?;
    }
    Ok(())
}

// Puts a name of a folder after others, if it is one of a file that is meant; where a link leads nowhere, it is one.
fn push_entry<R: AllocGlobal + Files>(
    rt: &R,
    paths: &mut Vec<String>,
    folder: &str,
    name: &str,
) -> Result<(), AllocError> {
    if name.starts_with('.') || name.ends_with('~') {
        return Ok(());
    }
    let path = format!(in rt.alloc(); "{folder}/{name}")?;
    if fs::metadata(rt, path.as_str()).is_ok_and(|metadata| !metadata.is_file()) {
        return Ok(());
    }
    paths.push(path)?;
    Ok(())
}
