// A new file that takes the place of another once it is whole.
use crate::file_identity::FileIdentity;
use std::fs::{File, Metadata, Permissions, TryLockError};
use std::io::ErrorKind;
use std::os::unix::fs::{MetadataExt, OpenOptionsExt, PermissionsExt, fchown};
use std::path::Path;
use std::{fs, io};

/// How many names are tried for the new file.
const MAX_TRIES: u32 = 1000;

/// How the new file's name begins where that of the file that it is to replace is too long for more.
const SHORT_NAME: &str = ".mapchain";

/// The permissions that are asked for a file that nobody had yet: the system takes away those of its mask.
const NEW_FILE: u32 = 0o666;

/// The permissions of a new file until it has those of the file that it replaces.
const OWNER_ONLY: u32 = 0o600;

/// Who may read, write and run a file, and whether it is run as its group. That it is run as its owner a new file doesn't take over.
const RIGHTS: u32 = 0o2777;

/// What the group of a file may do of that, and whether it is run as it.
const GROUP_RIGHTS: u32 = 0o2070;

/// A new file, which is removed where it is dropped, unless it has taken the place of another. It is locked while its run goes on, so that the next
/// run can tell one that was left.
pub(crate) struct NewFile {
    rt: HostRuntime,
    file: File,
    path: String,
}

/// Whether this path itself, and no link, leads to the open file.
fn leads_to(rt: &HostRuntime, path: &str, file: &File) -> bool {
    match (fs::symlink_metadata(rt, path), file.metadata()) {
        (Ok(there), Ok(open)) => FileIdentity::of(&there) == FileIdentity::of(&open),
        _ => false,
    }
}

/// Makes the file of this path and locks it. Nothing, where another run takes it for one that was left.
fn create_locked(rt: &HostRuntime, path: &str, mode: u32) -> io::Result<Option<File>> {
    let mut options = File::options();
    options.write(true).create_new(true).mode(mode);
    let file = options.open(rt, path)?;
    // (where a file can't be locked, no other run takes it away)
    if matches!(file.try_lock(), Err(TryLockError::WouldBlock)) || !leads_to(rt, path, &file) {
        return Ok(None);
    }
    Ok(Some(file))
}

/// Removes the new file of this path where the run that made it was interrupted: nobody holds its lock.
fn remove_left(rt: &HostRuntime, path: &str) {
    if !fs::symlink_metadata(rt, path).is_ok_and(|there| there.is_file()) {
        return;
    }
    let mut options = File::options();
    // (for reading, too, so that nothing is waited for where it is a pipe by now)
    options.read(true).write(true);
    let Ok(left) = options.open(rt, path) else {
        return;
    };
    if left.try_lock().is_ok() && leads_to(rt, path, &left) {
        let _ = fs::remove_file(rt, path);
    }
}

/// Has the system put the names in the folder of this path on the disk, where the folder can be opened and its file system does that.
fn sync_folder(rt: &HostRuntime, path: &str) -> io::Result<()> {
    let folder = match Path::new(path).parent() {
        Some(folder) if !folder.as_str().is_empty() => folder.as_str(),
        _ => ".",
    };
    let Ok(folder) = File::open(rt, folder) else {
        return Ok(());
    };
    match folder.sync_all() {
        Err(error)
            if matches!(
                error.kind(),
                ErrorKind::InvalidInput | ErrorKind::Unsupported
            ) => { Ok(()) }
        synced => synced,
    }
}

/// Whether the new file has the owner and the group of the old one, or can get them.
fn takes_owner(old: &Metadata, file: &File) -> io::Result<bool> {
    let new = file.metadata()?;
    let has_group = new.gid() == old.gid() || fchown(file, None, Some(old.gid())).is_ok();
    let has_owner = new.uid() == old.uid() || fchown(file, Some(old.uid()), None).is_ok();
    Ok(has_group && has_owner)
}

/// Gives the new file the owner, the group and the rights that the file of this path has now, if there is one. Where it can't have the owner or the
/// group, its group may do nothing.
fn take_rights(rt: &HostRuntime, path: &str, file: &File) -> io::Result<()> {
    let old = match fs::metadata(rt, path) {
        Ok(old) => old,
        Err(error) if error.kind() == ErrorKind::NotFound => return Ok(()),
        Err(error) => return Err(error),
    };
    let rights = old.mode() & RIGHTS;
    let rights = if takes_owner(&old, file)? {
        rights
    } else {
        rights & !GROUP_RIGHTS
    };
    file.set_permissions(Permissions::from_mode(rights))
}

impl NewFile {
    /// A new file beside the one of this path, which is there or not. It has that one's name with `.0.part` after it, or a higher number where
    /// another run goes on with that; or, where that is too long, a short name in its place.
    pub(crate) fn beside(rt: &HostRuntime, path: &str, is_there: bool) -> io::Result<NewFile> {
        let mode = if is_there { OWNER_ONLY } else { NEW_FILE };
        match NewFile::named(rt, path, mode) {
            Err(error) if error.kind() == ErrorKind::InvalidFilename => {
                let short = Path::new(path).with_file_name(rt.alloc(), SHORT_NAME)?;
                NewFile::named(rt, short.as_str(), mode)
            }
            made => made,
        }
    }

    /// A new file with these permissions, and the first name of this beginning that no other run goes on with.
    fn named(rt: &HostRuntime, beginning: &str, mode: u32) -> io::Result<NewFile> {
        let own_rt = rt.clone()?;
        for number in 0..MAX_TRIES {
            let path = format!(in rt.alloc(); "{beginning}.{number}.part")?;
            remove_left(rt, path.as_str());
            match create_locked(rt, path.as_str(), mode) {
                Ok(Some(file)) => {
                    return Ok(NewFile {
                        rt: own_rt,
                        file,
                        path,
                    });
                }
                Ok(None) => {}
                Err(error) if error.kind() == ErrorKind::AlreadyExists => {}
                Err(error) => return Err(error),
            }
        }
        Err(io::Error::from(ErrorKind::AlreadyExists))
    }

    pub(crate) fn path(&self) -> &str {
        self.path.as_str()
    }

    pub(crate) fn file(&mut self) -> &mut File {
        &mut self.file
    }

    /// Takes the place of the file of this path and its rights, once all of it is on the disk, and tells which file it is. On an error that file is as
    /// it was, and the new one is removed; but where the disk fails at the folder, the new one has its place.
    pub(crate) fn replace(self, path: &str) -> io::Result<FileIdentity> {
        self.file.sync_all()?;
        let identity = FileIdentity::of(&self.file.metadata()?);
        take_rights(&self.rt, path, &self.file)?;
        fs::rename(&self.rt, self.path.as_str(), path)?;
        // Nothing is left to remove.
        let NewFile {
            rt,
            file: _,
            path: _,
        } = self;
        sync_folder(&rt, path)?;
        Ok(identity)
    }
}

impl Drop for NewFile {
    fn drop(self) {
        let NewFile { rt, file: _, path } = self;
        let _ = fs::remove_file(&rt, path.as_str());
    }
}
