// Folders with recorded files, and the words of runs over them. What is asked of the system is answered by a `bool`.
use repo_run::wanted;
use run_system::status_for;
use std::alloc::{AllocError, Global};
use std::fs;
use std::sync::Wait;
use std::thread::Threads;

/// Two builds of one snapshot, each a jar of `abc`, that were accepted on 2024-02-29: the older one with blob 1, the newer one
/// with blob 2. They are recorded in a change of the first version, without SHA-256 and SHA-512, which a start adds.
pub const TWO_BUILDS: &[u8] =
    b"MVNROWS1\x01\0\0\x01\x07\x01\0\0\0\x02\x01\0\x09snapshots\07org/acme/lib/1.1-SNAPSHOT/lib-1.1-20240229.235959-1.jar\0\0\0\0\0\0\0\x01\0\0\0\0\0\0\0\x03\xa9\x99>6G\x06\x81j\xba>%qxP\xc2l\x9c\xd0\xd8\x9d\x90\x01P\x98<\xd2O\xb0\xd6\x96?}(\xe1\x7fr\0\0\0\0e\xe0q\xc0\x01\0\x09snapshots\07org/acme/lib/1.1-SNAPSHOT/lib-1.1-20240301.080000-2.jar\0\0\0\0\0\0\0\x02\0\0\0\0\0\0\0\x03\xa9\x99>6G\x06\x81j\xba>%qxP\xc2l\x9c\xd0\xd8\x9d\x90\x01P\x98<\xd2O\xb0\xd6\x96?}(\xe1\x7fr\0\0\0\0e\xe0q\xc0\0";

/// 30 days later.
pub const LATER: u64 = 1_711_800_000;

// The older build is kept for 30 days.
const SETTINGS: &str =
    "[[hosted]]\nid = \"snapshots\"\nreleases = false\nsnapshots = true\nkeep_count = 1\nkeep_days = 30\n";

fn path_of(alloc: Global, folder: &str, name: &str) -> Result<String, AllocError> {
    format!(in alloc; "{folder}/{name}")
}

/// Writes a file of a folder.
pub fn put(rt: &HostRuntime, folder: &str, name: &str, bytes: &[u8]) -> bool {
    match path_of(rt.alloc(), folder, name) {
        Ok(path) => fs::write(rt, path.as_str(), bytes).is_ok(),
        Err(_) => false,
    }
}

/// Whether a folder has this file.
pub fn has(rt: &HostRuntime, folder: &str, name: &str) -> bool {
    match path_of(rt.alloc(), folder, name) {
        Ok(path) => fs::metadata(rt, path.as_str()).is_ok(),
        Err(_) => false,
    }
}

/// Whether a folder does not have this file.
pub fn lacks(rt: &HostRuntime, folder: &str, name: &str) -> bool {
    match path_of(rt.alloc(), folder, name) {
        Ok(path) => fs::metadata(rt, path.as_str()).is_err(),
        Err(_) => false,
    }
}

// Makes an empty folder, and one for its contents.
fn make_places(rt: &HostRuntime, folder: &str) -> bool {
    let _ = fs::remove_dir_all(rt, folder);
    let made = fs::create_dir(rt, folder).is_ok();
    match path_of(rt.alloc(), folder, "blobs") {
        Ok(blobs) => made && fs::create_dir(rt, blobs.as_str()).is_ok(),
        Err(_) => false,
    }
}

/// Makes a folder with both builds and a content that nothing names, and with the settings.
pub fn make_folder(rt: &HostRuntime, folder: &str) -> bool {
    make_places(rt, folder)
        && put(rt, folder, "s.toml", SETTINGS.as_bytes())
        && put(rt, folder, "rows", TWO_BUILDS)
        && put(rt, folder, "blobs/1", b"abc")
        && put(rt, folder, "blobs/2", b"abc")
        && put(rt, folder, "blobs/7", b"left over")
}

/// The words of a command over a folder and its settings.
pub fn words_over(alloc: Global, command: &str, folder: &str) -> Result<Vec<String>, AllocError> {
    let mut words = Vec::new(alloc);
    words.push(String::from_str(alloc, command)?)?;
    words.push(path_of(alloc, folder, "s.toml")?)?;
    words.push(String::from_str(alloc, folder)?)?;
    Ok(words)
}

// The status of a run of these words.
fn status_of<R: Threads + Wait + Sync>(
    threads: &R,
    rt: &HostRuntime,
    words: &[String],
) -> Result<u8, AllocError> {
    let wanted = wanted(rt.alloc(), words)?;
    status_for(threads, rt, words, &wanted)
}

fn status_over<R: Threads + Wait + Sync>(
    threads: &R,
    rt: &HostRuntime,
    command: &str,
    folder: &str,
) -> Result<u8, AllocError> {
    let words = words_over(rt.alloc(), command, folder)?;
    status_of(threads, rt, words.as_slice())
}

// The same over what is called `missing` in the folder, by the folder's settings.
fn status_over_missing<R: Threads + Wait + Sync>(
    threads: &R,
    rt: &HostRuntime,
    command: &str,
    folder: &str,
) -> Result<u8, AllocError> {
    let mut words = words_over(rt.alloc(), command, folder)?;
    let _folder = words.pop();
    words.push(path_of(rt.alloc(), folder, "missing")?)?;
    status_of(threads, rt, words.as_slice())
}

/// Whether a command over a folder ends with this status.
pub fn ends_with<R: Threads + Wait + Sync>(
    threads: &R,
    rt: &HostRuntime,
    command: &str,
    folder: &str,
    status: u8,
) -> bool {
    match status_over(threads, rt, command, folder) {
        Ok(ended) => ended == status,
        Err(_) => false,
    }
}

/// Whether a command over what is missing in a folder ends with status 4, and makes nothing.
pub fn leaves_missing<R: Threads + Wait + Sync>(
    threads: &R,
    rt: &HostRuntime,
    command: &str,
    folder: &str,
) -> bool {
    match status_over_missing(threads, rt, command, folder) {
        Ok(ended) => ended == 4 && lacks(rt, folder, "missing"),
        Err(_) => false,
    }
}
