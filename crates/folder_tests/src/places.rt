// Folders and files that tests set up and look at. Each call says plainly whether it did so, so that a test carries no value of
// the system's along, of which each further step would be proved.
use std::fs;

// An empty folder in the place of what stands there, with those above it.
pub fn makes(rt: &HostRuntime, folder: &str) -> bool {
    let _ = fs::remove_dir_all(rt, folder);
    fs::create_dir_all(rt, folder).is_ok()
}

// A folder and all that is in it is removed.
pub fn clears(rt: &HostRuntime, folder: &str) -> bool {
    fs::remove_dir_all(rt, folder).is_ok()
}

// A file gets these bytes.
pub fn puts(rt: &HostRuntime, path: &str, bytes: &[u8]) -> bool {
    fs::write(rt, path, bytes).is_ok()
}

// A file has these bytes.
pub fn holds(rt: &HostRuntime, path: &str, bytes: &[u8]) -> bool {
    match fs::read(rt, path) {
        Ok(found) => found.as_slice() == bytes,
        Err(_) => false,
    }
}

// Something stands at a path.
pub fn stands(rt: &HostRuntime, path: &str) -> bool {
    fs::metadata(rt, path).is_ok()
}
