ghost use Rattle.std.specs.Prelude.{◌≡◌, ◌≤◌, ◌<◌, ◌+◌, [], ◌∷◌, ◌++◌, length, max, take, vec_len, vec_capacity};
ghost use Rattle.record_disk.specs.Disk.{written};
ghost use Rattle.record_disk.specs.declared.record.DiskCall.TheVariants.{Write};

/// A call that changed a disk in memory, or may have.
#[derive(Clone, Copy, Debug, PartialEq, Eq)]
pub enum DiskCall {
    /// A write of `size` bytes at the place `at`, of which the first `put` were made.
    Write { at: u64, size: u64, put: u64 },
    /// A cut to `size` bytes.
    Cut { size: u64 },
    /// A sync.
    Sync,
}

/// Notes a call that put no bytes.
pub fn note_call(calls: &mut Vec<DiskCall>, call: DiskCall)
    requires { vec_len calls.old < vec_capacity calls.old }
    ensures calls { calls.new.items ≡ calls.old.items ++ call ∷ [] }
    ensures capacity { vec_capacity calls.old ≤ vec_capacity calls.new }
    ensures len { vec_len calls.new ≡ vec_len calls.old + 1 }
{
    calls.push(call).unwrap();
}

/// Writes the first `part` of `bytes` into the file, and notes the call.
pub fn note_write(
    calls: &mut Vec<DiskCall>,
    put: &mut Vec<u8>,
    file: &mut Vec<u8>,
    at: usize,
    bytes: &[u8],
    part: usize,
)
    requires part { part ≤ length bytes.now }
    requires no_gap { at ≤ vec_len file.old }
    requires file_room { at + part ≤ vec_capacity file.old }
    requires put_room { vec_len put.old + part ≤ vec_capacity put.old }
    requires call_room { vec_len calls.old < vec_capacity calls.old }
    ensures calls { calls.new.items ≡ calls.old.items ++ Write at (length bytes.now) part ∷ [] }
    ensures put { put.new.items ≡ put.old.items ++ take part bytes.now }
    ensures file { file.new.items ≡ written file.old.items at (take part bytes.now) }
    ensures calls_capacity { vec_capacity calls.old ≤ vec_capacity calls.new }
    ensures calls_len { vec_len calls.new ≡ vec_len calls.old + 1 }
    ensures put_capacity { vec_capacity put.old ≤ vec_capacity put.new }
    ensures file_capacity { vec_capacity file.old ≤ vec_capacity file.new }
    ensures put_len { vec_len put.new ≡ vec_len put.old + part }
    ensures file_len { vec_len file.new ≤ max (vec_len file.old) (at + part) }
{
    let made = &bytes[..part];
    overwrite(file, at, made);
    put.extend_from_slice(made).unwrap();
    note_call(
        calls,
        DiskCall::Write {
            at: at as u64,
            size: bytes.len() as u64,
            put: part as u64,
        },
    );
}

/// Writes `bytes` over what stands at `at`, and past the end.
fn overwrite(file: &mut Vec<u8>, at: usize, bytes: &[u8])
    requires no_gap { at ≤ vec_len file.old }
    requires room { at + length bytes.now ≤ vec_capacity file.old }
    ensures items { file.new.items ≡ written file.old.items at bytes.now }
    ensures capacity { vec_capacity file.old ≤ vec_capacity file.new }
    ensures len { vec_len file.new ≤ max (vec_len file.old) (at + length bytes.now) }
{
    let inside = bytes.len().min(file.len() - at);
    file[at..at + inside].copy_from_slice(&bytes[..inside]);
    file.extend_from_slice(&bytes[inside..]).unwrap();
}
