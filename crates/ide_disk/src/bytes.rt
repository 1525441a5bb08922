//! Bytes put over others within the memory that was taken.
ghost use Rattle.std.specs.Prelude.{◌≡◌, ◌+◌, ◌≤◌, length, replicate, vec_capacity};
ghost use Rattle.ide_disk.specs.Disk.{put_at};
ghost use Rattle.ide_disk.specs.Leaving.{padded};

// Puts the bytes over others, from a place on.
pub(crate) fn overwrite(bytes: &mut Vec<u8>, at: usize, new: &[u8])
    requires { at + length new.now ≤ vec_capacity bytes.old }
    ensures items { bytes.new.items ≡ put_at at new.now bytes.old.items }
    ensures capacity { vec_capacity bytes.old ≤ vec_capacity bytes.new }
{
    let end = at + new.len();
    if end <= bytes.len() {
        bytes[at..end].copy_from_slice(new);
        return;
    }
    bytes.truncate(at);
    match bytes.extend_from_slice(new) {
        Ok(()) => {}
        Err(_) => unreachable!(),
    }
}

// Puts zeros behind the bytes, up to a length.
pub(crate) fn pad(bytes: &mut Vec<u8>, len: usize)
    requires { len ≤ vec_capacity bytes.old }
    ensures items { bytes.new.items ≡ padded len bytes.old.items }
    ensures capacity { vec_capacity bytes.old ≤ vec_capacity bytes.new }
{
    if bytes.len() >= len {
        return;
    }
    match bytes.resize(len, 0) {
        Ok(()) => {}
        Err(_) => unreachable!(),
    }
}

// Puts one byte over so many others, from a place on.
pub(crate) fn fill(bytes: &mut Vec<u8>, at: usize, count: usize, byte: u8)
    requires { at + count ≤ vec_capacity bytes.old }
    ensures items { bytes.new.items ≡ put_at at (replicate count byte) bytes.old.items }
    ensures capacity { vec_capacity bytes.old ≤ vec_capacity bytes.new }
{
    let end = at + count;
    if end <= bytes.len() {
        bytes[at..end].fill(byte);
        return;
    }
    bytes.truncate(at);
    let start = bytes.len();
    match bytes.resize(start + count, byte) {
        Ok(()) => {}
        Err(_) => unreachable!(),
    }
}

// Puts other bytes in the place of all.
pub(crate) fn replace(bytes: &mut Vec<u8>, others: &[u8])
    requires { length others.now ≤ vec_capacity bytes.old }
    ensures items { bytes.new.items ≡ others.now }
    ensures capacity { vec_capacity bytes.old ≤ vec_capacity bytes.new }
{
    bytes.clear();
    match bytes.extend_from_slice(others) {
        Ok(()) => {}
        Err(_) => unreachable!(),
    }
}
