//! Bytes in a vector that has room for them.
ghost use Rattle.std.specs.Prelude.{◌≡◌, ◌≤◌, ◌+◌, ◌-◌, ◌++◌, min, length, take, drop, replicate, vec_len, vec_capacity};
ghost use Rattle.disk_edge.specs.Images.{written};
ghost use Rattle.memory_io.specs.Disk.{torn_bytes};

// Appends the bytes.
pub(crate) fn put_all(out: &mut Vec<u8>, bytes: &[u8])
    requires { vec_len out.old + length bytes.now ≤ vec_capacity out.old }
    ensures put { out.new.items ≡ out.old.items ++ bytes.now }
    ensures len { vec_len out.new ≡ vec_len out.old + length bytes.now }
    ensures capacity { vec_capacity out.new ≡ vec_capacity out.old }
{
    for byte in bytes {
        out.push_reserved(*byte);
    }
}

// Writes the bytes over those at a place, and past the end.
pub(crate) fn overwrite(out: &mut Vec<u8>, place: usize, bytes: &[u8])
    requires { vec_len out.old + length bytes.now ≤ vec_capacity out.old }
    ensures written { out.new.items ≡ written place bytes.now out.old.items }
    ensures capacity { vec_capacity out.new ≡ vec_capacity out.old }
    ensures len { vec_len out.new ≤ vec_len out.old + length bytes.now }
{
    let start = place.min(out.len());
    let inside = bytes.len().min(out.len() - start);
    out[start..start + inside].copy_from_slice(&bytes[..inside]);
    put_all(out, &bytes[inside..]);
}

// Fills `into` with the bytes at a place.
pub(crate) fn read_out(bytes: &[u8], place: usize, into: &mut [u8])
    requires { place + length into.old ≤ length bytes.now }
    ensures { into.new ≡ take (length into.old) (drop place bytes.now) }
{
    into.copy_from_slice(&bytes[place..place + into.len()]);
}

// Sets `out` to what a stop leaves of a write: its first bytes, and `fill` for the rest.
fn cut_short(out: &mut Vec<u8>, bytes: &[u8], part: usize, fill: u8)
    requires { length bytes.now ≤ vec_capacity out.old }
    ensures torn { out.new.items ≡ torn_bytes part fill bytes.now }
    ensures capacity { vec_capacity out.new ≡ vec_capacity out.old }
{
    let whole = part.min(bytes.len());
    out.clear();
    put_all(out, &bytes[..whole]);
    for _ in whole..bytes.len() {
        out.push_reserved(fill);
    }
}

// Writes over the bytes at a place what a stop leaves of a write, which is made in `torn`.
pub(crate) fn tear(
    out: &mut Vec<u8>,
    torn: &mut Vec<u8>,
    place: usize,
    bytes: &[u8],
    part: usize,
    fill: u8,
)
    requires room { vec_len out.old + length bytes.now ≤ vec_capacity out.old }
    requires torn { length bytes.now ≤ vec_capacity torn.old }
    ensures torn { out.new.items ≡ written place (torn_bytes part fill bytes.now) out.old.items }
    ensures capacity { vec_capacity out.new ≡ vec_capacity out.old }
    ensures len { vec_len out.new ≤ vec_len out.old + length bytes.now }
    ensures again { vec_capacity torn.new ≡ vec_capacity torn.old }
{
    cut_short(torn, bytes, part, fill);
    overwrite(out, place, torn);
}
