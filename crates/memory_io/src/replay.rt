//! Makes calls again, with what one crash leaves after them.
ghost use Rattle.std.specs.Prelude.{◌≡◌, ◌≤◌, ◌+◌, max, [], ◌∷◌, length, take, drop, vec_len, vec_capacity};
ghost use Rattle.memory_io.specs.Disk.{seen, data_of, content_after, crash_after};

use crate::bytes::{overwrite, put_all, tear};
use crate::call_log::Call;

/// What a read gives, what one crash leaves, and a buffer for a write that a stop cuts short.
#[derive(Drop)]
pub(crate) struct Replay {
    pub held: Vec<u8>,
    pub image: Vec<u8>,
    pub torn: Vec<u8>,
}

// Returns how many bytes of data a call has.
fn size_of(call: &Call) -> usize
    ensures { result ≡ data_of (call.now ∷ []) }
{
    match *call {
        Call::Look => 0,
        Call::Write(_, count, _) => count,
        Call::Cut(_, _) => 0,
        Call::Sync => 0,
    }
}

// Returns the first bytes.
fn prefix(bytes: &[u8], size: usize) -> &[u8]
    requires { size ≤ length bytes.now }
    ensures { result.now ≡ take size bytes.now }
{
    &bytes[..size]
}

// Returns the bytes after the first ones.
fn following(bytes: &[u8], size: usize) -> &[u8]
    requires { size ≤ length bytes.now }
    ensures { result.now ≡ drop size bytes.now }
{
    &bytes[size..]
}

// Makes one call again, with its data.
fn replay_one(replay: &mut Replay, call: &Call, bytes: &[u8], part: usize, fill: u8)
    requires data { length bytes.now ≡ data_of (call.now ∷ []) }
    requires held { vec_len replay.old.held + length bytes.now ≤ vec_capacity replay.old.held }
    requires image { vec_len replay.old.image + length bytes.now ≤ vec_capacity replay.old.image }
    requires again { vec_len replay.old.held + length bytes.now ≤ vec_capacity replay.old.image }
    requires torn { length bytes.now ≤ vec_capacity replay.old.torn }
    ensures held { replay.new.held.items ≡ content_after (seen (call.now ∷ []) bytes.now) replay.old.held.items }
    ensures image { replay.new.image.items
        ≡ crash_after part fill (seen (call.now ∷ []) bytes.now) replay.old.held.items replay.old.image.items }
    ensures held_room { vec_capacity replay.new.held ≡ vec_capacity replay.old.held }
    ensures image_room { vec_capacity replay.new.image ≡ vec_capacity replay.old.image }
    ensures torn_room { vec_capacity replay.new.torn ≡ vec_capacity replay.old.torn }
    ensures held_len { vec_len replay.new.held ≤ vec_len replay.old.held + length bytes.now }
    ensures image_len { vec_len replay.new.image ≤ max (vec_len replay.old.image) (vec_len replay.old.held) + length bytes.now }
{
    match *call {
        Call::Look => {}
        Call::Write(place, _, true) => {
            overwrite(&mut replay.held, place as usize, bytes);
            tear(
                &mut replay.image,
                &mut replay.torn,
                place as usize,
                bytes,
                part,
                fill,
            );
        }
        Call::Write(place, _, false) => {
            tear(
                &mut replay.image,
                &mut replay.torn,
                place as usize,
                bytes,
                part,
                fill,
            );
        }
        Call::Cut(to, true) => {
            replay.held.truncate(to as usize);
            replay.image.truncate(to as usize);
        }
        Call::Cut(_, false) => {}
        Call::Sync => {
            replay.image.clear();
            put_all(&mut replay.image, &replay.held);
        }
    }
}

// Makes all of these calls again, with their data, which may be followed by more bytes.
pub(crate) fn replay_all(replay: &mut Replay, calls: &[Call], bytes: &[u8], part: usize, fill: u8)
    requires data { data_of calls.now ≤ length bytes.now }
    requires held { vec_len replay.old.held + length bytes.now ≤ vec_capacity replay.old.held }
    requires same { vec_capacity replay.old.held ≤ vec_capacity replay.old.image }
    requires image { vec_len replay.old.image + length bytes.now ≤ vec_capacity replay.old.held }
    requires torn { length bytes.now ≤ vec_capacity replay.old.torn }
    ensures image { replay.new.image.items
        ≡ crash_after part fill (seen calls.now bytes.now) replay.old.held.items replay.old.image.items }
{
    let mut rest = bytes;
    for call in calls {
        let size = size_of(call);
        replay_one(replay, call, prefix(rest, size), part, fill);
        rest = following(rest, size);
    }
}
