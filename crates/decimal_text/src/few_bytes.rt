// Bytes that need no memory of their own where they are few.
ghost use Rattle.std.specs.Prelude.{◌≡◌, ◌≤◌, ℕ, IfOk, IsOk, length, length as size, take};

use std::alloc::{AllocError, Global};
use std::marker::Model;

// So many bytes fit in the value. Most numbers are shorter, and with them a `Json` is no longer than with a `Vec`.
const ROOM: usize = 22;

#[derive(Debug, Drop)]
enum Held {
    Few { length: u8, room: [u8; ROOM] },
    Many(Box<Vec<u8>>),
}

/// A list of bytes: up to 22 lie in the value itself, and more in memory of their own.
#[derive(Debug, Drop)]
pub struct FewBytes {
    held: Held,
}

const _: () = prove!(size_of::<FewBytes>() == 24);

impl Model for FewBytes {
    ghost use Rattle.std.specs.Prelude.{List, ℕ};
    ghost use Rattle.decimal_text.specs.FewBytes.{bytes_in, IsWithin};

    ghost Value = { List ℕ };

    ghost view = { λ b. bytes_in b.held };

    ghost invariant = { λ b. IsWithin b.held };
}

/// A room that begins with the bytes, as far as they fit. Mostly it is copied whole, as a copy of a fixed length is fast.
fn room_of(bytes: &[u8]) -> [u8; ROOM]
    ensures { (n : ℕ) → n ≤ 22 → n ≤ length bytes.now → take n result ≡ take n bytes.now }
{
    let mut room = [0; ROOM];
    if bytes.len() < ROOM {
        room[..bytes.len()].copy_from_slice(bytes);
    } else {
        room.copy_from_slice(&bytes[..ROOM]);
    }
    room
}

impl FewBytes {
    /// The first `length` of the bytes once more.
    pub fn prefix(alloc: Global, bytes: &[u8], length: usize) -> Result<FewBytes, AllocError>
        requires { length ≤ size bytes.now }
        ensures ok { IfOk result (λ b. b ≡ take length bytes.now) }
        ensures few { length ≤ 22 → IsOk result }
    {
        let held = if length <= ROOM {
            Held::Few {
                length: length as u8,
                room: room_of(bytes),
            }
        } else {
            Held::Many(Box::new(alloc, Vec::from_slice(alloc, &bytes[..length])?)?)
        };
        Ok(FewBytes { held })
    }

    /// All bytes.
    pub fn as_slice(&self) -> &[u8]
        ensures { result.now ≡ self.now }
    {
        match &self.held {
            Held::Few { length, room } => &room[..usize::from(*length)],
            Held::Many(many) => many.as_slice(),
        }
    }
}
