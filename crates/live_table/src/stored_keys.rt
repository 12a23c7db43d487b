//! Keys in the form of bytes.

ghost use Rattle.std.specs.Prelude.{◌≡◌, ◌<◌, ◌≤◌, IfOk, IsOk, OnOk, length};
ghost use Rattle.def_entry.specs.KeyOrder.{key_order_number, kind_at_key_order};
ghost use Rattle.def_entry.specs.Keys.{key};
ghost use Rattle.live_table.specs.KeyIndex.{node_key_bytes};

use def_entry::Kind;
use smallvec::SmallVec;
use std::alloc::{AllocError, Global};

/// A key in the form of bytes: one for its kind, then those of its name. A short key is stored inline.
pub(crate) type StoredKey = SmallVec<u8, ROOM>;

// The number of bytes that a key stores inline.
const ROOM: usize = 16;

// So each key takes four words.
const _: () = prove!(size_of::<StoredKey>() == 32);

const UNIT: u8 = Kind::Unit as u8;

const PREFIX: u8 = Kind::Prefix as u8;

const FUNC: u8 = Kind::Func as u8;

/// Whether a key with this name is stored inline.
pub(crate) fn is_short(name: &[u8]) -> bool {
    name.len() < ROOM
}

/// Converts a key into bytes. The only error is lack of memory.
pub(crate) fn store(alloc: Global, kind: Kind, name: &[u8]) -> Result<StoredKey, AllocError>
    ensures { IfOk result (λ bytes. bytes.items ≡ node_key_bytes (key kind name.now)) }
{
    let mut bytes = StoredKey::with_capacity(alloc, name.len() + 1)?;
    overwrite(&mut bytes, kind, name)?;
    Ok(bytes)
}

/// Overwrites the bytes with a key. It allocates memory only if the key does not fit.
pub(crate) fn overwrite(bytes: &mut StoredKey, kind: Kind, name: &[u8]) -> Result<(), AllocError>
    ensures ok { OnOk result (bytes.new.items ≡ node_key_bytes (key kind name.now)) }
    ensures room { bytes.old.capacity ≤ bytes.new.capacity }
    ensures succeeds { length name.now < bytes.old.capacity → IsOk result }
{
    bytes.clear();
    bytes.push(kind_byte(kind))?;
    bytes.extend_from_slice(name)
}

// The byte that encodes a kind.
fn kind_byte(kind: Kind) -> u8
    ensures { result ≡ key_order_number kind }
{
    kind as u8
}

/// The kind that a byte encodes.
pub(crate) fn kind_of_byte(byte: u8) -> Kind
    ensures { result ≡ kind_at_key_order byte }
{
    match byte {
        UNIT => Kind::Unit,
        PREFIX => Kind::Prefix,
        FUNC => Kind::Func,
        _ => Kind::List,
    }
}
