//! Readers and writers whose bytes are known always or never.
ghost use Rattle.std.specs.Prelude.{◌≡◌, None, refl};
ghost use Rattle.units_io.specs.StreamStates.{known_is_not_unknown};

use std::io::{Read, Stderr, Stdin, Stdout, Write};

/// A reader whose remaining bytes are known always or never. The contract of `read` keeps known bytes known. This law
/// adds that unknown bytes stay unknown.
pub trait SteadyRead: Read {
    /// If the remaining bytes are unknown in one state, they are unknown in every state.
    ghost read_steady: { (s t : Self) → Self.remaining s ≡ None → Self.remaining t ≡ None };
}

/// A writer whose bytes are known always or never. The contract of `write` keeps known bytes known. This law adds that
/// unknown bytes stay unknown.
pub trait SteadyWrite: Write {
    /// If the bytes written are unknown in one state, they are unknown in every state.
    ghost write_steady: { (s t : Self) → Self.contents s ≡ None → Self.contents t ≡ None };
}

// The standard library states nothing about the bytes of these four.
impl SteadyRead for Stdin {
    ghost read_steady = { λ _ _ _. refl };
}

impl SteadyWrite for Stdout {
    ghost write_steady = { λ _ _ _. refl };
}

impl SteadyWrite for Stderr {
    ghost write_steady = { λ _ _ _. refl };
}

impl SteadyWrite for &mut [u8] {
    ghost write_steady = { λ _ _ _. refl };
}

// It states all bytes of these.
impl SteadyRead for &[u8] {
    ghost read_steady = { λ s t unknown. known_is_not_unknown s.now t.now unknown };
}

impl SteadyWrite for Vec<u8> {
    ghost write_steady = { λ s t unknown. known_is_not_unknown s.items t.items unknown };
}
