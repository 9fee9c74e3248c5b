ghost use Rattle.std.specs.Prelude.{◌≡◌, refl, is_some};

use std::fs::File;
use std::io::{Read, Stderr, Stdin, Stdout, Write};

/// A reader that tells in each of its states what remains, or in none.
///
/// A reader's own contract lets it begin to tell at any call, and then nothing could be said of what was taken before.
pub trait SteadyRead: Read {
    /// Whether it tells is the same in any two states.
    ghost steady: { (one other : Self) → is_some (Self.remaining one) ≡ is_some (Self.remaining other) };
}

/// A writer that tells in each of its states what it holds, or in none.
///
/// A writer's own contract lets it begin to tell at any call, and then nothing could be said of what was given before.
pub trait SteadyWrite: Write {
    /// Whether it tells is the same in any two states.
    ghost steady: { (one other : Self) → is_some (Self.contents one) ≡ is_some (Self.contents other) };
}

/// The standard input tells nothing.
impl SteadyRead for Stdin {
    ghost steady = { λ _ _. refl };
}

/// A file tells nothing.
impl SteadyRead for File {
    ghost steady = { λ _ _. refl };
}

/// Bytes in memory tell what is left of them.
impl SteadyRead for &[u8] {
    ghost steady = { λ _ _. refl };
}

/// A reader that is borrowed tells what it tells.
impl<R: SteadyRead> SteadyRead for &mut R {
    ghost steady = { λ one other. R.steady one.now other.now };
}

/// The standard output tells nothing.
impl SteadyWrite for Stdout {
    ghost steady = { λ _ _. refl };
}

/// The standard error tells nothing.
impl SteadyWrite for Stderr {
    ghost steady = { λ _ _. refl };
}

/// A file tells nothing.
impl SteadyWrite for File {
    ghost steady = { λ _ _. refl };
}

/// A vector tells its bytes.
impl SteadyWrite for Vec<u8> {
    ghost steady = { λ _ _. refl };
}

/// A slice that is written over tells nothing.
impl SteadyWrite for &mut [u8] {
    ghost steady = { λ _ _. refl };
}

/// A writer that is borrowed tells what it tells.
impl<W: SteadyWrite> SteadyWrite for &mut W {
    ghost steady = { λ one other. W.steady one.now other.now };
}
