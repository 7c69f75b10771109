//! Reads a file of the outside to its end, or to the byte after the greatest length.
ghost use Rattle.std.specs.Prelude.{◌≡◌, ◌+◌, ◌<◌, ◌^◌, ◌∷◌, ℕ, List, IsTrue, take, IfOk, IfSome, IsSomeAnd, OnOk, IsErrOf};
ghost use Rattle.whole_files.specs.Outside.{Rose};

use crate::outside::Files;
use std::alloc::Global;

/// How many bytes are asked for at a time.
const PIECE: usize = 16_384;

/// Why a file wasn't read.
#[derive(Clone, Copy, Debug, PartialEq, Eq)]
pub enum ReadError {
    /// The outside had a fault.
    Fault,
    /// There was no memory for the bytes.
    NoMemory,
}

/// The bytes under a name. Of a file with more than `limit` they are the first `limit + 1`, which show that it is too
/// long.
pub fn read_file<F: Files>(
    alloc: Global,
    files: &mut F,
    name: &str,
    limit: u32,
) -> Result<Vec<u8>, ReadError>
    ensures bytes { IfOk result (λ bytes. IsTrue (F.tells files.old) → IsSomeAnd (F.held files.old name.now) (λ held. bytes.items ≡ take (limit + 1) held)) }
    ensures tells { F.tells files.new ≡ F.tells files.old }
    ensures held { (n : List ℕ) → F.held files.new n ≡ F.held files.old n }
    ensures opened { F.opened files.new ≡ (name.now, F.faults files.old) ∷ F.opened files.old }
    ensures fault { IsErrOf result ReadError.Fault → Rose (F.faults files.old) (F.faults files.new) }
    ensures no_memory { IsErrOf result ReadError.NoMemory → F.faults files.new ≡ F.faults files.old }
    ensures calm { OnOk result (F.faults files.new ≡ F.faults files.old) }
{
    if files.start_file(name).is_err() {
        return Err(ReadError::Fault);
    }
    read_left(alloc, files, limit as usize)
}

/// What is left of the chosen file, or its first `limit + 1` bytes.
fn read_left<F: Files>(alloc: Global, files: &mut F, limit: usize) -> Result<Vec<u8>, ReadError>
    requires { limit < 2 ^ 32 }
    ensures bytes { IfOk result (λ bytes. IfSome (F.left files.old) (λ left. bytes.items ≡ take (limit + 1) left)) }
    ensures tells { F.tells files.new ≡ F.tells files.old }
    ensures held { (n : List ℕ) → F.held files.new n ≡ F.held files.old n }
    ensures opened { F.opened files.new ≡ F.opened files.old }
    ensures fault { IsErrOf result ReadError.Fault → Rose (F.faults files.old) (F.faults files.new) }
    ensures no_memory { IsErrOf result ReadError.NoMemory → F.faults files.new ≡ F.faults files.old }
    ensures calm { OnOk result (F.faults files.new ≡ F.faults files.old) }
{
    let mut bytes = Vec::new(alloc);
    let mut piece = [0u8; PIECE];
    while bytes.len() <= limit {
        let room = PIECE.min(limit + 1 - bytes.len());
        let Ok(count) = files.read(&mut piece[..room]) else {
            return Err(ReadError::Fault);
        };
        if count == 0 {
            break;
        }
        if bytes.extend_from_slice(&piece[..count]).is_err() {
            return Err(ReadError::NoMemory);
        }
    }
    Ok(bytes)
}
