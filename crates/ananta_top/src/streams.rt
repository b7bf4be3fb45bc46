ghost use Rattle.std.specs.Prelude.{◌≡◌, ◌≤◌, ◌<◌, OnOk, IfOk, IfSome, IsErrOf, vec_len, length};
ghost use Rattle.std.specs.Io.KnownBytes.{IsAtEnd};
ghost use Rattle.outside_io.specs.Faults.{Rose};
ghost use Rattle.ananta_top.specs.declared.streams.InputFault.TheVariants.{NoMemory};

use outside_io::{Failed, Source};
use std::alloc::{AllocError, Global};

/// The most bytes that an input may have.
pub const INPUT_LIMIT: usize = 67_108_864;

/// Why an input wasn't read.
#[derive(Clone, Copy, Debug, PartialEq, Eq)]
pub enum InputFault {
    Read,
    TooLong,
    NoMemory,
}

impl From<AllocError> for InputFault {
    ghost from_gives = { λ _ e. e ≡ NoMemory };

    fn from(_: AllocError) -> Self {
        InputFault::NoMemory
    }
}

/// Reads a source to its end, or to the first byte past the limit.
pub fn read_all<S: Source>(alloc: Global, input: &mut S) -> Result<Vec<u8>, InputFault>
    ensures all { IfOk result (λ v. IfSome (S.left input.old) (λ xs. v.items ≡ xs)) }
    ensures end { OnOk result (IsAtEnd (S.left input.new)) }
    ensures within { IfOk result (λ v. vec_len v ≤ INPUT_LIMIT) }
    ensures read { IsErrOf result InputFault.Read → Rose (S.faults input.old) (S.faults input.new) }
    ensures long { IsErrOf result InputFault.TooLong → IfSome (S.left input.old) (λ xs. INPUT_LIMIT < length xs) }
{
    let mut bytes = Vec::new(alloc);
    let mut buf = [0u8; 4096];
    loop {
        let count = match input.read(&mut buf) {
            Ok(count) => count,
            Err(Failed) => return Err(InputFault::Read),
        };
        if count == 0 {
            return Ok(bytes);
        }
        if count > INPUT_LIMIT - bytes.len() {
            return Err(InputFault::TooLong);
        }
        bytes.extend_from_slice(&buf[..count])?;
    }
}
