//! Readers: all that one gives, up to one byte more than a script may have.

ghost use Rattle.std.specs.Prelude.{◌≡◌, ◌+◌, ◌≤◌, ◌++◌, [], length, vec_len, vec_capacity, OnOk, ◌⊎◌, IfOk, IfErr};
ghost use Rattle.std.specs.Io.KnownBytes.{Consumes, IsAtEnd};
ghost use Rattle.rdm_script.specs.declared.program.ProgramError.TheVariants.{Memory, Read as ReadFault};

use crate::grammar::MOST_BYTES;
use crate::program::ProgramError;
use rdm_streams::read_some;
use std::alloc::Global;
use std::io::Read;

/// How many bytes are read at most: one more than a script may have.
const MOST_READ: usize = MOST_BYTES + 1;

/// How many bytes are read at once.
const PIECE: usize = 1024;

/// All that a reader gives, or the first 65,537 bytes of it.
///
/// Memory for that many bytes is taken first.
pub(crate) fn read_input<R: Read>(alloc: Global, reader: &mut R) -> Result<Vec<u8>, ProgramError>
    ensures bytes { IfOk result (λ input. Consumes (R.remaining reader.old) (R.remaining reader.new) input.items) }
    ensures end { IfOk result (λ input. length input.items ≤ 65536 → IsAtEnd (R.remaining reader.new)) }
    ensures err { IfErr result (λ e. (e ≡ ReadFault) ⊎ (e ≡ Memory)) }
{
    let mut input = Vec::with_capacity(alloc, MOST_READ)?;
    read_all(reader, &mut input)?;
    Ok(input)
}

/// Puts all that a reader gives, or the first 65,537 bytes of it, into a list that has room for them.
fn read_all<R: Read>(reader: &mut R, input: &mut Vec<u8>) -> Result<(), ProgramError>
    requires none { input.old.items ≡ [] }
    requires room { 65537 ≤ vec_capacity input.old }
    ensures bytes { OnOk result (Consumes (R.remaining reader.old) (R.remaining reader.new) input.new.items) }
    ensures end { OnOk result (length input.new.items ≤ 65536 → IsAtEnd (R.remaining reader.new)) }
    ensures err { IfErr result (λ e. e ≡ ReadFault) }
{
    let mut piece = [0u8; PIECE];
    while input.len() < MOST_READ {
        let room = PIECE.min(MOST_READ - input.len());
        let Ok(count) = read_some(reader, &mut piece[..room]) else {
            return Err(ProgramError::Read);
        };
        if count == 0 {
            break;
        }
        put_all(input, &piece[..count]);
    }
    Ok(())
}

/// Puts bytes behind others, in a list that has room for them.
fn put_all(input: &mut Vec<u8>, bytes: &[u8])
    requires { vec_len input.old + length bytes.now ≤ vec_capacity input.old }
    ensures items { input.new.items ≡ input.old.items ++ bytes.now }
    ensures capacity { vec_capacity input.old ≤ vec_capacity input.new }
{
    input.extend_from_slice(bytes).unwrap();
}
