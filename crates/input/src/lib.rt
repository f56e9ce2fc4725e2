// An input as it comes, in pieces, from any reader, as standard input: its first bytes are kept in a lent file, and all of
// them are counted.
//
// No contract can say what the system reads. But `take_in` is given all that the reader answered, the count or the error and
// the bytes, and `read_some` hands it on; so a piece that came is held, once and after those before it.
#![tactic(auto)]

ghost use Rattle.std.specs.Prelude.{◌≡◌, ◌+◌, ◌-◌, ◌<◌, min, ℕ, Result, IfSome, length};
ghost use Rattle.std.proofs.Math.Seq.{paste};
ghost use Rattle.std.specs.Io.{ReadsAtMost};
ghost use Rattle.std.specs.Io.KnownBytes.{ReadConsumes};
ghost use Rattle.std.specs.declared.io.Error.{Error};
ghost use Rattle.input.specs.Held.{Adds};
ghost use Rattle.input.specs.Reading.{Brought, Stopped, StoppedIn};

use std::io;
use std::io::Read;

// Where reading stopped: at the end of so many bytes, or with more bytes than were asked for. Neither is an error, so no `Result`.
#[derive(Clone, Copy)]
pub enum Input {
    Whole(usize),
    Longer(usize),
}

// How many of k bytes a file of `size` bytes still takes at `at`.
fn room_for(size: usize, at: usize, k: usize) -> usize
    ensures { result ≡ min k (size - at) }
{
    k.min(size.saturating_sub(at))
}

// Keeps the bytes that came at `at` of a file, as far as there is room.
fn keep(bytes: &[u8], file: &mut [u8], at: usize)
    ensures { file.new ≡ paste file.old at bytes.now
        (min (length bytes.now) (length file.old - at)) }
{
    let n = room_for(file.len(), at, bytes.len());
    if n > 0 {
        file[at..at + n].copy_from_slice(&bytes[..n]);
    }
}

// Adds a piece to the bytes that came before it, and answers how many there are with it.
fn add_piece(piece: &[u8], file: &mut [u8], total: usize) -> usize
    requires { total + length piece.now < 18446744073709551616 }
    ensures { Adds piece.now file.old total file.new result }
{
    keep(piece, file, total);
    total + piece.len()
}

// Adds what a read brought: the reader answered `got`, and the bytes are in the chunk. Answers how many bytes there are now in
// all, or `None` where the input has ended.
fn take_in(
    got: io::Result<usize>,
    chunk: &[u8],
    file: &mut [u8],
    total: usize,
) -> io::Result<Option<usize>>
    requires { (total + length chunk.now < 18446744073709551616) × ReadsAtMost got chunk.now }
    ensures { Brought got chunk.now file.old total file.new result }
{
    let n = got?;
    if n == 0 {
        return Ok(None);
    }
    Ok(Some(add_piece(&chunk[..n], file, total)))
}

// Reads once, into the chunk, and adds what came.
fn read_some<R: Read>(
    input: &mut R,
    chunk: &mut [u8],
    file: &mut [u8],
    total: usize,
) -> io::Result<Option<usize>>
    requires { total + length chunk.old < 18446744073709551616 }
    ensures { (got : Result ℕ Error) × Brought got chunk.new file.old total file.new result
        × ReadConsumes (R.remaining input.old) (R.remaining input.new) got chunk.new }
{
    let got = input.read(chunk);
    take_in(got, chunk, file, total)
}

// Reads the input to its end, or until there are more than `most` bytes.
pub fn read_all<R: Read>(input: &mut R, file: &mut [u8], most: usize) -> io::Result<Input>
    requires { most + 65536 < 18446744073709551616 }
    ensures pieces { Stopped most file.old file.new result }
    ensures known { IfSome (R.remaining input.old) (λ came. StoppedIn most came file.new result) }
{
    let mut chunk = [0u8; 65536];
    let mut total: usize = 0;
    // A `while`: the count goes on by what each read brings.
    while total <= most {
        let Some(more) = read_some(input, &mut chunk, file, total)? else {
            return Ok(Input::Whole(total));
        };
        total = more;
    }
    Ok(Input::Longer(total))
}
