// Replays a list of the reference's answers, which stands on standard input, and says how many differ from ours. A record of
// the list: the kind (a byte), the length of the input and the input, the length of the answer and the answer; lengths are
// words, the most significant byte first.
#![tactic(auto)]

use compare_answers::fields::size;
use std::io;
use std::io::Read;

// Reads a length and as many bytes to the front of a buffer, and returns these; `None` where the list ends first or the buffer
// has no room.
fn read_field<'a, R: Read>(list: &mut R, buf: &'a mut [u8]) -> Option<&'a [u8]> {
    let mut length = [0u8; 4];
    list.read_exact(&mut length).ok()?;
    let field = buf.get_mut(..size(&length, 0))?;
    list.read_exact(field).ok()?;
    Some(field)
}

// Whether ours is the answer.
fn is_answer(kind: u8, input: &[u8], answer: &[u8]) -> bool {
    let mut ours = [0u8; 65536];
    let n = compare_answers::answer(kind, input, &mut ours);
    ours.get(..n) == Some(answer)
}

// Whether the answer of a record is ours, once its kind is read; `None` where the list breaks off inside the record.
fn replay<R: Read>(list: &mut R, kind: u8) -> Option<bool> {
    let mut input = [0u8; 65536];
    let mut answer = [0u8; 65536];
    let asked = read_field(list, &mut input)?;
    let told = read_field(list, &mut answer)?;
    Some(is_answer(kind, asked, told))
}

fn report(rt: &impl Print, records: u64, differ: u64) -> io::Result<()> {
    println!(rt; "{records} records replayed, {differ} differ")
}

// Replays the list to its end, and tells which records have another answer.
fn replay_all<R: Read>(rt: &impl Print, list: &mut R) -> io::Result<()> {
    let mut differ: u64 = 0;
    for record in 0..0x1_0000_0000u64 {
        let mut kind = [0u8; 1];
        if list.read_exact(&mut kind).is_err() {
            return report(rt, record, differ);
        }
        let Some(same) = replay(list, kind[0]) else {
            println!(rt; "the list breaks off inside a record")?;
            return report(rt, record, differ);
        };
        if !same {
            println!(rt; "record {record} of kind {} differs", kind[0])?;
            differ = differ.wrapping_add(1);
        }
    }
    Ok(())
}

fn main(rt: HostRuntime) -> io::Result<()> {
    replay_all(&rt, &mut rt.reader())
}
