// Reading a take file: a head of 19 bytes, then a record of 17 bytes for each frame.
ghost use Rattle.std.specs.Prelude.{◌≡◌, ◌+◌, ◌*◌, ◌≤◌, length, drop};
ghost use Rattle.admit.specs.Numbers.{number_of};
ghost use Rattle.take.specs.File.{frame_count, agrees, refusal_by, records, track_at, marks_in, settings_in, take_in};

use super::fields::{float_at, half_at, word_at};
use admit::MAX_FRAMES;
use admit::numbers::Refusal;
use region::Settings;

// Bytes of the head, and of a record.
const HEAD: usize = 19;

const RECORD: usize = 17;

// How many frames the head names.
pub fn frames_in(file: &[u8]) -> usize
    requires { 7 ≤ length file.now }
    ensures { (result ≡ frame_count file.now) × (result ≤ 65535) }
{
    half_at(file, 5) as usize
}

// Whether the first bytes of a file agree with its size.
fn bytes_agree(head: &[u8], size: usize) -> bool
    ensures { result ≡ agrees head.now size }
{
    if head.len() < 7 {
        return false;
    }
    if head[4] != 1 {
        return false;
    }
    let length = word_at(head, 0) as usize;
    if length != 15 + RECORD * frames_in(head) {
        return false;
    }
    size == 4 + length
}

// The refusal of a file, by its first bytes and its size: where they do not agree, then where they agree on more frames than
// a take has.
pub fn take_refusal(head: &[u8], size: usize) -> Result<(), Refusal>
    ensures { number_of result ≡ refusal_by head.now size }
{
    if !bytes_agree(head, size) {
        return Err(Refusal::Bytes);
    }
    if frames_in(head) > MAX_FRAMES {
        return Err(Refusal::Lengths);
    }
    Ok(())
}

// Reads the f32 at `at` of each record to a track: dB at 0, pitch at 4, `voiced_p` at 8, sonority at 12. Apart from
// `read_marks`: one function over a closure for the field would say more of the closure (`F.pre`, `F.post`) than the two loops
// of a line have. By index, as a loop over `iter_mut().zip` takes 1.4 times as long.
pub fn read_track(file: &[u8], at: usize, track: &mut [f32])
    requires { (at + 4 ≤ 17) × (19 + 17 * length track.old ≤ length file.now) }
    ensures { track.new ≡ track_at at (records (length track.old) (drop 19 file.now)) }
{
    for i in 0..track.len() {
        track[i] = float_at(file, HEAD + RECORD * i + at);
    }
}

// Reads the byte that ends each record to a list of marks, as `read_track` reads numbers of four bytes.
fn read_marks(file: &[u8], marks: &mut [u8])
    requires { 19 + 17 * length marks.old ≤ length file.now }
    ensures { marks.new ≡ marks_in (records (length marks.old) (drop 19 file.now)) }
{
    for i in 0..marks.len() {
        marks[i] = file[HEAD + RECORD * i + 16];
    }
}

fn read_settings(file: &[u8]) -> Settings
    requires { 19 ≤ length file.now }
    ensures { result ≡ settings_in file.now }
{
    Settings {
        margin: float_at(file, 7),
        dip: float_at(file, 11),
        gap: word_at(file, 15),
    }
}

// Reads the take of a file that is not refused: its tracks to lent ones of as many frames, and its settings.
// Every pattern of any field is read. The tracks are lent one by one: a call that is lent two lists of one struct is refused.
pub fn read_take(
    file: &[u8],
    db: &mut [f32],
    pitch: &mut [f32],
    voiced: &mut [f32],
    sonority: &mut [f32],
    vowel: &mut [u8],
) -> Settings
    requires file_in_bounds { 19 + 17 * frame_count file.now ≤ length file.now }
    requires db_len { (length db.old ≡ frame_count file.now) × (length pitch.old ≡ frame_count file.now)
        × (length voiced.old ≡ frame_count file.now) × (length sonority.old ≡ frame_count file.now)
        × (length vowel.old ≡ frame_count file.now) }
    ensures { record {
      settings = result;
      db = db.new;
      pitch = pitch.new;
      voiced = voiced.new;
      sonority = sonority.new;
      vowel = vowel.new;
    } ≡ take_in file.now }
{
    read_track(file, 0, db);
    read_track(file, 4, pitch);
    read_track(file, 8, voiced);
    read_track(file, 12, sonority);
    read_marks(file, vowel);
    read_settings(file)
}
