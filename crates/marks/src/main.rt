// Reads a take file on standard input and prints the listing of its marks; with the word `--version` it tells its own. An
// input that cannot be read, or a listing that cannot be written, is told on standard error.
#![tactic(auto)]

ghost use Rattle.std.specs.Prelude.{◌≡◌, List, ℕ, ◌<◌, ◌≤◌, IfSome, get_or, length};
ghost use Rattle.take.specs.File.{largest};
ghost use Rattle.input.specs.Held.{Holds};
ghost use Rattle.input.specs.Reading.{Stopped, StoppedIn};
ghost use Rattle.report.specs.Shown.{printed};
ghost use Rattle.marks.specs.Answer.{longest, TextAnswered, TextOf};

use admit::numbers::number;
use input::Input;
use std::env::Env;
use std::io;
use std::io::Read;
use take::file::take_refusal;
use take::listing::{LARGEST_LISTING, refused};
use take::text::Page;

// The bytes of a file of 65,535 frames, the most that a head can name: no longer one agrees.
const LONGEST: usize = 1_114_114;

// Reads the input to its end, or until it has more bytes than agree with any head.
fn read_file<R: Read>(reader: &mut R, file: &mut [u8]) -> io::Result<Input>
    ensures pieces { Stopped longest file.old file.new result }
    ensures known { IfSome (R.remaining reader.old) (λ came. StoppedIn longest came file.new result) }
{
    input::read_all(reader, file, LONGEST)
}

// Leaves on a page what is printed for an input of which the file has the first bytes. One that is longer than every take is
// refused, and its head and size tell by which number.
fn tell(file: &[u8], total: usize, page: &mut Page<LARGEST_LISTING>)
    requires { largest ≤ length file.now }
    ensures { (came : List ℕ) → Holds came file.now total → page.new ≡ printed came }
{
    if total <= file.len() {
        report::marks_of(&file[..total], page);
    } else {
        refused(number(take_refusal(file, total)), page);
    }
}

// Reads the input, and leaves on a page what is printed for it. Past the longest file that does not depend on what was left
// unread.
fn answer<R: Read>(reader: &mut R, page: &mut Page<LARGEST_LISTING>) -> io::Result<()>
    ensures pieces { TextAnswered page.new result }
    ensures known { IfSome (R.remaining reader.old)
        (λ came. ((i : ℕ) → get_or came i 0 < 256) → TextOf came page.new result) }
{
    // Room for the largest take; the bytes past it are only counted.
    let mut file = [0u8; 34835];
    // Two arms that read alike: that what was left unread has no say is a proof of its own, for the second alone.
    match read_file(reader, &mut file)? {
        Input::Whole(total) => tell(&file, total, page),
        Input::Longer(total) => tell(&file, total, page),
    }
    Ok(())
}

// Reads standard input and prints what is to be printed for it.
fn mark_input(rt: &(impl io::Input + Print + Eprint)) {
    let mut page = Page::new();
    if answer(&mut rt.reader(), &mut page).is_err() {
        let _ = rt.eprint("marks: standard input could not be read\n");
        return;
    }
    if rt.write_all(page.as_slice()).is_err() {
        let _ = rt.eprint("marks: the listing could not be written\n");
    }
}

// Whether the first argument is the word `--version`. One that is longer does not fit here.
fn asks_for_version(rt: &impl Env) -> bool {
    let mut word = [0u8; 9];
    match rt.arg(1, &mut word) {
        Ok(n) => &word[..n] == b"--version".as_slice(),
        Err(_) => false,
    }
}

fn main(rt: HostRuntime) {
    if asks_for_version(&rt) {
        let _ = rt.write_all(b"kiddwyr 6.0.0\n");
        return;
    }
    mark_input(&rt);
}
