// The functions and the entries on bytes: the input of a kind in, its answer out, so that one list of the reference's answers
// can be replayed and one function compared, whatever the kind. Numbers are written with the most significant byte first,
// floats by their bit patterns. An input that a function does not take has an answer that no reference gives.
#![tactic(auto)]

mod asked;
mod calls;
pub mod fields;
mod kind;
mod out;
mod short;
mod tables;
mod tracks;
mod values;
mod whole;

use asked::Input;
use kind::Kind;
use out::Out;
use runs::syllables::{dropouts, syllable_runs};
use runs::voiced::long_runs;
use smooth::extrema::Extremum;

// A new kind is a case of `Kind`, its number there and a line here. One match and no table of closures: kinds come as numbers,
// and their functions take different things.
fn write_answer(kind: Kind, bytes: &[u8], out: &mut Out<'_>) {
    let table = tables::floats_in(bytes);
    let floats = tables::first(&table, bytes.len() / 4);
    let input = Input { bytes, floats };
    match kind {
        Kind::Each(entry) => values::entries(entry, bytes, out),
        Kind::Level => tracks::level(input, out),
        Kind::Maxima => tracks::extrema(Extremum::Max, input, out),
        Kind::Minima => tracks::extrema(Extremum::Min, input, out),
        Kind::ArgminMiddle => short::middle(Extremum::Min, input, out),
        Kind::ArgmaxMiddle => short::middle(Extremum::Max, input, out),
        Kind::ShallowValley => short::shallow(input, out),
        Kind::Floor => short::floor(input, out),
        Kind::Threshold => short::threshold(input, out),
        Kind::Speech => tracks::speech(input, out),
        Kind::Region => short::region(input, out),
        Kind::VoicedRuns => tracks::voiced_runs(input, out),
        Kind::LongRuns => tracks::spans(long_runs, input, out),
        Kind::SyllableRuns => tracks::spans(syllable_runs, input, out),
        Kind::Dropouts => tracks::spans(dropouts, input, out),
        Kind::RunOf => short::run_of(input, out),
        Kind::Repair => calls::repair(bytes, out),
        Kind::Nsdf => values::periodicity(bytes, out),
        Kind::Estimate => short::estimate(bytes, out),
        Kind::Recovery => calls::recovery(input, out),
        Kind::SpeechEntry => calls::speech(input, out),
        Kind::RegionEntry => calls::region(input, out),
        Kind::Nuclei => calls::nuclei(input, out),
        Kind::Extras => calls::extras(input, out),
        Kind::BoundariesWith => calls::boundaries_with(input, out),
        Kind::Boundaries => calls::boundaries(input, out),
        Kind::Chain => whole::chain(input, out),
        Kind::TakeFile => whole::listing(bytes, out),
    }
}

// Writes the answer to an input of a kind to the front of out, and returns its length; 0 for a kind that is not known. A kind
// comes as a number, as the list of answers has it.
pub fn answer(kind: u8, input: &[u8], out: &mut [u8]) -> usize {
    let mut answer = Out::new(out);
    if let Ok(known) = Kind::try_from(kind) {
        write_answer(known, input, &mut answer);
    }
    answer.len()
}
