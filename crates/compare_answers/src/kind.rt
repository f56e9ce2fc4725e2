// What is asked of an input.
use super::values::Entry;

// The kinds that have an answer, by their names in the judge; some are asked of each entry of an input.
#[derive(Clone, Copy)]
pub enum Kind {
    Each(Entry),
    Level,
    Maxima,
    Minima,
    ArgminMiddle,
    ArgmaxMiddle,
    ShallowValley,
    Floor,
    Threshold,
    Speech,
    Region,
    VoicedRuns,
    LongRuns,
    SyllableRuns,
    Dropouts,
    RunOf,
    Repair,
    Nsdf,
    Estimate,
    Recovery,
    SpeechEntry,
    RegionEntry,
    Nuclei,
    Extras,
    BoundariesWith,
    Boundaries,
    Chain,
    TakeFile,
}

// No kind has this number.
#[derive(Clone, Copy)]
pub struct UnknownKind;

impl TryFrom<u8> for Kind {
    type Error = UnknownKind;

    // A kind by its number.
    fn try_from(number: u8) -> Result<Kind, UnknownKind> {
        Ok(match number {
            1 => Kind::Each(Entry::Round),
            2 => Kind::Each(Entry::Finite),
            3 => Kind::Each(Entry::TotalOrder),
            4 => Kind::Each(Entry::Sort),
            5 => Kind::Each(Entry::Candidates),
            6 => Kind::Each(Entry::Break),
            7 => Kind::Each(Entry::Step),
            8 => Kind::Each(Entry::Octave),
            16 => Kind::Level,
            17 => Kind::Maxima,
            18 => Kind::Minima,
            19 => Kind::ArgminMiddle,
            20 => Kind::ArgmaxMiddle,
            21 => Kind::ShallowValley,
            22 => Kind::Floor,
            23 => Kind::Threshold,
            24 => Kind::Speech,
            25 => Kind::Region,
            26 => Kind::VoicedRuns,
            27 => Kind::LongRuns,
            28 => Kind::SyllableRuns,
            29 => Kind::Dropouts,
            30 => Kind::RunOf,
            32 => Kind::Repair,
            33 => Kind::Nsdf,
            34 => Kind::Estimate,
            35 => Kind::Recovery,
            36 => Kind::SpeechEntry,
            37 => Kind::RegionEntry,
            40 => Kind::Nuclei,
            41 => Kind::Extras,
            42 => Kind::BoundariesWith,
            43 => Kind::Boundaries,
            48 => Kind::Chain,
            56 => Kind::TakeFile,
            _ => return Err(UnknownKind),
        })
    }
}
