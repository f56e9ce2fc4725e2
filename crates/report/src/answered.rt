// What a call of the chain answers and leaves.
ghost use Rattle.std.specs.Prelude.{length};
ghost use Rattle.chain.specs.Chain.{lists_of};
ghost use Rattle.report.specs.Shown.{Fitting};

use admit::numbers::Refusal;
use chain::Marked;

// The answer, the pitches as left, and the result lists, each of at most the entries that the take needs.
#[derive(Clone, Copy)]
pub struct Answered<'a> {
    pub answer: Result<Marked, Refusal>,
    pub pitch: &'a [f32],
    pub frames: &'a [u32],
    pub strengths: &'a [f32],
    pub xframes: &'a [u32],
    pub xstrengths: &'a [f32],
    pub edges: &'a [u32],
    pub bounds: &'a [u32],
    ghost fitting: { Fitting (length pitch.now) (lists_of frames.now strengths.now xframes.now xstrengths.now edges.now bounds.now) },
}
