// A map with the reason of its verdict, as C and Rust ask for it.
#![tactic(auto)]

ghost use Rattle.std.specs.Prelude.{◌≡◌};
ghost use Rattle.export_why.specs.Reasons.{answer_out, ReasonGiven};

use reason::Reason;
use refusal::Status;

// Depth and marker are 0 with a refusal; it may have a reason too.
#[repr(C)]
#[derive(Clone, Copy)]
pub struct ReasonAnswer {
    pub status: Status,
    pub depth: usize,
    pub marker: usize,
    pub length: usize,
}

impl From<Reason> for ReasonAnswer {
    ghost from_gives = { λ told answer. answer ≡ answer_out told };

    fn from(told: Reason) -> ReasonAnswer {
        let length = told.length;
        match told.verdict {
            Ok(map) => ReasonAnswer {
                status: Status::ACCEPTED,
                depth: map.depth,
                marker: map.marker,
                length,
            },
            Err(r) => ReasonAnswer {
                status: Status::from(r),
                depth: 0,
                marker: 0,
                length,
            },
        }
    }
}

// The map of a name of eight bytes, judged over lent words, four for each node; the reason is printed into the front of the output.
#[unsafe(no_mangle)]
pub extern "C" fn meshpigeon_why(
    wad: &[u8],
    name: &[u8],
    words: &mut [u16],
    out: &mut [u8],
) -> ReasonAnswer
    ensures { ReasonGiven wad.now name.now words.old out.old result
        words.new out.new }
{
    ReasonAnswer::from(reason::judge_map(wad, name, words, out))
}
