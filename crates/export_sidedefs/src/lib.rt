// SIDEDEFS as they arrive.
#![tactic(auto)]

ghost use Rattle.std.specs.Prelude.{◌≡◌};
ghost use Rattle.sidedefs_stream.specs.Scraps.{started, fed};
ghost use Rattle.export_sidedefs.specs.Sidedefs.{sidedefs_judged};

use refusal::Status;
use sidedefs_stream::Stream;

// The state before the first scrap.
#[unsafe(no_mangle)]
pub extern "C" fn meshpigeon_sidedefs_start(sectors: usize) -> Stream
    ensures { result ≡ started sectors }
{
    sidedefs_stream::start(sectors)
}

// The state after one more scrap.
#[unsafe(no_mangle)]
pub extern "C" fn meshpigeon_sidedefs_feed(state: Stream, scrap: &[u8]) -> Stream
    ensures { result ≡ fed state scrap.now }
{
    sidedefs_stream::feed(state, scrap)
}

// The verdict on what was fed so far, 80, 81, 20, 21 and 24.
#[unsafe(no_mangle)]
pub extern "C" fn meshpigeon_sidedefs_verdict(state: Stream) -> Status
    ensures { result ≡ sidedefs_judged state }
{
    Status::from(sidedefs_stream::verdict(state))
}
