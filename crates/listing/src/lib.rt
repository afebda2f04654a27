// Listing the flagged pixels while calls are open, over memory of any content: one "next" by value.
// Relies on reach for the search and for questions 1 to 3.

#![tactic(auto)]

ghost use Rattle.std.specs.Prelude.{◌≡◌};
ghost use Rattle.words.specs.Digits.{DigitWidth};
ghost use Rattle.areas.specs.Memory.{memory};
ghost use Rattle.reach.specs.Marked.{Fits, things};
ghost use Rattle.listing.specs.Cut.{least_of, SeenFrom};
ghost use Rattle.listing.specs.Next.{Next, moved_from};

use areas::pixel_at;
use reach::{THINGS, check_reading, mark_at, mark_reached};
use settings::{Refusal, Settings};

// "The listing keeps its place in a small record that each "next" moves on": 0 is "start", pixel + 1 after a pixel, END at the "end".
#[repr(C)]
#[derive(Clone, Copy)]
pub struct Listing {
    pub place: u32,
}

// The place at its end.
const END: u32 = Settings::MAX_PIXEL + 2;

// The least pixel number of the marked nodes among the first n that is not below the place. A greater word holds no pixel.
fn least_of(nodes: &[u32], marks: &[u8], place: u32, n: u32) -> Option<u32>
    ensures { result ≡ least_of nodes.now marks.now place n }
{
    (0..n)
        .filter(|i| mark_at(marks, *i as usize) != 0)
        .map(|i| pixel_at(nodes, i))
        .filter(|p| place <= *p && *p <= Settings::MAX_PIXEL)
        .min()
}

// The least reachable pixel that is not below the place, if there is one.
#[tactic(auto, using(crate::proofs::Ways::seen_steps))]
fn seen_from(s: Settings, nodes: &[u32], levels: &[u32], place: u32) -> Result<Option<u32>, Refusal>
    requires digit_width { DigitWidth s.width }
    requires fits { Fits s things }
    ensures { SeenFrom s.width s (memory nodes.now levels.now) place result }
{
    let mut marks = [0u8; THINGS];
    mark_reached(s, nodes, levels, &mut marks)?;
    Ok(least_of(nodes, &marks, place, s.nodes_taken))
}

// "It gives the smallest reachable pixel number above the last one given, or "end"", and the record moved on; a refusal leaves the caller's record. No word of the table is
// changed.
#[tactic(auto, using(crate::proofs::Ways::ways_of_next))]
pub fn next(
    s: Settings,
    listing: Listing,
    nodes: &[u32],
    levels: &[u32],
) -> Result<(Option<u32>, Listing), Refusal>
    ensures { Next s.width s (memory nodes.now levels.now) listing.place (moved_from listing.place result) }
{
    check_reading(s, nodes.len(), levels.len())?;
    if listing.place > END {
        return Err(Refusal::Place);
    }
    let given = seen_from(s, nodes, levels, listing.place)?;
    let place = match given {
        Some(p) => p + 1,
        None => END,
    };
    Ok((given, Listing { place }))
}
