// The flagged count: the number of nodes that can be reached from the root, over memory of any content.
// Relies on reach for the search and for questions 1 to 3.

#![tactic(auto)]

ghost use Rattle.std.specs.Prelude.{◌≡◌, ◌≤◌};
ghost use Rattle.settings.specs.Sizes.{max_nodes};
ghost use Rattle.areas.specs.Memory.{memory};
ghost use Rattle.counting.specs.Cut.{marked_among};
ghost use Rattle.counting.specs.Count.{Counted, told};

use reach::{THINGS, check_reading, mark_reached};
use settings::{Refusal, Settings};

// The number of marks among the first n.
#[tactic(auto, unfolding(crate::specs::Cut::marked_among))]
fn marked_among(marks: &[u8; THINGS], n: u32) -> u32
    requires { n ≤ max_nodes }
    ensures { result ≡ marked_among marks.now n }
{
    marks[..n as usize].iter().filter(|m| **m != 0).count() as u32
}

// "The flagged count becomes the number of nodes that can be reached from the root." No word of the table is changed.
#[tactic(auto, using(crate::proofs::Ways::ways_of_flagged))]
pub fn flagged(s: Settings, nodes: &[u32], levels: &[u32]) -> Result<u32, Refusal>
    ensures { Counted s.width s (memory nodes.now levels.now) (told result) }
{
    check_reading(s, nodes.len(), levels.len())?;
    let mut marks = [0u8; THINGS];
    mark_reached(s, nodes, levels, &mut marks)?;
    Ok(marked_among(&marks, s.nodes_taken))
}
