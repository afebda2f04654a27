// The text program: reads standard input, and writes what the run over it prints.
// Relies on run for what is printed, on printing for its bytes, on io for reading and writing.

#![tactic(auto)]

ghost use Rattle.std.specs.Prelude.{◌≡◌};
ghost use Rattle.areas.specs.Memory.{areas};
ghost use Rattle.printing.specs.Printing.{bytes_of};
ghost use Rattle.run.specs.Program.{lent};

use printing::{Printed, spell};
use run::{MAX_INPUT, MAX_NODES, begin, goes_on, next};
use settings::Settings;

// The nodes' words.
const NODES: usize = (Settings::NODE_WORDS as usize) * (MAX_NODES as usize);

// The levels' words at chain limit 1, where they are most: 10 each, of level 0, 7 levels for a node and one for a worker.
const LEVELS: usize = 10 * (1 + 7 * (MAX_NODES as usize) + (Settings::MAX_WORKERS as usize));

// The workers' words.
const WORKERS: usize = (Settings::WORKER_WORDS as usize) * (Settings::MAX_WORKERS as usize);

// The bytes of x are written; false where writing fails.
fn put_bytes(x: Printed, bytes: &[u8]) -> bool
    requires { bytes.now ≡ bytes_of x }
{
    io::write_all(1, bytes)
}

fn put_out(x: Printed) -> bool {
    put_bytes(x, &spell(x))
}

// Everything that is printed for an input, one thing after the other, until writing fails. The areas are those that `run_writes` speaks of.
#[tactic(auto, using(run::proofs::Run::run_less))]
fn put_all(input: &[u8], nodes: &mut [u32], levels: &mut [u32], workers: &mut [u32])
    requires { areas nodes.old levels.old workers.old ≡ lent }
{
    // no iterator: the theorem `run_writes` is over a loop that asks `goes_on` before each `next`
    let mut p = begin();
    while goes_on(p) {
        let t = next(p, input, nodes, levels, workers);
        if !put_out(t.printed) {
            return;
        }
        p = t.progress;
    }
}

// One byte more than the program takes is read, so that a longer input is known.
#[tactic(auto, unfolding(settings::specs::Sizes::level_words, settings::specs::Sizes::level_count, settings::specs::Sizes::fresh, words::specs::Digits::base, words::specs::Digits::depths))]
fn main() {
    let mut input = [0; MAX_INPUT + 1];
    let mut nodes = [0; NODES];
    let mut levels = [0; LEVELS];
    let mut workers = [0; WORKERS];
    let n = io::read_full(0, &mut input);
    put_all(&input[..n], &mut nodes, &mut levels, &mut workers);
}
