// The words of nodes and levels: total reads and writes by number, references, and cells.
// Relies on words for reads and writes, on settings for sizes.

#![tactic(auto)]

ghost use Rattle.std.specs.Prelude.{◌≡◌, ◌+◌, ◌*◌, ◌≤◌, eqb, set};
ghost use Rattle.words.specs.Digits.{DigitWidth};
ghost use Rattle.settings.specs.Sizes.{level_words, max_nodes, most_levels};
ghost use Rattle.areas.specs.Memory.{memory, level_ref, node_ref, is_node, named, pixel_at, next_at, previous_at, depth_at, entry_at, cell_at, set_cell, exchanged, exchange, entry_cell, fill_node, fill_level, level_taken, node_taken, ref_taken};

use settings::{Settings, entries, level_words};
use words::{at, digit, fill_words, put};

// The previous word that leads nowhere: document 01 lays it down.
pub const NONE: u32 = u32::MAX;

// A cell: an entry of a level (level, entry), or the next word of a node.
#[derive(Clone, Copy)]
pub enum Cell {
    Entry(u32, u32),
    Next(u32),
}

// The place of word k of level g.
#[tactic(auto, using(crate::proofs::Laws::level_most))]
pub fn level_place(w: u32, g: u32, k: usize) -> usize
    requires digit_width { DigitWidth w }
    requires k_bound { k ≤ 4294967297 }
    ensures value { result ≡ level_words w * g + k }
    ensures upper_bound { result ≤ 300000000000 }
{
    (level_words(w) as usize) * (g as usize) + k
}

// The place of word k of node i.
fn node_place(i: u32, k: usize) -> usize
    requires { k ≤ 1 }
    ensures { result ≡ 2 * i + k }
{
    (Settings::NODE_WORDS as usize) * (i as usize) + k
}

// A reference stays the word that document 01 lays down, and is no enum: a cell's word is compared with it as it stands.
#[tactic(auto, unfolding(crate::specs::Memory::is_node))]
pub fn is_node(r: u32) -> bool
    ensures { result ≡ is_node r }
{
    r % 2 == 1
}

#[tactic(auto, unfolding(crate::specs::Memory::named))]
pub fn named(r: u32) -> u32
    ensures { result ≡ named r }
{
    r / 2
}

// A word is the reference to level g.
pub fn refers_to(r: u32, g: u32) -> bool
    ensures { result ≡ eqb r (level_ref g) }
{
    r as usize == 2 * (g as usize)
}

pub fn level_ref(g: u32) -> u32
    requires { g ≤ most_levels }
    ensures { result ≡ level_ref g }
{
    2 * g
}

pub fn node_ref(i: u32) -> u32
    requires { i ≤ max_nodes }
    ensures { result ≡ node_ref i }
{
    2 * i + 1
}

#[tactic(auto, unfolding(crate::specs::Memory::level_taken))]
pub fn level_taken(s: Settings, g: u32) -> bool
    ensures { result ≡ level_taken s g }
{
    g < s.levels_taken
}

#[tactic(auto, unfolding(crate::specs::Memory::node_taken))]
pub fn node_taken(s: Settings, i: u32) -> bool
    ensures { result ≡ node_taken s i }
{
    i < s.nodes_taken
}

// A reference names a taken node or level.
#[tactic(auto, unfolding(crate::specs::Memory::ref_taken, words::specs::Choice::pick))]
pub fn ref_taken(s: Settings, r: u32) -> bool
    ensures { result ≡ ref_taken s r }
{
    if is_node(r) {
        node_taken(s, named(r))
    } else {
        level_taken(s, named(r))
    }
}

// The words by their names, as the definitions have them, one line each: what they share is node_place and level_place.
#[tactic(auto, unfolding(crate::specs::Memory::pixel_at))]
pub fn pixel_at(nodes: &[u32], i: u32) -> u32
    ensures { result ≡ pixel_at nodes.now i }
{
    at(nodes, node_place(i, 0))
}

#[tactic(auto, unfolding(crate::specs::Memory::next_at))]
pub fn next_at(nodes: &[u32], i: u32) -> u32
    ensures { result ≡ next_at nodes.now i }
{
    at(nodes, node_place(i, 1))
}

#[tactic(auto, unfolding(crate::specs::Memory::previous_at))]
pub fn previous_at(w: u32, levels: &[u32], g: u32) -> u32
    requires { DigitWidth w }
    ensures { result ≡ previous_at w levels.now g }
{
    at(levels, level_place(w, g, 0))
}

#[tactic(auto, unfolding(crate::specs::Memory::depth_at))]
pub fn depth_at(w: u32, levels: &[u32], g: u32) -> u32
    requires { DigitWidth w }
    ensures { result ≡ depth_at w levels.now g }
{
    at(levels, level_place(w, g, 1))
}

#[tactic(auto, unfolding(crate::specs::Memory::entry_at))]
fn entry_at(w: u32, levels: &[u32], g: u32, e: u32) -> u32
    requires { DigitWidth w }
    ensures { result ≡ entry_at w levels.now g e }
{
    at(levels, level_place(w, g, 2 + (e as usize)))
}

// The entry that a pixel number picks in level g.
#[tactic(auto, unfolding(crate::specs::Memory::entry_cell))]
pub fn entry_cell(w: u32, levels: &[u32], g: u32, pixel: u32) -> Cell
    requires { DigitWidth w }
    ensures { result ≡ entry_cell w levels.now g pixel }
{
    Cell::Entry(g, digit(w, pixel, depth_at(w, levels, g)))
}

// The word in a cell.
#[tactic(auto, unfolding(crate::specs::Memory::cell_at))]
pub fn cell_at(w: u32, x: Cell, nodes: &[u32], levels: &[u32]) -> u32
    requires { DigitWidth w }
    ensures { result ≡ cell_at w (memory nodes.now levels.now) x }
{
    match x {
        Cell::Entry(g, e) => entry_at(w, levels, g, e),
        Cell::Next(i) => next_at(nodes, i),
    }
}

// Node i's next word is written.
pub fn set_next(nodes: &mut [u32], i: u32, v: u32)
    ensures { nodes.new ≡ set nodes.old (2 * i + 1) v }
{
    put(nodes, node_place(i, 1), v);
}

// A word is written to a cell.
#[tactic(auto, unfolding(crate::specs::Memory::set_cell))]
pub fn set_cell(w: u32, x: Cell, v: u32, nodes: &mut [u32], levels: &mut [u32])
    requires { DigitWidth w }
    ensures { memory nodes.new levels.new ≡ set_cell w (memory nodes.old levels.old) x v }
{
    match x {
        Cell::Entry(g, e) => put(levels, level_place(w, g, 2 + (e as usize)), v),
        Cell::Next(i) => set_next(nodes, i, v),
    }
}

// Cell x is exchanged from a to b: b is written only if it holds a. The word that it held.
#[tactic(auto, unfolding(crate::specs::Memory::exchange, words::specs::Choice::pick))]
pub fn exchange(w: u32, x: Cell, a: u32, b: u32, nodes: &mut [u32], levels: &mut [u32]) -> u32
    requires { DigitWidth w }
    ensures { exchanged result (memory nodes.new levels.new) ≡ exchange w (memory nodes.old levels.old) x a b }
{
    let word = cell_at(w, x, nodes, levels);
    if word == a {
        set_cell(w, x, b, nodes, levels);
    }
    word
}

// Node i gets its two words.
#[tactic(auto, unfolding(crate::specs::Memory::fill_node))]
pub fn fill_node(nodes: &mut [u32], i: u32, pixel: u32, next: u32)
    ensures { nodes.new ≡ fill_node nodes.old i pixel next }
{
    put(nodes, node_place(i, 0), pixel);
    put(nodes, node_place(i, 1), next);
}

// Level g gets its previous level and depth.
fn fill_head(w: u32, levels: &mut [u32], g: u32, previous: u32, depth: u32)
    requires { DigitWidth w }
    ensures { levels.new ≡ set (set levels.old (level_words w * g) previous) (level_words w * g + 1) depth }
{
    put(levels, level_place(w, g, 0), previous);
    put(levels, level_place(w, g, 1), depth);
}

// Level g gets its previous level and depth, and entries that refer to itself.
#[tactic(auto, unfolding(crate::specs::Memory::fill_level))]
pub fn fill_level(w: u32, levels: &mut [u32], g: u32, previous: u32, depth: u32)
    requires digit_width { DigitWidth w }
    requires g_le_most_levels { g ≤ most_levels }
    ensures { levels.new ≡ fill_level w levels.old g previous depth }
{
    fill_head(w, levels, g, previous, depth);
    fill_words(
        levels,
        level_place(w, g, 2),
        entries(w) as usize,
        level_ref(g),
    );
}
