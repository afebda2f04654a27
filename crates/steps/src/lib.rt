// What searching and moving do alike: changes of a head, the parts of question 6, going back, taking and closing with a level.
// Relies on areas for cells, on record for the head, on rules for the definitions.

#![tactic(auto)]

ghost use Rattle.std.specs.Prelude.{◌≡◌, ◌≤◌};
ghost use Rattle.words.specs.Digits.{DigitWidth};
ghost use Rattle.settings.specs.Sizes.{max_limit, most_depth, most_levels};
ghost use Rattle.settings.specs.Cut.{Sized};
ghost use Rattle.areas.specs.Memory.{memory, level_ref, depth_at, exchanged, exchange};
ghost use Rattle.rules.specs.Heads.{to, to_level, to_node, holding_node, holding_level, ended};
ghost use Rattle.rules.specs.Steps.{peeked, by_count, more, took_node, took_level};
ghost use Rattle.rules.specs.Asked.{in_hand, picks_in, pixel_fits, compares_ref, level_left, stands_at, stands_with, takes_level};
ghost use Rattle.steps.specs.Cut.{level_cut, level_no, level_counted, take_level_cut, walk_cut, back_cut};

use areas::{
    Cell, depth_at, exchange, fill_level, is_node, level_ref, level_taken, named, node_taken,
    pixel_at, previous_at, refers_to,
};
use record::{Head, Kind};
use settings::{Settings, last_depth, within};

#[tactic(auto, unfolding(rules::specs::Heads::to))]
pub fn to(k: Kind, h: Head) -> Head
    ensures { result ≡ to k h }
{
    Head { kind: k, ..h }
}

// The functions of a head differ in the fields that they set, by the definition of each; one with a closure would be longer than its update.
#[tactic(auto, unfolding(rules::specs::Heads::to_level))]
pub fn to_level(k: Kind, g: u32, h: Head) -> Head
    ensures { result ≡ to_level k g h }
{
    Head {
        kind: k,
        level: g,
        ..h
    }
}

#[tactic(auto, unfolding(rules::specs::Heads::to_node))]
pub fn to_node(k: Kind, i: u32, c: u32, h: Head) -> Head
    ensures { result ≡ to_node k i c h }
{
    Head {
        kind: k,
        node: i,
        count: c,
        ..h
    }
}

#[tactic(auto, unfolding(rules::specs::Heads::holding_node))]
pub fn holding_node(k: Kind, i: u32, h: Head) -> Head
    ensures { result ≡ holding_node k i h }
{
    Head {
        kind: k,
        held_node: i,
        ..h
    }
}

#[tactic(auto, unfolding(rules::specs::Heads::ended))]
pub fn ended(a: u32, i: u32, spare: u32, h: Head) -> Head
    ensures { result ≡ ended a i spare h }
{
    Head {
        kind: Kind::Idle,
        held_node: spare,
        answer: a,
        answer_node: i,
        ..h
    }
}

#[tactic(auto, unfolding(rules::specs::Steps::took_node))]
pub fn took_node(s: Settings) -> Settings
    requires { Sized s }
    ensures { result ≡ took_node s }
{
    Settings {
        nodes_taken: s.nodes_taken + 1,
        ..s
    }
}

// Question 6, in the parts that the kinds share.
#[tactic(auto, unfolding(rules::specs::Asked::in_hand, settings::specs::Sizes::within))]
pub fn in_hand(held: u32, taken: u32) -> bool
    ensures { result ≡ in_hand held taken }
{
    within(held, taken)
}

#[tactic(auto, unfolding(rules::specs::Asked::picks_in, words::specs::Choice::both))]
pub fn picks_in(s: Settings, g: u32, levels: &[u32]) -> bool
    requires { DigitWidth s.width }
    ensures { result ≡ picks_in s.width s g levels.now }
{
    level_taken(s, g) & (depth_at(s.width, levels, g) <= last_depth(s.width))
}

#[tactic(auto, unfolding(rules::specs::Asked::pixel_fits, words::specs::Choice::both))]
pub fn pixel_fits(s: Settings, i: u32, nodes: &[u32]) -> bool
    ensures { result ≡ pixel_fits s i nodes.now }
{
    node_taken(s, i) & (pixel_at(nodes, i) <= Settings::MAX_PIXEL)
}

#[tactic(auto, unfolding(rules::specs::Asked::compares_ref, words::specs::Choice::pick))]
pub fn compares_ref(s: Settings, word: u32, nodes: &[u32]) -> bool
    ensures { result ≡ compares_ref s word nodes.now }
{
    if is_node(word) {
        pixel_fits(s, named(word), nodes)
    } else {
        level_taken(s, named(word))
    }
}

// The next kind where the expected level stands in a cell, and the next kind otherwise.
#[tactic(auto, unfolding(rules::specs::Steps::peeked, rules::specs::Steps::expected, words::specs::Choice::pick))]
pub fn peeked(h: Head, word: u32, here: Kind, other: Kind) -> Head
    ensures { result ≡ peeked h word here other }
{
    let k = if refers_to(word, h.level) {
        here
    } else {
        other
    };
    to(k, h)
}

#[tactic(auto, unfolding(rules::specs::Heads::holding_level))]
pub fn holding_level(k: Kind, g: u32, h: Head) -> Head
    ensures { result ≡ holding_level k g h }
{
    Head {
        kind: k,
        held_level: g,
        ..h
    }
}

#[tactic(auto, unfolding(rules::specs::Steps::took_level))]
fn took_level(s: Settings) -> Settings
    requires { Sized s }
    ensures { result ≡ took_level s }
{
    Settings {
        levels_taken: s.levels_taken + 1,
        ..s
    }
}

// The next kind by the count at a node: below the limit, at the limit, past it.
#[tactic(auto, unfolding(rules::specs::Steps::by_count, words::specs::Choice::pick))]
pub fn by_count(s: Settings, c: u32, below: Kind, full: Kind, past: Kind) -> Kind
    ensures { result ≡ by_count s c below full past }
{
    if c < s.limit {
        below
    } else if c == s.limit {
        full
    } else {
        past
    }
}

// The count at the next node. Past the limit it stays at limit + 1.
#[tactic(auto, unfolding(rules::specs::Steps::more, words::specs::Choice::pick))]
pub fn more(s: Settings, c: u32) -> u32
    requires { s.limit ≤ max_limit }
    ensures { result ≡ more s c }
{
    c.min(s.limit) + 1
}

// Going back by previous words from level t: the level whose previous is `level`, or None where the way does not meet it. Each previous word on the way names a
// taken level, and at most as many are read as the last depth says.
#[tactic(auto, using(crate::proofs::Back::walk_met, crate::proofs::Back::walk_lost, crate::proofs::Back::walk_on))]
fn walk(w: u32, taken: u32, level: u32, t: u32, levels: &[u32]) -> Option<u32>
    requires { DigitWidth w }
    ensures { result ≡ walk_cut w taken level t levels.now }
{
    let mut at = t;
    for _ in 0..last_depth(w) {
        let p = previous_at(w, levels, at);
        if p == level {
            return Some(at);
        }
        if taken <= p {
            return None;
        }
        at = p;
    }
    None
}

// The same from the word that Follow or SetFollow met. From a node there is no way back to ask: Some(0).
// A call of its own: inlined, its loop keeps the functions above it from being inlined into the loop of a list.
#[inline(never)]
#[tactic(auto, unfolding(crate::specs::Cut::back_cut, words::specs::Choice::pick))]
pub fn way_back(w: u32, taken: u32, level: u32, word: u32, levels: &[u32]) -> Option<u32>
    requires { DigitWidth w }
    ensures { result ≡ back_cut w taken level word levels.now }
{
    if is_node(word) {
        Some(0)
    } else {
        walk(w, taken, level, named(word), levels)
    }
}

#[tactic(auto, unfolding(rules::specs::Asked::stands_at, words::specs::Choice::both))]
pub fn stands_at(s: Settings, h: Head) -> bool
    ensures { result ≡ stands_at s h }
{
    level_taken(s, h.level) & node_taken(s, h.node)
}

// A new level's depth is at most the last one, and a level is held or left.
#[tactic(auto, unfolding(rules::specs::Asked::level_left, words::specs::Choice::both, words::specs::Choice::pick))]
fn level_left(s: Settings, h: Head, levels: &[u32]) -> bool
    requires { Sized s }
    ensures { result ≡ level_left s.width s h levels.now }
{
    (depth_at(s.width, levels, h.level) < last_depth(s.width))
        & (h.held_level != 0 || s.levels_taken < s.level_count())
}

#[tactic(auto, unfolding(rules::specs::Asked::takes_level, rules::specs::Asked::spare, words::specs::Choice::both))]
pub fn takes_level(s: Settings, h: Head, levels: &[u32]) -> bool
    requires { Sized s }
    ensures { result ≡ takes_level s.width s h levels.now }
{
    level_taken(s, h.level) & (h.held_level <= s.levels_taken) & level_left(s, h, levels)
}

// Append, Close, SetClose: the level, R, and the node or level in hand.
#[tactic(auto, unfolding(rules::specs::Asked::stands_with, words::specs::Choice::both))]
pub fn stands_with(s: Settings, h: Head, held: u32, taken: u32) -> bool
    ensures { result ≡ stands_with s h held taken }
{
    stands_at(s, h) & in_hand(held, taken)
}

// Cell x is exchanged from level g to b. The word that it held.
pub fn exchange_from(w: u32, g: u32, x: Cell, b: u32, nodes: &mut [u32], levels: &mut [u32]) -> u32
    requires digit_width { DigitWidth w }
    requires g_le_most_levels { g ≤ most_levels }
    ensures { exchanged result (memory nodes.new levels.new) ≡ exchange w (memory nodes.old levels.old) x (level_ref g) b }
{
    exchange(w, x, level_ref(g), b, nodes, levels)
}

// The level that Level and SetLevel take: the spare one, else the next number.
#[tactic(auto, unfolding(crate::specs::Cut::level_no, words::specs::Choice::pick))]
fn level_number(taken: u32, held: u32) -> u32
    ensures { result ≡ level_no taken held }
{
    if held == 0 { taken } else { held - 1 }
}

// The settings once it is taken: the next number counts, a spare one was counted before.
#[tactic(auto, unfolding(crate::specs::Cut::level_counted, words::specs::Choice::pick))]
pub fn counted(s: Settings, held: u32) -> Settings
    requires { Sized s }
    ensures { result ≡ level_counted s held }
{
    if held == 0 { took_level(s) } else { s }
}

// A level is taken: the one of that number is filled, one deeper than `level`.
#[tactic(auto, unfolding(crate::specs::Cut::take_level_cut, crate::specs::Cut::level_no, words::specs::Choice::pick))]
pub fn take_level(w: u32, taken: u32, held: u32, level: u32, levels: &mut [u32]) -> u32
    requires digit_width { DigitWidth w }
    requires taken_le_most_levels { taken ≤ most_levels }
    requires held_le_most_levels { held ≤ most_levels }
    requires level_bound { depth_at w levels.old level ≤ most_depth }
    ensures { level_cut result levels.new ≡ take_level_cut w taken held level levels.old }
{
    let g = level_number(taken, held);
    fill_level(w, levels, g, level, depth_at(w, levels, level) + 1);
    g
}
