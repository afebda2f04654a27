// A worker: its record's head by value, with a method for each kind of turn of a search that hands back the advanced worker.
// Relies on steps for what searching and moving do alike, on areas for cells, on record for the head, on rules for the definitions.

#![tactic(auto)]

ghost use Rattle.std.specs.Prelude.{◌≡◌, true, false, [], Some, None, ◌≤◌, ◌-◌};
ghost use Rattle.rules.specs.Heads.{holding_level, ended};
ghost use Rattle.words.specs.Choice.{pick, both};
ghost use Rattle.words.specs.Digits.{DigitWidth};
ghost use Rattle.settings.specs.Sizes.{max_limit, max_nodes, most_depth, most_levels};
ghost use Rattle.settings.specs.Cut.{Sized};
ghost use Rattle.areas.specs.Memory.{Memory, memory, depth_at, ref_taken};
ghost use Rattle.rules.specs.Steps.{peeked, with_node, take_node, take_level, begins_move};
ghost use Rattle.rules.specs.Searching.{entry_of, ends_new, met_node, met, read_word, follow_word, look, take, put, read, tail, take_tail, append, level, close, follow, takes_next, viewed};
ghost use Rattle.rules.specs.Asked.{compares_ref, follows_ref, node_left, takes, tails, takes_level, looks, picks_with, puts, reads, appends, closes, follows};
ghost use Rattle.steps.specs.Tried.{tried, unless_six, unless_nine, exchange_tried};
ghost use Rattle.worker.specs.Tried.{done, turned, turned_of};
ghost use Rattle.worker.specs.Searching.{search_tried, view_entry, view_next};
ghost use Rattle.record.specs.Kinds.{kind_no};
ghost use Rattle.record.specs.Fits.{viewing};

use areas::{
    Cell, cell_at, entry_cell, fill_node, is_node, level_ref, level_taken, named, next_at,
    node_ref, pixel_at, ref_taken, refers_to,
};
use record::{Answer, Head, Kind};
use settings::{Refusal, Settings};
use steps::{
    by_count, compares_ref, counted, ended, exchange_from, holding_level, holding_node, in_hand,
    more, peeked, picks_in, stands_at, stands_with, take_level, takes_level, to_level, to_node,
    took_node, way_back,
};

// Document 01: "A worker's record goes into a turn and comes out of it."
#[derive(Clone, Copy)]
pub struct Worker {
    pub head: Head,
}

// What a turn that is done gives: its answer, settings, the advanced worker, and the level that a Move has begun to.
// "full", number 9, is an answer here and no refusal, since it ends the call.
#[derive(Clone, Copy)]
pub struct Turned {
    pub answer: Answer,
    pub settings: Settings,
    pub worker: Worker,
    pub child: Option<u32>,
}

// A turn, or the refusal by 6 that leaves everything.
type Outcome = Result<Turned, Refusal>;

fn answered(answer: Answer, settings: Settings, head: Head) -> Turned
    ensures { result ≡ turned_of answer settings head None }
{
    Turned {
        answer,
        settings,
        worker: Worker { head },
        child: None,
    }
}

fn going(s: Settings, h: Head) -> Turned
    ensures { result ≡ turned_of Answer.Open s h None }
{
    answered(Answer::Open, s, h)
}

// Take, TakeTail or Level comes next.
#[tactic(auto, unfolding(rules::specs::Searching::takes_next, rules::specs::Searching::takes_node, record::specs::Kinds::kind_no, words::specs::Choice::pick))]
fn takes_next(k: Kind) -> bool
    ensures { result ≡ takes_next k }
{
    matches!(k, Kind::Take | Kind::TakeTail | Kind::Level)
}

// The call goes on with the head h. A viewer's ends "absent" where a node or a level would be taken.
#[tactic(auto, unfolding(rules::specs::Searching::viewed, words::specs::Choice::pick, words::specs::Choice::both))]
fn viewed(views: bool, s: Settings, h: Head) -> Turned
    ensures { (m : Memory) → done result m ≡ tried 0 (viewed views s h m) }
{
    if views && takes_next(h.kind) {
        answered(Answer::Absent, s, ended(5, 0, h.held_node, h))
    } else {
        going(s, h)
    }
}

// Question 9: a node is spare or left.
#[tactic(auto, unfolding(rules::specs::Asked::node_left, words::specs::Choice::pick))]
fn node_left(s: Settings, h: Head) -> bool
    ensures { result ≡ node_left s h }
{
    h.held_node != 0 || s.nodes_taken < s.nodes
}

// K's entry in H.
#[tactic(auto, unfolding(rules::specs::Searching::entry_of))]
fn entry_of(w: u32, h: Head, levels: &[u32]) -> Cell
    requires { DigitWidth w }
    ensures { result ≡ entry_of w h levels.now }
{
    entry_cell(w, levels, h.level, h.pixel)
}

// Node i is filled, and in hand for the next kind.
#[tactic(auto, unfolding(rules::specs::Steps::with_node))]
fn with_node(k: Kind, s: Settings, h: Head, i: u32, nodes: &mut [u32], levels: &[u32]) -> Turned
    requires i_le_max_nodes { i ≤ max_nodes }
    requires level_le_most_levels { h.level ≤ most_levels }
    ensures { done result (memory nodes.new levels.now) ≡ tried 0 (with_node k s h i (memory nodes.old levels.now)) }
{
    fill_node(nodes, i, h.pixel, level_ref(h.level));
    going(s, holding_node(k, i + 1, h))
}

// The spare node is used, else the next number.
#[tactic(auto, unfolding(rules::specs::Steps::take_node, words::specs::Choice::pick))]
fn take_node(k: Kind, s: Settings, h: Head, nodes: &mut [u32], levels: &[u32]) -> Turned
    requires sized { Sized s }
    requires level_le_most_levels { h.level ≤ most_levels }
    requires held_node_bound { h.held_node ≤ max_nodes }
    ensures { done result (memory nodes.new levels.now) ≡ tried 0 (take_node k s h (memory nodes.old levels.now)) }
{
    if h.held_node == 0 {
        with_node(k, took_node(s), h, s.nodes_taken, nodes, levels)
    } else {
        with_node(k, s, h, h.held_node - 1, nodes, levels)
    }
}

// The node in hand is placed: the call ends "new".
fn ends_new(s: Settings, h: Head) -> Turned
    requires { 1 ≤ h.held_node }
    ensures { result ≡ turned_of (Answer.New (h.held_node - 1)) s (ended 1 (h.held_node - 1) 0 h) None }
{
    let n = h.held_node - 1;
    answered(Answer::New(n), s, ended(1, n, 0, h))
}

// The level in hand closes the chain: a Move of it begins.
fn begins_move(s: Settings, h: Head) -> Turned
    requires { 1 ≤ h.held_level }
    ensures { result ≡ turned_of Answer.Open s (holding_level Kind.ChainHead 0 h) (Some (h.held_level - 1)) }
{
    Turned {
        child: Some(h.held_level - 1),
        ..going(s, holding_level(Kind::ChainHead, 0, h))
    }
}

// A node was met: it has the call's pixel, or the walk goes on from it.
#[tactic(auto, unfolding(rules::specs::Searching::met_node, words::specs::Choice::pick))]
fn met_node(s: Settings, h: Head, c: u32, i: u32, nodes: &[u32], levels: &[u32]) -> Turned
    ensures { done result (memory nodes.now levels.now) ≡ tried 0 (met_node s h c i (memory nodes.now levels.now)) }
{
    if pixel_at(nodes, i) == h.pixel {
        answered(Answer::Found(i), s, ended(2, i, h.held_node, h))
    } else {
        going(s, to_node(Kind::Tail, i, c, h))
    }
}

// What Read and Follow do with the word that they met.
#[tactic(auto, unfolding(rules::specs::Searching::met, words::specs::Choice::pick))]
fn met(s: Settings, h: Head, c: u32, g: u32, word: u32, nodes: &[u32], levels: &[u32]) -> Turned
    ensures { done result (memory nodes.now levels.now) ≡ tried 0 (met s h c g word (memory nodes.now levels.now)) }
{
    if is_node(word) {
        met_node(s, h, c, named(word), nodes, levels)
    } else {
        going(s, to_level(Kind::Look, g, h))
    }
}

// Read's word: at a level, Look there.
#[tactic(auto, unfolding(rules::specs::Searching::read_word))]
fn read_word(s: Settings, h: Head, word: u32, nodes: &[u32], levels: &[u32]) -> Turned
    ensures { done result (memory nodes.now levels.now) ≡ tried 0 (read_word s h word (memory nodes.now levels.now)) }
{
    met(s, h, 1, named(word), word, nodes, levels)
}

// The word that Look or Tail read: question 6, `before` being what it asks besides the word, then the next kind, or a viewer's "absent".
#[tactic(auto, unfolding(steps::specs::Tried::unless_six, words::specs::Choice::pick, words::specs::Choice::both))]
fn peek_met(
    views: bool,
    before: bool,
    s: Settings,
    h: Head,
    word: u32,
    here: Kind,
    other: Kind,
) -> Outcome
    ensures { (m : Memory) → turned s h result m ≡ unless_six (both before (ref_taken s word)) s h [] m (tried 0 (viewed views s (peeked h word here other) m)) }
{
    if before && ref_taken(s, word) {
        Ok(viewed(views, s, peeked(h, word, here, other)))
    } else {
        Err(Refusal::Memory)
    }
}

// The word that Read or a failed Put met: question 6, then what Read does with it.
#[tactic(auto, unfolding(steps::specs::Tried::unless_six, words::specs::Choice::pick, words::specs::Choice::both))]
fn read_met(before: bool, s: Settings, h: Head, word: u32, nodes: &[u32], levels: &[u32]) -> Outcome
    ensures { turned s h result (memory nodes.now levels.now) ≡ unless_six (both before (compares_ref s word nodes.now)) s h [] (memory nodes.now levels.now) (tried 0 (read_word s h word (memory nodes.now levels.now))) }
{
    if before && compares_ref(s, word, nodes) {
        Ok(read_word(s, h, word, nodes, levels))
    } else {
        Err(Refusal::Memory)
    }
}

// The word that Follow, or a failed Append or Close met: question 6, then what Follow does with it. At a level, Look at the one on the way to it whose
// previous is H.
#[tactic(auto, using(crate::proofs::Cells::follow_is, steps::proofs::Back::meets_some, steps::proofs::Back::meets_none), unfolding(rules::specs::Asked::follows_ref, steps::specs::Tried::unless_six, words::specs::Choice::pick, words::specs::Choice::both))]
fn follow_met(
    before: bool,
    s: Settings,
    h: Head,
    word: u32,
    nodes: &[u32],
    levels: &[u32],
) -> Outcome
    requires digit_width { DigitWidth s.width }
    requires limit_le_max_limit { s.limit ≤ max_limit }
    ensures { turned s h result (memory nodes.now levels.now) ≡ unless_six (both before (follows_ref s.width s h word (memory nodes.now levels.now))) s h [] (memory nodes.now levels.now) (tried 0 (follow_word s.width s h word (memory nodes.now levels.now))) }
{
    match way_back(s.width, s.levels_taken, h.level, word, levels) {
        Some(child) if before && compares_ref(s, word, nodes) => {
            Ok(met(s, h, more(s, h.count), child, word, nodes, levels))
        }
        _ => Err(Refusal::Memory),
    }
}

// Put, Append and Close have a function each: one that took what is done and what is failed as closures would be longer than its three ifs.

// The word that Put's exchange met. H: the node is placed. Another: as a failed Put.
#[tactic(auto, unfolding(rules::specs::Steps::expected, words::specs::Choice::pick, words::specs::Choice::both))]
fn put_met(s: Settings, h: Head, word: u32, nodes: &[u32], levels: &[u32]) -> Outcome
    requires { 1 ≤ h.held_node }
    ensures { turned s h result (memory nodes.now levels.now) ≡ exchange_tried s h [] word (memory nodes.now levels.now) (ends_new s h (memory nodes.now levels.now)) (compares_ref s word nodes.now) (read_word s h word (memory nodes.now levels.now)) }
{
    if refers_to(word, h.level) {
        Ok(ends_new(s, h))
    } else {
        read_met(true, s, h, word, nodes, levels)
    }
}

// The word that Append's exchange met. H: the node is placed. Another: as a failed Append.
#[tactic(auto, unfolding(rules::specs::Steps::expected, words::specs::Choice::pick, words::specs::Choice::both))]
fn append_met(s: Settings, h: Head, word: u32, nodes: &[u32], levels: &[u32]) -> Outcome
    requires digit_width { DigitWidth s.width }
    requires limit_le_max_limit { s.limit ≤ max_limit }
    requires bound { 1 ≤ h.held_node }
    ensures { turned s h result (memory nodes.now levels.now) ≡ exchange_tried s h [] word (memory nodes.now levels.now) (ends_new s h (memory nodes.now levels.now)) (follows_ref s.width s h word (memory nodes.now levels.now)) (follow_word s.width s h word (memory nodes.now levels.now)) }
{
    if refers_to(word, h.level) {
        Ok(ends_new(s, h))
    } else {
        follow_met(true, s, h, word, nodes, levels)
    }
}

// The word that Close's exchange met. H: a Move to the level in hand begins. Another: as a failed Close.
#[tactic(auto, unfolding(rules::specs::Heads::holding_level, rules::specs::Steps::expected, words::specs::Choice::pick, words::specs::Choice::both))]
fn close_met(s: Settings, h: Head, word: u32, nodes: &[u32], levels: &[u32]) -> Outcome
    requires digit_width { DigitWidth s.width }
    requires limit_le_max_limit { s.limit ≤ max_limit }
    requires bound { 1 ≤ h.held_level }
    ensures { turned s h result (memory nodes.now levels.now) ≡ exchange_tried s h [] word (memory nodes.now levels.now) (begins_move s h [] (memory nodes.now levels.now)) (follows_ref s.width s h word (memory nodes.now levels.now)) (follow_word s.width s h word (memory nodes.now levels.now)) }
{
    if refers_to(word, h.level) {
        Ok(begins_move(s, h))
    } else {
        follow_met(true, s, h, word, nodes, levels)
    }
}

// Level: a level is taken, and in hand for Close.
#[tactic(auto, unfolding(rules::specs::Steps::take_level, rules::specs::Steps::with_level, steps::specs::Cut::take_level_cut, steps::specs::Cut::level_counted, steps::specs::Cut::level_no, words::specs::Choice::pick))]
fn new_level(s: Settings, h: Head, nodes: &[u32], levels: &mut [u32]) -> Turned
    requires sized { Sized s }
    requires held_level_bound { h.held_level ≤ most_levels }
    requires level_bound { depth_at s.width levels.old h.level ≤ most_depth }
    ensures { done result (memory nodes.now levels.new) ≡ tried 0 (take_level s.width Kind.Close s h [] (memory nodes.now levels.old)) }
{
    let g = take_level(s.width, s.levels_taken, h.held_level, h.level, levels);
    going(
        counted(s, h.held_level),
        holding_level(Kind::Close, g + 1, h),
    )
}

// Parts of question 6 that searching has alone.

#[tactic(auto, unfolding(rules::specs::Asked::takes, rules::specs::Asked::spare, words::specs::Choice::both))]
fn takes(s: Settings, h: Head) -> bool
    ensures { result ≡ takes s h }
{
    level_taken(s, h.level) && h.held_node <= s.nodes_taken
}

#[tactic(auto, unfolding(rules::specs::Asked::picks_with, words::specs::Choice::both))]
fn picks_with(s: Settings, h: Head, levels: &[u32]) -> bool
    requires { DigitWidth s.width }
    ensures { result ≡ picks_with s.width s h levels.now }
{
    picks_in(s, h.level, levels) && in_hand(h.held_node, s.nodes_taken)
}

impl Worker {
    // Take and TakeTail, with the kind that comes next.
    #[tactic(auto, using(crate::proofs::Asked::takes_level_lem, crate::proofs::Asked::takes_held), unfolding(steps::specs::Tried::unless_six, steps::specs::Tried::unless_nine, words::specs::Choice::pick))]
    fn taking(self, k: Kind, s: Settings, nodes: &mut [u32], levels: &[u32]) -> Outcome
        requires { Sized s }
        ensures { turned s self.head result (memory nodes.new levels.now) ≡ unless_six (takes s self.head) s self.head [] (memory nodes.old levels.now) (unless_nine (node_left s self.head) s self.head (memory nodes.old levels.now) (take_node k s self.head (memory nodes.old levels.now))) }
    {
        let h = self.head;
        if !takes(s, h) {
            Err(Refusal::Memory)
        } else if node_left(s, h) {
            Ok(take_node(k, s, h, nodes, levels))
        } else {
            Ok(answered(Answer::Full, s, ended(3, 0, h.held_node, h)))
        }
    }

    // Look: read K's entry.
    #[tactic(auto, unfolding(rules::specs::Asked::looks, rules::specs::Asked::reads_ref, rules::specs::Searching::look))]
    pub fn look(self, s: Settings, nodes: &[u32], levels: &[u32]) -> Outcome
        requires { DigitWidth s.width }
        ensures { turned s self.head result (memory nodes.now levels.now) ≡ unless_six (looks s.width s self.head (memory nodes.now levels.now)) s self.head [] (memory nodes.now levels.now) (tried 0 (look s.width false s self.head (memory nodes.now levels.now))) }
    {
        let h = self.head;
        let word = cell_at(s.width, entry_of(s.width, h, levels), nodes, levels);
        let before = picks_in(s, h.level, levels);
        peek_met(false, before, s, h, word, Kind::Take, Kind::Read)
    }

    // Take: use the spare node, else the next number, else the call ends "full".
    #[tactic(auto, unfolding(rules::specs::Searching::take))]
    pub fn take(self, s: Settings, nodes: &mut [u32], levels: &[u32]) -> Outcome
        requires { Sized s }
        ensures { turned s self.head result (memory nodes.new levels.now) ≡ unless_six (takes s self.head) s self.head [] (memory nodes.old levels.now) (unless_nine (node_left s self.head) s self.head (memory nodes.old levels.now) (take s self.head (memory nodes.old levels.now))) }
    {
        self.taking(Kind::Put, s, nodes, levels)
    }

    // Put: exchange the entry from H to the node.
    #[tactic(auto, using(crate::proofs::Cells::put_tried, steps::proofs::Asked::picks_most, steps::proofs::Asked::picks_one, steps::proofs::Asked::picks_less), unfolding(rules::specs::Asked::puts, steps::specs::Tried::unless_six, words::specs::Choice::pick, words::specs::Choice::both))]
    pub fn put(self, s: Settings, nodes: &mut [u32], levels: &mut [u32]) -> Outcome
        requires { Sized s }
        ensures { turned s self.head result (memory nodes.new levels.new) ≡ unless_six (puts s.width s self.head (memory nodes.old levels.old)) s self.head [] (memory nodes.old levels.old) (tried 0 (put s.width s self.head (memory nodes.old levels.old))) }
    {
        let h = self.head;
        if picks_with(s, h, levels) {
            let x = entry_of(s.width, h, levels);
            let n = node_ref(h.held_node - 1);
            let word = exchange_from(s.width, h.level, x, n, nodes, levels);
            put_met(s, h, word, nodes, levels)
        } else {
            Err(Refusal::Memory)
        }
    }

    // Read: read the entry again.
    #[tactic(auto, unfolding(rules::specs::Asked::reads, rules::specs::Searching::read))]
    pub fn read(self, s: Settings, nodes: &[u32], levels: &[u32]) -> Outcome
        requires { DigitWidth s.width }
        ensures { turned s self.head result (memory nodes.now levels.now) ≡ unless_six (reads s.width s self.head (memory nodes.now levels.now)) s self.head [] (memory nodes.now levels.now) (tried 0 (read s.width s self.head (memory nodes.now levels.now))) }
    {
        let h = self.head;
        let word = cell_at(s.width, entry_of(s.width, h, levels), nodes, levels);
        let before = picks_in(s, h.level, levels);
        read_met(before, s, h, word, nodes, levels)
    }

    // Tail: read R's next.
    #[tactic(auto, unfolding(rules::specs::Asked::tails, rules::specs::Searching::tail))]
    pub fn tail(self, s: Settings, nodes: &[u32], levels: &[u32]) -> Outcome
        ensures { turned s self.head result (memory nodes.now levels.now) ≡ unless_six (tails s self.head nodes.now) s self.head [] (memory nodes.now levels.now) (tried 0 (tail s.width false s self.head (memory nodes.now levels.now))) }
    {
        let h = self.head;
        let k = by_count(s, h.count, Kind::TakeTail, Kind::Level, Kind::Follow);
        let word = next_at(nodes, h.node);
        peek_met(false, stands_at(s, h), s, h, word, k, Kind::Follow)
    }

    // TakeTail: as Take, for R's next.
    #[tactic(auto, unfolding(rules::specs::Searching::take_tail))]
    pub fn take_tail(self, s: Settings, nodes: &mut [u32], levels: &[u32]) -> Outcome
        requires { Sized s }
        ensures { turned s self.head result (memory nodes.new levels.now) ≡ unless_six (takes s self.head) s self.head [] (memory nodes.old levels.now) (unless_nine (node_left s self.head) s self.head (memory nodes.old levels.now) (take_tail s self.head (memory nodes.old levels.now))) }
    {
        self.taking(Kind::Append, s, nodes, levels)
    }

    // Append: exchange R's next from H to the node.
    #[tactic(auto, using(crate::proofs::Cells::append_tried, steps::proofs::Asked::stands_most, steps::proofs::Asked::node_one, steps::proofs::Asked::node_less), unfolding(rules::specs::Asked::appends, steps::specs::Tried::unless_six, words::specs::Choice::pick, words::specs::Choice::both))]
    pub fn append(self, s: Settings, nodes: &mut [u32], levels: &mut [u32]) -> Outcome
        requires { Sized s }
        ensures { turned s self.head result (memory nodes.new levels.new) ≡ unless_six (appends s.width s self.head (memory nodes.old levels.old)) s self.head [] (memory nodes.old levels.old) (tried 0 (append s.width s self.head (memory nodes.old levels.old))) }
    {
        let h = self.head;
        if stands_with(s, h, h.held_node, s.nodes_taken) {
            let n = node_ref(h.held_node - 1);
            let word = exchange_from(s.width, h.level, Cell::Next(h.node), n, nodes, levels);
            append_met(s, h, word, nodes, levels)
        } else {
            Err(Refusal::Memory)
        }
    }

    // Level: use the spare level, else the next number.
    #[tactic(auto, using(steps::proofs::Asked::takes_held_level, steps::proofs::Asked::takes_deep), unfolding(steps::specs::Tried::unless_six, rules::specs::Searching::level, words::specs::Choice::pick))]
    pub fn level(self, s: Settings, nodes: &[u32], levels: &mut [u32]) -> Outcome
        requires { Sized s }
        ensures { turned s self.head result (memory nodes.now levels.new) ≡ unless_six (takes_level s.width s self.head levels.old) s self.head [] (memory nodes.now levels.old) (tried 0 (level s.width s self.head (memory nodes.now levels.old))) }
    {
        let h = self.head;
        if takes_level(s, h, levels) {
            Ok(new_level(s, h, nodes, levels))
        } else {
            Err(Refusal::Memory)
        }
    }

    // Close: exchange R's next from H to the level in hand.
    #[tactic(auto, using(crate::proofs::Cells::close_tried, steps::proofs::Asked::stands_most, steps::proofs::Asked::level_one, steps::proofs::Asked::level_less), unfolding(rules::specs::Asked::closes, steps::specs::Tried::unless_six, words::specs::Choice::pick, words::specs::Choice::both))]
    pub fn close(self, s: Settings, nodes: &mut [u32], levels: &mut [u32]) -> Outcome
        requires { Sized s }
        ensures { turned s self.head result (memory nodes.new levels.new) ≡ unless_six (closes s.width s self.head (memory nodes.old levels.old)) s self.head [] (memory nodes.old levels.old) (tried 0 (close s.width s self.head (memory nodes.old levels.old))) }
    {
        let h = self.head;
        if stands_with(s, h, h.held_level, s.levels_taken) {
            let g = level_ref(h.held_level - 1);
            let word = exchange_from(s.width, h.level, Cell::Next(h.node), g, nodes, levels);
            close_met(s, h, word, nodes, levels)
        } else {
            Err(Refusal::Memory)
        }
    }

    // Follow: read R's next again.
    #[tactic(auto, unfolding(rules::specs::Asked::follows, rules::specs::Searching::follow))]
    pub fn follow(self, s: Settings, nodes: &[u32], levels: &[u32]) -> Outcome
        requires { Sized s }
        ensures { turned s self.head result (memory nodes.now levels.now) ≡ unless_six (follows s.width s self.head (memory nodes.now levels.now)) s self.head [] (memory nodes.now levels.now) (tried 0 (follow s.width s self.head (memory nodes.now levels.now))) }
    {
        let h = self.head;
        let word = next_at(nodes, h.node);
        follow_met(stands_at(s, h), s, h, word, nodes, levels)
    }

    // A viewer's Look, or else its Read: K's entry is read. The compiler has the turns of the other workers inside the loop of a list. A viewer's are apart: where
    // they call `read` and `follow` too, a turn without viewers takes 7 to 25 % more instructions. A bool says which of two, since only the last call differs.
    #[tactic(auto, unfolding(crate::specs::Searching::view_entry, rules::specs::Asked::looks, rules::specs::Asked::reads_ref, rules::specs::Asked::reads, rules::specs::Searching::look, rules::specs::Searching::read, words::specs::Choice::pick))]
    fn view_entry(self, peeks: bool, s: Settings, nodes: &[u32], levels: &[u32]) -> Outcome
        requires { DigitWidth s.width }
        ensures { turned s self.head result (memory nodes.now levels.now) ≡ view_entry s.width peeks s self.head (memory nodes.now levels.now) }
    {
        let h = self.head;
        let word = cell_at(s.width, entry_of(s.width, h, levels), nodes, levels);
        let before = picks_in(s, h.level, levels);
        if peeks {
            peek_met(true, before, s, h, word, Kind::Take, Kind::Read)
        } else {
            read_met(before, s, h, word, nodes, levels)
        }
    }

    // A viewer's Tail, or else its Follow: R's next is read.
    #[tactic(auto, unfolding(crate::specs::Searching::view_next, rules::specs::Asked::tails, rules::specs::Asked::follows, rules::specs::Searching::tail, rules::specs::Searching::follow, words::specs::Choice::pick))]
    fn view_next(self, peeks: bool, s: Settings, nodes: &[u32], levels: &[u32]) -> Outcome
        requires digit_width { DigitWidth s.width }
        requires limit_le_max_limit { s.limit ≤ max_limit }
        ensures { turned s self.head result (memory nodes.now levels.now) ≡ view_next s.width peeks s self.head (memory nodes.now levels.now) }
    {
        let h = self.head;
        let word = next_at(nodes, h.node);
        if peeks {
            let k = by_count(s, h.count, Kind::TakeTail, Kind::Level, Kind::Follow);
            peek_met(true, stands_at(s, h), s, h, word, k, Kind::Follow)
        } else {
            follow_met(stands_at(s, h), s, h, word, nodes, levels)
        }
    }

    // One turn of a viewer, by its kind. Another kind is none of a viewer's.
    #[tactic(auto, using(crate::proofs::Turns::not_viewing), unfolding(crate::specs::Searching::search_tried, crate::specs::Searching::is_searching, crate::specs::Searching::view_entry, crate::specs::Searching::view_next, rules::specs::Asked::reads_by, rules::specs::Acts::act_by, rules::specs::Searching::takes_node, record::specs::Kinds::kind_no, steps::specs::Tried::unless_nine, words::specs::Choice::pick, words::specs::Choice::both))]
    pub fn view(self, s: Settings, nodes: &[u32], levels: &[u32]) -> Outcome
        requires sized { Sized s }
        requires kind_value { viewing (kind_no self.head.kind) ≡ true }
        ensures { turned s self.head result (memory nodes.now levels.now) ≡ search_tried self.head.kind s.width true s self.head (memory nodes.now levels.now) }
    {
        let h = self.head;
        match h.kind {
            Kind::Look => self.view_entry(true, s, nodes, levels),
            Kind::Read => self.view_entry(false, s, nodes, levels),
            Kind::Tail => self.view_next(true, s, nodes, levels),
            Kind::Follow => self.view_next(false, s, nodes, levels),
            _ => Err(Refusal::Memory),
        }
    }

    // One turn of a search of a worker that places, by its kind. Another kind is none of a search.
    #[tactic(auto, unfolding(crate::specs::Searching::search_tried, crate::specs::Searching::is_searching, rules::specs::Asked::reads_by, rules::specs::Acts::act_by, rules::specs::Searching::takes_node, record::specs::Kinds::kind_no, steps::specs::Tried::unless_nine, words::specs::Choice::pick, words::specs::Choice::both))]
    pub fn turn(self, s: Settings, nodes: &mut [u32], levels: &mut [u32]) -> Outcome
        requires { Sized s }
        ensures { turned s self.head result (memory nodes.new levels.new) ≡ search_tried self.head.kind s.width false s self.head (memory nodes.old levels.old) }
    {
        let h = self.head;
        match h.kind {
            Kind::Look => self.look(s, nodes, levels),
            Kind::Take => self.take(s, nodes, levels),
            Kind::Put => self.put(s, nodes, levels),
            Kind::Read => self.read(s, nodes, levels),
            Kind::Tail => self.tail(s, nodes, levels),
            Kind::TakeTail => self.take_tail(s, nodes, levels),
            Kind::Append => self.append(s, nodes, levels),
            Kind::Level => self.level(s, nodes, levels),
            Kind::Close => self.close(s, nodes, levels),
            Kind::Follow => self.follow(s, nodes, levels),
            _ => Err(Refusal::Memory),
        }
    }
}
