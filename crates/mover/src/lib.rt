// A moving worker by value: its head, of its innermost Move what a turn needs, the last node of the Move around that; a method for each moving kind.
// Relies on steps for what searching and moving do alike, on rules for the definitions.

#![tactic(auto)]

ghost use Rattle.std.specs.Prelude.{Ok, true, false, ◌≡◌, ◌∷◌, ◌+◌, ◌*◌, ◌-◌, ◌≤◌, ◌<◌, length, get_or};
ghost use Rattle.words.specs.Choice.{both};
ghost use Rattle.words.specs.Digits.{DigitWidth};
ghost use Rattle.settings.specs.Sizes.{max_limit, most_depth, move_words, worker_words};
ghost use Rattle.settings.specs.Cut.{Sized};
ghost use Rattle.areas.specs.Memory.{memory, next_at, node_taken};
ghost use Rattle.record.specs.Layout.{moves_at, move_at};
ghost use Rattle.rules.specs.Heads.{last_node};
ghost use Rattle.rules.specs.Moving.{chain_head, chain_next, set_next, set_look, set_put, set_read, set_tail, set_append, set_level, set_close, set_follow, move_end, set_cell_of};
ghost use Rattle.rules.specs.Asked.{tails, takes_level, chain_heads, chain_nexts, set_nexts, stands_setting, set_entry, set_puts, set_looks, set_appends, set_closes, set_follows, move_ends, reads_by};
ghost use Rattle.rules.specs.Acts.{act_by};
ghost use Rattle.mover.specs.Cut.{remember_in, forget_in, room_in, stays, refuses, key_cut, home_cut, key_fits_cut, picks_home_cut, word_asked, move_ends_cut, last_head, word_head, word_inner, met_head, set_done, peek_met, read_met, follow_met, put_met, next_met, begun_cut, end_head, ends, is_moving};
ghost use Rattle.mover.specs.Words.{last_at, inner_at, outer_at, mover_at, last_to, inner_on, head_to, inner_to, mover_to};
ghost use Rattle.mover.specs.Moved.{gave, Gives};

use areas::{
    Cell, cell_at, entry_cell, is_node, level_ref, level_taken, named, next_at, node_ref,
    node_taken, pixel_at, ref_taken, refers_to, set_cell, set_next,
};
use record::{Head, Kind, Move, move_place, moves_at, worker_place};
use settings::{Refusal, Settings, last_depth};
use steps::{
    by_count, counted, exchange_from, holding_level, more, peeked, picks_in, pixel_fits, stands_at,
    stands_with, take_level, takes_level, to, to_level, to_node, way_back,
};
use words::{at, copy_in, put};

// Of a Move: the level whose chain moves, the level that it moves to, how many nodes it remembers, and the last of them.
#[derive(Clone, Copy)]
pub struct Inner {
    pub home: u32,
    pub child: u32,
    pub count: u32,
    pub last: u32,
}

// The head, the number of Moves, the innermost of them, and the last node of the Move around it (0: none, no Option, since `moves` says whether there is one).
#[derive(Clone, Copy)]
pub struct Mover {
    pub head: Head,
    pub moves: u32,
    pub inner: Inner,
    pub outer: u32,
}

// What a moving turn that is done gives: settings and the advanced mover; its call is open.
// One Move more: the innermost is the new one. One less: the innermost has ended.
#[derive(Clone, Copy)]
pub struct Moved {
    pub settings: Settings,
    pub mover: Mover,
}

// A turn, or the refusal by 6 that leaves everything.
type Outcome = Result<Moved, Refusal>;

// The node that the Move at place p remembered last.
#[tactic(auto, unfolding(crate::specs::Words::last_at))]
fn last_at(words: &[u32], p: usize) -> u32
    requires { p ≤ 1200000000000 }
    ensures { result ≡ last_at words.now p }
{
    let i = at(words, p + 2).saturating_sub(1) as usize;
    at(words, p + 3 + i)
}

// One node more is remembered.
#[tactic(auto, unfolding(crate::specs::Cut::remember_in))]
fn remember(i: u32, v: Inner) -> Inner
    requires { v.count < max_limit }
    ensures { result ≡ remember_in i v }
{
    Inner {
        count: v.count + 1,
        last: i,
        ..v
    }
}

// The last node is forgotten. The one before it is read in the next turn.
#[tactic(auto, unfolding(crate::specs::Cut::forget_in))]
fn forget(v: Inner) -> Inner
    ensures { result ≡ forget_in v }
{
    Inner {
        count: v.count.saturating_sub(1),
        ..v
    }
}

// The parts of question 6 that moving has alone.

// A node read from a chain has room among those remembered.
#[tactic(auto, unfolding(crate::specs::Cut::room_in, words::specs::Choice::pick))]
fn room(s: Settings, v: Inner, word: u32) -> bool
    ensures { result ≡ room_in s v word }
{
    !is_node(word) | (v.count < s.limit)
}

#[tactic(auto, unfolding(crate::specs::Cut::word_asked, words::specs::Choice::both))]
fn word_asked(s: Settings, v: Inner, word: u32) -> bool
    ensures { result ≡ word_asked s v word }
{
    ref_taken(s, word) & room(s, v, word)
}

#[tactic(auto, unfolding(words::specs::Choice::both))]
fn chain_nexts(s: Settings, v: Inner, word: u32) -> bool
    ensures { result ≡ both (node_taken s v.last) (word_asked s v word) }
{
    node_taken(s, v.last) & word_asked(s, v, word)
}

// N is node n, the last one remembered.
#[tactic(auto, unfolding(rules::specs::Asked::set_nexts, words::specs::Choice::both))]
fn set_nexts(s: Settings, h: Head, n: u32) -> bool
    ensures { result ≡ set_nexts s h n }
{
    node_taken(s, n) & level_taken(s, h.level)
}

#[tactic(auto, unfolding(rules::specs::Asked::set_entry, words::specs::Choice::both))]
fn set_entry(s: Settings, h: Head, n: u32, nodes: &[u32], levels: &[u32]) -> bool
    requires { DigitWidth s.width }
    ensures { result ≡ set_entry s.width s h n (memory nodes.now levels.now) }
{
    picks_in(s, h.level, levels) & pixel_fits(s, n, nodes)
}

// The entry of N in the level that it is set into.
#[tactic(auto, unfolding(rules::specs::Moving::set_cell_of))]
fn set_cell_of(w: u32, h: Head, n: u32, nodes: &[u32], levels: &[u32]) -> Cell
    requires { DigitWidth w }
    ensures { result ≡ set_cell_of w h n (memory nodes.now levels.now) }
{
    entry_cell(w, levels, h.level, pixel_at(nodes, n))
}

#[tactic(auto, unfolding(rules::specs::Asked::stands_setting, words::specs::Choice::both))]
fn stands_setting(s: Settings, h: Head, n: u32) -> bool
    ensures { result ≡ stands_setting s h n }
{
    stands_at(s, h) & node_taken(s, n)
}

// From the last to the first, each node is set. Then the entry in H is written.
#[tactic(auto, unfolding(crate::specs::Cut::last_head, words::specs::Choice::pick))]
fn last_head(h: Head, v: Inner) -> Head
    ensures { result ≡ last_head h v }
{
    if v.count == 0 {
        to(Kind::MoveEnd, h)
    } else {
        to_level(Kind::SetNext, v.child, h)
    }
}

// What SetRead and SetFollow do with the word that they met: c is the count at a node, g the level to set N into.
#[tactic(auto, unfolding(crate::specs::Cut::met_head, words::specs::Choice::pick))]
fn met_head(h: Head, c: u32, g: u32, word: u32) -> Head
    ensures { result ≡ met_head h c g word }
{
    if is_node(word) {
        to_node(Kind::SetTail, named(word), c, h)
    } else {
        to_level(Kind::SetNext, g, h)
    }
}

// The last node of the Move around Move n - 1 of worker i, 0 where there is none.
#[tactic(auto, unfolding(crate::specs::Words::outer_at, words::specs::Choice::pick))]
fn outer_at(words: &[u32], i: u32, n: u32) -> u32
    ensures { result ≡ outer_at words.now i n }
{
    if n <= 1 {
        0
    } else {
        last_at(words, move_place(i, n - 2))
    }
}

// The words of the head that a moving turn can change, and the number of Moves.
#[tactic(auto, unfolding(crate::specs::Words::head_to))]
fn store_head(h: Head, moves: u32, words: &mut [u32], i: u32)
    ensures { words.new ≡ head_to h moves i words.old }
{
    let p = worker_place(i);
    let b = [h.level, h.node, h.count];
    put(words, p, h.kind.into());
    copy_in(words, p + 2, &b);
    put(words, p + 6, h.held_level);
    put(words, p + 9, moves);
}

impl Inner {
    // What a turn needs of the Move at place p, whose words lie inside those of its worker: they are read without a test.
    #[tactic(auto, unfolding(crate::specs::Words::inner_at, crate::specs::Words::last_at))]
    fn load(words: &[u32], p: usize) -> Self
        requires move_words_in_bounds { p + move_words ≤ length words.now }
        requires p_bound { get_or words.now (p + 2) 0 ≤ max_limit }
        ensures { result ≡ inner_at words.now p }
    {
        let count = words[p + 2];
        Self {
            home: words[p],
            child: words[p + 1],
            count,
            last: words[p + 3 + (count.saturating_sub(1) as usize)],
        }
    }

    // A node that has been remembered in this turn is written.
    #[tactic(auto, unfolding(crate::specs::Words::last_to, words::specs::Choice::pick))]
    fn store_last(self, words: &mut [u32], p: usize)
        requires { p + move_words ≤ length words.old }
        ensures { words.new ≡ last_to self p words.old }
    {
        if words[p + 2] < self.count {
            put(words, p + 2 + (self.count as usize), self.last);
        }
    }

    // What a turn can change of the Move at place p: how many nodes it remembers, and the last of them where that is one more.
    #[tactic(auto, unfolding(crate::specs::Words::inner_on))]
    fn store(self, words: &mut [u32], p: usize)
        requires { p + move_words ≤ length words.old }
        ensures { words.new ≡ inner_on self p words.old }
    {
        self.store_last(words, p);
        words[p + 2] = self.count;
    }
}

impl Mover {
    // The mover of worker i with the head h, as its words say.
    #[tactic(auto, unfolding(crate::specs::Words::mover_at, record::specs::Layout::move_at, record::specs::Layout::move_from, record::specs::Layout::move_place, record::specs::Layout::worker_place))]
    pub fn load(words: &[u32], i: u32, h: Head) -> Self
        requires worker_words_in_bounds { worker_words * i + worker_words ≤ length words.now }
        requires i_bound { moves_at words.now i ≤ most_depth }
        requires i_bound_2 { (move_at words.now i (moves_at words.now i - 1)).count ≤ max_limit }
        ensures { result ≡ mover_at words.now i h }
    {
        let moves = moves_at(words, i);
        Self {
            head: h,
            moves,
            inner: Inner::load(words, move_place(i, moves.saturating_sub(1))),
            outer: outer_at(words, i, moves),
        }
    }

    // The innermost Move is written: what changed of it, or all of one that has begun. Where one has ended, the one around it stands in the words.
    #[tactic(auto, unfolding(crate::specs::Words::inner_to, record::specs::Layout::move_place, record::specs::Layout::worker_place, words::specs::Choice::pick))]
    fn store_inner(self, before: u32, words: &mut [u32], i: u32)
        requires worker_words_in_bounds { worker_words * i + worker_words ≤ length words.old }
        requires before_le_most_depth { before ≤ most_depth }
        ensures { words.new ≡ inner_to before self i words.old }
    {
        let n = self.moves;
        let v = self.inner;
        if n == before {
            v.store(words, move_place(i, n.saturating_sub(1)));
        } else if before < n {
            Move::fresh(v.home, v.child).store(words, i, n.saturating_sub(1));
        }
    }

    // What a turn can change is written to the words of worker i.
    #[tactic(auto, unfolding(crate::specs::Words::mover_to))]
    pub fn store(self, words: &mut [u32], i: u32)
        requires worker_words_in_bounds { worker_words * i + worker_words ≤ length words.old }
        requires i_bound { moves_at words.old i ≤ most_depth }
        ensures { words.new ≡ mover_to self i words.old }
    {
        let before = moves_at(words, i);
        store_head(self.head, self.moves, words, i);
        self.store_inner(before, words, i);
    }

    // The call goes on with as many Moves, the innermost now v.
    fn stay(self, s: Settings, h: Head, v: Inner) -> Moved
        ensures { gave self s (Ok result) ≡ stays self s h v }
    {
        Moved {
            settings: s,
            mover: Self {
                head: h,
                inner: v,
                ..self
            },
        }
    }

    // The key of the innermost Move: the call's pixel, or the pixel of the node that the Move around it is setting.
    #[tactic(auto, unfolding(crate::specs::Cut::key_cut, words::specs::Choice::pick))]
    fn key(self, nodes: &[u32]) -> u32
        ensures { result ≡ key_cut self nodes.now }
    {
        if self.moves == 1 {
            self.head.pixel
        } else {
            pixel_at(nodes, self.outer)
        }
    }

    #[tactic(auto, unfolding(crate::specs::Cut::key_fits_cut, words::specs::Choice::pick))]
    fn key_fits(self, s: Settings, nodes: &[u32]) -> bool
        ensures { result ≡ key_fits_cut s self nodes.now }
    {
        self.moves == 1 || pixel_fits(s, self.outer, nodes)
    }

    // The entry of the key in H.
    #[tactic(auto, unfolding(crate::specs::Cut::home_cut))]
    fn home_cell(self, w: u32, nodes: &[u32], levels: &[u32]) -> Cell
        requires { DigitWidth w }
        ensures { result ≡ home_cut w self (memory nodes.now levels.now) }
    {
        entry_cell(w, levels, self.inner.home, self.key(nodes))
    }

    #[tactic(auto, unfolding(crate::specs::Cut::picks_home_cut, words::specs::Choice::both))]
    fn picks_home(self, s: Settings, nodes: &[u32], levels: &[u32]) -> bool
        requires { DigitWidth s.width }
        ensures { result ≡ picks_home_cut s.width s self (memory nodes.now levels.now) }
    {
        picks_in(s, self.inner.home, levels) & self.key_fits(s, nodes)
    }

    #[tactic(auto, unfolding(words::specs::Choice::both))]
    fn chain_heads(self, s: Settings, word: u32, nodes: &[u32], levels: &[u32]) -> bool
        requires { DigitWidth s.width }
        ensures { result ≡ both (picks_home_cut s.width s self (memory nodes.now levels.now)) (word_asked s self.inner word) }
    {
        self.picks_home(s, nodes, levels) & word_asked(s, self.inner, word)
    }

    #[tactic(auto, unfolding(crate::specs::Cut::move_ends_cut, words::specs::Choice::both))]
    fn move_ends(self, s: Settings, nodes: &[u32], levels: &[u32]) -> bool
        requires { DigitWidth s.width }
        ensures { result ≡ move_ends_cut s.width s self (memory nodes.now levels.now) }
    {
        self.picks_home(s, nodes, levels) & level_taken(s, self.inner.child)
    }

    // A word read from the chain: a node is remembered, at a level the chain has ended.
    #[tactic(auto, using(crate::proofs::Asked::room_left), unfolding(crate::specs::Cut::word_head, crate::specs::Cut::word_inner, words::specs::Choice::pick))]
    fn chain_word(self, s: Settings, word: u32) -> Moved
        requires sized { Sized s }
        requires asked { word_asked s self.inner word ≡ true }
        ensures { gave self s (Ok result) ≡ stays self s (word_head self.head self.inner word) (word_inner self.inner word) }
    {
        let h = self.head;
        let v = self.inner;
        if is_node(word) {
            self.stay(s, to(Kind::ChainNext, h), remember(named(word), v))
        } else {
            self.stay(s, last_head(h, v), v)
        }
    }

    // The node remembered last is set.
    fn set_done(self, s: Settings) -> Moved
        ensures { gave self s (Ok result) ≡ set_done self s }
    {
        let v = forget(self.inner);
        self.stay(s, last_head(self.head, v), v)
    }

    // The word that SetLook or SetTail read: question 6, `before` being what it asks besides the word, then the next kind.
    #[tactic(auto, unfolding(crate::specs::Cut::peek_met, words::specs::Choice::pick, words::specs::Choice::both))]
    fn peek_met(self, before: bool, s: Settings, word: u32, here: Kind, other: Kind) -> Outcome
        ensures { gave self s result ≡ peek_met before self s word here other }
    {
        if before & ref_taken(s, word) {
            Ok(self.stay(s, peeked(self.head, word, here, other), self.inner))
        } else {
            Err(Refusal::Memory)
        }
    }

    // The word that SetRead or a failed SetPut met: question 6, then what SetRead does with it.
    #[tactic(auto, unfolding(crate::specs::Cut::read_met, words::specs::Choice::pick, words::specs::Choice::both))]
    fn read_met(self, before: bool, s: Settings, word: u32) -> Outcome
        ensures { gave self s result ≡ read_met before self s word }
    {
        if before & ref_taken(s, word) {
            let h = met_head(self.head, 1, named(word), word);
            Ok(self.stay(s, h, self.inner))
        } else {
            Err(Refusal::Memory)
        }
    }

    // The word that SetFollow, or a failed SetAppend or SetClose met: question 6, then what SetFollow does with it. A node: count + 1. A level: go back to
    // the child of G and set N there.
    #[tactic(auto, using(steps::proofs::Back::meets_some, steps::proofs::Back::meets_none, crate::proofs::Ways::followed), unfolding(crate::specs::Cut::follow_met, rules::specs::Asked::set_follows_ref, words::specs::Choice::pick, words::specs::Choice::both))]
    fn follow_met(self, before: bool, s: Settings, word: u32, levels: &[u32]) -> Outcome
        requires digit_width { DigitWidth s.width }
        requires limit_le_max_limit { s.limit ≤ max_limit }
        ensures { gave self s result ≡ follow_met before s.width self s word levels.now }
    {
        let h = self.head;
        match way_back(s.width, s.levels_taken, h.level, word, levels) {
            Some(child) if before & ref_taken(s, word) => {
                let h = met_head(h, more(s, h.count), child, word);
                Ok(self.stay(s, h, self.inner))
            }
            _ => Err(Refusal::Memory),
        }
    }

    // The word that SetPut's exchange met. The level that N is set into: N is set. Another: as a failed SetPut.
    #[tactic(auto, unfolding(crate::specs::Cut::put_met, rules::specs::Steps::expected, words::specs::Choice::pick))]
    fn put_met(self, s: Settings, word: u32) -> Outcome
        ensures { gave self s result ≡ put_met self s word }
    {
        let h = self.head;
        if refers_to(word, h.level) {
            Ok(self.set_done(s))
        } else {
            self.read_met(true, s, word)
        }
    }

    // The word that SetAppend's or SetClose's exchange met. The level that N is set into: `done`. Another: as SetFollow.
    #[tactic(auto, unfolding(crate::specs::Cut::next_met, rules::specs::Steps::expected, words::specs::Choice::pick))]
    fn next_met(self, done: Outcome, s: Settings, word: u32, levels: &[u32]) -> Outcome
        requires { Sized s }
        ensures { gave self s result ≡ next_met (gave self s done) s.width self s word levels.now }
    {
        if refers_to(word, self.head.level) {
            done
        } else {
            self.follow_met(true, s, word, levels)
        }
    }

    // A Move to the level in hand begins inside the innermost Move.
    fn begun(self, s: Settings) -> Moved
        requires moves_le_most_depth { self.moves ≤ most_depth }
        requires bound { 1 ≤ self.head.held_level }
        ensures { gave self s (Ok result) ≡ begun_cut self s }
    {
        let h = self.head;
        Moved {
            settings: s,
            mover: Self {
                head: holding_level(Kind::ChainHead, 0, h),
                moves: self.moves + 1,
                inner: Inner {
                    home: h.level,
                    child: h.held_level - 1,
                    count: 0,
                    last: 0,
                },
                outer: self.inner.last,
            },
        }
    }

    // After a Move: Look at its child. After a Move inside a Move: set N into its child.
    #[tactic(auto, unfolding(crate::specs::Cut::end_head, words::specs::Choice::pick))]
    fn end_head(self) -> Head
        ensures { result ≡ end_head self }
    {
        let k = if self.moves == 1 {
            Kind::Look
        } else {
            Kind::SetNext
        };
        to_level(k, self.inner.child, self.head)
    }

    fn end(self, s: Settings) -> Moved
        requires { 1 ≤ self.moves }
        ensures value { gave self s (Ok result) ≡ ends self s }
        ensures moves_value { result.mover.moves + 1 ≡ self.moves }
    {
        Moved {
            settings: s,
            mover: Self {
                head: self.end_head(),
                moves: self.moves - 1,
                ..self
            },
        }
    }

    // ChainHead: read the entry of the key in H.
    pub fn chain_head(self, s: Settings, nodes: &[u32], levels: &[u32]) -> Outcome
        requires sized { Sized s }
        ensures { Gives self s (memory nodes.now levels.now) (gave self s result) (memory nodes.now levels.now) (λ a os. chain_heads s.width s self.head a os (memory nodes.now levels.now)) (λ a os. chain_head s.width s self.head a os (memory nodes.now levels.now)) }
    {
        let x = self.home_cell(s.width, nodes, levels);
        let word = cell_at(s.width, x, nodes, levels);
        if self.chain_heads(s, word, nodes, levels) {
            Ok(self.chain_word(s, word))
        } else {
            Err(Refusal::Memory)
        }
    }

    // ChainNext: read the next of the node remembered last.
    pub fn chain_next(self, s: Settings, nodes: &[u32], levels: &[u32]) -> Outcome
        requires sized { Sized s }
        ensures { Gives self s (memory nodes.now levels.now) (gave self s result) (memory nodes.now levels.now) (λ a os. chain_nexts s a nodes.now) (λ a os. chain_next s.width s self.head a os (memory nodes.now levels.now)) }
    {
        let word = next_at(nodes, self.inner.last);
        if chain_nexts(s, self.inner, word) {
            Ok(self.chain_word(s, word))
        } else {
            Err(Refusal::Memory)
        }
    }

    // SetNext: write N's next = the level that it is set into.
    #[tactic(auto, using(crate::proofs::Asked::nexts_level))]
    pub fn set_next_word(self, s: Settings, nodes: &mut [u32], levels: &[u32]) -> Outcome
        requires sized { Sized s }
        ensures { Gives self s (memory nodes.old levels.now) (gave self s result) (memory nodes.new levels.now) (λ a os. set_nexts s self.head (last_node a)) (λ a os. set_next s.width s self.head a os (memory nodes.old levels.now)) }
    {
        let h = self.head;
        let v = self.inner;
        if set_nexts(s, h, v.last) {
            set_next(nodes, v.last, level_ref(h.level));
            Ok(self.stay(s, to(Kind::SetLook, h), v))
        } else {
            Err(Refusal::Memory)
        }
    }

    // SetLook: read N's entry in that level.
    pub fn set_look(self, s: Settings, nodes: &[u32], levels: &[u32]) -> Outcome
        requires sized { Sized s }
        ensures { Gives self s (memory nodes.now levels.now) (gave self s result) (memory nodes.now levels.now) (λ a os. set_looks s.width s self.head (last_node a) (memory nodes.now levels.now)) (λ a os. set_look s.width s self.head a os (memory nodes.now levels.now)) }
    {
        let h = self.head;
        let v = self.inner;
        let x = set_cell_of(s.width, h, v.last, nodes, levels);
        let word = cell_at(s.width, x, nodes, levels);
        let before = set_entry(s, h, v.last, nodes, levels);
        self.peek_met(before, s, word, Kind::SetPut, Kind::SetRead)
    }

    // SetPut: exchange the entry to N.
    #[tactic(auto, using(crate::proofs::Asked::puts_last, crate::proofs::Asked::puts_level))]
    pub fn set_put(self, s: Settings, nodes: &mut [u32], levels: &mut [u32]) -> Outcome
        requires sized { Sized s }
        ensures { Gives self s (memory nodes.old levels.old) (gave self s result) (memory nodes.new levels.new) (λ a os. set_puts s.width s self.head (last_node a) (memory nodes.old levels.old)) (λ a os. set_put s.width s self.head a os (memory nodes.old levels.old)) }
    {
        let h = self.head;
        let v = self.inner;
        if set_entry(s, h, v.last, nodes, levels) {
            let x = set_cell_of(s.width, h, v.last, nodes, levels);
            let n = node_ref(v.last);
            let word = exchange_from(s.width, h.level, x, n, nodes, levels);
            self.put_met(s, word)
        } else {
            Err(Refusal::Memory)
        }
    }

    // SetRead: read the entry again.
    pub fn set_read(self, s: Settings, nodes: &[u32], levels: &[u32]) -> Outcome
        requires sized { Sized s }
        ensures { Gives self s (memory nodes.now levels.now) (gave self s result) (memory nodes.now levels.now) (λ a os. set_looks s.width s self.head (last_node a) (memory nodes.now levels.now)) (λ a os. set_read s.width s self.head a os (memory nodes.now levels.now)) }
    {
        let h = self.head;
        let v = self.inner;
        let x = set_cell_of(s.width, h, v.last, nodes, levels);
        let word = cell_at(s.width, x, nodes, levels);
        self.read_met(set_entry(s, h, v.last, nodes, levels), s, word)
    }

    // SetTail: read R's next.
    pub fn set_tail(self, s: Settings, nodes: &[u32], levels: &[u32]) -> Outcome
        requires sized { Sized s }
        ensures { Gives self s (memory nodes.now levels.now) (gave self s result) (memory nodes.now levels.now) (λ a os. tails s self.head nodes.now) (λ a os. set_tail s.width s self.head a os (memory nodes.now levels.now)) }
    {
        let h = self.head;
        let k = by_count(s, h.count, Kind::SetAppend, Kind::SetLevel, Kind::SetFollow);
        let word = next_at(nodes, h.node);
        self.peek_met(stands_at(s, h), s, word, k, Kind::SetFollow)
    }

    // SetAppend: exchange R's next to N.
    #[tactic(auto, using(crate::proofs::Asked::appends_last, crate::proofs::Asked::appends_level))]
    pub fn set_append(self, s: Settings, nodes: &mut [u32], levels: &mut [u32]) -> Outcome
        requires sized { Sized s }
        ensures { Gives self s (memory nodes.old levels.old) (gave self s result) (memory nodes.new levels.new) (λ a os. set_appends s.width s self.head (last_node a) (memory nodes.old levels.old)) (λ a os. set_append s.width s self.head a os (memory nodes.old levels.old)) }
    {
        let h = self.head;
        let v = self.inner;
        if stands_setting(s, h, v.last) {
            let n = node_ref(v.last);
            let word = exchange_from(s.width, h.level, Cell::Next(h.node), n, nodes, levels);
            self.next_met(Ok(self.set_done(s)), s, word, levels)
        } else {
            Err(Refusal::Memory)
        }
    }

    // SetLevel: take a level for N.
    #[tactic(auto, using(steps::proofs::Asked::takes_held_level, steps::proofs::Asked::takes_deep))]
    pub fn set_level(self, s: Settings, nodes: &[u32], levels: &mut [u32]) -> Outcome
        requires sized { Sized s }
        ensures { Gives self s (memory nodes.now levels.old) (gave self s result) (memory nodes.now levels.new) (λ a os. takes_level s.width s self.head levels.old) (λ a os. set_level s.width s self.head a os (memory nodes.now levels.old)) }
    {
        let h = self.head;
        if takes_level(s, h, levels) {
            let g = take_level(s.width, s.levels_taken, h.held_level, h.level, levels);
            let n = holding_level(Kind::SetClose, g + 1, h);
            Ok(self.stay(counted(s, h.held_level), n, self.inner))
        } else {
            Err(Refusal::Memory)
        }
    }

    // SetClose: exchange R's next to the new level; done, a Move inside this Move begins.
    #[tactic(auto, using(steps::proofs::Asked::level_one, steps::proofs::Asked::level_less, steps::proofs::Asked::stands_most))]
    pub fn set_close(self, s: Settings, nodes: &mut [u32], levels: &mut [u32]) -> Outcome
        requires sized { Sized s }
        ensures { Gives self s (memory nodes.old levels.old) (gave self s result) (memory nodes.new levels.new) (λ a os. set_closes s.width s self.head (a ∷ os) (memory nodes.old levels.old)) (λ a os. set_close s.width s self.head a os (memory nodes.old levels.old)) }
    {
        let h = self.head;
        if stands_with(s, h, h.held_level, s.levels_taken) {
            if self.moves < last_depth(s.width) {
                let g = level_ref(h.held_level - 1);
                let word = exchange_from(s.width, h.level, Cell::Next(h.node), g, nodes, levels);
                self.next_met(Ok(self.begun(s)), s, word, levels)
            } else {
                // no Move more has room, so the exchange may not be done: R's next is read instead, and done is refused
                let word = next_at(nodes, h.node);
                self.next_met(Err(Refusal::Memory), s, word, levels)
            }
        } else {
            Err(Refusal::Memory)
        }
    }

    // SetFollow: read R's next again.
    pub fn set_follow(self, s: Settings, nodes: &[u32], levels: &[u32]) -> Outcome
        requires sized { Sized s }
        ensures { Gives self s (memory nodes.now levels.now) (gave self s result) (memory nodes.now levels.now) (λ a os. set_follows s.width s self.head (memory nodes.now levels.now)) (λ a os. set_follow s.width s self.head a os (memory nodes.now levels.now)) }
    {
        let h = self.head;
        let word = next_at(nodes, h.node);
        self.follow_met(stands_at(s, h), s, word, levels)
    }

    // MoveEnd: write the entry in H to G; this Move has ended.
    #[tactic(auto, using(crate::proofs::Asked::ends_child))]
    pub fn move_end(self, s: Settings, nodes: &mut [u32], levels: &mut [u32]) -> Outcome
        requires sized { Sized s }
        requires le_moves { 1 ≤ self.moves }
        ensures { Gives self s (memory nodes.old levels.old) (gave self s result) (memory nodes.new levels.new) (λ a os. move_ends s.width s a os (memory nodes.old levels.old)) (λ a os. move_end s.width s self.head a os (memory nodes.old levels.old)) }
    {
        if self.move_ends(s, nodes, levels) {
            let x = self.home_cell(s.width, nodes, levels);
            set_cell(s.width, x, level_ref(self.inner.child), nodes, levels);
            Ok(self.end(s))
        } else {
            Err(Refusal::Memory)
        }
    }

    // One turn of a moving worker. A worker of another kind is refused by 6.
    #[tactic(auto, using(crate::proofs::Turns::turn_kind), unfolding(crate::specs::Cut::is_moving, record::specs::Kinds::kind_no, words::specs::Choice::both, rules::specs::Asked::reads_by, rules::specs::Acts::act_by, rules::specs::Acts::inner, rules::specs::Acts::outer))]
    pub fn turn(self, s: Settings, nodes: &mut [u32], levels: &mut [u32]) -> Outcome
        requires sized { Sized s }
        requires le_moves { 1 ≤ self.moves }
        ensures { Gives self s (memory nodes.old levels.old) (gave self s result) (memory nodes.new levels.new) (λ a os. both (is_moving self.head.kind) (reads_by self.head.kind s.width s self.head (a ∷ os) (memory nodes.old levels.old))) (λ a os. act_by self.head.kind s.width false s self.head (a ∷ os) (memory nodes.old levels.old)) }
    {
        match self.head.kind {
            Kind::ChainHead => self.chain_head(s, nodes, levels),
            Kind::ChainNext => self.chain_next(s, nodes, levels),
            Kind::SetNext => self.set_next_word(s, nodes, levels),
            Kind::SetLook => self.set_look(s, nodes, levels),
            Kind::SetPut => self.set_put(s, nodes, levels),
            Kind::SetRead => self.set_read(s, nodes, levels),
            Kind::SetTail => self.set_tail(s, nodes, levels),
            Kind::SetAppend => self.set_append(s, nodes, levels),
            Kind::SetLevel => self.set_level(s, nodes, levels),
            Kind::SetClose => self.set_close(s, nodes, levels),
            Kind::SetFollow => self.set_follow(s, nodes, levels),
            Kind::MoveEnd => self.move_end(s, nodes, levels),
            _ => Err(Refusal::Memory),
        }
    }
}
