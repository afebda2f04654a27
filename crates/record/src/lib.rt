// A worker's record: kinds of turn and answers with their numbers, and the head and the Moves in the worker's words.
// Relies on words for blocks, on settings for sizes and the chain limit.

#![tactic(auto)]

ghost use Rattle.std.specs.Prelude.{◌≡◌, false, ◌+◌, ◌*◌, ◌≤◌, leb, eqb, length};
ghost use Rattle.words.specs.Choice.{every};
ghost use Rattle.settings.specs.Sizes.{max_limit, worker_words};
ghost use Rattle.words.specs.Digits.{DigitWidth};
ghost use Rattle.record.specs.Kinds.{kind_of, kind_no, answer_of};
ghost use Rattle.record.specs.Layout.{worker_place, move_place, head_from, head_list, head_at, moves_at, move_at, first_moves, load, store_head, move_to, new_move};
ghost use Rattle.record.specs.Fits.{on_chain, has_node, call_fits, inner_fits, outer_fits, moves_fit, moving_fits, viewing, role_fits, viewer_told, answer_fits, fits};

use settings::{Settings, last_depth, within};
use words::{at, copy_in, copy_out};

// The kinds of turn, in the order of their numbers. Idle: no call is open. Unknown: a number that is no kind.
#[derive(Clone, Copy, PartialEq, Eq, PartialOrd, Ord)]
pub enum Kind {
    Idle,
    Look,
    Take,
    Put,
    Read,
    Tail,
    TakeTail,
    Append,
    Level,
    Close,
    Follow,
    ChainHead,
    ChainNext,
    SetNext,
    SetLook,
    SetPut,
    SetRead,
    SetTail,
    SetAppend,
    SetLevel,
    SetClose,
    SetFollow,
    MoveEnd,
    Unknown,
}

// What an operation answers. Nothing: document 01's "none". Open: a call is open or goes on. Absent: a viewer's pixel is not placed.
#[derive(Clone, Copy, PartialEq, Eq)]
pub enum Answer {
    Nothing,
    New(u32),
    Found(u32),
    Full,
    Open,
    Absent,
}

// What a turn's exchange came to. None: the turn makes no exchange. Three names, which the contracts cite: an Option of a test would not show which is which.
#[derive(Clone, Copy, PartialEq, Eq)]
pub enum Exchange {
    None,
    Done,
    Failed,
}

// What an operation gives back. The number is 0 where it was carried out, else that of the refusal: "full" has both a number and an answer, and `reply`, over which the
// theorems stand, has the number.
#[derive(Clone, Copy)]
pub struct Reply {
    pub number: u32,
    pub answer: Answer,
    pub turns: u32,
    pub settings: Settings,
}

// The numbers of a call. A held node or level is its number + 1, or 0: in hand in Put, Append, Close and SetClose, else spare.
// They stay as the words have them (head_from and head_list of specs/Layout): whether an answer's number is one is what fits asks.
#[derive(Clone, Copy)]
pub struct Head {
    pub kind: Kind,
    pub pixel: u32,
    pub level: u32,
    pub node: u32,
    pub count: u32,
    pub held_node: u32,
    pub held_level: u32,
    pub answer: u32,
    pub answer_node: u32,
}

// A Move of the chain of an entry of `home` to `child`: the nodes remembered are the first `count`.
// The layout has all eight words and any count (move_from and move_to of specs/Layout), so that `nodes` is no list of `count` nodes.
#[derive(Clone, Copy)]
pub struct Move {
    pub home: u32,
    pub child: u32,
    pub count: u32,
    pub nodes: [u32; 8],
}

impl Kind {
    // A search's kind, or Idle: it stands before those of a Move.
    #[tactic(auto, unfolding(crate::specs::Kinds::kind_no))]
    pub fn searches(self) -> bool
        ensures { result ≡ leb (kind_no self) 10 }
    {
        self <= Self::Follow
    }

    // The kinds of a viewer's call.
    #[tactic(auto, unfolding(crate::specs::Kinds::kind_no, crate::specs::Fits::viewing, words::specs::Choice::pick))]
    pub fn viewing(self) -> bool
        ensures { result ≡ viewing (kind_no self) }
    {
        viewing(self.into())
    }
}

impl From<Kind> for u32 {
    ghost from_gives = { λ k n. n ≡ kind_no k };

    #[tactic(auto, unfolding(crate::specs::Kinds::kind_no))]
    fn from(k: Kind) -> u32 {
        k as u32
    }
}

impl From<u32> for Kind {
    ghost from_gives = { λ n k. k ≡ kind_of n };

    #[tactic(auto, unfolding(crate::specs::Kinds::kind_of, crate::specs::Kinds::kinds))]
    fn from(n: u32) -> Self {
        match n {
            0 => Self::Idle,
            1 => Self::Look,
            2 => Self::Take,
            3 => Self::Put,
            4 => Self::Read,
            5 => Self::Tail,
            6 => Self::TakeTail,
            7 => Self::Append,
            8 => Self::Level,
            9 => Self::Close,
            10 => Self::Follow,
            11 => Self::ChainHead,
            12 => Self::ChainNext,
            13 => Self::SetNext,
            14 => Self::SetLook,
            15 => Self::SetPut,
            16 => Self::SetRead,
            17 => Self::SetTail,
            18 => Self::SetAppend,
            19 => Self::SetLevel,
            20 => Self::SetClose,
            21 => Self::SetFollow,
            22 => Self::MoveEnd,
            _ => Self::Unknown,
        }
    }
}

// The answer of a stored number and node.
#[tactic(auto, unfolding(crate::specs::Kinds::answer_of))]
pub fn answer_of(code: u32, node: u32) -> Answer
    ensures { result ≡ answer_of code node }
{
    match code {
        1 => Answer::New(node),
        2 => Answer::Found(node),
        3 => Answer::Full,
        5 => Answer::Absent,
        _ => Answer::Nothing,
    }
}

// The first word of worker i.
#[tactic(auto, unfolding(crate::specs::Layout::worker_place))]
pub fn worker_place(i: u32) -> usize
    ensures { (result ≡ worker_place i) × (result ≤ 1099511627520) }
{
    (Settings::WORKER_WORDS as usize) * (i as usize)
}

// The first word of Move j of worker i.
#[tactic(auto, unfolding(crate::specs::Layout::move_place))]
pub fn move_place(i: u32, j: u32) -> usize
    ensures { (result ≡ move_place i j) × (result ≤ 1200000000000) }
{
    worker_place(i) + 16 + 11 * (j as usize)
}

// The number of Moves of worker i.
#[tactic(auto, unfolding(crate::specs::Layout::moves_at))]
pub fn moves_at(words: &[u32], i: u32) -> u32
    ensures { result ≡ moves_at words.now i }
{
    at(words, worker_place(i) + 9)
}

// Worker i is idle, which its first word tells.
#[tactic(auto, using(words::proofs::Blocks::get_d_cells, crate::proofs::Numbers::number_zero), unfolding(crate::specs::Layout::head_at, crate::specs::Layout::head_from))]
pub fn idle_at(words: &[u32], i: u32) -> bool
    ensures { result ≡ eqb (kind_no (head_at words.now i).kind) 0 }
{
    at(words, worker_place(i)) == 0
}

// The number of worker i's last answer.
#[tactic(auto, using(words::proofs::Blocks::get_d_cells), unfolding(crate::specs::Layout::head_at, crate::specs::Layout::head_from))]
pub fn answer_at(words: &[u32], i: u32) -> u32
    ensures { result ≡ (head_at words.now i).answer }
{
    at(words, worker_place(i) + 7)
}

// The words of worker i are there. Who has tested it once reads and writes them without further tests.
#[tactic(auto, unfolding(crate::specs::Layout::worker_place))]
pub fn inside(words: &[u32], i: u32) -> bool
    ensures { result ≡ leb (worker_words * i + worker_words) (length words.now) }
{
    worker_place(i) + (Settings::WORKER_WORDS as usize) <= words.len()
}

impl From<[u32; 9]> for Head {
    ghost from_gives = { λ b h. h ≡ head_from b };

    #[tactic(auto, unfolding(crate::specs::Layout::head_from))]
    fn from(b: [u32; 9]) -> Self {
        Self {
            kind: Kind::from(b[0]),
            pixel: b[1],
            level: b[2],
            node: b[3],
            count: b[4],
            held_node: b[5],
            held_level: b[6],
            answer: b[7],
            answer_node: b[8],
        }
    }
}

impl Head {
    // The head's words, and behind them the number of Moves.
    #[tactic(auto, unfolding(crate::specs::Layout::head_list))]
    fn to_words(self, moves: u32) -> [u32; 10]
        ensures { result ≡ head_list self moves }
    {
        [
            u32::from(self.kind),
            self.pixel,
            self.level,
            self.node,
            self.count,
            self.held_node,
            self.held_level,
            self.answer,
            self.answer_node,
            moves,
        ]
    }

    #[tactic(auto, unfolding(crate::specs::Layout::head_at))]
    pub fn load(words: &[u32], i: u32) -> Self
        ensures { result ≡ head_at words.now i }
    {
        let mut b = [0u32; 9];
        copy_out(words, worker_place(i), &mut b);
        Self::from(b)
    }

    #[tactic(auto, unfolding(crate::specs::Layout::store_head))]
    pub fn store(self, moves: u32, words: &mut [u32], i: u32)
        ensures { words.new ≡ store_head self moves i words.old }
    {
        copy_in(words, worker_place(i), &self.to_words(moves));
    }
}

impl Move {
    #[tactic(auto, unfolding(crate::specs::Layout::new_move))]
    pub fn fresh(home: u32, child: u32) -> Self
        ensures { result ≡ new_move home child }
    {
        Self {
            home,
            child,
            count: 0,
            nodes: [0u32; 8],
        }
    }

    #[tactic(auto, unfolding(crate::specs::Layout::move_to))]
    pub fn store(self, words: &mut [u32], i: u32, j: u32)
        ensures { words.new ≡ move_to self (move_place i j) words.old }
    {
        let p = move_place(i, j);
        copy_in(words, p, &[self.home, self.child, self.count]);
        copy_in(words, p + 3, &self.nodes);
    }
}

#[tactic(auto, unfolding(crate::specs::Kinds::kind_no, crate::specs::Fits::on_chain, words::specs::Choice::pick, words::specs::Choice::both))]
fn on_chain(k: Kind) -> bool
    ensures { result ≡ on_chain (kind_no k) }
{
    (Kind::Tail <= k && k <= Kind::Follow) | (Kind::SetTail <= k && k <= Kind::SetFollow)
}

#[tactic(auto, unfolding(crate::specs::Fits::call_fits, words::specs::Choice::pick, words::specs::Choice::both))]
fn call_fits(s: Settings, h: Head) -> bool
    requires { s.limit ≤ max_limit }
    ensures { result ≡ call_fits s (kind_no h.kind) h }
{
    (h.pixel <= Settings::MAX_PIXEL) & (!on_chain(h.kind) | within(h.count, s.limit + 1))
}

#[tactic(auto, unfolding(crate::specs::Kinds::kind_no, crate::specs::Fits::has_node, words::specs::Choice::both))]
fn has_node(k: Kind) -> bool
    ensures { result ≡ has_node (kind_no k) }
{
    Kind::ChainNext <= k && k <= Kind::SetFollow
}

#[tactic(auto, unfolding(crate::specs::Fits::inner_fits, words::specs::Choice::pick))]
fn inner_fits(s: Settings, k: Kind, count: u32) -> bool
    ensures { result ≡ inner_fits s (kind_no k) count }
{
    if has_node(k) {
        within(count, s.limit)
    } else {
        count == 0
    }
}

// The number of nodes that Move j of worker i remembers.
#[tactic(auto, unfolding(crate::specs::Layout::move_at, crate::specs::Layout::move_from))]
fn move_count(words: &[u32], i: u32, j: u32) -> u32
    ensures { result ≡ (move_at words.now i j).count }
{
    at(words, move_place(i, j) + 2)
}

// The first n Moves of worker i each remember a node, and at most the chain limit.
fn outer_fit(s: Settings, words: &[u32], i: u32, n: u32) -> bool
    ensures { result ≡ every (outer_fits s) (first_moves words.now i n) }
{
    (0..n).all(|j| within(move_count(words, i, j), s.limit))
}

#[tactic(auto, using(crate::proofs::Tests::moves_none, crate::proofs::Tests::moves_some), unfolding(words::specs::Choice::both))]
fn moves_fit(s: Settings, k: Kind, words: &[u32], i: u32, n: u32) -> bool
    ensures { result ≡ moves_fit s (kind_no k) (first_moves words.now i n) }
{
    n > 0 && inner_fits(s, k, move_count(words, i, n - 1)) && outer_fit(s, words, i, n - 1)
}

// A moving worker's Moves, given their number.
#[tactic(auto, using(crate::proofs::Tests::moving_is), unfolding(words::specs::Choice::pick))]
fn moving_fits(s: Settings, k: Kind, words: &[u32], i: u32, n: u32) -> bool
    requires { DigitWidth s.width }
    ensures { result ≡ moving_fits s.width s (kind_no k) (first_moves words.now i n) }
{
    n <= last_depth(s.width) && moves_fit(s, k, words, i, n)
}

// The kinds of a viewer's call, by number: any may be asked, also one that is no kind's.
#[tactic(auto, unfolding(crate::specs::Fits::viewing, words::specs::Choice::pick))]
pub fn viewing(k: u32) -> bool
    ensures { result ≡ viewing k }
{
    matches!(k, 1 | 4 | 5 | 10)
}

// An open call's kind is one of a viewer's, if v says that the worker is a viewer.
#[tactic(auto, unfolding(crate::specs::Fits::role_fits, words::specs::Choice::pick))]
fn role_fits(v: bool, k: Kind) -> bool
    ensures { result ≡ role_fits v (kind_no k) }
{
    !v || k.viewing()
}

// The record of worker i with the head h of a search fits its layout. Of a viewer this is asked at one of a viewer's kinds alone.
#[tactic(auto, using(crate::proofs::Tests::search_is), unfolding(words::specs::Choice::both))]
pub fn search_fits(s: Settings, h: Head, words: &[u32], i: u32) -> bool
    requires limit_le_max_limit { s.limit ≤ max_limit }
    requires h_value { h ≡ head_at words.now i }
    requires bound { 1 ≤ kind_no h.kind }
    requires kind_bound { kind_no h.kind ≤ 10 }
    ensures { result ≡ fits s.width false s (load words.now i) }
{
    call_fits(s, h) & (moves_at(words, i) == 0)
}

// The same, where its head h is that of a Move or of no kind.
#[tactic(auto, using(crate::proofs::Numbers::tag_no, crate::proofs::Tests::move_is, crate::proofs::Tests::unknown_is), unfolding(words::specs::Choice::both))]
pub fn move_fits(s: Settings, h: Head, words: &[u32], i: u32) -> bool
    requires digit_width { DigitWidth s.width }
    requires limit_le_max_limit { s.limit ≤ max_limit }
    requires h_value { h ≡ head_at words.now i }
    requires bound { 11 ≤ kind_no h.kind }
    ensures { result ≡ fits s.width false s (load words.now i) }
{
    h.kind != Kind::Unknown
        && call_fits(s, h)
        && moving_fits(s, h.kind, words, i, moves_at(words, i))
}

// The last answers of a viewer, by number.
#[tactic(auto, unfolding(crate::specs::Fits::viewer_told, words::specs::Choice::pick))]
fn viewer_told(a: u32) -> bool
    ensures { result ≡ viewer_told a }
{
    matches!(a, 0 | 2 | 5)
}

// An idle worker's record fits its layout, by the number of its last answer.
#[tactic(auto, unfolding(crate::specs::Fits::answer_fits, words::specs::Choice::pick))]
pub fn idle_fits(v: bool, answer: u32) -> bool
    ensures { result ≡ answer_fits v answer }
{
    if v { viewer_told(answer) } else { answer <= 3 }
}

// The record of worker i with the head h of an open call fits its layout, whatever its kind. Of a viewer this is asked at one of a viewer's kinds alone.
fn open_fits(s: Settings, h: Head, words: &[u32], i: u32) -> bool
    requires digit_width { DigitWidth s.width }
    requires limit_le_max_limit { s.limit ≤ max_limit }
    requires h_value { h ≡ head_at words.now i }
    requires bound { 1 ≤ kind_no h.kind }
    ensures { result ≡ fits s.width false s (load words.now i) }
{
    if h.kind.searches() {
        search_fits(s, h, words, i)
    } else {
        move_fits(s, h, words, i)
    }
}

// The record of worker i with the head h fits its layout.
#[tactic(auto, using(crate::proofs::Numbers::tag_no, crate::proofs::Tests::idle_is, crate::proofs::Tests::role_is, crate::proofs::Tests::no_role_is))]
pub fn fits(v: bool, s: Settings, h: Head, words: &[u32], i: u32) -> bool
    requires digit_width { DigitWidth s.width }
    requires limit_le_max_limit { s.limit ≤ max_limit }
    requires h_value { h ≡ head_at words.now i }
    ensures { result ≡ fits s.width v s (load words.now i) }
{
    if h.kind == Kind::Idle {
        idle_fits(v, h.answer)
    } else {
        role_fits(v, h.kind) && open_fits(s, h, words, i)
    }
}
