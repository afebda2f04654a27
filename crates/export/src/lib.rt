// The C interface: the public operations with their answers as numbers. include/leafdrum.h declares it; tests/headers.py compares the two.
// Relies on table for the operations, on lists for the parts of a turn and of a list of turns, on turns for a viewer's turn, on listing for a "next", on counting for the flagged count.

#![tactic(auto)]

ghost use Rattle.std.specs.Prelude.{◌≡◌, true, false, ◌-◌, Ok, Err};
ghost use Rattle.settings.specs.Refusals.{refusal_no};
ghost use Rattle.areas.specs.Memory.{areas, memory};
ghost use Rattle.record.specs.Kinds.{answer_no, answer_node};
ghost use Rattle.record.specs.Layout.{head_at};
ghost use Rattle.rules.specs.Operations.{reply, opening, start, turn, last_answer};
ghost use Rattle.rules.specs.Exchanges.{list_report};
ghost use Rattle.lists.specs.Cut.{ended, told_reply};
ghost use Rattle.counting.specs.Count.{Counted, told, count};
ghost use Rattle.export.specs.Shown.{numbers_of, shown, exported, exported_list, count_or_zero};
ghost use Rattle.export.specs.Listed.{given_numbers, NextShown};

use listing::Listing;
use lists::Ran;
use record::{Answer, Reply, idle_at};
use settings::{Refusal, Settings};

// leafdrum_reply: the number of the refusal or 0, the answer and its node; of a list the turns done, and its exchanges done and failed; the settings.
#[repr(C)]
#[derive(Clone, Copy)]
pub struct LeafdrumReply {
    pub number: u32,
    pub answer: u32,
    pub node: u32,
    pub turns: u32,
    pub exchanges_done: u32,
    pub exchanges_failed: u32,
    pub settings: Settings,
}

// By functions and not one `From`: an answer is two numbers here, its own and its node's.
#[tactic(auto, unfolding(record::specs::Kinds::answer_no))]
fn answer_no(a: Answer) -> u32
    ensures { result ≡ answer_no a }
{
    match a {
        Answer::Nothing => 0,
        Answer::New(_) => 1,
        Answer::Found(_) => 2,
        Answer::Full => 3,
        Answer::Open => 4,
        Answer::Absent => 5,
    }
}

#[tactic(auto, unfolding(record::specs::Kinds::answer_node))]
fn answer_node(a: Answer) -> u32
    ensures { result ≡ answer_node a }
{
    match a {
        Answer::New(n) | Answer::Found(n) => n,
        _ => 0,
    }
}

// Only a list reports exchanges.
impl From<Reply> for LeafdrumReply {
    ghost from_gives = { λ r l. l ≡ numbers_of r 0 0 };

    #[tactic(auto, unfolding(crate::specs::Shown::numbers_of))]
    fn from(r: Reply) -> Self {
        Self {
            number: r.number,
            answer: answer_no(r.answer),
            node: answer_node(r.answer),
            turns: r.turns,
            exchanges_done: 0,
            exchanges_failed: 0,
            settings: r.settings,
        }
    }
}

// The ways in which a start, a turn or a list ends. A function of the interface returns each of them by itself, and has the steps of a turn in its own text for that:
// the settings of the reply are then made from the caller's, which the questions read in place (docs/DECISIONS.md has the times).
fn ended_refused(r: Refusal, s: Settings) -> LeafdrumReply
    ensures { result ≡ numbers_of (reply (refusal_no r) Answer.Nothing 0 s) 0 0 }
{
    table::refusal(r, s).into()
}

fn ended_open(s: Settings) -> LeafdrumReply
    ensures { result ≡ numbers_of (reply 0 Answer.Open 0 s) 0 0 }
{
    table::replied(Answer::Open, s).into()
}

fn ended_told(s: Settings, i: u32, workers: &[u32]) -> LeafdrumReply
    ensures { result ≡ numbers_of (told_reply (head_at workers.now i) s) 0 0 }
{
    lists::turn_reply(s, workers, i).into()
}

#[tactic(auto, unfolding(crate::specs::Shown::numbers_of))]
fn ended_list(s: Settings, r: Ran, limit: u32) -> LeafdrumReply
    ensures { result ≡ numbers_of (reply (ended r).number Answer.Nothing (limit - r.tally.left) s) r.tally.done r.tally.failed }
{
    LeafdrumReply {
        exchanges_done: r.tally.done,
        exchanges_failed: r.tally.failed,
        ..lists::ended_list(s, r.number(), r.tally, limit).into()
    }
}

// Each function takes the three areas apart, as C lends them.
#[tactic(auto, unfolding(crate::specs::Shown::exported))]
#[unsafe(no_mangle)]
pub extern "C" fn leafdrum_open(
    settings: Settings,
    nodes: &mut [u32],
    levels: &mut [u32],
    workers: &mut [u32],
) -> LeafdrumReply
    ensures { shown result (areas nodes.new levels.new workers.new) ≡ exported (opening settings.width settings (areas nodes.old levels.old workers.old)) }
{
    table::open(settings, nodes, levels, workers).into()
}

#[tactic(auto, unfolding(crate::specs::Shown::exported))]
#[unsafe(no_mangle)]
pub extern "C" fn leafdrum_start(
    settings: Settings,
    worker: u32,
    row: u32,
    column: u32,
    nodes: &mut [u32],
    levels: &mut [u32],
    workers: &mut [u32],
) -> LeafdrumReply
    ensures { shown result (areas nodes.new levels.new workers.new) ≡ exported (start settings.width settings false worker row column (areas nodes.old levels.old workers.old)) }
{
    match table::begin(settings, false, worker, row, column, nodes, levels, workers) {
        Ok(()) => ended_open(settings),
        Err(r) => ended_refused(r, settings),
    }
}

// A viewer's call starts. The C interface has two names for what is one function, `table::begin`, with a flag.
#[tactic(auto, unfolding(crate::specs::Shown::exported))]
#[unsafe(no_mangle)]
pub extern "C" fn leafdrum_view(
    settings: Settings,
    worker: u32,
    row: u32,
    column: u32,
    nodes: &mut [u32],
    levels: &mut [u32],
    workers: &mut [u32],
) -> LeafdrumReply
    ensures { shown result (areas nodes.new levels.new workers.new) ≡ exported (start settings.width settings true worker row column (areas nodes.old levels.old workers.old)) }
{
    match table::begin(settings, true, worker, row, column, nodes, levels, workers) {
        Ok(()) => ended_open(settings),
        Err(r) => ended_refused(r, settings),
    }
}

#[unsafe(no_mangle)]
pub extern "C" fn leafdrum_turn(
    settings: Settings,
    worker: u32,
    nodes: &mut [u32],
    levels: &mut [u32],
    workers: &mut [u32],
) -> LeafdrumReply
    ensures { shown result (areas nodes.new levels.new workers.new) ≡ exported (turn settings.width settings worker (areas nodes.old levels.old workers.old)) }
{
    if let Err(r) = lists::check_turn(settings, worker, nodes, levels, workers) {
        return ended_refused(r, settings);
    }
    // a viewer's turn has its own function, so that the turns of the others do not pay for it
    if settings.views(worker) {
        return match turns::view_here(settings, worker, nodes, levels, workers) {
            Ok(_) => ended_told(settings, worker, workers),
            Err(r) => ended_refused(r, settings),
        };
    }
    // no entry but this worker
    let ran = lists::run_list(settings, worker, &[], 1, nodes, levels, workers);
    if let Err(six) = ran.outcome {
        return ended_refused(six, settings);
    }
    let s = settings.with_counts(ran.tally.nodes_taken, ran.tally.levels_taken);
    // most turns leave the call open, and need not be told apart further
    if idle_at(workers, worker) {
        return ended_told(s, worker, workers);
    }
    ended_open(s)
}

#[unsafe(no_mangle)]
pub extern "C" fn leafdrum_turns(
    settings: Settings,
    list: &[u8],
    limit: u32,
    nodes: &mut [u32],
    levels: &mut [u32],
    workers: &mut [u32],
) -> LeafdrumReply
    ensures { shown result (areas nodes.new levels.new workers.new) ≡ exported_list (list_report settings.width settings list.now limit (areas nodes.old levels.old workers.old)) }
{
    if let Err(r) = lists::check_list(settings, list, nodes, levels, workers) {
        return ended_refused(r, settings);
    }
    // a list without an entry is carried out, and does nothing
    let [first, rest @ ..] = list else {
        return table::replied(Answer::Nothing, settings).into();
    };
    let first = u32::from(*first);
    let ran = lists::run_list(settings, first, rest, limit, nodes, levels, workers);
    ended_list(
        settings.with_counts(ran.tally.nodes_taken, ran.tally.levels_taken),
        ran,
        limit,
    )
}

#[tactic(auto, unfolding(crate::specs::Shown::exported))]
#[unsafe(no_mangle)]
pub extern "C" fn leafdrum_last(
    settings: Settings,
    worker: u32,
    nodes: &mut [u32],
    levels: &mut [u32],
    workers: &mut [u32],
) -> LeafdrumReply
    ensures { shown result (areas nodes.new levels.new workers.new) ≡ exported (last_answer settings.width settings worker (areas nodes.old levels.old workers.old)) }
{
    table::last_answer(settings, worker, nodes, levels, workers).into()
}

// leafdrum_given: the number of the refusal or 0; 0 where it is refused, 1 for a pixel, 2 for "end"; the pixel, else 0.
#[repr(C)]
#[derive(Clone, Copy)]
pub struct LeafdrumGiven {
    pub number: u32,
    pub answer: u32,
    pub pixel: u32,
}

// What a "next" gives.
impl From<Result<Option<u32>, Refusal>> for LeafdrumGiven {
    ghost from_gives = { λ a g. g ≡ given_numbers a };

    fn from(given: Result<Option<u32>, Refusal>) -> Self {
        match given {
            Err(r) => Self {
                number: u32::from(r),
                answer: 0,
                pixel: 0,
            },
            Ok(Some(pixel)) => Self {
                number: 0,
                answer: 1,
                pixel,
            },
            Ok(None) => Self {
                number: 0,
                answer: 2,
                pixel: 0,
            },
        }
    }
}

// "The listing keeps its place in a small record that each "next" moves on": the record is lent; a refusal leaves it.
#[unsafe(no_mangle)]
pub extern "C" fn leafdrum_next(
    settings: Settings,
    listing: &mut Listing,
    nodes: &[u32],
    levels: &[u32],
) -> LeafdrumGiven
    ensures { NextShown settings.width settings (memory nodes.now levels.now) listing.old.place result listing.new.place }
{
    match listing::next(settings, *listing, nodes, levels) {
        Ok((given, after)) => {
            *listing = after;
            Ok(given).into()
        }
        Err(r) => Err(r).into(),
    }
}

// leafdrum_count: the number of the refusal or 0; the flagged count, else 0.
#[repr(C)]
#[derive(Clone, Copy)]
pub struct Count {
    pub number: u32,
    pub count: u32,
}

impl From<Result<u32, Refusal>> for Count {
    ghost from_gives = { λ a c. count c.number c.count ≡ told a };

    fn from(counted: Result<u32, Refusal>) -> Self {
        match counted {
            Ok(count) => Self { number: 0, count },
            Err(r) => Self {
                number: u32::from(r),
                count: 0,
            },
        }
    }
}

// "The flagged count becomes the number of nodes that can be reached from the root."
#[unsafe(no_mangle)]
pub extern "C" fn leafdrum_flagged(settings: Settings, nodes: &[u32], levels: &[u32]) -> Count
    ensures { Counted settings.width settings (memory nodes.now levels.now) (count result.number result.count) }
{
    counting::flagged(settings, nodes, levels).into()
}

// The number of levels that the level area holds; 0 for settings out of range.
#[tactic(auto, unfolding(crate::specs::Shown::count_or_zero, words::specs::Choice::pick))]
#[unsafe(no_mangle)]
pub extern "C" fn leafdrum_level_count(settings: Settings) -> u32
    ensures { result ≡ count_or_zero settings.width settings }
{
    if settings.in_range() {
        settings.level_count()
    } else {
        0
    }
}
