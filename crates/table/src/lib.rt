// The public operations of the table: opening, start, last answer. None has a `requires`; each contract is one equation.
// Relies on settings for questions 1 to 3, on record for the worker's words, on areas for level 0.

#![tactic(auto)]

ghost use Rattle.std.specs.Prelude.{◌≡◌, ◌+◌, ◌*◌, ◌≤◌, eqb, length};
ghost use Rattle.words.specs.Choice.{pick, first_no};
ghost use Rattle.words.specs.Digits.{DigitWidth, pixel_number};
ghost use Rattle.settings.specs.Refusals.{refusal_no, outcome_no};
ghost use Rattle.settings.specs.Sizes.{max_limit, worker_words, views};
ghost use Rattle.areas.specs.Memory.{areas};
ghost use Rattle.record.specs.Kinds.{kind_no};
ghost use Rattle.record.specs.Layout.{load};
ghost use Rattle.record.specs.Fits.{fits};
ghost use Rattle.rules.specs.Heads.{started};
ghost use Rattle.rules.specs.Asked.{question5, question17};
ghost use Rattle.rules.specs.Operations.{result_of, reply, opening, start_questions, start, last_questions, last_answer, last_of};
ghost use Rattle.table.specs.Cut.{first_four, after_five, begun, start_reply};

use areas::{NONE, fill_level};
use record::{Answer, Head, Kind, Reply, answer_at, answer_of, fits, idle_at, idle_fits};
use settings::{Refusal, Settings};
use words::fill_words;

// What an operation that is carried out gives back.
pub fn replied(answer: Answer, settings: Settings) -> Reply
    ensures { result ≡ reply 0 answer 0 settings }
{
    Reply {
        number: 0,
        answer,
        turns: 0,
        settings,
    }
}

// "A refusal gives its number, the settings as they came, and unchanged memory."
pub fn refusal(r: Refusal, settings: Settings) -> Reply
    ensures { result ≡ reply (refusal_no r) Answer.Nothing 0 settings }
{
    Reply {
        number: r.into(),
        ..replied(Answer::Nothing, settings)
    }
}

// Word j of worker i. Word 0 of the worker past the last one is the end of the workers' words.
fn word_place(i: u32, j: u32) -> usize
    ensures { result ≡ worker_words * i + j }
{
    (Settings::WORKER_WORDS as usize) * (i as usize) + (j as usize)
}

// Opening: writes level 0 and zeroes the workers' words.
#[tactic(auto, using(crate::proofs::Opened::open_wide, crate::proofs::Opened::open_refused, settings::proofs::Refusals::refusal_positive))]
pub fn open(s: Settings, nodes: &[u32], levels: &mut [u32], workers: &mut [u32]) -> Reply
    ensures { result_of result (areas nodes.now levels.new workers.new) ≡ opening s.width s (areas nodes.now levels.old workers.old) }
{
    if let Err(r) = s.check_opening(nodes.len(), levels.len(), workers.len()) {
        return refusal(r, s);
    }
    fill_level(s.width, levels, 0, NONE, 0);
    fill_words(workers, 0, word_place(s.workers, 0), 0);
    replied(
        Answer::Nothing,
        Settings::fresh(s.workers, s.limit, s.nodes, s.viewers, s.width),
    )
}

// Row and column are at most 4,095.
#[tactic(auto, unfolding(rules::specs::Asked::question5, words::specs::Choice::both))]
fn in_frame(row: u32, column: u32) -> bool
    ensures { result ≡ question5 row column }
{
    row <= Settings::MAX_SIDE && column <= Settings::MAX_SIDE
}

#[tactic(auto, using(record::proofs::Numbers::tag_no))]
pub fn is_idle(h: Head) -> bool
    ensures { result ≡ eqb (kind_no h.kind) 0 }
{
    h.kind == Kind::Idle
}

// The head of a call that starts.
#[tactic(auto, unfolding(rules::specs::Heads::started))]
fn started(pixel: u32, h: Head) -> Head
    ensures { result ≡ started pixel h }
{
    Head {
        kind: Kind::Look,
        pixel,
        level: 0,
        ..h
    }
}

#[tactic(auto, unfolding(words::specs::Digits::pixel_number))]
fn pixel_number(row: u32, column: u32) -> u32
    requires row_bound { row ≤ 4095 }
    requires column_bound { column ≤ 4095 }
    ensures { result ≡ pixel_number row column }
{
    row * 4096 + column
}

// Questions 1 to 4, which start, turn and last answer ask of a worker.
#[tactic(auto, using(settings::proofs::Refusals::refusal_positive), unfolding(crate::specs::Cut::first_four, rules::specs::Asked::question4, words::specs::Choice::pick))]
pub fn check_worker(
    s: Settings,
    i: u32,
    nodes: &[u32],
    levels: &[u32],
    workers: &[u32],
) -> Result<(), Refusal>
    ensures { outcome_no result ≡ first_four s.width s i (length nodes.now) (length levels.now) (length workers.now) }
{
    s.check(nodes.len(), levels.len(), workers.len())?;
    if i < s.workers {
        Ok(())
    } else {
        Err(Refusal::Worker)
    }
}

// Question 17: a looking call is a viewer's, a placing call another worker's.
#[tactic(auto, unfolding(rules::specs::Asked::question17, words::specs::Choice::pick))]
fn sort_fits(s: Settings, looks: bool, i: u32) -> bool
    ensures { result ≡ question17 s looks i }
{
    s.views(i) == looks
}

// The record of worker i fits its layout. Of an idle worker, as most that start are, two words tell. A last answer asks `fits` itself: with that function called from
// one place alone, the compiler would call this one for every start.
#[tactic(auto, using(record::proofs::Tests::idle_is), unfolding(record::specs::Layout::load))]
fn record_fits(s: Settings, i: u32, workers: &[u32]) -> bool
    requires digit_width { DigitWidth s.width }
    requires limit_le_max_limit { s.limit ≤ max_limit }
    ensures { result ≡ fits s.width (views s i) s (load workers.now i) }
{
    let v = s.views(i);
    if idle_at(workers, i) {
        idle_fits(v, answer_at(workers, i))
    } else {
        fits(v, s, Head::load(workers, i), workers, i)
    }
}

// Questions 17, 6 and 7, which a start asks of worker i and its record.
#[tactic(auto, unfolding(crate::specs::Cut::after_five, rules::specs::Asked::question7, record::specs::Layout::load, words::specs::Choice::pick))]
fn check_record(s: Settings, looks: bool, i: u32, workers: &[u32]) -> Result<(), Refusal>
    requires digit_width { DigitWidth s.width }
    requires limit_le_max_limit { s.limit ≤ max_limit }
    ensures { outcome_no result ≡ after_five s.width s looks i (load workers.now i) }
{
    if !sort_fits(s, looks, i) {
        return Err(Refusal::Sort);
    }
    if !record_fits(s, i, workers) {
        return Err(Refusal::Memory);
    }
    if !idle_at(workers, i) {
        return Err(Refusal::Busy);
    }
    Ok(())
}

// The questions of a start: 1 to 5, 17, 6 and 7.
#[tactic(auto, using(crate::proofs::Starting::start_number, crate::proofs::Questions::four_wide, crate::proofs::Questions::four_limit, settings::proofs::Refusals::refusal_positive), unfolding(words::specs::Choice::pick))]
fn check_start(
    s: Settings,
    looks: bool,
    i: u32,
    row: u32,
    column: u32,
    nodes: &[u32],
    levels: &[u32],
    workers: &[u32],
) -> Result<(), Refusal>
    ensures { outcome_no result ≡ first_no (start_questions s.width s looks i row column (areas nodes.now levels.now workers.now)) }
{
    let frame = in_frame(row, column);
    check_worker(s, i, nodes, levels, workers)?;
    if !frame {
        return Err(Refusal::Pixel);
    }
    check_record(s, looks, i, workers)
}

// The record of a call that starts is written.
#[tactic(auto, unfolding(crate::specs::Cut::begun))]
fn begin_call(i: u32, row: u32, column: u32, workers: &mut [u32])
    requires row_bound { row ≤ 4095 }
    requires column_bound { column ≤ 4095 }
    ensures { workers.new ≡ begun i row column workers.old }
{
    let h = Head::load(workers, i);
    started(pixel_number(row, column), h).store(0, workers, i);
}

// A start, told by its outcome alone.
#[tactic(auto, using(crate::proofs::Starting::start_row, crate::proofs::Starting::start_column, crate::proofs::Starting::start_done, crate::proofs::Starting::start_refused, settings::proofs::Refusals::refusal_positive))]
pub fn begin(
    s: Settings,
    looks: bool,
    i: u32,
    row: u32,
    column: u32,
    nodes: &[u32],
    levels: &[u32],
    workers: &mut [u32],
) -> Result<(), Refusal>
    ensures { result_of (start_reply result s) (areas nodes.now levels.now workers.new) ≡ start s.width s looks i row column (areas nodes.now levels.now workers.old) }
{
    check_start(s, looks, i, row, column, nodes, levels, workers)?;
    begin_call(i, row, column, workers);
    Ok(())
}

// Start of a call of worker i for the pixel at row and column: it places the pixel, or looks for it.
pub fn start(
    s: Settings,
    looks: bool,
    i: u32,
    row: u32,
    column: u32,
    nodes: &[u32],
    levels: &[u32],
    workers: &mut [u32],
) -> Reply
    ensures { result_of result (areas nodes.now levels.now workers.new) ≡ start s.width s looks i row column (areas nodes.now levels.now workers.old) }
{
    match begin(s, looks, i, row, column, nodes, levels, workers) {
        Ok(()) => replied(Answer::Open, s),
        Err(r) => refusal(r, s),
    }
}

// The answer that a record holds.
#[tactic(auto, unfolding(rules::specs::Operations::last_of, words::specs::Choice::pick))]
pub fn answer_in(h: Head) -> Answer
    ensures { result ≡ last_of h }
{
    if is_idle(h) {
        answer_of(h.answer, h.answer_node)
    } else {
        Answer::Open
    }
}

// Questions 1 to 4 and 6, which a last answer asks.
#[tactic(auto, using(crate::proofs::Last::last_number, crate::proofs::Questions::four_wide, crate::proofs::Questions::four_limit, settings::proofs::Refusals::refusal_positive), unfolding(words::specs::Choice::pick))]
fn check_last(
    s: Settings,
    i: u32,
    nodes: &[u32],
    levels: &[u32],
    workers: &[u32],
) -> Result<(), Refusal>
    ensures { outcome_no result ≡ first_no (last_questions s.width s i (areas nodes.now levels.now workers.now)) }
{
    check_worker(s, i, nodes, levels, workers)?;
    let h = Head::load(workers, i);
    if fits(s.views(i), s, h, workers, i) {
        Ok(())
    } else {
        Err(Refusal::Memory)
    }
}

// The last answer of worker i.
#[tactic(auto, using(crate::proofs::Last::last_done, crate::proofs::Last::last_refused, settings::proofs::Refusals::refusal_positive))]
pub fn last_answer(s: Settings, i: u32, nodes: &[u32], levels: &[u32], workers: &[u32]) -> Reply
    ensures { result_of result (areas nodes.now levels.now workers.now) ≡ last_answer s.width s i (areas nodes.now levels.now workers.now) }
{
    match check_last(s, i, nodes, levels, workers) {
        Ok(()) => replied(answer_in(Head::load(workers, i)), s),
        Err(r) => refusal(r, s),
    }
}
