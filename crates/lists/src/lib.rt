// The parts of a list of turns with a limit and of one turn, of which the C interface is made; one turn as a public operation, for the text program.
// Relies on turns for the turn of a worker, on settings and table for the questions that are asked before.

#![tactic(auto)]

ghost use Rattle.std.specs.Prelude.{◌≡◌, true, false, ◌∷◌, ◌+◌, ◌-◌, ◌≤◌, ◌<◌, ltb, length, Ok, Err};
ghost use Rattle.words.specs.Choice.{every, first_no};
ghost use Rattle.settings.specs.Sizes.{views};
ghost use Rattle.settings.specs.Cut.{first_three};
ghost use Rattle.areas.specs.Memory.{areas};
ghost use Rattle.record.specs.Kinds.{kind_no};
ghost use Rattle.record.specs.Layout.{head_at};
ghost use Rattle.rules.specs.Operations.{result_of, reply, turn};
ghost use Rattle.rules.specs.Lists.{state, list_questions};
ghost use Rattle.rules.specs.Exchanges.{done_in, failed_in};
ghost use Rattle.turns.specs.Cut.{done_at};
ghost use Rattle.settings.specs.Refusals.{refusal_no, outcome_no};
ghost use Rattle.lists.specs.Cut.{run, stand, went, ended, counted_by, ran_of, tally, idle_tally, open_tally, next_tally, ran_entry, ran_list, idle_number, refused_turn, told_reply};

use record::{Answer, Exchange, Head, Reply, answer_at, idle_at, idle_fits};
use settings::{Refusal, Settings};
use table::{answer_in, check_worker, refusal, replied};
use turns::{Done, open_here, view_here};

// Where a list of turns stands: nodes taken, levels taken, the turns that may still be done, and the exchanges done and failed. A turn changes no other setting.
#[derive(Clone, Copy)]
pub struct Tally {
    pub nodes_taken: u32,
    pub levels_taken: u32,
    pub left: u32,
    pub done: u32,
    pub failed: u32,
}

// What a list of turns has come to, and the 6 that has ended it, if one has.
#[derive(Clone, Copy)]
pub struct Ran {
    pub tally: Tally,
    pub outcome: Result<(), Refusal>,
}

impl Ran {
    // The number of the refusal that has ended the list, or 0.
    pub fn number(self) -> u32
        ensures { result ≡ (ended self).number }
    {
        match self.outcome {
            Ok(()) => 0,
            Err(r) => r.into(),
        }
    }
}

// The tally after an entry, or the 6 that ends the list there and leaves the tally.
type Outcome = Result<Tally, Refusal>;

// An entry whose worker is idle, by the number of its last answer: it is skipped, or its record does not fit.
#[tactic(auto, unfolding(crate::specs::Cut::idle_tally, words::specs::Choice::pick))]
fn idle_entry(v: bool, t: Tally, answer: u32) -> Outcome
    ensures { went t result ≡ idle_tally v (stand 0 t) answer }
{
    if idle_fits(v, answer) {
        Ok(t)
    } else {
        Err(Refusal::Memory)
    }
}

// The tally after a turn that was done, with its counts and the exchanges counted.
fn next_tally(t: Tally, nodes_taken: u32, levels_taken: u32, done: u32, failed: u32) -> Tally
    requires { 1 ≤ t.left }
    ensures { stand 0 result ≡ tally 0 nodes_taken levels_taken (t.left - 1) done failed }
{
    Tally {
        nodes_taken,
        levels_taken,
        left: t.left - 1,
        done,
        failed,
    }
}

// The tally after a turn of a worker with a call open that was done.
#[tactic(auto, unfolding(rules::specs::Exchanges::done_in, rules::specs::Exchanges::failed_in))]
fn done_tally(t: Tally, d: Done) -> Tally
    requires le_left { 1 ≤ t.left }
    requires left_bound { t.done + t.failed + t.left ≤ 4294967295 }
    ensures { stand 0 result ≡ next_tally (stand 0 t) (done_at t.nodes_taken t.levels_taken (Ok d)) (t.done + done_in d.exchange) (t.failed + failed_in d.exchange) }
{
    match d.exchange {
        Exchange::None => next_tally(t, d.nodes_taken, d.levels_taken, t.done, t.failed),
        Exchange::Done => next_tally(t, d.nodes_taken, d.levels_taken, t.done + 1, t.failed),
        Exchange::Failed => next_tally(t, d.nodes_taken, d.levels_taken, t.done, t.failed + 1),
    }
}

// The tally after a turn of such a worker that was refused: a 6 ends the list, "full" is one turn less.
#[tactic(auto, unfolding(crate::specs::Cut::open_tally, words::specs::Choice::pick))]
fn refused_tally(t: Tally, r: Refusal) -> Outcome
    requires { 1 ≤ t.left }
    ensures { went t result ≡ open_tally (stand 0 t) (done_at t.nodes_taken t.levels_taken (Err r)) }
{
    match r {
        Refusal::Memory => Err(Refusal::Memory),
        _ => Ok(next_tally(t, t.nodes_taken, t.levels_taken, t.done, t.failed)),
    }
}

// The tally after any turn of a worker with a call open.
#[tactic(auto, unfolding(crate::specs::Cut::open_tally, words::specs::Choice::pick))]
fn tallied(t: Tally, d: Result<Done, Refusal>) -> Outcome
    requires le_left { 1 ≤ t.left }
    requires left_bound { t.done + t.failed + t.left ≤ 4294967295 }
    ensures { went t result ≡ open_tally (stand 0 t) (done_at t.nodes_taken t.levels_taken d) }
{
    match d {
        Ok(d) => Ok(done_tally(t, d)),
        Err(r) => refused_tally(t, r),
    }
}

// An entry whose worker is no viewer and has a call open.
fn open_entry(
    s: Settings,
    t: Tally,
    i: u32,
    nodes: &mut [u32],
    levels: &mut [u32],
    workers: &mut [u32],
) -> Outcome
    requires le_left { 1 ≤ t.left }
    requires left_bound { t.done + t.failed + t.left ≤ 4294967295 }
    requires workers_value { first_three s.width (counted_by s (stand 0 t)) (length nodes.old) (length levels.old) (length workers.old) ≡ 0 }
    requires i_lt_workers { i < s.workers }
    requires bound { 1 ≤ kind_no (head_at workers.old i).kind }
    requires i_value { views s i ≡ false }
    ensures { ran_of s (went t result) (areas nodes.new levels.new workers.new) ≡ ran_entry s.width (ran_of s (stand 0 t) (areas nodes.old levels.old workers.old)) i }
{
    let n = s.with_counts(t.nodes_taken, t.levels_taken);
    let d = open_here(n, i, nodes, levels, workers);
    tallied(t, d)
}

// One entry of a list of turns that goes on.
fn entry(
    s: Settings,
    t: Tally,
    i: u32,
    nodes: &mut [u32],
    levels: &mut [u32],
    workers: &mut [u32],
) -> Outcome
    requires le_left { 1 ≤ t.left }
    requires left_bound { t.done + t.failed + t.left ≤ 4294967295 }
    requires workers_value { first_three s.width (counted_by s (stand 0 t)) (length nodes.old) (length levels.old) (length workers.old) ≡ 0 }
    requires i_lt_workers { i < s.workers }
    ensures { ran_of s (went t result) (areas nodes.new levels.new workers.new) ≡ ran_entry s.width (ran_of s (stand 0 t) (areas nodes.old levels.old workers.old)) i }
{
    if idle_at(workers, i) {
        idle_entry(s.views(i), t, answer_at(workers, i))
    } else if s.views(i) {
        let n = s.with_counts(t.nodes_taken, t.levels_taken);
        let d = view_here(n, i, nodes, levels, workers);
        tallied(t, d)
    } else {
        open_entry(s, t, i, nodes, levels, workers)
    }
}

// Every entry of a list is below n: question 4 of a list of turns. A fold without early exit, and not `all`, so that the compiler asks several entries at once.
fn all_below(list: &[u8], n: u32) -> bool
    ensures { result ≡ every (λ i. ltb i n) list.now }
{
    list.iter().fold(true, |ok, i| ok & (u32::from(*i) < n))
}

// A list that no 6 has ended.
fn carried_out(tally: Tally) -> Ran
    ensures { ended result ≡ stand 0 tally }
{
    Ran {
        tally,
        outcome: Ok(()),
    }
}

// The entries of a list, one after the other, until its limit is used up or a 6 is met: worker `first`, then those in `rest`. One turn is a list without a rest, so
// that a library has the code of a turn once, inside this loop; its worker is not read from memory.
pub fn run_list(
    s: Settings,
    first: u32,
    rest: &[u8],
    limit: u32,
    nodes: &mut [u32],
    levels: &mut [u32],
    workers: &mut [u32],
) -> Ran
    requires workers_value { first_three s.width s (length nodes.old) (length levels.old) (length workers.old) ≡ 0 }
    requires rest_value { every (λ i. ltb i s.workers) (first ∷ rest.now) ≡ true }
    ensures { ran_of s (ended result) (areas nodes.new levels.new workers.new) ≡ ran_list s.width (first ∷ rest.now) (run 0 (state s (areas nodes.old levels.old workers.old)) limit 0 0) }
{
    let mut t = Tally {
        nodes_taken: s.nodes_taken,
        levels_taken: s.levels_taken,
        left: limit,
        done: 0,
        failed: 0,
    };
    let mut i = first;
    let mut after = rest.iter();
    loop {
        if t.left == 0 {
            return carried_out(t);
        }
        match entry(s, t, i, nodes, levels, workers) {
            Ok(next) => t = next,
            Err(r) => {
                return Ran {
                    tally: t,
                    outcome: Err(r),
                };
            }
        }
        match after.next() {
            Some(worker) => i = u32::from(*worker),
            None => return carried_out(t),
        }
    }
}

// Questions 1 to 4 of a list of turns.
#[tactic(auto, using(crate::proofs::Ways::list_first, settings::proofs::Refusals::refusal_positive), unfolding(rules::specs::Asked::question4_all, rules::specs::Asked::question4, words::specs::Choice::pick))]
pub fn check_list(
    s: Settings,
    list: &[u8],
    nodes: &[u32],
    levels: &[u32],
    workers: &[u32],
) -> Result<(), Refusal>
    ensures { outcome_no result ≡ first_no (list_questions s.width s list.now (areas nodes.now levels.now workers.now)) }
{
    s.check(nodes.len(), levels.len(), workers.len())?;
    if all_below(list, s.workers) {
        Ok(())
    } else {
        Err(Refusal::Worker)
    }
}

// What a list of turns gives at its end, with its settings then: the turns done are those that the limit has been counted down by.
pub fn ended_list(s: Settings, number: u32, t: Tally, limit: u32) -> Reply
    ensures { result ≡ reply number Answer.Nothing (limit - t.left) s }
{
    Reply {
        number,
        answer: Answer::Nothing,
        turns: limit.saturating_sub(t.left),
        settings: s,
    }
}

// What a turn of worker i that was done gives back, from its record after it: "full" is number 9.
pub fn turn_reply(s: Settings, workers: &[u32], i: u32) -> Reply
    ensures { result ≡ told_reply (head_at workers.now i) s }
{
    let answer = answer_in(Head::load(workers, i));
    match answer {
        Answer::Full => Reply {
            number: Refusal::Full.into(),
            answer,
            turns: 0,
            settings: s,
        },
        _ => replied(answer, s),
    }
}

// A turn of an idle worker is refused, by the number of its last answer; v says whether the worker is a viewer.
#[tactic(auto, unfolding(crate::specs::Cut::idle_number, words::specs::Choice::pick))]
fn idle_refusal(v: bool, answer: u32) -> Refusal
    ensures { refusal_no result ≡ idle_number v answer }
{
    if idle_fits(v, answer) {
        Refusal::Idle
    } else {
        Refusal::Memory
    }
}

// What refuses a turn of worker i before its record is asked further: questions 1 to 4, and 8 or 6 of an idle worker.
#[tactic(auto, using(settings::proofs::Refusals::refusal_positive), unfolding(crate::specs::Cut::refused_turn, words::specs::Choice::pick))]
pub fn check_turn(
    s: Settings,
    i: u32,
    nodes: &[u32],
    levels: &[u32],
    workers: &[u32],
) -> Result<(), Refusal>
    ensures { outcome_no result ≡ refused_turn s.width s i (areas nodes.now levels.now workers.now) }
{
    check_worker(s, i, nodes, levels, workers)?;
    if !idle_at(workers, i) {
        return Ok(());
    }
    Err(idle_refusal(s.views(i), answer_at(workers, i)))
}

// A turn of a worker with a call open, as a list of one entry.
fn open_turn(
    s: Settings,
    i: u32,
    nodes: &mut [u32],
    levels: &mut [u32],
    workers: &mut [u32],
) -> Reply
    requires { refused_turn s.width s i (areas nodes.old levels.old workers.old) ≡ 0 }
    ensures { result_of result (areas nodes.new levels.new workers.new) ≡ turn s.width s i (areas nodes.old levels.old workers.old) }
{
    // no entry but this worker
    let r = run_list(s, i, &[], 1, nodes, levels, workers);
    match r.outcome {
        Ok(()) => turn_reply(
            s.with_counts(r.tally.nodes_taken, r.tally.levels_taken),
            workers,
            i,
        ),
        Err(q) => refusal(q, s),
    }
}

// One turn of worker i.
#[tactic(auto, using(crate::proofs::Ways::turn_refused, settings::proofs::Refusals::refusal_positive))]
pub fn turn(
    s: Settings,
    i: u32,
    nodes: &mut [u32],
    levels: &mut [u32],
    workers: &mut [u32],
) -> Reply
    ensures { result_of result (areas nodes.new levels.new workers.new) ≡ turn s.width s i (areas nodes.old levels.old workers.old) }
{
    match check_turn(s, i, nodes, levels, workers) {
        Ok(()) => open_turn(s, i, nodes, levels, workers),
        Err(r) => refusal(r, s),
    }
}
