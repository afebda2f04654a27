// A turn of a worker with a call open, once questions 1 to 4 are answered yes: the record is loaded, its kind's method is called, what it leaves is stored.
// Relies on worker and mover for the turns, on record for the worker's words.

#![tactic(auto)]

ghost use Rattle.std.specs.Prelude.{◌≡◌, true, false, [], ◌+◌, ◌*◌, ◌≤◌, length, Ok, IfOk};
ghost use Rattle.settings.specs.Sizes.{worker_words};
ghost use Rattle.settings.specs.Cut.{Sized};
ghost use Rattle.areas.specs.Memory.{areas, memory};
ghost use Rattle.record.specs.Kinds.{kind_no};
ghost use Rattle.record.specs.Layout.{record', load, head_at, store};
ghost use Rattle.record.specs.Fits.{viewing, fits};
ghost use Rattle.rules.specs.Exchanges.{exchange_of};
ghost use Rattle.steps.specs.Cut.{begun};
ghost use Rattle.turns.specs.Cut.{tried_of, finished, left_by, done_of, by_held, by_remembered, came_to, did, did_of, did_as};

use mover::Mover;
use record::{Answer, Exchange, Head, Kind, Move, inside, move_fits, search_fits};
use settings::{Refusal, Settings};
use worker::{Turned, Worker};

// What a turn that is done leaves of the settings, and what its exchange came to. Its answer stands in the record.
#[derive(Clone, Copy)]
pub struct Done {
    pub nodes_taken: u32,
    pub levels_taken: u32,
    pub exchange: Exchange,
}

// A turn that is done, or its refusal: by 6, or by 9 where its call has ended "full". A refusal leaves the settings.
type Outcome = Result<Done, Refusal>;

fn turn_done(s: Settings, exchange: Exchange) -> Outcome
    ensures { result ≡ Ok (left_by s exchange) }
{
    Ok(Done {
        nodes_taken: s.nodes_taken,
        levels_taken: s.levels_taken,
        exchange,
    })
}

// Put, Append, Close, SetClose: what was put into the cell is no longer in hand.
#[tactic(auto, unfolding(crate::specs::Cut::by_held, words::specs::Choice::pick))]
fn by_held(held: u32) -> Exchange
    ensures { result ≡ by_held held }
{
    if held == 0 {
        Exchange::Done
    } else {
        Exchange::Failed
    }
}

// SetPut, SetAppend: the node that was put into the cell is no longer remembered.
#[tactic(auto, unfolding(crate::specs::Cut::by_remembered, words::specs::Choice::pick))]
fn by_remembered(before: u32, after: u32) -> Exchange
    ensures { result ≡ by_remembered before after }
{
    if after < before {
        Exchange::Done
    } else {
        Exchange::Failed
    }
}

// What the exchange of a turn came to, by the kind before the turn, the head after it, and the nodes that the innermost Move remembered before and after.
#[tactic(auto, using(crate::proofs::Exchanged::came_kind), unfolding(crate::specs::Cut::came_to, record::specs::Kinds::kind_no, words::specs::Choice::pick))]
fn came_to(k: Kind, h: Head, before: u32, after: u32) -> Exchange
    ensures { result ≡ came_to (kind_no k) h before after }
{
    match k {
        Kind::Put | Kind::Append => by_held(h.held_node),
        Kind::Close | Kind::SetClose => by_held(h.held_level),
        Kind::SetPut | Kind::SetAppend => by_remembered(before, after),
        _ => Exchange::None,
    }
}

// What a searching turn leaves in the worker's words: the head, and a Move that has begun.
#[tactic(auto, using(crate::proofs::Finish::keep_none))]
fn keep_search(t: Turned, i: u32, workers: &mut [u32])
    ensures { workers.new ≡ store (record' t.worker.head (begun t.worker.head.level t.child [])) i workers.old }
{
    let h = t.worker.head;
    match t.child {
        None => h.store(0, workers, i),
        Some(child) => {
            h.store(1, workers, i);
            Move::fresh(h.level, child).store(workers, i, 0);
        }
    }
}

// A turn of a worker with a searching head.
fn search_turn(
    s: Settings,
    i: u32,
    h: Head,
    nodes: &mut [u32],
    levels: &mut [u32],
    workers: &mut [u32],
) -> Outcome
    requires sized { Sized s }
    requires bound { 1 ≤ kind_no h.kind }
    requires kind_bound { kind_no h.kind ≤ 10 }
    ensures { did (done_of s result) (areas nodes.new levels.new workers.new) ≡ did_of (exchange_of s.width (record' h []) (memory nodes.old levels.old)) (finished (tried_of s.width false s (record' h []) (memory nodes.old levels.old)) i s (areas nodes.old levels.old workers.old)) }
{
    let t = Worker { head: h }.turn(s, nodes, levels)?;
    keep_search(t, i, workers);
    match t.answer {
        Answer::Full => Err(Refusal::Full),
        _ => turn_done(t.settings, came_to(h.kind, t.worker.head, 0, 0)),
    }
}

// A turn of a worker with a moving head.
fn move_turn(
    s: Settings,
    i: u32,
    h: Head,
    nodes: &mut [u32],
    levels: &mut [u32],
    workers: &mut [u32],
) -> Outcome
    requires sized { Sized s }
    requires worker_words_in_bounds { worker_words * i + worker_words ≤ length workers.old }
    requires h_value { h ≡ head_at workers.old i }
    requires i_value { fits s.width false s (load workers.old i) ≡ true }
    requires bound { 11 ≤ kind_no h.kind }
    ensures { did (done_of s result) (areas nodes.new levels.new workers.new) ≡ did_of (exchange_of s.width (load workers.old i) (memory nodes.old levels.old)) (finished (tried_of s.width false s (load workers.old i) (memory nodes.old levels.old)) i s (areas nodes.old levels.old workers.old)) }
{
    let v = Mover::load(workers, i, h);
    let t = v.turn(s, nodes, levels)?;
    let m = t.mover;
    m.store(workers, i);
    turn_done(
        t.settings,
        came_to(h.kind, m.head, v.inner.count, m.inner.count),
    )
}

// A turn of a worker with a searching head: that the record fits, which is the first part of question 6, then the turn. One function of these and the next, with the
// test and the turn as closures, would say no more than the three `if`s.
#[tactic(auto, using(crate::proofs::Ways::here_search, crate::proofs::Ways::here_six))]
fn search_here(
    s: Settings,
    i: u32,
    h: Head,
    nodes: &mut [u32],
    levels: &mut [u32],
    workers: &mut [u32],
) -> Outcome
    requires sized { Sized s }
    requires h_value { h ≡ head_at workers.old i }
    requires bound { 1 ≤ kind_no h.kind }
    requires kind_bound { kind_no h.kind ≤ 10 }
    ensures { did (done_of s result) (areas nodes.new levels.new workers.new) ≡ did_as s.width false s i (areas nodes.old levels.old workers.old) }
{
    if search_fits(s, h, workers, i) {
        search_turn(s, i, h, nodes, levels, workers)
    } else {
        Err(Refusal::Memory)
    }
}

// The same with a moving head.
#[tactic(auto, using(crate::proofs::Ways::here_move, crate::proofs::Ways::here_six))]
fn move_here(
    s: Settings,
    i: u32,
    h: Head,
    nodes: &mut [u32],
    levels: &mut [u32],
    workers: &mut [u32],
) -> Outcome
    requires sized { Sized s }
    requires worker_words_in_bounds { worker_words * i + worker_words ≤ length workers.old }
    requires h_value { h ≡ head_at workers.old i }
    requires bound { 11 ≤ kind_no h.kind }
    ensures { did (done_of s result) (areas nodes.new levels.new workers.new) ≡ did_as s.width false s i (areas nodes.old levels.old workers.old) }
{
    if move_fits(s, h, workers, i) {
        move_turn(s, i, h, nodes, levels, workers)
    } else {
        Err(Refusal::Memory)
    }
}

// A turn of a worker that places, with a call open, once questions 1 to 4 are answered yes. The head decides what is loaded further. The place of the record is
// tested once, here.
#[tactic(auto, using(crate::proofs::Ways::head_open, crate::proofs::Ways::did_outside))]
pub fn open_here(
    s: Settings,
    i: u32,
    nodes: &mut [u32],
    levels: &mut [u32],
    workers: &mut [u32],
) -> Outcome
    requires sized { Sized s }
    requires worker_words_in_bounds { worker_words * i + worker_words ≤ length workers.old }
    requires bound { 1 ≤ kind_no (head_at workers.old i).kind }
    ensures { did (done_of s result) (areas nodes.new levels.new workers.new) ≡ did_as s.width false s i (areas nodes.old levels.old workers.old) }
{
    if inside(workers, i) {
        let h = Head::load(workers, i);
        // read word by word, as the caller has just written them: a block of words read at once would wait for those writes
        let n = Settings {
            workers: s.workers,
            limit: s.limit,
            nodes: s.nodes,
            nodes_taken: s.nodes_taken,
            levels_taken: s.levels_taken,
            viewers: s.viewers,
            width: s.width,
        };
        if h.kind.searches() {
            search_here(n, i, h, nodes, levels, workers)
        } else {
            move_here(n, i, h, nodes, levels, workers)
        }
    } else {
        Err(Refusal::Memory)
    }
}

// A turn of a viewer whose record fits.
#[tactic(auto, using(crate::proofs::Views::view_refused, crate::proofs::Views::view_done))]
fn view_turn(
    s: Settings,
    i: u32,
    h: Head,
    nodes: &[u32],
    levels: &[u32],
    workers: &mut [u32],
) -> Outcome
    requires sized { Sized s }
    requires kind_value { viewing (kind_no h.kind) ≡ true }
    ensures workers_after { did (done_of s result) (areas nodes.now levels.now workers.new) ≡ did_of (exchange_of s.width (record' h []) (memory nodes.now levels.now)) (finished (tried_of s.width true s (record' h []) (memory nodes.now levels.now)) i s (areas nodes.now levels.now workers.old)) }
    ensures counts { IfOk result (λ d. (d.nodes_taken ≡ s.nodes_taken) × (d.levels_taken ≡ s.levels_taken)) }
{
    let t = Worker { head: h }.view(s, nodes, levels)?;
    t.worker.head.store(0, workers, i);
    turn_done(s, Exchange::None)
}

// A turn of a viewer at one of a viewer's kinds: that the record fits, then the turn.
#[tactic(auto, using(crate::proofs::Ways::view_open, crate::proofs::Ways::view_six, crate::proofs::Views::viewing_low, crate::proofs::Views::viewing_high))]
fn view_fitting(
    s: Settings,
    i: u32,
    h: Head,
    nodes: &[u32],
    levels: &[u32],
    workers: &mut [u32],
) -> Outcome
    requires sized { Sized s }
    requires h_value { h ≡ head_at workers.old i }
    requires kind_value { viewing (kind_no h.kind) ≡ true }
    ensures workers_after { did (done_of s result) (areas nodes.now levels.now workers.new) ≡ did_as s.width true s i (areas nodes.now levels.now workers.old) }
    ensures counts { IfOk result (λ d. (d.nodes_taken ≡ s.nodes_taken) × (d.levels_taken ≡ s.levels_taken)) }
{
    if search_fits(s, h, workers, i) {
        view_turn(s, i, h, nodes, levels, workers)
    } else {
        Err(Refusal::Memory)
    }
}

// A turn of a viewer with a call open, once questions 1 to 4 are answered yes.
#[tactic(auto, using(crate::proofs::Ways::view_none, crate::proofs::Ways::view_kind))]
pub fn view_here(s: Settings, i: u32, nodes: &[u32], levels: &[u32], workers: &mut [u32]) -> Outcome
    requires sized { Sized s }
    requires bound { 1 ≤ kind_no (head_at workers.old i).kind }
    ensures workers_after { did (done_of s result) (areas nodes.now levels.now workers.new) ≡ did_as s.width true s i (areas nodes.now levels.now workers.old) }
    ensures counts { IfOk result (λ d. (d.nodes_taken ≡ s.nodes_taken) × (d.levels_taken ≡ s.levels_taken)) }
{
    let h = Head::load(workers, i);
    if h.kind.viewing() {
        view_fitting(s, i, h, nodes, levels, workers)
    } else {
        Err(Refusal::Memory)
    }
}
