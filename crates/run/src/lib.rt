// The run of the text program: one line carried out, and what is to be printed next.
// Relies on text for lines, on table and lists for the operations, on printing for what is printed.

#![tactic(auto)]

ghost use Rattle.std.specs.Prelude.{◌≡◌, true, List, ℕ, ◌+◌, ◌≤◌, eqb, leb, length};
ghost use Rattle.words.specs.Choice.{pick};
ghost use Rattle.settings.specs.Refusals.{refusal_no};
ghost use Rattle.settings.specs.Sizes.{fresh};
ghost use Rattle.areas.specs.Memory.{Areas, areas};
ghost use Rattle.record.specs.Layout.{head_at};
ghost use Rattle.rules.specs.Operations.{result_of, refused, opening, start, turn};
ghost use Rattle.rules.specs.Lists.{state};
ghost use Rattle.run.specs.Program.{width, line, start_line, turn_prints, turn_line, carried, first_line};
ghost use Rattle.run.specs.Remaining.{progress, told, begun, counted, can_stand, Prints, Next, goes_on};

use lists::turn;
use printing::Printed;
use record::{Answer, Head, Reply};
use settings::{Refusal, Settings};
use table::{open, refusal, start};
use text::{Command, command_of, find};

// The most bytes of input that are read as lines.
pub const MAX_INPUT: usize = 65536;

// The most nodes of a table: so many the program lends memory for.
pub const MAX_NODES: u32 = 128;

// How far a run is: nothing is printed yet; the input is too long; the first line is to be read; the later lines; the end line is to be printed; all is printed.
#[derive(Clone, Copy)]
pub enum Stage {
    Begin,
    TooLong,
    First,
    Lines,
    Last,
    Done,
}

// The stage, the number of the next line, the place of its first byte, and the table's settings.
#[derive(Clone, Copy)]
pub struct Progress {
    pub stage: Stage,
    pub line: u32,
    pub at: usize,
    pub settings: Settings,
}

// What is printed next, and where the run stands then.
#[derive(Clone, Copy)]
pub struct Told {
    pub printed: Printed,
    pub progress: Progress,
}

// What a line prints, and the settings that it leaves. It is no generic type with Told, which the theorem `run_writes` speaks of.
#[derive(Clone, Copy)]
pub struct Said {
    pub printed: Printed,
    pub settings: Settings,
}

// A refused line.
fn refused(line: u32, r: Refusal) -> Printed
    ensures { result ≡ Printed.Refused line (refusal_no r) }
{
    Printed::Refused(line, r.into())
}

// Line n is a start. Its Reply is tested by its number, since `start_line` is stated over it.
#[tactic(auto, unfolding(crate::specs::Program::start_line, words::specs::Choice::pick))]
fn start_line(
    n: u32,
    looks: bool,
    i: u32,
    row: u32,
    column: u32,
    s: Settings,
    nodes: &[u32],
    levels: &[u32],
    workers: &mut [u32],
) -> Said
    ensures { line result.printed (state result.settings (areas nodes.now levels.now workers.new)) ≡ start_line n (start s.width s looks i row column (areas nodes.now levels.now workers.old)) }
{
    let r = start(s, looks, i, row, column, nodes, levels, workers);
    let printed = if r.number == 0 {
        Printed::Nothing
    } else {
        Printed::Refused(n, r.number)
    };
    Said {
        printed,
        settings: r.settings,
    }
}

// What a turn of worker i prints as line n. Document 01: "full .. prints no refused line".
#[tactic(auto, unfolding(crate::specs::Program::turn_prints))]
fn turn_prints(n: u32, i: u32, pixel: u32, r: Reply) -> Printed
    ensures { result ≡ turn_prints n i pixel r.number r.answer }
{
    match r.answer {
        Answer::Nothing => Printed::Refused(n, r.number),
        Answer::New(m) => Printed::New(i, pixel, m),
        Answer::Found(m) => Printed::Found(i, pixel, m),
        Answer::Full => Printed::Full(i, pixel),
        Answer::Open => Printed::Nothing,
        Answer::Absent => Printed::Absent(i, pixel),
    }
}

// Line n is a turn. The pixel is that of the worker's call, read before the turn that may end it.
#[tactic(auto, unfolding(crate::specs::Program::turn_line))]
fn turn_line(
    n: u32,
    i: u32,
    s: Settings,
    nodes: &mut [u32],
    levels: &mut [u32],
    workers: &mut [u32],
) -> Said
    ensures { line result.printed (state result.settings (areas nodes.new levels.new workers.new)) ≡ turn_line n i (head_at workers.old i).pixel (turn s.width s i (areas nodes.old levels.old workers.old)) }
{
    let pixel = Head::load(workers, i).pixel;
    let r = turn(s, i, nodes, levels, workers);
    Said {
        printed: turn_prints(n, i, pixel, r),
        settings: r.settings,
    }
}

// Line n, which is not the first, as the command that it reads as. Where it does not read, nothing is done.
#[tactic(auto, unfolding(crate::specs::Program::carried, record::specs::Layout::load))]
pub fn carry(
    n: u32,
    c: Option<Command>,
    s: Settings,
    nodes: &mut [u32],
    levels: &mut [u32],
    workers: &mut [u32],
) -> Said
    ensures { line result.printed (state result.settings (areas nodes.new levels.new workers.new)) ≡ carried n c (state s (areas nodes.old levels.old workers.old)) }
{
    match c {
        Some(Command::Starts(i, row, column)) => start_line(
            n, false, i, row, column, s, nodes, levels, workers,
        ),
        Some(Command::Views(i, row, column)) => start_line(
            n, true, i, row, column, s, nodes, levels, workers,
        ),
        Some(Command::Turns(i)) => turn_line(n, i, s, nodes, levels, workers),
        _ => Said {
            printed: refused(n, Refusal::Line),
            settings: s,
        },
    }
}

// The first line with its sizes.
#[tactic(auto, unfolding(words::specs::Choice::pick))]
fn open_sizes(s: Settings, nodes: &[u32], levels: &mut [u32], workers: &mut [u32]) -> Reply
    ensures { result_of result (areas nodes.now levels.new workers.new) ≡ pick (leb s.nodes 128) (opening s.width s (areas nodes.now levels.old workers.old)) (refused 1 s (areas nodes.now levels.old workers.old)) }
{
    if s.nodes <= MAX_NODES {
        open(s, nodes, levels, workers)
    } else {
        refusal(Refusal::Settings, s)
    }
}

// Settings before any are read.
fn unset() -> Settings
    ensures { result ≡ fresh 0 0 0 0 width }
{
    Settings::fresh(0, 0, 0, 0, Settings::WIDTH_3)
}

// The first line as the command that it reads as: an opening, or its refusal.
#[tactic(auto, unfolding(crate::specs::Program::first_line, settings::specs::Sizes::fresh))]
pub fn open_first(
    c: Option<Command>,
    nodes: &[u32],
    levels: &mut [u32],
    workers: &mut [u32],
) -> Reply
    ensures { result_of result (areas nodes.now levels.new workers.new) ≡ first_line c (areas nodes.now levels.old workers.old) }
{
    match c {
        Some(Command::Sizes(count, limit, most, viewers)) => open_sizes(
            Settings::fresh(count, limit, most, viewers, Settings::WIDTH_3),
            nodes,
            levels,
            workers,
        ),
        _ => refusal(Refusal::Line, unset()),
    }
}

// A run before anything is printed.
pub fn begin() -> Progress
    ensures { result ≡ begun }
{
    Progress {
        stage: Stage::Begin,
        line: 1,
        at: 0,
        settings: unset(),
    }
}

// Whether something is still to be printed. It is no Option that `next` gives: the theorem `run_writes` is over a loop that asks this before each `next`.
#[tactic(auto, unfolding(crate::specs::Remaining::goes_on))]
pub fn goes_on(p: Progress) -> bool
    ensures { result ≡ goes_on p.stage }
{
    !matches!(p.stage, Stage::Done)
}

// A thing to print, and the same run at another stage.
fn tell(printed: Printed, stage: Stage, p: Progress) -> Told
    ensures { result ≡ told printed (progress stage p.line p.at p.settings) }
{
    Told {
        printed,
        progress: Progress { stage, ..p },
    }
}

// The header, which is always printed.
fn next_begin(p: Progress, input: &[u8]) -> Told
    requires { p.stage ≡ Stage.Begin }
    ensures { ((a : Areas) → Prints p input.now a result a) }
{
    let is_short = input.len() <= MAX_INPUT;
    if is_short {
        tell(Printed::Header, Stage::First, p)
    } else {
        tell(Printed::Header, Stage::TooLong, p)
    }
}

// The first line is carried out or refused; behind it, at k, the second begins. A Reply is tested by its number, since `first_line` is stated over it.
#[tactic(auto, unfolding(words::specs::Choice::pick))]
fn opened(r: Reply, k: usize) -> Told
    ensures { result ≡ pick (eqb r.number 0) (told Printed.Nothing (progress Stage.Lines 2 k r.settings)) (told (Printed.Refused 1 r.number) (progress Stage.Done 2 k r.settings)) }
{
    let p = Progress {
        stage: Stage::Lines,
        line: 2,
        at: k,
        settings: r.settings,
    };
    if r.number == 0 {
        tell(Printed::Nothing, Stage::Lines, p)
    } else {
        tell(Printed::Refused(1, r.number), Stage::Done, p)
    }
}

// The end line: the nodes and levels taken.
fn end_line(s: Settings) -> Printed
    ensures { result ≡ Printed.End s.nodes_taken s.levels_taken }
{
    Printed::End(s.nodes_taken, s.levels_taken)
}

// A later line of m bytes was carried out.
fn next_line(p: Progress, m: usize, x: Said) -> Told
    requires line_bound { p.line ≤ 65537 }
    requires m_bound { p.at + m ≤ 65536 }
    ensures { result ≡ told x.printed (progress Stage.Lines (p.line + 1) (p.at + m + 1) x.settings) }
{
    Told {
        printed: x.printed,
        progress: Progress {
            stage: Stage::Lines,
            line: p.line + 1,
            at: p.at + m + 1,
            settings: x.settings,
        },
    }
}

// What the bytes behind the last byte 10 print: none are the end, and others are a refused line.
#[tactic(auto, unfolding(words::specs::Choice::pick))]
fn next_rest(p: Progress, rest: &[u8]) -> Told
    ensures { result ≡ pick (eqb (length rest.now) 0) (told (Printed.End p.settings.nodes_taken p.settings.levels_taken) (progress Stage.Done p.line p.at p.settings)) (told (Printed.Refused p.line 10) (progress Stage.Last p.line p.at p.settings)) }
{
    if rest.is_empty() {
        tell(end_line(p.settings), Stage::Done, p)
    } else {
        tell(refused(p.line, Refusal::Line), Stage::Last, p)
    }
}

// The end line, behind a last line without its byte 10.
fn next_last(p: Progress) -> Told
    requires { p.stage ≡ Stage.Last }
    ensures { ((input : List ℕ) (a : Areas) → Prints p input a result a) }
{
    tell(end_line(p.settings), Stage::Done, p)
}

// The first line.
fn next_first(
    p: Progress,
    input: &[u8],
    nodes: &[u32],
    levels: &mut [u32],
    workers: &mut [u32],
) -> Told
    requires stage_value { p.stage ≡ Stage.First }
    requires input_len_bound { length input.now ≤ 65536 }
    ensures { Prints p input.now (areas nodes.now levels.old workers.old) result (areas nodes.now levels.new workers.new) }
{
    match find(input, b'\n') {
        Some(m) => {
            let r = open_first(command_of(&input[..m]), nodes, levels, workers);
            opened(r, m + 1)
        }
        None => tell(refused(1, Refusal::Line), Stage::Done, p),
    }
}

// A later line, or what stands behind the last of them.
#[tactic(auto, unfolding(crate::specs::Remaining::counted, words::specs::Choice::both))]
fn next_lines(
    p: Progress,
    input: &[u8],
    nodes: &mut [u32],
    levels: &mut [u32],
    workers: &mut [u32],
) -> Told
    requires stage_value { p.stage ≡ Stage.Lines }
    requires input_value { counted p (length input.now) ≡ true }
    ensures { Prints p input.now (areas nodes.old levels.old workers.old) result (areas nodes.new levels.new workers.new) }
{
    let rest = &input[p.at..];
    match find(rest, b'\n') {
        Some(m) => {
            let x = carry(
                p.line,
                command_of(&rest[..m]),
                p.settings,
                nodes,
                levels,
                workers,
            );
            next_line(p, m, x)
        }
        None => next_rest(p, rest),
    }
}

// Whether the next line begins within an input of n bytes that is short enough, and no more lines than bytes are before it.
#[tactic(auto, unfolding(crate::specs::Remaining::counted, words::specs::Choice::both))]
fn counted(p: Progress, n: usize) -> bool
    ensures { result ≡ counted p n }
{
    n <= MAX_INPUT && p.at <= n && p.line as usize <= p.at + 1
}

// Whether the input allows this progress: each that a run over it has is allowed.
#[tactic(auto, unfolding(crate::specs::Remaining::can_stand_at))]
fn can_stand(p: Progress, input: &[u8]) -> bool
    ensures { result ≡ can_stand p input.now }
{
    match p.stage {
        Stage::Begin | Stage::Done => true,
        Stage::TooLong => MAX_INPUT < input.len(),
        Stage::First => input.len() <= MAX_INPUT,
        Stage::Lines | Stage::Last => counted(p, input.len()),
    }
}

// What is printed next where the input allows the progress, stage by stage.
#[tactic(auto, unfolding(crate::specs::Remaining::can_stand_at))]
fn advance(
    p: Progress,
    input: &[u8],
    nodes: &mut [u32],
    levels: &mut [u32],
    workers: &mut [u32],
) -> Told
    requires { can_stand p input.now ≡ true }
    ensures { Next p input.now (areas nodes.old levels.old workers.old) result (areas nodes.new levels.new workers.new) }
{
    match p.stage {
        Stage::Begin => next_begin(p, input),
        Stage::TooLong => tell(refused(0, Refusal::Line), Stage::Done, p),
        Stage::First => next_first(p, input, nodes, levels, workers),
        Stage::Lines => next_lines(p, input, nodes, levels, workers),
        Stage::Last => next_last(p),
        Stage::Done => tell(Printed::Nothing, Stage::Done, p),
    }
}

// What is printed next, and where the run stands then. A progress that its input does not allow prints nothing and is done.
pub fn next(
    p: Progress,
    input: &[u8],
    nodes: &mut [u32],
    levels: &mut [u32],
    workers: &mut [u32],
) -> Told
    ensures { Next p input.now (areas nodes.old levels.old workers.old) result (areas nodes.new levels.new workers.new) }
{
    if can_stand(p, input) {
        advance(p, input, nodes, levels, workers)
    } else {
        tell(Printed::Nothing, Stage::Done, p)
    }
}
