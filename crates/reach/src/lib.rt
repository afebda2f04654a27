// The search for everything that is reached from the root, over memory of any content.
// Relies on areas for the words, on settings for sizes, on arrayvec for the queue.

#![tactic(auto)]

ghost use Rattle.std.specs.Prelude.{◌≡◌, ◌<◌, false, [], get_or, replicate};
ghost use Rattle.words.specs.Choice.{first_no};
ghost use Rattle.words.specs.Digits.{DigitWidth, base};
ghost use Rattle.settings.specs.Refusals.{outcome_no};
ghost use Rattle.areas.specs.Memory.{memory};
ghost use Rattle.reach.specs.Cut.{Room, Taken, Came, searched, thing_of, met_thing, met, met_entries, met_previous, level_expanded, expanded};
ghost use Rattle.reach.specs.Marked.{Found, Fits, things};
ghost use Rattle.reach.specs.Reading.{reading_questions};

use areas::{NONE, is_node, level_place, level_taken, named, next_at, previous_at, ref_taken};
use arrayvec::ArrayVec;
use settings::{Refusal, Settings, entries};
use words::at;

// The most levels of a table: at width 2, with the most nodes and workers, at chain limit 1.
const LEVELS: usize = 45073;

// Nodes and levels are things in one numbering: node i is thing i, level g is the thing after all nodes and g levels.
pub const THINGS: usize = (Settings::MAX_NODES as usize) + LEVELS;

// Questions 1 to 3 of an operation that reads nodes and levels alone. The workers' area is not asked for: its length is given as just what question 2 wants.
#[tactic(auto, using(crate::proofs::Reading::reading_steps))]
pub fn check_reading(s: Settings, nodes: usize, levels: usize) -> Result<(), Refusal>
    ensures { outcome_no result ≡ first_no (reading_questions s.width s nodes levels) }
{
    s.check(
        nodes,
        levels,
        (Settings::WORKER_WORDS as usize) * (s.workers as usize),
    )
}

// The thing that a reference names.
#[tactic(auto, unfolding(words::specs::Choice::pick, areas::specs::Memory::named, crate::specs::Cut::thing_of))]
fn thing_of(r: u32) -> u32
    ensures { result ≡ thing_of r }
{
    if is_node(r) {
        named(r)
    } else {
        Settings::MAX_NODES + named(r)
    }
}

// The mark of a thing, or 0 past the end. It is not one function with `words::at`: each of that one's reads would then name the 0.
pub fn mark_at(marks: &[u8], t: usize) -> u8
    ensures { result ≡ get_or marks.now t 0 }
{
    marks.get(t).copied().unwrap_or(0)
}

// A reference that names nothing taken is refused by 6.
fn check_taken(taken: bool) -> Result<(), Refusal>
    ensures { Taken taken result }
{
    if taken { Ok(()) } else { Err(Refusal::Memory) }
}

// A search: the marks, and the things discovered in their order.
#[derive(Drop)]
struct Search<'a> {
    marks: &'a mut [u8],
    queue: ArrayVec<u16, THINGS>,
    ghost room: { Room marks.now queue.items },
}

impl Search<'_> {
    // A thing is discovered unless it was: marked, and put at the end of the queue.
    #[tactic(auto, using(crate::proofs::Ways::room_left), unfolding(words::specs::Choice::pick, crate::specs::Cut::met_thing, crate::specs::Cut::discovered))]
    fn meet_thing(&mut self, t: u32)
        requires { t < things }
        ensures same_marks { self.new.marks.ghost_name ≡ self.old.marks.ghost_name }
        ensures after { searched self.new.marks.now self.new.queue.items false ≡ met_thing (searched self.old.marks.now self.old.queue.items false) t }
    {
        if self.marks[t as usize] == 0 {
            self.marks[t as usize] = 1;
            self.queue.push(t as u16);
        }
    }

    // A reference is met.
    #[tactic(auto, using(crate::proofs::Ways::thing_fits), unfolding(words::specs::Choice::pick, crate::specs::Cut::met, crate::specs::Cut::dangles))]
    fn meet(&mut self, s: Settings, r: u32) -> Result<(), Refusal>
        requires { Fits s things }
        ensures same_marks { self.new.marks.ghost_name ≡ self.old.marks.ghost_name }
        ensures after { Came result self.new.marks.now self.new.queue.items (met s (searched self.old.marks.now self.old.queue.items false) r) }
    {
        check_taken(ref_taken(s, r))?;
        self.meet_thing(thing_of(r));
        Ok(())
    }

    // The previous word of a level is met unless it is "none": its reference, twice the number, need not fit a word.
    #[tactic(auto, using(crate::proofs::Ways::level_fits, crate::proofs::Ways::level_word), unfolding(words::specs::Choice::pick, crate::specs::Cut::met_previous, crate::specs::Cut::met_level, crate::specs::Cut::dangles))]
    fn meet_previous(&mut self, s: Settings, p: u32) -> Result<(), Refusal>
        requires { Fits s things }
        ensures same_marks { self.new.marks.ghost_name ≡ self.old.marks.ghost_name }
        ensures after { Came result self.new.marks.now self.new.queue.items (met_previous s (searched self.old.marks.now self.old.queue.items false) p) }
    {
        if p != NONE {
            check_taken(level_taken(s, p))?;
            self.meet_thing(Settings::MAX_NODES + p);
        }
        Ok(())
    }

    // The entries of level g are met.
    fn meet_entries(&mut self, s: Settings, g: u32, levels: &[u32]) -> Result<(), Refusal>
        requires digit_width { DigitWidth s.width }
        requires fits { Fits s things }
        ensures same_marks { self.new.marks.ghost_name ≡ self.old.marks.ghost_name }
        ensures after { Came result self.new.marks.now self.new.queue.items (met_entries s.width s levels.now g (searched self.old.marks.now self.old.queue.items false) (base s.width)) }
    {
        let first = level_place(s.width, g, 2);
        for e in 0..entries(s.width) {
            self.meet(s, at(levels, first + (e as usize)))?;
        }
        Ok(())
    }

    // What level g refers to is met.
    #[tactic(auto, using(crate::proofs::Ways::previous_stays), unfolding(crate::specs::Cut::level_expanded))]
    fn expand_level(&mut self, s: Settings, g: u32, levels: &[u32]) -> Result<(), Refusal>
        requires digit_width { DigitWidth s.width }
        requires fits { Fits s things }
        ensures same_marks { self.new.marks.ghost_name ≡ self.old.marks.ghost_name }
        ensures after { Came result self.new.marks.now self.new.queue.items (level_expanded s.width s levels.now (searched self.old.marks.now self.old.queue.items false) g) }
    {
        self.meet_entries(s, g, levels)?;
        self.meet_previous(s, previous_at(s.width, levels, g))
    }

    // What thing t refers to is met.
    #[tactic(auto, unfolding(words::specs::Choice::pick, crate::specs::Cut::expanded))]
    fn expand(&mut self, s: Settings, t: u32, nodes: &[u32], levels: &[u32]) -> Result<(), Refusal>
        requires digit_width { DigitWidth s.width }
        requires fits { Fits s things }
        ensures same_marks { self.new.marks.ghost_name ≡ self.old.marks.ghost_name }
        ensures after { Came result self.new.marks.now self.new.queue.items (expanded s.width s (memory nodes.now levels.now) (searched self.old.marks.now self.old.queue.items false) t) }
    {
        if t < Settings::MAX_NODES {
            self.meet(s, next_at(nodes, t))
        } else {
            self.expand_level(s, t - Settings::MAX_NODES, levels)
        }
    }

    // The search from the root on, breadth first. No `for` goes over the queue, which grows meanwhile and is never emptied: the things before place k are expanded, those
    // from k on wait.
    fn explore(&mut self, s: Settings, nodes: &[u32], levels: &[u32]) -> Result<(), Refusal>
        requires digit_width { DigitWidth s.width }
        requires fits { Fits s things }
        requires marks_value { self.old.marks.now ≡ replicate things 0 }
        requires queue_value { self.old.queue.items ≡ [] }
        ensures same_marks { self.new.marks.ghost_name ≡ self.old.marks.ghost_name }
        ensures found { Found s.width s (memory nodes.now levels.now) result self.new.marks.now }
    {
        self.meet(s, 0)?;
        let mut k = 0;
        while let Some(&t) = self.queue.get(k) {
            self.expand(s, u32::from(t), nodes, levels)?;
            k += 1;
        }
        Ok(())
    }
}

// Refuses by 6 where a reached reference names nothing taken; if none does, the marks tell which nodes are reached. The marks are all 0 before.
pub fn mark_reached(
    s: Settings,
    nodes: &[u32],
    levels: &[u32],
    marks: &mut [u8],
) -> Result<(), Refusal>
    requires digit_width { DigitWidth s.width }
    requires fits { Fits s things }
    requires marks_value { marks.old ≡ replicate things 0 }
    ensures { Found s.width s (memory nodes.now levels.now) result marks.new }
{
    let mut search = Search {
        marks,
        queue: ArrayVec::new(),
    };
    search.explore(s, nodes, levels)
}
