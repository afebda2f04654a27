// The text format: parts of the caller's text between two bytes, numbers, and what a line asks for.
// Relies on words for what its contracts say of tests. Nothing here knows the table.

#![tactic(auto)]

ghost use Rattle.std.specs.Prelude.{◌≡◌, true, not, ◌≤◌, eqb, length, get_or, position};
ghost use Rattle.words.specs.Choice.{pick, every};
ghost use Rattle.text.specs.Commands.{is_digit, is_number, number_of, number, field, field_count, number_at, numbers, sizes, command};
ghost use Rattle.text.specs.Cut.{up_to, past};

// What a line asks for.
#[derive(Clone, Copy)]
pub enum Command {
    Sizes(u32, u32, u32, u32),
    Starts(u32, u32, u32),
    Views(u32, u32, u32),
    Turns(u32),
}

// The place of the first byte b.
pub fn find(s: &[u8], b: u8) -> Option<usize>
    ensures { result ≡ position (λ x. eqb x b) s.now }
{
    s.iter().position(|x| *x == b)
}

// The part before the first byte b: all of the text where there is none.
#[tactic(auto, using(crate::proofs::Ways::up_to_steps))]
pub fn up_to(s: &[u8], b: u8) -> &[u8]
    ensures { result.now ≡ up_to b s.now }
{
    match find(s, b) {
        Some(n) => &s[..n],
        None => s,
    }
}

// The part behind the first byte b: empty where there is none.
#[tactic(auto, using(crate::proofs::Ways::past_steps))]
pub fn past(s: &[u8], b: u8) -> &[u8]
    ensures { result.now ≡ past b s.now }
{
    match find(s, b) {
        Some(n) => &s[n + 1..],
        None => &s[s.len()..],
    }
}

// Every byte is a digit.
fn all_digits(s: &[u8]) -> bool
    ensures { result ≡ every is_digit s.now }
{
    s.iter().all(|b| b.is_ascii_digit())
}

// There is no zero in front, except of 0 itself.
#[tactic(auto, unfolding(words::specs::Choice::pick))]
fn leads(s: &[u8]) -> bool
    ensures { result ≡ pick (eqb (length s.now) 1) true (not (eqb (get_or s.now 0 0) 48)) }
{
    !matches!(s, [b'0', _, ..])
}

// A field is a number: 1 to 4 digits, no leading zero except 0.
#[tactic(auto, unfolding(crate::specs::Commands::is_number, words::specs::Choice::pick, words::specs::Choice::both))]
fn is_number(s: &[u8]) -> bool
    ensures { result ≡ is_number s.now }
{
    match s.len() {
        1..=4 => all_digits(s) && leads(s),
        _ => false,
    }
}

// The number of a field that is one.
#[tactic(auto, using(crate::proofs::Ways::digit_steps))]
fn number_of(s: &[u8]) -> u32
    requires { is_number s.now ≡ true }
    ensures value { result ≡ number_of s.now }
    ensures upper_bound { result ≤ 9999 }
{
    let mut n = 0;
    for b in s {
        n = n * 10 + u32::from(*b - b'0');
    }
    n
}

// The number that a field is, if it is one.
#[tactic(auto, unfolding(words::specs::Choice::pick))]
fn number(s: &[u8]) -> Option<u32>
    ensures { result ≡ number s.now }
{
    if is_number(s) {
        Some(number_of(s))
    } else {
        None
    }
}

// Field k of the line, from 0. By past, a public function that may not go, and not by split and nth.
#[tactic(auto, using(crate::proofs::Ways::field_steps))]
fn field(line: &[u8], k: usize) -> &[u8]
    ensures { result.now ≡ field k line.now }
{
    if k == 0 {
        up_to(line, b',')
    } else {
        field(past(line, b','), k - 1)
    }
}

// Whether the line has n fields, thus n - 1 commas. It is read to its comma n at most.
fn has_fields(line: &[u8], n: usize) -> bool
    requires { n ≤ 5 }
    ensures { result ≡ eqb (field_count line.now) n }
{
    line.iter().filter(|b| **b == b',').take(n).count() + 1 == n
}

// The number that field k of the line is, if it is one.
fn number_at(line: &[u8], k: usize) -> Option<u32>
    ensures { result ≡ number_at k line.now }
{
    number(field(line, k))
}

// The numbers behind the first field, if N fields stand there and each is a number.
#[tactic(auto, using(crate::proofs::Ways::numbers_steps), unfolding(crate::specs::Commands::all_numbers, crate::specs::Commands::values, words::specs::Choice::pick, words::specs::Choice::both))]
fn numbers<const N: usize>(line: &[u8]) -> Option<[u32; N]>
    requires { N ≤ 4 }
    ensures { result ≡ numbers N line.now }
{
    if !has_fields(line, N + 1) {
        return None;
    }
    let mut all = [0; N];
    for (k, n) in all.iter_mut().enumerate() {
        *n = number_at(line, k + 1)?;
    }
    Some(all)
}

// The sizes that a first line has. Without a fifth field there are no viewers.
#[tactic(auto, unfolding(crate::specs::Commands::sizes, crate::specs::Commands::values, words::specs::Choice::pick))]
fn sizes(line: &[u8]) -> Option<Command>
    ensures { result ≡ sizes line.now }
{
    match numbers::<3>(line) {
        Some(n) => {
            let [workers, limit, nodes] = n;
            Some(Command::Sizes(workers, limit, nodes, 0))
        }
        None => {
            let [workers, limit, nodes, viewers] = numbers::<4>(line)?;
            Some(Command::Sizes(workers, limit, nodes, viewers))
        }
    }
}

// What a line asks for, if it reads.
#[tactic(auto, unfolding(crate::specs::Commands::command, crate::specs::Commands::later, crate::specs::Commands::sizes, crate::specs::Commands::is_letter, crate::specs::Commands::values, words::specs::Choice::pick, words::specs::Choice::both))]
pub fn command_of(line: &[u8]) -> Option<Command>
    ensures { result ≡ command line.now }
{
    match field(line, 0) {
        b"s" => sizes(line),
        b"c" => {
            let [worker, row, column] = numbers::<3>(line)?;
            Some(Command::Starts(worker, row, column))
        }
        b"v" => {
            let [worker, row, column] = numbers::<3>(line)?;
            Some(Command::Views(worker, row, column))
        }
        b"t" => {
            let [worker] = numbers::<1>(line)?;
            Some(Command::Turns(worker))
        }
        _ => None,
    }
}
