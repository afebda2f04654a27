// What the program prints: a header, rows of ended calls, refusals and the end line, as bytes.
// Relies on text for the bytes that part fields and lines, on arrayvec for lines. Nothing here knows the table.

#![tactic(auto)]

ghost use Rattle.std.specs.Prelude.{◌≡◌, [], ◌∷◌, ◌++◌, ◌+◌, ◌%◌, ◌≤◌, length};
ghost use Rattle.arrayvec.specs.ArrayVec.{array_vec_len};
ghost use Rattle.text.specs.Parts.{comma, line_end};
ghost use Rattle.printing.specs.Printing.{decimal_in, decimal, call_bytes, bytes_of};

use arrayvec::ArrayVec;

// What is printed at once. New and Found: worker, pixel, node. Full and Absent: worker, pixel. Refused: line, number. End: nodes taken, levels taken.
#[derive(Clone, Copy)]
pub enum Printed {
    Nothing,
    Header,
    New(u32, u32, u32),
    Found(u32, u32, u32),
    Full(u32, u32),
    Absent(u32, u32),
    Refused(u32, u32),
    End(u32, u32),
}

// The bytes that are printed at once.
pub type Line = ArrayVec<u8, 64>;

// The bytes of src are put behind those of out.
fn put(out: &mut Line, src: &[u8])
    requires { array_vec_len out.old + length src.now ≤ 64 }
    ensures { out.new.items ≡ out.old.items ++ src.now }
{
    out.try_extend_from_slice(src).unwrap();
}

// The bytes of src.
fn line_of(src: &[u8]) -> Line
    requires { length src.now ≤ 64 }
    ensures { result.items ≡ src.now }
{
    Line::try_from(src).unwrap()
}

// The last k + 1 digits of n, without zeros in front.
fn put_digits(out: &mut Line, k: u32, n: u32)
    requires { array_vec_len out.old + k + 1 ≤ 64 }
    ensures digits { out.new.items ≡ out.old.items ++ decimal_in k n }
    ensures bound { array_vec_len out.new ≤ array_vec_len out.old + k + 1 }
{
    if 0 < k && 10 <= n {
        put_digits(out, k - 1, n / 10);
    }
    out.push(b'0' + (n % 10) as u8);
}

// The last five digits of a number.
fn put_decimal(out: &mut Line, n: u32)
    requires { array_vec_len out.old + 5 ≤ 64 }
    ensures digits { out.new.items ≡ out.old.items ++ decimal n }
    ensures bound { array_vec_len out.new ≤ array_vec_len out.old + 5 }
{
    put_digits(out, 4, n);
}

// A number, and behind it the byte b.
fn put_number(out: &mut Line, n: u32, b: u8)
    requires { array_vec_len out.old + 6 ≤ 64 }
    ensures number { out.new.items ≡ out.old.items ++ decimal n ++ (b ∷ []) }
    ensures bound { array_vec_len out.new ≤ array_vec_len out.old + 6 }
{
    put_decimal(out, n);
    out.push(b);
}

// A call that ended: worker, row, column, and behind them the bytes of its answer.
#[tactic(auto, unfolding(crate::specs::Printing::call_bytes))]
fn ended(worker: u32, pixel: u32, answer: &[u8]) -> Line
    requires { length answer.now ≤ 16 }
    ensures bytes { result.items ≡ call_bytes worker pixel ++ answer.now }
    ensures bound { array_vec_len result ≤ 17 + length answer.now }
{
    let mut out = Line::new();
    put_number(&mut out, worker, b',');
    put_number(&mut out, pixel / 4096, b',');
    put_decimal(&mut out, pixel % 4096);
    put(&mut out, answer);
    out
}

// The row of a call that ended with a node.
fn row(worker: u32, pixel: u32, answer: &[u8], node: u32) -> Line
    requires { length answer.now ≤ 16 }
    ensures { result.items ≡ call_bytes worker pixel ++ answer.now ++ decimal node ++ (line_end ∷ []) }
{
    let mut out = ended(worker, pixel, answer);
    put_number(&mut out, node, b'\n');
    out
}

// A word with a comma behind it, and two numbers.
fn pair(word: &[u8], m: u32, n: u32) -> Line
    requires { length word.now ≤ 16 }
    ensures { result.items ≡ word.now ++ decimal m ++ (comma ∷ []) ++ decimal n ++ (line_end ∷ []) }
{
    let mut out = line_of(word);
    put_number(&mut out, m, b',');
    put_number(&mut out, n, b'\n');
    out
}

// The bytes of what is printed. It is no Display: that of a number prints all its digits, and bytes_of has the last five.
#[tactic(auto, unfolding(crate::specs::Printing::bytes_of, text::specs::Parts::ascii))]
pub fn spell(p: Printed) -> Line
    ensures { result.items ≡ bytes_of p }
{
    match p {
        Printed::Nothing => Line::new(),
        Printed::Header => line_of(b"worker,row,column,answer,node\n"),
        Printed::New(worker, pixel, node) => row(worker, pixel, b",new,", node),
        Printed::Found(worker, pixel, node) => row(worker, pixel, b",found,", node),
        Printed::Full(worker, pixel) => ended(worker, pixel, b",full,-\n"),
        Printed::Absent(worker, pixel) => ended(worker, pixel, b",absent,-\n"),
        Printed::Refused(line, number) => pair(b"refused,", line, number),
        Printed::End(nodes, levels) => pair(b"end,", nodes, levels),
    }
}
