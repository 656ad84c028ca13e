// The lines of document 01's film sheet, as data and as text: a name or a word, and whole numbers.
#![tactic(auto)]

ghost use Rattle.std.specs.Prelude.{◌≡◌, ◌+◌, ◌≤◌, length};
ghost use Rattle.lines.specs.Line.{line_of, line_in, digits_of, number_text, field_text, line_text, head_text, Printable, Numbers, SixDigits, put_of};

use geometry::Rect;
use tenths::edge;

// A line as data: a name, which is any bytes, and x, y, w and h in tenths.
#[derive(Clone, Copy, Default, Debug, PartialEq, Eq)]
pub struct SheetLine<'a> {
    pub name: &'a [u8],
    pub x: i32,
    pub y: i32,
    pub w: i32,
    pub h: i32,
}

// x and y are rounded, and so are the right and lower edges: w and h are what lies between. Axis by axis, so that a wrong edge of one alone is refused here.
pub fn sheet_line<'a>(name: &'a [u8], r: Rect) -> SheetLine<'a>
    requires { Printable r }
    ensures line { line_in result ≡ line_of name.now r }
    ensures printable { Numbers SixDigits (line_in result) }
{
    let x = edge(r.x, 0.0);
    let y = edge(r.y, 0.0);
    let right = edge(r.x, r.w);
    let lower = edge(r.y, r.h);
    SheetLine {
        name,
        x,
        y,
        w: right - x,
        h: lower - y,
    }
}

fn put_text(out: &mut [u8], at: usize, text: &[u8]) -> usize
    requires { at + length text.now ≤ length out.old }
    ensures { (out.new, result) ≡ put_of out.old at text.now }
{
    out[at..at + text.len()].copy_from_slice(text);
    at + text.len()
}

// The digits of n, the most significant first: those of n / 10, and then the last.
// `out` and `at` stay side by side, here and below, and are no `ArrayString`: `put_line` and `put_head` (docs/ARCHITECTURE.md) write into output of any length,
// and over `ArrayString<N>` this recursion does not prove: a bug of the check keeps each answer `put_digits-requires` from counting.
fn put_digits(out: &mut [u8], at: usize, n: u32) -> usize
    requires { at + length (digits_of n) ≤ length out.old }
    ensures { (out.new, result) ≡ put_of out.old at (digits_of n) }
{
    let last = if n < 10 {
        at
    } else {
        put_digits(out, at, n / 10)
    };
    out[last] = b'0' + (n % 10) as u8;
    last + 1
}

fn put_number(out: &mut [u8], at: usize, n: i32) -> usize
    requires { at + length (number_text n) ≤ length out.old }
    ensures { (out.new, result) ≡ put_of out.old at (number_text n) }
{
    if n < 0 {
        out[at] = b'-';
        return put_digits(out, at + 1, n.unsigned_abs());
    }
    put_digits(out, at, n.unsigned_abs())
}

// A blank, and a number.
fn put_field(out: &mut [u8], at: usize, n: i32) -> usize
    requires { at + length (field_text n) ≤ length out.old }
    ensures { (out.new, result) ≡ put_of out.old at (field_text n) }
{
    out[at] = b' ';
    put_number(out, at + 1, n)
}

// A local says where the field begins that it is named after.
pub fn put_line(out: &mut [u8], at: usize, l: SheetLine<'_>) -> usize
    requires { at + length (line_text (line_in l)) ≤ length out.old }
    ensures { (out.new, result) ≡ put_of out.old at (line_text (line_in l.entry)) }
{
    let x = put_text(out, at, l.name);
    let y = put_field(out, x, l.x);
    let w = put_field(out, y, l.y);
    let h = put_field(out, w, l.w);
    let feed = put_field(out, h, l.h);
    out[feed] = b'\n';
    feed + 1
}

// A word, a number and a line feed, at the start.
pub fn put_head(out: &mut [u8], word: &[u8], n: u32) -> usize
    requires { length (head_text word.now n) ≤ length out.old }
    ensures { (out.new, result) ≡ put_of out.old 0 (head_text word.now n) }
{
    let number = put_text(out, 0, word);
    let end = put_digits(out, number, n);
    out[end] = b'\n';
    end + 1
}
