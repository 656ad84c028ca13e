// Makes the sheets of the examples, and runs the lists in data/, whose README has their form: orders, calls and the Rust's answers,
// every byte of which is compared. A case with a name prints `ok NAME` or `WRONG NAME`; a list prints how many calls
// of each kind it has, and how many are wrong.
#![tactic(auto)]

ghost use Rattle.std.specs.Prelude.{◌≤◌, length, IfOk};

use film_sheet::film_sheet;
use float::from_bits;
use input::read_full;
use order_writer::write_order;
use reader::read_order;
use refusal::Refusal;
use std::io::{self, Read, Write};
use std::rt::Files;
use std::{fmt, fs};

fn main(rt: HostRuntime) -> io::Result<()> {
    for (order, sheet) in EXAMPLES {
        example(&rt, order, sheet)?;
    }
    replay(&rt, "cases")?;
    replay(&rt, "orders")
}

// ---- examples

// The orders in data/examples, which the root has as examples/, and their sheets.
const EXAMPLES: [(&str, &str); 11] = [
    ("examples/standard.order", "examples/standard.sheet"),
    ("examples/analog.order", "examples/analog.sheet"),
    ("examples/psp.order", "examples/psp.sheet"),
    ("examples/keep_clear.order", "examples/keep_clear.sheet"),
    ("examples/saved.order", "examples/saved.sheet"),
    ("examples/wide.order", "examples/wide.sheet"),
    ("examples/narrow.order", "examples/narrow.sheet"),
    ("examples/scaled.order", "examples/scaled.sheet"),
    ("examples/two_cameras.order", "examples/two_cameras.sheet"),
    ("examples/refused.order", "examples/refused.sheet"),
    ("examples/empty.order", "examples/empty.sheet"),
];

// Prints `ok ORDER`, or `WRONG ORDER` if the order gives another sheet.
fn example(rt: &(impl Files + Print), order: &str, sheet: &str) -> io::Result<()> {
    let mut given = [0u8; 4096];
    let n = read(rt, order, &mut given)?;
    let mut want = [0u8; 4096];
    let m = read(rt, sheet, &mut want)?;
    let same = sheet_agrees(&given[..n], &want[..m]);
    say(&mut io::writer(rt), order.as_bytes(), !same)
}

fn say(out: &mut impl Write, name: &[u8], fault: bool) -> io::Result<()> {
    let verdict = if fault { "WRONG" } else { "ok" };
    write!(out, "{verdict} ")?;
    out.write_all(name)?;
    writeln!(out)
}

// A file's bytes.
fn read(rt: &impl Files, path: &str, out: &mut [u8]) -> io::Result<usize>
    ensures { IfOk result (λ n. n ≤ length out.new) }
{
    let mut file = fs::open(rt, path)?;
    read_full(&mut file, out)
}

// ---- lists

// What a step is.
#[derive(Clone, Copy, Debug, PartialEq, Eq)]
enum Kind {
    Order,
    Layout,
    Viewport,
    Touch,
    Sheet,
    Written,
    Name,
}

impl TryFrom<u8> for Kind {
    type Error = ();

    fn try_from(letter: u8) -> Result<Kind, ()> {
        match letter {
            b'O' => Ok(Kind::Order),
            b'L' => Ok(Kind::Layout),
            b'V' => Ok(Kind::Viewport),
            b'T' => Ok(Kind::Touch),
            b'S' => Ok(Kind::Sheet),
            b'W' => Ok(Kind::Written),
            b'N' => Ok(Kind::Name),
            _ => Err(()),
        }
    }
}

// A step's head. A kind that is not known is none.
#[derive(Clone, Copy)]
struct Step {
    kind: Option<Kind>,
    x: f32,
    y: f32,
    // How many bytes are lent, or a touch's previous mask.
    number: u16,
    // What each of the lent bytes was before.
    fill: u8,
    answer: usize,
    // How many bytes follow.
    length: usize,
}

impl From<[u8; 17]> for Step {
    fn from(head: [u8; 17]) -> Step {
        let [
            kind,
            x0,
            x1,
            x2,
            x3,
            y0,
            y1,
            y2,
            y3,
            n0,
            n1,
            fill,
            a0,
            a1,
            a2,
            l0,
            l1,
        ] = head;
        Step {
            kind: Kind::try_from(kind).ok(),
            x: from_bits(u32::from_be_bytes([x0, x1, x2, x3])),
            y: from_bits(u32::from_be_bytes([y0, y1, y2, y3])),
            number: u16::from_be_bytes([n0, n1]),
            fill,
            answer: u32::from_be_bytes([0, a0, a1, a2]) as usize,
            length: u16::from_be_bytes([l0, l1]) as usize,
        }
    }
}

// The language asks for a bound on the steps.
fn replay(rt: &(impl Files + Print), list: &str) -> io::Result<()> {
    let mut file = fs::open(rt, list)?;
    let mut out = io::writer(rt);
    let mut head = [0u8; 17];
    let mut order = [0u8; 65536];
    let mut size = 0;
    let mut bytes = [0u8; 65536];
    let mut tally = Tally::default();
    for _ in 0usize..100000 {
        if read_full(&mut file, &mut head)? < 17 {
            break;
        }
        let step = Step::from(head);
        if step.kind == Some(Kind::Order) {
            size = load(&mut file, step, &mut order)?;
            tally.count(step.kind, true);
        } else {
            let n = load(&mut file, step, &mut bytes)?;
            if step.kind == Some(Kind::Name) {
                say(&mut out, &bytes[..n], tally.fault)?;
            }
            tally.count(step.kind, step.agrees(&order[..size], &bytes[..n]));
        }
    }
    writeln!(out, "{list}: {tally}")
}

// The bytes that follow a step's head: how many there are.
fn load(file: &mut impl Read, step: Step, out: &mut [u8]) -> io::Result<usize>
    ensures { IfOk result (λ n. n ≤ length out.new) }
{
    let n = step.length.min(out.len());
    read_full(file, &mut out[..n])
}

impl Step {
    // Whether the library answers on the order before it as the list does.
    fn agrees(self, order: &[u8], bytes: &[u8]) -> bool {
        match self.kind {
            Some(Kind::Layout) => self.output_agrees(bytes, |out| order::layout(order, out)),
            Some(Kind::Viewport) => self.output_agrees(bytes, |out| {
                order::viewport_layout(order, self.x, self.y, out)
            }),
            Some(Kind::Touch) => {
                number(order::touch(order, self.x, self.y, self.number)) == self.answer
            }
            Some(Kind::Sheet) => sheet_agrees(order, bytes),
            Some(Kind::Written) => self.output_agrees(bytes, |out| written(order, out)),
            Some(Kind::Order | Kind::Name) => true,
            None => false,
        }
    }

    fn output_agrees<F: FnOnce(&mut [u8]) -> Result<usize, Refusal>>(
        self,
        bytes: &[u8],
        write: F,
    ) -> bool
        requires { F.IsAlwaysCallable write }
    {
        let mut out = [self.fill; 1024];
        let room = (self.number as usize).min(out.len());
        let answer = write(&mut out[..room]);
        number(answer) == self.answer && holds(&out, bytes, self.fill)
    }
}

fn sheet_agrees(order: &[u8], bytes: &[u8]) -> bool {
    let sheet = film_sheet(order);
    sheet.len == bytes.len() && holds(&sheet.bytes, bytes, 0)
}

// Writes the settings that an order is read to.
fn written(order: &[u8], out: &mut [u8]) -> Result<usize, Refusal> {
    write_order(read_order(order)?, out)
}

// Whether `out` begins with the bytes and is filled up as it was before. By slices, which are compared faster than byte by byte.
fn holds(out: &[u8; 1024], bytes: &[u8], fill: u8) -> bool {
    let before = [fill; 1024];
    let n = bytes.len().min(out.len());
    &out[..n] == bytes && &out[n..] == &before[n..]
}

// An answer as a list has it: a number below 65,536, or 65,536 times that of a refusal.
fn number<T: Into<usize>>(answer: Result<T, Refusal>) -> usize {
    match answer {
        Ok(n) => n.into(),
        Err(refusal) => u8::from(refusal) as usize * 65536,
    }
}

// ---- tallies

// How many steps of each kind a list has, and how many are wrong.
#[derive(Clone, Copy, Default)]
struct Tally {
    orders: u64,
    layouts: u64,
    viewports: u64,
    touches: u64,
    sheets: u64,
    written: u64,
    wrong: u64,
    // The number of the first wrong step's order.
    first: u64,
    // Whether a step since the last name is wrong.
    fault: bool,
}

impl Tally {
    // One step more, which agrees or not.
    fn count(&mut self, kind: Option<Kind>, agrees: bool) {
        match kind {
            Some(Kind::Order) => self.orders = self.orders.saturating_add(1),
            Some(Kind::Layout) => self.layouts = self.layouts.saturating_add(1),
            Some(Kind::Viewport) => self.viewports = self.viewports.saturating_add(1),
            Some(Kind::Touch) => self.touches = self.touches.saturating_add(1),
            Some(Kind::Sheet) => self.sheets = self.sheets.saturating_add(1),
            Some(Kind::Written) => self.written = self.written.saturating_add(1),
            Some(Kind::Name) => self.fault = false,
            None => {}
        }
        if !agrees {
            if self.wrong == 0 {
                self.first = self.orders;
            }
            self.wrong = self.wrong.saturating_add(1);
            self.fault = true;
        }
    }
}

impl fmt::Display for Tally {
    fn fmt<W: fmt::Write>(&self, f: &mut fmt::Formatter<W>) -> fmt::Result {
        write!(f, "orders {}, layouts {}, ", self.orders, self.layouts)?;
        write!(
            f,
            "viewports {}, touches {}, ",
            self.viewports, self.touches
        )?;
        write!(
            f,
            "sheets {}, written orders {}, ",
            self.sheets, self.written
        )?;
        write!(f, "wrong {}", self.wrong)?;
        if self.wrong > 0 {
            write!(f, ", the first at order {}", self.first)?;
        }
        Ok(())
    }
}
