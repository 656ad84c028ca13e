// Document 01's corner cases of single functions: runs the list data/functions, whose README has its form, and compares every bit of
// the answers. A case prints `ok NAME`, or `WRONG NAME` if one of its calls is wrong.
#![tactic(auto)]

ghost use Rattle.std.specs.Prelude.{◌≡◌, ◌≤◌};

use float::{from_bits, to_bits};
use geometry::{EMPTY, Rect};
use input::read_full;
use layout::{Control, EMPTY_LAYOUT, Label, Layout};
use refusal::Refusal;
use safe_area::{safe_content, safe_edges};
use std::fs;
use std::io::{self, Write};

// The language asks for a bound on the steps.
fn main(rt: HostRuntime) -> io::Result<()> {
    let mut file = fs::open(&rt, "functions")?;
    let mut out = io::writer(&rt);
    let mut bytes = [0u8; 116];
    // Whether the calls since the last name are right. A name ends a case.
    let mut right = true;
    for _ in 0usize..100000 {
        if read_full(&mut file, &mut bytes)? < 116 {
            break;
        }
        let step = Step { bytes };
        if bytes[112] == 0 {
            say(&mut out, step.name(), right)?;
            right = true;
        } else {
            right = step.agrees() && right;
        }
    }
    Ok(())
}

fn say(out: &mut impl Write, name: &[u8], right: bool) -> io::Result<()> {
    let verdict = if right { "ok" } else { "WRONG" };
    write!(out, "{verdict} ")?;
    out.write_all(name)?;
    writeln!(out)
}

// ---- calls

// What a step calls.
#[derive(Clone, Copy, Debug, PartialEq, Eq)]
enum Function {
    Min,
    Max,
    Clamp,
    Abs,
    Hypot,
    Contains,
    Overlaps,
    SafeContent,
    SafeEdges,
    ClearPictureAspect,
    ControllerBand,
    AnchorToolbar,
    Vertical,
    Controls,
    Fits,
    MaskNear,
}

impl TryFrom<u8> for Function {
    type Error = ();

    fn try_from(number: u8) -> Result<Function, ()> {
        match number {
            1 => Ok(Function::Min),
            2 => Ok(Function::Max),
            3 => Ok(Function::Clamp),
            4 => Ok(Function::Abs),
            5 => Ok(Function::Hypot),
            6 => Ok(Function::Contains),
            7 => Ok(Function::Overlaps),
            8 => Ok(Function::SafeContent),
            9 => Ok(Function::SafeEdges),
            10 => Ok(Function::ClearPictureAspect),
            11 => Ok(Function::ControllerBand),
            12 => Ok(Function::AnchorToolbar),
            13 => Ok(Function::Vertical),
            14 => Ok(Function::Controls),
            15 => Ok(Function::Fits),
            16 => Ok(Function::MaskNear),
            _ => Err(()),
        }
    }
}

// A number, and a rectangle; of one f32, that is its x.
#[derive(Clone, Copy)]
struct Answer {
    number: u32,
    at: Rect,
}

impl From<u32> for Answer {
    fn from(number: u32) -> Answer {
        Answer { number, at: EMPTY }
    }
}

impl From<Rect> for Answer {
    fn from(at: Rect) -> Answer {
        Answer { number: 0, at }
    }
}

impl From<f32> for Answer {
    fn from(x: f32) -> Answer {
        Answer::from(Rect { x, ..EMPTY })
    }
}

impl From<Result<Rect, Refusal>> for Answer {
    fn from(answer: Result<Rect, Refusal>) -> Answer {
        match answer {
            Ok(at) => Answer::from(at),
            Err(refusal) => Answer::from(u8::from(refusal) as u32 * 65536),
        }
    }
}

// None is as a refusal 255.
impl From<Option<Rect>> for Answer {
    fn from(answer: Option<Rect>) -> Answer {
        match answer {
            Some(at) => Answer::from(at),
            None => Answer::from(255 * 65536),
        }
    }
}

// A step of the list.
#[derive(Clone, Copy)]
struct Step {
    bytes: [u8; 116],
}

impl Step {
    fn name(&self) -> &[u8] {
        &self.bytes[..(self.bytes[113] % 97) as usize]
    }

    fn agrees(&self) -> bool {
        // There is no list with this answer.
        let got = match Function::try_from(self.bytes[112]) {
            Ok(function) => self.call(function),
            Err(()) => Answer::from(65535),
        };
        got.number == self.word(28) % 0x100_0000
            && to_bits(got.at.x) == self.word(24)
            && to_bits(got.at.y) == self.word(25)
            && to_bits(got.at.w) == self.word(26)
            && to_bits(got.at.h) == self.word(27)
    }

    fn call(&self, function: Function) -> Answer {
        match function {
            Function::Min => Answer::from(float::min(self.float(0), self.float(1))),
            Function::Max => Answer::from(float::max(self.float(0), self.float(1))),
            Function::Clamp => Answer::from(self.clamp()),
            Function::Abs => Answer::from(float::abs(self.float(0))),
            Function::Hypot => Answer::from(hypot::hypot(self.float(0), self.float(1))),
            Function::Contains => {
                let r = self.rect(0);
                Answer::from(r.contains(self.float(4), self.float(5)) as u32)
            }
            Function::Overlaps => Answer::from(self.rect(0).overlaps(self.rect(4)) as u32),
            Function::SafeContent => {
                Answer::from(safe_content(self.size(0), self.size(2), self.edges(4)))
            }
            Function::SafeEdges => Answer::from(self.safe_edges()),
            Function::ClearPictureAspect => Answer::from(self.clear_picture_aspect()),
            Function::ControllerBand => self.element(self.controller_band()),
            Function::AnchorToolbar => self.element(self.anchor_toolbar()),
            Function::Vertical => self.element(self.vertical()),
            Function::Controls => self.element(self.controls()),
            Function::Fits => Answer::from(self.fits() as u32),
            Function::MaskNear => Answer::from(self.mask_near() as u32),
        }
    }

    // ---- numbers and the safe area

    // Crossed ends, which the Rust panics on and no list has, are answered by NaN.
    fn clamp(&self) -> f32 {
        let low = self.float(1);
        let high = self.float(2);
        if low <= high {
            float::clamp(self.float(0), low, high)
        } else {
            f32::NAN
        }
    }

    // The edges are answered as f32.
    fn safe_edges(&self) -> Result<Rect, Refusal> {
        let local = self.word(12) > 0;
        let e = safe_edges(self.edges(0), self.edges(4), self.edges(8), local)?;
        Ok(Rect::new(
            std::num::nearest_i32_to_f32(e.left),
            std::num::nearest_i32_to_f32(e.top),
            std::num::nearest_i32_to_f32(e.right),
            std::num::nearest_i32_to_f32(e.bottom),
        ))
    }

    // ---- layouts

    // Clear of at most three obstacles.
    fn clear_picture_aspect(&self) -> Rect {
        let obstacles = [self.rect(4), self.rect(8), self.rect(12)];
        let count = (self.word(3) % 4) as usize;
        search::clear_picture_aspect(
            self.float(0),
            self.float(1),
            &obstacles[..count],
            self.float(2),
        )
    }

    fn controller_band(&self) -> Option<Layout> {
        let [w, h] = self.screen();
        let [analog, psp] = self.mode();
        band::controller_band(w, h, analog, psp, self.rect(5))
    }

    fn vertical(&self) -> Option<Layout> {
        let [w, h] = self.screen();
        let [analog, psp] = self.mode();
        let base = picture::base(w, h, analog, psp);
        picture::vertical(base, self.rect(5), self.rect(9), analog)
    }

    fn fits(&self) -> bool {
        fits::fits(
            self.layout(6),
            self.float(0),
            self.float(1),
            self.rect(2),
            &[],
        )
    }

    fn mask_near(&self) -> u16 {
        let previous = (self.word(2) % 65536) as u16;
        touch::mask_near(self.layout(3), self.float(0), self.float(1), previous)
    }

    // On the layout that is arranged for the screen, with a cutout or none. A reusable top below 0, which no list has, has no answer.
    fn anchor_toolbar(&self) -> Option<Layout> {
        let [w, h] = self.screen();
        let reusable = self.float(3);
        let covered = self.float(4);
        let cutout = [self.rect(6)];
        let count = (self.word(5) % 2) as usize;
        let l = arranged::arranged(w, h, false);
        if reusable >= 0.0 {
            Some(toolbar::anchor_toolbar(l, w, h, reusable, covered, &cutout[..count]))
        } else {
            None
        }
    }

    // A side below 0, which no list has, has no answer.
    fn controls(&self) -> Option<Layout> {
        let [w, h] = self.screen();
        let [analog, psp] = self.mode();
        if w >= 0.0 && h >= 0.0 {
            picture::controls(w, h, self.rect(5), analog, psp, &[])
        } else {
            None
        }
    }

    // The element of a layout that a call asks for.
    fn element(&self, layout: Option<Layout>) -> Answer {
        Answer::from(layout.map(|l| match self.word(0) {
            0 => l.dpad,
            1 => l.pause,
            2 => l.playback,
            3 => l.speed,
            4 => l.mute,
            _ => l.sticks[0],
        }))
    }

    // ---- arguments: words of 4 bytes, an f32 by its bit pattern, a whole number, or 1 for yes and 0 for no

    fn screen(&self) -> [f32; 2] {
        [self.float(1), self.float(2)]
    }

    // Analog and psp.
    fn mode(&self) -> [bool; 2] {
        [self.word(3) > 0, self.word(4) > 0]
    }

    // A layout of a d-pad and two controls, with the game and every key of the toolbar at one place.
    fn layout(&self, i: usize) -> Layout
        requires { i ≤ 6 }
        ensures { (result.count ≡ 2) × (result.stickcount ≡ 0) }
    {
        let mut controls = [self.control(i + 9); 12];
        controls[0] = self.control(i + 4);
        let key = self.rect(i + 14);
        Layout {
            game: key,
            dpad: self.rect(i),
            controls,
            count: 2,
            pause: key,
            playback: key,
            speed: key,
            mute: key,
            ..EMPTY_LAYOUT
        }
    }

    fn control(&self, i: usize) -> Control
        requires { i ≤ 15 }
    {
        let label = LABELS[self.word(i).min(11) as usize];
        Control::new(self.rect(i + 1), label)
    }

    fn rect(&self, i: usize) -> Rect
        requires { i ≤ 20 }
    {
        let x = self.float(i);
        Rect::new(x, self.float(i + 1), self.float(i + 2), self.float(i + 3))
    }

    fn edges(&self, i: usize) -> [i32; 4]
        requires { i ≤ 20 }
    {
        let left = self.whole(i);
        [
            left,
            self.whole(i + 1),
            self.whole(i + 2),
            self.whole(i + 3),
        ]
    }

    fn size(&self, i: usize) -> [i32; 2]
        requires { i ≤ 20 }
    {
        [self.whole(i), self.whole(i + 1)]
    }

    // By its sign and its size.
    fn whole(&self, i: usize) -> i32
        requires { i ≤ 23 }
    {
        let n = self.word(i);
        let size = (n % 0x8000_0000) as i32;
        if n < 0x8000_0000 { size } else { -size }
    }

    fn float(&self, i: usize) -> f32
        requires { i ≤ 23 }
    {
        from_bits(self.word(i))
    }

    fn word(&self, i: usize) -> u32
        requires { i ≤ 28 }
    {
        let at = 4 * i;
        let bytes = self.bytes;
        u32::from_be_bytes([bytes[at], bytes[at + 1], bytes[at + 2], bytes[at + 3]])
    }
}

const LABELS: [Label; 12] = [
    Label::Tri,
    Label::O,
    Label::X,
    Label::Sq,
    Label::L1,
    Label::L2,
    Label::R2,
    Label::R1,
    Label::Select,
    Label::Start,
    Label::L3,
    Label::R3,
];
