// The film sheet of document 01: a layout as lines, and these as text.
#![tactic(auto)]

ghost use Rattle.std.specs.Prelude.{◌≡◌, ◌+◌, ◌≤◌, length, map, slice_range};
ghost use Rattle.layout.specs.Layout.{Few};
ghost use Rattle.layout_ranges.specs.Bounded.{Bounded, BoundedGame};
ghost use Rattle.lines.specs.Line.{line_in, put_of};
ghost use Rattle.sheet.specs.Sheet.{lines_of, lines_text, layout_sheet_of, refused_sheet_of};

use arrayvec::ArrayVec;
use layout::Layout;
use lines::{SheetLine, put_head, put_line, sheet_line};

// The text is the first `len` bytes, and zeros follow it: the array that the C interface lends.
#[derive(Clone, Copy, Debug, PartialEq, Eq)]
pub struct Sheet {
    pub bytes: [u8; 1024],
    pub len: usize,
}

impl Sheet {
    pub fn as_slice(&self) -> &[u8]
        requires { self.now.len ≤ 1024 }
        ensures { result.now ≡ slice_range self.now.bytes 0 self.now.len }
    {
        &self.bytes[..self.len]
    }
}

// The game and each element, in the order of their indices.
#[tactic(auto, unfolding(crate::specs::Sheet::toolbar_lines))]
fn layout_lines(l: Layout) -> ArrayVec<SheetLine<'static>, 20>
    requires { Few l × Bounded l × BoundedGame l.game }
    ensures { map line_in result.items ≡ lines_of l }
{
    let mut lines = ArrayVec::new();
    lines.push(sheet_line(b"GAME", l.game));
    lines.push(sheet_line(b"DPAD", l.dpad));
    for c in l.control_list() {
        lines.push(sheet_line(c.label.name().as_bytes(), c.bounds));
    }
    lines.push(sheet_line(b"PAUSE", l.pause));
    lines.push(sheet_line(b"PLAY", l.playback));
    lines.push(sheet_line(b"SPEED", l.speed));
    lines.push(sheet_line(b"MUTE", l.mute));
    for (name, r) in ["LEFT", "RIGHT"].iter().zip(l.stick_list()) {
        lines.push(sheet_line(name.as_bytes(), *r));
    }
    lines
}

fn put_lines(out: &mut [u8], at: usize, lines: &[SheetLine<'_>]) -> usize
    requires { at + length (lines_text (map line_in lines.now)) ≤ length out.old }
    ensures { (out.new, result) ≡ put_of out.old at (lines_text (map line_in lines.now)) }
{
    let mut next = at;
    for line in lines {
        next = put_line(out, next, *line);
    }
    next
}

// The sheet of a layout.
#[tactic(auto, using(crate::proofs::SheetLaws::head_fits))]
pub fn layout_sheet(l: Layout) -> Sheet
    requires { Few l × Bounded l × BoundedGame l.game }
    ensures { result ≡ layout_sheet_of l }
{
    let lines = layout_lines(l);
    let mut bytes = [0; 1024];
    let first = put_head(&mut bytes, b"FILM ", lines.len() as u32);
    let len = put_lines(&mut bytes, first, &lines);
    Sheet { bytes, len }
}

// The sheet of a refusal, by its number.
#[tactic(auto, using(crate::proofs::SheetLaws::refused_fits))]
pub fn refused_sheet(n: usize) -> Sheet
    requires { n ≤ 8 }
    ensures { result ≡ refused_sheet_of n }
{
    let mut bytes = [0; 1024];
    let len = put_head(&mut bytes, b"REFUSED ", n as u32);
    Sheet { bytes, len }
}
