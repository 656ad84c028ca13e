// The reader of orders: bytes to settings, or their first fault.
#![tactic(auto)]

ghost use Rattle.std.specs.Prelude.{◌≡◌, ◌*◌, ◌≤◌, length};
ghost use Rattle.refusal.specs.Refusal.{answered};
ghost use Rattle.wire.specs.Wire.{filled};
ghost use Rattle.reader.specs.Order.{read_screen_of, read_picture_of, read_mode_of, read_fit_of, read_place_of, read_cutouts_of, read_saved_of, tag_of, read_field_of, read_order_of};

use geometry::{EMPTY, Offset, Rect};
use layout::Cutouts;
use refusal::Refusal;
use settings::{Preset, Settings};
use wire::{number_at, rect_at, short};

#[derive(Clone, Copy, Debug, PartialEq, Eq)]
pub enum Tag {
    Screen,
    Picture,
    Mode,
    Fit,
    Place,
    Cutouts,
    Saved,
}

impl TryFrom<u8> for Tag {
    type Error = Refusal;

    ghost try_from_gives = { λ b r. answered r ≡ tag_of b };

    #[tactic(auto, unfolding(crate::specs::Order::tag_of, crate::specs::Order::from_byte_of, prelude::specs::Answer::must))]
    fn try_from(b: u8) -> Result<Self, Refusal> {
        match b {
            1 => Ok(Tag::Screen),
            2 => Ok(Tag::Picture),
            3 => Ok(Tag::Mode),
            4 => Ok(Tag::Fit),
            5 => Ok(Tag::Place),
            6 => Ok(Tag::Cutouts),
            7 => Ok(Tag::Saved),
            _ => Err(Refusal::OutOfTurn),
        }
    }
}

// A picture follows in tag 2, or else it is what an absent one means.
#[tactic(auto, unfolding(crate::specs::Order::read_screen_of, prelude::specs::Answer::must))]
fn read_screen(value: &[u8], s: Settings) -> Result<Settings, Refusal>
    ensures { answered result ≡ read_screen_of value.now s }
{
    if value.len() != 8 {
        return Err(Refusal::BadLength);
    }
    let w = number_at(value, 0);
    let h = number_at(value, 1);
    if !settings::screen_in_limits(w, h) {
        return Err(Refusal::OffTheScale);
    }
    Ok(Settings {
        w,
        h,
        picture: settings::screen_picture(w, h),
        ..s
    })
}

#[tactic(auto, unfolding(crate::specs::Order::read_picture_of, prelude::specs::Answer::must))]
fn read_picture(value: &[u8], s: Settings) -> Result<Settings, Refusal>
    ensures { answered result ≡ read_picture_of value.now s }
{
    if value.len() != 16 {
        return Err(Refusal::BadLength);
    }
    let picture = rect_at(value, 0);
    if !settings::rect_in_limits(0.0, picture) {
        return Err(Refusal::OffTheScale);
    }
    Ok(Settings { picture, ..s })
}

#[tactic(auto, unfolding(crate::specs::Order::read_mode_of, prelude::specs::Answer::must))]
fn read_mode(value: &[u8], s: Settings) -> Result<Settings, Refusal>
    ensures { answered result ≡ read_mode_of value.now s }
{
    let [b] = *value else {
        return Err(Refusal::BadLength);
    };
    if b >> 3 != 0 {
        return Err(Refusal::OddMark);
    }
    Ok(Settings {
        preset: s.preset.with_mode_byte(b),
        ..s
    })
}

#[tactic(auto, unfolding(crate::specs::Order::read_fit_of, prelude::specs::Answer::must))]
fn read_fit(value: &[u8], s: Settings) -> Result<Settings, Refusal>
    ensures { answered result ≡ read_fit_of value.now s }
{
    let [b] = *value else {
        return Err(Refusal::BadLength);
    };
    if 2 < b {
        return Err(Refusal::OddMark);
    }
    Ok(Settings {
        preset: s.preset.with_fit(settings::fit_mark(b)),
        ..s
    })
}

#[tactic(auto, unfolding(crate::specs::Order::read_place_of, prelude::specs::Answer::must))]
fn read_place(value: &[u8], s: Settings) -> Result<Settings, Refusal>
    ensures { answered result ≡ read_place_of value.now s }
{
    if value.len() != 12 {
        return Err(Refusal::BadLength);
    }
    let scale = number_at(value, 0);
    let offset = Offset {
        x: number_at(value, 1),
        y: number_at(value, 2),
    };
    if !settings::place_in_limits(scale, offset) {
        return Err(Refusal::OffTheScale);
    }
    Ok(Settings {
        preset: Preset {
            scale,
            offset,
            ..s.preset
        },
        ..s
    })
}

// The first n rectangles of a value, with zeros behind them.
#[tactic(auto, unfolding(wire::specs::Wire::filled, prelude::specs::Lists::tabulate))]
fn rects<const N: usize>(value: &[u8], n: usize) -> [Rect; N]
    requires { (n ≤ N) × (16 * n ≤ length value.now) }
    ensures { result ≡ filled N value.now n }
{
    let mut at = [EMPTY; N];
    for (i, r) in at[..n].iter_mut().enumerate() {
        *r = rect_at(value, i);
    }
    at
}

#[tactic(auto, unfolding(crate::specs::Order::read_cutouts_of, settings::specs::Settings::cutouts_in_limits_of, prelude::specs::Answer::must))]
fn read_cutouts(value: &[u8], s: Settings) -> Result<Settings, Refusal>
    ensures { answered result ≡ read_cutouts_of value.now s }
{
    if value.len() % 16 != 0 {
        return Err(Refusal::BadLength);
    }
    let count = value.len() / 16;
    if 16 < count {
        return Err(Refusal::Overfull);
    }
    let cutouts = Cutouts {
        at: rects(value, count),
        count,
    };
    if !settings::cutouts_in_limits(cutouts.as_slice()) {
        return Err(Refusal::OffTheScale);
    }
    Ok(Settings { cutouts, ..s })
}

// Any f32 may stand in a saved rectangle.
#[tactic(auto, unfolding(crate::specs::Order::read_saved_of, prelude::specs::Answer::must))]
fn read_saved(value: &[u8], s: Settings) -> Result<Settings, Refusal>
    ensures { answered result ≡ read_saved_of value.now s }
{
    if value.len() % 16 != 0 {
        return Err(Refusal::BadLength);
    }
    let count = value.len() / 16;
    if 32 < count {
        return Err(Refusal::Overfull);
    }
    Ok(Settings {
        preset: Preset {
            elements: rects(value, count),
            count,
            ..s.preset
        },
        ..s
    })
}

// A match, and no table of functions: as the definition has it.
#[tactic(auto, unfolding(crate::specs::Order::read_field_of))]
fn read_field(tag: Tag, value: &[u8], s: Settings) -> Result<Settings, Refusal>
    ensures { answered result ≡ read_field_of tag value.now s }
{
    match tag {
        Tag::Screen => read_screen(value, s),
        Tag::Picture => read_picture(value, s),
        Tag::Mode => read_mode(value, s),
        Tag::Fit => read_fit(value, s),
        Tag::Place => read_place(value, s),
        Tag::Cutouts => read_cutouts(value, s),
        Tag::Saved => read_saved(value, s),
    }
}

pub fn read_order(bytes: &[u8]) -> Result<Settings, Refusal>
    ensures { answered result ≡ read_order_of bytes.now }
{
    let mut s = Settings::absent();
    let mut screen = false;
    let mut last = 0;
    let mut rest = bytes;
    while let [tag, high, low, body @ ..] = rest {
        if *tag <= last {
            return Err(Refusal::OutOfTurn);
        }
        let field = Tag::try_from(*tag)?;
        let Some((value, after)) = body.split_at_checked(short(*high, *low)) else {
            return Err(Refusal::CutOff);
        };
        s = read_field(field, value, s)?;
        screen |= field == Tag::Screen;
        last = *tag;
        rest = after;
    }
    if !rest.is_empty() {
        return Err(Refusal::CutOff);
    }
    if !screen {
        return Err(Refusal::NoScreen);
    }
    Ok(s)
}
