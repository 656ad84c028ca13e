// What an order sets: the screen, the picture's area, the preset of input.rs, the cutouts.
#![tactic(auto)]

ghost use Rattle.std.specs.Prelude.{◌≡◌, ◌≤◌};
ghost use Rattle.std.specs.List.{list_all};
ghost use Rattle.refusal.specs.Refusal.{answered};
ghost use Rattle.settings.specs.Settings.{saved_list, default_of, absent_of, with_fit, screen_picture_of, with_mode_byte, mode_byte_of, fit_mark_of, fit_byte_of, untouched_of, picture_fit_of, usable_of};
ghost use Rattle.settings.specs.Settings.{least, in_limits_of, screen_in_limits_of, rect_in_limits_of, place_in_limits_of, tops_in_limits_of, tested_of};

use float::is_finite;
use geometry::{CENTRED, EMPTY, Offset, Rect};
use layout::{Cutouts, NO_CUTOUTS};
use refusal::Refusal;

#[derive(Clone, Copy, Debug, PartialEq, Eq)]
pub enum PictureFit {
    Maximum,
    KeepClear,
}

// The saved rectangles are the first `count` of `elements`: `default_of`, `with_elements`, `saved_list` and `Fitting` are written on these two fields. No
// invariant bounds the count: `write_order` answers 7 for settings with more.
#[derive(Clone, Copy, Debug, PartialEq)]
pub struct Preset {
    pub psp: bool,
    pub analog: bool,
    pub overlap: bool,
    pub fit: Option<PictureFit>,
    pub scale: f32,
    pub offset: Offset,
    pub elements: [Rect; 32],
    pub count: usize,
}

#[derive(Clone, Copy, Debug, PartialEq)]
pub struct Settings {
    pub w: f32,
    pub h: f32,
    pub picture: Rect,
    pub preset: Preset,
    pub cutouts: Cutouts,
}

impl Default for Preset {
    ghost is_default = { λ p. p ≡ default_of };

    #[tactic(auto, unfolding(crate::specs::Settings::default_of))]
    fn default() -> Self {
        Self {
            psp: false,
            analog: false,
            overlap: false,
            fit: Some(PictureFit::Maximum),
            scale: 1.0,
            offset: CENTRED,
            elements: [EMPTY; 32],
            count: 0,
        }
    }
}

impl Preset {
    // Bit 0 psp, bit 1 analog, bit 2 allow_overlap: a byte by its bits, as docs/DECISIONS.md has it under "Forms".
    pub fn with_mode_byte(self, b: u8) -> Self
        ensures { result ≡ with_mode_byte self b }
    {
        Self {
            psp: b & 1 != 0,
            analog: b & 2 != 0,
            overlap: b & 4 != 0,
            ..self
        }
    }

    #[tactic(auto, unfolding(crate::specs::Settings::mode_byte_of))]
    pub fn mode_byte(self) -> u8
        ensures { result ≡ mode_byte_of self }
    {
        u8::from(self.psp) + 2 * u8::from(self.analog) + 4 * u8::from(self.overlap)
    }

    pub fn with_fit(self, fit: Option<PictureFit>) -> Self
        ensures { result ≡ with_fit self fit }
    {
        Self { fit, ..self }
    }

    // The saved rectangles.
    pub fn saved_list(&self) -> &[Rect]
        requires { self.now.count ≤ 32 }
        ensures { result.now ≡ saved_list self.now }
    {
        &self.elements[..self.count]
    }

    // The game at its whole size, in the middle.
    #[tactic(auto, unfolding(crate::specs::Settings::untouched_of))]
    pub fn untouched(self) -> bool
        ensures { result ≡ untouched_of self }
    {
        self.scale == 1.0 && self.offset == CENTRED
    }

    #[tactic(auto, unfolding(crate::specs::Settings::picture_fit_of))]
    pub fn picture_fit(self) -> PictureFit
        ensures { result ≡ picture_fit_of self }
    {
        self.fit.unwrap_or(if self.untouched() {
            PictureFit::Maximum
        } else {
            PictureFit::KeepClear
        })
    }
}

impl Settings {
    // Document 01's values for absent fields.
    #[tactic(auto, unfolding(crate::specs::Settings::absent_of))]
    pub fn absent() -> Self
        ensures { result ≡ absent_of }
    {
        Self {
            w: 0.0,
            h: 0.0,
            picture: EMPTY,
            preset: Preset::default(),
            cutouts: NO_CUTOUTS,
        }
    }
}

// Of a byte up to 2. Functions, and no `From`, which may not be written for an `Option`.
#[tactic(auto, unfolding(crate::specs::Settings::fit_mark_of))]
pub fn fit_mark(b: u8) -> Option<PictureFit>
    ensures { result ≡ fit_mark_of b }
{
    match b {
        0 => None,
        1 => Some(PictureFit::Maximum),
        _ => Some(PictureFit::KeepClear),
    }
}

#[tactic(auto, unfolding(crate::specs::Settings::fit_byte_of))]
pub fn fit_byte(fit: Option<PictureFit>) -> u8
    ensures { result ≡ fit_byte_of fit }
{
    match fit {
        None => 0,
        Some(PictureFit::Maximum) => 1,
        Some(PictureFit::KeepClear) => 2,
    }
}

// What an absent picture means: the screen, raised to at least 1 by 1.
pub fn screen_picture(w: f32, h: f32) -> Rect
    ensures { result ≡ screen_picture_of w h }
{
    Rect::new(0.0, 0.0, float::max(w, 1.0), float::max(h, 1.0))
}

// A saved rectangle counts if its numbers are finite.
#[tactic(auto, unfolding(crate::specs::Settings::usable_of))]
pub fn usable(r: Rect) -> bool
    ensures { result ≡ usable_of r }
{
    is_finite(r.x) && (is_finite(r.y) && (is_finite(r.w) && is_finite(r.h)))
}

// A number's limits; no NaN is in them.
#[tactic(auto, unfolding(crate::specs::Settings::in_limits_of))]
fn in_limits(low: f32, x: f32) -> bool
    ensures { result ≡ in_limits_of low x }
{
    (low..=8192.0).contains(&x)
}

#[tactic(auto, unfolding(crate::specs::Settings::screen_in_limits_of))]
pub fn screen_in_limits(w: f32, h: f32) -> bool
    ensures { result ≡ screen_in_limits_of w h }
{
    in_limits(0.0, w) && in_limits(0.0, h)
}

#[tactic(auto, unfolding(crate::specs::Settings::rect_in_limits_of))]
pub fn rect_in_limits(low: f32, r: Rect) -> bool
    ensures { result ≡ rect_in_limits_of low r }
{
    in_limits(-8192.0, r.x)
        && (in_limits(-8192.0, r.y) && (in_limits(low, r.w) && in_limits(low, r.h)))
}

#[tactic(auto, unfolding(crate::specs::Settings::place_in_limits_of))]
pub fn place_in_limits(scale: f32, offset: Offset) -> bool
    ensures { result ≡ place_in_limits_of scale offset }
{
    in_limits(-8192.0, scale) && (in_limits(-8192.0, offset.x) && in_limits(-8192.0, offset.y))
}

// The height above the picture that may be reused, and the height that is covered for a while.
#[tactic(auto, unfolding(crate::specs::Settings::tops_in_limits_of))]
pub fn tops_in_limits(reusable: f32, covered: f32) -> bool
    ensures { result ≡ tops_in_limits_of reusable covered }
{
    in_limits(0.0, reusable) && in_limits(-8192.0, covered)
}

pub fn cutouts_in_limits(cutouts: &[Rect]) -> bool
    ensures { result ≡ list_all (rect_in_limits_of least) cutouts.now }
{
    cutouts.iter().all(|r| rect_in_limits(-8192.0, *r))
}

// The settings, or their first fault in tag order; mode and fit are looked at as the bytes that they came from.
#[tactic(auto, unfolding(crate::specs::Settings::tested_of, crate::specs::Settings::cutouts_in_limits_of, prelude::specs::Answer::must))]
pub fn tested(mode: u8, fit: u8, s: Settings) -> Result<Settings, Refusal>
    ensures { answered result ≡ tested_of mode fit s }
{
    if !screen_in_limits(s.w, s.h) || !rect_in_limits(0.0, s.picture) {
        return Err(Refusal::OffTheScale);
    }
    if mode >> 3 != 0 || 2 < fit {
        return Err(Refusal::OddMark);
    }
    if !place_in_limits(s.preset.scale, s.preset.offset) {
        return Err(Refusal::OffTheScale);
    }
    if 16 < s.cutouts.count {
        return Err(Refusal::Overfull);
    }
    if !cutouts_in_limits(s.cutouts.as_slice()) {
        return Err(Refusal::OffTheScale);
    }
    if 32 < s.preset.count {
        return Err(Refusal::Overfull);
    }
    Ok(s)
}
