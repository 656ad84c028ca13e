// Ten fingers on one film (document 02, W-203): each finger's mask is its own history. The calls are functions of a tracker by value,
// `pressed`, `moved` and `lifted`; over them `press`, `move_to` and `lift` change a tracker where it lies.
#![tactic(auto)]

ghost use Rattle.std.specs.Prelude.{◌≡◌, ◌≤◌, cond, not, leb};
ghost use Rattle.prelude.specs.Answer.{accepted, refused, must, and_then};
ghost use Rattle.refusal.specs.Refusal.{answered};
ghost use Rattle.tracker.specs.Tracker.{fresh_of, finger_at, with_finger, is_held_of, held_mask_of, combined_of, Press, MoveTo, Lift, kept_or, answer_of, after_of};

use layout::Layout;
use refusal::Refusal;
use touch::mask_near;

// `held` is 0 for a finger that is not held, and any other number for one that is: so whatever a host lends is a tracker.
#[repr(C)]
#[derive(Clone, Copy, Debug, PartialEq, Eq)]
pub struct Finger {
    pub held: u16,
    pub mask: u16,
}

#[repr(C)]
#[derive(Clone, Copy, Debug, PartialEq, Eq)]
pub struct Tracker {
    pub fingers: [Finger; 10],
}

// What a call leaves of a tracker, and what it answers: the finger's mask and the combined mask, or why it is refused.
#[derive(Clone, Copy, Debug, PartialEq, Eq)]
pub struct Tracked<R = Refusal> {
    pub next: Tracker,
    pub answer: Result<(u16, u16), R>,
}

const NOT_HELD: Finger = Finger { held: 0, mask: 0 };

impl Finger {
    fn is_held(self) -> bool
        ensures { result ≡ is_held_of self }
    {
        self.held != 0
    }

    #[tactic(auto, unfolding(crate::specs::Tracker::held_mask_of))]
    fn held_mask(self) -> u16
        ensures { result ≡ held_mask_of self }
    {
        if self.is_held() {
            return self.mask;
        }
        0
    }
}

impl Tracker {
    #[tactic(auto, unfolding(crate::specs::Tracker::fresh_of))]
    pub fn fresh() -> Self
        ensures { result ≡ fresh_of }
    {
        Self {
            fingers: [NOT_HELD; 10],
        }
    }

    #[tactic(auto, unfolding(crate::specs::Tracker::combined_of, crate::specs::Tracker::joined_of))]
    pub fn combined(self) -> u16
        ensures { result ≡ combined_of self }
    {
        self.fingers.iter().fold(0, |mask, f| mask | f.held_mask())
    }

    // Each place is tested by itself: after a store at an index that is not known when this is compiled, a read of the whole array waits.
    fn with_finger(self, i: usize, f: Finger) -> Self
        ensures { result ≡ with_finger self i f }
    {
        let mut fingers = self.fingers;
        for (k, place) in fingers.iter_mut().enumerate() {
            if k == i {
                *place = f;
            }
        }
        Self { fingers }
    }

    // The finger that a call is of, if it is held as the call asks.
    #[tactic(auto, unfolding(prelude::specs::Answer::must))]
    fn called(self, finger: u8, held: bool) -> Result<Finger, Refusal>
        ensures { let f = finger_at self finger in answered result ≡ must (leb finger 9) 9 (must (cond held (is_held_of f) (not (is_held_of f))) 10 (accepted f)) }
    {
        let f = self
            .fingers
            .get(usize::from(finger))
            .ok_or(Refusal::NoSuchFinger)?;
        if f.is_held() != held {
            return Err(Refusal::WrongState);
        }
        Ok(*f)
    }

    // What a call leaves and answers that makes this of its finger, or is refused.
    fn changed(self, finger: u8, made: Result<Finger, Refusal>) -> Tracked
        ensures answer { answered result.answer ≡ and_then (answered made) (λ f. accepted (f.mask, combined_of (with_finger self finger f))) }
        ensures tracker { result.next ≡ kept_or self (and_then (answered made) (λ f. accepted (with_finger self finger f))) }
    {
        match made {
            Ok(f) => {
                let next = self.with_finger(usize::from(finger), f);
                let answer = Ok((f.mask, next.combined()));
                Tracked { next, answer }
            }
            Err(refusal) => self.kept(refusal),
        }
    }

    // Also where an order is refused. Whatever says why is answered: a `Refusal`, or a number.
    pub fn kept<R>(self, refusal: R) -> Tracked<R>
        ensures answer { result.answer ≡ Err refusal }
        ensures tracker { result.next ≡ self }
    {
        Tracked {
            next: self,
            answer: Err(refusal),
        }
    }
}

// ---- the calls by value: three, each what it makes of its finger (docs/DECISIONS.md, "Forms")

pub fn pressed(t: Tracker, l: Layout, finger: u8, x: f32, y: f32) -> Tracked
    requires { l.count ≤ 12 }
    ensures answer { answered result.answer ≡ answer_of t (Press finger x y l) }
    ensures tracker { result.next ≡ after_of t (Press finger x y l) }
{
    let made = t.called(finger, false).map(|_| Finger {
        held: 1,
        mask: mask_near(l, x, y, 0),
    });
    t.changed(finger, made)
}

pub fn moved(t: Tracker, l: Layout, finger: u8, x: f32, y: f32) -> Tracked
    requires { l.count ≤ 12 }
    ensures answer { answered result.answer ≡ answer_of t (MoveTo finger x y l) }
    ensures tracker { result.next ≡ after_of t (MoveTo finger x y l) }
{
    let made = t.called(finger, true).map(|f| Finger {
        held: 1,
        mask: mask_near(l, x, y, f.mask),
    });
    t.changed(finger, made)
}

// The layout is not looked at.
pub fn lifted(t: Tracker, l: Layout, finger: u8) -> Tracked
    ensures answer { answered result.answer ≡ answer_of t (Lift finger l) }
    ensures tracker { result.next ≡ after_of t (Lift finger l) }
{
    t.changed(finger, t.called(finger, true).map(|_| NOT_HELD))
}

// ---- the calls where a tracker lies, thin functions over those

pub fn press(t: &mut Tracker, l: Layout, finger: u8, x: f32, y: f32) -> Result<(u16, u16), Refusal>
    requires { l.count ≤ 12 }
    ensures answer { answered result ≡ answer_of t.old (Press finger x y l) }
    ensures tracker { t.new ≡ after_of t.old (Press finger x y l) }
{
    let tracked = pressed(*t, l, finger, x, y);
    *t = tracked.next;
    tracked.answer
}

pub fn move_to(
    t: &mut Tracker,
    l: Layout,
    finger: u8,
    x: f32,
    y: f32,
) -> Result<(u16, u16), Refusal>
    requires { l.count ≤ 12 }
    ensures answer { answered result ≡ answer_of t.old (MoveTo finger x y l) }
    ensures tracker { t.new ≡ after_of t.old (MoveTo finger x y l) }
{
    let tracked = moved(*t, l, finger, x, y);
    *t = tracked.next;
    tracked.answer
}

pub fn lift(t: &mut Tracker, l: Layout, finger: u8) -> Result<(u16, u16), Refusal>
    ensures answer { answered result ≡ answer_of t.old (Lift finger l) }
    ensures tracker { t.new ≡ after_of t.old (Lift finger l) }
{
    let tracked = lifted(*t, l, finger);
    *t = tracked.next;
    tracked.answer
}
