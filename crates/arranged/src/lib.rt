// The arrangements `arranged` and `side_rails` of input.rs.
#![tactic(auto)]

ghost use Rattle.std.specs.Prelude.{◌≡◌};
ghost use Rattle.layout.specs.Layout.{Few};
ghost use Rattle.arranged.specs.Arranged.{anchored_of, finished_of, dock_places_of, docked_of, arranged_of, rail_places_of, requested_of, give_way_of, cluster_of, side_rails_of};
ghost use Rattle.arranged.specs.Controls.{rail_controls_of, side_controls_of};

use float::{clamp, max, min, pick};
use geometry::{CENTRED, EMPTY, Rect};
use layout::Layout;
use places::{Faces, Places, place_faces, standard_controller, well_faces};

// What lies below the controls of rails and bands.
pub const BOTTOM: f32 = 4.0;

// The layout with the toolbar at its place.
#[tactic(auto, unfolding(toolbar::specs::Toolbar::anchor_toolbar_of))]
pub fn anchored(l: Layout, w: f32, h: f32) -> Layout
    requires { Few l }
    ensures { (result ≡ anchored_of l w h) × (result.count ≡ l.count) × (result.stickcount ≡ l.stickcount) }
{
    toolbar::anchor_toolbar(l, w, h, 0.0, 0.0, &[])
}

// And with the largest game that is clear of all elements.
#[tactic(auto, unfolding(crate::specs::Arranged::finished_of, toolbar::specs::Toolbar::anchor_toolbar_of, search::specs::Search::place_game_in_aspect_of))]
pub fn finished(l: Layout, w: f32, h: f32) -> Layout
    requires { Few l }
    ensures { (result ≡ finished_of l w h) × (result.count ≡ l.count) × (result.stickcount ≡ l.stickcount) }
{
    search::place_game(anchored(l, w, h), w, h, false, 1.0, CENTRED)
}

// The faces, the shoulders and the system keys: the two loops of the Rust, a function of their own since `docked` would be
// long with them.
#[tactic(auto, unfolding(crate::specs::Arranged::dock_places_of))]
fn dock_places(w: f32, h: f32, compact: bool, cluster: f32, dpad: Rect, faces: Faces) -> Places
    ensures { result ≡ dock_places_of w h compact cluster dpad faces }
{
    let shoulder_width = (cluster - 8.0) / 2.0;
    let left_column = dpad.x + cluster + 8.0;
    let right_column = w - 16.0 - cluster - 8.0 - shoulder_width;
    let l1 = pick(compact, left_column, 16.0);
    let l2 = pick(compact, left_column, 24.0 + shoulder_width);
    let r2 = pick(compact, right_column, w - 16.0 - cluster);
    let r1 = pick(compact, right_column, w - 16.0 - shoulder_width);
    let y1 = pick(compact, dpad.y + 56.0, dpad.y - 56.0);
    let y2 = pick(compact, dpad.y + 0.0, dpad.y - 56.0);
    let select = pick(compact, left_column, max(w / 2.0 - 196.0, 16.0));
    let start = pick(compact, right_column, min(w / 2.0 + 100.0, w - 112.0));
    let system_y = h - pick(compact, 56.0, 64.0);
    Places {
        faces,
        l1: Rect::new(l1, y1, shoulder_width, 48.0),
        l2: Rect::new(l2, y2, shoulder_width, 48.0),
        r2: Rect::new(r2, y2, shoulder_width, 48.0),
        r1: Rect::new(r1, y1, shoulder_width, 48.0),
        select: Rect::new(select, system_y, 96.0, 48.0),
        start: Rect::new(start, system_y, 96.0, 48.0),
        l3: EMPTY,
        r3: EMPTY,
    }
}

// The controls of `arranged`. The toolbar and the game are left to whoever puts them in place.
#[tactic(auto, unfolding(crate::specs::Arranged::docked_of))]
pub fn docked(w: f32, h: f32, compact: bool) -> Layout
    ensures { (result ≡ docked_of w h compact) × (result.count ≡ 10) × (result.stickcount ≡ 0) }
{
    let cluster = min(clamp(w / 2.0 - 20.0, 128.0, 224.0), max(h - 140.0, 128.0));
    let size = clamp(cluster * 0.4, 48.0, 84.0);
    let well_height = pick(
        compact,
        max(min(cluster, 200.0), size * 2.0 + 16.0),
        cluster,
    );
    let offset = (cluster - size) / 2.0;
    let fy = h - pick(compact, 32.0, 76.0) - well_height / 2.0;
    let fx = w - 16.0 - cluster / 2.0;
    let dpad = Rect::new(16.0, fy - well_height / 2.0, cluster, well_height);
    let vertical = (well_height - size) / 2.0;
    let faces = place_faces(fx, fy, offset, vertical, size);
    let places = dock_places(w, h, compact, cluster, dpad, faces);
    standard_controller(places, dpad)
}

#[tactic(auto, using(crate::proofs::ControlLaws::arranged_finished))]
pub fn arranged(w: f32, h: f32, compact: bool) -> Layout
    ensures { (result ≡ arranged_of w h compact) × (result.count ≡ 10) × (result.stickcount ≡ 0) }
{
    finished(docked(w, h, compact), w, h)
}

#[tactic(auto, unfolding(crate::specs::Arranged::rail_places_of))]
fn rail_places(w: f32, main_y: f32, cluster: f32) -> Places
    ensures { result ≡ rail_places_of w main_y cluster }
{
    let fx = w - 16.0 - cluster / 2.0;
    let fy = main_y + cluster / 2.0;
    let faces = well_faces(fx, fy, cluster);
    let shoulder = min((cluster - 8.0) / 2.0, 64.0);
    let shoulder_x = 16.0 + cluster - 2.0 * shoulder - 8.0;
    let shoulder_y = main_y - 112.0;
    let system_y = main_y - 56.0;
    let system_x = 16.0 + cluster - 80.0;
    let l2 = shoulder_x + shoulder + 8.0;
    let r2 = w - shoulder_x - 2.0 * shoulder - 8.0;
    let r1 = w - shoulder_x - shoulder;
    let start = w - system_x - 80.0;
    Places {
        faces,
        l1: Rect::new(shoulder_x, shoulder_y, shoulder, 48.0),
        l2: Rect::new(l2, shoulder_y, shoulder, 48.0),
        r2: Rect::new(r2, shoulder_y, shoulder, 48.0),
        r1: Rect::new(r1, shoulder_y, shoulder, 48.0),
        select: Rect::new(system_x, system_y, 80.0, 48.0),
        start: Rect::new(start, system_y, 80.0, 48.0),
        l3: EMPTY,
        r3: EMPTY,
    }
}

// The rails around wells of a width.
#[tactic(auto, unfolding(crate::specs::Controls::rail_controls_of))]
fn rail_controls(w: f32, h: f32, cluster: f32) -> Layout
    ensures { (result ≡ rail_controls_of w h cluster) × (result.count ≡ 10) × (result.stickcount ≡ 0) }
{
    let main_y = h - BOTTOM - cluster;
    let dpad = Rect::new(16.0, main_y, cluster, cluster);
    standard_controller(rail_places(w, main_y, cluster), dpad)
}

#[tactic(auto, unfolding(crate::specs::Arranged::requested_of))]
fn requested(w: f32, h: f32, picture_height: f32) -> f32
    ensures { result ≡ requested_of w h picture_height }
{
    let picture_clearance = max((w - picture_height * 4.0 / 3.0) / 2.0 - 16.0, 160.0);
    min(clamp(h - 168.0, 122.0, 200.0), picture_clearance)
}

// What one cutout leaves of the wells' width.
#[tactic(auto, unfolding(crate::specs::Arranged::give_way_of))]
fn give_way(w: f32, h: f32, requested: f32, cluster: f32, c: Rect) -> f32
    ensures { result ≡ give_way_of w h requested cluster c }
{
    let y = h - BOTTOM - requested;
    let left = Rect::new(16.0, y, requested, requested);
    let right = Rect::new(w - 16.0 - requested, y, requested, requested);
    if left.overlaps(c) || right.overlaps(c) {
        min(cluster, h - BOTTOM - c.y - c.h - 8.0)
    } else {
        cluster
    }
}

// What all cutouts leave of it.
#[tactic(auto, unfolding(crate::specs::Arranged::cluster_of))]
fn cluster(w: f32, h: f32, picture_height: f32, cutouts: &[Rect]) -> f32
    ensures { result ≡ cluster_of w h picture_height cutouts.now }
{
    let requested = requested(w, h, picture_height);
    cutouts.iter().fold(requested, |cluster, c| {
        give_way(w, h, requested, cluster, *c)
    })
}

// The controls of `side_rails`, without toolbar and game as in `docked`.
#[tactic(auto, unfolding(crate::specs::Controls::side_controls_of))]
pub fn side_controls(w: f32, h: f32, picture_height: f32, cutouts: &[Rect]) -> Layout
    ensures { (result ≡ side_controls_of w h picture_height cutouts.now) × (result.count ≡ 10) × (result.stickcount ≡ 0) }
{
    let cluster = cluster(w, h, picture_height, cutouts);
    if cluster < 122.0 {
        return docked(w, h, false);
    }
    rail_controls(w, h, cluster)
}

#[tactic(auto, using(crate::proofs::ControlLaws::side_finished))]
pub fn side_rails(w: f32, h: f32, picture_height: f32, cutouts: &[Rect]) -> Layout
    ensures { (result ≡ side_rails_of w h picture_height cutouts.now) × (result.count ≡ 10) × (result.stickcount ≡ 0) }
{
    finished(side_controls(w, h, picture_height, cutouts), w, h)
}
