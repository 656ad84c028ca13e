// The part of a screen that the system leaves free, as input.rs has it. Integers off document 01's scale are refused.
#![tactic(auto)]

ghost use Rattle.std.specs.Prelude.{◌≡◌, true};
ghost use Rattle.refusal.specs.Refusal.{answered};
ghost use Rattle.safe_area.specs.Safe.{to_f32, OnScale, on_scale_of, all_on_scale_of, current_edges_of, start_of, extent_of, content_of, safe_content_of, merged_edge_of, merged_of, safe_edges_of};

use geometry::Rect;
use refusal::Refusal;

#[derive(Clone, Copy, Debug, PartialEq, Eq)]
pub struct Edges {
    pub left: i32,
    pub top: i32,
    pub right: i32,
    pub bottom: i32,
}

#[tactic(auto, unfolding(crate::specs::Safe::safe_content_of, prelude::specs::Answer::must))]
pub fn safe_content(size: [i32; 2], inset_size: [i32; 2], edges: [i32; 4]) -> Result<Rect, Refusal>
    ensures { answered result ≡ safe_content_of size inset_size edges }
{
    if !all_on_scale(&size, &inset_size, &edges) {
        return Err(Refusal::OffTheScale);
    }
    Ok(content(size, inset_size, edges))
}

// Merges the margins of decoration, reserved navigation and camera.
#[tactic(auto, unfolding(crate::specs::Safe::safe_edges_of, prelude::specs::Answer::must))]
pub fn safe_edges(
    decoration: [i32; 4],
    navigation: [i32; 4],
    camera: [i32; 4],
    local_side_camera: bool,
) -> Result<Edges, Refusal>
    ensures { answered result ≡ safe_edges_of decoration navigation camera local_side_camera }
{
    if !all_on_scale(&decoration, &navigation, &camera) {
        return Err(Refusal::OffTheScale);
    }
    Ok(merged(decoration, navigation, camera, local_side_camera))
}

// Whether all numbers are within document 01's limits of an integer.
#[tactic(auto, unfolding(crate::specs::Safe::within_limits_of))]
fn on_scale(numbers: &[i32]) -> bool
    ensures { result ≡ on_scale_of numbers.now }
{
    numbers.iter().all(|n| (-8192..=8192).contains(n))
}

#[tactic(auto, unfolding(crate::specs::Safe::all_on_scale_of))]
fn all_on_scale(a: &[i32], b: &[i32], c: &[i32]) -> bool
    ensures { result ≡ all_on_scale_of a.now b.now c.now }
{
    on_scale(a) && on_scale(b) && on_scale(c)
}

// The edges count only where they were measured at the size itself.
#[tactic(auto, unfolding(crate::specs::Safe::current_edges_of))]
fn current_edges(size: [i32; 2], inset_size: [i32; 2], edges: [i32; 4]) -> [i32; 4]
    ensures { result ≡ current_edges_of size inset_size edges }
{
    if size == inset_size { edges } else { [0; 4] }
}

// Along one axis, where the free part begins, and its extent.
fn span(whole: i32, near: i32, far: i32) -> (f32, f32)
    requires { OnScale whole × OnScale near × OnScale far }
    ensures { result ≡ (to_f32 (start_of whole near), to_f32 (extent_of whole near far)) }
{
    let start = near.clamp(0, whole.max(0));
    let extent = (whole - start - far.max(0)).max(1);
    (start as f32, extent as f32)
}

#[tactic(auto, unfolding(crate::specs::Safe::content_of))]
fn content(size: [i32; 2], inset_size: [i32; 2], edges: [i32; 4]) -> Rect
    requires { all_on_scale_of size inset_size edges ≡ true }
    ensures { result ≡ content_of size inset_size edges }
{
    let [left, top, right, bottom] = current_edges(size, inset_size, edges);
    let (x, w) = span(size[0], left, right);
    let (y, h) = span(size[1], top, bottom);
    Rect::new(x, y, w, h)
}

// The margin at an edge. A camera that is a local obstacle has none.
#[tactic(auto, unfolding(crate::specs::Safe::merged_edge_of))]
fn merged_edge(decoration: i32, navigation: i32, camera: i32, local: bool) -> i32
    ensures { result ≡ merged_edge_of decoration navigation camera local }
{
    decoration
        .max(navigation)
        .max(if local { 0 } else { camera })
}

// A side camera may be a local obstacle; its margins above and below still apply.
#[tactic(auto, unfolding(crate::specs::Safe::merged_of))]
fn merged(
    decoration: [i32; 4],
    navigation: [i32; 4],
    camera: [i32; 4],
    local_side_camera: bool,
) -> Edges
    ensures { result ≡ merged_of decoration navigation camera local_side_camera }
{
    Edges {
        left: merged_edge(decoration[0], navigation[0], camera[0], local_side_camera),
        top: merged_edge(decoration[1], navigation[1], camera[1], false),
        right: merged_edge(decoration[2], navigation[2], camera[2], local_side_camera),
        bottom: merged_edge(decoration[3], navigation[3], camera[3], false),
    }
}
