// Where curves are drawn: no closer together than each of them is seen.
use super::curve::{CURVES, Curve};
use super::plane::{BOTTOM, HEIGHT, TOP};
use super::{POINTS, Picture};
use arrayvec::ArrayVec;
use nvme_stats::Window;

// How far curves are apart, and how far all of them that are equal, in tenths of a pixel.
const APART: u64 = 30;

const BAND: u64 = 240;

/// How far down the curves of a picture are in each of its windows, in tenths of a pixel.
#[derive(Drop)]
pub struct Heights {
    all: [[u64; CURVES]; POINTS],
}

// The place of a curve in a window: how far down it is, in tenths of a pixel, and how far where those above push it.
#[derive(Clone, Copy, Default, PartialEq, Eq, PartialOrd, Ord)]
struct Place {
    down: u64,
    curve: usize,
    pushed: u64,
}

/// How far down a share is, in tenths of a pixel, below the share at the top. Both are in hundredths of a percent.
pub fn tenths_down(share: u64, highest: u64) -> u64 {
    let up = share.min(highest).saturating_mul(10 * HEIGHT) / highest.max(1);
    (10 * BOTTOM).saturating_sub(up)
}

// The places of the curves that go through a window, from the top down. Equal ones keep their order.
fn places_of(curves: &[Curve], window: &Window, highest: u64) -> ArrayVec<Place, CURVES> {
    let mut places = ArrayVec::new();
    for (at, curve) in curves.iter().enumerate() {
        if curve.goes_through(window) {
            let _fits = places.try_push(Place {
                down: tenths_down(curve.share(window), highest),
                curve: at,
                pushed: 0,
            });
        }
    }
    places.sort_unstable();
    places
}

// Pushes each place down until it is this far below the one before.
fn push_down(places: &mut [Place], apart: u64) {
    let mut least = 10 * TOP;
    for place in places.iter_mut() {
        place.pushed = place.down.max(least);
        least = place.pushed.saturating_add(apart);
    }
}

// Pushes each place up until it is this far above the next one, and puts it midway to where it was pushed down.
fn push_up(places: &mut [Place], apart: u64) {
    let mut most = u64::MAX;
    for place in places.iter_mut().rev() {
        let up = place.down.min(most);
        most = up.saturating_sub(apart);
        place.down = up.saturating_add(place.pushed) / 2;
    }
}

// Lifts places that are below the bottom, and those above them.
fn lift(places: &mut [Place], apart: u64) {
    let mut most = 10 * BOTTOM;
    for place in places.iter_mut().rev() {
        place.down = place.down.min(most);
        most = place.down.saturating_sub(apart);
    }
}

impl Heights {
    /// Those of curves, below the share at the top in hundredths of a percent. Curves that would be closer than 3
    /// pixels, or where they are more than nine a part of 24, are moved apart.
    pub fn of(picture: &Picture, curves: &[Curve], highest: u64) -> Heights {
        let apart = (BAND / (curves.len() as u64).saturating_sub(1).max(1)).min(APART);
        let mut heights = Heights {
            all: [[0; CURVES]; POINTS],
        };
        for (window, downs) in picture.series.all.iter().zip(heights.all.iter_mut()) {
            let mut places = places_of(curves, window, highest);
            push_down(places.as_mut_slice(), apart);
            push_up(places.as_mut_slice(), apart);
            lift(places.as_mut_slice(), apart);
            keep(places.as_slice(), downs);
        }
        heights
    }

    /// How far down a curve is in a window, in tenths of a pixel.
    pub fn down(&self, window: usize, curve: usize) -> u64 {
        let downs = self.all.get(window);
        downs
            .and_then(|downs| downs.get(curve).copied())
            .unwrap_or(0)
    }
}

// Keeps how far down each curve is.
fn keep(places: &[Place], downs: &mut [u64; CURVES]) {
    for place in places {
        if let Some(down) = downs.get_mut(place.curve) {
            *down = place.down;
        }
    }
}
