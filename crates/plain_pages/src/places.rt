// Lists of the places at which values begin.
ghost use Rattle.std.specs.Prelude.{◌≡◌, ◌+◌, ◌*◌, ◌^◌, ◌<◌, length, slice_get};
ghost use Rattle.plain_pages.specs.PlacesInside.{even};

use std::marker::Model;

/// The representation of a list of places.
#[derive(Debug, Drop)]
pub enum PlaceLayout {
    /// The first place, the distance from each place to the next, and the number of places.
    Even(usize, usize, usize),
    Listed(Vec<u32>),
    /// The places in a body of 4 GiB or more, where a place may need more than 32 bits.
    Wide(Vec<usize>),
}

/// The places at which values begin, in order. Evenly spaced places take no memory.
#[derive(Debug, Drop)]
pub struct Places {
    layout: PlaceLayout,
}

impl Model for Places {
    ghost use Rattle.std.specs.Prelude.{List, ℕ};
    ghost use Rattle.plain_pages.specs.PlacesInside.{places_in, AreSmall};

    ghost Value = { List ℕ };

    ghost view = { λ p. places_in p.layout };

    ghost invariant = { λ p. AreSmall p.layout };
}

impl Places {
    /// `count` places from `first` on, each `step` after the previous one.
    pub fn even(first: usize, step: usize, count: usize) -> Places
        requires { first + step * count < 2 ^ 64 }
        ensures { result ≡ even first step count }
    {
        Places {
            layout: PlaceLayout::Even(first, step, count),
        }
    }

    /// These places, in four bytes each.
    pub fn listed(places: Vec<u32>) -> Places
        ensures { result ≡ places.items }
    {
        Places {
            layout: PlaceLayout::Listed(places),
        }
    }

    /// These places, in eight bytes each.
    pub fn wide(places: Vec<usize>) -> Places
        ensures { result ≡ places.items }
    {
        Places {
            layout: PlaceLayout::Wide(places),
        }
    }

    /// The number of places.
    pub fn len(&self) -> usize
        ensures { result ≡ length self.now }
    {
        match &self.layout {
            PlaceLayout::Even(first, step, count) => even_length(*first, *step, *count),
            PlaceLayout::Listed(places) => places.len(),
            PlaceLayout::Wide(places) => places.len(),
        }
    }

    /// Place number `k`, or None if there are fewer.
    pub fn get(&self, k: usize) -> Option<usize>
        ensures { result ≡ slice_get self.now k }
    {
        match &self.layout {
            PlaceLayout::Even(first, step, count) => even_place(*first, *step, *count, k),
            PlaceLayout::Listed(places) => listed_place(places.as_slice(), k),
            PlaceLayout::Wide(places) => wide_place(places.as_slice(), k),
        }
    }
}

fn even_length(first: usize, step: usize, count: usize) -> usize
    ensures { result ≡ length (even first step count) }
{
    count
}

fn even_place(first: usize, step: usize, count: usize, k: usize) -> Option<usize>
    requires { first + step * count < 2 ^ 64 }
    ensures { result ≡ slice_get (even first step count) k }
{
    if k >= count {
        return None;
    }
    Some(first + step * k)
}

fn listed_place(places: &[u32], k: usize) -> Option<usize>
    ensures { result ≡ slice_get places.now k }
{
    let place = places.get(k)?;
    Some(*place as usize)
}

fn wide_place(places: &[usize], k: usize) -> Option<usize>
    ensures { result ≡ slice_get places.now k }
{
    let place = places.get(k)?;
    Some(*place)
}
