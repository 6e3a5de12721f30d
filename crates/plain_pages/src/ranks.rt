// The rank of each cell among the defined values of its page.
ghost use Rattle.std.specs.Prelude.{◌≡◌, map, length, slice_get, Some, Option};
ghost use Rattle.plain_pages.specs.PlacesInside.{even};
ghost use Rattle.plain_pages.specs.RanksInside.{rank_in};

use std::marker::Model;

/// The representation of a list of ranks.
#[derive(Debug, Drop)]
pub enum RankLayout {
    /// The number of cells, none of which is null.
    Every(usize),
    /// The rank of each cell; `NO_RANK` for a null.
    Listed(Vec<u32>),
}

/// The rank of a null.
pub const NO_RANK: u32 = u32::MAX;

/// The rank of each cell of a page: the number of its value among the page's values, or None for a null.
#[derive(Debug, Drop)]
pub struct Ranks {
    layout: RankLayout,
}

impl Model for Ranks {
    ghost use Rattle.std.specs.Prelude.{List, Option, ℕ};
    ghost use Rattle.plain_pages.specs.RanksInside.{ranks_in};

    ghost Value = { List (Option ℕ) };

    ghost view = { λ r. ranks_in r.layout };
}

impl Ranks {
    /// The ranks of `count` cells without nulls.
    pub fn every(count: usize) -> Ranks
        ensures { result ≡ map Some (even 0 1 count) }
    {
        Ranks {
            layout: RankLayout::Every(count),
        }
    }

    /// The ranks in a list, where `NO_RANK` stands for a null.
    pub fn listed(items: Vec<u32>) -> Ranks
        ensures { result ≡ map rank_in items.items }
    {
        Ranks {
            layout: RankLayout::Listed(items),
        }
    }

    /// The number of cells, nulls included.
    pub fn len(&self) -> usize
        ensures { result ≡ length self.now }
    {
        match &self.layout {
            RankLayout::Every(count) => every_length(*count),
            RankLayout::Listed(items) => items.len(),
        }
    }

    /// The rank of cell `i`: None if there is no such cell, `Some(None)` if it is null.
    pub fn get(&self, i: usize) -> Option<Option<usize>>
        ensures { result ≡ slice_get self.now i }
    {
        match &self.layout {
            RankLayout::Every(count) => every_rank(*count, i),
            RankLayout::Listed(items) => listed_rank(items.as_slice(), i),
        }
    }
}

fn every_length(count: usize) -> usize
    ensures { result ≡ length (map Some (even 0 1 count)) }
{
    count
}

fn every_rank(count: usize, i: usize) -> Option<Option<usize>>
    ensures { result ≡ slice_get (map Some (even 0 1 count)) i }
{
    if i >= count {
        return None;
    }
    Some(Some(i))
}

fn listed_rank(items: &[u32], i: usize) -> Option<Option<usize>>
    ensures { result ≡ slice_get (map rank_in items.now) i }
{
    let item = items.get(i)?;
    Some(rank_of(*item))
}

fn rank_of(item: u32) -> Option<usize>
    ensures { result ≡ rank_in item }
{
    if item == NO_RANK {
        return None;
    }
    Some(item as usize)
}
