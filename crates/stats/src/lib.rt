// The counts and lists of a scan, as the Rust's `Stats` keeps them.
#![tactic(auto)]

ghost use Rattle.std.specs.Prelude.{◌≡◌};
ghost use Rattle.stats.specs.Counts.{added};
ghost use Rattle.stats.specs.Lists.{full_by, places_by, used_by};

use stats_search::has;
pub use stats_search::has_link_twice;

// A count, and whether it was full and started again at 0.
#[derive(Clone, Copy, Debug, PartialEq, Eq)]
pub struct Count {
    pub value: u32,
    pub carry: bool,
}

// The count with `n` more, modulo 2^32. Where that is 2^32 - 1, it is set to 0 and marked.
#[tactic(auto, unfolding(crate::specs::Counts::added))]
pub fn add(count: u32, n: u32) -> Count
    ensures { result ≡ added count n }
{
    let value = count.wrapping_add(n);
    if value == u32::MAX {
        return Count {
            value: 0,
            carry: true,
        };
    }
    Count {
        value,
        carry: false,
    }
}

// Whether a link or a FEE id is new and has no place left in its list. Only a list without a free place is searched.
pub fn is_full<T: Eq + Copy>(list: &[T], used: usize, x: T) -> bool
    ensures { result ≡ full_by T.eq x used list.now }
{
    list.len() <= used && !has(list, used, x)
}

// Lists a link or a FEE id that is new behind the used part, where there is a place, and gives the used number.
pub fn try_add<T: Eq + Copy>(list: &mut [T], used: usize, x: T) -> usize
    ensures used { result ≡ used_by T.eq x used list.old }
    ensures places { list.new ≡ places_by T.eq x used list.old }
{
    if list.len() <= used || has(list, used, x) {
        return used;
    }
    list[used] = x;
    used + 1
}
