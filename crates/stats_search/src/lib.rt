// Searches through the used part of a list of links or FEE ids.
#![tactic(auto)]

ghost use Rattle.std.specs.Prelude.{◌≡◌, take};
ghost use Rattle.std.specs.List.{list_any};
ghost use Rattle.stats_search.specs.Search.{twice};

// Whether a link or a FEE id is in the used part of the list. In line: it is asked for each header.
#[inline(always)]
pub fn has<T: Eq + Copy>(list: &[T], used: usize, x: T) -> bool
    ensures { result ≡ list_any (T.eq x) (take used list.now) }
{
    list[..used.min(list.len())].contains(&x)
}

// Whether a link is in the used part of the list twice, found in one walk.
pub fn has_link_twice(links: &[u8], used: usize) -> bool
    ensures { result ≡ twice (take used links.now) }
{
    let mut met = [false; 256];
    for link in &links[..used.min(links.len())] {
        let link = usize::from(*link);
        if met[link] {
            return true;
        }
        met[link] = true;
    }
    false
}
