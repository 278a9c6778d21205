// What an examination lists: the link and the FEE id of a header that was counted, in the lists that are lent.
#![tactic(auto)]

ghost use Rattle.std.specs.Prelude.{◌≡◌};
ghost use Rattle.basis.specs.Pick.{pick};
ghost use Rattle.stats.specs.Lists.{places_by, used_by};

// Lists the link or the FEE id of a header, if step 2 counted it. Answers the used number after it.
pub fn list_if_due<T: Eq + Copy>(due: bool, list: &mut [T], used: usize, x: T) -> usize
    ensures used { result ≡ pick due (used_by T.eq x used list.old) used }
    ensures places { list.new ≡ pick due (places_by T.eq x used list.old) list.old }
{
    if due {
        stats::try_add(list, used, x)
    } else {
        used
    }
}
