// Scans: whether greys lie in a range.
#![tactic(auto)]

ghost use Rattle.std.specs.Prelude.{◌≡◌, min, max};
ghost use Rattle.base_lists.specs.Lists.{all};
ghost use Rattle.base_range.specs.Scan.{within};

// The lesser of two greys.
pub fn least(a: u16, b: u16) -> u16
    ensures { result ≡ min a b }
{
    a.min(b)
}

// The greater of two greys.
pub fn greatest(a: u16, b: u16) -> u16
    ensures { result ≡ max a b }
{
    a.max(b)
}

// Whether all these greys lie in Min to Max: the least and the greatest of them do. No grey is asked by itself, so that several go at once.
pub fn all_within(greys: &[u16], min: u32, max: u32) -> bool
    ensures { result ≡ all (within min max) greys.now }
{
    let Some((first, rest)) = greys.split_first() else {
        return true;
    };
    let mut low = *first;
    let mut high = *first;
    for v in rest {
        low = low.min(*v);
        high = high.max(*v);
    }
    min <= low as u32 && high as u32 <= max
}
