// Filling, copying and comparing slices.
#![tactic(auto)]

ghost use Rattle.std.specs.Prelude.{◌≡◌, ◌≤◌, length};
ghost use Rattle.base_lists.specs.Lists.{onto, filled, same as same_lem};

// Sets the first n entries to 0; entries behind keep their contents.
pub fn clear(s: &mut [u32], n: usize)
    requires { n ≤ length s.old }
    ensures { s.new ≡ filled (λ k. 0) s.old n }
{
    s[..n].fill(0);
}

// Copies src to the front of dst; entries behind keep their contents.
pub fn copy<T: Copy>(src: &[T], dst: &mut [T])
    requires { length src.now ≤ length dst.old }
    ensures { dst.new ≡ onto dst.old src.now }
{
    for (i, entry) in src.iter().enumerate() {
        dst[i] = *entry;
    }
}

// Whether two slices hold the same numbers.
pub fn same(a: &[u32], b: &[u32]) -> bool
    ensures { result ≡ same_lem a.now b.now }
{
    a == b
}
