// Bytes as 16-bit entries, and back.
#![tactic(auto)]

ghost use Rattle.std.specs.Prelude.{◌≡◌, true, ◌≤◌, length};
ghost use Rattle.base_lists.specs.Lists.{onto, all};
ghost use Rattle.byte_narrow.specs.Narrow.{is_byte};

// Bytes to the front of 16-bit entries; entries behind keep their contents.
pub fn widen(src: &[u8], dst: &mut [u16])
    requires { length src.now ≤ length dst.old }
    ensures { dst.new ≡ onto dst.old src.now }
{
    for i in 0..src.len() {
        dst[i] = src[i] as u16;
    }
}

// 16-bit entries that are bytes to the front of bytes; entries behind keep their contents.
pub fn narrow(src: &[u16], dst: &mut [u8])
    requires { (length src.now ≤ length dst.old) × (all is_byte src.now ≡ true) }
    ensures { dst.new ≡ onto dst.old src.now }
{
    for k in 0..src.len() {
        dst[k] = src[k] as u8;
    }
}
