// Whole numbers and the columns of a row. The set's numbers are small, so none of these sums and products wraps, and no
// caller has to show it; a number that is not there reads as 0.

ghost use Rattle.std.specs.Prelude.{◌≡◌, ◌+◌, ◌-◌, ◌*◌, ◌%◌, ◌^◌, min, slice_index, slice_set};
ghost use Rattle.test_set.specs.Filmset.{rest_of, word_of};

// The numbers of a row, 0 behind the last.
pub type Row = [u64; 49];

pub fn plus(a: u64, b: u64) -> u64
    ensures { result ≡ (a + b) % 2 ^ 64 }
{
    std::num::wrapping_add_u64(a, b)
}

// The difference, and 0 where b is the larger.
pub fn minus(a: u64, b: u64) -> u64
    ensures { result ≡ a - b }
{
    if b < a {
        return a - b;
    }
    0
}

// The product of two numbers below 2^32.
pub(crate) fn times(a: u64, b: u64) -> u64
    ensures { result ≡ a % 4294967296 * (b % 4294967296) }
{
    (a % 4294967296) * (b % 4294967296)
}

// The remainder, and 0 where b is 0.
pub fn rest(a: u64, b: u64) -> u64
    ensures { result ≡ rest_of a b }
{
    if b == 0 {
        return 0;
    }
    a % b
}

// The number in a column of a row.
pub fn at(row: Row, column: usize) -> u64
    ensures { result ≡ slice_index row column }
{
    if column < 49 {
        return row[column];
    }
    0
}

// A number as one of 32 bits.
pub fn low(n: u64) -> u32
    ensures { result ≡ n % 4294967296 }
{
    (n % 4294967296) as u32
}

// The number in a column as one of 32 bits.
pub fn word(row: Row, column: usize) -> u32
    ensures { result ≡ word_of row column }
{
    low(at(row, column))
}

// The row with another number in a column.
pub fn with(row: Row, column: usize, n: u64) -> Row
    ensures { result ≡ slice_set row column n }
{
    let mut next = row;
    if column < 49 {
        next[column] = n;
    }
    next
}

// How much of a buffer of so many entries is lent where so many are asked for: all where there are no more.
pub fn fitting(asked: u64, len: usize) -> usize
    ensures { result ≡ min asked len }
{
    let n = asked as usize;
    if n < len {
        return n;
    }
    len
}
