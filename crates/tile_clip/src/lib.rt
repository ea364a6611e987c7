// Clipping the counts of one tile in place: the excess above the limit is handed out evenly, then what is left of it one by one.
#![tactic(auto)]

ghost use Rattle.std.specs.Prelude.{◌≡◌, ◌+◌, ◌-◌, ◌*◌, ◌/◌, ◌≤◌, ◌<◌, min, max, length};
ghost use Rattle.base_lists.specs.Lists.{total};
ghost use Rattle.tile_clip.specs.Clip.{excess, shared, walk, next_start_of, clipped};
ghost use Rattle.tile_clip.specs.Looks.{spent_of, apart, onward, skipped_of};
ghost use Rattle.tile_clip.specs.Spans.{TurnAsks, Turned, TurnsAsks, TurnsLeft, SpanAsks, SpanLeft};
ghost use Rattle.tile_clip.specs.Asks.{ClipAsks, PassAsks, Passed, WalkAsks, Walked, Shut, gain, Raised, WalkStands};

// What clipping a tile's counts took: the excess, and how many bins the rule's leftover walk looks at.
#[derive(Clone, Copy)]
pub struct Spent {
    pub excess: u64,
    pub looks: u64,
}

// The excess: the sum over bins of what stands above the limit. A tile's counts add up within 32 bits, and no bin is branched on, so that
// many bins go at once.
pub fn excess(counts: &[u32], limit: u32) -> u64
    requires { total counts.now ≤ 4194304 }
    ensures { result ≡ excess limit counts.now }
{
    let over: u32 = counts.iter().map(|count| count.saturating_sub(limit)).sum();
    over as u64
}

// The even share q to every bin, up to the limit; what is left of the excess is the answer. Nothing is lost on the way, so that it is what
// the bins had less what they have: two sums, where what each bin takes would need branches.
fn share_out(counts: &mut [u32], limit: u32, q: u32) -> u64
    requires { PassAsks limit q (excess limit counts.old) counts.old × (q ≤ 4194304) × (total counts.old ≤ 4194304) }
    ensures { Passed limit q (excess limit counts.old) counts.old counts.new result }
{
    let mut had: u32 = 0;
    let mut have: u32 = 0;
    for count in counts.iter_mut() {
        had += *count;
        *count = (*count + q).min(limit);
        have += *count;
    }
    (had - have) as u64
}

// The step of a start: as many bins apart as spreads r over all bins once, and at least 1.
fn step_of(bins: usize, r: u64) -> usize
    requires { 0 < r }
    ensures { result ≡ max 1 (bins / r) }
{
    (bins as u64 / r).max(1) as usize
}

// The start behind this one: the first bin comes after the last.
fn next_start(bins: usize, start: usize) -> usize
    requires { start < 4096 }
    ensures { result ≡ next_start_of bins start }
{
    if start + 1 < bins { start + 1 } else { 0 }
}

// Where the bins under the limit end, looked for from `end` down; the bins from `end` on are full. With a factor near one nearly all
// bins end full, those at the back first, and a walk that went on to the last bin would look at full bins most of the time.
fn open_end(counts: &[u32], limit: u32, end: usize) -> usize
    requires { Shut limit end counts.now }
    ensures { Shut limit result counts.now }
{
    for last in (0..end).rev() {
        if counts[last] < limit {
            return last + 1;
        }
    }
    0
}

// What a bin gains where it is looked at: one, if it is under the limit.
fn gains(count: u32, limit: u32) -> u32
    ensures { result ≡ gain limit count }
{
    u32::from(count < limit)
}

// One to every bin under the limit; how many gained is the answer. No bin's step hangs on another's, so that many bins go at once.
fn pass(counts: &mut [u32], limit: u32) -> u64
    requires { length counts.old ≤ 4096 }
    ensures { Raised limit counts.old counts.new result }
{
    let mut sum: u32 = 0;
    for count in counts.iter_mut() {
        let more = gains(*count, limit);
        *count += more;
        sum += more;
    }
    sum as u64
}

// The looks at full bins that a walk has before it behind the end: at each step-th bin from `at` on.
fn looks_behind(bins: usize, at: usize, step: usize) -> u64
    requires { (0 < step) × (step ≤ 4096) × (bins ≤ 4096) }
    ensures { result ≡ apart step (bins - at) }
{
    if at < bins {
        (bins - at).div_ceil(step) as u64
    } else {
        0
    }
}

// The looks of n starts in a row, the last of them at the last bin, that find full bins only. With n = a x step + b, the first b of them
// look at a + 1 bins, and then `step` of them at a, at a - 1, .. and at 1.
fn looks_of_starts(step: usize, n: usize) -> u64
    requires { (0 < step) × (step ≤ 4096) × (n ≤ 4096) }
    ensures { result ≡ onward step n }
{
    let a = (n / step) as u64;
    let b = (n % step) as u64;
    step as u64 * (a * (a + 1) / 2) + b * (a + 1)
}

// The looks of the starts behind this one that the code does not walk, as all bins from their own on are full: those up to the last bin,
// where the next start is the first bin.
fn looks_skipped(bins: usize, end: usize, start: usize, r: u64) -> u64
    requires { (0 < r) × (bins ≤ 4096) × (start < bins) }
    ensures { result ≡ skipped_of bins end start r }
{
    if start + 1 < end {
        0
    } else {
        looks_of_starts(step_of(bins, r), bins - (start + 1))
    }
}

// Where the starts stand: what is left, the next start, where the bins under the limit end, and the looks that were taken.
#[derive(Clone, Copy)]
struct Standing {
    left: u64,
    start: usize,
    end: usize,
    looks: u64,
}

// The starts that find more left than there are bins: their step is 1 and nothing runs out on the way, so the walk of each is one pass.
fn whole_starts(counts: &mut [u32], limit: u32, left: u64) -> Standing
    requires { WalkAsks limit left counts.old }
    ensures { WalkStands limit left counts.old counts.new result }
{
    let bins = counts.len();
    let mut r = left;
    let mut start = 0;
    let mut end = bins;
    let mut looks: u64 = 0;
    while (bins as u64) < r {
        r -= pass(&mut counts[start..end], limit);
        end = open_end(counts, limit, end);
        looks += (bins - start) as u64 + looks_skipped(bins, end, start, r);
        start = next_start(end, start);
    }
    Standing {
        left: r,
        start,
        end,
        looks,
    }
}

// The leftover, one by one to the bins under the limit, from every start in turn, until nothing is left. The answer is how many bins the
// rule looks at on the way, those included that are full and that this code passes over.
fn hand_out(counts: &mut [u32], limit: u32, left: u64) -> u64
    requires { WalkAsks limit left counts.old }
    ensures { Walked limit left counts.old counts.new result }
{
    let standing = whole_starts(counts, limit, left);
    let bins = counts.len();
    let mut r = standing.left;
    let mut start = standing.start;
    let mut end = standing.end;
    let mut looks = standing.looks;
    'starts: while 0 < r {
        let step = step_of(bins, r);
        let mut at = start;
        while at < end {
            looks += 1;
            if counts[at] < limit {
                counts[at] += 1;
                r -= 1;
                if r == 0 {
                    break 'starts;
                }
            }
            at += step;
        }
        looks += looks_behind(bins, at, step);
        end = open_end(counts, limit, end);
        looks += looks_skipped(bins, end, start, r);
        start = next_start(end, start);
    }
    looks
}

// Clips the counts of one tile at the limit.
pub fn clip(counts: &mut [u32], limit: u32) -> Spent
    requires { ClipAsks limit counts.old }
    ensures { (counts.new ≡ clipped limit counts.old) × (result ≡ spent_of limit counts.old) }
{
    let over = excess(counts, limit);
    let q = over / counts.len() as u64;
    let left = share_out(counts, limit, q as u32);
    let looks = hand_out(counts, limit, left);
    Spent {
        excess: over,
        looks,
    }
}

// What starts left that find only some bins in a row holding anything: of what was to be handed out, and with the bins before them.
#[derive(Clone, Copy)]
struct Handed {
    left: u64,
    below: u64,
}

// The walk of one start over some bins in a row, from `at` on; what is left is the answer.
fn walk_part(counts: &mut [u32], limit: u32, at: usize, step: usize, left: u64) -> u64
    requires { (0 < left) × (0 < step) × (step ≤ 4096) × (length counts.old ≤ 4096) }
    ensures { (counts.new ≡ (walk limit step at counts.old left).counts) × (result ≡ (walk limit step at counts.old left).rest) }
{
    let mut r = left;
    for i in (at..counts.len()).step_by(step) {
        let more = gains(counts[i], limit);
        counts[i] += more;
        r -= more as u64;
        if r == 0 {
            break;
        }
    }
    r
}

// The walk of one start where all bins before the part and behind it are under the limit: of those it meets each takes one, so that they
// are counted and not walked.
fn turn(part: &mut [u32], limit: u32, bins: usize, lo: usize, start: usize, left: u64) -> Handed
    requires { TurnAsks bins lo start left part.old }
    ensures { Turned limit bins lo start left part.old part.new result }
{
    let step = step_of(bins, left);
    let met = looks_behind(lo, start, step);
    if left <= met {
        return Handed {
            left: 0,
            below: left,
        };
    }
    let size = part.len();
    let at = start + step * (met as usize) - lo;
    let rest = walk_part(part, limit, at, step, left - met);
    let on = at + step * (looks_behind(size, at, step) as usize) - size;
    let above = looks_behind(bins - (lo + size), on, step);
    Handed {
        left: rest.saturating_sub(above),
        below: met,
    }
}

// The starts, as long as all bins before the part and behind it are under the limit: for `most` of them.
fn turns(
    part: &mut [u32],
    limit: u32,
    bins: usize,
    lo: usize,
    most: usize,
    q: u32,
    left: u64,
) -> Handed
    requires { TurnsAsks limit bins lo most q left part.old }
    ensures { TurnsLeft limit bins lo q left part.old part.new result }
{
    let mut r = left;
    let mut below: u64 = 0;
    for start in 0..most {
        if r == 0 {
            break;
        }
        let handed = turn(part, limit, bins, lo, start, r);
        r = handed.left;
        below += handed.below;
    }
    Handed { left: r, below }
}

// How many starts leave an empty bin with q under the limit, for certain: each gives it one at most. Fewer than there are bins serve.
fn open_starts(limit: u32, q: u32, bins: usize) -> usize
    requires { (q ≤ limit) × (0 < bins) × (bins ≤ 4096) }
    ensures { result ≡ min (limit - q) (bins - 1) }
{
    ((limit - q) as usize).min(bins - 1)
}

// Clips counts of which only the bins of the part, from bin `lo` on, hold anything, and gives what the bins before the part hold then. There
// is no answer where something is left, as the other bins did not stay under the limit; the part is as it came out.
pub fn clip_span(part: &mut [u32], limit: u32, bins: usize, lo: usize) -> Option<u64>
    requires { SpanAsks limit bins lo part.old }
    ensures { SpanLeft limit bins lo part.old part.new result }
{
    let over = excess(part, limit);
    let q = over / bins as u64;
    let empty = (bins - part.len()) as u64;
    let left = share_out(part, limit, q as u32) - empty * q;
    let most = open_starts(limit, q as u32, bins);
    let handed = turns(part, limit, bins, lo, most, q as u32, left);
    if handed.left == 0 {
        Some(lo as u64 * q + handed.below)
    } else {
        None
    }
}
